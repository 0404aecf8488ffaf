//! Calls that take no memory: whichever growth is refused, none of them answers 8. Two waits or more pend before each.
use crate::tests::play::play_all;
use crate::tests::script::Answer::{Done, Handle, NoApc, Pended, Previous, Status, ThreadApc};
use crate::tests::script::Request::{
    AlertableSleep, All, Any, Apc, Arm, ArmRoutine, Cancel, Close, Event, Exit, Mutex, Next, Pulse,
    Release, Reset, Semaphore, Set, Sleep, Timer, Unlock,
};
use crate::tests::script::ScenarioStep::{Call, Living, NoGrowth, Tick, Waiting};
use crate::tests::script::{
    ABANDONED, INFINITE, INVALID_HANDLE, IO_COMPLETION, NOT_OWNER, Scenario, TOO_MANY_POSTS,
};
use std::test::Fail;

const SCENARIOS: &[Scenario] = &[
    Scenario {
        shows: "signals take no memory",
        threads: 5,
        steps: &[
            Call(0, Event(0), &[], Handle(5), &[]),
            Call(0, Semaphore(0, 9), &[], Handle(6), &[]),
            Call(0, Mutex(1), &[], Handle(7), &[]),
            Call(1, All(INFINITE), &[5, 6], Pended, &[]),
            Call(2, Any(INFINITE), &[7], Pended, &[]),
            Call(3, Any(INFINITE), &[0], Pended, &[]),
            Call(4, Sleep(INFINITE), &[], Pended, &[]),
            NoGrowth(0, Set, &[5], Done, &[]),
            NoGrowth(0, Reset, &[5], Done, &[]),
            NoGrowth(0, Pulse, &[5], Done, &[]),
            NoGrowth(0, Set, &[5], Done, &[]),
            NoGrowth(0, Release(2), &[6], Previous(0), &[(1, 0)]),
            NoGrowth(0, Release(9), &[6], TOO_MANY_POSTS, &[]),
            NoGrowth(0, Unlock, &[7], Done, &[(2, 0)]),
            NoGrowth(0, Unlock, &[7], NOT_OWNER, &[]),
            Waiting(&[3, 4]),
        ],
    },
    Scenario {
        shows: "timers take no memory without a routine",
        threads: 3,
        steps: &[
            Call(0, Timer(0), &[], Handle(3), &[]),
            Call(0, Timer(1), &[], Handle(4), &[]),
            Call(1, All(INFINITE), &[3, 4], Pended, &[]),
            Call(2, AlertableSleep(INFINITE), &[], Pended, &[]),
            NoGrowth(0, Arm(0, 0), &[3], Done, &[]),
            NoGrowth(0, Arm(-90, 0), &[4], Done, &[]),
            NoGrowth(0, Cancel, &[4], Done, &[]),
            NoGrowth(0, Arm(-80, 1), &[4], Done, &[]),
            Waiting(&[1, 2]),
            Tick(79, Done, &[]),
            Tick(80, Done, &[(1, 0)]),
        ],
    },
    Scenario {
        shows: "expiries and the taking of apcs take no memory",
        threads: 3,
        steps: &[
            Call(0, Timer(0), &[], Handle(3), &[]),
            Call(0, ArmRoutine(-80, 0, 7, 9), &[3], Done, &[]),
            Call(2, Apc(5, 6), &[0], Done, &[]),
            Call(0, AlertableSleep(0), &[], Status(IO_COMPLETION), &[]),
            Call(1, Any(INFINITE), &[3], Pended, &[]),
            Call(2, Sleep(INFINITE), &[], Pended, &[]),
            NoGrowth(0, Next, &[], ThreadApc(5, 6), &[]),
            NoGrowth(0, Next, &[], NoApc, &[]),
            Waiting(&[1, 2]),
            Tick(80, Done, &[(1, 0)]),
        ],
    },
    Scenario {
        shows: "an exit takes no memory",
        threads: 3,
        steps: &[
            Call(0, Mutex(1), &[], Handle(3), &[]),
            Call(0, Mutex(1), &[], Handle(4), &[]),
            Call(0, Timer(0), &[], Handle(5), &[]),
            Call(0, ArmRoutine(-80, 0, 7, 9), &[5], Done, &[]),
            Call(0, Apc(5, 6), &[0], Done, &[]),
            Call(1, All(INFINITE), &[3, 4], Pended, &[]),
            Call(2, Any(INFINITE), &[0], Pended, &[]),
            NoGrowth(0, Exit, &[], Done, &[(2, 0), (1, ABANDONED)]),
        ],
    },
    Scenario {
        shows: "to close takes no memory, nor does the end of objects",
        threads: 4,
        steps: &[
            Call(0, Event(0), &[], Handle(4), &[]),
            Call(0, Mutex(1), &[], Handle(5), &[]),
            Call(0, Timer(0), &[], Handle(6), &[]),
            Call(0, ArmRoutine(-80, 0, 7, 9), &[6], Done, &[]),
            Call(1, Any(INFINITE), &[4], Pended, &[]),
            Call(2, Any(INFINITE), &[5], Pended, &[]),
            NoGrowth(0, Close, &[4], Done, &[]),
            NoGrowth(0, Close, &[5], Done, &[]),
            NoGrowth(0, Close, &[6], Done, &[]),
            NoGrowth(0, Close, &[3], Done, &[]),
            NoGrowth(0, Close, &[3], INVALID_HANDLE, &[]),
            Living(6),
            NoGrowth(0, Exit, &[], Done, &[(2, ABANDONED)]),
            Living(5),
        ],
    },
];

#[test]
fn calls_that_grow_nothing_are_never_refused_for_memory(rt: HostRuntime) -> Result<(), Fail> {
    play_all(&rt, SCENARIOS)
}
