//! How many pending waits a call or tick tests: those on what it changed, as long as they may fit.
use crate::tests::play::play_all;
use crate::tests::script::Answer::{Done, Handle, Pended, Status};
use crate::tests::script::Request::{
    AlertableAny, All, Any, Apc, Arm, Event, Exit, Mutex, Set, Timer, Unlock,
};
use crate::tests::script::ScenarioStep::{Call, Idle, Tested, Tick, Waiting};
use crate::tests::script::{ABANDONED, INFINITE, IO_COMPLETION, Scenario};
use std::test::Fail;

const SCENARIOS: &[Scenario] = &[
    Scenario {
        shows: "only waits on changed objects are tested",
        threads: 3,
        steps: &[
            Call(2, Event(0), &[], Handle(3), &[]),
            Call(2, Event(0), &[], Handle(4), &[]),
            Call(0, All(INFINITE), &[3, 4], Pended, &[]),
            Call(1, Any(INFINITE), &[3], Pended, &[]),
            Call(2, Set, &[3], Done, &[(1, 0)]),
            Tested(2),
            Call(2, Set, &[4], Done, &[]),
            Tested(1),
            Call(2, Set, &[4], Done, &[]),
            Tested(0),
            Waiting(&[0]),
            Idle(&[1, 2, 3, 65536]),
        ],
    },
    Scenario {
        shows: "no wait is tested after the one that took the object",
        threads: 4,
        steps: &[
            Call(3, Event(0), &[], Handle(4), &[]),
            Call(3, Mutex(1), &[], Handle(5), &[]),
            Call(0, Any(INFINITE), &[4], Pended, &[]),
            Call(1, Any(INFINITE), &[4], Pended, &[]),
            Call(2, Any(INFINITE), &[5, 4], Pended, &[]),
            Call(3, Set, &[4], Done, &[(0, 0)]),
            Tested(1),
            Call(0, Any(INFINITE), &[5], Pended, &[]),
            Call(3, Unlock, &[5], Done, &[(2, 0)]),
            Tested(1),
            Call(3, Set, &[4], Done, &[(1, 0)]),
            Tested(1),
        ],
    },
    Scenario {
        shows: "an alert is no test",
        threads: 3,
        steps: &[
            Call(2, Event(0), &[], Handle(3), &[]),
            Call(0, AlertableAny(INFINITE), &[3], Pended, &[]),
            Call(1, Any(INFINITE), &[3], Pended, &[]),
            Call(2, Apc(4, 4), &[0], Done, &[(0, IO_COMPLETION)]),
            Tested(0),
            Call(2, Apc(4, 4), &[1], Done, &[]),
            Waiting(&[1]),
        ],
    },
    Scenario {
        shows: "the mutexes of a thread that ends are free and marked",
        threads: 2,
        steps: &[
            Call(0, Mutex(1), &[], Handle(2), &[]),
            Call(0, Mutex(1), &[], Handle(3), &[]),
            Call(1, Any(INFINITE), &[3, 2], Pended, &[]),
            Call(0, Exit, &[], Done, &[(1, ABANDONED)]),
            Tested(1),
            Call(1, Any(0), &[2], Status(ABANDONED), &[]),
            Call(1, Unlock, &[3], Done, &[]),
            Call(1, Any(0), &[3], Status(0), &[]),
            Waiting(&[]),
        ],
    },
    Scenario {
        shows: "a periodic timer expires once in a tick",
        threads: 2,
        steps: &[
            Call(0, Timer(0), &[], Handle(2), &[]),
            Call(0, Arm(10000, 1), &[2], Done, &[]),
            Call(0, Any(INFINITE), &[2], Pended, &[]),
            Call(1, Any(INFINITE), &[2], Pended, &[]),
            Tick(10_000_000, Done, &[(0, 0)]),
            Tested(2),
            Tick(10_009_999, Done, &[]),
            Tested(0),
            Tick(10_010_000, Done, &[(1, 0)]),
            Waiting(&[]),
        ],
    },
];

#[test]
fn no_more_waits_are_tested_than_may_fit(rt: HostRuntime) -> Result<(), Fail> {
    play_all(&rt, SCENARIOS)
}
