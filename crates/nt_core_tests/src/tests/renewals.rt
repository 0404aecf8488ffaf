//! Numbers that are given again: those of objects that are gone, of handles that were closed, and of threads that have ended.
use crate::tests::play::play_all_in_both;
use crate::tests::script::Answer::{Done, Handle, NoApc, Object, Pended, Previous, Status};
use crate::tests::script::Request::{
    AlertableSleep, All, Any, Apc, ArmRoutine, Close, Duplicate, Event, Exit, Mutex, Next, Release,
    Semaphore, Set, Timer, Unlock,
};
use crate::tests::script::ScenarioStep::{
    AddVacant, BeginAgain, Call, Closed, CreateAgain, DuplicateAgain, Living, NoGrowth, SetAside,
    Tested, Tick, Vacant,
};
use crate::tests::script::{
    ABANDONED, ACCESS_DENIED, HANDLE_LIMIT, INFINITE, INVALID_HANDLE, INVALID_PARAMETER, NOT_OWNER,
    Scenario, THREAD_ENDED, THREAD_WAITING, TIMEOUT, UNKNOWN_THREAD,
};
use std::test::Fail;

/// SYNCHRONIZE: to wait for it.
const MAY_WAIT: u32 = 0x0010_0000;

const OBJECTS: &[Scenario] = &[
    Scenario {
        shows: "a new object has nothing of the one whose number it gets",
        threads: 2,
        steps: &[
            Call(0, Mutex(1), &[], Handle(2), &[]),
            Vacant(&[0, 1, 2, 3], false),
            Closed(&[0, 1, 2, 3, u32::MAX], false),
            CreateAgain(0, Semaphore(1, 2), 2, 2, INVALID_HANDLE),
            NoGrowth(0, Close, &[2], Done, &[]),
            Vacant(&[2], true),
            Closed(&[2], true),
            CreateAgain(0, Semaphore(3, 2), 2, 2, INVALID_PARAMETER),
            CreateAgain(0, Set, 2, 2, INVALID_PARAMETER),
            CreateAgain(0, Semaphore(1, 2), 3, 2, INVALID_HANDLE),
            CreateAgain(0, Semaphore(1, 2), 2, 3, INVALID_HANDLE),
            CreateAgain(2, Semaphore(3, 2), 2, 2, UNKNOWN_THREAD),
            CreateAgain(0, Semaphore(1, 2), 2, 2, Handle(2)),
            Tested(0),
            Living(3),
            CreateAgain(0, Semaphore(1, 2), 2, 2, INVALID_HANDLE),
            Call(0, Unlock, &[2], INVALID_HANDLE, &[]),
            Call(0, Release(1), &[2], Previous(1), &[]),
            Call(1, Exit, &[], Done, &[]),
            CreateAgain(1, Event(0), 2, 2, THREAD_ENDED),
        ],
    },
    Scenario {
        shows: "a number stays taken while a wait names its object",
        threads: 2,
        steps: &[
            Call(0, Mutex(1), &[], Handle(2), &[]),
            Call(1, Any(INFINITE), &[2], Pended, &[]),
            NoGrowth(0, Close, &[2], Done, &[]),
            Vacant(&[2], false),
            Closed(&[2], true),
            CreateAgain(0, Event(0), 2, 2, INVALID_HANDLE),
            CreateAgain(1, Event(0), 2, 2, THREAD_WAITING),
            DuplicateAgain(0, 0, MAY_WAIT, 2, Handle(2)),
            Call(0, Exit, &[], Done, &[(1, ABANDONED)]),
            Vacant(&[2], true),
            CreateAgain(1, Event(2), 2, 2, INVALID_HANDLE),
            NoGrowth(1, Close, &[2], Done, &[]),
            CreateAgain(1, Event(2), 2, 2, Handle(2)),
            Call(1, Any(0), &[2], Status(0), &[]),
            Call(1, Any(0), &[2], Status(TIMEOUT), &[]),
        ],
    },
    Scenario {
        shows: "a timer given again is not armed, and its routine does not run",
        threads: 1,
        steps: &[
            Call(0, Timer(0), &[], Handle(1), &[]),
            Call(0, ArmRoutine(10_000, 1, 7, 9), &[1], Done, &[]),
            Tick(10_000, Done, &[]),
            NoGrowth(0, Close, &[1], Done, &[]),
            CreateAgain(0, Timer(0), 1, 1, Handle(1)),
            Tick(50_000, Done, &[]),
            Call(0, AlertableSleep(0), &[], Status(0), &[]),
            Call(0, Next, &[], NoApc, &[]),
            Call(0, Any(0), &[1], Status(TIMEOUT), &[]),
        ],
    },
    Scenario {
        shows: "waits that one tick ends are ended by rising number, whichever object is the younger",
        threads: 3,
        steps: &[
            Call(0, Timer(0), &[], Handle(3), &[]),
            Call(0, Timer(0), &[], Handle(4), &[]),
            NoGrowth(0, Close, &[3], Done, &[]),
            CreateAgain(0, Timer(0), 3, 3, Handle(3)),
            Call(0, ArmRoutine(-10, 0, 1, 1), &[4], Done, &[]),
            Call(0, ArmRoutine(-10, 0, 1, 1), &[3], Done, &[]),
            Call(1, Any(INFINITE), &[4], Pended, &[]),
            Call(2, Any(INFINITE), &[3], Pended, &[]),
            Tick(10, Done, &[(2, 0), (1, 0)]),
        ],
    },
];

#[test]
fn numbers_given_again(rt: HostRuntime) -> Result<(), Fail> {
    play_all_in_both(&rt, OBJECTS)
}

const HANDLES: &[Scenario] = &[
    Scenario {
        shows: "a handle given again has the rights that it was given",
        threads: 1,
        steps: &[
            Call(0, Event(0), &[], Handle(1), &[]),
            Call(0, Duplicate(MAY_WAIT), &[1], Handle(2), &[]),
            NoGrowth(0, Close, &[1], Done, &[]),
            Vacant(&[1], false),
            DuplicateAgain(0, 3, MAY_WAIT, 1, INVALID_HANDLE),
            DuplicateAgain(0, 2, 2, 1, ACCESS_DENIED),
            DuplicateAgain(0, 2, 1, 1, ACCESS_DENIED),
            DuplicateAgain(0, 2, 2, 2, ACCESS_DENIED),
            DuplicateAgain(0, 2, MAY_WAIT, 2, INVALID_HANDLE),
            DuplicateAgain(1, 2, MAY_WAIT, 1, UNKNOWN_THREAD),
            DuplicateAgain(0, 2, 0, 1, Handle(1)),
            Call(0, Set, &[1], ACCESS_DENIED, &[]),
            Call(0, Any(0), &[1], ACCESS_DENIED, &[]),
            Call(0, Any(0), &[2], Status(TIMEOUT), &[]),
            NoGrowth(0, Close, &[2], Done, &[]),
            Living(2),
            NoGrowth(0, Close, &[1], Done, &[]),
            Living(1),
        ],
    },
    Scenario {
        shows: "duplicates use no object numbers, and so one may be added by itself",
        threads: 1,
        steps: &[
            AddVacant(HANDLE_LIMIT),
            Call(0, Duplicate(MAY_WAIT), &[0], Handle(1), &[]),
            NoGrowth(0, Close, &[1], Done, &[]),
            CreateAgain(0, Event(0), 1, 1, INVALID_HANDLE),
            AddVacant(Object(1)),
            AddVacant(HANDLE_LIMIT),
            Living(1),
            Vacant(&[1], true),
            CreateAgain(0, Event(2), 1, 1, Handle(1)),
            Living(2),
            Call(0, Any(0), &[1], Status(0), &[]),
            Call(0, Event(0), &[], Handle(2), &[]),
            Call(0, Any(0), &[2], Status(TIMEOUT), &[]),
        ],
    },
];

#[test]
fn handles_given_again(rt: HostRuntime) -> Result<(), Fail> {
    play_all_in_both(&rt, HANDLES)
}

const THREADS: &[Scenario] = &[
    Scenario {
        shows: "a thread begins again once it has ended and its object is gone",
        threads: 2,
        steps: &[
            Call(0, Mutex(0), &[], Handle(2), &[]),
            Call(1, Any(0), &[2], Status(0), &[]),
            Call(0, Event(0), &[], Handle(3), &[]),
            NoGrowth(0, Close, &[3], Done, &[]),
            BeginAgain(1, 3, INVALID_HANDLE),
            Call(0, Apc(7, 9), &[1], Done, &[]),
            Call(1, Exit, &[], Done, &[]),
            BeginAgain(1, 3, INVALID_HANDLE),
            NoGrowth(0, Close, &[1], Done, &[]),
            Vacant(&[1], false),
            BeginAgain(2, 3, INVALID_HANDLE),
            BeginAgain(1, 0, INVALID_HANDLE),
            BeginAgain(1, 3, Handle(3)),
            BeginAgain(1, 1, INVALID_HANDLE),
            Call(1, AlertableSleep(0), &[], Status(0), &[]),
            Call(1, Next, &[], NoApc, &[]),
            Call(1, Unlock, &[2], NOT_OWNER, &[]),
            Call(0, Any(INFINITE), &[3], Pended, &[]),
            Call(1, Exit, &[], Done, &[(0, 0)]),
        ],
    },
    Scenario {
        shows: "a thread that begins again may not take the APCs for which the last one woke",
        threads: 2,
        steps: &[
            Call(0, Apc(7, 9), &[1], Done, &[]),
            Call(1, AlertableSleep(0), &[], Status(0xC0), &[]),
            Call(1, Exit, &[], Done, &[]),
            NoGrowth(0, Close, &[1], Done, &[]),
            BeginAgain(1, 1, Handle(1)),
            Call(0, Apc(7, 9), &[1], Done, &[]),
            Call(1, Next, &[], NoApc, &[]),
        ],
    },
];

#[test]
fn threads_begin_again(rt: HostRuntime) -> Result<(), Fail> {
    play_all_in_both(&rt, THREADS)
}

const ASIDE: &[Scenario] = &[
    Scenario {
        shows: "the object of an ended thread is set aside, and its place is another thread's",
        threads: 2,
        steps: &[
            Call(0, Event(0), &[], Handle(2), &[]),
            Call(1, Exit, &[], Done, &[]),
            SetAside(1, 2, INVALID_HANDLE),
            NoGrowth(0, Close, &[2], Done, &[]),
            SetAside(0, 2, INVALID_HANDLE),
            SetAside(2, 2, INVALID_HANDLE),
            SetAside(1, 1, INVALID_HANDLE),
            SetAside(1, 3, INVALID_HANDLE),
            SetAside(1, 2, Done),
            Tested(0),
            Living(2),
            Vacant(&[2], false),
            SetAside(1, 2, INVALID_HANDLE),
            BeginAgain(1, 2, Handle(2)),
            Living(3),
            Call(0, Any(0), &[1], Status(0), &[]),
            Call(0, Any(0), &[2], Status(TIMEOUT), &[]),
            Call(0, Apc(7, 9), &[2], Done, &[]),
            Call(0, Any(INFINITE), &[2], Pended, &[]),
            Call(1, Exit, &[], Done, &[(0, 0)]),
            NoGrowth(0, Close, &[1], Done, &[]),
            Living(2),
            Vacant(&[2], true),
            SetAside(1, 2, Done),
            Call(0, Any(0), &[2], Status(0), &[]),
        ],
    },
    Scenario {
        shows: "an object is set aside once no wait names it, and then all its handles name it",
        threads: 3,
        steps: &[
            Call(0, Event(0), &[], Handle(3), &[]),
            Call(0, Event(0), &[], Handle(4), &[]),
            NoGrowth(0, Close, &[4], Done, &[]),
            DuplicateAgain(0, 1, MAY_WAIT, 4, Handle(4)),
            Call(2, All(INFINITE), &[1, 3], Pended, &[]),
            Call(1, Exit, &[], Done, &[]),
            SetAside(1, 4, INVALID_HANDLE),
            Call(0, Set, &[3], Done, &[(2, 0)]),
            SetAside(1, 4, Done),
            Call(2, All(INFINITE), &[4, 3], Pended, &[]),
            NoGrowth(0, Close, &[1], Done, &[]),
            Call(0, Set, &[3], Done, &[(2, 0)]),
            Call(2, Any(0), &[4], Status(0), &[]),
            NoGrowth(0, Close, &[4], Done, &[]),
            Living(3),
            Vacant(&[4], true),
        ],
    },
    Scenario {
        shows: "no object is set aside that nothing names",
        threads: 2,
        steps: &[
            Call(0, Event(0), &[], Handle(2), &[]),
            NoGrowth(0, Close, &[2], Done, &[]),
            NoGrowth(0, Close, &[1], Done, &[]),
            Call(1, Exit, &[], Done, &[]),
            SetAside(1, 2, INVALID_HANDLE),
            Living(1),
        ],
    },
];

#[test]
fn ended_threads_are_set_aside(rt: HostRuntime) -> Result<(), Fail> {
    play_all_in_both(&rt, ASIDE)
}
