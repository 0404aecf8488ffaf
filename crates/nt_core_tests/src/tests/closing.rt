//! Close, and the end of objects that no handle, no pending wait and no running thread keeps.
use crate::tests::play::{play_all, play_all_in_both};
use crate::tests::script::Answer::{Done, Handle, NoApc, Pended, Status};
use crate::tests::script::Request::{
    AlertableAny, AlertableSleep, All, Any, Apc, Arm, ArmRoutine, Cancel, Close, Duplicate, Event,
    Exit, Mutex, Next, Pulse, Release, Reset, Set, Swap, Timer, Unlock,
};
use crate::tests::script::ScenarioStep::{Call, Living, NoGrowth, Tested, Tick, Waiting};
use crate::tests::script::{
    ABANDONED, ACCESS_DENIED, INFINITE, INVALID_HANDLE, IO_COMPLETION, Scenario, THREAD_ENDED,
    TIMEOUT,
};
use std::test::Fail;

/// SYNCHRONIZE: to wait for it.
const MAY_WAIT: u32 = 0x0010_0000;

/// EVENT_MODIFY_STATE: to signal it.
const MAY_SIGNAL: u32 = 0x0002;

/// Both rights of an event.
const ALL_OF_EVENT: u32 = 0x0010_0002;

/// Handles that are closed.
fn handles() -> &'static [Scenario] {
    HANDLES
}

const HANDLES: &[Scenario] = &[
    Scenario {
        shows: "a wait keeps what no handle names any more",
        threads: 2,
        steps: &[
            Living(2),
            Call(0, Event(0), &[], Handle(2), &[]),
            Call(0, Duplicate(MAY_WAIT), &[2], Handle(3), &[]),
            Call(0, Set, &[3], ACCESS_DENIED, &[]),
            Call(1, Any(INFINITE), &[3], Pended, &[]),
            NoGrowth(0, Close, &[2], Done, &[]),
            NoGrowth(0, Close, &[3], Done, &[]),
            Tested(0),
            Call(0, Set, &[2], INVALID_HANDLE, &[]),
            Living(3),
            Call(0, Exit, &[], Done, &[]),
            Waiting(&[1]),
            Living(3),
        ],
    },
    Scenario {
        shows: "an owned mutex is closed while a wait names it",
        threads: 2,
        steps: &[
            Call(0, Mutex(1), &[], Handle(2), &[]),
            Call(1, Any(INFINITE), &[2], Pended, &[]),
            NoGrowth(0, Close, &[2], Done, &[]),
            Living(3),
            Call(0, Unlock, &[2], INVALID_HANDLE, &[]),
            Call(0, Exit, &[], Done, &[(1, ABANDONED)]),
            Living(2),
        ],
    },
    Scenario {
        shows: "a handle without rights is closed, once",
        threads: 1,
        steps: &[
            Call(0, Event(2), &[], Handle(1), &[]),
            Call(0, Duplicate(MAY_SIGNAL), &[1], Handle(2), &[]),
            Call(0, Any(0), &[2], ACCESS_DENIED, &[]),
            Call(0, Duplicate(ALL_OF_EVENT), &[2], ACCESS_DENIED, &[]),
            Call(0, Duplicate(0), &[1], Handle(3), &[]),
            Call(0, Reset, &[2], Done, &[]),
            NoGrowth(0, Close, &[3], Done, &[]),
            NoGrowth(0, Close, &[3], INVALID_HANDLE, &[]),
            Call(0, Any(0), &[1], Status(TIMEOUT), &[]),
            Living(2),
        ],
    },
    Scenario {
        shows: "a closed number names nothing, and is not handed out again",
        threads: 1,
        steps: &[
            Call(0, Event(0), &[], Handle(1), &[]),
            NoGrowth(0, Close, &[1], Done, &[]),
            Living(1),
            Call(0, Event(2), &[], Handle(2), &[]),
            Living(2),
            Call(0, Set, &[1], INVALID_HANDLE, &[]),
            Call(0, Reset, &[1], INVALID_HANDLE, &[]),
            Call(0, Pulse, &[1], INVALID_HANDLE, &[]),
            Call(0, Release(1), &[1], INVALID_HANDLE, &[]),
            Call(0, Unlock, &[1], INVALID_HANDLE, &[]),
            Call(0, Arm(0, 0), &[1], INVALID_HANDLE, &[]),
            Call(0, Cancel, &[1], INVALID_HANDLE, &[]),
            Call(0, Apc(1, 1), &[1], INVALID_HANDLE, &[]),
            Call(0, Duplicate(0), &[1], INVALID_HANDLE, &[]),
            Call(0, Any(0), &[2, 1], INVALID_HANDLE, &[]),
            Call(0, Swap(0), &[1, 2], INVALID_HANDLE, &[]),
            Call(0, Swap(0), &[2, 1], INVALID_HANDLE, &[]),
            Call(0, Any(0), &[2], Status(0), &[]),
        ],
    },
    Scenario {
        shows: "a number that names nothing can't be closed",
        threads: 1,
        steps: &[
            NoGrowth(0, Close, &[1], INVALID_HANDLE, &[]),
            NoGrowth(0, Close, &[65535], INVALID_HANDLE, &[]),
            NoGrowth(0, Close, &[65536], INVALID_HANDLE, &[]),
            NoGrowth(0, Close, &[u32::MAX], INVALID_HANDLE, &[]),
            Call(0, Event(0), &[], Handle(1), &[]),
            Living(2),
        ],
    },
    Scenario {
        shows: "the last of two handles is closed",
        threads: 1,
        steps: &[
            Call(0, Event(0), &[], Handle(1), &[]),
            Call(0, Duplicate(ALL_OF_EVENT), &[1], Handle(2), &[]),
            NoGrowth(0, Close, &[1], Done, &[]),
            Living(2),
            Call(0, Set, &[2], Done, &[]),
            Call(0, Any(0), &[2], Status(0), &[]),
            NoGrowth(0, Close, &[2], Done, &[]),
            Living(1),
        ],
    },
];

/// Threads that end.
fn threads() -> &'static [Scenario] {
    THREADS
}

const THREADS: &[Scenario] = &[
    Scenario {
        shows: "an owned mutex that nobody waits for is closed, and its owner ends",
        threads: 2,
        steps: &[
            Call(0, Mutex(1), &[], Handle(2), &[]),
            Call(0, Mutex(1), &[], Handle(3), &[]),
            NoGrowth(0, Close, &[2], Done, &[]),
            Living(3),
            Call(1, Any(INFINITE), &[3], Pended, &[]),
            Call(0, Exit, &[], Done, &[(1, ABANDONED)]),
            Tested(1),
            Living(3),
        ],
    },
    Scenario {
        shows: "a thread whose handle is closed runs on, is waited for, and is gone once it ended",
        threads: 2,
        steps: &[
            Call(0, Duplicate(MAY_WAIT), &[1], Handle(2), &[]),
            NoGrowth(0, Close, &[1], Done, &[]),
            Living(2),
            Call(1, Event(0), &[], Handle(3), &[]),
            Call(0, Any(0), &[1], INVALID_HANDLE, &[]),
            Call(0, Any(INFINITE), &[2], Pended, &[]),
            NoGrowth(1, Close, &[2], Done, &[]),
            Living(3),
            Call(1, Exit, &[], Done, &[(0, 0)]),
            Living(2),
            Call(0, Any(0), &[2], INVALID_HANDLE, &[]),
            Call(1, Set, &[3], THREAD_ENDED, &[]),
        ],
    },
    Scenario {
        shows: "a thread closes its own handle, and ends",
        threads: 2,
        steps: &[
            NoGrowth(1, Close, &[1], Done, &[]),
            Living(2),
            Call(0, Apc(1, 1), &[1], INVALID_HANDLE, &[]),
            Call(1, Exit, &[], Done, &[]),
            Living(1),
            Call(1, Exit, &[], THREAD_ENDED, &[]),
        ],
    },
    Scenario {
        shows: "a thread that has ended lives until its handle is closed",
        threads: 2,
        steps: &[
            Call(1, Exit, &[], Done, &[]),
            Living(2),
            Call(0, Any(0), &[1], Status(0), &[]),
            NoGrowth(0, Close, &[1], Done, &[]),
            Living(1),
        ],
    },
    Scenario {
        shows: "a wait for all keeps a thread that has ended",
        threads: 3,
        steps: &[
            Call(0, Event(0), &[], Handle(3), &[]),
            Call(0, All(INFINITE), &[1, 3], Pended, &[]),
            NoGrowth(1, Close, &[1], Done, &[]),
            Call(1, Exit, &[], Done, &[]),
            Living(4),
            Call(2, Set, &[3], Done, &[(0, 0)]),
            Living(3),
        ],
    },
];

/// Waits that keep objects, and let go of them.
fn waits() -> &'static [Scenario] {
    WAITS
}

const WAITS: &[Scenario] = &[
    Scenario {
        shows: "one of two waits that keep an object times out, and one is granted, in one tick",
        threads: 3,
        steps: &[
            Call(0, Event(0), &[], Handle(3), &[]),
            Call(0, Timer(0), &[], Handle(4), &[]),
            Call(0, Arm(10000, 0), &[4], Done, &[]),
            Call(1, Any(2), &[3], Pended, &[]),
            Call(2, Any(INFINITE), &[3, 4], Pended, &[]),
            NoGrowth(0, Close, &[3], Done, &[]),
            Living(5),
            Tick(20000, Done, &[(2, 1), (1, TIMEOUT)]),
            Living(4),
        ],
    },
    Scenario {
        shows: "a wait that is granted lets go of what it did not take",
        threads: 2,
        steps: &[
            Call(0, Event(0), &[], Handle(2), &[]),
            Call(0, Event(0), &[], Handle(3), &[]),
            Call(1, Any(INFINITE), &[2, 3], Pended, &[]),
            NoGrowth(0, Close, &[3], Done, &[]),
            Living(4),
            Call(0, Set, &[2], Done, &[(1, 0)]),
            Living(3),
            NoGrowth(0, Close, &[2], Done, &[]),
            Living(2),
        ],
    },
    Scenario {
        shows: "a wait that an apc ends lets go of each object",
        threads: 2,
        steps: &[
            Call(0, Event(0), &[], Handle(2), &[]),
            Call(0, Event(0), &[], Handle(3), &[]),
            Call(1, AlertableAny(INFINITE), &[2, 3], Pended, &[]),
            NoGrowth(0, Close, &[2], Done, &[]),
            NoGrowth(0, Close, &[3], Done, &[]),
            Living(4),
            Call(0, Apc(5, 6), &[1], Done, &[(1, IO_COMPLETION)]),
            Living(2),
        ],
    },
    Scenario {
        shows: "a swap keeps what it waits for, and not what it signaled",
        threads: 2,
        steps: &[
            Call(0, Event(0), &[], Handle(2), &[]),
            Call(0, Event(0), &[], Handle(3), &[]),
            Call(1, Swap(1), &[2, 3], Pended, &[]),
            NoGrowth(0, Close, &[2], Done, &[]),
            Living(3),
            NoGrowth(0, Close, &[3], Done, &[]),
            Living(3),
            Tick(10000, Done, &[(1, TIMEOUT)]),
            Living(2),
        ],
    },
];

/// Timers that are closed.
fn timers() -> &'static [Scenario] {
    TIMERS
}

const TIMERS: &[Scenario] = &[
    Scenario {
        shows: "a closed timer that a wait names expires, alerts, and its apc is withdrawn",
        threads: 2,
        steps: &[
            Call(0, Timer(0), &[], Handle(2), &[]),
            Call(0, ArmRoutine(10000, 0, 7, 9), &[2], Done, &[]),
            Call(1, Any(INFINITE), &[2], Pended, &[]),
            NoGrowth(0, Close, &[2], Done, &[]),
            Call(0, AlertableSleep(INFINITE), &[], Pended, &[]),
            Living(3),
            Tick(10000, Done, &[(1, 0), (0, IO_COMPLETION)]),
            Living(2),
            Call(0, Next, &[], NoApc, &[]),
        ],
    },
    Scenario {
        shows: "a closed timer whose only wait timed out expires at a later moment of the same tick",
        threads: 2,
        steps: &[
            Call(0, Timer(1), &[], Handle(2), &[]),
            Call(0, ArmRoutine(20000, 0, 7, 9), &[2], Done, &[]),
            Call(1, Any(1), &[2], Pended, &[]),
            NoGrowth(0, Close, &[2], Done, &[]),
            Call(0, AlertableSleep(INFINITE), &[], Pended, &[]),
            Tick(30000, Done, &[(1, TIMEOUT), (0, IO_COMPLETION)]),
            Living(2),
            Call(0, Next, &[], NoApc, &[]),
        ],
    },
    Scenario {
        shows: "a closed timer whose only wait timed out is not there for the next tick",
        threads: 2,
        steps: &[
            Call(0, Timer(1), &[], Handle(2), &[]),
            Call(0, ArmRoutine(20000, 0, 7, 9), &[2], Done, &[]),
            Call(1, Any(1), &[2], Pended, &[]),
            NoGrowth(0, Close, &[2], Done, &[]),
            Call(0, AlertableSleep(INFINITE), &[], Pended, &[]),
            Tick(10000, Done, &[(1, TIMEOUT)]),
            Living(2),
            Tick(30000, Done, &[]),
            Waiting(&[0]),
        ],
    },
    Scenario {
        shows: "a timer that is not armed is closed while its apc is queued",
        threads: 1,
        steps: &[
            Call(0, Timer(0), &[], Handle(1), &[]),
            Call(0, ArmRoutine(0, 0, 7, 9), &[1], Done, &[]),
            NoGrowth(0, Close, &[1], Done, &[]),
            Living(1),
            Call(0, AlertableSleep(0), &[], Status(0), &[]),
            Call(0, Next, &[], NoApc, &[]),
        ],
    },
    Scenario {
        shows: "a closed timer with a period expires no more",
        threads: 2,
        steps: &[
            Call(0, Timer(0), &[], Handle(2), &[]),
            Call(0, ArmRoutine(10000, 1, 7, 9), &[2], Done, &[]),
            Tick(10000, Done, &[]),
            NoGrowth(0, Close, &[2], Done, &[]),
            Living(2),
            Call(0, AlertableSleep(INFINITE), &[], Pended, &[]),
            Tick(50000, Done, &[]),
            Waiting(&[0]),
            Call(1, Timer(0), &[], Handle(3), &[]),
            Call(1, Arm(60000, 0), &[3], Done, &[]),
            Tick(60000, Done, &[]),
            Call(1, Any(0), &[3], Status(0), &[]),
        ],
    },
];

#[test]
fn objects_end_once_nothing_keeps_them(rt: HostRuntime) -> Result<(), Fail> {
    play_all(&rt, handles())?;
    play_all(&rt, threads())?;
    play_all(&rt, waits())?;
    play_all(&rt, timers())
}

#[test]
fn objects_end_alike_in_copies(rt: HostRuntime) -> Result<(), Fail> {
    play_all_in_both(&rt, handles())?;
    play_all_in_both(&rt, threads())?;
    play_all_in_both(&rt, waits())?;
    play_all_in_both(&rt, timers())
}
