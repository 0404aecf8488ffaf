//! Calls that no script can say: flags that no creation has, callers of ten digits, handles as a slice, and the end of all handle numbers.
use crate::tests::play::play_all;
use crate::tests::script::Answer::{Done, Handle, Pended, Status};
use crate::tests::script::Request::{
    AlertableAny, All, Any, Apc, Close, Duplicate, Event, Mutex, Set, Sleep, Timer,
};
use crate::tests::script::ScenarioStep::{Call, CreateEvents, Living, Slice, Waiting};
use crate::tests::script::{
    ACCESS_DENIED, HANDLE_LIMIT, INFINITE, INVALID_HANDLE, INVALID_PARAMETER, IO_COMPLETION,
    Scenario, THREAD_WAITING, TIMEOUT, UNKNOWN_THREAD,
};
use std::test::Fail;

/// SYNCHRONIZE: to wait for it.
const MAY_WAIT: u32 = 0x0010_0000;

/// THREAD_SET_CONTEXT: to queue an APC to it.
const MAY_QUEUE: u32 = 0x0010;

/// All handles of 65 threads.
const NUMBERS_0_TO_64: &[u32] = &[
    0, 1, 2, 3, 4, 5, 6, 7, 8, 9, 10, 11, 12, 13, 14, 15, 16, 17, 18, 19, 20, 21, 22, 23, 24, 25,
    26, 27, 28, 29, 30, 31, 32, 33, 34, 35, 36, 37, 38, 39, 40, 41, 42, 43, 44, 45, 46, 47, 48, 49,
    50, 51, 52, 53, 54, 55, 56, 57, 58, 59, 60, 61, 62, 63, 64,
];

const SCENARIOS: &[Scenario] = &[
    Scenario {
        shows: "a flag that no creation has is refused, once the caller was judged",
        threads: 2,
        steps: &[
            Call(0, Event(4), &[], INVALID_PARAMETER, &[]),
            Call(0, Event(0x8000_0001), &[], INVALID_PARAMETER, &[]),
            Call(0, Mutex(2), &[], INVALID_PARAMETER, &[]),
            Call(0, Timer(2), &[], INVALID_PARAMETER, &[]),
            Call(2, Event(4), &[], UNKNOWN_THREAD, &[]),
            Call(u32::MAX, Sleep(0), &[], UNKNOWN_THREAD, &[]),
            Call(1, Any(INFINITE), &[0], Pended, &[]),
            Call(1, Event(4), &[], THREAD_WAITING, &[]),
            Call(0, Event(0), &[], Handle(2), &[]),
        ],
    },
    Scenario {
        shows: "the handles of a wait may stand in a slice",
        threads: 3,
        steps: &[
            Slice(0, Any(0), &[], INVALID_PARAMETER, &[]),
            Slice(0, Any(0), &[3], INVALID_HANDLE, &[]),
            Slice(0, Any(0), NUMBERS_0_TO_64, INVALID_PARAMETER, &[]),
            Slice(3, Any(0), &[0], UNKNOWN_THREAD, &[]),
            Call(2, Event(0), &[], Handle(3), &[]),
            Call(2, Event(0), &[], Handle(4), &[]),
            Slice(0, Any(INFINITE), &[4, 3], Pended, &[]),
            Slice(0, Any(0), &[4], THREAD_WAITING, &[]),
            Slice(1, All(INFINITE), &[3, 4], Pended, &[]),
            Call(2, Set, &[3], Done, &[(0, 1)]),
            Call(2, Set, &[3], Done, &[]),
            Call(2, Set, &[4], Done, &[(1, 0)]),
            Slice(2, Any(0), &[3], Status(TIMEOUT), &[]),
            Slice(0, AlertableAny(INFINITE), &[3], Pended, &[]),
            Call(2, Apc(1, 2), &[0], Done, &[(0, IO_COMPLETION)]),
            Waiting(&[]),
        ],
    },
    Scenario {
        shows: "handles end at 65535",
        threads: 1,
        steps: &[
            CreateEvents(0, 1, 65535),
            Call(0, Event(0), &[], HANDLE_LIMIT, &[]),
            Call(0, Event(4), &[], INVALID_PARAMETER, &[]),
            Call(0, Set, &[65535], Done, &[]),
            Call(0, Any(0), &[65535], Status(0), &[]),
        ],
    },
    Scenario {
        shows: "duplicates count among the 65536 handle numbers, which closing frees none of, and what is refused uses none",
        threads: 1,
        steps: &[
            CreateEvents(0, 1, 65533),
            Call(0, Duplicate(MAY_QUEUE), &[1], ACCESS_DENIED, &[]),
            Call(0, Duplicate(0), &[65534], INVALID_HANDLE, &[]),
            Call(0, Duplicate(MAY_WAIT), &[1], Handle(65534), &[]),
            Call(0, Event(4), &[], INVALID_PARAMETER, &[]),
            Call(0, Event(0), &[], Handle(65535), &[]),
            Call(0, Duplicate(MAY_WAIT), &[1], HANDLE_LIMIT, &[]),
            Call(0, Duplicate(MAY_QUEUE), &[1], ACCESS_DENIED, &[]),
            Call(0, Duplicate(0), &[65536], INVALID_HANDLE, &[]),
            Call(0, Event(0), &[], HANDLE_LIMIT, &[]),
            Call(0, Set, &[65535], Done, &[]),
            Call(0, Any(0), &[65534, 65535], Status(1), &[]),
            Call(0, Close, &[65535], Done, &[]),
            Living(65534),
            Call(0, Event(0), &[], HANDLE_LIMIT, &[]),
            Call(0, Duplicate(MAY_WAIT), &[1], HANDLE_LIMIT, &[]),
        ],
    },
];

#[test]
fn callers_are_judged(rt: HostRuntime) -> Result<(), Fail> {
    play_all(&rt, SCENARIOS)
}
