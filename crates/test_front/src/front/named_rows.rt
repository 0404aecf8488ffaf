//! Each call of a front by its name, on its happy path and refused. What it is to be answered is Win32's reference, as docs/WIN32.md has it;
//! a call that the reference never refuses is refused here by a full journal.
use crate::front::again_rows::Life;
use crate::front::asks::Does::{
    CancelTimer, Close, Pulse, QueueApc, ReleaseMutex, Reset, Set, SetTimer, TickTo,
};
use crate::front::asks::FrontRequest::{
    Await, Begin, Do, Exit, Make, NextApc, Now, Part, Poll, Release, Wait,
};
use crate::front::asks::Makes::{Event, OwnedMutex, Semaphore, Timer, ToModify, ToWait};
use crate::front::asks::Row;
use crate::front::asks::Waits::{All, Any, One, Sleep, Swap};
use crate::front::says::FrontAnswer::{
    Apc, Done, Ended, Entries, Full, Handle, Moment, NoApc, Pended, Previous, Refused, Still,
};

const INFINITE: u32 = 0xFFFF_FFFF;

/// WAIT_ABANDONED_0, WAIT_IO_COMPLETION and WAIT_TIMEOUT.
const ABANDONED: u32 = 0x80;

const IO_COMPLETION: u32 = 0xC0;

const TIMEOUT: u32 = 0x102;

/// The numbers of ERROR_ACCESS_DENIED and so on.
const ACCESS_DENIED: u32 = 5;

const INVALID_HANDLE: u32 = 6;

const GEN_FAILURE: u32 = 31;

const INVALID_PARAMETER: u32 = 87;

const NOT_OWNER: u32 = 288;

const TOO_MANY_POSTS: u32 = 298;

const MOMENT_BACK: u32 = 0x2000_0005;

/// The threads' handles are 0 and 1, so those of the objects begin at 2.
pub const SCENARIOS: &[Life] = &[
    Life {
        lasts: false,
        shows: "an event is created, set, reset and pulsed, and closed",
        room: 20,
        rows: &[
            Row(0, Make(Event), 1, Handle(2)),
            Row(0, Do(Set(2)), 2, Done),
            Row(0, Wait(One(2), 0, false), 3, Ended(0)),
            Row(0, Wait(One(2), 0, false), 4, Ended(TIMEOUT)),
            Row(0, Do(Set(2)), 5, Done),
            Row(0, Do(Reset(2)), 6, Done),
            Row(0, Wait(One(2), 0, false), 7, Ended(TIMEOUT)),
            Row(0, Do(Pulse(2)), 8, Done),
            Row(0, Wait(One(2), 0, false), 9, Ended(TIMEOUT)),
            Row(0, Do(Close(2)), 10, Done),
            Row(0, Do(Close(2)), 11, Refused(INVALID_HANDLE)),
            Row(0, Do(Set(0)), 12, Refused(INVALID_HANDLE)),
            Row(0, Do(Reset(2)), 13, Refused(INVALID_HANDLE)),
            Row(0, Do(Pulse(9)), 14, Refused(INVALID_HANDLE)),
            Row(0, Wait(One(9), 0, false), 15, Refused(INVALID_HANDLE)),
        ],
        rest: 15,
        renewed: &[],
    },
    Life {
        lasts: false,
        shows: "a semaphore tells the count before, and keeps to its maximum",
        room: 20,
        rows: &[
            Row(0, Make(Semaphore(0, 2)), 1, Handle(2)),
            Row(0, Make(Semaphore(3, 2)), 2, Refused(INVALID_PARAMETER)),
            Row(0, Release(2, 1), 3, Previous(0)),
            Row(0, Release(2, 1), 4, Previous(1)),
            Row(0, Release(2, 1), 5, Refused(TOO_MANY_POSTS)),
            Row(0, Release(2, 0), 6, Refused(INVALID_PARAMETER)),
            Row(0, Release(1, 1), 7, Refused(INVALID_HANDLE)),
        ],
        rest: 7,
        renewed: &[],
    },
    Life {
        lasts: false,
        shows: "a mutex is its owner's, and abandoned if its owner ends",
        room: 20,
        rows: &[
            Row(0, Make(OwnedMutex), 1, Handle(2)),
            Row(1, Do(ReleaseMutex(2)), 2, Refused(NOT_OWNER)),
            Row(0, Do(ReleaseMutex(2)), 3, Done),
            Row(1, Wait(One(2), 0, false), 4, Ended(0)),
            Row(1, Exit, 5, Done),
            Row(0, Wait(One(2), 0, false), 6, Ended(ABANDONED)),
            Row(0, Wait(One(1), 0, false), 7, Ended(0)),
            Row(0, Do(QueueApc(1, 7, 9)), 8, Refused(GEN_FAILURE)),
        ],
        rest: 8,
        renewed: &[],
    },
    Life {
        lasts: false,
        shows: "a timer expires once its time has come, unless it is canceled",
        room: 20,
        rows: &[
            Row(0, Make(Timer), 1, Handle(2)),
            Row(0, Do(SetTimer(2, -10_000, 0)), 2, Done),
            Row(
                0,
                Do(SetTimer(2, -10_000, -1)),
                3,
                Refused(INVALID_PARAMETER),
            ),
            Row(0, Do(TickTo(9_999)), 4, Done),
            Row(0, Wait(One(2), 0, false), 5, Ended(TIMEOUT)),
            Row(0, Do(TickTo(10_000)), 6, Done),
            Row(0, Wait(One(2), 0, false), 7, Ended(0)),
            Row(0, Do(TickTo(9_999)), 8, Refused(MOMENT_BACK)),
            Row(0, Do(SetTimer(2, -10_000, 0)), 9, Done),
            Row(0, Do(CancelTimer(2)), 10, Done),
            Row(0, Do(TickTo(30_000)), 11, Done),
            Row(0, Wait(One(2), 0, false), 12, Ended(TIMEOUT)),
            Row(0, Do(CancelTimer(1)), 13, Refused(INVALID_HANDLE)),
        ],
        rest: 13,
        renewed: &[],
    },
    Life {
        lasts: false,
        shows: "an APC is queued to a thread, and taken after a wait that it ended",
        room: 20,
        rows: &[
            Row(0, Do(QueueApc(1, 7, 9)), 1, Done),
            Row(0, Do(QueueApc(2, 7, 9)), 2, Refused(INVALID_HANDLE)),
            Row(1, NextApc, 3, NoApc),
            Row(1, Wait(Sleep, 0, true), 4, Ended(IO_COMPLETION)),
            Row(1, NextApc, 5, Apc(7, 9)),
            Row(1, NextApc, 6, NoApc),
            Row(1, Wait(Sleep, 0, false), 7, Ended(0)),
        ],
        rest: 7,
        renewed: &[],
    },
    Life {
        lasts: false,
        shows: "a duplicate has the rights that were asked for, and no others",
        room: 20,
        rows: &[
            Row(0, Make(Event), 1, Handle(2)),
            Row(0, Make(ToWait(2)), 2, Handle(3)),
            Row(0, Make(ToModify(3)), 3, Refused(ACCESS_DENIED)),
            Row(0, Do(Set(3)), 4, Refused(ACCESS_DENIED)),
            Row(0, Do(Set(2)), 5, Done),
            Row(0, Wait(One(3), 0, false), 6, Ended(0)),
        ],
        rest: 6,
        renewed: &[],
    },
    Life {
        lasts: false,
        shows: "a wait for any takes the first object, and one for all takes each or none",
        room: 20,
        rows: &[
            Row(0, Make(Event), 1, Handle(2)),
            Row(0, Make(Semaphore(2, 2)), 2, Handle(3)),
            Row(0, Wait(Any(&[2, 3]), 0, false), 3, Ended(1)),
            Row(0, Wait(All(&[2, 3]), 0, false), 4, Ended(TIMEOUT)),
            Row(0, Do(Set(2)), 5, Done),
            Row(0, Wait(All(&[3, 2]), 0, false), 6, Ended(0)),
            Row(0, Wait(Any(&[2, 3, 0, 1]), 0, false), 7, Ended(TIMEOUT)),
            Row(0, Make(Timer), 8, Handle(4)),
            Row(0, Do(Set(2)), 9, Done),
            Row(0, Wait(Any(&[3, 4, 0, 1, 2]), 0, false), 10, Ended(4)),
            Row(0, Wait(Any(&[]), 0, false), 11, Refused(INVALID_PARAMETER)),
            Row(
                0,
                Wait(All(&[2, 2]), 0, false),
                12,
                Refused(INVALID_PARAMETER),
            ),
            Row(0, Wait(All(&[2, 9]), 0, false), 13, Refused(INVALID_HANDLE)),
        ],
        rest: 13,
        renewed: &[],
    },
    Life {
        lasts: false,
        shows: "one object is signaled and another waited for",
        room: 20,
        rows: &[
            Row(0, Make(Event), 1, Handle(2)),
            Row(0, Make(OwnedMutex), 2, Handle(3)),
            Row(0, Wait(Swap(3, 2), 0, false), 3, Ended(TIMEOUT)),
            Row(0, Wait(Swap(2, 3), 0, false), 4, Ended(0)),
            Row(0, Wait(One(2), 0, false), 5, Ended(0)),
            Row(1, Wait(Swap(3, 2), 0, false), 6, Refused(NOT_OWNER)),
            Row(1, Begin(Swap(2, 3), INFINITE, false), 7, Pended),
            Row(0, Do(ReleaseMutex(3)), 8, Done),
            Row(1, Await, 9, Ended(0)),
            Row(
                1,
                Begin(Swap(9, 2), INFINITE, false),
                10,
                Refused(INVALID_HANDLE),
            ),
        ],
        rest: 10,
        renewed: &[],
    },
    Life {
        lasts: false,
        shows: "a wait that begins ends at once, or pends until it is granted",
        room: 40,
        rows: &[
            Row(0, Make(Event), 1, Handle(2)),
            Row(0, Make(Semaphore(1, 2)), 2, Handle(3)),
            Row(1, Begin(Any(&[2, 3]), INFINITE, false), 3, Ended(1)),
            Row(1, Begin(One(2), INFINITE, false), 4, Pended),
            Row(1, Poll, 0, Still),
            Row(0, Do(Set(2)), 5, Done),
            Row(1, Poll, 6, Ended(0)),
            Row(1, Begin(Any(&[2, 3]), INFINITE, false), 7, Pended),
            Row(0, Release(3, 1), 8, Previous(0)),
            Row(1, Await, 9, Ended(1)),
            Row(1, Begin(All(&[2, 3]), INFINITE, false), 10, Pended),
            Row(0, Do(Set(2)), 11, Done),
            Row(1, Poll, 0, Still),
            Row(0, Release(3, 1), 12, Previous(0)),
            Row(1, Await, 13, Ended(0)),
            Row(1, Begin(Sleep, 2, false), 14, Pended),
            Row(0, Do(TickTo(20_000)), 15, Done),
            Row(1, Await, 16, Ended(0)),
            Row(1, Begin(Sleep, INFINITE, true), 17, Pended),
            Row(0, Do(QueueApc(1, 7, 9)), 18, Done),
            Row(1, Await, 19, Ended(IO_COMPLETION)),
            Row(
                1,
                Begin(One(9), INFINITE, false),
                20,
                Refused(INVALID_HANDLE),
            ),
            Row(
                1,
                Begin(Any(&[]), INFINITE, false),
                21,
                Refused(INVALID_PARAMETER),
            ),
            Row(
                1,
                Begin(All(&[2, 2]), INFINITE, false),
                22,
                Refused(INVALID_PARAMETER),
            ),
        ],
        rest: 22,
        renewed: &[],
    },
    Life {
        lasts: false,
        shows: "in a full journal nothing is done, and the pass is kept",
        room: 1,
        rows: &[
            Row(0, Make(Event), 1, Handle(2)),
            Row(0, Make(Event), 0, Full),
            Row(0, Make(Semaphore(0, 1)), 0, Full),
            Row(0, Make(OwnedMutex), 0, Full),
            Row(0, Make(Timer), 0, Full),
            Row(0, Make(ToWait(2)), 0, Full),
            Row(0, Do(Set(2)), 0, Full),
            Row(0, Do(Reset(2)), 0, Full),
            Row(0, Do(Pulse(2)), 0, Full),
            Row(0, Do(ReleaseMutex(2)), 0, Full),
            Row(0, Do(SetTimer(2, 0, 0)), 0, Full),
            Row(0, Do(CancelTimer(2)), 0, Full),
            Row(0, Do(QueueApc(1, 7, 9)), 0, Full),
            Row(0, Do(Close(2)), 0, Full),
            Row(0, Do(TickTo(1)), 0, Full),
            Row(0, Release(2, 1), 0, Full),
            Row(0, NextApc, 0, Full),
            Row(0, Wait(One(2), 0, false), 0, Full),
            Row(0, Wait(Any(&[2]), 0, false), 0, Full),
            Row(0, Wait(All(&[2]), 0, false), 0, Full),
            Row(0, Wait(Sleep, 0, false), 0, Full),
            Row(0, Wait(Swap(2, 2), 0, false), 0, Full),
            Row(0, Begin(One(2), INFINITE, false), 0, Full),
            Row(0, Begin(Any(&[2]), INFINITE, false), 0, Full),
            Row(0, Begin(All(&[2]), INFINITE, false), 0, Full),
            Row(0, Begin(Sleep, INFINITE, false), 0, Full),
            Row(0, Begin(Swap(2, 2), INFINITE, false), 0, Full),
            Row(0, Exit, 0, Full),
            Row(0, Do(Set(2)), 0, Full),
        ],
        rest: 1,
        renewed: &[],
    },
    Life {
        shows: "room is kept for the grant of a wait that pends",
        lasts: false,
        room: 3,
        rows: &[
            Row(0, Make(Event), 1, Handle(2)),
            Row(1, Begin(One(2), INFINITE, false), 2, Pended),
            Row(0, Do(Set(2)), 0, Full),
            Row(1, Poll, 0, Still),
        ],
        rest: 2,
        renewed: &[],
    },
    Life {
        shows: "with one place more a poll finds the grant, and then there is no room",
        lasts: false,
        room: 4,
        rows: &[
            Row(0, Make(Event), 1, Handle(2)),
            Row(1, Begin(One(2), INFINITE, false), 2, Pended),
            Row(0, Do(Set(2)), 3, Done),
            Row(0, Do(Set(2)), 0, Full),
            Row(1, Poll, 4, Ended(0)),
            Row(0, Do(Set(2)), 0, Full),
        ],
        rest: 4,
        renewed: &[],
    },
    Life {
        shows: "a part makes room, and numbers go on",
        lasts: false,
        room: 3,
        rows: &[
            Row(0, Make(Event), 1, Handle(2)),
            Row(1, Begin(One(2), INFINITE, false), 2, Pended),
            Row(0, Do(Set(2)), 0, Full),
            Row(0, Part, 1, Entries(2)),
            Row(0, Do(Set(2)), 3, Done),
            Row(1, Poll, 4, Ended(0)),
            Row(1, NextApc, 5, NoApc),
            Row(0, Part, 3, Entries(3)),
            Row(0, Part, 6, Entries(0)),
        ],
        rest: 0,
        renewed: &[],
    },
    Life {
        shows: "the moment never goes back, and each pass reads the same",
        lasts: false,
        room: 9,
        rows: &[
            Row(0, Now, 0, Moment(0)),
            Row(0, Do(TickTo(70)), 1, Done),
            Row(0, Now, 0, Moment(70)),
            Row(1, Now, 0, Moment(70)),
            Row(0, Do(TickTo(60)), 2, Refused(MOMENT_BACK)),
            Row(0, Now, 0, Moment(70)),
        ],
        rest: 2,
        renewed: &[],
    },
];
