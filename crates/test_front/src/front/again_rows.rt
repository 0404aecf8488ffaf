//! What two threads of a front that lasts ask for, and what stands in its journal then. As in NT, the number that was freed last comes first. A
//! creation needs two, an object's and a handle's, and gets them again only if both are free.
use crate::front::asks::Does::{Close, Set};
use crate::front::asks::FrontRequest::{
    Begin, BeginAgain, Do, Exit, Make, NextApc, Part, Poll, Wait,
};
use crate::front::asks::Makes::{Event, OwnedMutex, Semaphore, Timer, ToModify, ToWait};
use crate::front::asks::Waits::One;
use crate::front::asks::{Makes, Row};
use crate::front::says::FrontAnswer::{
    Done, Ended, Entries, Full, Handle, NoApc, Pended, Refused, Taken,
};

const INFINITE: u32 = 0xFFFF_FFFF;

/// WAIT_TIMEOUT.
const TIMEOUT: u32 = 0x102;

/// The numbers of ERROR_ACCESS_DENIED and ERROR_INVALID_PARAMETER.
const ACCESS_DENIED: u32 = 5;

const INVALID_PARAMETER: u32 = 87;

/// To what numbers were given again.
#[derive(Clone, Copy)]
pub enum Gives {
    /// To what a creation makes, and to its handle.
    Object(Makes, u32, u32),
    /// To the handle of a duplicate.
    Handle(Makes, u32),
    /// To the thread that asks, and to its handle.
    Thread(u32),
}

/// Under which number it is written that numbers were given again, for which thread, to what, and what was answered.
#[derive(Clone, Copy)]
pub struct Renewed(pub u64, pub u16, pub Gives, pub Result<u32, u32>);

/// What two threads of one front ask for, in turn.
#[derive(Clone, Copy)]
pub struct Life {
    pub shows: &'static str,
    pub lasts: bool,
    /// The room of the journal.
    pub room: usize,
    pub rows: &'static [Row],
    /// How many entries no part has, and so the history.
    pub rest: usize,
    /// What of the journal tells of numbers that were given again.
    pub renewed: &'static [Renewed],
}

/// The threads' handles are 0 and 1, so those of the objects begin at 2.
pub const LIVES: &[Life] = &[
    Life {
        shows: "the numbers of what was closed come back, and their entries tell which",
        lasts: true,
        room: 20,
        rows: &[
            Row(0, Make(Event), 1, Handle(2)),
            Row(0, Do(Close(2)), 2, Done),
            Row(1, Make(OwnedMutex), 3, Handle(2)),
            Row(0, Make(ToWait(2)), 4, Handle(3)),
            Row(1, Do(Close(3)), 5, Done),
            Row(0, Make(ToWait(2)), 6, Handle(3)),
            Row(0, Part, 1, Entries(6)),
            Row(0, Do(Close(3)), 7, Done),
            Row(0, Make(ToModify(2)), 8, Refused(ACCESS_DENIED)),
            Row(0, Make(Semaphore(3, 2)), 9, Refused(INVALID_PARAMETER)),
            Row(1, Do(Close(2)), 10, Done),
            Row(1, Make(Semaphore(3, 2)), 11, Refused(INVALID_PARAMETER)),
            Row(0, Make(Timer), 12, Handle(2)),
            Row(0, Make(Event), 13, Handle(4)),
            Row(1, Part, 7, Entries(7)),
            Row(0, Part, 14, Entries(0)),
        ],
        rest: 0,
        renewed: &[
            Renewed(3, 1, Gives::Object(OwnedMutex, 2, 2), Ok(2)),
            Renewed(6, 0, Gives::Handle(ToWait(2), 3), Ok(3)),
            Renewed(8, 0, Gives::Handle(ToModify(2), 3), Err(ACCESS_DENIED)),
            Renewed(
                11,
                1,
                Gives::Object(Semaphore(3, 2), 2, 2),
                Err(INVALID_PARAMETER),
            ),
            Renewed(12, 0, Gives::Object(Timer, 2, 2), Ok(2)),
        ],
    },
    Life {
        shows: "a thread begins in the place of one that has ended, once no handle names that",
        lasts: true,
        room: 20,
        rows: &[
            Row(0, Make(Event), 1, Handle(2)),
            Row(0, Begin(One(1), INFINITE, false), 2, Pended),
            Row(1, Exit, 3, Done),
            Row(0, Poll, 4, Ended(0)),
            Row(1, BeginAgain, 0, Taken),
            Row(0, Do(Close(1)), 5, Done),
            Row(1, BeginAgain, 6, Handle(1)),
            Row(1, Do(Set(2)), 7, Done),
            Row(0, Wait(One(1), 0, false), 8, Ended(TIMEOUT)),
            Row(0, Part, 1, Entries(8)),
            Row(1, Exit, 9, Done),
            Row(0, Wait(One(1), 0, false), 10, Ended(0)),
            Row(0, Do(Close(1)), 11, Done),
            Row(0, Make(Event), 12, Handle(3)),
            Row(1, BeginAgain, 13, Handle(1)),
            Row(1, NextApc, 14, NoApc),
        ],
        rest: 6,
        renewed: &[
            Renewed(6, 1, Gives::Thread(1), Ok(1)),
            Renewed(13, 1, Gives::Thread(1), Ok(1)),
        ],
    },
    Life {
        shows: "no thread begins if no handle is closed",
        lasts: true,
        room: 20,
        rows: &[
            Row(0, Do(Close(1)), 1, Done),
            Row(0, Make(ToWait(0)), 2, Handle(1)),
            Row(1, Exit, 3, Done),
            Row(1, BeginAgain, 0, Taken),
            Row(0, Do(Close(1)), 4, Done),
            Row(1, BeginAgain, 5, Handle(1)),
            Row(0, Part, 1, Entries(5)),
            Row(0, Part, 6, Entries(0)),
        ],
        rest: 0,
        renewed: &[
            Renewed(2, 0, Gives::Handle(ToWait(0), 1), Ok(1)),
            Renewed(5, 1, Gives::Thread(1), Ok(1)),
        ],
    },
    Life {
        shows: "a thread begins where the journal has room, which a part makes",
        lasts: true,
        room: 3,
        rows: &[
            Row(0, Do(Close(1)), 1, Done),
            Row(1, Exit, 2, Done),
            Row(0, NextApc, 3, NoApc),
            Row(1, BeginAgain, 0, Full),
            Row(0, Make(Event), 0, Full),
            Row(0, Part, 1, Entries(3)),
            Row(1, BeginAgain, 4, Handle(1)),
            Row(1, Part, 4, Entries(1)),
            Row(0, Part, 5, Entries(0)),
        ],
        rest: 0,
        renewed: &[Renewed(4, 1, Gives::Thread(1), Ok(1))],
    },
    Life {
        shows: "a front that does not last gives each number once",
        lasts: false,
        room: 20,
        rows: &[
            Row(0, Make(Event), 1, Handle(2)),
            Row(0, Do(Close(2)), 2, Done),
            Row(0, Make(Event), 3, Handle(3)),
            Row(0, Make(ToWait(0)), 4, Handle(4)),
            Row(0, Do(Close(1)), 5, Done),
            Row(1, Exit, 6, Done),
            Row(1, BeginAgain, 0, Taken),
            Row(0, Part, 1, Entries(6)),
            Row(0, Part, 7, Entries(0)),
        ],
        rest: 0,
        renewed: &[],
    },
];
