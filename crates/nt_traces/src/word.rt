//! The words of a trace of the word by which a thread learns of its grant: the same as those of the protocol.

/// The most threads of a run.
pub const MOST_SEATS: usize = 64;

/// What a thread's word says.
#[derive(Clone, Copy, Debug, PartialEq, Eq)]
pub enum WordValue {
    Awake,
    Asleep,
    Called,
    Granted,
}

/// Where a thread is.
#[derive(Clone, Copy, Debug, PartialEq, Eq)]
pub enum WordPlace {
    Outside,
    InCall,
    InWait,
    ToCompare,
    ToSleep,
    Sleeping,
    ToLoad,
    ToLookAtTime,
    Passing,
}

/// What there is of one thread, and to whom it owes a wake-up. How many of its waits were granted is not counted: no step asks for that.
#[derive(Clone, Copy)]
pub struct WordSeat {
    pub word: WordValue,
    pub place: WordPlace,
    pub pends: bool,
    pub due: bool,
    pub owes: [bool; MOST_SEATS],
}

/// What an event is.
#[derive(Clone, Copy, Debug, PartialEq, Eq)]
pub enum WordKind {
    Enters,
    Returns,
    Begins,
    TurnsToSleep,
    Marks,
    FallsAsleep,
    Stirs,
    Restarts,
    FindsItLate,
    Reads,
    LooksAtTime,
    Rearms,
    Grants,
    Calls,
    Wakes,
}

/// An event: the thread that does it, and the other one that it names, if it names one.
#[derive(Clone, Copy, Debug, PartialEq, Eq)]
pub struct WordEvent {
    pub kind: WordKind,
    pub thread: usize,
    pub other: usize,
}
