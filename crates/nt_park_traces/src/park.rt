//! The words of a trace of threads that wait at an address: the same as those of the protocol.

/// The most threads of a run.
pub const MOST_PARKED: usize = 64;

/// Whether a thread stands in the list, or who has taken it off.
#[derive(Clone, Copy, Debug, PartialEq, Eq)]
pub enum ParkStanding {
    Absent,
    Listed,
    Taken(usize),
}

/// Where a thread is. What a place has in brackets is whether all that wait are to be unparked.
#[derive(Clone, Copy, Debug, PartialEq, Eq)]
pub enum ParkPlace {
    Out,
    TakesToLook,
    TakesToLeave,
    TakesToUnpark(bool),
    GivesToGo,
    GivesToSleep,
    GivesToWake,
    ToLook,
    ToPark,
    ToSleep,
    Asleep,
    ToLoad,
    ToLeave,
    ToCheck(bool),
    Unparking(bool),
    Waking,
}

/// What there is of one thread, and to whom it owes a wake-up. How often it was unparked is not counted: no step asks for that.
#[derive(Clone, Copy)]
pub struct ParkSeat {
    pub place: ParkPlace,
    pub parked: bool,
    pub standing: ParkStanding,
    pub expected: usize,
    pub owes: [bool; MOST_PARKED],
}

/// What an event is: a step of the protocol. A step that is done in several ways has as many kinds here.
#[derive(Clone, Copy, Debug, PartialEq, Eq)]
pub enum ParkKind {
    Counts,
    TakesToLook,
    TakesToLeave,
    TakesToUnpark(bool),
    GivesToGo,
    GivesToSleep,
    GivesToWake,
    LooksSame,
    LooksOther,
    Parks,
    FallsAsleep,
    Stirs,
    Restarts,
    Reads,
    TimesOut,
    Leaves,
    Changes,
    Calls,
    SeesNobody(bool),
    SeesSome(bool),
    TakesOff(bool),
    Unparks,
    Finishes(bool),
    Wakes,
    Returns,
}

/// An event: the thread that does it, and the other one or the value that it names, if it names one.
#[derive(Clone, Copy, Debug, PartialEq, Eq)]
pub struct ParkEvent {
    pub kind: ParkKind,
    pub thread: usize,
    pub other: usize,
}
