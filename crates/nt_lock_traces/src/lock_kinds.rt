//! The kinds of the lock's events, by what their thread does.

use crate::lock::Frame;

/// What the favoured thread does, as it comes in and goes out.
#[derive(Clone, Copy, Debug, PartialEq, Eq)]
pub enum FavouredStep {
    SeesFavour,
    StoresInside,
    Enters,
    MissesFavour,
    StepsBack,
    StepsOut,
    KeepsFavour,
    FindsRevoked,
    WakesRevoker,
    WakesNoRevoker,
}

/// What a thread does that takes the lock as all do, until it has made it taken or wanted.
#[derive(Clone, Copy, Debug, PartialEq, Eq)]
pub enum TakingStep {
    Asks,
    TakesFree,
    TriesFree,
    Revokes,
    TriesFavoured,
    StopsLooking,
    MarksFree,
    MarksFavoured,
    MarksHeld,
}

/// What one does that found the lock held, and sleeps on it.
#[derive(Clone, Copy, Debug, PartialEq, Eq)]
pub enum SleepingStep {
    PaysOne,
    PaysNobody,
    FallsAsleep,
    FindsUnwanted,
    Stirs,
    Restarts,
}

/// What one does that has revoked a favour. `..Once` is of a thread that only tries.
#[derive(Clone, Copy, Debug, PartialEq, Eq)]
pub enum RevokingStep {
    PassesBarrier,
    PassesBarrierOnce,
    FindsOutside,
    FindsOutsideOnce,
    FindsInside,
    Declines,
    FallsAsleepOn,
    FindsLeft,
    StirsOn,
    RestartsOn,
    PutsBack,
}

/// What one does that has the lock as all have it, and gives it back.
#[derive(Clone, Copy, Debug, PartialEq, Eq)]
pub enum OwningStep {
    StoresFirst,
    GainsFavour,
    MissesTaken,
    UnstoresInside,
    GivesBack,
    WakesOne,
    WakesNobody,
}

/// What becomes of a plain store.
#[derive(Clone, Copy, Debug, PartialEq, Eq)]
pub enum ArrivingStep {
    SetArrives,
    ClearArrives,
}

/// What a handler of signals does: it interrupts its thread, or ends.
#[derive(Clone, Copy, Debug, PartialEq, Eq)]
pub enum HandlingStep {
    Interrupts(Frame),
    Resumes(Frame),
}

/// What an event is: a step of the protocol. A step that is done in two ways has two kinds here.
#[derive(Clone, Copy, Debug, PartialEq, Eq)]
pub enum LockKind {
    Favoured(FavouredStep),
    Taking(TakingStep),
    Sleeping(SleepingStep),
    Revoking(RevokingStep),
    Owning(OwningStep),
    Arriving(ArrivingStep),
    Handling(HandlingStep),
}
