//! The words of a trace of the lock that favours a thread: the same as those of the protocol.

ghost use Rattle.std.specs.Prelude.{◌≡◌};
ghost use Rattle.nt_protocols.specs.Lock as Lock;
ghost use Rattle.nt_lock_traces.specs.LockTrace.{frame_of, place_of};

use crate::lock_kinds::LockKind;

/// What the lock says.
#[derive(Clone, Copy, Debug, PartialEq, Eq)]
pub enum LockWord {
    Free,
    Taken,
    Wanted,
    Favours(usize),
}

/// The plain store of a thread to its `inside` that has not arrived.
#[derive(Clone, Copy, Debug, PartialEq, Eq)]
pub enum Buffer {
    Empty,
    Holds(bool),
}

/// Where a thread is.
#[derive(Clone, Copy, Debug, PartialEq, Eq)]
pub enum LockPlace {
    Out,
    ToStore,
    ToCheck,
    Inside,
    ToStepBack,
    ToReload,
    ToWakeRevoker,
    ToTake,
    ToMark,
    ToPay,
    ToSleep,
    Asleep,
    ToBar(usize, bool),
    ToLook(usize, bool),
    ToSleepOn(usize),
    AsleepOn(usize),
    ToPutBack(usize),
    Owner,
    ToFavour,
    ToUnset,
    ToWake,
}

/// Where a thread was that a handler of signals has interrupted, which may call.
#[derive(Clone, Copy, Debug, PartialEq, Eq)]
pub enum Frame {
    AtStore,
    AtReload,
    AtWakeRevoker,
    AtMark,
    AtPay,
    AtSleep,
    AtWake,
}

/// Where a thread is that a handler has interrupted.
pub(crate) fn frame_place(frame: Frame) -> LockPlace
    ensures { place_of result ≡ Lock.frame_place (frame_of frame) }
{
    match frame {
        Frame::AtStore => LockPlace::ToStore,
        Frame::AtReload => LockPlace::ToReload,
        Frame::AtWakeRevoker => LockPlace::ToWakeRevoker,
        Frame::AtMark => LockPlace::ToMark,
        Frame::AtPay => LockPlace::ToPay,
        Frame::AtSleep => LockPlace::ToSleep,
        Frame::AtWake => LockPlace::ToWake,
    }
}

/// What there is of one thread. A handler of signals may have interrupted it, and no other that handler.
#[derive(Clone, Copy, Debug, PartialEq, Eq)]
pub struct Seat {
    pub place: LockPlace,
    pub inside: bool,
    pub buffer: Buffer,
    pub under: Option<Frame>,
}

/// A thread that has not asked for the lock.
pub(crate) const OUTSIDE: Seat = Seat {
    place: LockPlace::Out,
    inside: false,
    buffer: Buffer::Empty,
    under: None,
};

/// An event: the thread that does it, and the other one that it names, if it names one.
#[derive(Clone, Copy, Debug, PartialEq, Eq)]
pub struct LockEvent {
    pub kind: LockKind,
    pub thread: usize,
    pub other: usize,
}
