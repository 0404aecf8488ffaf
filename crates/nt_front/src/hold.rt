//! What a thread holds of a front.
ghost use Rattle.std.specs.Prelude.{◌≡◌, length};
ghost use Rattle.nt_mail.specs.Seats.{seated};
ghost use Rattle.nt_front.specs.Held.{knowledge_of, IsOfKind};

use crate::named::Named;
use nt_mail::ThreadSeat;
use nt_status::{Moment, ThreadId};
use std::marker::{Model, PhantomData};
use std::mem::ManuallyDrop;

/// How often a thread looks for its grant before it sleeps, where looks help: longer than a thread takes to wake that sleeps.
pub(crate) const LOOKS: u32 = 1000;

/// A thread tries again whether looks help once in this number of its calls.
const CALLS_PER_TRY: u64 = 4096;

/// A try is this number of calls, of which those that wait look: two, since a thread's waits may be every other call.
const TRIES: u64 = 2;

/// What every hold has: the thread's seat, the greatest moment that the thread knows, and how many calls and ticks it made.
///
/// Contracts see it, and each hold, as what the thread knows.
pub struct Hold<N: Named> {
    pub(crate) floor: Moment,
    pub(crate) calls: u64,
    /// How often it looks for its next grant before it sleeps. Contracts don't see it.
    pub(crate) looks: u32,
    /// It is let go by `into_seat` alone, so that whoever moves a pass, a sleeper or an ended thread has no drop of them to prove.
    ///
    /// Last: it has a number of two bytes, and what stands before it is moved in whole words.
    pub(crate) seat: ManuallyDrop<ThreadSeat>,
    pub(crate) of: PhantomData<N>,
}

impl<N: Named> Model for Hold<N> {
    ghost use Rattle.nt_mail.specs.declared.knowledge.Knowledge.{Knowledge};
    ghost use Rattle.nt_front.specs.Holds.{IsHold};

    ghost Value = { Knowledge };

    ghost view = { λ h. h.seat.value.known };

    ghost invariant = { λ h. IsHold N.front.table h.seat.value h.floor h.calls };
}

impl<N: Named> Hold<N> {
    /// The thread's number.
    pub fn thread(&self) -> ThreadId
        ensures { result ≡ self.now.thread }
    {
        self.seat.thread()
    }

    /// How many calls and ticks of the thread were written.
    pub fn calls(&self) -> u64
        ensures { result ≡ length self.now.made }
    {
        self.calls
    }

    /// How often the thread looks for a grant before it sleeps: not at all where that was in vain of late.
    pub(crate) fn looks(&self) -> u32 {
        if self.calls % CALLS_PER_TRY < TRIES {
            LOOKS
        } else {
            self.looks
        }
    }

    /// Notes whether a wait was granted while the thread looked: where it was not, the thread looks half as often for the next.
    pub(crate) fn note_looks(&mut self, helped: bool)
        ensures { self.new ≡ self.old }
    {
        self.looks = if helped { LOOKS } else { self.looks / 2 };
    }

    /// The thread's seat alone.
    pub(crate) fn into_seat(self) -> ThreadSeat
        ensures { result ≡ seated N.front.table self }
    {
        let Hold {
            seat,
            floor: _,
            calls: _,
            looks: _,
            of: _,
        } = self;
        ManuallyDrop::into_inner(seat)
    }
}

/// The right of a thread to call. It was given a grant for each of its waits. It must be spent.
pub struct Pass<N: Named> {
    pub(crate) hold: Hold<N>,
}

impl<N: Named> Model for Pass<N> {
    ghost use Rattle.nt_mail.specs.declared.knowledge.Knowledge.{Knowledge};
    ghost use Rattle.nt_mail.specs.Knowledge.{IsFree};

    ghost Value = { Knowledge };

    ghost view = { λ p. p.hold };

    ghost invariant = { λ p. IsFree p.hold };
}

impl<N: Named> Pass<N> {
    /// The thread's number.
    pub fn thread(&self) -> ThreadId
        ensures { result ≡ self.now.thread }
    {
        self.hold.thread()
    }

    /// How many calls and ticks of the thread were written. In the history it has as many entries of calls and ticks.
    pub fn calls(&self) -> u64
        ensures { result ≡ length self.now.made }
    {
        self.hold.calls()
    }
}

/// A thread with one wait for which it was given no grant. It must be spent.
pub struct Sleeper<N: Named> {
    pub(crate) hold: Hold<N>,
}

impl<N: Named> Model for Sleeper<N> {
    ghost use Rattle.nt_mail.specs.declared.knowledge.Knowledge.{Knowledge};
    ghost use Rattle.nt_mail.specs.Knowledge.{IsWaiting};

    ghost Value = { Knowledge };

    ghost view = { λ s. s.hold };

    ghost invariant = { λ s. IsWaiting s.hold };
}

impl<N: Named> Sleeper<N> {
    /// The thread's number.
    pub fn thread(&self) -> ThreadId
        ensures { result ≡ self.now.thread }
    {
        self.hold.thread()
    }
}

/// A thread that has ended. It must be spent.
pub struct Ended<N: Named> {
    pub(crate) hold: Hold<N>,
}

impl<N: Named> Model for Ended<N> {
    ghost use Rattle.nt_mail.specs.declared.knowledge.Knowledge.{Knowledge};
    ghost use Rattle.nt_mail.specs.Knowledge.{IsFree};

    ghost Value = { Knowledge };

    ghost view = { λ e. e.hold };

    ghost invariant = { λ e. IsFree e.hold };
}

impl<N: Named> Ended<N> {
    /// The thread's number.
    pub fn thread(&self) -> ThreadId
        ensures { result ≡ self.now.thread }
    {
        self.hold.thread()
    }
}

/// What `finish` takes of each thread.
pub enum Held<N: Named> {
    Pass(Pass<N>),
    Sleeping(Sleeper<N>),
    Ended(Ended<N>),
}

impl<N: Named> Held<N> {
    /// The thread's seat, to be joined.
    pub(crate) fn into_seat(self) -> ThreadSeat
        ensures seat { result ≡ seated N.front.table (knowledge_of self) }
        ensures kind { IsOfKind self }
    {
        match self {
            Held::Pass(Pass { hold }) => hold.into_seat(),
            Held::Sleeping(Sleeper { hold }) => hold.into_seat(),
            Held::Ended(Ended { hold }) => hold.into_seat(),
        }
    }
}
