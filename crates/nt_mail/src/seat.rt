//! The dispatcher's seat and the threads'. Contracts see of a seat its table and what it knows.
ghost use Rattle.std.specs.Prelude.{◌≡◌, []};
ghost use Rattle.nt_mail.specs.Views.{holder};

use crate::rule::Place;
use nt_status::ThreadId;
use std::marker::Model;

/// The dispatcher's seat, which knows all entries written and all moments published.
#[derive(Drop)]
pub struct DispatcherSeat {
    pub(crate) seat: Place,
}

impl Model for DispatcherSeat {
    ghost use Rattle.std.specs.Prelude.{◌≡◌, []};
    ghost use Rattle.nt_mail.specs.Seats.{DispatcherSeated};
    ghost use Rattle.nt_mail.specs.Views.{keeper};

    ghost Value = { DispatcherSeated };

    ghost view = { λ s. record {
      table = s.seat.table_id;
      written = s.seat.me.0.written;
      published = s.seat.me.0.published;
    } };

    ghost invariant = { λ s. s.seat.me ≡ (keeper s.seat.me.0.written s.seat.me.0.published [], []) };
}

impl DispatcherSeat {
    /// The same seat, to which threads' seats can be joined.
    pub fn gather(self) -> JoinedSeats
        ensures { result
            ≡ record { table = self.table; written = self.written; published = self.published; parts = [] } }
    {
        let DispatcherSeat { seat } = self;
        JoinedSeats { seat }
    }
}

/// The seat of one thread, which knows the thread's calls, its grants, and the words and moments that it read.
pub struct ThreadSeat {
    /// The thread's number, in a whole word, as which it is moved.
    pub(crate) thread: usize,
    pub(crate) seat: Place,
}

/// Written by hand, so that whoever holds a thread's seat has one function to call, and nothing to prove of its parts.
impl Drop for ThreadSeat {
    fn drop(self) {
        let ThreadSeat { thread: _, seat: _ } = self;
    }
}

impl Model for ThreadSeat {
    ghost use Rattle.std.specs.Prelude.{◌≡◌, ◌<◌, ◌+◌, ◌^◌, []};
    ghost use Rattle.nt_mail.specs.Seats.{Seated, known_in};
    ghost use Rattle.nt_mail.specs.Views.{holder};

    ghost Value = { Seated };

    ghost view = { λ s. record { table = s.seat.table_id; known = known_in s.seat.me.0 } };

    ghost invariant = { λ s. (s.seat.me ≡ (holder (known_in s.seat.me.0), []))
        × ((known_in s.seat.me.0).thread ≡ s.thread) × (s.thread + 1 < s.seat.table_id.words) × (s.thread < 2 ^ 16) };
}

impl ThreadSeat {
    /// The thread's number.
    pub fn thread(&self) -> ThreadId
        ensures { result ≡ self.now.known.thread }
    {
        ThreadId::new(self.thread as u16)
    }

    /// The seat in the table, which has the same view.
    pub(crate) fn into_place(self) -> Place
        ensures table { result.table_id ≡ self.table }
        ensures view { result.me ≡ (holder self.known, []) }
    {
        let ThreadSeat { thread: _, seat } = self;
        seat
    }
}

/// The dispatcher's seat with threads' seats joined to it: it knows what they knew too.
#[derive(Drop)]
pub struct JoinedSeats {
    pub(crate) seat: Place,
}

impl Model for JoinedSeats {
    ghost use Rattle.std.specs.Prelude.{◌≡◌, []};
    ghost use Rattle.nt_mail.specs.Seats.{Gathered};
    ghost use Rattle.nt_mail.specs.Views.{keeper};

    ghost Value = { Gathered };

    ghost view = { λ s. record {
      table = s.seat.table_id;
      written = s.seat.me.0.written;
      published = s.seat.me.0.published;
      parts = s.seat.me.0.parts;
    } };

    ghost invariant = { λ s. s.seat.me ≡ (keeper s.seat.me.0.written s.seat.me.0.published s.seat.me.0.parts, []) };
}

impl JoinedSeats {
    /// The dispatcher's seat alone, once each thread's has left it.
    pub fn into_dispatcher(self) -> DispatcherSeat
        requires { self.parts ≡ [] }
        ensures { result ≡ record { table = self.table; written = self.written; published = self.published } }
    {
        let JoinedSeats { seat } = self;
        DispatcherSeat { seat }
    }
}
