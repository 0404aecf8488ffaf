//! The table of words, and how seats part from it and join again.
ghost use Rattle.std.specs.Prelude.{◌≡◌, ◌<◌, ◌+◌, ◌∷◌, [], IfOk};
ghost use Rattle.nt_mail.specs.Entries.{Each};
ghost use Rattle.nt_mail.specs.Knowledge.{newcomers};
ghost use Rattle.nt_mail.specs.Rule.{IsTold};
ghost use Rattle.nt_mail.specs.Seats.{seated, first_of as known_first};
ghost use Rattle.nt_mail.specs.Views.{rest_of};

use crate::rule::{Apart, Letters, Together};
use crate::seat::{JoinedSeats, ThreadSeat};
use nt_status::ThreadId;
use std::alloc::{AllocError, Global};
use std::marker::Model;

/// The words: one for the moment, and one for each thread. Contracts see it as the name of its table.
pub struct Mail {
    pub(crate) table: Letters,
}

/// Written by hand, so that whoever lets a mail go has nothing to prove of its table.
impl Drop for Mail {
    fn drop(self) {
        let Mail { table: _ } = self;
    }
}

impl Model for Mail {
    ghost use Rattle.std.specs.Prelude.{◌≡◌, ◌<◌};
    ghost use Rattle.atomic_table.specs.Seated.{TableId, table_id_coded};

    ghost Value = { TableId };

    ghost coded = { table_id_coded };

    ghost view = { λ m. m.table.shared.table_id };

    ghost invariant = { λ m. (m.table.shared.table_id.slots ≡ 0) × (0 < m.table.shared.table_id.words) };
}

/// A new mail, with the seats of all threads joined to the dispatcher's.
#[derive(Drop)]
pub struct Opened {
    pub mail: Mail,
    pub seats: JoinedSeats,
}

impl Mail {
    /// A mail for threads that have made no call. Only memory may be refused.
    pub fn new(alloc: Global, threads: u32) -> Result<Opened, AllocError>
        ensures words { IfOk result (λ o. o.mail.words ≡ threads + 1) }
        ensures seats { IfOk result (λ o. o.seats
            ≡ record { table = o.mail; written = []; published = []; parts = newcomers 0 threads }) }
    {
        let words = Vec::from_elem(alloc, 0u64, threads as usize + 1)?;
        let (table, seat) = Letters::of_words(alloc, words.as_slice(), &u64::from(threads))?;
        Ok(Opened {
            mail: Mail { table },
            seats: JoinedSeats { seat },
        })
    }

    /// Parts the seat of the first of the joined threads.
    pub fn part(&self, all: &mut JoinedSeats, thread: ThreadId) -> ThreadSeat
        requires all { all.old.table ≡ self.now }
        requires first { all.old.parts ≡ known_first all.old.parts ∷ rest_of all.old.parts }
        requires thread { ((known_first all.old.parts).thread ≡ thread) × (thread + 1 < self.now.words) }
        ensures seat { result ≡ seated self.now (known_first all.old.parts) }
        ensures rest { all.new ≡ record all.old { parts = rest_of all.old.parts } }
    {
        let seat = self.table.shared.split_seat::<Apart>(&mut all.seat);
        let thread = usize::from(thread.get());
        ThreadSeat { thread, seat }
    }

    /// Joins the seat of a thread.
    pub fn join(&self, all: &mut JoinedSeats, seat: ThreadSeat)
        requires all { all.old.table ≡ self.now }
        requires seat { seat.table ≡ self.now }
        ensures { all.new ≡ record all.old { parts = seat.known ∷ all.old.parts } }
    {
        let seat = seat.into_place();
        self.table.shared.join_seat::<Together>(&mut all.seat, seat);
    }

    /// Closes the mail. What the joined threads know is what was written and published.
    pub fn close(self, all: JoinedSeats)
        requires { all.table ≡ self }
        ensures { Each (IsTold all.written all.published) all.parts }
    {
        let Mail { table } = self;
        let JoinedSeats { seat } = all;
        table.close_with(seat).free();
    }
}
