//! The front: the mail, the book behind its lock, and a condition variable for each thread.
ghost use Rattle.std.specs.Prelude.{◌≡◌, ◌++◌, List, false};
ghost use Rattle.std.specs.List.{list_any};
ghost use Rattle.std.specs.Sync.Mutex.{mutex_guard_value};
ghost use Rattle.nt_machine.specs.Dispatcher.{state};
ghost use Rattle.nt_mail.specs.declared.entry.Entry.{Entry};
ghost use Rattle.nt_mail.specs.Entries.{Each};
ghost use Rattle.nt_mail.specs.Journals.{is_renewal};
ghost use Rattle.nt_front.specs.Runs.{IsLawfulHistory, IsLawfulRun, LeadTo};
ghost use Rattle.nt_front.specs.Held.{IsAccounted};
ghost use Rattle.nt_front.specs.Wakes.{granted_of};

use crate::book::Book;
use crate::hold::Held;
use crate::lock::Locked;
use crate::named::Named;
use crate::receipt::History;
use crate::wake::{Bells, Unwoken};
use nt_mail::Mail;
use std::sync::MutexGuard;

/// The dispatcher behind a lock, for the threads that have passes of this name.
pub struct Front<N: Named> {
    pub(crate) mail: Mail,
    pub(crate) book: Locked<N>,
    pub(crate) bells: Bells,
    ghost named: { mail ≡ N.front.table },
    ghost belled: { bells ≡ N.front.threads },
}

/// Written by hand, so that whoever lets a front go has one function to call, and nothing to prove of its parts.
impl<N: Named> Drop for Front<N> {
    fn drop(self) {
        let Front {
            mail: _,
            book: _,
            bells: _,
        } = self;
    }
}

impl<N: Named> Front<N> {
    /// Gives the lock back after a call or tick, and then wakes whom it granted. Mostly it granted nobody.
    #[inline(always)]
    pub(crate) fn give_back(&self, book: MutexGuard<'_, Book<N>>, unwoken: Unwoken)
        requires { granted_of unwoken ≡ (mutex_guard_value book).core.grants }
    {
        match unwoken.unless_none(book.grants()) {
            Some(unwoken) => self.give_back_and_wake(book, unwoken),
            None => drop(book),
        }
    }

    /// The same, where it granted somebody.
    #[inline(never)]
    fn give_back_and_wake(&self, book: MutexGuard<'_, Book<N>>, unwoken: Unwoken)
        requires { granted_of unwoken ≡ (mutex_guard_value book).core.grants }
    {
        let to_wake = unwoken.to_wake(book.grants());
        drop(book);
        self.bells.ring(to_wake);
    }

    /// Ends the front, and answers the rest of the journal. What each hold knows is what stands there, and in the entries that were handed
    /// out before.
    pub fn finish(self, mut holds: Vec<Held<N>>) -> History
        ensures run { IsLawfulHistory N.front.lasts result.base result.entries.items }
        ensures ungiven { list_any is_renewal result.entries.items ≡ false
            → IsLawfulRun result.base result.entries.items }
        ensures told { (before : List Entry) × LeadTo N.front.lasts N.front.threads result.first before (state result.base)
            × Each (IsAccounted (before ++ result.entries.items)) holds.items }
    {
        let Front {
            mail,
            book,
            bells: _,
        } = self;
        let (history, dispatcher) = book.into_inner().into_history();
        let mut all = dispatcher.gather();
        while let Some(hold) = holds.pop() {
            mail.join(&mut all, hold.into_seat());
        }
        holds.destroy_empty();
        mail.close(all);
        history
    }
}
