//! What a thread with a pass may do under the lock.
ghost use Rattle.std.specs.Prelude.{◌≡◌, ◌++◌, List, true, false, IfOk, IfErr, OnErr, IsTrue};
ghost use Rattle.std.specs.List.{list_any};
ghost use Rattle.nt_status.specs.declared.refusal.Refusal.TheVariants.{JournalFull, Memory};
ghost use Rattle.nt_calls.specs.declared.call.Call.{Call};
ghost use Rattle.nt_machine.specs.Dispatcher.{state};
ghost use Rattle.nt_calls.specs.Moves.{pended, is_wait};
ghost use Rattle.nt_answers.specs.Answers.{is_done};
ghost use Rattle.nt_mail.specs.Journals.{is_renewal};
ghost use Rattle.nt_mail.specs.Knowledge.{IsEarlier};
ghost use Rattle.nt_front.specs.Books.{WasFull, WasHandedOut};
ghost use Rattle.nt_front.specs.Held.{IsAllOf};
ghost use Rattle.nt_front.specs.Runs.{IsLawfulHistory, IsLawfulRun, LeadTo};
ghost use Rattle.nt_mail.specs.declared.entry.Entry.{Entry};
ghost use Rattle.nt_front.specs.Holds.{with_tick};
ghost use Rattle.nt_front.specs.Polls.{IsMade, IsWaitBegun, IsExited};

use crate::book::has_pended;
use crate::front::Front;
use crate::hold::{Ended, Hold, Pass, Sleeper};
use crate::named::Named;
use crate::receipt::{Part, Receipt};
use nt_core::{Act, Call, WaitCall};
use nt_status::{Moment, Refusal};
use std::sync::Wait;

/// What a wait that begins answers.
pub enum Begun<N: Named> {
    /// The wait ended at once, or was refused.
    Done(Pass<N>, Receipt),
    /// The wait pends.
    Pended(Sleeper<N>, Receipt),
    /// The journal is full, and nothing was done.
    NoRoom(Pass<N>),
}

/// What the end of a thread answers.
pub enum Exited<N: Named> {
    Ended(Ended<N>, Receipt),
    /// The journal is full, and nothing was done.
    NoRoom(Pass<N>),
}

impl<N: Named> Front<N> {
    /// Makes a call that never pends.
    ///
    /// Refused with JournalFull alone, and the pass is unchanged then; what the dispatcher answers, a refusal too, is in the receipt.
    #[inline(always)]
    #[tactic(auto, using(crate::proofs::Floors::free_unless_waits))]
    pub fn call(&self, rt: &impl Wait, pass: &mut Pass<N>, act: Act) -> Result<Receipt, Refusal>
        ensures made { IfOk result (λ r. IsMade pass.old (Call.Act act) r.entry r.result pass.new) }
        ensures err { IfErr result (λ r. (r ≡ JournalFull) × (pass.new ≡ pass.old)) }
        ensures full { OnErr result (WasFull N.front pass.old) }
    {
        self.make(rt, &mut pass.hold, Call::Act(act))
    }

    /// Makes a tick. From then on the pass knows no earlier moment.
    ///
    /// Refused with JournalFull alone, and the pass is unchanged then.
    #[tactic(auto, using(crate::proofs::Floors::free_ticks))]
    pub fn tick(
        &self,
        rt: &impl Wait,
        pass: &mut Pass<N>,
        moment: Moment,
    ) -> Result<Receipt, Refusal>
        ensures made { IfOk result (λ r. pass.new ≡ with_tick pass.old r.entry moment r.result) }
        ensures earlier { IfOk result (λ r. IsEarlier r.entry pass.old) }
        ensures answer { IfOk result (λ r. IsTrue (is_done r.result)) }
        ensures err { IfErr result (λ r. (r ≡ JournalFull) × (pass.new ≡ pass.old)) }
        ensures full { OnErr result (WasFull N.front pass.old) }
    {
        let mut book = self.book.lock(rt);
        let (receipt, unwoken) = book.enter_tick(&self.mail, &mut pass.hold, moment)?;
        self.give_back(book, unwoken);
        Ok(receipt)
    }

    /// Takes the journal's entries since the part before, or since the opening, with the dispatcher that they begin at. The journal is
    /// empty then, with its full room, and the numbers of entries go on.
    ///
    /// Refused with 8 where memory is refused; nothing changes then. It is no call: it is not written, and is never refused with
    /// JournalFull.
    #[tactic(auto, using(crate::proofs::Since::part_runs, crate::proofs::Since::part_ungiven, crate::proofs::Since::part_accounts))]
    pub fn rotate(&self, rt: &impl Wait, pass: &mut Pass<N>) -> Result<Part, Refusal>
        ensures run { IfOk result (λ part. IsLawfulHistory N.front.lasts part.base part.entries.items) }
        ensures ungiven { IfOk result (λ part. list_any is_renewal part.entries.items ≡ false
            → IsLawfulRun part.base part.entries.items) }
        ensures account { IfOk result (λ part. (before : List Entry)
            × LeadTo N.front.lasts N.front.threads part.first before (state part.base)
            × IsAllOf (before ++ part.entries.items) pass.old) }
        ensures book { IfOk result (WasHandedOut N.front pass.old) }
        ensures pass { pass.new ≡ pass.old }
        ensures memory { IfErr result (λ r. r ≡ Memory) }
    {
        self.book.lock(rt).rotate(&self.mail, &mut pass.hold)
    }

    /// Begins a wait. The journal takes it in; nothing of it is copied. Where the journal is full it is dropped.
    #[inline(always)]
    pub fn begin(&self, rt: &impl Wait, pass: Pass<N>, wait: WaitCall) -> Begun<N>
        ensures { IsWaitBegun N.front pass wait result }
    {
        let Pass { mut hold } = pass;
        match self.make(rt, &mut hold, Call::Wait(wait)) {
            Err(_) => Begun::NoRoom(Pass { hold }),
            Ok(receipt) => {
                if has_pended(&receipt.result) {
                    Begun::Pended(Sleeper { hold }, receipt)
                } else {
                    Begun::Done(Pass { hold }, receipt)
                }
            }
        }
    }

    /// Ends the thread.
    pub fn exit(&self, rt: &impl Wait, pass: Pass<N>) -> Exited<N>
        ensures { IsExited N.front pass result }
    {
        let Pass { mut hold } = pass;
        match self.make(rt, &mut hold, Call::Exit) {
            Err(_) => Exited::NoRoom(Pass { hold }),
            Ok(receipt) => Exited::Ended(Ended { hold }, receipt),
        }
    }

    /// Makes a call under the lock, and wakes whom it granted once the lock is given back.
    #[inline(always)]
    fn make(&self, rt: &impl Wait, caller: &mut Hold<N>, call: Call) -> Result<Receipt, Refusal>
        ensures made { IfOk result (λ r. IsMade caller.old call r.entry r.result caller.new) }
        ensures waits { IfOk result (λ r. pended r.result ≡ true → is_wait call ≡ true) }
        ensures only { IfErr result (λ r. r ≡ JournalFull) }
        ensures full { OnErr result (WasFull N.front caller.old) }
        ensures err { OnErr result (caller.new ≡ caller.old) }
    {
        let mut book = self.book.lock(rt);
        let (receipt, unwoken) = book.enter_call(&self.mail, caller, call)?;
        self.give_back(book, unwoken);
        Ok(receipt)
    }
}
