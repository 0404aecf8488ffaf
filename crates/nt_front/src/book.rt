//! What lies behind the lock.
ghost use Rattle.std.specs.Prelude.{◌≡◌, ◌+◌, ◌-◌, ◌<◌, ◌≤◌, ◌↔◌, [], length, min, vec_capacity, true, false, IfOk, IfErr, OnErr, Err, is_err, is_some, IsTrue, ◌&&◌};
ghost use Rattle.std.specs.FinMap as map;
ghost use Rattle.nt_status.specs.declared.refusal.Refusal.TheVariants.{JournalFull, Memory};
ghost use Rattle.nt_calls.specs.State.{opening, pends};
ghost use Rattle.nt_machine.specs.Dispatcher.{state};
ghost use Rattle.nt_machine.specs.Lawful.{IsLawful};
ghost use Rattle.nt_calls.specs.Moves.{pended, is_wait};
ghost use Rattle.nt_answers.specs.Answers.{is_done};
ghost use Rattle.nt_answers.specs.Kinds.{is_answer};
ghost use Rattle.nt_mail.specs.declared.knowledge.Asked.{Asked};
ghost use Rattle.nt_mail.specs.Entries.{accepted};
ghost use Rattle.nt_front.specs.Books.{Stands, WritesCall, WritesTick, IsEntered, IsFull, WasFull, HandsOut, WasHandedOut, gives_again, ledger, next_number};
ghost use Rattle.nt_front.specs.Wakes.{Wakes, granted_of};

use crate::hold::Hold;
use crate::moments::floor_after;
use crate::named::Named;
use crate::receipt::{History, Part, Receipt};
use crate::wake::{ToWake, Unwoken};
use crate::write::{publish, send, tell, write_call};
use nt_core::{Call, Core, Grant, Reply};
use nt_life::Lasting;
use nt_mail::{DispatcherSeat, ENTRY_LIMIT, Mail, PackedEntry};
use nt_status::{Moment, Refusal, ThreadId};
use std::marker::{Model, PhantomData};
use std::mem;

/// The dispatcher, its journal with the dispatcher that it begins at, and the seat that knows all entries. Only `open` makes one.
///
/// It lies behind the lock, and a front's calls reach it. It is public for its contracts: they say in full what becomes of dispatcher and journal.
///
/// Its type keeps that the dispatcher is lawful, and that the journal is a run which leads from its base to this very state, or, if it
/// lasts, a life.
#[derive(Drop)]
pub struct Book<N: Named> {
    pub(crate) life: Lasting,
    base: Core,
    pub(crate) first: u64,
    pub(crate) journal: Vec<PackedEntry>,
    room: usize,
    /// The first number for whose entry there is no place, or which no entry can have.
    end: u64,
    threads: u32,
    pub(crate) dispatcher: DispatcherSeat,
    of: PhantomData<N>,
}

impl<N: Named> Model for Book<N> {
    ghost use Rattle.std.specs.Prelude.{vec_capacity};
    ghost use Rattle.std.specs.Coded.{codes};
    ghost use Rattle.nt_waits.specs.Waits.{waits_code};
    ghost use Rattle.nt_front.specs.Books.{Ledger, IsBook, ledger};

    ghost Value = { Ledger };

    ghost coded = { Prim.hlevel (codes, waits_code) };

    ghost view = { λ b. ledger b.life b.base b.dispatcher.written b.first b.journal.items b.room };

    ghost invariant = { λ b. IsBook (ledger b.life b.base b.dispatcher.written b.first b.journal.items b.room) b.threads
        (vec_capacity b.journal) b.end b.dispatcher N.front };
}

impl<N: Named> Book<N> {
    /// Makes a call for the thread of this hold, and writes it with the waits that it ended. Answers whom they wake, too.
    ///
    /// Refused with JournalFull where the room left is too small for an entry and one more for each pending wait; nothing changes
    /// then. Every other answer of the dispatcher is written, a refusal too.
    pub fn call(
        &mut self,
        mail: &Mail,
        caller: &mut Hold<N>,
        call: Call,
    ) -> Result<(Receipt, ToWake), Refusal>
        requires mail { mail.now ≡ N.front.table }
        ensures book { IfOk result (λ r. WritesCall self.old caller.old.thread call r.0.result self.new) }
        ensures entered { IfOk result (λ r. IsEntered self.old caller.old (Asked.Call call) r.0 caller.new) }
        ensures answer { IfOk result (λ r. IsTrue (is_answer call r.0.result)) }
        ensures waits { IfOk result (λ r. pended r.0.result ≡ true → is_wait call ≡ true) }
        ensures wakes { IfOk result (λ r. Wakes r.1 self.new.core.grants) }
        ensures full { (result ≡ Err JournalFull) ↔ IsFull self.old }
        ensures err { IfErr result (λ r. (r ≡ JournalFull) × WasFull N.front caller.old
            × (self.new ≡ self.old) × (caller.new ≡ caller.old)) }
    {
        let (receipt, unwoken) = self.enter_call(mail, caller, call)?;
        let to_wake = unwoken.to_wake(self.grants());
        Ok((receipt, to_wake))
    }

    /// The same, with those that it wakes still to be asked for. Mostly there are none, and a `ToWake` is long.
    #[inline(always)]
    pub(crate) fn enter_call(
        &mut self,
        mail: &Mail,
        caller: &mut Hold<N>,
        call: Call,
    ) -> Result<(Receipt, Unwoken), Refusal>
        requires mail { mail.now ≡ N.front.table }
        ensures book { IfOk result (λ r. WritesCall self.old caller.old.thread call r.0.result self.new) }
        ensures entered { IfOk result (λ r. IsEntered self.old caller.old (Asked.Call call) r.0 caller.new) }
        ensures answer { IfOk result (λ r. IsTrue (is_answer call r.0.result)) }
        ensures waits { IfOk result (λ r. pended r.0.result ≡ true → is_wait call ≡ true) }
        ensures wakes { IfOk result (λ r. granted_of r.1 ≡ self.new.core.grants) }
        ensures full { (result ≡ Err JournalFull) ↔ IsFull self.old }
        ensures err { IfErr result (λ r. (r ≡ JournalFull) × WasFull N.front caller.old
            × (self.new ≡ self.old) × (caller.new ≡ caller.old)) }
    {
        let place = self.journal.len();
        let entry = self.first + place as u64;
        if self.is_full(entry) {
            return Err(self.refusal(mail, caller));
        }
        let who = caller.thread();
        let result = write_call(&mut self.life, &mut self.journal, who, call);
        let waited = waited_before(self.life.core(), who, &result);
        let armed = waited | has_pended(&result);
        tell(
            mail,
            &mut self.dispatcher,
            &mut caller.seat,
            &self.journal[place],
            entry,
            armed,
        );
        caller.calls += 1;
        send(
            mail,
            &mut self.dispatcher,
            &mut self.journal,
            entry + 1,
            self.life.core().grants(),
        );
        let unwoken = Unwoken::of(self.life.core());
        Ok((Receipt { entry, result }, unwoken))
    }

    /// Makes a tick by the thread of this hold, and writes it with the waits that it ended. Answers whom they wake, too.
    ///
    /// Refused with JournalFull as a call is.
    pub fn tick(
        &mut self,
        mail: &Mail,
        caller: &mut Hold<N>,
        moment: Moment,
    ) -> Result<(Receipt, ToWake), Refusal>
        requires mail { mail.now ≡ N.front.table }
        ensures book { IfOk result (λ r. WritesTick self.old caller.old.thread moment r.0.result self.new) }
        ensures entered { IfOk result (λ r. IsEntered self.old caller.old (Asked.Tick moment) r.0 caller.new) }
        ensures answer { IfOk result (λ r. IsTrue (is_done r.0.result)) }
        ensures waits { IfOk result (λ r. pended r.0.result ≡ false) }
        ensures wakes { IfOk result (λ r. Wakes r.1 self.new.core.grants) }
        ensures full { (result ≡ Err JournalFull) ↔ IsFull self.old }
        ensures err { IfErr result (λ r. (r ≡ JournalFull) × WasFull N.front caller.old
            × (self.new ≡ self.old) × (caller.new ≡ caller.old)) }
    {
        let (receipt, unwoken) = self.enter_tick(mail, caller, moment)?;
        let to_wake = unwoken.to_wake(self.grants());
        Ok((receipt, to_wake))
    }

    /// The same, with those that it wakes still to be asked for.
    pub(crate) fn enter_tick(
        &mut self,
        mail: &Mail,
        caller: &mut Hold<N>,
        moment: Moment,
    ) -> Result<(Receipt, Unwoken), Refusal>
        requires mail { mail.now ≡ N.front.table }
        ensures book { IfOk result (λ r. WritesTick self.old caller.old.thread moment r.0.result self.new) }
        ensures entered { IfOk result (λ r. IsEntered self.old caller.old (Asked.Tick moment) r.0 caller.new) }
        ensures answer { IfOk result (λ r. IsTrue (is_done r.0.result)) }
        ensures waits { IfOk result (λ r. pended r.0.result ≡ false) }
        ensures wakes { IfOk result (λ r. granted_of r.1 ≡ self.new.core.grants) }
        ensures full { (result ≡ Err JournalFull) ↔ IsFull self.old }
        ensures err { IfErr result (λ r. (r ≡ JournalFull) × WasFull N.front caller.old
            × (self.new ≡ self.old) × (caller.new ≡ caller.old)) }
    {
        let place = self.journal.len();
        let entry = self.first + place as u64;
        if self.is_full(entry) {
            return Err(self.refusal(mail, caller));
        }
        let by = caller.thread();
        let armed = self.life.core().is_waiting(u32::from(by.get()));
        let result = self.life.tick(moment);
        self.journal
            .push_reserved(PackedEntry::ticked(by, moment, result));
        tell(
            mail,
            &mut self.dispatcher,
            &mut caller.seat,
            &self.journal[place],
            entry,
            armed,
        );
        caller.calls += 1;
        caller.floor = floor_after(caller.floor, moment, &result);
        send(
            mail,
            &mut self.dispatcher,
            &mut self.journal,
            entry + 1,
            self.life.core().grants(),
        );
        publish(mail, &mut self.dispatcher, moment, &result);
        let unwoken = Unwoken::of(self.life.core());
        Ok((Receipt { entry, result }, unwoken))
    }

    /// There is no place, or no number, for one entry and one more for each pending wait. `next` is the number of the next entry.
    #[inline(always)]
    pub(crate) fn is_full(&self, next: u64) -> bool
        requires { next ≡ next_number self.now }
        ensures { (result ≡ true) ↔ IsFull self.now }
    {
        self.end.saturating_sub(next) <= self.life.core().pending() as u64
    }

    /// The waits that the last call or tick ended.
    pub(crate) fn grants(&self) -> &[Grant]
        ensures { result.now ≡ self.now.core.grants }
    {
        self.life.core().grants()
    }

    /// Hands out the entries since the base, with the base. From then on a copy of the dispatcher is the base, and no entry stands.
    ///
    /// Refused with 8 where memory is refused; nothing changes then. It writes no entry, and looks at the mail once.
    pub fn rotate(&mut self, mail: &Mail, caller: &mut Hold<N>) -> Result<Part, Refusal>
        requires mail { mail.now ≡ N.front.table }
        ensures part { IfOk result (λ part. HandsOut self.old part self.new) }
        ensures told { IfOk result (λ part. WasHandedOut N.front caller.old part) }
        ensures memory { IfErr result (λ r. r ≡ Memory) }
        ensures err { OnErr result (self.new ≡ self.old) }
        ensures caller { caller.new ≡ caller.old }
    {
        let (journal, base) = self.anew()?;
        mail.look(&mut self.dispatcher, &mut caller.seat);
        Ok(self.hand_out(journal, base))
    }

    /// Puts this journal and this base in the places of the old ones, and hands those out.
    fn hand_out(&mut self, journal: Vec<PackedEntry>, base: Core) -> Part
        requires journal { (journal.items ≡ []) × (self.old.room ≤ vec_capacity journal) }
        requires base { base ≡ self.old.core }
        ensures part { HandsOut self.old result self.new }
        ensures stands { Stands self.new }
    {
        let first = self.first;
        let entries = mem::replace(&mut self.journal, journal);
        let base = mem::replace(&mut self.base, base);
        self.first = first + entries.len() as u64;
        self.end = end_of(self.first, self.room);
        Part {
            first,
            base,
            entries,
        }
    }

    /// An empty journal of the full room, and a copy of the dispatcher.
    fn anew(&self) -> Result<(Vec<PackedEntry>, Core), Refusal>
        ensures journal { IfOk result (λ r. (r.0.items ≡ []) × (self.now.room ≤ vec_capacity r.0)) }
        ensures base { IfOk result (λ r. r.1 ≡ self.now.core) }
        ensures memory { IfErr result (λ r. r ≡ Memory) }
    {
        let journal = Vec::with_capacity(*self.journal.allocator(), self.room)?;
        let base = self.life.core().copy()?;
        Ok((journal, base))
    }

    /// The refusal of a call where the journal is full. Nothing changes; what the thread knows is what the journal tells of it.
    #[inline(never)]
    pub(crate) fn refusal(&mut self, mail: &Mail, caller: &mut Hold<N>) -> Refusal
        requires mail { mail.now ≡ N.front.table }
        requires full { IsFull self.old }
        ensures refusal { result ≡ JournalFull }
        ensures told { WasFull N.front caller.old }
        ensures same { (self.new ≡ self.old) × (caller.new ≡ caller.old) }
    {
        mail.look(&mut self.dispatcher, &mut caller.seat);
        Refusal::JournalFull
    }

    /// A book with an empty journal, which begins at the opening.
    pub(crate) fn new(
        life: Lasting,
        base: Core,
        threads: u32,
        journal: Vec<PackedEntry>,
        room: usize,
        dispatcher: DispatcherSeat,
    ) -> Book<N>
        requires life { (state life.core ≡ opening threads) × IsLawful life.core }
        requires base { state base ≡ opening threads }
        requires journal { (journal.items ≡ []) × (room ≤ vec_capacity journal) }
        requires dispatcher { dispatcher ≡ record { table = N.front.table; written = []; published = [] } }
        requires front { (N.front.table.words ≡ threads + 1) × (threads ≡ N.front.threads) × (room ≡ N.front.room) }
        requires lasts { is_some life.spare ≡ N.front.lasts }
        ensures { result ≡ ledger life base [] 1 [] room }
    {
        Book {
            life,
            base,
            first: 1,
            journal,
            room,
            end: end_of(1, room),
            threads,
            dispatcher,
            of: PhantomData,
        }
    }

    /// The dispatcher is lawful and the journal leads to its state, now as ever; there is nothing to do for it.
    pub fn stands(&self)
        ensures { Stands self.now }
    {
        let _ = &self.life;
    }

    /// The rest of the journal, and the seat that knows all entries.
    pub(crate) fn into_history(self) -> (History, DispatcherSeat)
        ensures history { (result.0.first ≡ self.first) × (result.0.base ≡ self.base)
            × (result.0.entries.items ≡ self.journal) }
        ensures stands { Stands self }
        ensures threads { self.core.threads ≡ N.front.threads }
        ensures lasts { gives_again self ≡ N.front.lasts }
        ensures seat { result.1
            ≡ record { table = N.front.table; written = self.written; published = accepted self.written } }
    {
        let Book {
            life,
            base,
            first,
            journal,
            room: _,
            end: _,
            threads: _,
            dispatcher,
            of: _,
        } = self;
        drop(life);
        let history = History {
            first,
            base,
            entries: journal,
        };
        (history, dispatcher)
    }
}

/// The first number for whose entry there is no place, or which no entry can have, if places begin at `first`.
fn end_of(first: u64, room: usize) -> u64
    ensures { result ≡ min (first + room) ENTRY_LIMIT }
{
    first.saturating_add(room as u64).min(ENTRY_LIMIT)
}

/// Whether a wait of the thread pended before its call, which was answered so. A call is accepted of a thread alone that waits for
/// nothing, and a refused one changes no wait: so mostly nothing is looked at.
fn waited_before(core: &Core, who: ThreadId, answer: &Result<Reply, Refusal>) -> bool
    ensures { result ≡ (is_err answer.now && pends (state core.now) who) }
{
    answer.is_err() && core.is_waiting(u32::from(who.get()))
}

/// Whether the caller's wait pends from now on.
#[inline(always)]
pub(crate) fn has_pended(answer: &Result<Reply, Refusal>) -> bool
    ensures { result ≡ pended answer.now }
{
    matches!(answer, Ok(Reply::Pended))
}
