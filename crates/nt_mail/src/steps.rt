//! The eight steps. Each is one atomic operation on one word: a store, a load or an exchange. `note` alone stores after its load,
//! unless the word is idle.
ghost use Rattle.std.specs.Prelude.{◌≡◌, ◌≢◌, ◌<◌, ◌≤◌, ◌+◌, ◌^◌, ◌%◌, ◌++◌, ◌∷◌, [], suc, length, true, false, IfErr, OnOk, if◌then◌else◌};
ghost use Rattle.nt_calls.specs.Moves.{one_if};
ghost use Rattle.nt_mail.specs.declared.entry.Entry.TheVariants.{Granted};
ghost use Rattle.nt_mail.specs.Entries.{IsOwn, arms, is_armed};
ghost use Rattle.nt_mail.specs.Words.{called_word, grant_in};
ghost use Rattle.nt_mail.specs.Knowledge.{with_call, with_polled, with_got, with_moment, latest, IsEarlier};
ghost use Rattle.nt_mail.specs.Rule.{IsTold, IsWordFor};
ghost use Rattle.nt_mail.specs.Views.{keeper, with_entry};
ghost use Rattle.nt_mail.specs.Seats.{seated, known_in};

use crate::mail::Mail;
use crate::packed::PackedEntry;
use crate::rule::{
    Apart, Letters, Looks, Place, Polls, Publishes, Reads, Spare, Takes, Together, Writes,
    WritesIfIdle, Writing,
};
use crate::seat::{DispatcherSeat, ThreadSeat};
use crate::word::{ENTRY_LIMIT, STATES, Word, idle_of};
use nt_status::{Moment, Status, ThreadId};
use std::marker::Brand;
use std::mem;

impl Mail {
    /// Writes a call or tick of the thread after which no wait of it is pending: its word becomes idle, or stays as it is if it is
    /// idle already.
    pub fn note(
        &self,
        dispatcher: &mut DispatcherSeat,
        caller: &mut ThreadSeat,
        entry: &PackedEntry,
        number: u64,
    )
        requires table { (dispatcher.old.table ≡ self.now) × (caller.old.table ≡ self.now) }
        requires entry { IsOwn caller.old.known.thread entry.now }
        requires idle { (is_armed caller.old.known.thread dispatcher.old.written ≡ false) × (arms entry.now ≡ false) }
        requires number { (number ≡ length dispatcher.old.written + 1) × (number < ENTRY_LIMIT) }
        ensures written { dispatcher.new
            ≡ record dispatcher.old { written = dispatcher.old.written ++ entry.now ∷ [] } }
        ensures made { caller.new ≡ seated self.now (with_call number entry.now caller.old.known) }
        ensures earlier { IsEarlier number caller.old.known }
    {
        self.write_call(dispatcher, caller, entry, number, false);
    }

    /// Writes a call or tick of the thread after which a wait of it is pending: its word becomes armed. Either this call pended, or
    /// a wait was pending before.
    pub fn arm(
        &self,
        dispatcher: &mut DispatcherSeat,
        caller: &mut ThreadSeat,
        entry: &PackedEntry,
        number: u64,
    )
        requires table { (dispatcher.old.table ≡ self.now) × (caller.old.table ≡ self.now) }
        requires entry { IsOwn caller.old.known.thread entry.now }
        requires pending { one_if (is_armed caller.old.known.thread dispatcher.old.written) + one_if (arms entry.now)
            ≡ 1 }
        requires number { (number ≡ length dispatcher.old.written + 1) × (number < ENTRY_LIMIT) }
        ensures written { dispatcher.new
            ≡ record dispatcher.old { written = dispatcher.old.written ++ entry.now ∷ [] } }
        ensures made { caller.new ≡ seated self.now (with_call number entry.now caller.old.known) }
        ensures earlier { IsEarlier number caller.old.known }
    {
        self.write_call(dispatcher, caller, entry, number, true);
    }

    // The caller's seat is joined for the one store, and parted again.
    fn write_call(
        &self,
        dispatcher: &mut DispatcherSeat,
        caller: &mut ThreadSeat,
        entry: &PackedEntry,
        number: u64,
        armed: bool,
    )
        requires table { (dispatcher.old.table ≡ self.now) × (caller.old.table ≡ self.now) }
        requires entry { IsOwn caller.old.known.thread entry.now }
        requires armed { one_if (is_armed caller.old.known.thread dispatcher.old.written) + one_if (arms entry.now)
            ≡ one_if armed }
        requires number { (number ≡ length dispatcher.old.written + 1) × (number < ENTRY_LIMIT) }
        ensures written { dispatcher.new
            ≡ record dispatcher.old { written = dispatcher.old.written ++ entry.now ∷ [] } }
        ensures made { caller.new ≡ seated self.now (with_call number entry.now caller.old.known) }
        ensures earlier { IsEarlier number caller.old.known }
    {
        let shared = &self.table.shared;
        let spare = shared.split_seat::<Spare>(&mut dispatcher.seat);
        let seat = mem::replace(&mut caller.seat, spare);
        shared.join_seat::<Together>(&mut dispatcher.seat, seat);
        store_unless_idle::<Brand>(
            &self.table,
            &mut dispatcher.seat,
            caller.thread,
            entry,
            number,
            armed,
        );
        caller.seat = shared.split_seat::<Apart>(&mut dispatcher.seat);
    }

    /// Writes a grant to a thread whose wait is pending: its word becomes granted.
    pub fn grant(
        &self,
        dispatcher: &mut DispatcherSeat,
        thread: ThreadId,
        status: Status,
        number: u64,
    )
        requires table { (dispatcher.old.table ≡ self.now) × (thread + 1 < self.now.words) }
        requires armed { is_armed thread dispatcher.old.written ≡ true }
        requires number { (number ≡ length dispatcher.old.written + 1) × (number < ENTRY_LIMIT) }
        ensures { dispatcher.new
            ≡ record dispatcher.old { written = dispatcher.old.written ++ Granted thread status ∷ [] } }
    {
        let thread = usize::from(thread.get());
        store_grant::<Brand>(&self.table, &mut dispatcher.seat, thread, status, number);
    }

    /// Makes a moment known to all threads, never one below the last.
    pub fn publish_moment(&self, dispatcher: &mut DispatcherSeat, moment: Moment)
        requires table { dispatcher.old.table ≡ self.now }
        requires moment { latest 0 dispatcher.old.published ≤ moment }
        ensures { dispatcher.new ≡ record dispatcher.old { published = dispatcher.old.published ++ moment ∷ [] } }
    {
        self.table
            .shared
            .store::<Publishes>(&mut dispatcher.seat, 0, moment.get());
    }

    /// Reads the moment, and changes nothing: what the thread knows is what was written, as it is where the mail is closed.
    pub fn look(&self, dispatcher: &mut DispatcherSeat, caller: &mut ThreadSeat)
        requires { (dispatcher.old.table ≡ self.now) × (caller.old.table ≡ self.now) }
        ensures same { (dispatcher.new ≡ dispatcher.old) × (caller.new ≡ caller.old) }
        ensures told { IsTold dispatcher.old.written dispatcher.old.published caller.old.known }
    {
        let shared = &self.table.shared;
        let spare = shared.split_seat::<Spare>(&mut dispatcher.seat);
        let seat = mem::replace(&mut caller.seat, spare);
        shared.join_seat::<Together>(&mut dispatcher.seat, seat);
        load_all(&self.table, &mut dispatcher.seat);
        caller.seat = shared.split_seat::<Apart>(&mut dispatcher.seat);
    }

    /// Reads the thread's word, once. `told_by` says whether it tells a grant.
    pub fn poll(&self, seat: &mut ThreadSeat) -> u64
        requires { seat.old.table ≡ self.now }
        ensures read { seat.new ≡ seated self.now (with_polled result seat.old.known) }
        ensures tells { IsWordFor seat.old.known result }
    {
        self.table
            .shared
            .load::<Polls>(&mut seat.seat, word_of(seat.thread))
    }

    /// Takes the grant that `word` tells, where the thread's word still is this one: it becomes idle, with the same number. Else it
    /// answers the word that it found. It tries once.
    pub fn take(&self, seat: &mut ThreadSeat, word: u64) -> Result<(), u64>
        requires table { seat.old.table ≡ self.now }
        requires granted { 2 ≤ word % STATES }
        ensures ok { OnOk result (seat.new ≡ seated self.now (with_got (grant_in word) seat.old.known)) }
        ensures err { IfErr result (λ found. (found ≢ word)
            × (seat.new ≡ seated self.now (with_polled found seat.old.known))) }
        ensures tells { IfErr result (IsWordFor seat.old.known) }
    {
        let idle = idle_of(word);
        let found = self
            .table
            .shared
            .compare_exchange::<Takes>(&mut seat.seat, word_of(seat.thread), word, idle);
        if found == word { Ok(()) } else { Err(found) }
    }

    /// Reads the moment, once. It is never below one that the thread read before.
    pub fn read_moment(&self, seat: &mut ThreadSeat) -> Moment
        requires { seat.old.table ≡ self.now }
        ensures read { seat.new ≡ seated self.now (with_moment result seat.old.known) }
        ensures rises { latest 0 seat.old.known.moments ≤ result }
    {
        let word = self.table.shared.load::<Reads>(&mut seat.seat, 0);
        let Some(moment) = Moment::new(word) else {
            unreachable!()
        };
        moment
    }
}

// Writes the call or tick that `W` names: by a store, or, where no wait is pending and the word is idle, by a load, which leaves it.
fn store_unless_idle<W: Writing>(
    table: &Letters,
    seat: &mut Place,
    thread: usize,
    entry: &PackedEntry,
    number: u64,
    armed: bool,
)
    requires table { (seat.old.table_id ≡ table.now.shared.table_id) × (thread + 1 < seat.old.table_id.words) }
    requires thread { thread < 2 ^ 16 }
    requires entry { (entry.now ≡ W.entry) × IsOwn thread entry.now }
    requires view { seat.old.me ≡ (
      keeper seat.old.me.0.written seat.old.me.0.published
          (known_in seat.old.me.0 ∷ []),
      [],
    ) }
    requires caller { (known_in seat.old.me.0).thread ≡ thread }
    requires armed { one_if (is_armed thread seat.old.me.0.written) + one_if (arms entry.now) ≡ one_if armed }
    requires number { (number ≡ length seat.old.me.0.written + 1) × (number < ENTRY_LIMIT) }
    ensures table { (seat.new.table_id ≡ seat.old.table_id) × (seat.new.id ≡ seat.old.id) }
    ensures view { seat.new.me ≡ (with_entry entry.now seat.old.me.0, []) }
    ensures earlier { IsEarlier number (known_in seat.old.me.0) }
{
    if armed {
        store_call::<W>(table, seat, thread, entry, number, true);
    } else if !note_if_idle::<W>(table, seat, thread, entry) {
        store_call::<W>(table, seat, thread, entry, number, false);
    }
}

// One load. Where the word is idle, that writes the call or tick that `W` names, and the word stays. Answers whether it is.
fn note_if_idle<W: Writing>(
    table: &Letters,
    seat: &mut Place,
    thread: usize,
    entry: &PackedEntry,
) -> bool
    requires table { (seat.old.table_id ≡ table.now.shared.table_id) × (thread + 1 < seat.old.table_id.words) }
    requires thread { thread < 2 ^ 16 }
    requires entry { (entry.now ≡ W.entry) × IsOwn thread entry.now }
    requires view { seat.old.me ≡ (
      keeper seat.old.me.0.written seat.old.me.0.published
          (known_in seat.old.me.0 ∷ []),
      [],
    ) }
    requires caller { (known_in seat.old.me.0).thread ≡ thread }
    requires unarmed { one_if (is_armed thread seat.old.me.0.written) + one_if (arms entry.now) ≡ 0 }
    ensures table { (seat.new.table_id ≡ seat.old.table_id) × (seat.new.id ≡ seat.old.id) }
    ensures view { seat.new.me ≡ (if result then with_entry entry.now seat.old.me.0 else seat.old.me.0, []) }
    ensures earlier { IsEarlier (suc (length seat.old.me.0.written)) (known_in seat.old.me.0) }
{
    let word = table.shared.load::<WritesIfIdle<W>>(seat, word_of(thread));
    word % STATES == 0
}

// One store, which writes the call or tick that `W` names.
fn store_call<W: Writing>(
    table: &Letters,
    seat: &mut Place,
    thread: usize,
    entry: &PackedEntry,
    number: u64,
    armed: bool,
)
    requires table { (seat.old.table_id ≡ table.now.shared.table_id) × (thread + 1 < seat.old.table_id.words) }
    requires thread { thread < 2 ^ 16 }
    requires entry { (entry.now ≡ W.entry) × IsOwn thread entry.now }
    requires view { seat.old.me ≡ (
      keeper seat.old.me.0.written seat.old.me.0.published
          (known_in seat.old.me.0 ∷ []),
      [],
    ) }
    requires caller { (known_in seat.old.me.0).thread ≡ thread }
    requires armed { one_if (is_armed thread seat.old.me.0.written) + one_if (arms entry.now) ≡ one_if armed }
    requires number { (number ≡ length seat.old.me.0.written + 1) × (number < ENTRY_LIMIT) }
    ensures table { (seat.new.table_id ≡ seat.old.table_id) × (seat.new.id ≡ seat.old.id) }
    ensures view { seat.new.me ≡ (with_entry entry.now seat.old.me.0, []) }
    ensures earlier { IsEarlier number (known_in seat.old.me.0) }
{
    let word = call_word(number, armed);
    table.shared.store::<Writes<W>>(seat, word_of(thread), word);
}

// One store, which writes the grant that `W` names.
fn store_grant<W: Writing>(
    table: &Letters,
    seat: &mut Place,
    thread: usize,
    status: Status,
    number: u64,
)
    requires table { (seat.old.table_id ≡ table.now.shared.table_id) × (thread + 1 < seat.old.table_id.words) }
    requires thread { thread < 2 ^ 16 }
    requires entry { W.entry ≡ Granted thread status }
    requires view { seat.old.me ≡ (keeper seat.old.me.0.written seat.old.me.0.published [], []) }
    requires armed { is_armed thread seat.old.me.0.written ≡ true }
    requires number { (number ≡ length seat.old.me.0.written + 1) × (number < ENTRY_LIMIT) }
    ensures table { (seat.new.table_id ≡ seat.old.table_id) × (seat.new.id ≡ seat.old.id) }
    ensures view { seat.new.me ≡ (with_entry (Granted thread status) seat.old.me.0, []) }
{
    let word = Word::Granted(number, status).bits();
    table.shared.store::<Writes<W>>(seat, word_of(thread), word);
}

// One load, by the dispatcher and the thread that is joined to it.
fn load_all(table: &Letters, seat: &mut Place)
    requires table { (seat.old.table_id ≡ table.now.shared.table_id) × (0 < seat.old.table_id.words) }
    requires view { seat.old.me ≡ (
      keeper seat.old.me.0.written seat.old.me.0.published
          (known_in seat.old.me.0 ∷ []),
      [],
    ) }
    ensures table { (seat.new.table_id ≡ seat.old.table_id) × (seat.new.id ≡ seat.old.id) }
    ensures view { seat.new.me ≡ seat.old.me }
    ensures told { IsTold seat.old.me.0.written seat.old.me.0.published (known_in seat.old.me.0) }
{
    let _ = table.shared.load::<Looks>(seat, 0);
}

// The place of the thread's word. The moment's is the first.
fn word_of(thread: usize) -> usize
    requires { thread < 2 ^ 16 }
    ensures { result ≡ thread + 1 }
{
    thread + 1
}

// The word that a call or tick leaves.
fn call_word(number: u64, armed: bool) -> u64
    requires { (0 < number) × (number < ENTRY_LIMIT) }
    ensures { result ≡ called_word armed number }
{
    if armed {
        number * STATES + 1
    } else {
        number * STATES
    }
}
