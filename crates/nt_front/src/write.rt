//! How entries are written, and how their threads learn of them.
ghost use Rattle.std.specs.Prelude.{◌≡◌, ◌+◌, ◌-◌, ◌<◌, ◌≤◌, ◌++◌, ◌∷◌, [], length, map, vec_len, vec_capacity, ℕ, Result, IfOk, IsTrue};
ghost use Rattle.nt_status.specs.declared.refusal.Refusal.{Refusal};
ghost use Rattle.nt_calls.specs.Moves.{one_if};
ghost use Rattle.nt_answers.specs.Answers.{is_handle};
ghost use Rattle.nt_mail.specs.declared.entry.Entry.{Entry};
ghost use Rattle.nt_mail.specs.declared.entry.Entry.TheVariants.{Renewed};
ghost use Rattle.nt_mail.specs.Entries.{handle_reply, accepted_if, arms, is_armed, IsOwn};
ghost use Rattle.nt_mail.specs.Seats.{seated};
ghost use Rattle.nt_mail.specs.Knowledge.{with_call, latest, IsEarlier};
ghost use Rattle.nt_front.specs.Runs.{granted, AreArmed};
ghost use Rattle.nt_front.specs.Books.{IsCarriedOut};

use nt_answers::handle_told;
use nt_core::{Call, Grant, Reply};
use nt_life::{Lasting, Renewal};
use nt_mail::{DispatcherSeat, ENTRY_LIMIT, Mail, PackedEntry, ThreadSeat};
use nt_status::{Moment, Refusal, ThreadId};

/// Carries the call out, and writes it with its result, or which numbers were given again for it.
#[inline(always)]
pub(crate) fn write_call(
    life: &mut Lasting,
    journal: &mut Vec<PackedEntry>,
    who: ThreadId,
    call: Call,
) -> Result<Reply, Refusal>
    requires room { vec_len journal.old < vec_capacity journal.old }
    ensures carried_out { (entry : Entry) × (journal.new.items ≡ journal.old.items ++ entry ∷ [])
        × IsCarriedOut life.old who call result entry life.new }
    ensures room { (vec_len journal.new ≡ vec_len journal.old + 1)
        × (vec_capacity journal.new ≡ vec_capacity journal.old) }
{
    let mut renewal = None;
    let result = life.call_told(u32::from(who.get()), &call, &mut renewal);
    let told = result;
    match renewal {
        None => journal.push_reserved(PackedEntry::called(who, call, result)),
        Some(renewal) => write_renewal(journal, who, renewal, result),
    }
    told
}

/// Writes which numbers were given again, with the answer.
#[inline(never)]
fn write_renewal(
    journal: &mut Vec<PackedEntry>,
    who: ThreadId,
    renewal: Renewal,
    answer: Result<Reply, Refusal>,
)
    requires room { vec_len journal.old < vec_capacity journal.old }
    requires handle { IsTrue (is_handle answer) }
    ensures journal { (told : Result ℕ Refusal) × (handle_reply told ≡ answer)
        × (journal.new.items ≡ journal.old.items ++ Renewed who renewal told ∷ []) }
    ensures room { (vec_len journal.new ≡ vec_len journal.old + 1)
        × (vec_capacity journal.new ≡ vec_capacity journal.old) }
{
    let result = handle_told(answer);
    journal.push_reserved(PackedEntry::renewed(who, renewal, result));
}

/// Tells the thread of its entry, and whether a wait of it is pending.
#[inline(always)]
pub(crate) fn tell(
    mail: &Mail,
    dispatcher: &mut DispatcherSeat,
    caller: &mut ThreadSeat,
    entry: &PackedEntry,
    number: u64,
    armed: bool,
)
    requires table { (dispatcher.old.table ≡ mail.now) × (caller.old.table ≡ mail.now) }
    requires entry { IsOwn caller.old.known.thread entry.now }
    requires armed { one_if (is_armed caller.old.known.thread dispatcher.old.written) + one_if (arms entry.now)
        ≡ one_if armed }
    requires number { (number ≡ length dispatcher.old.written + 1) × (number < ENTRY_LIMIT) }
    ensures written { dispatcher.new ≡ record dispatcher.old { written = dispatcher.old.written ++ entry.now ∷ [] } }
    ensures made { caller.new ≡ seated mail.now (with_call number entry.now caller.old.known) }
    ensures earlier { IsEarlier number caller.old.known }
{
    if armed {
        mail.arm(dispatcher, caller, entry, number);
    } else {
        mail.note(dispatcher, caller, entry, number);
    }
}

/// Makes the moment of an accepted tick known.
pub(crate) fn publish(
    mail: &Mail,
    dispatcher: &mut DispatcherSeat,
    moment: Moment,
    answer: &Result<Reply, Refusal>,
)
    requires table { dispatcher.old.table ≡ mail.now }
    requires moment { IfOk answer.now (λ _. latest 0 dispatcher.old.published ≤ moment) }
    ensures { dispatcher.new
        ≡ record dispatcher.old { published = dispatcher.old.published ++ accepted_if moment answer.now } }
{
    if answer.is_ok() {
        mail.publish_moment(dispatcher, moment);
    }
}

/// Writes the grants, from this number on, and sends them. Mostly there are none.
pub(crate) fn send(
    mail: &Mail,
    dispatcher: &mut DispatcherSeat,
    journal: &mut Vec<PackedEntry>,
    next: u64,
    grants: &[Grant],
)
    requires table { dispatcher.old.table ≡ mail.now }
    requires next { next ≡ length dispatcher.old.written + 1 }
    requires room { (vec_len journal.old + length grants.now ≤ vec_capacity journal.old)
        × (next + length grants.now ≤ ENTRY_LIMIT) }
    requires armed { AreArmed (mail.now.words - 1) dispatcher.old.written grants.now }
    ensures journal { journal.new.items ≡ journal.old.items ++ map granted grants.now }
    ensures capacity { vec_capacity journal.new ≡ vec_capacity journal.old }
    ensures written { dispatcher.new
        ≡ record dispatcher.old { written = dispatcher.old.written ++ map granted grants.now } }
{
    if !grants.is_empty() {
        send_slow(mail, dispatcher, journal, next, grants);
    }
}

/// Writes the grants one by one.
#[inline(never)]
fn send_slow(
    mail: &Mail,
    dispatcher: &mut DispatcherSeat,
    journal: &mut Vec<PackedEntry>,
    next: u64,
    grants: &[Grant],
)
    requires table { dispatcher.old.table ≡ mail.now }
    requires next { next ≡ length dispatcher.old.written + 1 }
    requires room { (vec_len journal.old + length grants.now ≤ vec_capacity journal.old)
        × (next + length grants.now ≤ ENTRY_LIMIT) }
    requires armed { AreArmed (mail.now.words - 1) dispatcher.old.written grants.now }
    ensures journal { journal.new.items ≡ journal.old.items ++ map granted grants.now }
    ensures capacity { vec_capacity journal.new ≡ vec_capacity journal.old }
    ensures written { dispatcher.new
        ≡ record dispatcher.old { written = dispatcher.old.written ++ map granted grants.now } }
{
    let mut number = next;
    for grant in grants {
        let Grant { thread, status } = *grant;
        journal.push_reserved(PackedEntry::granted(thread, status));
        mail.grant(dispatcher, thread, status, number);
        number += 1;
    }
}
