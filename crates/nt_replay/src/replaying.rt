//! Entries made again, one after another.
ghost use Rattle.std.specs.Prelude.{◌≡◌, ◌≢◌, ◌<◌, ◌↔◌, Some, length, true, false, IfOk, IfErr, OnOk};
ghost use Rattle.std.specs.List.{slice_get, list_any};
ghost use Rattle.nt_machine.specs.Dispatcher.{state};
ghost use Rattle.nt_laws.specs.Laws.{wants_memory};
ghost use Rattle.nt_mail.specs.Journals.{IsLifeFrom, IsRunFrom, is_renewal};
ghost use Rattle.nt_replay.specs.Replays.{ReplayGoesOn, StopsFor, IsUnreplayed, IsMismatch, EntryIsDone, IsUndone};

use crate::renewing::renew_again;
use crate::unreplayed::Unreplayed;
use nt_core::{Act, Call, Core, Grant, Reply};
use nt_laws::lives_one_way;
use nt_mail::{PackedEntry, ReadEntry};
use nt_status::Refusal;

/// Does again on the base what the entries tell, compares every result, number and grant, and answers the machine after them.
///
/// It answers it exactly where the entries are a life from the base, unless memory is refused. A life in which no number was given again
/// is a run.
pub fn replay(base: Core, entries: &[PackedEntry]) -> Result<Core, Unreplayed>
    ensures life { IfOk result (λ core. IsLifeFrom (state base) entries.now (state core)) }
    ensures run { IfOk result (λ core. list_any is_renewal entries.now ≡ false
        → IsRunFrom (state base) entries.now (state core)) }
    ensures unreplayed { IfErr result (IsUnreplayed (state base) entries.now) }
{
    let mut core = base;
    let outcome = replay_all(&mut core, entries);
    match outcome {
        Ok(()) => Ok(core),
        Err(cause) => {
            drop(core);
            Err(cause)
        }
    }
}

/// Does again on this machine what all entries tell.
#[tactic(auto, using(crate::proofs::Comparing::none_replayed, crate::proofs::Comparing::life_replayed, crate::proofs::Comparing::grants_lacking_at))]
fn replay_all(core: &mut Core, entries: &[PackedEntry]) -> Result<(), Unreplayed>
    ensures life { OnOk result (IsLifeFrom (state core.old) entries.now (state core.new)) }
    ensures unreplayed { IfErr result (IsUnreplayed (state core.old) entries.now) }
{
    lives_one_way();
    let mut compared = core.grants().len();
    for place in 0..entries.len() {
        compared = match replay_entry(core, compared, entries, place) {
            Ok(now) => now,
            Err(cause) => return Err(cause),
        };
    }
    if compared < core.grants().len() {
        return Err(Unreplayed::Differs(entries.len()));
    }
    Ok(())
}

/// Does again what one entry tells, or compares its grant. `compared` is how many grants of the last call were compared before; it answers
/// how many are now.
fn replay_entry(
    core: &mut Core,
    compared: usize,
    entries: &[PackedEntry],
    place: usize,
) -> Result<usize, Unreplayed>
    requires { place < length entries.now }
    ensures ok { IfOk result (λ now. ReplayGoesOn entries.now place compared core.old now core.new) }
    ensures err { IfErr result (StopsFor entries.now place compared core.old) }
{
    lives_one_way();
    if let ReadEntry::Granted { who, status } = entries[place].read() {
        let grant = Grant {
            thread: who,
            status,
        };
        return if is_next(core.grants(), compared, grant) {
            Ok(compared + 1)
        } else {
            Err(Unreplayed::Differs(place))
        };
    }
    if compared < core.grants().len() {
        return Err(Unreplayed::Differs(place));
    }
    do_again(core, &entries[place], place)
}

/// Does again what the entry tells, unless it is a grant. No grant of it was compared yet.
fn do_again(core: &mut Core, entry: &PackedEntry, place: usize) -> Result<usize, Unreplayed>
    ensures ok { IfOk result (λ now. (now ≡ 0) × EntryIsDone entry.now core.old core.new) }
    ensures err { IfErr result (IsUndone (state core.old) entry.now place) }
{
    lives_one_way();
    match entry.read() {
        ReadEntry::Called { who, call, result } => {
            compare_call(core.call(u32::from(who.get()), call), result, place)
        }
        ReadEntry::Handed { who, apc } => {
            let call = Call::Act(Act::NextApc);
            let made = core.call(u32::from(who.get()), &call);
            compare_call(made, Ok(Reply::Apc(apc)), place)
        }
        ReadEntry::Ticked { moment, result, .. } => compare(core.tick(moment), result, place),
        ReadEntry::Renewed {
            who,
            renewal,
            result,
        } => renew_again(core, who, renewal, result, place),
        ReadEntry::Granted { .. } => Err(Unreplayed::Differs(place)),
    }
}

/// Whether this grant is the next one.
fn is_next(grants: &[Grant], compared: usize, grant: Grant) -> bool
    ensures { (result ≡ true) ↔ (slice_get grants.now compared ≡ Some grant) }
{
    match grants.get(compared) {
        Some(next) => *next == grant,
        None => false,
    }
}

/// Compares the answer of a call with the one that stands in the entries. No grant of it was compared yet.
fn compare_call(
    made: Result<Reply, Refusal>,
    told: Result<Reply, Refusal>,
    place: usize,
) -> Result<usize, Unreplayed>
    ensures ok { IfOk result (λ now. (now ≡ 0) × (made ≡ told)) }
    ensures err { IfErr result (IsMismatch made told place) }
{
    if is_for_memory(&made) != is_for_memory(&told) {
        return Err(Unreplayed::Memory(place));
    }
    compare(made, told, place)
}

/// Compares two answers. No grant that came with them was compared yet.
pub(crate) fn compare(
    made: Result<Reply, Refusal>,
    told: Result<Reply, Refusal>,
    place: usize,
) -> Result<usize, Unreplayed>
    ensures ok { IfOk result (λ now. (now ≡ 0) × (made ≡ told)) }
    ensures err { IfErr result (λ cause. (cause ≡ Unreplayed.Differs place) × (made ≢ told)) }
{
    if made == told {
        Ok(0)
    } else {
        Err(Unreplayed::Differs(place))
    }
}

/// Whether a call was refused for memory.
fn is_for_memory(answer: &Result<Reply, Refusal>) -> bool
    ensures { result ≡ wants_memory answer.now }
{
    matches!(answer, Err(Refusal::Memory))
}
