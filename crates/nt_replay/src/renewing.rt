//! Numbers given again as the entries tell.
ghost use Rattle.std.specs.Prelude.{◌≡◌, ◌≢◌, ℕ, IfOk, IfErr, Ok, Err};
ghost use Rattle.nt_calls.specs.declared.call.Act.{Act};
ghost use Rattle.nt_machine.specs.Dispatcher.{state};
ghost use Rattle.nt_laws.specs.Lives.{wants_number};
ghost use Rattle.nt_mail.specs.declared.entry.Entry.TheVariants.{Renewed};
ghost use Rattle.nt_life.specs.declared.renewal.Renewal.TheVariants.{CreateAdded, Unadded};
ghost use Rattle.nt_mail.specs.Entries.{handle_reply};
ghost use Rattle.nt_replay.specs.Replays.{IsNumberMismatch, EntryIsDone, IsUndone};

use crate::replaying::compare;
use crate::unreplayed::Unreplayed;
use nt_core::{Act, Core, Reply};
use nt_laws::lives_one_way;
use nt_life::Renewal;
use nt_status::{Handle, ObjectNumber, Refusal, ThreadId};

/// Gives numbers again as the entry tells, and compares the answer.
pub(crate) fn renew_again(
    core: &mut Core,
    who: ThreadId,
    renewal: &Renewal,
    told: Result<Handle, Refusal>,
    place: usize,
) -> Result<usize, Unreplayed>
    ensures ok { IfOk result (λ now. (now ≡ 0) × EntryIsDone (Renewed who renewal.now told) core.old core.new) }
    ensures err { IfErr result (IsUndone (state core.old) (Renewed who renewal.now told) place) }
{
    lives_one_way();
    let caller = u32::from(who.get());
    match renewal {
        Renewal::Create {
            act,
            object,
            handle,
        } => {
            let answer = core.create_again(caller, act, *object, *handle);
            compare(answer, answer_of(told), place)
        }
        Renewal::CreateAdded {
            act,
            object,
            handle,
        } => create_added(core, caller, act, *object, *handle, told, place),
        Renewal::Unadded(act) => add_in_vain(core, caller, act, told, place),
        Renewal::Duplicate {
            source,
            access,
            handle,
        } => {
            let answer = core.duplicate_again(caller, *source, *access, *handle);
            compare(answer, answer_of(told), place)
        }
        Renewal::Begin(handle) => {
            let answer = core.begin_again(caller, *handle);
            compare(answer, answer_of(told), place)
        }
    }
}

/// The answer that tells this handle.
fn answer_of(told: Result<Handle, Refusal>) -> Result<Reply, Refusal>
    ensures { result ≡ handle_reply told }
{
    match told {
        Ok(handle) => Ok(Reply::Handle(handle)),
        Err(cause) => Err(cause),
    }
}

/// A creation by an object number that is added for it.
fn create_added(
    core: &mut Core,
    who: u32,
    act: &Act,
    object: ObjectNumber,
    handle: Handle,
    told: Result<Handle, Refusal>,
    place: usize,
) -> Result<usize, Unreplayed>
    ensures ok { IfOk result (λ now. (now ≡ 0)
        × EntryIsDone (Renewed who (CreateAdded act.now object handle) told) core.old core.new) }
    ensures err { IfErr result (IsUndone (state core.old) (Renewed who (CreateAdded act.now object handle) told) place) }
{
    lives_one_way();
    let added = compare_number(core.add_vacant(), Ok(object), place);
    match added {
        Ok(_) => compare(
            core.create_again(who, act, object, handle),
            answer_of(told),
            place,
        ),
        Err(cause) => Err(cause),
    }
}

/// An object number that could not be added for a creation.
fn add_in_vain(
    core: &mut Core,
    who: u32,
    act: &Act,
    told: Result<Handle, Refusal>,
    place: usize,
) -> Result<usize, Unreplayed>
    ensures ok { IfOk result (λ now. (now ≡ 0) × EntryIsDone (Renewed who (Unadded act.now) told) core.old core.new) }
    ensures err { IfErr result (IsUndone (state core.old) (Renewed who (Unadded act.now) told) place) }
{
    lives_one_way();
    match told {
        Ok(_) => Err(Unreplayed::Differs(place)),
        Err(cause) => compare_number(core.add_vacant(), Err(cause), place),
    }
}

/// Compares an object number that was added with the one that stands in the entries.
fn compare_number(
    made: Result<ObjectNumber, Refusal>,
    told: Result<ObjectNumber, Refusal>,
    place: usize,
) -> Result<usize, Unreplayed>
    ensures ok { IfOk result (λ now. (now ≡ 0) × (made ≡ told)) }
    ensures err { IfErr result (IsNumberMismatch made told place) }
{
    if is_for_memory(&made) != is_for_memory(&told) {
        return Err(Unreplayed::Memory(place));
    }
    if made == told {
        Ok(0)
    } else {
        Err(Unreplayed::Differs(place))
    }
}

/// Whether no number was added for want of memory.
fn is_for_memory(answer: &Result<ObjectNumber, Refusal>) -> bool
    ensures { result ≡ wants_number answer.now }
{
    matches!(answer, Err(Refusal::Memory))
}
