//! Creations, duplicates and closes, and what they do to the spare numbers.
ghost use Rattle.std.specs.Prelude.{◌≡◌, ◌<◌, ◌↔◌, ◌⊎◌, true, false, length, slice_index_or, Err, Some, None, ◌++◌, ◌∷◌, [], OnOk, OnErr};
ghost use Rattle.nt_status.specs.declared.limits.TheConstants.{MAX_HANDLES};
ghost use Rattle.nt_status.specs.declared.refusal.Refusal.TheVariants.{HandleLimit};
ghost use Rattle.nt_calls.specs.declared.call.Call.{Call};
ghost use Rattle.nt_calls.specs.declared.call.Act.{Act};
ghost use Rattle.nt_calls.specs.Steps.{Called};
ghost use Rattle.nt_machine.specs.Dispatcher.{state};
ghost use Rattle.nt_machine.specs.Lawful.{IsLawful};
ghost use Rattle.nt_core.specs.Renewals.{CreatesAgain};
ghost use Rattle.nt_life.specs.Lasting.{IsSpare, MaySpare, LooksAt, gives, is_numbered, NoHandle, NoObject, CreatesElse, LastsCreation, LastsDuplicate, KeepsPace, is_creation, is_unnamed, HasSpare, IsClosedLast, LacksOnlyNumbers, CreatesAtLimit, LeavesSpare, TakesNumbers, turn_after, finds_object, Lasts};
ghost use Rattle.nt_life.specs.declared.renewal.Renewal.TheVariants.{Create};
ghost use Rattle.nt_life.specs.Renewals.{Tells};

use crate::renewal::Renewal;
use crate::spare::Spare;
use nt_core::{Act, Call, Core, Reply};
use nt_status::{Handle, ObjectNumber, Refusal};

/// Whether no number was left.
fn is_limit(answer: &Result<Reply, Refusal>) -> bool
    ensures { (result ≡ true) ↔ (answer.now ≡ Err HandleLimit) }
{
    matches!(answer, Err(Refusal::HandleLimit))
}

/// A creation with the number of the object at this place, and with that of the handle that was closed last.
fn create_at(
    core: &mut Core,
    spare: &mut Spare,
    who: u32,
    act: &Act,
    handle: Handle,
    place: usize,
    told: &mut Option<Renewal>,
) -> Result<Reply, Refusal>
    requires has { HasSpare core.old spare.old }
    requires last { IsClosedLast spare.old handle }
    requires place { place < length spare.old.unnamed }
    ensures told { told.new ≡ Some (Create act.now (slice_index_or spare.old.unnamed place 0) handle) }
    ensures created { CreatesAgain (state core.old) who act.now (slice_index_or spare.old.unnamed place 0) handle
        result core.new.grants (state core.new) }
    ensures untested { core.new.table.looked ≡ 0 }
    ensures leaves { LeavesSpare spare.old core.new spare.new }
    ensures turn { spare.new.turn ≡ spare.old.turn }
{
    let object = spare.object(place);
    *told = Some(Renewal::Create {
        act: *act,
        object,
        handle,
    });
    let reply = core.create_again(who, act, object, handle)?;
    spare.take_handle();
    spare.take_object(place);
    Ok(reply)
}

/// A creation once each handle number was handed out. An object number is added, if each that there is is taken.
fn create_more(
    core: &mut Core,
    spare: &mut Spare,
    who: u32,
    act: &Act,
    handle: Handle,
    told: &mut Option<Renewal>,
) -> Result<Reply, Refusal>
    requires has { HasSpare core.old spare.old }
    requires last { IsClosedLast spare.old handle }
    requires lacks { LacksOnlyNumbers (state core.old) who act.now }
    ensures told { Tells (state core.old) who (Call.Act act.now) told.new result core.new.grants (state core.new) }
    ensures created { CreatesAtLimit (state core.old) spare.old who act.now result core.new.grants (state core.new) }
    ensures limit { result ≡ Err HandleLimit → NoHandle (state core.old) ⊎ NoObject (state core.old) }
    ensures untested { core.new.table.looked ≡ 0 }
    ensures leaves { LeavesSpare spare.old core.new spare.new }
    ensures turn { spare.new.turn ≡ spare.old.turn }
{
    if let Some(place) = spare.any_vacant(core) {
        return create_at(core, spare, who, act, handle, place, told);
    }
    let object = match core.add_vacant() {
        Ok(object) => object,
        Err(refusal) => {
            *told = Some(Renewal::Unadded(*act));
            return Err(refusal);
        }
    };
    let place = spare.add_object(object);
    let answer = create_at(core, spare, who, act, handle, place, told);
    *told = Some(Renewal::CreateAdded {
        act: *act,
        object,
        handle,
    });
    answer
}

/// A creation with the next new numbers, while there are any.
fn create_new(
    core: &mut Core,
    spare: &mut Spare,
    who: u32,
    act: &Act,
    call: &Call,
    told: &mut Option<Renewal>,
) -> Result<Reply, Refusal>
    requires has { HasSpare core.old spare.old }
    requires act { call.now ≡ Call.Act act.now }
    requires creates { is_creation act.now ≡ true }
    requires untold { told.old ≡ None }
    ensures told { Tells (state core.old) who (Call.Act act.now) told.new result core.new.grants (state core.new) }
    ensures created { CreatesElse (state core.old) spare.old who act.now result core.new.grants (state core.new) }
    ensures limit { result ≡ Err HandleLimit → NoHandle (state core.old) ⊎ NoObject (state core.old) }
    ensures takes { TakesNumbers core.old spare.old who (Call.Act act.now) result core.new spare.new }
    ensures turn { spare.new.turn ≡ spare.old.turn }
    ensures ordered { length (state core.old).handles < MAX_HANDLES → spare.new.unnamed ≡ spare.old.unnamed }
{
    let answer = core.call(who, call);
    if !is_limit(&answer) {
        return answer;
    }
    match spare.handle() {
        Some(handle) => create_more(core, spare, who, act, handle, told),
        None => answer,
    }
}

/// A creation: with the numbers that were freed last, if both can be given.
fn create(
    core: &mut Core,
    spare: &mut Spare,
    who: u32,
    act: &Act,
    call: &Call,
    told: &mut Option<Renewal>,
) -> Result<Reply, Refusal>
    requires has { HasSpare core.old spare.old }
    requires act { call.now ≡ Call.Act act.now }
    requires creates { is_creation act.now ≡ true }
    requires untold { told.old ≡ None }
    ensures told { Tells (state core.old) who (Call.Act act.now) told.new result core.new.grants (state core.new) }
    ensures created { LastsCreation (state core.old) spare.old who act.now result core.new.grants (state core.new) }
    ensures limit { result ≡ Err HandleLimit → NoHandle (state core.old) ⊎ NoObject (state core.old) }
    ensures takes { TakesNumbers core.old spare.old who (Call.Act act.now) result core.new spare.new }
    ensures turned { spare.new.turn ≡ turn_after (state core.old) spare.old (Call.Act act.now) }
    ensures ordered { finds_object (state core.old) spare.old ≡ false → length (state core.old).handles < MAX_HANDLES
        → spare.new.unnamed ≡ spare.old.unnamed }
{
    let Some(handle) = spare.handle() else {
        return create_new(core, spare, who, act, call, told);
    };
    let Some(place) = spare.vacant(core) else {
        return create_new(core, spare, who, act, call, told);
    };
    create_at(core, spare, who, act, handle, place, told)
}

/// DuplicateHandle: with the number of a closed handle, if there is one.
fn duplicate(
    core: &mut Core,
    spare: &mut Spare,
    who: u32,
    call: &Call,
    source: Handle,
    access: u32,
    told: &mut Option<Renewal>,
) -> Result<Reply, Refusal>
    requires has { HasSpare core.old spare.old }
    requires act { call.now ≡ Call.Act (Act.Duplicate source access) }
    requires untold { told.old ≡ None }
    ensures told { Tells (state core.old) who (Call.Act (Act.Duplicate source access)) told.new
        result core.new.grants (state core.new) }
    ensures duplicated { LastsDuplicate (state core.old) spare.old who source access
        result core.new.grants (state core.new) }
    ensures limit { result ≡ Err HandleLimit → NoHandle (state core.old) }
    ensures takes { TakesNumbers core.old spare.old who (Call.Act (Act.Duplicate source access)) result
        core.new spare.new }
    ensures turn { spare.new.turn ≡ spare.old.turn }
{
    let Some(handle) = spare.handle() else {
        return core.call(who, call);
    };
    *told = Some(Renewal::Duplicate {
        source,
        access,
        handle,
    });
    let reply = core.duplicate_again(who, source, access, handle)?;
    spare.take_handle();
    Ok(reply)
}

/// Whether the object is no thread's, and no handle names it.
pub(crate) fn is_unnamed(core: &Core, object: ObjectNumber) -> bool
    requires { object < length core.now.objects }
    ensures { result ≡ is_unnamed (state core.now) object }
{
    core.threads() <= object.get() && !core.is_opened(object)
}

/// CloseHandle: the number of the handle is spare then, and so is that of its object if no other handle names it.
fn close(
    core: &mut Core,
    spare: &mut Spare,
    who: u32,
    call: &Call,
    handle: Handle,
) -> Result<Reply, Refusal>
    requires has { HasSpare core.old spare.old }
    requires act { call.now ≡ Call.Act (Act.Close handle) }
    ensures called { Called (state core.old) who call.now result core.new.grants (state core.new) }
    ensures pace { KeepsPace (state core.old) who (Call.Act (Act.Close handle))
        result core.new.grants (state core.new) }
    ensures looks { LooksAt core.old who call.now result core.new }
    ensures has { HasSpare core.new spare.new }
    ensures stacked { OnOk result (spare.new.closed ≡ spare.old.closed ++ handle ∷ []) }
    ensures kept { OnErr result (spare.new.closed ≡ spare.old.closed) }
    ensures turn { spare.new.turn ≡ spare.old.turn }
{
    let Some(object) = core.object_number(handle) else {
        return core.call(who, call);
    };
    let reply = core.call(who, call)?;
    let unnamed = is_unnamed(core, object);
    spare.add_closed(handle, object, unnamed);
    Ok(reply)
}

/// Whether the act creates an object.
fn is_creation(act: &Act) -> bool
    ensures { result ≡ is_creation act.now }
{
    matches!(
        act,
        Act::CreateEvent(_)
            | Act::CreateSemaphore { .. }
            | Act::CreateMutex(_)
            | Act::CreateTimer(_)
    )
}

/// A call that is an act: creations, duplicates and closes take or give spare numbers, and all others are the machine's own.
pub(crate) fn make_act(
    core: &mut Core,
    spare: &mut Spare,
    who: u32,
    act: &Act,
    call: &Call,
    told: &mut Option<Renewal>,
) -> Result<Reply, Refusal>
    requires has { HasSpare core.old spare.old }
    requires act { call.now ≡ Call.Act act.now }
    requires untold { told.old ≡ None }
    ensures told { Tells (state core.old) who (Call.Act act.now) told.new result core.new.grants (state core.new) }
    ensures lasts { Lasts core.old (Some spare.old) who (Call.Act act.now) result core.new (Some spare.new) }
    ensures spare { IsSpare (state core.new) spare.new }
{
    match *act {
        Act::Close(handle) => close(core, spare, who, call, handle),
        Act::Duplicate { handle, access } => {
            duplicate(core, spare, who, call, handle, access, told)
        }
        _ => {
            if is_creation(act) {
                return create(core, spare, who, act, call, told);
            }
            core.call(who, call)
        }
    }
}

/// Whether the call takes a number or gives one back.
fn is_numbered(call: &Call) -> bool
    ensures { result ≡ is_numbered call.now }
{
    match call {
        Call::Act(act) => matches!(act, Act::Duplicate { .. } | Act::Close(_)) || is_creation(act),
        _ => false,
    }
}

/// A call of a dispatcher that gives numbers again.
#[inline(always)]
fn call_giving(
    core: &mut Core,
    spare: &mut Spare,
    who: u32,
    call: &Call,
    told: &mut Option<Renewal>,
) -> Result<Reply, Refusal>
    requires has { HasSpare core.old spare.old }
    requires untold { told.old ≡ None }
    ensures told { Tells (state core.old) who call.now told.new result core.new.grants (state core.new) }
    ensures lasts { Lasts core.old (Some spare.old) who call.now result core.new (Some spare.new) }
    ensures spare { IsSpare (state core.new) spare.new }
{
    match call {
        Call::Act(act) => make_act(core, spare, who, act, call, told),
        _ => core.call(who, call),
    }
}

/// Whether the call takes a number or gives one back that may be given again.
pub(crate) fn gives(spare: &Option<Spare>, call: &Call) -> bool
    ensures { result ≡ gives spare.now call.now }
{
    is_numbered(call) && spare.is_some()
}

/// A call. If there are spare numbers, creations and duplicates take them, and closes give them back.
pub(crate) fn make_call(
    core: &mut Core,
    spare: &mut Option<Spare>,
    who: u32,
    call: &Call,
    told: &mut Option<Renewal>,
) -> Result<Reply, Refusal>
    requires lawful { IsLawful core.old }
    requires spare { MaySpare (state core.old) spare.old }
    requires untold { told.old ≡ None }
    ensures told { Tells (state core.old) who call.now told.new result core.new.grants (state core.new) }
    ensures lasts { Lasts core.old spare.old who call.now result core.new spare.new }
    ensures spare { MaySpare (state core.new) spare.new }
{
    match spare {
        Some(spare) => call_giving(core, spare, who, call, told),
        None => core.call(who, call),
    }
}
