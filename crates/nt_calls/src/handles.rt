//! What the handles of a call name.
ghost use Rattle.std.specs.Prelude.{◌≡◌, ◌≤◌, ◌||◌, false, [], length, nat_lt, is_some, map, slice_get, IfNone};
ghost use Rattle.std.specs.List.{list_any};
ghost use Rattle.std.specs.Option.{option_copied};
ghost use Rattle.nt_objects.specs.declared.object.Object.TheVariants.{Thread};
ghost use Rattle.nt_calls.specs.State.{object_at};
ghost use Rattle.nt_calls.specs.Naming.{object_named, lacks};

use arrayvec::ArrayVec;
use nt_objects::Object;
use nt_status::{Handle, ObjectNumber};
use nt_tables::HandleTable;

/// SYNCHRONIZE.
pub const SYNCHRONIZE: u32 = 0x0010_0000;

/// EVENT_MODIFY_STATE, SEMAPHORE_MODIFY_STATE, TIMER_MODIFY_STATE.
pub const MODIFY_STATE: u32 = 0x0002;

/// THREAD_SET_CONTEXT.
pub const SET_CONTEXT: u32 = 0x0010;

/// The most objects of a wait for few. Most waits for several objects name at most this many, and a list of them needs less room.
pub const FEW_OBJECTS: usize = 8;

/// The numbers of the objects that a wait names, at most `N`. They lie in the value itself.
pub type NamedObjects<const N: usize> = ArrayVec<ObjectNumber, N>;

/// The number of the object that the handle names, and one that no object has where it names none.
pub fn object_named(handles: &HandleTable, handle: Handle) -> ObjectNumber
    ensures { result ≡ object_named handles.now.opened handle }
{
    handles.object_number(handle)
}

/// What the handle names: the number of its object, and one that no object has where it names none. Answers also whether the
/// handle lacks one of these rights.
pub fn opened(handles: &HandleTable, handle: Handle, access: u32) -> (ObjectNumber, bool)
    ensures object { result.0 ≡ object_named handles.now.opened handle }
    ensures denied { result.1 ≡ lacks access handles.now.opened handle }
{
    let object = object_named(handles, handle);
    (object, handles.rights(handle) & access != access)
}

/// Lists the numbers of the objects that the handles name, in this order. Answers whether one of the handles may not be waited for.
pub fn name_all<const N: usize>(
    handles: &HandleTable,
    these: &[Handle],
    named: &mut NamedObjects<N>,
) -> bool
    requires few { length these.now ≤ N }
    requires empty { named.old.items ≡ [] }
    ensures denied { result ≡ list_any (lacks 0x00100000 handles.now.opened) these.now }
    ensures items { named.new.items ≡ map (object_named handles.now.opened) these.now }
{
    let mut denied = false;
    for handle in these {
        let (object, lacks) = opened(handles, *handle, SYNCHRONIZE);
        named.push(object);
        denied = denied || lacks;
    }
    denied
}

/// The object with this number, or none.
pub fn named(objects: &[Object], number: ObjectNumber) -> Option<&Object>
    ensures object { option_copied result ≡ slice_get objects.now number }
    ensures known { is_some result ≡ nat_lt number (length objects.now) }
    ensures none { IfNone result (object_at objects.now number ≡ Thread false) }
{
    objects.get(number.get() as usize)
}
