//! What handles allow.
ghost use Rattle.std.specs.Prelude.{◌≡◌, ◌||◌, true};
ghost use Rattle.std.specs.List.{list_any};
ghost use Rattle.nt_machine.specs.Dispatcher.{state};
ghost use Rattle.nt_tables.specs.Handles.{names, opened_at};
ghost use Rattle.nt_look.specs.Hangs.{gives, is_given};

use nt_core::Core;
use nt_status::{Access, Handle, MAX_HANDLES, ObjectNumber};

/// Whether the handle names the object, and has this right.
fn gives(core: &Core, right: Access, object: ObjectNumber, handle: Handle) -> bool
    ensures { result ≡ gives right object (opened_at (state core.now).handles handle) }
{
    match core.opened(handle) {
        Some(opened) => opened.object == object && opened.access.contains(right),
        None => false,
    }
}

/// Whether it names the object.
fn names(core: &Core, object: ObjectNumber, handle: Handle) -> bool
    ensures { result ≡ names object (opened_at (state core.now).handles handle) }
{
    match core.opened(handle) {
        Some(opened) => opened.object == object,
        None => false,
    }
}

/// Whether one of the handles, the lowest first, has this right to the object. It ends once each handle of the object was seen.
fn is_given_by_one(core: &Core, right: Access, object: ObjectNumber) -> bool
    ensures { result ≡ is_given (state core.now) right object }
{
    core.stands();
    let mut left = core.handles_of(object);
    for number in 0..MAX_HANDLES as u32 {
        if left == 0 {
            return false;
        }
        let handle = Handle::new(number);
        if gives(core, right, object, handle) {
            return true;
        }
        if names(core, object, handle) {
            left -= 1;
        }
    }
    false
}

/// Whether some handle of the object has this right. The first handle of an object mostly has the object's number, so that one is looked
/// at first.
pub(crate) fn is_given(core: &Core, right: Access, object: ObjectNumber) -> bool
    ensures { result ≡ is_given (state core.now) right object }
{
    gives(core, right, object, Handle::new(object.get())) || is_given_by_one(core, right, object)
}
