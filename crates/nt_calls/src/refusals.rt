//! Whether a call on an object is refused, and by which cause: the first that holds, in the order of `specs/Refusals`.
ghost use Rattle.std.specs.Prelude.{◌≡◌, ◌∷◌, [], Ok, Err, MatchOption};
ghost use Rattle.nt_status.specs.declared.refusal.Refusal.TheVariants.{InvalidHandle, AccessDenied};
ghost use Rattle.nt_objects.specs.Object.{is_event, is_timer};
ghost use Rattle.nt_calls.specs.Refusals.{first_of_causes, apc_causes, arm_causes, close_causes, duplicate_causes, is_no, is_unknown, release_causes, unlock_causes};

use crate::handles::named;
use nt_objects::Object;
use nt_status::{Access, Handle, MAX_HANDLES, ObjectNumber, Refusal, ThreadId};
use nt_tables::HandleTable;

/// The number of the object, or why it is refused.
pub(crate) fn judged(
    object: ObjectNumber,
    refusal: Option<Refusal>,
) -> Result<ObjectNumber, Refusal>
    ensures { MatchOption refusal (result ≡ Ok object) (λ cause. result ≡ Err cause) }
{
    match refusal {
        Some(refusal) => Err(refusal),
        None => Ok(object),
    }
}

/// Whether no object has this number.
pub(crate) fn is_unknown(objects: &[Object], number: ObjectNumber) -> bool
    ensures { result ≡ is_unknown objects.now number }
{
    named(objects, number).is_none()
}

/// The refusal of a release of the mutex of this number.
pub(crate) fn unlock_refusal(
    objects: &[Object],
    thread: ThreadId,
    mutex: ObjectNumber,
) -> Option<Refusal>
    ensures { result ≡ first_of_causes (unlock_causes objects.now thread mutex) }
{
    match named(objects, mutex) {
        Some(object) if object.is_mutex() => {
            if object.is_owned_by(thread) {
                None
            } else {
                Some(Refusal::NotOwner)
            }
        }
        _ => Some(Refusal::InvalidHandle),
    }
}

/// The refusal of a release of the semaphore of this number.
pub(crate) fn release_refusal(
    objects: &[Object],
    denied: bool,
    semaphore: ObjectNumber,
    count: i32,
) -> Option<Refusal>
    ensures { result ≡ first_of_causes (release_causes objects.now denied semaphore count) }
{
    match named(objects, semaphore) {
        Some(object) if object.is_semaphore() => {
            if denied {
                Some(Refusal::AccessDenied)
            } else if count <= 0 {
                Some(Refusal::InvalidParameter)
            } else if object.overflows(count) {
                Some(Refusal::TooManyPosts)
            } else {
                None
            }
        }
        _ => Some(Refusal::InvalidHandle),
    }
}

/// The refusal of a call on an object, which may be of another kind than the call wants, by a handle that may lack the right for it.
pub(crate) fn kind_refusal(is_other: bool, denied: bool) -> Option<Refusal>
    ensures { result ≡ first_of_causes ((is_other, InvalidHandle) ∷ (denied, AccessDenied) ∷ []) }
{
    if is_other {
        Some(Refusal::InvalidHandle)
    } else if denied {
        Some(Refusal::AccessDenied)
    } else {
        None
    }
}

/// Whether no event has this number.
pub(crate) fn is_no_event(objects: &[Object], number: ObjectNumber) -> bool
    ensures { result ≡ is_no is_event objects.now number }
{
    match named(objects, number) {
        Some(object) => !object.is_event(),
        None => true,
    }
}

/// Whether no timer has this number.
pub(crate) fn is_no_timer(objects: &[Object], number: ObjectNumber) -> bool
    ensures { result ≡ is_no is_timer objects.now number }
{
    match named(objects, number) {
        Some(object) => !object.is_timer(),
        None => true,
    }
}

/// The refusal of setting the timer of this number.
pub(crate) fn arm_refusal(
    objects: &[Object],
    denied: bool,
    timer: ObjectNumber,
    period: i32,
) -> Option<Refusal>
    ensures { result ≡ first_of_causes (arm_causes objects.now denied timer period) }
{
    if is_no_timer(objects, timer) {
        Some(Refusal::InvalidHandle)
    } else if denied {
        Some(Refusal::AccessDenied)
    } else if period < 0 {
        Some(Refusal::InvalidParameter)
    } else {
        None
    }
}

/// The refusal of an APC for the thread whose object has this number.
pub(crate) fn apc_refusal(objects: &[Object], denied: bool, thread: ObjectNumber) -> Option<Refusal>
    ensures { result ≡ first_of_causes (apc_causes objects.now denied thread) }
{
    match named(objects, thread) {
        Some(object) if object.is_thread() => {
            if denied {
                Some(Refusal::AccessDenied)
            } else if object.has_ended() {
                Some(Refusal::ThreadGone)
            } else {
                None
            }
        }
        _ => Some(Refusal::InvalidHandle),
    }
}

/// The refusal of one handle more for this object, with these rights.
pub(crate) fn duplicate_refusal(
    handles: &HandleTable,
    objects: &[Object],
    denied: bool,
    object: ObjectNumber,
    access: u32,
) -> Option<Refusal>
    ensures { result ≡ first_of_causes (duplicate_causes handles.now.opened objects.now denied object access) }
{
    if is_unknown(objects, object) {
        Some(Refusal::InvalidHandle)
    } else if denied || Access::from_bits(access).is_none() {
        Some(Refusal::AccessDenied)
    } else if handles.len() >= MAX_HANDLES {
        Some(Refusal::HandleLimit)
    } else {
        None
    }
}

/// The refusal of closing this handle.
pub fn close_refusal(handles: &HandleTable, handle: Handle) -> Option<Refusal>
    ensures { result ≡ first_of_causes (close_causes handles.now.opened handle) }
{
    match handles.get(handle) {
        Some(_opened) => None,
        None => Some(Refusal::InvalidHandle),
    }
}
