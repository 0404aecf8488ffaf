//! Whether SignalObjectAndWait is refused, and by which cause.
ghost use Rattle.std.specs.Prelude.{◌≡◌, ◌||◌, ◌&&◌, not};
ghost use Rattle.nt_objects.specs.Object.{is_mutex};
ghost use Rattle.nt_calls.specs.State.{object_at};
ghost use Rattle.nt_calls.specs.Refusals.{first_of_causes, swap_causes};

use crate::handles::named;
use crate::refusals::is_unknown;
use crate::wait_refusal::is_at_limit;
use nt_objects::Object;
use nt_status::{ObjectNumber, Refusal, ThreadId};

/// The refusal of a swap that signals one object and waits for the other, both as they are before it.
pub fn swap_refusal(
    objects: &[Object],
    thread: ThreadId,
    denied: bool,
    signal: ObjectNumber,
    object: ObjectNumber,
) -> Option<Refusal>
    ensures { result ≡ first_of_causes (swap_causes objects.now thread denied signal object) }
{
    let signaled = match named(objects, signal) {
        Some(signaled) => *signaled,
        None => return Some(Refusal::InvalidHandle),
    };
    let is_mutex = signaled.is_mutex();
    if !(signaled.is_event() || signaled.is_semaphore() || is_mutex) {
        Some(Refusal::InvalidHandle)
    } else if is_unknown(objects, object) {
        Some(Refusal::InvalidHandle)
    } else if denied {
        Some(Refusal::AccessDenied)
    } else if is_mutex && !signaled.is_owned_by(thread) {
        Some(Refusal::NotOwner)
    } else if signaled.overflows(1) {
        Some(Refusal::TooManyPosts)
    } else if is_at_limit(objects, thread, object) {
        Some(Refusal::RecursionLimit)
    } else {
        None
    }
}

/// Whether a right is lacking that a swap needs: to release a mutex needs none.
pub fn is_swap_denied(
    objects: &[Object],
    signaled: ObjectNumber,
    no_signal: bool,
    no_wait: bool,
) -> bool
    ensures { result ≡ (not (is_mutex (object_at objects.now signaled)) && no_signal || no_wait) }
{
    let is_mutex = match named(objects, signaled) {
        Some(object) => object.is_mutex(),
        None => false,
    };
    !is_mutex && no_signal || no_wait
}
