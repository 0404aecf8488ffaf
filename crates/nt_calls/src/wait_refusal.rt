//! Whether a wait for objects is refused, and by which cause.
ghost use Rattle.std.specs.Prelude.{ℕ, ◌≡◌, ◌==◌, ◌≤◌, ◌&&◌, ◌||◌, not, [], ◌∷◌, true, false};
ghost use Rattle.std.specs.List.{list_any};
ghost use Rattle.nt_objects.specs.Object.{has_room, owned_by};
ghost use Rattle.nt_calls.specs.Refusals.{first_of_causes, objects_causes, is_unknown, has_twice, is_at_limit};

use crate::handles::named;
use crate::refusals::is_unknown;
use nt_objects::Object;
use nt_status::{MAX_WAIT_OBJECTS, ObjectNumber, Refusal, ThreadId};

/// Whether no object has one of these numbers.
fn has_unknown(objects: &[Object], numbers: &[ObjectNumber]) -> bool
    ensures { result ≡ list_any (is_unknown objects.now) numbers.now }
{
    numbers.iter().any(|number| is_unknown(objects, *number))
}

/// Whether it is a mutex which the thread holds at the greatest depth.
fn is_held_to_limit(object: &Object, thread: ThreadId) -> bool
    ensures { result ≡ (owned_by object.now thread && not (has_room object.now)) }
{
    object.is_owned_by(thread) && !object.has_room()
}

/// Whether the object of this number is a mutex which the thread holds at the greatest depth.
pub fn is_at_limit(objects: &[Object], thread: ThreadId, number: ObjectNumber) -> bool
    ensures { result ≡ is_at_limit objects.now thread number }
{
    match named(objects, number) {
        Some(object) => is_held_to_limit(object, thread),
        None => false,
    }
}

/// Whether one of these objects is a mutex which the thread holds at the greatest depth.
fn has_limit(objects: &[Object], thread: ThreadId, numbers: &[ObjectNumber]) -> bool
    ensures { result ≡ list_any (is_at_limit objects.now thread) numbers.now }
{
    numbers
        .iter()
        .any(|number| is_at_limit(objects, thread, *number))
}

/// Whether a number stands twice.
fn has_twice(numbers: &[ObjectNumber]) -> bool
    ensures { result ≡ has_twice numbers.now }
{
    match numbers {
        [] => false,
        [first, rest @ ..] => rest.contains(first) || has_twice(rest),
    }
}

/// Whether a wait of the thread can't name this number: no object has it, or a mutex which the thread holds at the greatest depth.
fn is_barred(objects: &[Object], thread: ThreadId, number: ObjectNumber) -> bool
    ensures { result ≡ (is_unknown objects.now number || is_at_limit objects.now thread number) }
{
    match named(objects, number) {
        Some(object) => is_held_to_limit(object, thread),
        None => true,
    }
}

/// Whether the numbers rise, the first from above this one, and the thread's wait can name each: then none of them stands twice.
fn rises_free_from(
    objects: &[Object],
    thread: ThreadId,
    below: ObjectNumber,
    numbers: &[ObjectNumber],
) -> bool
    ensures above { result ≡ true → (x : ℕ) → x ≤ below → list_any (λ other. other == x) numbers.now ≡ false }
    ensures apart { result ≡ true → has_twice numbers.now ≡ false }
    ensures known { result ≡ true → list_any (is_unknown objects.now) numbers.now ≡ false }
    ensures limit { result ≡ true → list_any (is_at_limit objects.now thread) numbers.now ≡ false }
{
    match numbers {
        [] => true,
        [first, rest @ ..] => {
            below < *first
                && !is_barred(objects, thread, *first)
                && rises_free_from(objects, thread, *first, rest)
        }
    }
}

/// Whether one look at each number tells that the thread's wait can name all of them.
fn is_plain(objects: &[Object], thread: ThreadId, numbers: &[ObjectNumber]) -> bool
    ensures apart { result ≡ true → has_twice numbers.now ≡ false }
    ensures known { result ≡ true → list_any (is_unknown objects.now) numbers.now ≡ false }
    ensures limit { result ≡ true → list_any (is_at_limit objects.now thread) numbers.now ≡ false }
{
    match numbers {
        [] => true,
        [first, rest @ ..] => {
            !is_barred(objects, thread, *first) && rises_free_from(objects, thread, *first, rest)
        }
    }
}

/// The refusal of a wait for the object with this number alone.
fn object_refusal(
    objects: &[Object],
    thread: ThreadId,
    denied: bool,
    object: ObjectNumber,
) -> Option<Refusal>
    ensures { result ≡ first_of_causes (objects_causes objects.now thread denied (object ∷ [])) }
{
    let Some(there) = named(objects, object) else {
        return Some(Refusal::InvalidHandle);
    };
    if denied {
        Some(Refusal::AccessDenied)
    } else if is_held_to_limit(there, thread) {
        Some(Refusal::RecursionLimit)
    } else {
        None
    }
}

/// The refusal of a wait for the objects with these numbers, none or several.
fn list_refusal(
    objects: &[Object],
    thread: ThreadId,
    denied: bool,
    numbers: &[ObjectNumber],
) -> Option<Refusal>
    ensures { result ≡ first_of_causes (objects_causes objects.now thread denied numbers.now) }
{
    if numbers.is_empty() || numbers.len() > MAX_WAIT_OBJECTS {
        Some(Refusal::InvalidParameter)
    } else if !denied && is_plain(objects, thread, numbers) {
        None
    } else if has_unknown(objects, numbers) {
        Some(Refusal::InvalidHandle)
    } else if denied {
        Some(Refusal::AccessDenied)
    } else if has_twice(numbers) {
        Some(Refusal::InvalidParameter)
    } else if has_limit(objects, thread, numbers) {
        Some(Refusal::RecursionLimit)
    } else {
        None
    }
}

/// The refusal of a wait for the objects with these numbers by its own causes. Most waits name one.
#[inline(always)]
pub fn objects_refusal(
    objects: &[Object],
    thread: ThreadId,
    denied: bool,
    numbers: &[ObjectNumber],
) -> Option<Refusal>
    ensures { result ≡ first_of_causes (objects_causes objects.now thread denied numbers.now) }
{
    match numbers {
        [object] => object_refusal(objects, thread, denied, *object),
        _ => list_refusal(objects, thread, denied, numbers),
    }
}
