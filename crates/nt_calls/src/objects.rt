//! What a call asks of the list of objects.
ghost use Rattle.std.specs.Prelude.{◌≡◌, ◌↔◌, Some, not, count_by, IsTrue};
ghost use Rattle.nt_objects.specs.Object.{is_gone, setter_of};
ghost use Rattle.nt_calls.specs.State.{object_at};

use nt_objects::Object;
use nt_status::{ObjectNumber, ThreadId};

/// Whether the thread armed the timer of this number with a routine.
pub fn is_set_by(objects: &[Object], thread: ThreadId, number: ObjectNumber) -> bool
    ensures { IsTrue result ↔ (setter_of (object_at objects.now number) ≡ Some thread) }
{
    match objects.get(number.get() as usize) {
        Some(object) => object.setter() == Some(thread),
        None => false,
    }
}

/// How many of the objects are not gone.
pub fn count_living(objects: &[Object]) -> usize
    ensures { result ≡ count_by (λ o. not (is_gone o)) objects.now }
{
    objects.iter().filter(|object| !object.is_gone()).count()
}
