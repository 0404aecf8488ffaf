//! The end of a wait, over the queues and the places of the threads.
ghost use Rattle.std.specs.Prelude.{◌≡◌, ◌∷◌, [], IsSome, Some, ◌==◌, Contains};
ghost use Rattle.std.specs.Option.{option_map, option_copied, ForSome};
ghost use Rattle.nt_waits.specs.Queues.{list_at};
ghost use Rattle.std.specs.List.{position};
ghost use Rattle.nt_waits.specs.Table.{threads, slot_at, IsTable};
ghost use Rattle.nt_waits.specs.Ended.{IsEnded};
ghost use Rattle.nt_waits.specs.Waits.{IsTouched, next_after, only_of};

use crate::pending::Pending;
use crate::queues::Queues;
use crate::slot::Slot;
use crate::wait::Wait;
use nt_status::{ObjectNumber, ThreadId};

/// Ends the thread's wait where it lies: its blocks leave their queues, and its place is empty.
pub fn end_wait(queues: &mut Queues, waits: &mut Vec<Slot>, t: ThreadId)
    requires table { IsTable queues.old waits.old.items }
    requires there { IsSome (slot_at waits.old.items t) }
    ensures ended { IsEnded queues.old waits.old.items queues.new waits.new.items t }
    ensures touched { ForSome (slot_at waits.old.items t) (λ p. IsTouched p.wait queues.new.touched) }
{
    queues.touch_anew();
    waits[t.get() as usize].empty(queues);
}

/// Ends the thread's wait, which is for this object alone, as `end_wait` does. Answers the thread whose
/// wait on the object began next.
pub fn end_one_wait(
    queues: &mut Queues,
    waits: &mut Vec<Slot>,
    t: ThreadId,
    object: ObjectNumber,
) -> Option<ThreadId>
    requires table { IsTable queues.old waits.old.items }
    requires there { IsSome (slot_at waits.old.items t) }
    requires one { ForSome (slot_at waits.old.items t) (λ p. p.wait.objects ≡ object ∷ []) }
    ensures ended { IsEnded queues.old waits.old.items queues.new waits.new.items t }
    ensures touched { ForSome (slot_at waits.old.items t) (λ p. IsTouched p.wait queues.new.touched) }
    ensures next { result ≡ next_after t (threads (list_at queues.old object)) }
{
    queues.touch_anew();
    waits[t.get() as usize].empty_one(queues, object)
}

/// Ends the thread's wait as `end_wait` does, and hands it back.
pub fn take_wait(queues: &mut Queues, waits: &mut Vec<Slot>, t: ThreadId) -> Wait
    requires table { IsTable queues.old waits.old.items }
    requires there { IsSome (slot_at waits.old.items t) }
    ensures wait { option_map (λ p. p.wait) (slot_at waits.old.items t) ≡ Some result }
    ensures ended { IsEnded queues.old waits.old.items queues.new waits.new.items t }
    ensures touched { ForSome (slot_at waits.old.items t) (λ p. IsTouched p.wait queues.new.touched) }
{
    queues.touch_anew();
    waits[t.get() as usize].take(queues)
}

/// The wait of the thread, if it has one.
pub fn wait_in(waits: &[Slot], t: ThreadId) -> Option<&Wait>
    ensures { option_copied result ≡ option_map (λ p. p.wait) (slot_at waits.now t) }
{
    let pending = pending_in(waits, t)?;
    Some(&pending.wait)
}

/// The object of the thread's wait, where it names one alone, and whether the wait is for all.
pub fn only_in(waits: &[Slot], t: ThreadId) -> Option<(ObjectNumber, bool)>
    requires { IsSome (slot_at waits.now t) }
    ensures { Some result ≡ option_map (λ p. only_of p.wait) (slot_at waits.now t) }
{
    let pending = waits[t.get() as usize].filled();
    match pending.wait.objects.as_slice() {
        [object] => Some((*object, pending.wait.all)),
        _ => None,
    }
}

/// The thread's wait with its blocks, if it has one.
fn pending_in(waits: &[Slot], t: ThreadId) -> Option<&Pending>
    ensures { option_copied result ≡ slot_at waits.now t }
{
    waits.get(t.get() as usize)?.get()
}

/// The place of this object among the objects of a wait.
fn place_of(objects: &[ObjectNumber], object: ObjectNumber) -> Option<usize>
    ensures { result ≡ position (λ named. named == object) objects.now }
{
    objects.iter().position(|named| *named == object)
}

/// The thread after this one in the queue of the object.
pub fn next_in(
    queues: &Queues,
    waits: &[Slot],
    object: ObjectNumber,
    t: ThreadId,
) -> Option<ThreadId>
    requires table { IsTable queues.now waits.now }
    requires there { Contains (threads (list_at queues.now object)) t }
    ensures { result ≡ next_after t (threads (list_at queues.now object)) }
{
    let Some(pending) = pending_in(waits, t) else {
        unreachable!()
    };
    let Some(place) = place_of(pending.wait.objects.as_slice(), object) else {
        unreachable!()
    };
    let numbers = pending.numbers.as_slice();
    queues.next(object, numbers[place])
}
