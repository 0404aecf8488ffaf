//! Which threads hold each other.
ghost use Rattle.std.specs.Prelude.{◌≡◌, ◌<◌, ◌↔◌, true, not, length, MatchOption, IfOk};
ghost use Rattle.std.specs.List.{list_all, list_any};
ghost use Rattle.nt_machine.specs.Dispatcher.{state};
ghost use Rattle.nt_status.specs.Access.{modify_state};
ghost use Rattle.nt_look.specs.Hangs.{holds, held_at, is_given, is_held, marked, unmarked, IsTied, IsKnot, IsGreatestKnot};
ghost use Rattle.nt_look.specs.Deciding.{is_bound, is_in_reach, IsUntied};

use crate::rights::is_given;
use crate::stuck::{is_called_in_time, is_marked, will_come};
use nt_core::Core;
use nt_objects::Object;
use nt_status::{Access, ObjectNumber, ThreadId};
use nt_waits::Wait;
use std::alloc::{AllocError, Global};

/// Whether no handle has the right to signal the object.
fn is_free(core: &Core, number: ObjectNumber) -> bool
    ensures { result ≡ not (is_given (state core.now) modify_state number) }
{
    !is_given(core, Access::MODIFY_STATE, number)
}

/// Whether only a thread of the knot can have the object signaled for this thread, or nothing can.
fn holds(
    core: &Core,
    knot: &[bool],
    thread: ThreadId,
    number: ObjectNumber,
    object: &Object,
) -> bool
    ensures { result ≡ holds (marked knot.now) (not (is_given (state core.now) modify_state number))
        thread number object.now }
{
    match object {
        Object::Mutex {
            owner: Some(owner),
            depth: _,
            abandoned: _,
        } => is_marked(knot, u32::from(owner.get())) && *owner != thread,
        Object::Thread { ended } => is_marked(knot, number.get()) && !*ended,
        Object::Event { manual: _, set } => !*set && is_free(core, number),
        Object::Semaphore { count, maximum: _ } => *count <= 0 && is_free(core, number),
        Object::Timer {
            manual: _,
            set,
            armed: _,
        } => !(will_come(object.due()) || *set) && is_free(core, number),
        Object::Gone => true,
        _ => false,
    }
}

/// Whether `holds` is so of the object with this number. An object that there is not counts as a thread that runs.
fn held_at(core: &Core, knot: &[bool], thread: ThreadId, number: ObjectNumber) -> bool
    ensures { result ≡ held_at (state core.now) (marked knot.now) thread number }
{
    match core.objects().get(number.get() as usize) {
        Some(object) => holds(core, knot, thread, number, object),
        None => is_marked(knot, number.get()),
    }
}

/// Whether the knot holds one of these objects.
fn holds_one(core: &Core, knot: &[bool], thread: ThreadId, numbers: &[ObjectNumber]) -> bool
    ensures { result ≡ list_any (held_at (state core.now) (marked knot.now) thread) numbers.now }
{
    numbers
        .iter()
        .any(|number| held_at(core, knot, thread, *number))
}

/// Whether it holds each of them.
fn holds_all(core: &Core, knot: &[bool], thread: ThreadId, numbers: &[ObjectNumber]) -> bool
    ensures { result ≡ list_all (held_at (state core.now) (marked knot.now) thread) numbers.now }
{
    numbers
        .iter()
        .all(|number| held_at(core, knot, thread, *number))
}

/// Whether the knot holds what the wait needs.
fn is_held(core: &Core, knot: &[bool], thread: ThreadId, wait: &Wait) -> bool
    ensures { result ≡ is_held (state core.now) (marked knot.now) thread wait.now }
{
    let numbers = wait.objects.as_slice();
    if wait.all {
        holds_one(core, knot, thread, numbers)
    } else {
        holds_all(core, knot, thread, numbers)
    }
}

/// Whether a timer will queue an APC to the thread, or a handle has the right to.
fn is_in_reach(core: &Core, thread: ThreadId) -> bool
    ensures { result ≡ is_in_reach (state core.now) thread }
{
    is_called_in_time(core.objects(), thread)
        || is_given(
            core,
            Access::SET_CONTEXT,
            ObjectNumber::new(u32::from(thread.get())),
        )
}

/// Whether no deadline of this wait of the thread comes, no APC can end it, and the knot holds what it needs. For an alertable wait that
/// pends no APC is queued: it would have ended.
fn is_bound(core: &Core, knot: &[bool], thread: ThreadId, wait: &Wait) -> bool
    ensures { result ≡ is_bound (state core.now) (marked knot.now) thread wait.now }
{
    !will_come(wait.deadline)
        && !(wait.alertable && is_in_reach(core, thread))
        && is_held(core, knot, thread, wait)
}

/// Whether the thread waits for what the knot holds, and neither a deadline nor an APC can end that.
fn is_tied(core: &Core, knot: &[bool], thread: u32) -> bool
    requires { thread < (state core.now).threads }
    ensures { (result ≡ true) ↔ IsTied (marked knot.now) (state core.now) thread }
{
    core.stands();
    match core.waits_for(thread) {
        Some(wait) => is_bound(core, knot, ThreadId::new(thread as u16), wait),
        None => false,
    }
}

/// The first marked thread that may call and is not tied, if any.
fn first_untied(core: &Core, over: &[bool], knot: &[bool]) -> Option<u32>
    requires { length knot.now ≡ (state core.now).threads }
    ensures { MatchOption result (IsKnot (unmarked over.now) (marked knot.now) (state core.now))
        (IsUntied over.now knot.now (state core.now)) }
{
    for thread in 0..core.threads() {
        if is_marked(knot, thread) && !is_marked(over, thread) && !is_tied(core, knot, thread) {
            return Some(thread);
        }
    }
    None
}

/// The threads of the greatest knot, by their numbers: each waits for what only others of them could release, or nothing, and neither a
/// deadline nor an APC can end that. None of them ever goes on (`knots_hold`). The marked threads make no further call, and belong to it.
pub fn greatest_knot(alloc: Global, core: &Core, over: &[bool]) -> Result<Vec<bool>, AllocError>
    ensures count { IfOk result (λ knot. length knot.items ≡ (state core.now).threads) }
    ensures knot { IfOk result (λ knot. IsGreatestKnot (unmarked over.now) (state core.now) knot.items) }
{
    let mut knot = Vec::from_elem(alloc, true, core.threads() as usize)?;
    while let Some(thread) = first_untied(core, over, &knot) {
        knot[thread as usize] = false;
    }
    Ok(knot)
}
