//! Whether nothing can end the waits there are.
ghost use Rattle.std.specs.Prelude.{◌≡◌, ◌<◌, ◌↔◌, true};
ghost use Rattle.nt_machine.specs.Dispatcher.{state};
ghost use Rattle.nt_look.specs.Hangs.{will_come, comes_in_time, fits_in_time, is_by, will_call, is_called_in_time, marked, unmarked, IsStuck};
ghost use Rattle.nt_look.specs.Deciding.{ends_by_time, IsHanging};
ghost use Rattle.std.specs.List.{list_all, list_any};
ghost use Rattle.nt_objects.specs.Object.{has_ended};
ghost use Rattle.nt_calls.specs.State.{object_at};

use nt_core::Core;
use nt_objects::Object;
use nt_status::{MAX_MOMENT, ObjectNumber, ThreadId};
use nt_waits::Wait;

/// Whether there is such a moment, and it comes: none beyond the greatest does.
pub(crate) fn will_come(moment: Option<u64>) -> bool
    ensures { result ≡ will_come moment }
{
    match moment {
        Some(moment) => moment <= MAX_MOMENT,
        None => false,
    }
}

/// Whether the object with this number is signaled for the thread, or is a timer that is armed and will be set.
fn comes_in_time(objects: &[Object], thread: ThreadId, number: ObjectNumber) -> bool
    ensures { result ≡ comes_in_time objects.now thread number }
{
    match objects.get(number.get() as usize) {
        Some(object) => object.signaled_for(thread) || will_come(object.due()),
        None => false,
    }
}

/// Whether each of these objects is signaled for the thread, or a timer that is armed and will be set.
fn all_come_in_time(objects: &[Object], thread: ThreadId, numbers: &[ObjectNumber]) -> bool
    ensures { result ≡ list_all (comes_in_time objects.now thread) numbers.now }
{
    numbers
        .iter()
        .all(|number| comes_in_time(objects, thread, *number))
}

/// Whether one of them is.
fn one_comes_in_time(objects: &[Object], thread: ThreadId, numbers: &[ObjectNumber]) -> bool
    ensures { result ≡ list_any (comes_in_time objects.now thread) numbers.now }
{
    numbers
        .iter()
        .any(|number| comes_in_time(objects, thread, *number))
}

/// Whether the objects satisfy the wait, as they are or once armed timers have expired.
fn fits_in_time(objects: &[Object], thread: ThreadId, wait: &Wait) -> bool
    ensures { result ≡ fits_in_time objects.now thread wait.now }
{
    let numbers = wait.objects.as_slice();
    if wait.all {
        !numbers.is_empty() && all_come_in_time(objects, thread, numbers)
    } else {
        one_comes_in_time(objects, thread, numbers)
    }
}

/// Whether this thread armed a timer, with a routine.
fn is_by(thread: ThreadId, setter: Option<ThreadId>) -> bool
    ensures { result ≡ is_by thread setter }
{
    match setter {
        Some(setter) => setter == thread,
        None => false,
    }
}

/// Whether the object is a timer that is armed and will be set, and its routine is this thread's.
fn will_call(thread: ThreadId, object: &Object) -> bool
    ensures { result ≡ will_call thread object.now }
{
    will_come(object.due()) && is_by(thread, object.setter())
}

/// Whether a timer will queue an APC to this thread.
pub(crate) fn is_called_in_time(objects: &[Object], thread: ThreadId) -> bool
    ensures { result ≡ is_called_in_time objects.now thread }
{
    objects.iter().any(|object| will_call(thread, object))
}

/// Whether its deadline, an armed timer or a timer's APC can end the wait of this thread.
fn ends_by_time(objects: &[Object], thread: ThreadId, wait: &Wait) -> bool
    ensures { result ≡ ends_by_time objects.now thread wait.now }
{
    will_come(wait.deadline)
        || fits_in_time(objects, thread, wait)
        || wait.alertable && is_called_in_time(objects, thread)
}

/// Whether the thread has a mark.
pub(crate) fn is_marked(marks: &[bool], thread: u32) -> bool
    ensures { result ≡ marked marks.now thread }
{
    match marks.get(thread as usize) {
        Some(mark) => *mark,
        None => false,
    }
}

/// Whether the thread has ended.
fn has_ended(objects: &[Object], thread: u32) -> bool
    ensures { result ≡ has_ended (object_at objects.now thread) }
{
    match objects.get(thread as usize) {
        Some(object) => object.has_ended(),
        None => false,
    }
}

/// Whether the thread has ended, makes no further call, or is in a wait that time alone does not end. No APC is queued for an
/// alertable wait: it would have ended.
fn is_hanging(core: &Core, over: &[bool], thread: u32) -> bool
    requires { thread < (state core.now).threads }
    ensures { (result ≡ true) ↔ IsHanging (unmarked over.now) (state core.now) thread }
{
    core.stands();
    match core.waits_for(thread) {
        Some(wait) => !ends_by_time(core.objects(), ThreadId::new(thread as u16), wait),
        None => is_marked(over, thread) || has_ended(core.objects(), thread),
    }
}

/// Whether every thread that may call waits, and time alone ends no wait. Then none ever goes on (`stuck_stays`). The marked threads
/// make no further call; no mark is needed for those that have ended.
pub fn is_stuck(core: &Core, over: &[bool]) -> bool
    ensures { (result ≡ true) ↔ IsStuck (unmarked over.now) (state core.now) }
{
    core.stands();
    for thread in 0..core.threads() {
        if !is_hanging(core, over, thread) {
            return false;
        }
    }
    true
}
