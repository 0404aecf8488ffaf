//! How a wait is tried on the objects, and what it takes of them.
ghost use Rattle.std.specs.Prelude.{◌≡◌, ◌≤◌, ◌<◌, IsTrue, IfNone, IfSome, None, true, false, length, slice_index, nat_eq};
ghost use Rattle.std.specs.List.{position, list_all, list_any, IsDistinct};
ghost use Rattle.nt_objects.specs.declared.object.Object.{Object};
ghost use Rattle.nt_objects.specs.Object.{has_room, is_abandoned, TellsAbandoned};
ghost use Rattle.nt_calls.specs.State.{object_at};
ghost use Rattle.nt_calls.specs.Serving.{is_ready, is_abandoned_at, status_at, take_at, take_each, wait_on, CanTake, IsTried};

use nt_objects::{Object, Taken};
use nt_status::{MAX_WAIT_OBJECTS, ObjectNumber, Status, ThreadId};
use nt_tables::ObjectTable;

/// Whether the object of this number is signaled for the thread. A number that no object has is not.
pub fn is_ready(objects: &[Object], thread: ThreadId, number: ObjectNumber) -> bool
    ensures { result ≡ is_ready objects.now thread number }
{
    match objects.get(number.get() as usize) {
        Some(object) => object.signaled_for(thread),
        None => false,
    }
}

/// Whether the object of this number is an abandoned mutex.
fn is_abandoned(objects: &[Object], number: ObjectNumber) -> bool
    ensures { result ≡ is_abandoned_at objects.now number }
{
    match objects.get(number.get() as usize) {
        Some(object) => object.is_abandoned(),
        None => false,
    }
}

/// The least place among these numbers whose object is signaled for the thread.
fn ready_place(objects: &[Object], thread: ThreadId, numbers: &[ObjectNumber]) -> Option<usize>
    ensures { result ≡ position (is_ready objects.now thread) numbers.now }
{
    numbers
        .iter()
        .position(|number| is_ready(objects, thread, *number))
}

/// Whether the objects of all these numbers are signaled for the thread.
fn are_ready(objects: &[Object], thread: ThreadId, numbers: &[ObjectNumber]) -> bool
    ensures { result ≡ list_all (is_ready objects.now thread) numbers.now }
{
    numbers
        .iter()
        .all(|number| is_ready(objects, thread, *number))
}

/// Whether one of the objects is an abandoned mutex.
fn is_any_abandoned(objects: &[Object], numbers: &[ObjectNumber]) -> bool
    ensures { result ≡ list_any (is_abandoned_at objects.now) numbers.now }
{
    numbers.iter().any(|number| is_abandoned(objects, *number))
}

/// How a wait ends that took the object at this place of it.
fn status_of(taken: Taken, place: u32) -> Status
    requires { place ≤ 63 }
    ensures { (object : Object) → TellsAbandoned taken object → result ≡ status_at (is_abandoned object) place }
{
    match taken {
        Taken::Plain => Status::object(place),
        Taken::Abandoned => Status::abandoned(place),
    }
}

/// The thread takes the object of this number, which stands at this place of its wait. Answers how the wait ends.
#[inline(always)]
fn take_at(objects: &mut ObjectTable, thread: ThreadId, number: ObjectNumber, place: u32) -> Status
    requires few { place ≤ 63 }
    requires ready { IsTrue (is_ready objects.old.items thread number) }
    requires room { IsTrue (has_room (object_at objects.old.items number)) }
    requires known { thread < length objects.old.owned }
    ensures items { objects.new.items ≡ take_at objects.old.items thread number }
    ensures status { result ≡ status_at (is_abandoned_at objects.old.items number) place }
    ensures threads { length objects.new.owned ≡ length objects.old.owned }
{
    status_of(objects.take(number, thread), place)
}

/// The thread takes the objects of these numbers.
fn take_each(objects: &mut ObjectTable, thread: ThreadId, numbers: &[ObjectNumber])
    requires ready { list_all (is_ready objects.old.items thread) numbers.now ≡ true }
    requires apart { IsDistinct nat_eq numbers.now }
    requires room { CanTake objects.old.items thread numbers.now }
    requires known { thread < length objects.old.owned }
    ensures items { objects.new.items ≡ take_each objects.old.items thread numbers.now }
    ensures threads { length objects.new.owned ≡ length objects.old.owned }
{
    for number in numbers {
        let _status = take_at(objects, thread, *number, 0);
    }
}

/// Where the objects satisfy a wait for any of these objects, takes the one at the least place, and answers the status.
#[inline(never)]
fn try_any(objects: &mut ObjectTable, thread: ThreadId, numbers: &[ObjectNumber]) -> Option<Status>
    requires few { length numbers.now ≤ MAX_WAIT_OBJECTS }
    requires room { CanTake objects.old.items thread numbers.now }
    requires known { thread < length objects.old.owned }
    ensures tried { IsTried objects.old.items objects.new.items thread (wait_on numbers.now false) result }
    ensures none { IfNone result (objects.new ≡ objects.old) }
    ensures threads { length objects.new.owned ≡ length objects.old.owned }
{
    let place = ready_place(objects.as_slice(), thread, numbers)?;
    let number = numbers[place];
    Some(take_at(objects, thread, number, place as u32))
}

/// Where the objects satisfy a wait for all these objects, takes them, and answers the status.
#[inline(never)]
fn try_all(objects: &mut ObjectTable, thread: ThreadId, numbers: &[ObjectNumber]) -> Option<Status>
    requires apart { IsDistinct nat_eq numbers.now }
    requires room { CanTake objects.old.items thread numbers.now }
    requires known { thread < length objects.old.owned }
    ensures tried { IsTried objects.old.items objects.new.items thread (wait_on numbers.now true) result }
    ensures none { IfNone result (objects.new ≡ objects.old) }
    ensures threads { length objects.new.owned ≡ length objects.old.owned }
{
    if numbers.is_empty() || !are_ready(objects.as_slice(), thread, numbers) {
        return None;
    }
    let marked = is_any_abandoned(objects.as_slice(), numbers);
    take_each(objects, thread, numbers);
    Some(if marked {
        Status::abandoned(0)
    } else {
        Status::object(0)
    })
}

/// Where the objects satisfy a wait for any or all of these objects, takes what it takes of them, and answers its status.
#[inline(always)]
pub fn try_wait(
    objects: &mut ObjectTable,
    thread: ThreadId,
    numbers: &[ObjectNumber],
    all: bool,
) -> Option<Status>
    requires few { length numbers.now ≤ MAX_WAIT_OBJECTS }
    requires apart { IsDistinct nat_eq numbers.now }
    requires room { CanTake objects.old.items thread numbers.now }
    requires known { thread < length objects.old.owned }
    ensures tried { IsTried objects.old.items objects.new.items thread (wait_on numbers.now all) result }
    ensures none { IfNone result (objects.new ≡ objects.old) }
    ensures threads { length objects.new.owned ≡ length objects.old.owned }
{
    match numbers {
        [number] => Some(status_of(objects.try_take(*number, thread)?, 0)),
        _ if all => try_all(objects, thread, numbers),
        _ => try_any(objects, thread, numbers),
    }
}

/// A place among these numbers, from this one on, whose object is not signaled for the thread.
fn unready_from(
    objects: &[Object],
    thread: ThreadId,
    numbers: &[ObjectNumber],
    from: usize,
) -> Option<usize>
    ensures { IfSome result (λ place. (place < length numbers.now)
        × (is_ready objects.now thread (slice_index numbers.now place) ≡ false)) }
{
    let mut place = from;
    while place < numbers.len() {
        if !is_ready(objects, thread, numbers[place]) {
            return Some(place);
        }
        place += 1;
    }
    None
}

/// The same as `try_wait`. A wait for all is tried first at the place where the thread's last one was seen to fail: any place will do.
pub fn try_again(
    objects: &mut ObjectTable,
    failed: &mut Vec<u8>,
    thread: ThreadId,
    numbers: &[ObjectNumber],
    all: bool,
) -> Option<Status>
    requires few { length numbers.now ≤ MAX_WAIT_OBJECTS }
    requires apart { IsDistinct nat_eq numbers.now }
    requires room { CanTake objects.old.items thread numbers.now }
    requires known { thread < length objects.old.owned }
    ensures tried { IsTried objects.old.items objects.new.items thread (wait_on numbers.now all) result }
    ensures none { IfNone result (objects.new ≡ objects.old) }
    ensures threads { length objects.new.owned ≡ length objects.old.owned }
{
    if all {
        if let Some(from) = failed.get_mut(thread.get() as usize) {
            if let Some(place) = unready_from(objects.as_slice(), thread, numbers, *from as usize) {
                *from = place as u8;
                return None;
            }
            *from = 0;
        }
    }
    try_wait(objects, thread, numbers, all)
}
