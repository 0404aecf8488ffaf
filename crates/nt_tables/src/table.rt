//! The objects by number, with the lists of those that are owned.
ghost use Rattle.std.specs.Prelude.{◌≡◌, ◌<◌, ◌≤◌, ◌⊎◌, ◌+◌, ◌↔◌, ◌++◌, ◌∷◌, ◌^◌, ℕ, [], true, false, None, Some, length, map, replicate, slice_set, vec_len, vec_capacity, not, IsTrue, IsOk, IfOk, IfErr, IfSome, IfNone, OnOk, OnErr, is_some, Contains, nat_eq};
ghost use Rattle.std.specs.Option.{ForSome, OnSome};
ghost use Rattle.nt_objects.specs.declared.object.Object.TheVariants.{Thread};
ghost use Rattle.std.specs.List.{IsDistinct};
ghost use Rattle.std.specs.Result.{result_err};
ghost use Rattle.nt_objects.specs.Object.{is_event, is_semaphore, is_mutex, count_of, mutex_owner, owned_by, abandoned_by};
ghost use Rattle.nt_objects.specs.Object.{signaled, taken, has_room, TellsAbandoned};
ghost use Rattle.nt_objects.specs.Object.{with_set, released, release_refusal, unlocked, TellsOwner};
ghost use Rattle.nt_marks.specs.Marks.{AddsMarks};
ghost use Rattle.nt_tables.specs.Owned.{list_of, IsUnowned};
ghost use Rattle.nt_tables.specs.Objects.{object_at, OwnersAgree, IsPassed};

use crate::owners::Owners;
use nt_marks::Marks;
use nt_objects::{Armed, Object, Released, Routine, Taken};
use nt_status::{ObjectNumber, Refusal, ThreadId};
use std::alloc::{AllocError, Global};
use std::marker::Model;

/// The objects of `count` threads that run.
fn running_threads(alloc: Global, count: usize) -> Result<Vec<Object>, AllocError>
    ensures { IfOk result (λ objects. objects.items ≡ replicate count (Thread false)) }
{
    // The kit's check makes the proof of a new vector only where each type inside its items is named in the function.
    let _inside: (Option<ThreadId>, Option<Armed>, Option<Routine>) = (None, None, None);
    vec![in alloc; Object::new_thread(); count]
}

/// The same objects.
fn copy_objects(alloc: Global, objects: &[Object]) -> Result<Vec<Object>, AllocError>
    ensures { IfOk result (λ copied. copied.items ≡ objects.now) }
{
    // As above.
    let _inside: (Option<ThreadId>, Option<Armed>, Option<Routine>) = (None, None, None);
    Vec::from_slice(alloc, objects)
}

/// Adds an object, last.
fn add_object(objects: &mut Vec<Object>, object: Object)
    requires { vec_len objects.old < vec_capacity objects.old }
    ensures { objects.new.items ≡ objects.old.items ++ object ∷ [] }
{
    // As above.
    let _inside: (Option<ThreadId>, Option<Armed>, Option<Routine>) = (None, None, None);
    objects.push_reserved(object);
}

/// The mutex is in no list from now on.
fn leave_list(owners: &mut Owners, mutex: ObjectNumber, from: Option<ThreadId>)
    requires from { (t : ℕ) → Contains (list_of owners.old.lists t) mutex ↔ (from ≡ Some t) }
    requires once { (t : ℕ) → IsDistinct nat_eq (list_of owners.old.lists t) }
    ensures passed { IsPassed owners.old.lists owners.new.lists mutex None }
    ensures room { owners.new.room ≡ owners.old.room }
    ensures threads { length owners.new.lists ≡ length owners.old.lists }
{
    if let Some(thread) = from {
        owners.remove(thread, mutex);
    }
}

/// The mutex, which was in no list, is in that of its owner from now on.
fn join_list(owners: &mut Owners, mutex: ObjectNumber, to: Option<ThreadId>)
    requires room { mutex < owners.old.room }
    requires unowned { IsUnowned owners.old.lists mutex }
    requires to { ForSome to (λ t. t < length owners.old.lists) }
    requires once { (t : ℕ) → IsDistinct nat_eq (list_of owners.old.lists t) }
    ensures passed { IsPassed owners.old.lists owners.new.lists mutex to }
    ensures room { owners.new.room ≡ owners.old.room }
    ensures threads { length owners.new.lists ≡ length owners.old.lists }
{
    if let Some(thread) = to {
        owners.add(thread, mutex);
    }
}

/// Moves the mutex from the list of its owner before to that of its new owner.
fn pass(owners: &mut Owners, mutex: ObjectNumber, from: Option<ThreadId>, to: Option<ThreadId>)
    requires room { mutex < owners.old.room }
    requires from { (t : ℕ) → Contains (list_of owners.old.lists t) mutex ↔ (from ≡ Some t) }
    requires to { ForSome to (λ t. t < length owners.old.lists) }
    requires once { (t : ℕ) → IsDistinct nat_eq (list_of owners.old.lists t) }
    ensures passed { IsPassed owners.old.lists owners.new.lists mutex to }
    ensures kept { from ≡ to → owners.new ≡ owners.old }
    ensures room { owners.new.room ≡ owners.old.room }
    ensures threads { length owners.new.lists ≡ length owners.old.lists }
{
    if from == to {
        return;
    }
    leave_list(owners, mutex, from);
    join_list(owners, mutex, to);
}

/// Where the thread owns a mutex, the one that came last is free from now on, and marked.
fn abandon_first(
    objects: &mut [Object],
    owners: &mut Owners,
    thread: ThreadId,
) -> Option<ObjectNumber>
    requires agree { OwnersAgree objects.old owners.old.lists }
    ensures agree { OwnersAgree objects.new owners.new.lists }
    ensures none { IfNone result ((objects.new ≡ objects.old) × (list_of owners.new.lists thread ≡ [])) }
    ensures owned { IfSome result (λ mutex. IsTrue (owned_by (object_at objects.old mutex) thread)) }
    ensures free { IfSome result (λ mutex.
        objects.new ≡ slice_set objects.old mutex (abandoned_by thread (object_at objects.old mutex))) }
    ensures fewer { IfSome result (λ mutex.
        length (list_of owners.new.lists thread) < length (list_of owners.old.lists thread)) }
    ensures room { owners.new.room ≡ owners.old.room }
    ensures threads { length owners.new.lists ≡ length owners.old.lists }
{
    let mutex = owners.pop(thread)?;
    objects[mutex.get() as usize].abandon();
    Some(mutex)
}

/// Each mutex that the thread owns is free from now on, and abandoned, and has a mark among these.
fn abandon_each(objects: &mut [Object], owners: &mut Owners, thread: ThreadId, changed: &mut Marks)
    requires agree { OwnersAgree objects.old owners.old.lists }
    requires places { length objects.old ≤ length changed.old }
    ensures agree { OwnersAgree objects.new owners.new.lists }
    ensures objects { objects.new ≡ map (abandoned_by thread) objects.old }
    ensures marked { AddsMarks (λ m. IsTrue (owned_by (object_at objects.old m) thread)) changed.old changed.new }
    ensures room { owners.new.room ≡ owners.old.room }
    ensures threads { length owners.new.lists ≡ length owners.old.lists }
{
    while let Some(mutex) = abandon_first(objects, owners, thread) {
        changed.set(mutex.get() as usize);
    }
}

/// The objects by number, and for each thread the mutexes that it owns.
///
/// Whatever is done to an object, each mutex stands in the list of the thread that owns it, and in no other.
#[derive(Drop)]
pub struct ObjectTable {
    objects: Vec<Object>,
    owners: Owners,
}

impl Model for ObjectTable {
    ghost use Rattle.std.specs.Prelude.{length, min, vec_capacity, ◌≤◌};
    ghost use Rattle.nt_tables.specs.Objects.{Objects, OwnersAgree};

    ghost Value = { Objects };

    ghost view = { λ o. record {
      items = o.objects.items;
      owned = o.owners.lists;
      room = min (vec_capacity o.objects) o.owners.room;
    } };

    ghost invariant = { λ o. OwnersAgree o.objects.items o.owners.lists × (length o.objects.items ≤ o.owners.room) };
}

impl ObjectTable {
    /// The objects of `threads` threads, which run and own nothing.
    pub fn new(alloc: Global, threads: usize) -> Result<Self, AllocError>
        ensures items { IfOk result (λ table. table.items ≡ replicate threads (Thread false)) }
        ensures threads { IfOk result (λ table. length table.owned ≡ threads) }
    {
        let mut owners = Owners::new(alloc, threads)?;
        owners.make_room(threads)?;
        Ok(ObjectTable {
            objects: running_threads(alloc, threads)?,
            owners,
        })
    }

    /// The objects by number.
    pub fn as_slice(&self) -> &[Object]
        ensures { result.now ≡ self.now.items }
    {
        self.objects.as_slice()
    }

    /// The lists agree with the objects; there is nothing to do for it.
    pub fn agree(&self)
        ensures { OwnersAgree self.now.items self.now.owned }
    {
        // The use of a field brings what the type keeps true of all its fields into the proof.
        let _ = &self.objects;
    }

    /// Makes room for one object more. Where memory is refused nothing is lost; room that there was stays in any case.
    pub fn make_room(&mut self) -> Result<(), AllocError>
        ensures room { OnOk result (length self.new.items < self.new.room) }
        ensures kept { self.old.room ≤ self.new.room }
        ensures items { self.new.items ≡ self.old.items }
        ensures owned { self.new.owned ≡ self.old.owned }
    {
        self.owners.make_room(self.objects.len() + 1)?;
        self.objects.reserve(1)?;
        Ok(())
    }

    /// Adds an object, last.
    pub fn add(&mut self, object: Object)
        requires room { length self.old.items < self.old.room }
        requires few { length self.old.items < 2 ^ 32 }
        requires owner { (t : ℕ) → owned_by object t ≡ true → t < length self.old.owned }
        ensures items { self.new.items ≡ self.old.items ++ object ∷ [] }
        ensures threads { length self.new.owned ≡ length self.old.owned }
    {
        let number = ObjectNumber::new(self.objects.len() as u32);
        pass(&mut self.owners, number, None, object.owner());
        add_object(&mut self.objects, object);
    }

    /// Puts an object in the place of the one at this number. Where both have the same owner, or none, the lists stay.
    pub fn put(&mut self, number: ObjectNumber, object: Object)
        requires known { number < length self.old.items }
        requires owner { (t : ℕ) → owned_by object t ≡ true
            → (owned_by (object_at self.old.items number) t ≡ true) ⊎ (t < length self.old.owned) }
        ensures items { self.new.items ≡ slice_set self.old.items number object }
        ensures threads { length self.new.owned ≡ length self.old.owned }
        ensures kept { mutex_owner object ≡ mutex_owner (object_at self.old.items number) → self.new.owned ≡ self.old.owned }
    {
        let place = number.get() as usize;
        let from = self.objects[place].owner();
        let to = object.owner();
        pass(&mut self.owners, number, from, to);
        self.objects[place] = object;
    }

    /// Sets the event at this number, and answers whether it was not set before.
    pub fn set(&mut self, event: ObjectNumber) -> bool
        requires known { event < length self.old.items }
        requires kind { IsTrue (is_event (object_at self.old.items event)) }
        ensures items { self.new.items
            ≡ slice_set self.old.items event (with_set true (object_at self.old.items event)) }
        ensures owned { self.new.owned ≡ self.old.owned }
        ensures answer { (t : ℕ) → result ≡ not (signaled (object_at self.old.items event) t) }
    {
        self.objects[event.get() as usize].set()
    }

    /// Makes the event at this number not set.
    pub fn reset(&mut self, event: ObjectNumber)
        requires known { event < length self.old.items }
        requires kind { IsTrue (is_event (object_at self.old.items event)) }
        ensures items { self.new.items
            ≡ slice_set self.old.items event (with_set false (object_at self.old.items event)) }
        ensures owned { self.new.owned ≡ self.old.owned }
    {
        self.objects[event.get() as usize].reset();
    }

    /// Releases the semaphore at this number by `count`, and answers its count before.
    ///
    /// Refused with 87 where `count` is not positive, then with 298 where the maximum would be passed; nothing changes then.
    pub fn release(&mut self, semaphore: ObjectNumber, count: i32) -> Result<i32, Refusal>
        requires known { semaphore < length self.old.items }
        requires kind { IsTrue (is_semaphore (object_at self.old.items semaphore)) }
        ensures refusal { result_err result ≡ release_refusal count (object_at self.old.items semaphore) }
        ensures previous { IfOk result (λ before. before ≡ count_of (object_at self.old.items semaphore)) }
        ensures items { OnOk result (self.new.items
            ≡ slice_set self.old.items semaphore (released count (object_at self.old.items semaphore))) }
        ensures owned { self.new.owned ≡ self.old.owned }
        ensures err { OnErr result (self.new ≡ self.old) }
    {
        self.objects[semaphore.get() as usize].release_semaphore(count)
    }

    /// Releases the mutex at this number once, and answers whether it is free now or its owner's still. After the last release that
    /// its owner owed it is in no list.
    ///
    /// Refused with 288 where this thread does not own it; nothing changes then.
    pub fn unlock(&mut self, mutex: ObjectNumber, thread: ThreadId) -> Result<Released, Refusal>
        requires known { mutex < length self.old.items }
        requires kind { IsTrue (is_mutex (object_at self.old.items mutex)) }
        ensures owner { IsOk result ↔ IsTrue (owned_by (object_at self.old.items mutex) thread) }
        ensures items { OnOk result (self.new.items
            ≡ slice_set self.old.items mutex (unlocked (object_at self.old.items mutex))) }
        ensures answer { IfOk result (λ told. TellsOwner told thread (unlocked (object_at self.old.items mutex))) }
        ensures threads { length self.new.owned ≡ length self.old.owned }
        ensures refused { IfErr result (λ refusal. refusal ≡ Refusal.NotOwner) }
        ensures err { OnErr result (self.new ≡ self.old) }
    {
        let released = self.objects[mutex.get() as usize].release_mutex(thread)?;
        if released == Released::Freed {
            self.owners.remove(thread, mutex);
        }
        Ok(released)
    }

    /// Where the object at this number is signaled for the thread, the thread takes it, and learns what that tells. A mutex that
    /// was free joins the thread's list. An object that there is not is signaled for none.
    #[inline(always)]
    pub fn try_take(&mut self, number: ObjectNumber, thread: ThreadId) -> Option<Taken>
        requires room { signaled (object_at self.old.items number) thread ≡ true
            → IsTrue (has_room (object_at self.old.items number)) }
        requires thread { thread < length self.old.owned }
        ensures signaled { is_some result ≡ signaled (object_at self.old.items number) thread }
        ensures items { OnSome result (self.new.items
            ≡ slice_set self.old.items number (taken (object_at self.old.items number) thread)) }
        ensures answer { IfSome result (λ told. TellsAbandoned told (object_at self.old.items number)) }
        ensures threads { length self.new.owned ≡ length self.old.owned }
        ensures none { IfNone result (self.new ≡ self.old) }
    {
        let object = self.objects.get_mut(number.get() as usize)?;
        let joins = object.is_mutex() && object.owner().is_none();
        let taken = object.try_take(thread)?;
        if joins {
            self.owners.add(thread, number);
        }
        Some(taken)
    }

    /// The thread takes the object at this number, which is signaled for it, and learns what that tells.
    #[inline(always)]
    pub fn take(&mut self, number: ObjectNumber, thread: ThreadId) -> Taken
        requires known { number < length self.old.items }
        requires signaled { IsTrue (signaled (object_at self.old.items number) thread) }
        requires room { IsTrue (has_room (object_at self.old.items number)) }
        requires thread { thread < length self.old.owned }
        ensures items { self.new.items
            ≡ slice_set self.old.items number (taken (object_at self.old.items number) thread) }
        ensures answer { TellsAbandoned result (object_at self.old.items number) }
        ensures threads { length self.new.owned ≡ length self.old.owned }
    {
        let Some(taken) = self.try_take(number, thread) else {
            unreachable!()
        };
        taken
    }

    /// The thread ends: each mutex that it owns is free from now on, and abandoned, and has a mark among these.
    pub fn abandon_all(&mut self, thread: ThreadId, changed: &mut Marks)
        requires { length self.old.items ≤ length changed.old }
        ensures items { self.new.items ≡ map (abandoned_by thread) self.old.items }
        ensures marked { AddsMarks (λ m. IsTrue (owned_by (object_at self.old.items m) thread))
            changed.old changed.new }
        ensures threads { length self.new.owned ≡ length self.old.owned }
    {
        abandon_each(&mut self.objects, &mut self.owners, thread, changed);
    }

    /// The same objects in memory of their own.
    pub fn copy(&self) -> Result<Self, AllocError>
        ensures items { IfOk result (λ copied. copied.items ≡ self.now.items) }
        ensures owned { IfOk result (λ copied. copied.owned ≡ self.now.owned) }
    {
        Ok(ObjectTable {
            objects: copy_objects(*self.objects.allocator(), &self.objects)?,
            owners: self.owners.copy()?,
        })
    }
}
