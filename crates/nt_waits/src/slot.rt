//! The place of one thread's wait, which is filled and emptied where it lies.
ghost use Rattle.std.specs.Prelude.{nat_eq, ◌≡◌, ℕ, ◌+◌, ◌<◌, ◌≤◌, ◌∷◌, [], IsSome, None, Some, OnOk, OnErr, length, slice_index};
ghost use Rattle.std.specs.List.{IsDistinct};
ghost use Rattle.std.specs.Option.{option_copied, option_map, ForSome};
ghost use Rattle.nt_waits.specs.Link.{thread_after};
ghost use Rattle.nt_waits.specs.Queues.{list_at, HasRoomFor, AreOrderly};
ghost use Rattle.nt_waits.specs.Slot.{IsFilled, HasLeft};
ghost use Rattle.nt_waits.specs.Table.{IsLinked};
ghost use Rattle.nt_waits.specs.Waits.{wait_for};

use crate::block::BlockNumber;
use crate::links::{link_all, unlink_all};
use crate::pending::Pending;
use crate::queues::Queues;
use crate::wait::{About, Wait};
use nt_status::{ObjectNumber, ObjectNumbers, ThreadId};
use smallvec::SmallVec;
use std::alloc::{AllocError, Global};
use std::marker::Model;
use std::mem;

/// A thread's wait with its blocks, or none. What is left of an ended wait is written over by the next.
#[derive(Drop)]
pub struct Slot {
    pends: bool,
    pending: Pending,
}

impl Model for Slot {
    ghost use Rattle.std.specs.Prelude.{Option};
    ghost use Rattle.nt_waits.specs.Slot.{kept_where};
    ghost use Rattle.nt_waits.specs.declared.pending.Pending.{Pending};

    ghost Value = { Option Pending };

    ghost view = { λ s. kept_where s.pends s.pending };
}

impl Clone for Slot {
    ghost use Rattle.nt_waits.specs.Slot.{IsSlotCopy};

    ghost is_clone = { IsSlotCopy };

    fn clone(&self) -> Result<Self, AllocError> {
        Ok(Slot {
            pends: self.pends,
            pending: self.pending.clone()?,
        })
    }
}

/// A wait that names nothing.
fn no_wait(alloc: Global) -> Wait {
    Wait {
        objects: ObjectNumbers::new(alloc),
        all: false,
        alertable: false,
        deadline: None,
    }
}

/// Makes the list `count` long. What the numbers are does not matter yet.
fn make_numbers(numbers: &mut SmallVec<BlockNumber, 4>, count: usize) -> Result<(), AllocError>
    ensures { OnOk result (length numbers.new.items ≡ count) }
{
    if numbers.len() == count {
        return Ok(());
    }
    make_numbers_slow(numbers, count)
}

/// Makes a new list, `count` long. A function of its own, since a wait mostly names as many objects as its thread's last one.
#[inline(never)]
fn make_numbers_slow(numbers: &mut SmallVec<BlockNumber, 4>, count: usize) -> Result<(), AllocError>
    ensures { OnOk result (length numbers.new.items ≡ count) }
{
    *numbers = SmallVec::from_elem(*numbers.allocator(), BlockNumber::default(), count)?;
    Ok(())
}

/// Makes the list one long. What the number is does not matter yet. It takes no memory.
fn make_one_number(numbers: &mut SmallVec<BlockNumber, 4>)
    ensures { length numbers.new.items ≡ 1 }
{
    if numbers.len() != 1 {
        *numbers = SmallVec::new(*numbers.allocator());
        numbers.push_reserved(BlockNumber::default());
    }
}

/// Puts a block of the thread at the end of the queue of each of its objects, all below `count`, which are written here already, and
/// writes the rest of its wait.
#[inline(always)]
fn link(
    pending: &mut Pending,
    queues: &mut Queues,
    t: ThreadId,
    objects: &[ObjectNumber],
    all: bool,
    about: About,
    count: usize,
)
    requires written { pending.old.wait.objects ≡ objects.now }
    requires numbered { length pending.old.numbers.items ≡ length objects.now }
    requires apart { IsDistinct nat_eq objects.now }
    requires below { (j : ℕ) → j < length objects.now → slice_index objects.now j < count }
    requires room { HasRoomFor queues.old (length objects.now) }
    requires object_room { count ≤ queues.old.object_room }
    requires numbers { AreOrderly queues.old }
    ensures { IsFilled queues.old queues.new t (wait_for objects.now all about) (Some pending.new) }
{
    queues.add_objects(count);
    link_all(queues, t, objects, pending.numbers.as_mut_slice());
    pending.wait.all = all;
    pending.wait.alertable = about.alertable;
    pending.wait.deadline = about.deadline;
}

impl Slot {
    /// A place with no wait.
    pub fn new(alloc: Global) -> Self
        ensures { result ≡ None }
    {
        Slot {
            pends: false,
            pending: Pending {
                wait: no_wait(alloc),
                numbers: SmallVec::new(alloc),
            },
        }
    }

    /// The wait with its blocks, if there is one.
    pub fn get(&self) -> Option<&Pending>
        ensures { option_copied result ≡ self.now }
    {
        if self.pends {
            Some(&self.pending)
        } else {
            None
        }
    }

    /// The wait with its blocks, which there is.
    pub fn filled(&self) -> &Pending
        requires { IsSome self.now }
        ensures { Some result.now ≡ self.now }
    {
        &self.pending
    }

    /// The thread's wait for these objects, all below `count`, stands here from now on, with a block at the end of each of their queues.
    /// Where memory is refused nothing changes.
    pub fn fill(
        &mut self,
        queues: &mut Queues,
        t: ThreadId,
        objects: &[ObjectNumber],
        all: bool,
        about: About,
        count: usize,
    ) -> Result<(), AllocError>
        requires free { self.old ≡ None }
        requires apart { IsDistinct nat_eq objects.now }
        requires below { (j : ℕ) → j < length objects.now → slice_index objects.now j < count }
        requires room { HasRoomFor queues.old (length objects.now) }
        requires object_room { count ≤ queues.old.object_room }
        requires numbers { AreOrderly queues.old }
        ensures filled { OnOk result (IsFilled queues.old queues.new t (wait_for objects.now all about) self.new) }
        ensures err { OnErr result ((queues.new ≡ queues.old) × (self.new ≡ None)) }
    {
        self.pending.wait.objects.copy_from(objects)?;
        make_numbers(&mut self.pending.numbers, objects.len())?;
        link(&mut self.pending, queues, t, objects, all, about, count);
        self.pends = true;
        Ok(())
    }

    /// The thread's wait for this object stands here from now on, with a block at the end of its queue. It takes no memory.
    #[inline(always)]
    pub fn fill_one(
        &mut self,
        queues: &mut Queues,
        t: ThreadId,
        object: ObjectNumber,
        all: bool,
        about: About,
    )
        requires free { self.old ≡ None }
        requires room { HasRoomFor queues.old 1 }
        requires object_room { object + 1 ≤ queues.old.object_room }
        requires numbers { AreOrderly queues.old }
        ensures { IsFilled queues.old queues.new t (wait_for (object ∷ []) all about) self.new }
    {
        self.pending.wait.objects.put_one(object);
        make_one_number(&mut self.pending.numbers);
        link(
            &mut self.pending,
            queues,
            t,
            &[object],
            all,
            about,
            object.get() as usize + 1,
        );
        self.pends = true;
    }

    /// Takes the blocks of its wait out of their queues. The place is empty then.
    pub fn empty(&mut self, queues: &mut Queues)
        requires there { IsSome self.old }
        requires linked { ForSome self.old (λ p. (t : ℕ) × IsLinked queues.old t p) }
        requires numbers { AreOrderly queues.old }
        requires countable { queues.old.touched ≡ 0 }
        ensures empty { self.new ≡ None }
        ensures unlinked { ForSome self.old (HasLeft queues.old queues.new) }
    {
        unlink_all(
            queues,
            self.pending.wait.objects.as_slice(),
            self.pending.numbers.as_slice(),
        );
        self.pends = false;
    }

    /// Takes the block of its wait, which is for this object alone, out of its queue. Answers the thread of the block after it.
    pub fn empty_one(&mut self, queues: &mut Queues, object: ObjectNumber) -> Option<ThreadId>
        requires there { IsSome self.old }
        requires one { ForSome self.old (λ p. p.wait.objects ≡ object ∷ []) }
        requires linked { ForSome self.old (λ p. (t : ℕ) × IsLinked queues.old t p) }
        requires numbers { AreOrderly queues.old }
        requires countable { queues.old.touched ≡ 0 }
        ensures empty { self.new ≡ None }
        ensures unlinked { ForSome self.old (HasLeft queues.old queues.new) }
        ensures next { ForSome self.old (λ p.
            result ≡ thread_after (list_at queues.old object) (slice_index p.numbers.items 0)) }
    {
        let number = self.pending.numbers.as_slice()[0];
        let next = queues.unlink(object, number);
        self.pends = false;
        next
    }

    /// Empties the place, and hands its wait back.
    pub fn take(&mut self, queues: &mut Queues) -> Wait
        requires there { IsSome self.old }
        requires linked { ForSome self.old (λ p. (t : ℕ) × IsLinked queues.old t p) }
        requires numbers { AreOrderly queues.old }
        requires countable { queues.old.touched ≡ 0 }
        ensures wait { option_map (λ p. p.wait) self.old ≡ Some result }
        ensures empty { self.new ≡ None }
        ensures unlinked { ForSome self.old (HasLeft queues.old queues.new) }
    {
        unlink_all(
            queues,
            self.pending.wait.objects.as_slice(),
            self.pending.numbers.as_slice(),
        );
        self.pends = false;
        let alloc = *self.pending.numbers.allocator();
        mem::replace(&mut self.pending.wait, no_wait(alloc))
    }
}
