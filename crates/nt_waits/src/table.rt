//! The pending waits of all threads.
ghost use Rattle.std.specs.Prelude.{nat_eq, ◌≡◌, ℕ, ◌+◌, ◌-◌, ◌<◌, ◌≤◌, ◌*◌, ◌^◌, ◌∷◌, [], length, nat_lt, slice_get, IsSome, Some, None, IfOk, OnOk, OnErr, IfErr, MatchOption, Contains};
ghost use Rattle.std.specs.List.{IsDistinct};
ghost use Rattle.std.specs.FinMap as map;
ghost use Rattle.std.specs.Option.{option_copied, option_map, ForSome};
ghost use Rattle.std.specs.Borrow.{sem};

use crate::begin::{begin_ready, begin_wait};
use crate::deadlines::{clear_alarm, reserve_alarm, set_alarm};
use crate::queues::Queues;
use crate::room::{Room, empty_places, with_room};
use crate::slot::Slot;
use crate::take::{end_one_wait, end_wait, next_in, only_in, take_wait, wait_in};
use crate::wait::{About, Wait, tell};
use nt_alarms::Alarms;
use nt_status::{MAX_WAIT_OBJECTS, ObjectNumber, Refusal, ThreadId};
use std::alloc::{AllocError, Global};
use std::marker::Model;

/// The pending waits, and for each object the threads that wait on it, in the order in which their waits began.
///
/// A wait stands in the queue of each object that it names, with a block of its own there. To begin
/// or end a wait on n objects takes n steps, whatever else is pending, and with a deadline some more,
/// in the logarithm of the number of threads. `next_on` takes at most n, `blocks_on` as many as threads
/// wait on the object, and every other call but `copy` a few. Only `begin`, `add_object` and `copy` take memory: `begin_one` has its room.
#[derive(Drop)]
pub struct WaitTable {
    queues: Queues,
    waits: Vec<Slot>,
    deadlines: Alarms,
    count: usize,
    looked: u64,
    room: Room,
}

/// Whoever has it may see a pending wait without a look (`WaitTable::peek`). It has no bytes, and comes with a table: whoever serves waits is not
/// given it, so serving can look at none uncounted.
#[derive(Clone, Copy)]
pub struct Reader {
    of: (),
}

impl Model for WaitTable {
    ghost use Rattle.std.specs.Prelude.{map as list_map};
    ghost use Rattle.nt_waits.specs.Waits.{Waits, waits_code};

    ghost Value = { Waits };

    ghost coded = { waits_code };

    ghost use Rattle.nt_waits.specs.Table.{threads, waits_of, IsWhole};

    ghost view = { λ t. record {
      pending = waits_of t.waits.items;
      queues = list_map threads t.queues.lists;
      looked = t.looked;
      touched = t.queues.touched;
      room = t.room;
    } };

    ghost invariant = { λ t. IsWhole t.queues t.waits.items t.deadlines t.count t.room };
}

impl WaitTable {
    ghost use Rattle.nt_waits.specs.Looking.{LeavesLooked};
    ghost use Rattle.nt_waits.specs.Deadlines.{NoDeadline, NoneEarlier, IsEarliestDeadline, NoneWithDeadline, IsFirstWithDeadline};
    ghost use Rattle.nt_waits.specs.Waits.{Begins, EndsWait, wait_of, wait_for, queue_of, about_of, one_for, only_of, Agrees, next_after};

    /// A table with no wait, and no room yet.
    pub fn new(alloc: Global) -> Self
        ensures pending { result.pending ≡ map.empty }
        ensures queues { result.queues ≡ [] }
        ensures looked { result.looked ≡ 0 }
        ensures touched { result.touched ≡ 0 }
        ensures room { result.room ≡ record { threads = 0; objects = 0 } }
        ensures agrees { Agrees result.pending result.queues }
    {
        WaitTable {
            queues: Queues::new(alloc),
            waits: Vec::new(alloc),
            deadlines: Alarms::new(alloc),
            count: 0,
            looked: 0,
            room: Room {
                threads: 0,
                objects: 0,
            },
        }
    }

    /// A table with no wait that has this much room, and its reader.
    pub fn with_room(alloc: Global, room: Room) -> Result<(Self, Reader), AllocError>
        requires { room.threads ≤ 65536 }
        ensures pending { IfOk result (λ r. r.0.pending ≡ map.empty) }
        ensures queues { IfOk result (λ r. r.0.queues ≡ []) }
        ensures looked { IfOk result (λ r. r.0.looked ≡ 0) }
        ensures touched { IfOk result (λ r. r.0.touched ≡ 0) }
        ensures room { IfOk result (λ r. r.0.room ≡ room) }
        ensures agrees { IfOk result (λ r. Agrees r.0.pending r.0.queues) }
    {
        let table = WaitTable {
            queues: with_room(Queues::new(alloc), room)?,
            waits: empty_places(alloc, room.threads)?,
            deadlines: Alarms::with_places(alloc, room.threads)?,
            count: 0,
            looked: 0,
            room,
        };
        Ok((table, Reader { of: () }))
    }

    /// An equal table in memory of its own, with as much room.
    pub fn copy(&self) -> Result<Self, Refusal>
        ensures value { IfOk result (λ copied. copied ≡ self.now) }
        ensures agrees { IfOk result (λ copied. Agrees copied.pending copied.queues) }
        ensures memory { IfErr result (λ refusal. refusal ≡ Refusal.Memory) }
    {
        Ok(WaitTable {
            queues: with_room(self.queues.copy()?, self.room)?,
            waits: self.waits.clone()?,
            deadlines: self.deadlines.copy()?,
            count: self.count,
            looked: self.looked,
            room: self.room,
        })
    }

    /// For how many threads and objects there is room.
    pub fn room(&self) -> Room
        ensures { result ≡ self.now.room }
    {
        self.room
    }

    /// Makes room for waits on one object more. Refused only where memory is, and then nothing changes.
    pub fn add_object(&mut self) -> Result<(), AllocError>
        ensures ok { OnOk result (self.new ≡ record self.old {
          room = record self.old.room { objects = self.old.room.objects + 1 };
        }) }
        ensures err { OnErr result (self.new ≡ self.old) }
    {
        let Some(objects) = self.room.objects.checked_add(1) else {
            return Err(AllocError);
        };
        self.queues.reserve_objects(objects)?;
        self.room.objects = objects;
        Ok(())
    }

    /// Takes back the room for waits on the last object.
    pub fn remove_object(&mut self)
        requires { 0 < self.old.room.objects }
        ensures { self.new ≡ record self.old { room = record self.old.room { objects = self.old.room.objects - 1 } } }
    {
        self.room.objects -= 1;
    }

    /// Begins the thread's wait for these objects, last in the queue of each. It is written where it will lie. Refused only where memory
    /// is, and then nothing changes.
    pub fn begin(
        &mut self,
        t: ThreadId,
        objects: &[ObjectNumber],
        all: bool,
        about: About,
    ) -> Result<(), Refusal>
        requires free { wait_of self.old t ≡ None }
        requires few { length objects.now ≤ MAX_WAIT_OBJECTS }
        requires distinct { IsDistinct nat_eq objects.now }
        ensures begins { OnOk result (Begins self.old self.new t (wait_for objects.now all about)) }
        ensures agrees { Agrees self.new.pending self.new.queues }
        ensures memory { IfErr result (λ refusal. refusal ≡ Refusal.Memory) }
        ensures err { OnErr result (self.new ≡ self.old) }
    {
        reserve_alarm(&mut self.deadlines, t, about.deadline)?;
        begin_wait(
            &mut self.queues,
            &mut self.waits,
            t,
            objects,
            all,
            about,
            self.room.threads,
        )?;
        set_alarm(&mut self.deadlines, t, about.deadline);
        self.count += 1;
        Ok(())
    }

    /// Begins the thread's wait for this object alone, as `begin` does. There is room for it, so it takes no memory, and nothing is refused.
    #[inline(always)]
    pub fn begin_one(&mut self, t: ThreadId, object: ObjectNumber, all: bool, about: About)
        requires free { wait_of self.old t ≡ None }
        requires place { t < self.old.room.threads }
        requires queue { object < self.old.room.objects }
        ensures begins { Begins self.old self.new t (wait_for (object ∷ []) all about) }
        ensures agrees { Agrees self.new.pending self.new.queues }
    {
        let pending = self.count + 1;
        begin_ready(&mut self.queues, &mut self.waits, t, object, all, about);
        set_alarm(&mut self.deadlines, t, about.deadline);
        self.count = pending;
    }

    /// Ends the thread's wait where it lies. The other threads keep their order in every queue.
    pub fn end_in_place(&mut self, t: ThreadId)
        requires { IsSome (wait_of self.old t) }
        ensures ended { EndsWait self.old self.new t }
        ensures agrees { Agrees self.new.pending self.new.queues }
    {
        let left = self.count - 1;
        clear_alarm(&mut self.deadlines, t);
        end_wait(&mut self.queues, &mut self.waits, t);
        self.count = left;
    }

    /// Ends the thread's wait, which is for this object alone, as `end_in_place` does. Answers the thread whose wait on the object
    /// began next.
    #[inline(always)]
    pub fn end_one(&mut self, t: ThreadId, object: ObjectNumber) -> Option<ThreadId>
        requires there { IsSome (wait_of self.old t) }
        requires one { ForSome (wait_of self.old t) (λ wait. wait.objects ≡ object ∷ []) }
        ensures next { result ≡ next_after t (queue_of self.old object) }
        ensures ended { EndsWait self.old self.new t }
        ensures agrees { Agrees self.new.pending self.new.queues }
    {
        let others = self.count - 1;
        self.count = others;
        clear_alarm(&mut self.deadlines, t);
        end_one_wait(&mut self.queues, &mut self.waits, t, object)
    }

    /// Ends the thread's wait, and hands it back. The other threads keep their order in every queue.
    pub fn end(&mut self, t: ThreadId) -> Wait
        requires { IsSome (wait_of self.old t) }
        ensures wait { wait_of self.old t ≡ Some result }
        ensures ended { EndsWait self.old self.new t }
        ensures agrees { Agrees self.new.pending self.new.queues }
    {
        self.count -= 1;
        clear_alarm(&mut self.deadlines, t);
        take_wait(&mut self.queues, &mut self.waits, t)
    }

    /// The pending wait of the thread. Each call counts as a look.
    pub fn get(&mut self, t: ThreadId) -> Option<&Wait>
        ensures* counted { sem 𝓛 (LeavesLooked self.entry) }
        ensures value { option_copied result ≡ wait_of self.old t }
    {
        self.looked = self.looked.saturating_add(1);
        wait_in(&self.waits, t)
    }

    /// The object of the thread's pending wait, where it names one alone, and whether the wait is for all: this counts as a look. None
    /// where the wait names several, which `get` shows.
    pub fn look(&mut self, t: ThreadId) -> Option<(ObjectNumber, bool)>
        requires there { IsSome (wait_of self.old t) }
        requires countable { self.old.looked + 1 < 2 ^ 64 }
        ensures told { Some result ≡ option_map only_of (wait_of self.old t) }
        ensures counted { self.new ≡ record self.old { looked = self.old.looked + one_for result } }
    {
        match only_in(&self.waits, t) {
            Some(only) => {
                self.looked += 1;
                Some(only)
            }
            None => None,
        }
    }

    /// How many looks were counted since the last `look_anew`, up to the greatest u64.
    pub fn looked(&self) -> u64
        ensures { result ≡ self.now.looked }
    {
        self.looked
    }

    /// Counts the looks from 0 again.
    pub fn look_anew(&mut self)
        ensures { self.new ≡ record self.old { looked = 0 } }
    {
        self.looked = 0;
    }

    /// Whether the thread's pending wait is alertable, and its deadline. This is no look.
    pub fn about(&self, t: ThreadId) -> Option<About>
        ensures { result ≡ option_map about_of (wait_of self.now t) }
    {
        let wait = wait_in(&self.waits, t)?;
        Some(tell(wait))
    }

    /// The pending wait of the thread, for a reader. This is no look.
    pub fn peek(&self, _reader: Reader, t: ThreadId) -> Option<&Wait>
        ensures { option_copied result ≡ wait_of self.now t }
    {
        wait_in(self.waits.as_slice(), t)
    }

    /// How many waits are pending.
    pub fn pending(&self) -> usize
        ensures { result ≡ map.len self.now.pending }
    {
        self.count
    }

    /// The earliest deadline of a pending wait, in units of 100 ns, if one has a deadline.
    pub fn earliest_deadline(&self) -> Option<u64>
        ensures { MatchOption result (NoDeadline self.now.pending) (IsEarliestDeadline self.now.pending) }
    {
        self.deadlines.earliest()
    }

    /// The lowest thread whose pending wait has this deadline, where none has an earlier one.
    pub fn first_with_deadline(&self, moment: u64) -> Option<ThreadId>
        requires { NoneEarlier self.now.pending moment }
        ensures { MatchOption result
            (NoneWithDeadline self.now.pending moment) (IsFirstWithDeadline self.now.pending moment) }
    {
        let place = self.deadlines.first_at(moment)?;
        Some(ThreadId::new(place as u16))
    }

    /// The thread whose wait on the object began first.
    pub fn first_on(&self, object: ObjectNumber) -> Option<ThreadId>
        ensures first { result ≡ slice_get (queue_of self.now object) 0 }
        ensures agrees { Agrees self.now.pending self.now.queues }
    {
        self.queues.first(object)
    }

    /// The thread whose wait on the object began next after this thread's.
    #[inline(always)]
    pub fn next_on(&self, object: ObjectNumber, t: ThreadId) -> Option<ThreadId>
        requires { Contains (queue_of self.now object) t }
        ensures { result ≡ next_after t (queue_of self.now object) }
    {
        // Mostly one thread waits on it, and then its place among the objects of its wait need not be found.
        if !self.queues.has_two(object) {
            return None;
        }
        next_in(&self.queues, &self.waits, object, t)
    }

    /// Whether a thread waits on the object.
    pub fn is_awaited(&self, object: ObjectNumber) -> bool
        ensures { result ≡ nat_lt 0 (length (queue_of self.now object)) }
    {
        self.queues.has_some(object)
    }

    /// How many threads wait on the object. `is_awaited` counts none of them.
    pub fn blocks_on(&self, object: ObjectNumber) -> usize
        ensures count { result ≡ length (queue_of self.now object) }
        ensures agrees { Agrees self.now.pending self.now.queues }
    {
        self.queues.count(object)
    }

    /// How many blocks the last `end` reached. 0 before the first.
    pub fn touched(&self) -> u64
        ensures { result ≡ self.now.touched }
    {
        self.queues.touched()
    }
}
