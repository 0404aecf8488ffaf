//! One thread's queue, with a place kept free for each timer that was promised one.
ghost use Rattle.std.specs.Prelude.{◌≡◌, ◌↔◌, true, ◌<◌, ◌++◌, ◌∷◌, ◌==◌, [], length, Some, None, OnOk, OnErr, IfOk, slice_get};
ghost use Rattle.nt_apc.specs.Queues.{oldest, without_oldest, without_from};
ghost use Rattle.nt_apc.specs.Inbox.{timed_count, GivesUp};

use crate::apc::{Apc, Queued};
use nt_status::ObjectNumber;
use std::alloc::{AllocError, Global};
use std::collections::VecDeque;
use std::marker::Model;

/// The APCs queued to one thread, and the timers whose APC has a place among them.
#[derive(Drop)]
pub struct Inbox {
    queue: VecDeque<Queued>,
    timers: Vec<ObjectNumber>,
}

impl Model for Inbox {
    ghost use Rattle.std.specs.Prelude.{◌+◌, ◌-◌, ◌≤◌, min, length, vec_capacity};
    ghost use Rattle.std.specs.VecDeque.{deque_capacity};
    ghost use Rattle.nt_apc.specs.Inbox.{Contents, plain_count};

    ghost Value = { Contents };

    ghost view = { λ i. record {
      queue = i.queue.items;
      timers = i.timers.items;
      room = min (deque_capacity i.queue - (plain_count i.queue.items + length i.timers.items))
          (vec_capacity i.timers - length i.timers.items);
    } };

    ghost invariant = { λ i. plain_count i.queue.items + length i.timers.items ≤ deque_capacity i.queue };
}

/// Whether both are the same APC, of the same timer.
fn is_same(queued: Queued, other: Queued) -> bool
    ensures { (result ≡ true) ↔ (queued ≡ other) }
{
    queued == other
}

/// Whether the same APCs are queued, in the same order.
fn are_like(queue: &VecDeque<Queued>, other: &VecDeque<Queued>) -> bool
    ensures { (result ≡ true) ↔ (queue.now.items ≡ other.now.items) }
{
    if queue.len() != other.len() {
        return false;
    }
    for i in 0..queue.len() {
        if !is_same(queue[i], other[i]) {
            return false;
        }
    }
    true
}

impl Inbox {
    /// No APC, and no timer.
    pub fn new(alloc: Global) -> Self
        ensures queue { result.queue ≡ [] }
        ensures timers { result.timers ≡ [] }
    {
        Inbox {
            queue: VecDeque::new(alloc),
            timers: Vec::new(alloc),
        }
    }

    /// Queues an APC that is no timer's, last.
    pub fn push(&mut self, apc: Apc) -> Result<(), AllocError>
        ensures ok { OnOk result (self.new.queue ≡ self.old.queue ++ record { apc = apc; timer = None } ∷ []) }
        ensures err { OnErr result (self.new.queue ≡ self.old.queue) }
        ensures timers { self.new.timers ≡ self.old.timers }
    {
        self.queue.reserve(self.timers.len() + 1)?;
        self.queue.push_back_reserved(Queued { apc, timer: None });
        Ok(())
    }

    /// Makes room for one more promise.
    pub fn reserve(&mut self) -> Result<(), AllocError>
        ensures room { OnOk result (0 < self.new.room) }
        ensures queue { self.new.queue ≡ self.old.queue }
        ensures timers { self.new.timers ≡ self.old.timers }
    {
        self.queue.reserve(self.timers.len() + 1)?;
        self.timers.reserve(1)
    }

    /// Promises this timer's APC a place.
    pub fn promise(&mut self, timer: ObjectNumber)
        requires { 0 < self.old.room }
        ensures queue { self.new.queue ≡ self.old.queue }
        ensures timers { self.new.timers ≡ self.old.timers ++ timer ∷ [] }
    {
        self.timers.push_reserved(timer);
    }

    /// Queues a timer's APC, last, in the place that was promised.
    pub fn push_promised(&mut self, timer: ObjectNumber, apc: Apc)
        requires { timed_count self.old.queue < length self.old.timers }
        ensures queue { self.new.queue ≡ self.old.queue ++ record { apc = apc; timer = Some timer } ∷ [] }
        ensures timers { self.new.timers ≡ self.old.timers }
    {
        self.queue.push_back_reserved(Queued {
            apc,
            timer: Some(timer),
        });
    }

    /// Removes this timer's APC. Its place stays.
    pub fn withdraw(&mut self, timer: ObjectNumber)
        ensures queue { self.new.queue ≡ without_from timer self.old.queue }
        ensures timers { self.new.timers ≡ self.old.timers }
    {
        self.queue.retain(|queued| !queued.is_from(timer));
    }

    /// Gives up the place of the timer at this index. The last timer takes the index, and is answered.
    pub fn give_up(&mut self, index: usize) -> Option<ObjectNumber>
        requires { index < length self.old.timers }
        ensures moved { result ≡ slice_get self.new.timers index }
        ensures queue { self.new.queue ≡ self.old.queue }
        ensures timers { GivesUp self.old.timers self.new.timers index }
    {
        let _timer = self.timers.swap_remove(index);
        if index < self.timers.len() {
            Some(self.timers[index])
        } else {
            None
        }
    }

    /// Takes the oldest APC. A timer's place stays.
    pub fn next(&mut self) -> Option<Queued>
        ensures oldest { result ≡ oldest self.old.queue }
        ensures queue { self.new.queue ≡ without_oldest self.old.queue }
        ensures timers { self.new.timers ≡ self.old.timers }
    {
        self.queue.pop_front()
    }

    /// The APC at this place, the oldest at 0; none past the last.
    pub fn at(&self, place: usize) -> Option<Queued>
        ensures { result ≡ slice_get self.now.queue place }
    {
        self.queue.get(place).copied()
    }

    /// Removes all APCs, and gives up all places.
    pub fn clear(&mut self)
        ensures queue { self.new.queue ≡ [] }
        ensures timers { self.new.timers ≡ [] }
    {
        self.queue.clear();
        self.timers.clear();
    }

    pub fn is_empty(&self) -> bool
        ensures { result ≡ (length self.now.queue == 0) }
    {
        self.queue.is_empty()
    }

    /// The timers whose APC has a place.
    pub fn timers(&self) -> &[ObjectNumber]
        ensures { result.now ≡ self.now.timers }
    {
        self.timers.as_slice()
    }

    /// Whether the same APCs are queued, in the same order.
    pub fn is_like(&self, other: &Inbox) -> bool
        ensures { (result ≡ true) ↔ (self.now.queue ≡ other.now.queue) }
    {
        are_like(&self.queue, &other.queue)
    }

    /// The same in memory of its own.
    pub fn copy(&self) -> Result<Self, AllocError>
        ensures queue { IfOk result (λ copied. copied.queue ≡ self.now.queue) }
        ensures timers { IfOk result (λ copied. copied.timers ≡ self.now.timers) }
    {
        let alloc = *self.timers.allocator();
        let mut queue = Vec::with_capacity(alloc, self.queue.len() + self.timers.len())?;
        let (older, newer) = self.queue.as_slices();
        queue.extend_from_slice(older)?;
        queue.extend_from_slice(newer)?;
        Ok(Inbox {
            queue: VecDeque::from_vec(queue),
            timers: Vec::from_slice(alloc, &self.timers)?,
        })
    }
}
