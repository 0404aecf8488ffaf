ghost use Rattle.std.specs.Prelude.{◌≡◌, ◌≢◌, ◌<◌, if◌then◌else◌, ◌↔◌, ℕ, true, not, false, length, replicate, [], Some, None, OnOk, OnErr, IfOk, AllPairs, Contains, slice_get};
ghost use Rattle.nt_apc.specs.Queues.{Apcs, KeepsPlaces, apc_queue_of, has_apc, has_from, is_queued, oldest, apc_of, pushed, oldest_taken, cleared, withdrawn, withdrawn_at, place_of, is_at, given_up};

use crate::apc::{Apc, Queued};
use crate::inbox::Inbox;
use crate::linked;
use crate::place::{self, Place};
use nt_status::{ObjectNumber, ThreadId};
use std::alloc::{AllocError, Global};
use std::marker::Model;

/// Each thread's queue of APCs, first in, first out, with places promised to timers.
///
/// A timer can be promised a place for its APC in one thread's queue. The place stands until it is
/// given up, and to fill it can't fail.
#[derive(Drop)]
pub struct ApcQueues {
    inboxes: Vec<Inbox>,
    places: Vec<Option<Place>>,
}

impl Model for ApcQueues {
    ghost use Rattle.nt_apc.specs.Queues.{Apcs};

    ghost Value = { Apcs };

    ghost use Rattle.nt_apc.specs.Place.{queues_in, threads_in, AreApcsSound};

    ghost view = { λ a. record { queues = queues_in a.inboxes.items; places = threads_in a.places.items } };

    ghost invariant = { λ a. AreApcsSound a.inboxes.items a.places.items };
}

impl ApcQueues {
    /// An empty queue for each of `threads` threads, and no promise.
    pub fn new(alloc: Global, threads: usize) -> Result<Self, AllocError>
        ensures queues { IfOk result (λ apcs. apcs.queues ≡ replicate threads []) }
        ensures places { IfOk result (λ apcs. apcs.places ≡ []) }
        ensures keeps { IfOk result KeepsPlaces }
    {
        let mut inboxes = Vec::with_capacity(alloc, threads)?;
        for _ in 0..threads {
            inboxes.push_reserved(Inbox::new(alloc));
        }
        Ok(ApcQueues {
            inboxes,
            places: Vec::new(alloc),
        })
    }

    /// How many threads there are.
    pub fn threads(&self) -> usize
        ensures { result ≡ length self.now.queues }
    {
        self.inboxes.len()
    }

    /// Queues an APC to thread `t`, last, as QueueUserAPC does.
    pub fn push(&mut self, t: ThreadId, apc: Apc) -> Result<(), AllocError>
        requires { t < length self.old.queues }
        ensures ok { OnOk result (self.new.queues ≡ pushed self.old.queues t (record { apc = apc; timer = None })) }
        ensures places { self.new.places ≡ self.old.places }
        ensures keeps { KeepsPlaces self.new }
        ensures err { OnErr result (self.new ≡ self.old) }
    {
        linked::push(&mut self.inboxes, t, apc)?;
        Ok(())
    }

    /// Promises the timer's APC a place in `t`'s queue. A place that stands there is kept, with its
    /// APC; one in another queue is given up, and its APC removed.
    pub fn promise(&mut self, t: ThreadId, timer: ObjectNumber) -> Result<(), AllocError>
        requires { t < length self.old.queues }
        ensures queues { OnOk result (self.new.queues ≡
            (if is_at t (place_of self.old.places timer) then self.old.queues else withdrawn self.old.queues timer)) }
        ensures place { OnOk result (place_of self.new.places timer ≡ Some t) }
        ensures others { OnOk result ((m : ℕ) → m ≢ timer → place_of self.new.places m ≡ place_of self.old.places m) }
        ensures keeps { KeepsPlaces self.new }
        ensures err { OnErr result (self.new ≡ self.old) }
    {
        if place::index_at(&self.places, t, timer).is_some() {
            return Ok(());
        }
        linked::promise(&mut self.inboxes, &mut self.places, t, timer)?;
        Ok(())
    }

    /// Queues the APC of a timer, last, in the place that was promised in `t`'s queue.
    pub fn push_promised(&mut self, t: ThreadId, timer: ObjectNumber, apc: Apc)
        requires place { place_of self.old.places timer ≡ Some t }
        requires none { has_from timer (apc_queue_of self.old.queues t) ≡ false }
        ensures queues { self.new.queues ≡ pushed self.old.queues t (record { apc = apc; timer = Some timer }) }
        ensures places { self.new.places ≡ self.old.places }
        ensures keeps { KeepsPlaces self.new }
    {
        linked::push_promised(&mut self.inboxes, &mut self.places, t, timer, apc);
    }

    /// Whether the timer's APC is in `t`'s queue.
    pub fn queued(&self, t: ThreadId, timer: ObjectNumber) -> bool
        ensures here { result ≡ has_from timer (apc_queue_of self.now.queues t) }
        ensures anywhere { place_of self.now.places timer ≡ Some t → result ≡ is_queued self.now.queues timer }
    {
        place::is_queued(&self.places, t, timer)
    }

    /// Removes the timer's APC from `t`'s queue. The promise stays.
    pub fn withdraw(&mut self, t: ThreadId, timer: ObjectNumber)
        ensures queues { self.new.queues ≡ withdrawn_at self.old.queues t timer }
        ensures anywhere { place_of self.old.places timer ≡ Some t → self.new.queues ≡ withdrawn self.old.queues timer }
        ensures places { self.new.places ≡ self.old.places }
        ensures keeps { KeepsPlaces self.new }
    {
        linked::withdraw(&mut self.inboxes, &mut self.places, t, timer);
    }

    /// Gives up the timer's place in `t`'s queue, and removes its APC there.
    pub fn forget(&mut self, t: ThreadId, timer: ObjectNumber)
        ensures queues { self.new.queues ≡ withdrawn_at self.old.queues t timer }
        ensures anywhere { place_of self.old.places timer ≡ Some t → self.new.queues ≡ withdrawn self.old.queues timer }
        ensures place { place_of self.new.places timer ≡ given_up t (place_of self.old.places timer) }
        ensures others { (m : ℕ) → m ≢ timer → place_of self.new.places m ≡ place_of self.old.places m }
        ensures keeps { KeepsPlaces self.new }
    {
        linked::forget(&mut self.inboxes, &mut self.places, t, timer);
    }

    /// Takes the oldest APC of `t`. A timer's place stays.
    pub fn next(&mut self, t: ThreadId) -> Option<Apc>
        requires { t < length self.old.queues }
        ensures apc { result ≡ apc_of (oldest (apc_queue_of self.old.queues t)) }
        ensures queues { self.new.queues ≡ oldest_taken self.old.queues t }
        ensures places { self.new.places ≡ self.old.places }
        ensures keeps { KeepsPlaces self.new }
    {
        match linked::next(&mut self.inboxes, &mut self.places, t) {
            Some(queued) => Some(queued.apc),
            None => None,
        }
    }

    /// Empties `t`'s queue, and gives up all places in it.
    pub fn clear(&mut self, t: ThreadId)
        requires { t < length self.old.queues }
        ensures queues { self.new.queues ≡ cleared self.old.queues t }
        ensures places { (m : ℕ) → place_of self.new.places m ≡ given_up t (place_of self.old.places m) }
        ensures keeps { KeepsPlaces self.new }
    {
        linked::clear(&mut self.inboxes, &mut self.places, t);
    }

    /// Whether no APC is queued to `t`.
    pub fn is_empty(&self, t: ThreadId) -> bool
        requires { t < length self.now.queues }
        ensures { result ≡ not (has_apc self.now.queues t) }
    {
        self.inboxes[t.get() as usize].is_empty()
    }

    /// The APC at this place of `t`'s queue, the oldest at 0; none past the last.
    pub fn at(&self, t: ThreadId, place: usize) -> Option<Queued>
        requires { t < length self.now.queues }
        ensures { result ≡ slice_get (apc_queue_of self.now.queues t) place }
    {
        self.inboxes[t.get() as usize].at(place)
    }

    /// The thread in whose queue the timer's APC has a place.
    pub fn place_of(&self, timer: ObjectNumber) -> Option<ThreadId>
        ensures place { result ≡ place_of self.now.places timer }
        ensures keeps { KeepsPlaces self.now }
    {
        match place::place_of(&self.places, timer) {
            Some(place) => Some(place.thread),
            None => None,
        }
    }

    /// The timers whose APC has a place in `t`'s queue, each once.
    pub fn timers_of(&self, t: ThreadId) -> &[ObjectNumber]
        requires { t < length self.now.queues }
        ensures distinct { AllPairs (λ a b. a ≢ b) result.now }
        ensures listed { (m : ℕ) → Contains result.now m ↔ (place_of self.now.places m ≡ Some t) }
    {
        self.inboxes[t.get() as usize].timers()
    }

    /// Whether the same APCs are queued to each thread, in the same order.
    pub fn is_like(&self, other: &ApcQueues) -> bool
        ensures { (result ≡ true) ↔ (self.now.queues ≡ other.now.queues) }
    {
        linked::are_like(&self.inboxes, &other.inboxes)
    }

    /// The same queues and promises in memory of their own.
    pub fn copy(&self) -> Result<Self, AllocError>
        ensures { IfOk result (λ copied. copied ≡ self.now) }
    {
        let alloc = *self.inboxes.allocator();
        let inboxes = linked::copy(alloc, &self.inboxes)?;
        let places = Vec::from_slice(alloc, &self.places)?;
        Ok(ApcQueues { inboxes, places })
    }
}
