//! The queues of all objects, over blocks in a slab.
ghost use Rattle.std.specs.Prelude.{◌≡◌, ℕ, ◌+◌, ◌<◌, ◌≤◌, ◌^◌, ◌++◌, ◌∷◌, [], length, nat_lt, slice_set, IfOk, OnOk};

use crate::block::{Block, BlockNumber, Ends};
use crate::chain::{add_ends, attach, count_blocks, detach, thread_in};
use nt_status::{ObjectNumber, ThreadId};
use slab::Slab;
use std::alloc::{AllocError, Global};
use std::marker::Model;

/// For each object the blocks of the waits on it, in the order in which they were linked.
#[derive(Drop)]
pub struct Queues {
    blocks: Slab<Block>,
    ends: Vec<Ends>,
    touched: u64,
}

impl Model for Queues {
    ghost use Rattle.std.specs.Prelude.{map, vec_capacity};
    ghost use Rattle.slab.specs.Slab.{slab_len};
    ghost use Rattle.nt_waits.specs.Queues.{Lists};
    ghost use Rattle.nt_waits.specs.Queue.{links};
    ghost use Rattle.nt_waits.specs.Sound.{IsSound};

    ghost Value = { Lists };

    ghost view = { λ q. record {
      lists = map (links q.blocks) q.ends.items;
      used = slab_len q.blocks;
      capacity = q.blocks.capacity;
      object_room = vec_capacity q.ends;
      touched = q.touched;
    } };

    ghost invariant = { λ q. IsSound q.blocks q.ends.items };
}

impl Queues {
    ghost use Rattle.nt_waits.specs.Link.{HasNumber, without, first_thread, thread_after};
    ghost use Rattle.nt_waits.specs.Queues.{Lists, list_at, AreOrderly, HasRoomFor, TakesRoom, GivesRoom, ReachesMore};

    pub fn new(alloc: Global) -> Self
        ensures lists { result.lists ≡ [] }
        ensures touched { result.touched ≡ 0 }
        ensures used { result.used ≡ 0 }
    {
        Queues {
            blocks: Slab::new(alloc),
            ends: Vec::new(alloc),
            touched: 0,
        }
    }

    /// The same queues in memory of their own.
    pub fn copy(&self) -> Result<Self, AllocError>
        ensures lists { IfOk result (λ copied. copied.lists ≡ self.now.lists) }
        ensures touched { IfOk result (λ copied. copied.touched ≡ self.now.touched) }
    {
        Ok(Queues {
            blocks: self.blocks.clone()?,
            ends: self.ends.clone()?,
            touched: self.touched,
        })
    }

    /// Makes room for `additional` more blocks.
    pub fn reserve(&mut self, additional: usize) -> Result<(), AllocError>
        ensures room { OnOk result (HasRoomFor self.new additional) }
        ensures grows { self.old.capacity ≤ self.new.capacity }
        ensures rest_kept { self.new ≡ record self.old { capacity = self.new.capacity } }
    {
        self.blocks.reserve(additional)
    }

    /// Puts a block of the thread at the end of the object's queue.
    pub fn link(&mut self, thread: ThreadId, object: ObjectNumber) -> BlockNumber
        requires there { object < length self.old.lists }
        requires room { HasRoomFor self.old 1 }
        ensures lists { self.new.lists ≡ slice_set self.old.lists object
            (list_at self.old object ++ record { number = result; thread = thread } ∷ []) }
        ensures takes { TakesRoom self.old self.new 1 }
        ensures distinct { AreOrderly self.new }
    {
        let at = object.get() as usize;
        attach(&mut self.blocks, &mut self.ends[at], thread, object)
    }

    /// Takes a block out of its object's queue. Answers the thread of the block after it.
    pub fn unlink(&mut self, object: ObjectNumber, number: BlockNumber) -> Option<ThreadId>
        requires linked { HasNumber (list_at self.old object) number }
        requires countable { self.old.touched + 3 < 2 ^ 64 }
        ensures lists { self.new.lists ≡ slice_set self.old.lists object (without number (list_at self.old object)) }
        ensures gives { GivesRoom self.old self.new 1 }
        ensures reached { ReachesMore 1 3 self.old.touched self.new.touched }
        ensures next { result ≡ thread_after (list_at self.old object) number }
        ensures distinct { AreOrderly self.new }
    {
        let at = object.get() as usize;
        detach(
            &mut self.blocks,
            &mut self.ends[at],
            &mut self.touched,
            object,
            number,
        )
    }

    /// The thread whose wait on the object began first.
    pub fn first(&self, object: ObjectNumber) -> Option<ThreadId>
        ensures { result ≡ first_thread (list_at self.now object) }
    {
        let ends = self.ends.get(object.get() as usize)?;
        thread_in(&self.blocks, ends.first)
    }

    /// The thread after this block, in the object's queue.
    pub fn next(&self, object: ObjectNumber, number: BlockNumber) -> Option<ThreadId>
        requires { HasNumber (list_at self.now object) number }
        ensures { result ≡ thread_after (list_at self.now object) number }
    {
        let next = self.blocks[number.get()].next;
        thread_in(&self.blocks, next)
    }

    /// How many blocks the object has.
    pub fn count(&self, object: ObjectNumber) -> usize
        ensures { result ≡ length (list_at self.now object) }
    {
        match self.ends.get(object.get() as usize) {
            Some(ends) => count_blocks(&self.blocks, ends),
            None => 0,
        }
    }

    /// Whether the object has a block.
    pub fn has_some(&self, object: ObjectNumber) -> bool
        ensures { result ≡ nat_lt 0 (length (list_at self.now object)) }
    {
        match self.ends.get(object.get() as usize) {
            Some(ends) => !ends.first.is_none(),
            None => false,
        }
    }

    /// Whether the object has two blocks or more.
    pub fn has_two(&self, object: ObjectNumber) -> bool
        ensures { result ≡ nat_lt 1 (length (list_at self.now object)) }
    {
        match self.ends.get(object.get() as usize) {
            Some(ends) => !ends.first.is(ends.last),
            None => false,
        }
    }

    /// Makes room for the queues of `count` objects.
    pub fn reserve_objects(&mut self, count: usize) -> Result<(), AllocError>
        ensures room { OnOk result (count ≤ self.new.object_room) }
        ensures grows { self.old.object_room ≤ self.new.object_room }
        ensures rest_kept { self.new ≡ record self.old { object_room = self.new.object_room } }
    {
        let have = self.ends.len();
        if count <= have {
            return Ok(());
        }
        self.ends.reserve(count - have)
    }

    /// Gives each object below `count` a queue.
    pub fn add_objects(&mut self, count: usize)
        requires { count ≤ self.old.object_room }
        ensures there { count ≤ length self.new.lists }
        ensures kept { (h : ℕ) → list_at self.new h ≡ list_at self.old h }
        ensures takes { TakesRoom self.old self.new 0 }
    {
        add_ends(&mut self.ends, count);
    }

    /// How many blocks were reached since `touch_anew`.
    pub fn touched(&self) -> u64
        ensures { result ≡ self.now.touched }
    {
        self.touched
    }

    /// Sets that count to 0.
    pub fn touch_anew(&mut self)
        ensures { self.new ≡ record self.old { touched = 0 } }
    {
        self.touched = 0;
    }
}
