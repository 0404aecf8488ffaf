ghost use Rattle.std.specs.Prelude.{◌≡◌, ◌<◌, ◌≤◌, [], length, replicate, slice_get, slice_set, IfOk, OnOk, OnErr, Contains};
ghost use Rattle.nt_tables.specs.Owned.{Owned, list_of, IsUnowned, after_first, added, removed};

use crate::links::{Link, add_links, enter, first_of, leave, no_firsts};
use crate::optional::OptionalMutex;
use nt_status::{ObjectNumber, ThreadId};
use std::alloc::{AllocError, Global};
use std::marker::Model;

/// For each thread the mutexes that it owns.
///
/// A mutex comes to a list and leaves it in a few steps, however long the list is, and without memory once room was made
/// for it: each mutex names those beside it.
#[derive(Drop)]
pub struct Owners {
    firsts: Vec<OptionalMutex>,
    links: Vec<Link>,
}

impl Model for Owners {
    ghost use Rattle.std.specs.Prelude.{length};
    ghost use Rattle.nt_tables.specs.Owned.{Owned};
    ghost use Rattle.nt_tables.specs.Links.{lists_in, AreOwnersSound};

    ghost Value = { Owned };

    ghost view = { λ o. record { lists = lists_in o.firsts.items o.links.items; room = length o.links.items } };

    ghost invariant = { λ o. AreOwnersSound o.firsts.items o.links.items };
}

impl Owners {
    /// For `threads` threads, which own nothing.
    pub fn new(alloc: Global, threads: usize) -> Result<Self, AllocError>
        ensures lists { IfOk result (λ owners. owners.lists ≡ replicate threads []) }
    {
        Ok(Owners {
            firsts: no_firsts(alloc, threads)?,
            links: Vec::new(alloc),
        })
    }

    /// Makes room for each mutex below `count`. Where memory is refused nothing changes.
    pub fn make_room(&mut self, count: usize) -> Result<(), AllocError>
        ensures room { OnOk result (count ≤ self.new.room) }
        ensures lists { self.new.lists ≡ self.old.lists }
        ensures kept { self.old.room ≤ self.new.room }
        ensures err { OnErr result (self.new ≡ self.old) }
    {
        let have = self.links.len();
        if count <= have {
            return Ok(());
        }
        self.links.reserve(count - have)?;
        add_links(&mut self.links, count);
        Ok(())
    }

    /// The thread owns this mutex, which nobody owned, from now on.
    pub fn add(&mut self, thread: ThreadId, mutex: ObjectNumber)
        requires thread { thread < length self.old.lists }
        requires room { mutex < self.old.room }
        requires unowned { IsUnowned self.old.lists mutex }
        ensures { self.new ≡ record self.old { lists = added self.old.lists thread mutex } }
    {
        enter(&mut self.firsts, &mut self.links, thread, mutex);
    }

    /// The thread no longer owns this mutex.
    pub fn remove(&mut self, thread: ThreadId, mutex: ObjectNumber)
        requires { Contains (list_of self.old.lists thread) mutex }
        ensures { self.new ≡ record self.old { lists = removed self.old.lists thread mutex } }
    {
        leave(&mut self.firsts, &mut self.links, thread, mutex);
    }

    /// The mutex that came last of those that the thread owns.
    pub fn first(&self, thread: ThreadId) -> Option<ObjectNumber>
        ensures { result ≡ slice_get (list_of self.now.lists thread) 0 }
    {
        first_of(&self.firsts, thread)
    }

    /// Takes away the mutex that came last of those that the thread owns.
    pub fn pop(&mut self, thread: ThreadId) -> Option<ObjectNumber>
        ensures first { result ≡ slice_get (list_of self.old.lists thread) 0 }
        ensures rest { self.new ≡
            record self.old { lists = slice_set self.old.lists thread (after_first (list_of self.old.lists thread)) } }
    {
        let first = self.first(thread)?;
        self.remove(thread, first);
        Some(first)
    }

    /// The same lists in memory of their own.
    pub fn copy(&self) -> Result<Self, AllocError>
        ensures { IfOk result (λ copied. copied ≡ self.now) }
    {
        Ok(Owners {
            firsts: self.firsts.clone()?,
            links: self.links.clone()?,
        })
    }
}
