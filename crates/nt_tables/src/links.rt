//! The links of mutexes, and the changes of one list.
ghost use Rattle.std.specs.Prelude.{◌≡◌, ℕ, ◌<◌, ◌≤◌, ◌∷◌, None, IfOk, length, replicate, slice_set, vec_len, vec_capacity, Contains};
ghost use Rattle.std.specs.Option.{ForSome};
ghost use Rattle.nt_tables.specs.Owned.{without_mutex};
ghost use Rattle.nt_tables.specs.Links.{link_at, first_at, with_first, with_next, with_previous, list_in, lists_in, AreOwnersSound};

use crate::optional::OptionalMutex;
use nt_status::{ObjectNumber, ThreadId};
use std::alloc::{AllocError, Global};

/// Which mutexes stand beside one in its owner's list.
#[derive(Clone, Copy)]
pub struct Link {
    pub previous: OptionalMutex,
    pub next: OptionalMutex,
}

/// For each of `threads` threads: its list of mutexes has no first one.
pub fn no_firsts(alloc: Global, threads: usize) -> Result<Vec<OptionalMutex>, AllocError>
    ensures { IfOk result (λ firsts. firsts.items ≡ replicate threads None) }
{
    vec![in alloc; OptionalMutex::NONE; threads]
}

/// The first mutex of the thread.
pub fn first_of(firsts: &[OptionalMutex], thread: ThreadId) -> Option<ObjectNumber>
    ensures { result ≡ first_at firsts.now thread }
{
    match firsts.get(thread.get() as usize) {
        Some(first) => first.get(),
        None => None,
    }
}

/// Makes `to` the mutex after `at` in the thread's list; with no `at` the first.
fn set_next(
    firsts: &mut [OptionalMutex],
    links: &mut [Link],
    thread: ThreadId,
    at: OptionalMutex,
    to: OptionalMutex,
)
    requires thread { thread < length firsts.old }
    requires there { ForSome at (λ mutex. mutex < length links.old) }
    ensures firsts { firsts.new ≡ with_first firsts.old thread at to }
    ensures links { links.new ≡ with_next links.old at to }
{
    if at.is_none() {
        firsts[thread.get() as usize] = to;
    } else {
        let place = at.mutex().get() as usize;
        links[place] = Link {
            next: to,
            ..links[place]
        };
    }
}

/// Makes `to` the mutex before `at`.
fn set_previous(links: &mut [Link], at: OptionalMutex, to: OptionalMutex)
    requires there { ForSome at (λ mutex. mutex < length links.old) }
    ensures { links.new ≡ with_previous links.old at to }
{
    if !at.is_none() {
        let place = at.mutex().get() as usize;
        links[place] = Link {
            previous: to,
            ..links[place]
        };
    }
}

/// Puts a mutex that is in no list into the thread's list, first.
pub fn enter(
    firsts: &mut [OptionalMutex],
    links: &mut [Link],
    thread: ThreadId,
    mutex: ObjectNumber,
)
    requires sound { AreOwnersSound firsts.old links.old }
    requires thread { thread < length firsts.old }
    requires room { mutex < length links.old }
    requires unowned { (t : ℕ) → Contains (list_in firsts.old links.old t) mutex → ⊥ }
    ensures sound { AreOwnersSound firsts.new links.new }
    ensures lists { lists_in firsts.new links.new
        ≡ slice_set (lists_in firsts.old links.old) thread (mutex ∷ list_in firsts.old links.old thread) }
{
    let first = firsts[thread.get() as usize];
    links[mutex.get() as usize] = Link {
        previous: OptionalMutex::NONE,
        next: first,
    };
    set_previous(links, first, OptionalMutex::some(mutex));
    firsts[thread.get() as usize] = OptionalMutex::some(mutex);
}

/// Takes a mutex out of the thread's list.
pub fn leave(
    firsts: &mut [OptionalMutex],
    links: &mut [Link],
    thread: ThreadId,
    mutex: ObjectNumber,
)
    requires sound { AreOwnersSound firsts.old links.old }
    requires owned { Contains (list_in firsts.old links.old thread) mutex }
    ensures sound { AreOwnersSound firsts.new links.new }
    ensures lists { lists_in firsts.new links.new
        ≡ slice_set (lists_in firsts.old links.old) thread (without_mutex mutex (list_in firsts.old links.old thread)) }
{
    let link = links[mutex.get() as usize];
    set_next(firsts, links, thread, link.previous, link.next);
    set_previous(links, link.next, link.previous);
}

/// Makes links, of mutexes that stand alone, for each number below `count`.
pub fn add_links(links: &mut Vec<Link>, count: usize)
    requires { count ≤ vec_capacity links.old }
    ensures there { count ≤ vec_len links.new }
    ensures longer { vec_len links.old ≤ vec_len links.new }
    ensures kept { (m : ℕ) → link_at links.new.items m ≡ link_at links.old.items m }
{
    while links.len() < count {
        links.push_reserved(Link {
            previous: OptionalMutex::NONE,
            next: OptionalMutex::NONE,
        });
    }
}
