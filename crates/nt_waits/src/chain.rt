//! The queue of one object: a chain of blocks.
ghost use Rattle.std.specs.Prelude.{◌≡◌, ◌≢◌, ℕ, ◌+◌, ◌<◌, ◌≤◌, ◌^◌, ◌++◌, ◌∷◌, [], length, Option, Some, None, vec_len, vec_capacity};
ghost use Rattle.nt_waits.specs.Sound.{ends_at};
ghost use Rattle.std.specs.Option.{ForSome, option_map};
ghost use Rattle.slab.specs.Slab.{get, ContainsKey, Updates, slab_len, HasRoomFor};
ghost use Rattle.nt_waits.specs.Chain.{IsRelinked};
ghost use Rattle.nt_waits.specs.Queue.{changed, removed_by, next_of, next_at, previous_at, owner_at, thread_of, links, IsQueue, IsRewritten, KeepsOthers};
ghost use Rattle.nt_waits.specs.Queues.{ReachesMore};
ghost use Rattle.nt_waits.specs.Link.{HasNumber, without};

use crate::block::{Block, BlockNumber, Change, Ends, OptionalBlock};
use nt_status::{ObjectNumber, ThreadId};
use slab::Slab;

/// Reaches a block, counts that, and changes the block. Answers what it was.
fn reach(blocks: &mut Slab<Block>, touched: &mut u64, number: BlockNumber, change: Change) -> Block
    requires there { ContainsKey blocks.old number }
    requires countable { touched.old + 1 < 2 ^ 64 }
    ensures was { get blocks.old number ≡ Some result }
    ensures updates { Updates blocks.old blocks.new number (changed change result) }
    ensures len { slab_len blocks.new + removed_by change ≡ slab_len blocks.old }
    ensures capacity { blocks.new.capacity ≡ blocks.old.capacity }
    ensures counted { touched.new ≡ touched.old + 1 }
{
    *touched += 1;
    let key = number.get();
    match change {
        Change::SetNext(next) => {
            let block = &mut blocks[key];
            let was = *block;
            block.next = next;
            was
        }
        Change::SetPrevious(previous) => {
            let block = &mut blocks[key];
            let was = *block;
            block.previous = previous;
            was
        }
        Change::Remove => blocks.remove(key),
    }
}

/// Makes `to` the block after `at`; with no `at` the first one.
fn set_next(
    blocks: &mut Slab<Block>,
    ends: &mut Ends,
    touched: &mut u64,
    at: OptionalBlock,
    to: OptionalBlock,
)
    requires there { ForSome at (ContainsKey blocks.old) }
    requires countable { touched.old + 1 < 2 ^ 64 }
    ensures forward { IsRelinked (next_at blocks.old ends.old) (next_at blocks.new ends.new) at to }
    ensures backward { (x : Option ℕ) → previous_at blocks.new ends.new x ≡ previous_at blocks.old ends.old x }
    ensures blocks { IsRewritten blocks.old blocks.new at }
    ensures reached { ReachesMore 0 1 touched.old touched.new }
{
    if at.is_none() {
        ends.first = to;
    } else {
        reach(blocks, touched, at.number(), Change::SetNext(to));
    }
}

/// Makes `to` the block before `at`; with no `at` the last one. Answers the thread of `at`.
fn set_previous(
    blocks: &mut Slab<Block>,
    ends: &mut Ends,
    touched: &mut u64,
    at: OptionalBlock,
    to: OptionalBlock,
) -> Option<ThreadId>
    requires there { ForSome at (ContainsKey blocks.old) }
    requires countable { touched.old + 1 < 2 ^ 64 }
    ensures backward { IsRelinked (previous_at blocks.old ends.old) (previous_at blocks.new ends.new) at to }
    ensures forward { (x : Option ℕ) → next_at blocks.new ends.new x ≡ next_at blocks.old ends.old x }
    ensures blocks { IsRewritten blocks.old blocks.new at }
    ensures reached { ReachesMore 0 1 touched.old touched.new }
    ensures thread { result ≡ option_map (λ k. thread_of (get blocks.old k)) at }
{
    if at.is_none() {
        ends.last = to;
        return None;
    }
    let was = reach(blocks, touched, at.number(), Change::SetPrevious(to));
    Some(was.thread)
}

/// Takes a block out of the queue of its object. Answers the thread of the block after it.
pub fn detach(
    blocks: &mut Slab<Block>,
    ends: &mut Ends,
    touched: &mut u64,
    object: ObjectNumber,
    number: BlockNumber,
) -> Option<ThreadId>
    requires queue { IsQueue blocks.old ends.old object (links blocks.old ends.old) }
    requires linked { HasNumber (links blocks.old ends.old) number }
    requires countable { touched.old + 3 < 2 ^ 64 }
    ensures queue { IsQueue blocks.new ends.new object (without number (links blocks.old ends.old)) }
    ensures others { KeepsOthers blocks.old blocks.new object }
    ensures len { slab_len blocks.new + 1 ≡ slab_len blocks.old }
    ensures reached { ReachesMore 1 3 touched.old touched.new }
    ensures next { result ≡ option_map (λ k. thread_of (get blocks.old k)) (next_of (get blocks.old number)) }
{
    let block = reach(blocks, touched, number, Change::Remove);
    set_next(blocks, ends, touched, block.previous, block.next);
    set_previous(blocks, ends, touched, block.next, block.previous)
}

/// Puts a block for the thread at the end of the queue of the object. Answers its number.
pub fn attach(
    blocks: &mut Slab<Block>,
    ends: &mut Ends,
    thread: ThreadId,
    object: ObjectNumber,
) -> BlockNumber
    requires queue { IsQueue blocks.old ends.old object (links blocks.old ends.old) }
    requires room { HasRoomFor blocks.old 1 }
    ensures queue { IsQueue blocks.new ends.new object
        (links blocks.old ends.old ++ record { number = result; thread = thread } ∷ []) }
    ensures elsewhere { (k : ℕ) → k ≢ result → ((thread : ℕ) → owner_at blocks.old k ≢ Some (thread, object))
        → get blocks.new k ≡ get blocks.old k }
    ensures fresh { get blocks.old result ≡ None }
    ensures len { slab_len blocks.new ≡ slab_len blocks.old + 1 }
    ensures capacity { blocks.new.capacity ≡ blocks.old.capacity }
{
    let key = blocks.insert_reserved(Block {
        thread,
        object,
        previous: ends.last,
        next: OptionalBlock::NONE,
    });
    // The room is a number above each key.
    let _room = blocks.capacity();
    let number = BlockNumber::new(key);
    let this = OptionalBlock::some(number);
    // What a beginning wait reaches is not counted: only `end` tells how many blocks it reached.
    let mut touched = 0;
    let last = ends.last;
    set_next(blocks, ends, &mut touched, last, this);
    ends.last = this;
    number
}

/// The thread of a block, if there is one.
pub fn thread_in(blocks: &Slab<Block>, number: OptionalBlock) -> Option<ThreadId>
    requires { ForSome number (ContainsKey blocks.now) }
    ensures { result ≡ option_map (λ k. thread_of (get blocks.now k)) number }
{
    if number.is_none() {
        None
    } else {
        Some(blocks[number.number().get()].thread)
    }
}

/// How many blocks the queue has.
pub fn count_blocks(blocks: &Slab<Block>, ends: &Ends) -> usize
    requires { (object : ℕ) × IsQueue blocks.now ends.now object (links blocks.now ends.now) }
    ensures { result ≡ length (links blocks.now ends.now) }
{
    // No more blocks lie there than fit.
    let _room = blocks.capacity();
    let mut count = 0;
    let mut at = ends.first;
    while !at.is_none() {
        count += 1;
        at = blocks[at.number().get()].next;
    }
    count
}

/// Makes ends, of no blocks, for each object below `count`.
pub fn add_ends(ends: &mut Vec<Ends>, count: usize)
    requires { count ≤ vec_capacity ends.old }
    ensures there { count ≤ vec_len ends.new }
    ensures kept { (h : ℕ) → ends_at ends.new.items h ≡ ends_at ends.old.items h }
    ensures capacity { vec_capacity ends.new ≡ vec_capacity ends.old }
{
    while ends.len() < count {
        ends.push_reserved(Ends {
            first: OptionalBlock::NONE,
            last: OptionalBlock::NONE,
        });
    }
}
