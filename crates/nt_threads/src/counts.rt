//! What the program tells of a history.
ghost use Rattle.std.specs.Prelude.{◌≡◌, false, get_or, set, IfOk};
ghost use Rattle.nt_calls.specs.Moves.{one_if};
ghost use Rattle.nt_threads.specs.Counts.{abandoned, acquired, acquires, ends_abandoned, is_release, is_taken, is_wait_for, posted, posts_in, mutex_releases, tells_abandoned, waiting_after};

use nt_core::{Act, Call, Reply, WaitCall};
use nt_mail::{PackedEntry, ReadEntry};
use nt_status::{Handle, Refusal, Status, ThreadId};
use std::alloc::{AllocError, Global};

/// What stands in a history.
#[derive(Clone, Copy, Debug, Default, PartialEq, Eq)]
pub struct Counts {
    /// How often the workers acquired the mutex.
    pub acquired: u64,
    /// How many mutex releases were not refused.
    pub released: u64,
    /// By how much semaphores were released in all.
    pub posted: u128,
    /// How many waits ended with an abandoned mutex.
    pub abandoned: u64,
}

/// Counts what stands in the entries, of `threads` threads and this mutex.
#[tactic(auto, using(crate::proofs::Counting::counted_none))]
pub fn counts_of(
    alloc: Global,
    threads: u32,
    mutex: Handle,
    entries: &[PackedEntry],
) -> Result<Counts, AllocError>
    ensures acquired { IfOk result (λ c. c.acquired ≡ acquired threads mutex entries.now) }
    ensures released { IfOk result (λ c. c.released ≡ mutex_releases entries.now) }
    ensures posted { IfOk result (λ c. c.posted ≡ posted entries.now) }
    ensures abandoned { IfOk result (λ c. c.abandoned ≡ abandoned entries.now) }
{
    let mut waiting = Vec::from_elem(alloc, false, threads as usize)?;
    let mut acquired = 0_u64;
    let mut released = 0_u64;
    let mut posted = 0_u128;
    let mut abandoned = 0_u64;
    for entry in entries {
        acquired += one_if(acquires(mutex, &mut waiting, entry));
        released += one_if(is_release(entry));
        posted += u128::from(posts_in(entry));
        abandoned += one_if(is_abandoned(entry));
    }
    Ok(Counts {
        acquired,
        released,
        posted,
        abandoned,
    })
}

/// One where it is so, else none.
fn one_if(is: bool) -> u64
    ensures { result ≡ one_if is }
{
    if is { 1 } else { 0 }
}

/// Whether the entry tells of a mutex release that was not refused.
fn is_release(entry: &PackedEntry) -> bool
    ensures { result ≡ is_release entry.now }
{
    match entry.read() {
        ReadEntry::Called {
            who: _,
            call: Call::Act(Act::ReleaseMutex(_)),
            result,
        } => result.is_ok(),
        _ => false,
    }
}

/// By how much the entry tells that a semaphore was released.
fn posts_in(entry: &PackedEntry) -> u32
    ensures { result ≡ posts_in entry.now }
{
    match entry.read() {
        ReadEntry::Called {
            who: _,
            call: Call::Act(
                Act::ReleaseSemaphore {
                    semaphore: _,
                    count,
                },
            ),
            result,
        } => {
            if result.is_ok() {
                count.unsigned_abs()
            } else {
                0
            }
        }
        _ => 0,
    }
}

/// Whether a wait that ended so has its object.
fn is_taken(status: Status) -> bool
    ensures { result ≡ is_taken status }
{
    status.code() < 192
}

/// Whether a wait that ended so has an abandoned mutex.
fn tells_abandoned(status: Status) -> bool
    ensures { result ≡ tells_abandoned status }
{
    128 <= status.code() && status.code() < 192
}

/// Whether the entry tells of a wait that ended with an abandoned mutex.
fn is_abandoned(entry: &PackedEntry) -> bool
    ensures { result ≡ ends_abandoned entry.now }
{
    match entry.read() {
        ReadEntry::Called {
            who: _,
            call: _,
            result,
        } => match &result {
            Ok(Reply::Status(status)) => tells_abandoned(*status),
            _ => false,
        },
        ReadEntry::Granted { who: _, status } => tells_abandoned(status),
        _ => false,
    }
}

/// Whether the call waits for this object alone.
fn is_wait_for(object: Handle, call: &Call) -> bool
    ensures { result ≡ is_wait_for object call.now }
{
    match call {
        Call::Wait(WaitCall::Objects { handles, .. }) => handles.as_slice() == [object].as_slice(),
        Call::Wait(WaitCall::Swap { object: other, .. }) => *other == object,
        _ => false,
    }
}

/// Notes whether the thread has a pending wait.
#[tactic(auto, using(crate::proofs::Counting::set_beyond))]
fn note(waiting: &mut Vec<bool>, who: ThreadId, waits: bool)
    ensures { waiting.new.items ≡ set waiting.old.items who waits }
{
    let place = usize::from(who.get());
    if place < waiting.len() {
        waiting[place] = waits;
    }
}

/// Whether the thread has a pending wait.
#[tactic(auto, using(crate::proofs::Counting::get_beyond))]
fn is_waiting(waiting: &[bool], who: ThreadId) -> bool
    ensures { result ≡ get_or waiting.now who false }
{
    let place = usize::from(who.get());
    place < waiting.len() && waiting[place]
}

/// Whether the entry tells that a worker acquired the mutex. It notes who waits for it.
fn acquires(mutex: Handle, waiting: &mut Vec<bool>, entry: &PackedEntry) -> bool
    ensures acquires { result ≡ acquires mutex waiting.old.items entry.now }
    ensures waiting { waiting.new.items ≡ waiting_after mutex waiting.old.items entry.now }
{
    match entry.read() {
        ReadEntry::Called { who, call, result } => match &result {
            Ok(Reply::Status(status)) => {
                who.get() > 0 && is_wait_for(mutex, call) && is_taken(*status)
            }
            Ok(Reply::Pended) => {
                note(waiting, who, is_wait_for(mutex, call));
                false
            }
            _ => false,
        },
        ReadEntry::Granted { who, status } => {
            let acquires = who.get() > 0 && is_waiting(waiting.as_slice(), who) && is_taken(status);
            note(waiting, who, false);
            acquires
        }
        ReadEntry::Handed { .. } | ReadEntry::Ticked { .. } | ReadEntry::Renewed { .. } => false,
    }
}
