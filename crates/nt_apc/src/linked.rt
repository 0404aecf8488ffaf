//! The inboxes of all threads and the places of all timers, which name each other.
ghost use Rattle.std.specs.Prelude.{◌≡◌, ◌↔◌, true, ◌≢◌, ◌<◌, ℕ, Some, None, OnOk, OnErr, IfOk, length, false, vec_capacity};
ghost use Rattle.nt_apc.specs.Queues.{pushed, oldest_taken, cleared, withdrawn, withdrawn_at, given_up, has_from, oldest, apc_queue_of, place_of, is_at};
ghost use Rattle.nt_apc.specs.Place.{inbox_at, place_at, index_at, thread_of_place, queues_in, threads_in, AreApcsSound, KeepsSound, HasRoomForPlace};

use crate::apc::{Apc, Queued};
use crate::inbox::Inbox;
use crate::place::{
    self, Place, index_at, is_queued, mark, place_of, set_index, vacate, vacate_all,
};
use nt_status::{ObjectNumber, ThreadId};
use std::alloc::{AllocError, Global};

/// Queues an APC that is no timer's to t, last.
pub fn push(inboxes: &mut [Inbox], t: ThreadId, apc: Apc) -> Result<(), AllocError>
    requires { t < length inboxes.old }
    ensures sound { KeepsSound inboxes.old inboxes.new }
    ensures ok { OnOk result (queues_in inboxes.new
        ≡ pushed (queues_in inboxes.old) t (record { apc = apc; timer = None })) }
    ensures err { OnErr result (queues_in inboxes.new ≡ queues_in inboxes.old) }
{
    inboxes[t.get() as usize].push(apc)?;
    Ok(())
}

/// Queues the timer's APC in its place.
pub fn push_promised(
    inboxes: &mut [Inbox],
    places: &mut [Option<Place>],
    t: ThreadId,
    timer: ObjectNumber,
    apc: Apc,
)
    requires sound { AreApcsSound inboxes.old places.old }
    requires placed { thread_of_place (place_at places.old timer) ≡ Some t }
    requires none { has_from timer (inbox_at inboxes.old t).queue ≡ false }
    ensures sound { AreApcsSound inboxes.new places.new }
    ensures queues { queues_in inboxes.new
        ≡ pushed (queues_in inboxes.old) t (record { apc = apc; timer = Some timer }) }
    ensures threads { threads_in places.new ≡ threads_in places.old }
{
    inboxes[t.get() as usize].push_promised(timer, apc);
    mark(places, timer, true);
}

/// Removes the timer's APC from t's queue. Its place stays.
pub fn withdraw(
    inboxes: &mut [Inbox],
    places: &mut [Option<Place>],
    t: ThreadId,
    timer: ObjectNumber,
)
    requires { AreApcsSound inboxes.old places.old }
    ensures sound { AreApcsSound inboxes.new places.new }
    ensures queues { queues_in inboxes.new ≡ withdrawn_at (queues_in inboxes.old) t timer }
    ensures inboxes { (u : ℕ) → u ≢ t → inbox_at inboxes.new u ≡ inbox_at inboxes.old u }
    ensures none { has_from timer (inbox_at inboxes.new t).queue ≡ false }
    ensures threads { threads_in places.new ≡ threads_in places.old }
    ensures index { index_at t (place_at places.new timer) ≡ index_at t (place_at places.old timer) }
{
    if is_queued(places, t, timer) {
        inboxes[t.get() as usize].withdraw(timer);
        mark(places, timer, false);
    }
}

/// Takes the oldest APC of t. A timer's place stays.
pub fn next(inboxes: &mut [Inbox], places: &mut [Option<Place>], t: ThreadId) -> Option<Queued>
    requires sound { AreApcsSound inboxes.old places.old }
    requires thread { t < length inboxes.old }
    ensures sound { AreApcsSound inboxes.new places.new }
    ensures oldest { result ≡ oldest (apc_queue_of (queues_in inboxes.old) t) }
    ensures queues { queues_in inboxes.new ≡ oldest_taken (queues_in inboxes.old) t }
    ensures threads { threads_in places.new ≡ threads_in places.old }
{
    let Some(queued) = inboxes[t.get() as usize].next() else {
        return None;
    };
    let Some(timer) = queued.timer else {
        return Some(queued);
    };
    mark(places, timer, false);
    Some(queued)
}

/// Takes the timer's place in t's inbox away, where no APC of it stands.
fn unlist(
    inboxes: &mut [Inbox],
    places: &mut [Option<Place>],
    t: ThreadId,
    timer: ObjectNumber,
    index: usize,
)
    requires sound { AreApcsSound inboxes.old places.old }
    requires index { index_at t (place_at places.old timer) ≡ Some index }
    requires none { has_from timer (inbox_at inboxes.old t).queue ≡ false }
    ensures sound { AreApcsSound inboxes.new places.new }
    ensures queues { queues_in inboxes.new ≡ queues_in inboxes.old }
    ensures inboxes { (u : ℕ) → u ≢ t → inbox_at inboxes.new u ≡ inbox_at inboxes.old u }
    ensures gone { place_of (threads_in places.new) timer ≡ None }
    ensures others { (m : ℕ) → m ≢ timer → place_of (threads_in places.new) m ≡ place_of (threads_in places.old) m }
{
    vacate(places, timer);
    let Some(moved) = inboxes[t.get() as usize].give_up(index) else {
        return;
    };
    set_index(places, moved, index);
}

/// Gives up the timer's place in t's queue, and removes its APC there.
pub fn forget(inboxes: &mut [Inbox], places: &mut [Option<Place>], t: ThreadId, timer: ObjectNumber)
    requires { AreApcsSound inboxes.old places.old }
    ensures sound { AreApcsSound inboxes.new places.new }
    ensures queues { queues_in inboxes.new ≡ withdrawn_at (queues_in inboxes.old) t timer }
    ensures inboxes { (u : ℕ) → u ≢ t → inbox_at inboxes.new u ≡ inbox_at inboxes.old u }
    ensures gone { place_of (threads_in places.new) timer ≡ given_up t (place_of (threads_in places.old) timer) }
    ensures others { (m : ℕ) → m ≢ timer → place_of (threads_in places.new) m ≡ place_of (threads_in places.old) m }
{
    withdraw(inboxes, places, t, timer);
    let Some(index) = index_at(places, t, timer) else {
        return;
    };
    unlist(inboxes, places, t, timer, index);
}

/// Notes a new place of the timer in t's inbox, for which there is room.
fn list(inboxes: &mut [Inbox], places: &mut [Option<Place>], t: ThreadId, timer: ObjectNumber)
    requires sound { AreApcsSound inboxes.old places.old }
    requires room { HasRoomForPlace inboxes.old places.old t timer }
    requires none { place_at places.old timer ≡ None }
    ensures sound { AreApcsSound inboxes.new places.new }
    ensures queues { queues_in inboxes.new ≡ queues_in inboxes.old }
    ensures here { place_of (threads_in places.new) timer ≡ Some t }
    ensures others { (m : ℕ) → m ≢ timer → place_of (threads_in places.new) m ≡ place_of (threads_in places.old) m }
{
    let at = t.get() as usize;
    places[timer.get() as usize] = Some(Place {
        thread: t,
        index: inboxes[at].timers().len(),
        queued: false,
    });
    inboxes[at].promise(timer);
}

/// Removes all APCs of t, and takes all places in its inbox away.
pub fn clear(inboxes: &mut [Inbox], places: &mut [Option<Place>], t: ThreadId)
    requires sound { AreApcsSound inboxes.old places.old }
    requires thread { t < length inboxes.old }
    ensures sound { AreApcsSound inboxes.new places.new }
    ensures queues { queues_in inboxes.new ≡ cleared (queues_in inboxes.old) t }
    ensures places { (m : ℕ) → place_of (threads_in places.new) m ≡ given_up t (place_of (threads_in places.old) m) }
{
    let inbox = &mut inboxes[t.get() as usize];
    vacate_all(places, inbox.timers());
    inbox.clear();
}

/// Gives up the timer's place, in whose queue it may be, and removes its APC there.
fn give_up(inboxes: &mut [Inbox], places: &mut [Option<Place>], timer: ObjectNumber)
    requires { AreApcsSound inboxes.old places.old }
    ensures sound { AreApcsSound inboxes.new places.new }
    ensures queues { queues_in inboxes.new ≡ withdrawn (queues_in inboxes.old) timer }
    ensures inboxes { (u : ℕ) → is_at u (place_of (threads_in places.old) timer) ≡ false
        → inbox_at inboxes.new u ≡ inbox_at inboxes.old u }
    ensures gone { place_at places.new timer ≡ None }
    ensures others { (m : ℕ) → m ≢ timer → place_of (threads_in places.new) m ≡ place_of (threads_in places.old) m }
{
    if let Some(place) = place_of(places, timer) {
        forget(inboxes, places, place.thread, timer);
    }
}

/// Makes every growth that a place of this timer in t's inbox needs. Nothing but room changes.
fn make_room(
    inboxes: &mut [Inbox],
    places: &mut Vec<Option<Place>>,
    t: ThreadId,
    timer: ObjectNumber,
) -> Result<(), AllocError>
    requires { t < length inboxes.old }
    ensures sound { KeepsSound inboxes.old inboxes.new }
    ensures queues { queues_in inboxes.new ≡ queues_in inboxes.old }
    ensures items { places.new.items ≡ places.old.items }
    ensures place { OnOk result (timer < vec_capacity places.new) }
    ensures room { OnOk result (0 < (inbox_at inboxes.new t).room) }
{
    place::reserve(places, timer)?;
    inboxes[t.get() as usize].reserve()?;
    Ok(())
}

/// Moves the timer's place to t's inbox, for which there is room.
fn move_place(inboxes: &mut [Inbox], places: &mut [Option<Place>], t: ThreadId, timer: ObjectNumber)
    requires sound { AreApcsSound inboxes.old places.old }
    requires room { HasRoomForPlace inboxes.old places.old t timer }
    requires elsewhere { is_at t (place_of (threads_in places.old) timer) ≡ false }
    ensures sound { AreApcsSound inboxes.new places.new }
    ensures queues { queues_in inboxes.new ≡ withdrawn (queues_in inboxes.old) timer }
    ensures here { place_of (threads_in places.new) timer ≡ Some t }
    ensures others { (m : ℕ) → m ≢ timer → place_of (threads_in places.new) m ≡ place_of (threads_in places.old) m }
{
    give_up(inboxes, places, timer);
    list(inboxes, places, t, timer);
}

/// Promises the timer's APC a place in t's queue, where it has none there. A place in another
/// queue is given up.
pub fn promise(
    inboxes: &mut [Inbox],
    places: &mut Vec<Option<Place>>,
    t: ThreadId,
    timer: ObjectNumber,
) -> Result<(), AllocError>
    requires sound { AreApcsSound inboxes.old places.old.items }
    requires thread { t < length inboxes.old }
    requires elsewhere { is_at t (place_of (threads_in places.old.items) timer) ≡ false }
    ensures sound { AreApcsSound inboxes.new places.new.items }
    ensures queues { OnOk result (queues_in inboxes.new ≡ withdrawn (queues_in inboxes.old) timer) }
    ensures here { OnOk result (place_of (threads_in places.new.items) timer ≡ Some t) }
    ensures others { OnOk result ((m : ℕ) → m ≢ timer
        → place_of (threads_in places.new.items) m ≡ place_of (threads_in places.old.items) m) }
    ensures err { OnErr result ((queues_in inboxes.new ≡ queues_in inboxes.old)
        × (threads_in places.new.items ≡ threads_in places.old.items)) }
{
    make_room(inboxes, places, t, timer)?;
    // Nothing can fail from here on.
    place::extend(places, timer);
    move_place(inboxes, places, t, timer);
    Ok(())
}

/// The same inboxes in memory of their own, with room for their promises.
pub fn copy(alloc: Global, inboxes: &[Inbox]) -> Result<Vec<Inbox>, AllocError>
    ensures queues { IfOk result (λ copied. queues_in copied.items ≡ queues_in inboxes.now) }
    ensures sound { IfOk result (λ copied. KeepsSound inboxes.now copied.items) }
{
    let mut copied = Vec::with_capacity(alloc, inboxes.len())?;
    for inbox in inboxes {
        copied.push_reserved(inbox.copy()?);
    }
    Ok(copied)
}

/// Whether the same APCs are queued to each thread, in the same order.
pub fn are_like(inboxes: &[Inbox], others: &[Inbox]) -> bool
    ensures { (result ≡ true) ↔ (queues_in inboxes.now ≡ queues_in others.now) }
{
    if inboxes.len() != others.len() {
        return false;
    }
    for i in 0..inboxes.len() {
        if !inboxes[i].is_like(&others[i]) {
            return false;
        }
    }
    true
}
