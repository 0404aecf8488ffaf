//! Where each timer's APC has its place, by the timer's number.
ghost use Rattle.std.specs.Prelude.{◌≡◌, ℕ, ◌<◌, ◌+◌, None, OnOk, length, vec_len, vec_capacity};
ghost use Rattle.nt_apc.specs.Place.{place_at, threads_in, place_marked, moved_to, stands_at, index_at, vacated, all_vacated};

use nt_status::{ObjectNumber, ThreadId};
use std::alloc::AllocError;

/// The place of a timer's APC.
#[derive(Clone, Copy)]
pub struct Place {
    pub thread: ThreadId,
    /// Where the thread's inbox names the timer.
    pub index: usize,
    /// Whether the APC stands in the queue.
    pub queued: bool,
}

/// The place of this timer's APC, where it has one.
pub fn place_of(places: &[Option<Place>], timer: ObjectNumber) -> Option<Place>
    ensures { result ≡ place_at places.now timer }
{
    let at = timer.get() as usize;
    if at < places.len() { places[at] } else { None }
}

/// Whether this timer's APC stands in t's queue.
pub fn is_queued(places: &[Option<Place>], t: ThreadId, timer: ObjectNumber) -> bool
    ensures { result ≡ stands_at t (place_at places.now timer) }
{
    match place_of(places, timer) {
        Some(place) => place.thread == t && place.queued,
        None => false,
    }
}

/// Where t's inbox names this timer.
pub fn index_at(places: &[Option<Place>], t: ThreadId, timer: ObjectNumber) -> Option<usize>
    ensures { result ≡ index_at t (place_at places.now timer) }
{
    match place_of(places, timer) {
        Some(place) if place.thread == t => Some(place.index),
        _ => None,
    }
}

/// Takes this timer's place away.
pub fn vacate(places: &mut [Option<Place>], timer: ObjectNumber)
    ensures { places.new ≡ vacated places.old timer }
{
    let at = timer.get() as usize;
    if at < places.len() {
        places[at] = None;
    }
}

/// Takes these timers' places away.
pub fn vacate_all(places: &mut [Option<Place>], timers: &[ObjectNumber])
    ensures { places.new ≡ all_vacated places.old timers.now }
{
    for timer in timers {
        vacate(places, *timer);
    }
}

/// Notes whether this timer's APC stands in its queue.
pub fn mark(places: &mut [Option<Place>], timer: ObjectNumber, queued: bool)
    ensures places { places.new ≡ place_marked places.old timer queued }
    ensures threads { threads_in places.new ≡ threads_in places.old }
{
    if let Some(place) = place_of(places, timer) {
        places[timer.get() as usize] = Some(Place { queued, ..place });
    }
}

/// Notes where the thread's inbox names this timer now.
pub fn set_index(places: &mut [Option<Place>], timer: ObjectNumber, index: usize)
    ensures places { places.new ≡ moved_to places.old timer index }
    ensures threads { threads_in places.new ≡ threads_in places.old }
{
    if let Some(place) = place_of(places, timer) {
        places[timer.get() as usize] = Some(Place { index, ..place });
    }
}

/// Makes room for the place of this timer.
pub fn reserve(places: &mut Vec<Option<Place>>, timer: ObjectNumber) -> Result<(), AllocError>
    ensures items { places.new.items ≡ places.old.items }
    ensures room { OnOk result (timer < vec_capacity places.new) }
{
    let at = timer.get() as usize;
    if at < places.len() {
        return Ok(());
    }
    places.reserve(at + 1 - places.len())
}

/// Adds empty places up to this timer's.
pub fn extend(places: &mut Vec<Option<Place>>, timer: ObjectNumber)
    requires { timer < vec_capacity places.old }
    ensures there { timer < vec_len places.new }
    ensures kept { (m : ℕ) → place_at places.new.items m ≡ place_at places.old.items m }
{
    while places.len() <= timer.get() as usize {
        places.push_reserved(None);
    }
}
