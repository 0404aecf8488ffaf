//! Which lanes are tried: of threads that stand alike only the lowest.
ghost use Rattle.std.specs.Prelude.{◌≡◌, ◌<◌, length};
ghost use Rattle.std.specs.List.{list_any};
ghost use Rattle.nt_objects.specs.Object.{set_by, has_ended};
ghost use Rattle.nt_machine.specs.Dispatcher.{state};
ghost use Rattle.nt_calls.specs.State.{object_at};
ghost use Rattle.nt_tables.specs.Handles.{names};
ghost use Rattle.nt_apart.specs.Footprint.{belongs};
ghost use Rattle.nt_lanes.specs.Lanes.{point_of, kind_of, any_below, has_apc, is_named_alone, is_bare, are_like, is_like, is_tried};

use crate::position::Position;
use nt_core::Core;
use nt_objects::{Object, Routine};
use nt_status::{Handle, ObjectNumber, ThreadId};
use nt_tables::Opened;

/// The lane's kind.
fn kind_of(kinds: &Vec<u32>, lane: u32) -> u32
    ensures { result ≡ kind_of kinds.now.items lane }
{
    match kinds.get(lane as usize) {
        Some(kind) => *kind,
        None => lane,
    }
}

/// Whether an APC is queued to a thread.
fn has_apcs(core: &Core) -> bool
    ensures { result ≡ any_below (has_apc (state core.now)) (state core.now).threads }
{
    let mut found = false;
    for thread in 0..core.threads() {
        found = found || core.apc_at(thread, 0).is_some();
    }
    found
}

/// Whether the routine is to run on the thread.
fn is_set_by(routine: &Option<Routine>, thread: ThreadId) -> bool
    ensures { result ≡ set_by routine.now thread }
{
    match routine {
        Some(routine) => routine.thread == thread,
        None => false,
    }
}

/// Whether it is a mutex that the thread owns, or a timer that it armed with a routine.
fn belongs(thread: ThreadId, object: &Object) -> bool
    ensures { result ≡ belongs thread object.now }
{
    match object {
        Object::Mutex {
            owner: Some(owner),
            depth: _,
            abandoned: _,
        } => *owner == thread,
        Object::Timer {
            manual: _,
            set: _,
            armed: Some(armed),
        } => is_set_by(&armed.routine, thread),
        _ => false,
    }
}

/// Whether one of the objects belongs to the thread.
fn one_belongs(objects: &[Object], thread: ThreadId) -> bool
    ensures { result ≡ list_any (belongs thread) objects.now }
{
    objects.iter().any(|object| belongs(thread, object))
}

/// Whether the thread has ended.
fn has_ended(objects: &[Object], thread: u32) -> bool
    ensures { result ≡ has_ended (object_at objects.now thread) }
{
    match objects.get(thread as usize) {
        Some(object) => object.has_ended(),
        None => false,
    }
}

/// Whether the handle names the thread's own object.
fn names_own(opened: Option<Opened>, thread: u32) -> bool
    ensures { result ≡ names thread opened }
{
    match opened {
        Some(opened) => opened.object.get() == thread,
        None => false,
    }
}

/// Whether no handle names the thread but its own.
fn is_named_alone(core: &Core, thread: u32) -> bool
    ensures { result ≡ is_named_alone (state core.now) thread }
{
    let own = names_own(core.opened(Handle::new(thread)), thread);
    core.handles_of(ObjectNumber::new(thread)) == if own { 1 } else { 0 }
}

/// Whether the thread is bare: with it nothing goes but its own line.
fn is_bare(core: &Core, thread: u32) -> bool
    ensures { result ≡ is_bare (state core.now) thread }
{
    core.stands();
    if thread >= core.threads() || has_ended(core.objects(), thread) {
        return false;
    }
    !core.is_waiting(thread)
        && core.first_on(ObjectNumber::new(thread)).is_none()
        && is_named_alone(core, thread)
        && !one_belongs(core.objects(), ThreadId::new(thread as u16))
        && !has_apcs(core)
}

/// Whether both handles are their threads' own, with the same rights, or both are closed.
fn are_like(a: u32, b: u32, first: Option<Opened>, second: Option<Opened>) -> bool
    ensures { result ≡ are_like a b first second }
{
    match first {
        Some(x) => match second {
            Some(y) => x.object.get() == a && y.object.get() == b && x.access == y.access,
            None => false,
        },
        None => second.is_none(),
    }
}

/// Whether the lower thread is like this lane's: bare too, at the same place of the same line, with a handle of the same rights.
fn is_like(kinds: &Vec<u32>, position: &Position, lower: u32, lane: u32) -> bool
    requires low { lower < length position.now.places.items }
    requires there { lane < length position.now.places.items }
    ensures { result ≡ is_like kinds.now.items (point_of position.now) lower lane }
{
    let core = &position.core;
    kind_of(kinds, lower) == kind_of(kinds, lane)
        && position.places[lower as usize] == position.places[lane as usize]
        && core.is_handing(lower) == core.is_handing(lane)
        && are_like(
            lower,
            lane,
            core.opened(Handle::new(lower)),
            core.opened(Handle::new(lane)),
        )
        && is_bare(core, lower)
}

/// Whether a lower thread is like this lane's.
fn has_lower(kinds: &Vec<u32>, position: &Position, lane: u32) -> bool
    requires there { lane < length position.now.places.items }
    ensures { result ≡ any_below (λ lower. is_like kinds.now.items (point_of position.now) lower lane) lane }
{
    let mut found = false;
    for lower in 0..lane {
        found = found || is_like(kinds, position, lower, lane);
    }
    found
}

/// Whether the lane is tried: where a lower thread is like its own, that one is enough.
pub fn is_tried(kinds: &Vec<u32>, position: &Position, lane: u32) -> bool
    requires there { lane < length position.now.places.items }
    ensures { result ≡ is_tried kinds.now.items (point_of position.now) lane }
{
    kind_of(kinds, lane) == lane
        || !is_bare(&position.core, lane)
        || !has_lower(kinds, position, lane)
}
