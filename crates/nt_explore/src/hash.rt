//! A number for a position and a state, by which an equal one is looked for. Equal ones have equal numbers. Two others that have the same
//! number cost the search one of them made again, so it sees all in which states differ.
ghost use Rattle.std.specs.Prelude.{◌≡◌, Some, slice_get};
ghost use Rattle.std.specs.FinMap as map;
ghost use Rattle.nt_machine.specs.Dispatcher.{state};
ghost use Rattle.nt_apc.specs.Queues.{apc_queue_of};
ghost use Rattle.nt_tables.specs.Handles.{opened_at};
ghost use Rattle.nt_explore.specs.Hash.{mixed, mixed_long, low_half, mixed_flag, mixed_moment, mixed_thread, due_of, mixed_object, mixed_object_at, mixed_queue, mixed_apc, mixed_apcs, mixed_wait, mixed_handle, mixed_one_thread, mixed_one_object, mixed_places, mixed_threads, mixed_objects, mixed_handles, hash_of};
ghost use Rattle.nt_lanes.specs.Lanes.{point_at};

use nt_apc::Queued;
use nt_core::Core;
use nt_objects::{Armed, Object};
use nt_status::{Handle, ObjectNumber, ThreadId};

#[tactic(auto, unfolding(crate::specs::Hash::mixed))]
fn mixed(hash: u32, value: u32) -> u32
    ensures { result ≡ mixed hash value }
{
    let stirred = (hash ^ value).wrapping_mul(0x9E37_79B1);
    stirred ^ (stirred >> 15)
}

#[tactic(auto, unfolding(crate::specs::Hash::mixed_long))]
fn mixed_long(hash: u32, value: u64) -> u32
    ensures { result ≡ mixed_long hash value }
{
    let low = mixed(hash, (value & 0xFFFF_FFFF) as u32);
    mixed(low, ((value >> 32) & 0xFFFF_FFFF) as u32)
}

#[tactic(auto, unfolding(crate::specs::Hash::low_half))]
fn low_half(value: usize) -> u32
    ensures { result ≡ low_half value }
{
    (value & 0xFFFF_FFFF) as u32
}

fn mixed_flag(hash: u32, flag: bool) -> u32
    ensures { result ≡ mixed_flag hash flag }
{
    if flag { mixed(hash, 1) } else { mixed(hash, 0) }
}

/// A moment, and whether there is one.
fn mixed_moment(hash: u32, moment: Option<u64>) -> u32
    ensures { result ≡ mixed_moment hash moment }
{
    match moment {
        Some(moment) => mixed_long(mixed(hash, 1), moment),
        None => mixed(hash, 0),
    }
}

/// A thread, and whether there is one.
fn mixed_thread(hash: u32, thread: Option<ThreadId>) -> u32
    ensures { result ≡ mixed_thread hash thread }
{
    match thread {
        Some(thread) => mixed(hash, u32::from(thread.get()) + 1),
        None => mixed(hash, 0),
    }
}

fn due_of(armed: &Option<Armed>) -> Option<u64>
    ensures { result ≡ due_of armed.now }
{
    match armed {
        Some(armed) => Some(armed.due),
        None => None,
    }
}

fn hash_of_object(hash: u32, object: &Object) -> u32
    ensures { result ≡ mixed_object hash object.now }
{
    match object {
        Object::Event { set, .. } => mixed_flag(hash, *set),
        Object::Semaphore { count, .. } => mixed(mixed(hash, 2), count.unsigned_abs()),
        Object::Mutex {
            owner,
            depth,
            abandoned,
        } => {
            let owned = mixed_thread(mixed(hash, 3), *owner);
            mixed_flag(mixed(owned, *depth), *abandoned)
        }
        Object::Timer { set, armed, .. } => {
            let signaled = mixed_flag(mixed(hash, 4), *set);
            mixed_moment(signaled, due_of(armed))
        }
        Object::Thread { ended } => mixed_flag(mixed(hash, 5), *ended),
        Object::Gone => mixed(hash, 7),
    }
}

/// The object with this number, if there is one.
fn hash_of_object_at(hash: u32, objects: &[Object], number: usize) -> u32
    ensures { result ≡ mixed_object_at hash (slice_get objects.now number) }
{
    match objects.get(number) {
        Some(object) => hash_of_object(hash, object),
        None => hash,
    }
}

/// The threads that wait on the object, in their order.
fn hash_of_queue(hash: u32, core: &Core, object: ObjectNumber) -> u32
    ensures { result ≡ mixed_queue (state core.now).threads ((state core.now).queues object) hash
        (slice_get ((state core.now).queues object) 0) }
{
    let mut so_far = hash;
    let mut next = core.first_on(object);
    for _ in 0..core.threads() {
        so_far = mixed_thread(so_far, next);
        let Some(thread) = &next else {
            return so_far;
        };
        next = core.next_on(object, *thread);
    }
    so_far
}

fn hash_of_apc(hash: u32, queued: &Queued) -> u32
    ensures { result ≡ mixed_apc hash (Some queued.now) }
{
    mixed_long(mixed_long(hash, queued.apc.routine), queued.apc.arg)
}

/// The thread's APCs in their order.
fn hash_of_apcs(hash: u32, core: &Core, thread: u32) -> u32
    ensures { result ≡ mixed_apcs (apc_queue_of (state core.now).apcs thread) hash }
{
    let mut so_far = hash;
    for position in 0..usize::MAX {
        let Some(queued) = core.apc_at(thread, position) else {
            return so_far;
        };
        so_far = hash_of_apc(so_far, &queued);
    }
    so_far
}

/// Whether the thread waits, and until when.
fn hash_of_wait(hash: u32, core: &Core, thread: u32) -> u32
    ensures { result ≡ mixed_wait hash (map.get (state core.now).waits thread) }
{
    match core.waits_for(thread) {
        Some(wait) => mixed_moment(mixed(hash, 1), wait.deadline),
        None => mixed(hash, 0),
    }
}

/// The thread's wait, whether it may take APCs, and its APCs.
#[tactic(auto, unfolding(crate::specs::Hash::mixed_one_thread))]
fn hash_of_thread(hash: u32, core: &Core, thread: u32) -> u32
    ensures { result ≡ mixed_one_thread (state core.now) hash thread }
{
    let waiting = hash_of_wait(hash, core, thread);
    let handing = mixed_flag(waiting, core.is_handing(thread));
    hash_of_apcs(handing, core, thread)
}

/// The object with this number, and who waits on it.
#[tactic(auto, unfolding(crate::specs::Hash::mixed_one_object))]
fn hash_of_number(hash: u32, core: &Core, number: usize) -> u32
    ensures { result ≡ mixed_one_object (state core.now) hash number }
{
    let signaled = hash_of_object_at(hash, core.objects(), number);
    hash_of_queue(signaled, core, ObjectNumber::new(low_half(number)))
}

/// What the handle with this number names.
fn hash_of_handle(hash: u32, core: &Core, number: usize) -> u32
    ensures { result ≡ mixed_handle hash (opened_at (state core.now).handles (low_half number)) }
{
    match core.opened(Handle::new(low_half(number))) {
        Some(opened) => mixed(hash, opened.object.get()),
        None => mixed(hash, u32::MAX),
    }
}

fn hash_of_places(hash: u32, places: &[usize]) -> u32
    ensures { result ≡ mixed_places places.now hash }
{
    let mut so_far = hash;
    for i in 0..places.len() {
        so_far = mixed(so_far, low_half(places[i]));
    }
    so_far
}

fn hash_of_threads(hash: u32, core: &Core) -> u32
    ensures { result ≡ mixed_threads (state core.now) hash }
{
    let mut so_far = hash;
    for thread in 0..core.threads() {
        so_far = hash_of_thread(so_far, core, thread);
    }
    so_far
}

fn hash_of_objects(hash: u32, core: &Core) -> u32
    ensures { result ≡ mixed_objects (state core.now) hash }
{
    let mut so_far = hash;
    for number in 0..core.objects().len() {
        so_far = hash_of_number(so_far, core, number);
    }
    so_far
}

fn hash_of_handles(hash: u32, core: &Core) -> u32
    ensures { result ≡ mixed_handles (state core.now).handles hash }
{
    let mut so_far = hash;
    for number in 0..core.handles() {
        so_far = hash_of_handle(so_far, core, number);
    }
    so_far
}

/// Equal places and states have equal numbers.
#[tactic(auto, unfolding(crate::specs::Hash::hash_of))]
pub fn hash_of(core: &Core, places: &[usize]) -> u32
    ensures { result ≡ hash_of (point_at places.now core.now) }
{
    let moment = mixed_long(0, core.now().get());
    let placed = hash_of_places(moment, places);
    let waiting = hash_of_threads(placed, core);
    let signaled = hash_of_objects(waiting, core);
    hash_of_handles(signaled, core)
}
