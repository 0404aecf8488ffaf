//! Whether two dispatchers are in equal states.
ghost use Rattle.std.specs.Prelude.{◌≡◌, ◌↔◌, ◌<◌, ◌≤◌, ℕ, true, length};
ghost use Rattle.nt_status.specs.declared.limits.TheConstants.{MAX_HANDLES};
ghost use Rattle.nt_core.specs.Alike.{AreAlike};
ghost use Rattle.std.specs.FinMap as map;
ghost use Rattle.nt_waits.specs.Waits.{queue_of};
ghost use Rattle.nt_machine.specs.Dispatcher.{state};

use crate::dispatcher::Core;
use nt_machine::Machine;
use nt_objects::Object;
use nt_status::ObjectNumber;
use nt_waits::{Wait, WaitTable};

/// Whether the same objects are named, in the same order.
fn numbers_alike(numbers: &[ObjectNumber], others: &[ObjectNumber]) -> bool
    ensures { (result ≡ true) ↔ (numbers.now ≡ others.now) }
{
    if numbers.len() != others.len() {
        return false;
    }
    for i in 0..numbers.len() {
        if numbers[i] != others[i] {
            return false;
        }
    }
    true
}

/// Whether the two waits are for the same, in the same mode, with the same deadline.
fn is_like_wait(wait: &Wait, other: &Wait) -> bool
    ensures { (result ≡ true) ↔ (wait.now ≡ other.now) }
{
    if wait.all != other.all || wait.alertable != other.alertable {
        return false;
    }
    if wait.deadline != other.deadline {
        return false;
    }
    numbers_alike(wait.objects.as_slice(), other.objects.as_slice())
}

/// Whether the thread waits in the same way in both, or in none.
fn waits_alike(core: &Core, other: &Core, thread: u32) -> bool
    ensures { (result ≡ true) ↔ (map.get (state core.now).waits thread ≡ map.get (state other.now).waits thread) }
{
    match (core.waits_for(thread), other.waits_for(thread)) {
        (Some(wait), Some(others)) => is_like_wait(wait, others),
        (None, None) => true,
        _ => false,
    }
}

/// Whether the same waits pend.
fn all_wait_alike(core: &Core, other: &Core) -> bool
    requires { (state core.now).threads ≡ (state other.now).threads }
    ensures { (result ≡ true) ↔ ((state core.now).waits ≡ (state other.now).waits) }
{
    core.stands();
    other.stands();
    for thread in 0..core.threads() {
        if !waits_alike(core, other, thread) {
            return false;
        }
    }
    true
}

/// Whether the same threads stand in the queue of this object, in the same order.
fn queue_alike(waits: &WaitTable, others: &WaitTable, object: ObjectNumber) -> bool
    ensures { (result ≡ true) ↔ (queue_of waits.now object ≡ queue_of others.now object) }
{
    let count = waits.blocks_on(object);
    if count != others.blocks_on(object) {
        return false;
    }
    let mut here = waits.first_on(object);
    let mut there = others.first_on(object);
    for place in 0..count {
        let (Some(first), Some(second)) = (here, there) else {
            return false;
        };
        if first != second {
            return false;
        }
        here = waits.next_on(object, first);
        there = others.next_on(object, second);
    }
    true
}

/// Whether the queues of all objects below `count` are the same.
fn queues_alike(waits: &WaitTable, others: &WaitTable, count: u32) -> bool
    ensures { (result ≡ true) ↔ ((h : ℕ) → h < count → queue_of waits.now h ≡ queue_of others.now h) }
{
    for object in 0..count {
        if !queue_alike(waits, others, ObjectNumber::new(object)) {
            return false;
        }
    }
    true
}

/// Whether both are the same object, in the same state.
fn is_like_object(object: &Object, other: &Object) -> bool
    ensures { (result ≡ true) ↔ (object.now ≡ other.now) }
{
    object == other
}

/// Whether the objects are the same.
fn objects_alike(objects: &[Object], others: &[Object]) -> bool
    ensures { (result ≡ true) ↔ (objects.now ≡ others.now) }
{
    if objects.len() != others.len() {
        return false;
    }
    for i in 0..objects.len() {
        if !is_like_object(&objects[i], &others[i]) {
            return false;
        }
    }
    true
}

/// Whether the same threads may take their APCs.
fn handing_alike(handing: &[bool], others: &[bool]) -> bool
    ensures { (result ≡ true) ↔ (handing.now ≡ others.now) }
{
    if handing.len() != others.len() {
        return false;
    }
    for i in 0..handing.len() {
        if handing[i] != others[i] {
            return false;
        }
    }
    true
}

/// Whether the handles, the queues of APCs and of waits, and who may take APCs are the same.
fn is_like_inside(machine: &Machine, other: &Machine) -> bool
    requires { length machine.now.objects ≤ MAX_HANDLES }
    ensures { (result ≡ true) ↔ AreAlike machine.now other.now }
{
    if !machine.handles.is_like(&other.handles) || !machine.apcs.is_like(&other.apcs) {
        return false;
    }
    if !handing_alike(&machine.handing, &other.handing) {
        return false;
    }
    let count = machine.objects.as_slice().len();
    queues_alike(&machine.waits, &other.waits, count as u32)
}

impl Core {
    /// Whether both are in equal states: as many threads, and the same handles, objects, pending waits with their order in each queue, APCs, and
    /// present moment. Whatever is called or passes then, both answer the same.
    pub fn is_like(&self, other: &Core) -> bool
        ensures { (result ≡ true) ↔ (state self.now ≡ state other.now) }
    {
        self.stands();
        other.stands();
        if self.threads() != other.threads() || self.now() != other.now() {
            return false;
        }
        if !objects_alike(self.objects(), other.objects()) || !all_wait_alike(self, other) {
            return false;
        }
        is_like_inside(&self.machine, &other.machine)
    }
}
