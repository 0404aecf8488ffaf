//! Ended threads that handles still name: their objects are set aside, so that their places can be given to other threads.
ghost use Rattle.std.specs.Prelude.{◌≡◌, ◌<◌, ◌≤◌, ◌-◌, ◌^◌, ℕ, false, length, map, slice_set};
ghost use Rattle.nt_objects.specs.declared.object.Object.TheVariants.{Gone};
ghost use Rattle.nt_tables.specs.Handles.{opened_at};
ghost use Rattle.nt_objects.specs.Object.{owned_by};
ghost use Rattle.nt_calls.specs.Living.{LivesWhileKept};
ghost use Rattle.nt_calls.specs.State.{object_at};
ghost use Rattle.nt_machine.specs.Dispatcher.{state};
ghost use Rattle.nt_machine.specs.Lawful.{IsMachineSound, IsSteady, IsLawful};
ghost use Rattle.nt_core.specs.SetAside.{is_movable, can_set_aside, named_instead, SetsAside, with_aside};

use crate::dispatcher::Core;
use crate::renewals::is_vacant;
use nt_machine::Machine;
use nt_objects::Object;
use nt_status::{Handle, ObjectNumber, ThreadId};
use nt_tables::{HandleTable, Opened};

/// If this handle names the one object, it names the other from now on.
fn rename(handles: &mut HandleTable, handle: Handle, from: ObjectNumber, to: ObjectNumber)
    requires there { handle < length handles.old.opened }
    requires known { to < length handles.old.opened }
    requires few { length handles.old.opened < 2 ^ 32 - 1 }
    ensures { handles.new.opened
        ≡ slice_set handles.old.opened handle (named_instead from to (opened_at handles.old.opened handle)) }
{
    let Some(opened) = handles.get(handle) else {
        return;
    };
    if opened.object != from {
        return;
    }
    let _from = handles.close(handle);
    let access = opened.access;
    handles.add_again(handle, Opened { object: to, access });
}

/// Each handle that names the one object names the other from now on.
fn rename_all(handles: &mut HandleTable, from: ObjectNumber, to: ObjectNumber)
    requires known { to < length handles.old.opened }
    requires few { length handles.old.opened < 2 ^ 32 - 1 }
    ensures { handles.new.opened ≡ map (named_instead from to) handles.old.opened }
{
    for number in 0..handles.len() {
        rename(handles, Handle::new(number as u32), from, to);
    }
}

/// Whether the thread has ended and its object can have another number.
fn is_movable(machine: &Machine, thread: u32) -> bool
    requires sound { IsMachineSound machine.now }
    ensures { result ≡ is_movable (state machine.now) thread }
{
    if thread >= machine.threads {
        return false;
    }
    let Some(own) = machine.objects.as_slice().get(thread as usize) else {
        return false;
    };
    let awaited = machine.waits.is_awaited(ObjectNumber::new(thread));
    let quiet = machine.apcs.is_empty(ThreadId::new(thread as u16));
    own.has_ended() && (!own.is_gone() && (!awaited && quiet))
}

/// Whether the thread's object can have this number.
fn can_set_aside(machine: &Machine, thread: u32, object: ObjectNumber) -> bool
    requires sound { IsMachineSound machine.now }
    ensures { result ≡ can_set_aside (state machine.now) thread object }
{
    is_movable(machine, thread) && is_vacant(machine, object)
}

/// Gives an object the number of one that is gone, and takes its own from it. Neither is a mutex that a thread owns.
fn renumber(machine: &mut Machine, from: ObjectNumber, to: ObjectNumber)
    requires from { from < length machine.old.objects }
    requires to { to < length machine.old.objects }
    requires enough { length machine.old.objects ≤ length machine.old.handles }
    requires few { length machine.old.handles < 2 ^ 32 - 1 }
    requires owner { (t : ℕ) → owned_by (object_at machine.old.objects from) t ≡ false }
    ensures { machine.new ≡ with_aside machine.old from to machine.new.owned }
{
    rename_all(&mut machine.handles, from, to);
    let object = machine.objects.as_slice()[from.get() as usize];
    machine.objects.put(to, object);
    machine.objects.put(from, Object::Gone);
}

/// Sets the thread's object aside, at the number of one that is gone. It answers whether that was done.
pub(crate) fn set_aside(machine: &mut Machine, thread: u32, object: ObjectNumber) -> bool
    requires steady { IsSteady machine.old }
    requires living { LivesWhileKept (state machine.old) }
    ensures aside { SetsAside (state machine.old) thread object result machine.new.grants (state machine.new) }
    ensures untested { machine.new.table.looked ≡ 0 }
    ensures steady { IsSteady machine.new }
    ensures living { LivesWhileKept (state machine.new) }
{
    machine.tell_anew();
    if !can_set_aside(machine, thread, object) {
        return false;
    }
    renumber(machine, ObjectNumber::new(thread), object);
    true
}

impl Core {
    /// Whether the object of this thread, which has ended, can be set aside: handles name it, no pending wait does, and no APC is queued
    /// to the thread.
    pub fn is_movable(&self, thread: u32) -> bool
        ensures { result ≡ is_movable (state self.now) thread }
    {
        is_movable(&self.machine, thread)
    }

    /// Sets aside the object of a thread that has ended and that handles still name: it gets the number of an object that is gone, by which
    /// its handles name it from then on, with the rights that they had. So the thread's place is free, and `begin_again` can give it to
    /// another thread. It takes no memory, and looks at each handle.
    ///
    /// It answers whether that was done. If not, nothing has changed: the thread runs, nothing names its object, a pending wait names it, an
    /// APC is queued to it, or the other number can't be given (`is_movable`, `is_vacant`).
    pub fn set_aside(&mut self, thread: u32, object: ObjectNumber) -> bool
        ensures aside { SetsAside (state self.old) thread object result self.new.grants (state self.new) }
        ensures untested { self.new.table.looked ≡ 0 }
        ensures lawful { IsLawful self.new }
    {
        let done = set_aside(&mut self.machine, thread, object);
        let machine = &self.machine;
        machine.objects.agree();
        done
    }
}
