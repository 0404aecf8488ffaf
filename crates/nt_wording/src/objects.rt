//! An object and its state, in words.
ghost use Rattle.std.specs.Prelude.{◌≡◌, ◌++◌, OnOk, codes};
ghost use Rattle.std.specs.Fmt.{signed_decimal};
ghost use Rattle.nt_machine.specs.Dispatcher.{state};
ghost use Rattle.nt_calls.specs.State.{object_at};
ghost use Rattle.nt_calls.specs.Living.{runs};
ghost use Rattle.nt_script.specs.Progress.{progress};
ghost use Rattle.nt_wording.specs.Names.{object_title, thread_title};
ghost use Rattle.nt_wording.specs.Waits.{doing, due_text, mutex_text, object_text, owed_text, owned_text};
ghost use Rattle.nt_wording.specs.Waits.{set_text, state_text, unopened_text, who_text};

use crate::names::{put_object_title, put_thread_title};
use crate::text::{put_number, put_signed};
use nt_core::Core;
use nt_objects::{Armed, Object};
use nt_script::Session;
use nt_status::{ObjectNumber, ThreadId};
use std::alloc::AllocError;

/// Whether the thread runs.
fn is_running(core: &Core, thread: u32) -> bool
    ensures { result ≡ runs (state core.now) thread }
{
    thread < core.threads()
        && match core.objects().get(thread as usize) {
            Some(object) => !object.has_ended(),
            None => true,
        }
}

/// What the thread does.
fn doing(core: &Core, thread: u32) -> &'static [u8]
    ensures { result.now ≡ doing (state core.now) thread }
{
    if core.is_waiting(thread) {
        b"waits"
    } else if is_running(core, thread) {
        b"runs"
    } else {
        b"has ended"
    }
}

fn set_text(set: bool) -> &'static [u8]
    ensures { result.now ≡ set_text set }
{
    if set { b"set" } else { b"not set" }
}

/// Puts how often the owner has to release the mutex, so that it is free.
fn put_owed(out: &mut Vec<u8>, depth: u32) -> Result<(), AllocError>
    ensures { OnOk result (out.new.items ≡ out.old.items ++ owed_text depth) }
{
    if depth == 1 {
        return out.extend_from_slice(b"1 release owed");
    }
    put_number(out, u64::from(depth))?;
    out.extend_from_slice(b" releases owed")
}

/// Puts when the timer is due.
fn put_due(out: &mut Vec<u8>, armed: &Option<Armed>) -> Result<(), AllocError>
    ensures { OnOk result (out.new.items ≡ out.old.items ++ due_text armed.now) }
{
    match armed {
        Some(armed) => {
            out.extend_from_slice(b", due at ")?;
            put_number(out, armed.due)
        }
        None => out.extend_from_slice(b", not armed"),
    }
}

/// Puts what the thread does.
fn put_who(out: &mut Vec<u8>, core: &Core, thread: u32) -> Result<(), AllocError>
    ensures { OnOk result (out.new.items ≡ out.old.items ++ who_text (state core.now) thread) }
{
    out.extend_from_slice(b", who ")?;
    out.extend_from_slice(doing(core, thread))
}

/// Puts whose the mutex is.
fn put_owner(out: &mut Vec<u8>, told: &[u8], owner: u32) -> Result<(), AllocError>
    ensures { OnOk result (out.new.items ≡ out.old.items ++ (codes "mutex, owned by " ++ thread_title told.now owner)) }
{
    out.extend_from_slice(b"mutex, owned by ")?;
    put_thread_title(out, told, owner)
}

/// Puts the releases that are owed, in brackets.
fn put_owing(out: &mut Vec<u8>, depth: u32) -> Result<(), AllocError>
    ensures { OnOk result (out.new.items ≡ out.old.items ++ (codes " (" ++ (owed_text depth ++ codes ")"))) }
{
    out.extend_from_slice(b" (")?;
    put_owed(out, depth)?;
    out.extend_from_slice(b")")
}

/// Puts the state of a mutex that this thread owns.
fn put_owned(
    out: &mut Vec<u8>,
    core: &Core,
    told: &[u8],
    owner: u32,
    depth: u32,
) -> Result<(), AllocError>
    ensures { OnOk result (out.new.items ≡ out.old.items ++ owned_text (state core.now) told.now owner depth) }
{
    put_owner(out, told, owner)?;
    put_owing(out, depth)?;
    put_who(out, core, owner)
}

/// Puts a mutex's state.
fn put_mutex(
    out: &mut Vec<u8>,
    core: &Core,
    told: &[u8],
    owner: Option<ThreadId>,
    depth: u32,
    abandoned: bool,
) -> Result<(), AllocError>
    ensures { OnOk result (out.new.items ≡ out.old.items ++ mutex_text (state core.now) told.now owner depth abandoned) }
{
    match owner {
        Some(owner) => put_owned(out, core, told, u32::from(owner.get()), depth),
        None if abandoned => out.extend_from_slice(b"mutex, abandoned"),
        None => out.extend_from_slice(b"mutex, free"),
    }
}

/// Puts a timer's state.
fn put_timer(out: &mut Vec<u8>, set: bool, armed: &Option<Armed>) -> Result<(), AllocError>
    ensures { OnOk result (out.new.items ≡ out.old.items ++ (codes "timer, " ++ (set_text set ++ due_text armed.now))) }
{
    out.extend_from_slice(b"timer, ")?;
    out.extend_from_slice(set_text(set))?;
    put_due(out, armed)
}

/// Puts words and a count after them.
fn put_counted(out: &mut Vec<u8>, words: &[u8], count: i32) -> Result<(), AllocError>
    ensures { OnOk result (out.new.items ≡ out.old.items ++ (words.now ++ signed_decimal count)) }
{
    out.extend_from_slice(words)?;
    put_signed(out, count)
}

/// Puts a semaphore's state.
fn put_semaphore(out: &mut Vec<u8>, count: i32, maximum: i32) -> Result<(), AllocError>
    ensures { OnOk result (out.new.items ≡ out.old.items
        ++ ((codes "semaphore, count " ++ signed_decimal count) ++ (codes " of " ++ signed_decimal maximum))) }
{
    put_counted(out, b"semaphore, count ", count)?;
    put_counted(out, b" of ", maximum)
}

/// Puts an event's state.
fn put_event(out: &mut Vec<u8>, set: bool) -> Result<(), AllocError>
    ensures { OnOk result (out.new.items ≡ out.old.items ++ (codes "event, " ++ set_text set)) }
{
    out.extend_from_slice(b"event, ")?;
    out.extend_from_slice(set_text(set))
}

/// Puts the state of a thread.
fn put_doing(out: &mut Vec<u8>, core: &Core, thread: u32) -> Result<(), AllocError>
    ensures { OnOk result (out.new.items ≡ out.old.items ++ (codes "thread" ++ who_text (state core.now) thread)) }
{
    out.extend_from_slice(b"thread")?;
    put_who(out, core, thread)
}

/// Puts the state of the object with this number.
fn put_state(
    out: &mut Vec<u8>,
    core: &Core,
    told: &[u8],
    number: u32,
    object: &Object,
) -> Result<(), AllocError>
    ensures { OnOk result (out.new.items ≡ out.old.items ++ state_text (state core.now) told.now number object.now) }
{
    match object {
        Object::Event { manual: _, set } => put_event(out, *set),
        Object::Semaphore { count, maximum } => put_semaphore(out, *count, *maximum),
        Object::Mutex {
            owner,
            depth,
            abandoned,
        } => put_mutex(out, core, told, *owner, *depth, *abandoned),
        Object::Timer {
            manual: _,
            set,
            armed,
        } => put_timer(out, *set, armed),
        Object::Thread { ended: _ } => put_doing(out, core, number),
        Object::Gone => out.extend_from_slice(b"gone"),
    }
}

/// The object with this number; one that there is not is as good as a thread that runs.
fn object_at(core: &Core, number: u32) -> Object
    ensures { result ≡ object_at (state core.now).objects number }
{
    match core.objects().get(number as usize) {
        Some(object) => *object,
        None => Object::Thread { ended: false },
    }
}

/// That no handle names the object any longer, if that is so.
fn unopened_text(core: &Core, object: ObjectNumber) -> &'static [u8]
    ensures { result.now ≡ unopened_text (state core.now) object }
{
    if core.handles_of(object) > 0 {
        b""
    } else {
        b", which no handle names"
    }
}

/// Puts the state of the object with this number, and that no handle names it, if that is so.
fn put_whole_state(
    out: &mut Vec<u8>,
    core: &Core,
    told: &[u8],
    object: ObjectNumber,
) -> Result<(), AllocError>
    ensures { OnOk result (out.new.items ≡ out.old.items
        ++ (state_text (state core.now) told.now object (object_at (state core.now).objects object)
        ++ unopened_text (state core.now) object)) }
{
    put_state(
        out,
        core,
        told,
        object.get(),
        &object_at(core, object.get()),
    )?;
    out.extend_from_slice(unopened_text(core, object))
}

/// Puts an object's title and a colon.
fn put_label(
    out: &mut Vec<u8>,
    session: &Session,
    objects: &[u32],
    told: &[u8],
    object: u32,
) -> Result<(), AllocError>
    ensures { OnOk result (out.new.items ≡ out.old.items
        ++ (object_title (progress session.now) objects.now told.now object ++ codes ": ")) }
{
    put_object_title(out, session, objects, told, object)?;
    out.extend_from_slice(b": ")
}

/// Puts an object and its state.
pub(crate) fn put_object(
    out: &mut Vec<u8>,
    session: &Session,
    objects: &[u32],
    told: &[u8],
    object: ObjectNumber,
) -> Result<(), AllocError>
    ensures { OnOk result (out.new.items ≡ out.old.items ++ object_text (progress session.now) objects.now told.now object) }
{
    put_label(out, session, objects, told, object.get())?;
    put_whole_state(out, session.core(), told, object)
}
