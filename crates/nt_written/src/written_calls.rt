//! The line of each call, put where there is room for it.

ghost use Rattle.std.specs.Prelude.{◌≡◌, ◌+◌, ◌*◌, ◌≤◌, ◌<◌, true, length, vec_len, vec_capacity, nat_lt};
ghost use Rattle.nt_grammar.specs.Scope.{Scope};
ghost use Rattle.nt_grammar.specs.Naming.{NamesFree};
ghost use Rattle.nt_grammar.specs.Spelling.{statement_text, CanBeSaid};
ghost use Rattle.nt_grammar.specs.Grammar.{act_by, wait_by};
ghost use Rattle.nt_written.specs.declared.writing.TheConstants.{FEW_BYTES, NUMBER_BYTES};
ghost use Rattle.nt_written.specs.Written.{statement_for};
ghost use Rattle.nt_written.specs.Writing.{has_words, flags_have_words, room_of, IsPut};

use crate::written_words::{
    put_count, put_creation, put_due, put_flag, put_keyword, put_mode, put_object, put_objects,
    put_on, put_time, put_value, put_wait_keyword,
};
use nt_calls::{Act, Call, WaitCall, WaitMode};
use nt_grammar::{Keyword, MANUAL, OWNED, SET};
use nt_status::{Handle, ThreadId};

/// Puts a call's line, without its line feed.
pub(crate) fn put_call(out: &mut Vec<u8>, who: ThreadId, call: &Call, created: Option<Handle>)
    requires words { has_words call.now ≡ true }
    requires room { vec_len out.old + room_of call.now ≤ vec_capacity out.old }
    ensures put { IsPut out.old.items (statement_for who call.now created) out.new.items }
    ensures len { vec_len out.new < vec_len out.old + room_of call.now }
    ensures room { vec_capacity out.old ≤ vec_capacity out.new }
{
    match call {
        Call::Act(act) => put_act(out, who, act, created),
        Call::Wait(wait) => put_wait(out, who, wait),
        Call::Exit => put_keyword(out, who, Keyword::Exit),
    }
}

/// Puts an act's line.
fn put_act(out: &mut Vec<u8>, who: ThreadId, act: &Act, created: Option<Handle>)
    requires words { flags_have_words act.now ≡ true }
    requires room { vec_len out.old + FEW_BYTES ≤ vec_capacity out.old }
    ensures put { IsPut out.old.items (statement_for who (Call.Act act.now) created) out.new.items }
    ensures len { vec_len out.new < vec_len out.old + FEW_BYTES }
    ensures room { vec_capacity out.old ≤ vec_capacity out.new }
{
    match act {
        Act::CreateEvent(flags) => put_event(out, who, *flags, created),
        Act::CreateSemaphore { initial, maximum } => {
            put_semaphore(out, who, *initial, *maximum, created);
        }
        Act::CreateMutex(flags) => put_mutex(out, who, *flags, created),
        Act::CreateTimer(flags) => put_timer(out, who, *flags, created),
        Act::Duplicate { handle, access } => put_duplicate(out, who, *handle, *access, created),
        Act::SetEvent(event) => put_on(out, who, Keyword::Set, *event),
        Act::ResetEvent(event) => put_on(out, who, Keyword::Reset, *event),
        Act::PulseEvent(event) => put_on(out, who, Keyword::Pulse, *event),
        Act::ReleaseSemaphore { semaphore, count } => put_release(out, who, *semaphore, *count),
        Act::ReleaseMutex(mutex) => put_on(out, who, Keyword::Unlock, *mutex),
        Act::SetTimer {
            timer,
            due,
            period,
            routine,
        } => put_arm(out, who, *timer, *due, *period, *routine),
        Act::CancelTimer(timer) => put_on(out, who, Keyword::Cancel, *timer),
        Act::QueueApc {
            thread,
            routine,
            arg,
        } => put_apc(out, who, *thread, *routine, *arg),
        Act::Close(handle) => put_on(out, who, Keyword::Close, *handle),
        Act::NextApc => put_keyword(out, who, Keyword::Next),
    }
}

/// A name, and whether the event is a manual one and whether it is set.
fn put_event(out: &mut Vec<u8>, who: ThreadId, flags: u32, created: Option<Handle>)
    requires words { nat_lt flags 4 ≡ true }
    requires room { vec_len out.old + FEW_BYTES ≤ vec_capacity out.old }
    ensures put { IsPut out.old.items (statement_for who (Call.Act (Act.CreateEvent flags)) created) out.new.items }
    ensures len { vec_len out.new < vec_len out.old + FEW_BYTES }
    ensures room { vec_capacity out.old ≤ vec_capacity out.new }
{
    put_creation(out, who, Keyword::Event, created);
    put_flag(out, flags, 1, MANUAL);
    put_flag(out, flags, 2, SET);
}

/// A name, and the first and the greatest count.
fn put_semaphore(
    out: &mut Vec<u8>,
    who: ThreadId,
    initial: i32,
    maximum: i32,
    created: Option<Handle>,
)
    requires { vec_len out.old + FEW_BYTES ≤ vec_capacity out.old }
    ensures put { IsPut out.old.items
        (statement_for who (Call.Act (Act.CreateSemaphore initial maximum)) created) out.new.items }
    ensures len { vec_len out.new < vec_len out.old + FEW_BYTES }
    ensures room { vec_capacity out.old ≤ vec_capacity out.new }
{
    put_creation(out, who, Keyword::Semaphore, created);
    put_count(out, initial);
    put_count(out, maximum);
}

/// A name, and whether the caller owns it.
fn put_mutex(out: &mut Vec<u8>, who: ThreadId, flags: u32, created: Option<Handle>)
    requires words { nat_lt flags 2 ≡ true }
    requires room { vec_len out.old + FEW_BYTES ≤ vec_capacity out.old }
    ensures put { IsPut out.old.items (statement_for who (Call.Act (Act.CreateMutex flags)) created) out.new.items }
    ensures len { vec_len out.new < vec_len out.old + FEW_BYTES }
    ensures room { vec_capacity out.old ≤ vec_capacity out.new }
{
    put_creation(out, who, Keyword::Mutex, created);
    put_flag(out, flags, 1, OWNED);
}

/// A name, and whether the timer is a manual one.
fn put_timer(out: &mut Vec<u8>, who: ThreadId, flags: u32, created: Option<Handle>)
    requires words { nat_lt flags 2 ≡ true }
    requires room { vec_len out.old + FEW_BYTES ≤ vec_capacity out.old }
    ensures put { IsPut out.old.items (statement_for who (Call.Act (Act.CreateTimer flags)) created) out.new.items }
    ensures len { vec_len out.new < vec_len out.old + FEW_BYTES }
    ensures room { vec_capacity out.old ≤ vec_capacity out.new }
{
    put_creation(out, who, Keyword::Timer, created);
    put_flag(out, flags, 1, MANUAL);
}

/// A name, an object, and rights.
fn put_duplicate(
    out: &mut Vec<u8>,
    who: ThreadId,
    handle: Handle,
    access: u32,
    created: Option<Handle>,
)
    requires { vec_len out.old + FEW_BYTES ≤ vec_capacity out.old }
    ensures put { IsPut out.old.items
        (statement_for who (Call.Act (Act.Duplicate handle access)) created) out.new.items }
    ensures len { vec_len out.new < vec_len out.old + FEW_BYTES }
    ensures room { vec_capacity out.old ≤ vec_capacity out.new }
{
    put_creation(out, who, Keyword::Duplicate, created);
    put_object(out, handle);
    put_value(out, u64::from(access));
}

/// An object, and a count.
fn put_release(out: &mut Vec<u8>, who: ThreadId, semaphore: Handle, count: i32)
    requires { vec_len out.old + FEW_BYTES ≤ vec_capacity out.old }
    ensures put { IsPut out.old.items (act_by who (Act.ReleaseSemaphore semaphore count)) out.new.items }
    ensures len { vec_len out.new < vec_len out.old + FEW_BYTES }
    ensures room { vec_capacity out.old ≤ vec_capacity out.new }
{
    put_on(out, who, Keyword::Release, semaphore);
    put_count(out, count);
}

/// An object, when it is due, its period, and a routine with its argument or none.
fn put_arm(
    out: &mut Vec<u8>,
    who: ThreadId,
    timer: Handle,
    due: i64,
    period: i32,
    routine: Option<(u64, u64)>,
)
    requires { vec_len out.old + FEW_BYTES ≤ vec_capacity out.old }
    ensures put { IsPut out.old.items (act_by who (Act.SetTimer timer due period routine)) out.new.items }
    ensures len { vec_len out.new < vec_len out.old + FEW_BYTES }
    ensures room { vec_capacity out.old ≤ vec_capacity out.new }
{
    put_on(out, who, Keyword::Arm, timer);
    put_due(out, due);
    put_count(out, period);
    match routine {
        Some((routine, arg)) => {
            put_value(out, routine);
            put_value(out, arg);
        }
        None => {}
    }
}

/// A thread's object, a routine and its argument.
fn put_apc(out: &mut Vec<u8>, who: ThreadId, thread: Handle, routine: u64, arg: u64)
    requires { vec_len out.old + FEW_BYTES ≤ vec_capacity out.old }
    ensures put { IsPut out.old.items (act_by who (Act.QueueApc thread routine arg)) out.new.items }
    ensures len { vec_len out.new < vec_len out.old + FEW_BYTES }
    ensures room { vec_capacity out.old ≤ vec_capacity out.new }
{
    put_on(out, who, Keyword::Apc, thread);
    put_value(out, routine);
    put_value(out, arg);
}

/// Puts a wait's line.
fn put_wait(out: &mut Vec<u8>, who: ThreadId, wait: &WaitCall)
    requires { vec_len out.old + room_of (Call.Wait wait.now) ≤ vec_capacity out.old }
    ensures put { IsPut out.old.items (wait_by who wait.now) out.new.items }
    ensures len { vec_len out.new < vec_len out.old + room_of (Call.Wait wait.now) }
    ensures room { vec_capacity out.old ≤ vec_capacity out.new }
{
    match wait {
        WaitCall::Objects { handles, all, mode } => {
            put_objects_wait(out, who, handles.as_slice(), *all, *mode)
        }
        WaitCall::Sleep(mode) => put_sleep(out, who, *mode),
        WaitCall::Swap {
            signal,
            object,
            mode,
        } => put_swap(out, who, *signal, *object, *mode),
    }
}

/// How long, whether alertable, and the objects.
fn put_objects_wait(out: &mut Vec<u8>, who: ThreadId, handles: &[Handle], all: bool, mode: WaitMode)
    requires { vec_len out.old + FEW_BYTES + NUMBER_BYTES * length handles.now ≤ vec_capacity out.old }
    ensures put { IsPut out.old.items (wait_by who (WaitCall.Objects all mode handles.now)) out.new.items }
    ensures len { vec_len out.new < vec_len out.old + FEW_BYTES + NUMBER_BYTES * length handles.now }
    ensures room { vec_capacity out.old ≤ vec_capacity out.new }
{
    put_wait_keyword(out, who, all);
    put_time(out, mode.ms);
    put_mode(out, mode.alertable);
    put_objects(out, handles);
}

/// How long, and whether alertable.
fn put_sleep(out: &mut Vec<u8>, who: ThreadId, mode: WaitMode)
    requires { vec_len out.old + FEW_BYTES ≤ vec_capacity out.old }
    ensures put { IsPut out.old.items (wait_by who (WaitCall.Sleep mode)) out.new.items }
    ensures len { vec_len out.new < vec_len out.old + FEW_BYTES }
    ensures room { vec_capacity out.old ≤ vec_capacity out.new }
{
    put_keyword(out, who, Keyword::Sleep);
    put_time(out, mode.ms);
    put_mode(out, mode.alertable);
}

/// The object to signal, the object to wait for, how long, and whether alertable.
fn put_swap(out: &mut Vec<u8>, who: ThreadId, signal: Handle, object: Handle, mode: WaitMode)
    requires { vec_len out.old + FEW_BYTES ≤ vec_capacity out.old }
    ensures put { IsPut out.old.items (wait_by who (WaitCall.Swap signal object mode)) out.new.items }
    ensures len { vec_len out.new < vec_len out.old + FEW_BYTES }
    ensures room { vec_capacity out.old ≤ vec_capacity out.new }
{
    put_on(out, who, Keyword::Swap, signal);
    put_object(out, object);
    put_time(out, mode.ms);
    put_mode(out, mode.alertable);
}
