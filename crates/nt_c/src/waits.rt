//! Waits.
ghost use Rattle.std.specs.Prelude.{◌≡◌, ◌<◌, ◌≤◌, ◌∷◌, [], length, false};
ghost use Rattle.nt_calls.specs.declared.call.WaitCall.{WaitCall};
ghost use Rattle.nt_calls.specs.declared.call.Call.{Call};
ghost use Rattle.nt_c.specs.Asks.{Asked, WaitsWith};

use crate::handle::Nt;
use crate::reply::{NtReply, tell};
use arrayvec::ArrayVec;
use nt_core::{Call, FEW_OBJECTS, Reply, WaitCall, WaitMode};
use nt_status::{Handle, Handles, MAX_WAIT_OBJECTS, Refusal};
use std::alloc::Global;

/// The handles that a wait names, at most as many as it may name. They lie in the value itself.
type WaitedHandles = ArrayVec<Handle, MAX_WAIT_OBJECTS>;

/// The handles with these numbers, in this order; none where they are more than a wait may name, since a wait for none is refused as
/// such a wait is.
fn handles_of(numbers: &[u32]) -> WaitedHandles
    ensures few { length numbers.now ≤ MAX_WAIT_OBJECTS → result.items ≡ numbers.now }
    ensures many { MAX_WAIT_OBJECTS < length numbers.now → result.items ≡ [] }
{
    let mut handles = WaitedHandles::new();
    if numbers.len() <= MAX_WAIT_OBJECTS {
        for number in numbers {
            handles.push(Handle::new(*number));
        }
    }
    handles
}

/// The handles of a wait that names few, of which less has to be cleared.
type FewHandles = ArrayVec<Handle, FEW_OBJECTS>;

/// The handles with these numbers, in this order.
fn few_handles_of(numbers: &[u32]) -> FewHandles
    requires { length numbers.now ≤ FEW_OBJECTS }
    ensures { result.items ≡ numbers.now }
{
    let mut handles = FewHandles::new();
    for number in numbers {
        handles.push(Handle::new(*number));
    }
    handles
}

/// The wait for the objects that the handles with these numbers name.
fn wait_for_many(
    nt: &mut Nt,
    who: u32,
    numbers: &[u32],
    all: bool,
    mode: WaitMode,
) -> Result<Reply, Refusal>
    ensures asked { Asked nt.old.cell.held who (Call.Wait (WaitCall.Objects all mode numbers.now))
        result nt.new.cell.held }
{
    let these = handles_of(numbers);
    nt.wait(who, these.as_slice(), all, mode)
}

/// WaitForMultipleObjectsEx: for any of the objects, or for all. The timeout is in milliseconds, 0xFFFFFFFF for INFINITE.
#[unsafe(no_mangle)]
pub extern "C" fn nt_wait_objects(
    nt: &mut Nt,
    who: u32,
    handles: &[u32],
    all: bool,
    ms: u32,
    alertable: bool,
    out: &mut NtReply,
) -> u32
    ensures answers { WaitsWith nt.old who
        (WaitCall.Objects all (record { ms = ms; alertable = alertable }) handles.now)
        result out.old out.new nt.new }
{
    let mode = WaitMode { ms, alertable };
    if handles.len() <= FEW_OBJECTS {
        let these = few_handles_of(handles);
        tell(nt.wait(who, these.as_slice(), all, mode), out)
    } else {
        tell(wait_for_many(nt, who, handles, all, mode), out)
    }
}

/// WaitForSingleObjectEx. The timeout is in milliseconds, 0xFFFFFFFF for INFINITE.
#[unsafe(no_mangle)]
pub extern "C" fn nt_wait_object(
    alloc: Global,
    nt: &mut Nt,
    who: u32,
    handle: u32,
    ms: u32,
    alertable: bool,
    out: &mut NtReply,
) -> u32
    ensures answers { WaitsWith nt.old who
        (WaitCall.Objects false (record { ms = ms; alertable = alertable }) (handle ∷ []))
        result out.old out.new nt.new }
{
    let wait = WaitCall::Objects {
        handles: Handles::from_one(alloc, Handle::new(handle)),
        all: false,
        mode: WaitMode { ms, alertable },
    };
    tell(nt.ask(who, &Call::Wait(wait)), out)
}

/// SleepEx. The interval is in milliseconds, 0xFFFFFFFF for INFINITE.
#[unsafe(no_mangle)]
pub extern "C" fn nt_sleep(
    nt: &mut Nt,
    who: u32,
    ms: u32,
    alertable: bool,
    out: &mut NtReply,
) -> u32
    ensures answers { WaitsWith nt.old who
        (WaitCall.Sleep (record { ms = ms; alertable = alertable })) result out.old out.new nt.new }
{
    let wait = WaitCall::Sleep(WaitMode { ms, alertable });
    tell(nt.ask(who, &Call::Wait(wait)), out)
}

/// SignalObjectAndWait: signals one object, and waits for the other, or for the same.
#[unsafe(no_mangle)]
pub extern "C" fn nt_swap(
    nt: &mut Nt,
    who: u32,
    signal: u32,
    object: u32,
    ms: u32,
    alertable: bool,
    out: &mut NtReply,
) -> u32
    ensures answers { WaitsWith nt.old who
        (WaitCall.Swap signal object (record { ms = ms; alertable = alertable })) result out.old out.new nt.new }
{
    let wait = WaitCall::Swap {
        signal: Handle::new(signal),
        object: Handle::new(object),
        mode: WaitMode { ms, alertable },
    };
    tell(nt.ask(who, &Call::Wait(wait)), out)
}
