//! Calls as the dispatcher takes them, from what a scenario asks, and answers as a scenario tells them.
use crate::tests::script::{Answer, EndedWait, Request};
use nt_apc::Apc;
use nt_core::{Act, Call, Grant, Reply, WaitCall, WaitMode};
use nt_status::{Handle, Handles, Refusal};
use std::alloc::{AllocError, Global};

/// The first of these objects. A call that names none is for a handle that no object has.
fn first(objects: &[u32]) -> Handle {
    match objects.first() {
        Some(number) => Handle::new(*number),
        None => Handle::new(u32::MAX),
    }
}

fn wait_for(
    alloc: Global,
    objects: &[u32],
    all: bool,
    ms: u32,
    alertable: bool,
) -> Result<Call, AllocError> {
    let mut handles = Handles::new(alloc);
    for number in objects {
        handles.push(Handle::new(*number))?;
    }
    let mode = WaitMode { ms, alertable };
    Ok(Call::Wait(WaitCall::Objects { handles, all, mode }))
}

fn sleep_for(ms: u32, alertable: bool) -> Call {
    Call::Wait(WaitCall::Sleep(WaitMode { ms, alertable }))
}

fn swap_for(objects: &[u32], ms: u32, alertable: bool) -> Call {
    let (signal, object) = match objects {
        [signal, object] => (Handle::new(*signal), Handle::new(*object)),
        _ => (Handle::new(u32::MAX), Handle::new(u32::MAX)),
    };
    Call::Wait(WaitCall::Swap {
        signal,
        object,
        mode: WaitMode { ms, alertable },
    })
}

/// The call that asks for this of these objects.
pub fn call_of(alloc: Global, ask: Request, objects: &[u32]) -> Result<Call, AllocError> {
    let act = match ask {
        Request::Any(ms) => return wait_for(alloc, objects, false, ms, false),
        Request::All(ms) => return wait_for(alloc, objects, true, ms, false),
        Request::Sleep(ms) => return Ok(sleep_for(ms, false)),
        Request::AlertableAny(ms) => return wait_for(alloc, objects, false, ms, true),
        Request::AlertableAll(ms) => return wait_for(alloc, objects, true, ms, true),
        Request::AlertableSleep(ms) => return Ok(sleep_for(ms, true)),
        Request::Swap(ms) => return Ok(swap_for(objects, ms, false)),
        Request::AlertableSwap(ms) => return Ok(swap_for(objects, ms, true)),
        Request::Exit => return Ok(Call::Exit),
        Request::Event(flags) => Act::CreateEvent(flags),
        Request::Semaphore(initial, maximum) => Act::CreateSemaphore { initial, maximum },
        Request::Mutex(flags) => Act::CreateMutex(flags),
        Request::Set => Act::SetEvent(first(objects)),
        Request::Reset => Act::ResetEvent(first(objects)),
        Request::Pulse => Act::PulseEvent(first(objects)),
        Request::Release(count) => Act::ReleaseSemaphore {
            semaphore: first(objects),
            count,
        },
        Request::Unlock => Act::ReleaseMutex(first(objects)),
        Request::Apc(routine, arg) => Act::QueueApc {
            thread: first(objects),
            routine,
            arg,
        },
        Request::Timer(flags) => Act::CreateTimer(flags),
        Request::Arm(due, period) => Act::SetTimer {
            timer: first(objects),
            due,
            period,
            routine: None,
        },
        Request::ArmRoutine(due, period, routine, arg) => Act::SetTimer {
            timer: first(objects),
            due,
            period,
            routine: Some((routine, arg)),
        },
        Request::Cancel => Act::CancelTimer(first(objects)),
        Request::Duplicate(access) => Act::Duplicate {
            handle: first(objects),
            access,
        },
        Request::Close => Act::Close(first(objects)),
        Request::Next => Act::NextApc,
    };
    Ok(Call::Act(act))
}

fn apc_of(apc: &Apc) -> Answer {
    match apc.at.get() {
        None => Answer::ThreadApc(apc.routine, apc.arg),
        Some(at) => Answer::TimerApc(apc.routine, apc.arg, at.get()),
    }
}

fn reply_of(reply: &Reply) -> Answer {
    match reply {
        Reply::Done => Answer::Done,
        Reply::Handle(handle) => Answer::Handle(handle.get()),
        Reply::Previous(count) => Answer::Previous(*count),
        Reply::Status(status) => Answer::Status(status.code()),
        Reply::Pended => Answer::Pended,
        Reply::Apc(None) => Answer::NoApc,
        Reply::Apc(Some(apc)) => apc_of(apc),
    }
}

/// What the dispatcher replied, in the reference's numbers.
pub fn answer_of(replied: Result<Reply, Refusal>) -> Answer {
    match replied {
        Ok(reply) => reply_of(&reply),
        Err(refusal) => Answer::Error(refusal.number()),
    }
}

/// The thread whose wait ended, and the status.
pub fn ended_of(grant: &Grant) -> EndedWait {
    (grant.thread.get(), grant.status.code())
}

/// Whether these waits ended, in this order.
pub fn are_ended(grants: &[Grant], expected: &[EndedWait]) -> bool {
    grants.len() == expected.len()
        && grants
            .iter()
            .zip(expected)
            .all(|(grant, ended)| ended_of(grant) == *ended)
}
