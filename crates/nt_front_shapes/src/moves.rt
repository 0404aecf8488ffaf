//! Calls of a thread, counted. Each is inlined into its shape's loop, so that a round has no calls of the bench's own.
use crate::told::Measurement;
use nt_core::{Act, Reply, WaitCall, WaitMode};
use nt_front::{Begun, Front, Named, Pass, Waited};
use nt_status::{Handle, Handles, INFINITE, Status};
use std::alloc::Global;
use std::sync::Wait;
use std::time::{Clock, Instant};

pub fn now(clock: &impl Clock) -> Option<Instant> {
    Instant::now(clock).ok()
}

pub fn nanos_since(clock: &impl Clock, began: Option<Instant>) -> u128 {
    match began {
        Some(began) => match began.elapsed(clock) {
            Ok(took) => took.as_nanos(),
            Err(_) => 0,
        },
        None => 0,
    }
}

/// Makes a call that never pends, and expects that it is accepted.
#[inline(always)]
pub fn call<N: Named, R: Wait>(
    rt: &R,
    front: &Front<N>,
    pass: &mut Pass<N>,
    act: Act,
    told: &mut Measurement,
) {
    match front.call(rt, pass, act) {
        Ok(receipt) => told.called(receipt.result.is_ok()),
        Err(_) => told.wrong(),
    }
}

/// A wait for all or any of these objects.
#[inline(always)]
pub fn objects(alloc: Global, handles: &[Handle], all: bool, ms: u32) -> Option<WaitCall> {
    let handles = Handles::from_slice(alloc, handles).ok()?;
    let mode = WaitMode {
        ms,
        alertable: false,
    };
    Some(WaitCall::Objects { handles, all, mode })
}

/// Waits for the object until it is granted.
#[inline(always)]
pub fn wait_for<N: Named, R: Wait>(
    rt: &R,
    alloc: Global,
    front: &Front<N>,
    pass: Pass<N>,
    object: Handle,
    told: &mut Measurement,
) -> Pass<N> {
    match objects(alloc, &[object], false, INFINITE) {
        Some(asked) => wait(rt, front, pass, asked, told),
        None => {
            told.wrong();
            pass
        }
    }
}

/// Waits until the wait has ended.
#[inline(always)]
pub fn wait<N: Named, R: Wait>(
    rt: &R,
    front: &Front<N>,
    pass: Pass<N>,
    asked: WaitCall,
    told: &mut Measurement,
) -> Pass<N> {
    match front.wait(rt, pass, asked) {
        Waited::Done(pass, receipt) => {
            told.called(receipt.result.is_ok());
            pass
        }
        Waited::Granted(pass, _, granted) => {
            told.called(granted.result.is_ok());
            told.granted();
            pass
        }
        Waited::NoRoom(pass) => {
            told.wrong();
            pass
        }
    }
}

/// Waits with timeout 0, and expects this status.
#[inline(always)]
pub fn try_wait<N: Named, R: Wait>(
    rt: &R,
    alloc: Global,
    front: &Front<N>,
    pass: Pass<N>,
    handles: &[Handle],
    expected: Status,
    told: &mut Measurement,
) -> Pass<N> {
    let Some(asked) = objects(alloc, handles, false, 0) else {
        told.wrong();
        return pass;
    };
    match front.begin(rt, pass, asked) {
        Begun::Done(pass, receipt) => {
            told.called(receipt.result == Ok(Reply::Status(expected)));
            pass
        }
        Begun::Pended(sleeper, _) => {
            told.wrong();
            let (pass, _) = front.sleep(rt, sleeper);
            pass
        }
        Begun::NoRoom(pass) => {
            told.wrong();
            pass
        }
    }
}
