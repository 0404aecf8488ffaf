//! Each thread of the plan runs beside the others: one is held in its first wait until another has come to its own.
use crate::expect::expect;
use crate::refused::tell_refused;
use crate::threads::door::{Answering, MemoryDoor};
use nt_core::{Act, Call, Reply};
use nt_status::{Handle, Refusal, Status, ThreadId};
use nt_threads::drive;
use std::alloc::{AllocError, Global};
use std::sync::Wait;
use std::sync::atomic::{AtomicBool, Ordering};
use std::test::Fail;
use std::thread;
use std::thread::Threads;

/// How often a held thread gives up its turn.
const TURNS: u32 = 1_000_000;

/// Whether the second worker has come to a wait, and whether the first worker waited in vain for that.
#[derive(Drop)]
struct Gate {
    has_come: AtomicBool,
    in_vain: AtomicBool,
}

impl Gate {
    fn new() -> Gate {
        Gate {
            has_come: AtomicBool::new(false),
            in_vain: AtomicBool::new(false),
        }
    }

    /// Returns once the second worker has come.
    fn hold(&self) {
        for _ in 0..TURNS {
            if self.has_come.load(Ordering::SeqCst) {
                return;
            }
            thread::yield_now();
        }
        self.in_vain.store(true, Ordering::SeqCst);
    }
}

/// Accepts each call. The first worker's waits are answered once the second has come to one.
#[derive(Drop)]
struct Accepting<'g>(&'g Gate);

impl<'g> Answering for Accepting<'g> {
    fn answer<R: Wait>(&mut self, _rt: &R, who: ThreadId, call: &Call) -> Result<Reply, Refusal> {
        match call {
            Call::Wait(_) => {
                match who.get() {
                    1 => self.0.hold(),
                    2 => self.0.has_come.store(true, Ordering::SeqCst),
                    _ => {}
                }
                Ok(Reply::Status(Status::object(0)))
            }
            Call::Act(Act::CreateMutex(_) | Act::CreateSemaphore { .. } | Act::CreateEvent(_)) => {
                Ok(Reply::Handle(Handle::new(3)))
            }
            _ => Ok(Reply::Done),
        }
    }
}

/// Whether the plan of two workers was carried out whole.
fn carry_out<R: Threads + Wait + Sync>(
    rt: &R,
    alloc: Global,
    gate: &Gate,
) -> Result<bool, AllocError> {
    let mut doors = Vec::with_capacity(alloc, 3)?;
    let back = Vec::with_capacity(alloc, 3)?;
    doors.push_reserved(MemoryDoor::new(alloc, 0, 6, Accepting(gate))?);
    doors.push_reserved(MemoryDoor::new(alloc, 1, 6, Accepting(gate))?);
    doors.push_reserved(MemoryDoor::new(alloc, 2, 6, Accepting(gate))?);
    Ok(drive(rt, alloc, doors, back, 1).whole)
}

#[test]
fn hold_until_answered(rt: HostRuntime) -> Result<(), Fail> {
    let gate = Gate::new();
    match carry_out(&rt, rt.alloc(), &gate) {
        Ok(true) => expect(&rt, !gate.in_vain.load(Ordering::SeqCst), "a held answer"),
        Ok(false) => tell_refused(&rt, "the plan"),
        Err(_) => tell_refused(&rt, "the test itself"),
    }
    Ok(())
}
