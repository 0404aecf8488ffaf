//! What a call of the front is made of: the dispatcher's own work, the journal's entry, and the lock.
ghost use Rattle.std.specs.Prelude.{◌≡◌};
ghost use Rattle.nt_mail.specs.Packed.{hands_apc};

use crate::moves::{nanos_since, now, objects};
use crate::told::{FrontBenchFault, Measurement};
use nt_core::{Act, Call, Core, Reply};
use nt_front::PackedEntry;
use nt_status::{Handle, Refusal, Status, ThreadId};
use std::alloc::Global;
use std::sync::{Mutex, Wait};
use std::time::Clock;

/// The event of these shapes: the one thread has the first handle.
const EVENT: u32 = 1;

fn set() -> Call {
    Call::Act(Act::SetEvent(Handle::new(EVENT)))
}

fn try_wait(alloc: Global) -> Result<Call, FrontBenchFault> {
    match objects(alloc, &[Handle::new(EVENT)], false, 0) {
        Some(asked) => Ok(Call::Wait(asked)),
        None => Err(FrontBenchFault::Memory),
    }
}

/// Sets the event, and takes it by a wait.
fn core_rounds(
    core: &mut Core,
    alloc: Global,
    rounds: u32,
    told: &mut Measurement,
) -> Result<(), FrontBenchFault> {
    for _ in 0..rounds {
        told.called(core.call(0, &set()).is_ok());
        let wait = try_wait(alloc)?;
        let result = core.call(0, &wait);
        told.called(result == Ok(Reply::Status(Status::object(0))));
    }
    Ok(())
}

/// Whether an APC is answered, as these shapes ask for none.
fn is_apc(answer: &Result<Reply, Refusal>) -> bool
    ensures { result ≡ hands_apc answer.now }
{
    matches!(answer, Ok(Reply::Apc(_)))
}

/// Carries the call out, and writes it with its result. It is inlined, as those of `moves` are.
#[inline(always)]
fn write(
    core: &mut Core,
    journal: &mut Vec<PackedEntry>,
    call: Call,
) -> Result<Result<Reply, Refusal>, FrontBenchFault> {
    let result = core.call(0, &call);
    if is_apc(&result) {
        drop(call);
        return Err(FrontBenchFault::Wrong);
    }
    let told = result;
    let entry = PackedEntry::called(ThreadId::new(0), call, result);
    match journal.push(entry) {
        Ok(()) => Ok(told),
        Err(_) => Err(FrontBenchFault::Memory),
    }
}

fn written_rounds(
    core: &mut Core,
    journal: &mut Vec<PackedEntry>,
    alloc: Global,
    rounds: u32,
    told: &mut Measurement,
) -> Result<(), FrontBenchFault> {
    for _ in 0..rounds {
        told.called(write(core, journal, set())?.is_ok());
        let result = write(core, journal, try_wait(alloc)?)?;
        told.called(result == Ok(Reply::Status(Status::object(0))));
    }
    Ok(())
}

/// Creates the event.
fn set_stage(core: &mut Core, told: &mut Measurement) {
    let created = core.call(0, &Call::Act(Act::CreateEvent(0)));
    told.called(created.is_ok());
    told.begin();
}

fn time_core<R: Clock>(
    rt: &R,
    core: &mut Core,
    alloc: Global,
    rounds: u32,
) -> Result<Measurement, FrontBenchFault> {
    let mut told = Measurement::default();
    set_stage(core, &mut told);
    let began = now(rt);
    core_rounds(core, alloc, rounds, &mut told)?;
    told.nanos = nanos_since(rt, began);
    Ok(told)
}

fn time_both<R: Clock>(
    rt: &R,
    core: &mut Core,
    journal: &mut Vec<PackedEntry>,
    alloc: Global,
    rounds: u32,
) -> Result<Measurement, FrontBenchFault> {
    let mut told = Measurement::default();
    set_stage(core, &mut told);
    let began = now(rt);
    written_rounds(core, journal, alloc, rounds, &mut told)?;
    told.nanos = nanos_since(rt, began);
    Ok(told)
}

/// The rounds on the dispatcher alone.
pub fn core_alone<R: Clock>(
    rt: &R,
    alloc: Global,
    rounds: u32,
) -> Result<Measurement, FrontBenchFault> {
    let mut core = Core::new(alloc, 1)?;
    let told = time_core(rt, &mut core, alloc, rounds);
    drop(core);
    told
}

/// The rounds on the dispatcher, each call written into a journal.
pub fn core_and_journal<R: Clock>(
    rt: &R,
    alloc: Global,
    rounds: u32,
) -> Result<Measurement, FrontBenchFault> {
    let mut journal = Vec::with_capacity(alloc, (rounds as usize).saturating_mul(2))?;
    core_beside(rt, alloc, rounds, &mut journal)
}

fn core_beside<R: Clock>(
    rt: &R,
    alloc: Global,
    rounds: u32,
    journal: &mut Vec<PackedEntry>,
) -> Result<Measurement, FrontBenchFault> {
    let mut core = Core::new(alloc, 1)?;
    let told = time_both(rt, &mut core, journal, alloc, rounds);
    drop(core);
    told
}

/// A lock is taken and given back.
pub fn bare_lock<R: Wait + Clock>(rt: &R, rounds: u32) -> Measurement {
    let lock = Mutex::new(0_u64);
    let mut told = Measurement::default();
    let began = now(rt);
    for _ in 0..rounds {
        let mut held = lock.lock(rt);
        *held = held.wrapping_add(1);
    }
    told.nanos = nanos_since(rt, began);
    told.calls = lock.into_inner();
    told
}
