//! A second dispatcher that is equal to the first, and goes its own way.
ghost use Rattle.std.specs.Prelude.{◌≡◌, ◌≤◌, IfOk, IfErr, vec_capacity};
ghost use Rattle.nt_status.specs.declared.refusal.Refusal.TheVariants.{Memory};

use nt_calls::Grant;
use nt_machine::Machine;
use nt_status::Refusal;
use std::alloc::{AllocError, Global};

/// The same grants, with room for one of each thread.
fn copy_grants(alloc: Global, threads: usize, grants: &[Grant]) -> Result<Vec<Grant>, AllocError>
    ensures items { IfOk result (λ copied. copied.items ≡ grants.now) }
    ensures room { IfOk result (λ copied. threads ≤ vec_capacity copied) }
{
    let mut copied = Vec::from_slice(alloc, grants)?;
    copied.reserve(threads.saturating_sub(grants.len()))?;
    Ok(copied)
}

/// An equal machine in memory of its own.
pub(crate) fn copy(machine: &Machine) -> Result<Machine, Refusal>
    ensures value { IfOk result (λ copied. copied ≡ machine.now) }
    ensures memory { IfErr result (λ refusal. refusal ≡ Memory) }
{
    let alloc = *machine.grants.allocator();
    let apcs = machine.apcs.copy()?;
    let handles = machine.handles.copy()?;
    let handing = Vec::from_slice(alloc, &machine.handing)?;
    let standings = Vec::from_slice(alloc, &machine.standings)?;
    let failed = Vec::from_slice(alloc, &machine.failed)?;
    let grants = copy_grants(alloc, machine.threads as usize, &machine.grants)?;
    let objects = machine.objects.copy()?;
    let alerted = machine.alerted.copy()?;
    let (alarms, leaving, changed) = machine
        .alarms
        .copy_with(&machine.leaving, &machine.changed)?;
    Ok(Machine {
        threads: machine.threads,
        handles,
        objects,
        waits: machine.waits.copy()?,
        apcs,
        handing,
        standings,
        failed,
        moment: machine.moment,
        grants,
        alarms,
        leaving,
        changed,
        alerted,
    })
}
