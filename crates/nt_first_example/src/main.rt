// SPDX-License-Identifier: MIT OR Apache-2.0
//! The smallest program: one thread waits, and another ends its wait. `docs/EMBEDDING.md` begins with it.
#![tactic(auto)]

use nt_core::Core;
use nt_core_calls::{Calls, Timeout};
use nt_status::{EventFlags, Refusal};
use std::alloc::Global;
use std::io::{self, Write};
use std::process::ExitCode;

/// Thread 0 waits for a new event, and thread 1 sets it: then `core.grants()` lists thread 0, with status 0.
pub fn hand_over(core: &mut Core) -> Result<(), Refusal> {
    let event = core.create_event(0, EventFlags::NONE)?;
    core.wait_one(0, event, Timeout::INFINITE, false)?;
    core.set_event(1, event)
}

/// Hands the event over, and writes whose wait that ended.
fn show(core: &mut Core, out: &mut impl Write) -> Result<(), Refusal> {
    hand_over(core)?;
    for grant in core.grants() {
        let (thread, status) = (grant.thread.get(), grant.status);
        let _ = writeln!(out, "thread {thread}: {status}");
    }
    Ok(())
}

/// Opens a core for two threads, and lets it go at the end.
fn run(alloc: Global, out: &mut impl Write) -> Result<(), Refusal> {
    let mut core = Core::new(alloc, 2)?;
    show(&mut core, out)
}

fn main(rt: HostRuntime) -> ExitCode {
    let mut out = io::writer(&rt);
    match run(rt.alloc(), &mut out) {
        Ok(()) => ExitCode::SUCCESS,
        Err(refusal) => {
            let _ = writeln!(out, "refused: {refusal}");
            ExitCode::FAILURE
        }
    }
}
