// SPDX-License-Identifier: MIT OR Apache-2.0
//! Four threads that block, on one front: a clock, one that hands out work, and two that do it. `docs/EMBEDDING.md` goes through it.
#![tactic(auto)]

mod clock;
mod fault;
mod host;
mod part;
mod running;
mod shared;
mod starting;
mod work;

use fault::FrontExampleFault;
use running::run;
use std::io::{self, Write};
use std::process::ExitCode;

fn main(rt: HostRuntime) -> ExitCode {
    let mut out = io::writer(&rt);
    match run(&rt, &mut out) {
        Ok(()) => ExitCode::SUCCESS,
        Err(FrontExampleFault::Refused(refusal)) => {
            let _ = writeln!(out, "refused: {refusal}");
            ExitCode::FAILURE
        }
        Err(fault) => {
            let _ = writeln!(out, "{fault:?}");
            ExitCode::from(2)
        }
    }
}
