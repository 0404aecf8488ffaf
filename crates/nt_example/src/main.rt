// SPDX-License-Identifier: MIT OR Apache-2.0
//! Three guest threads on one dispatcher, driven as an emulator drives them. `docs/EMBEDDING.md` goes through it.
#![tactic(auto)]

mod driver;
mod fault;
mod guests;

use fault::Fault;
use guests::run;
use std::io::{self, Write};
use std::process::ExitCode;

fn main(rt: HostRuntime) -> ExitCode {
    let mut out = io::writer(&rt);
    match run(rt.alloc(), &mut out) {
        Ok(()) => ExitCode::SUCCESS,
        Err(Fault::Refused(refusal)) => {
            let _ = writeln!(out, "refused: {refusal}");
            ExitCode::FAILURE
        }
        Err(Fault::Output) => ExitCode::from(2),
    }
}
