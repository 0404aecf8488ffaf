// SPDX-License-Identifier: MIT OR Apache-2.0
//! `ntrun script FILE` runs a script to standard output, and `ntrun threads N ROUNDS` runs real threads and tells of them.
#![tactic(auto)]

use nt_commands::{CommandPlan, PlanFault, carry_out, plan_of};
use nt_devices::{Counted, Sink};
use nt_faults::{Told, explain, told_by};
use std::alloc::AllocError;
use std::env::{self, Env};
use std::io::{ErrorKind, Print};
use std::process::ExitCode;
use std::rt::Files;
use std::sync::Wait;
use std::thread::Threads;

/// The words of the command line, the program's own name first. If one is not UTF-8 none is answered, and no words are a fault of usage.
fn words<R: AllocGlobal + Env>(rt: &R) -> Result<Vec<String>, AllocError> {
    let mut words = Vec::new(rt.alloc());
    match env::args(rt) {
        Ok(args) => {
            for word in args {
                words.push(word)?;
            }
        }
        Err(error) => {
            if error.kind() != ErrorKind::InvalidData {
                return Err(AllocError);
            }
        }
    }
    Ok(words)
}

/// The words of the command line, and the fault of which more is asked for.
fn asked<R: AllocGlobal + Env>(rt: &R) -> Result<(Vec<String>, Option<Told>), AllocError> {
    Ok((words(rt)?, told_by(rt)?))
}

/// Says all about a fault that was reported before of the script that the words ask for, and answers its exit status.
fn explain_fault<R: AllocGlobal + Files, E: Sink>(
    rt: &R,
    words: &[String],
    told: &Told,
    errors: &mut E,
) -> u8 {
    if let Ok(CommandPlan::Script(path)) = plan_of(rt.alloc(), words) {
        explain(rt, path.as_str(), told, errors);
    }
    2
}

/// Does what the words ask for, and answers the exit status.
fn start<R, E: Sink>(rt: &R, errors: &mut E) -> u8
where
    R: AllocGlobal + Env + Files + Print + Threads + Wait + Sync,
{
    match asked(rt) {
        Ok((words, told)) => match told {
            Some(told) => explain_fault(rt, words.as_slice(), &told, errors),
            None => carry_out(rt, plan_of(rt.alloc(), words.as_slice()), errors),
        },
        Err(AllocError) => carry_out(rt, Err(PlanFault::Memory), errors),
    }
}

fn main(rt: HostRuntime) -> ExitCode {
    ExitCode::from(start(&rt, &mut Counted::new(rt.stderr())))
}
