// SPDX-License-Identifier: MIT OR Apache-2.0
//! `ntlook why FILE [--at LINE]` runs a script and reports why its threads wait.
#![tactic(auto)]

use nt_devices::{Counted, Sink};
use nt_faults::{Told, explain, told_by};
use nt_look_commands::{Look, Progress, carry_out, lacks_memory, look_of};
use std::alloc::AllocError;
use std::env::{self, Env, VarError};
use std::fs;
use std::io::{self, ErrorKind, Print};
use std::process::ExitCode;
use std::rt::Files;

/// The words of the command line, the program's own name first. If one is not UTF-8 none is answered, and no words are a fault of usage.
fn words<R: AllocGlobal + Env>(rt: &R) -> Result<Vec<String>, AllocError> {
    let mut words = Vec::new(rt.alloc());
    match env::args(rt) {
        Ok(args) => {
            for word in args {
                words.push(word)?;
            }
        }
        Err(error) => {
            if error.kind() != ErrorKind::InvalidData {
                return Err(AllocError);
            }
        }
    }
    Ok(words)
}

/// Says all about a fault that was reported before of the script that the words ask for, and answers its exit status.
fn explain_fault<F: AllocGlobal + Files, E: Sink>(
    files: &F,
    words: &[String],
    told: &Told,
    errors: &mut E,
) -> u8 {
    match look_of(words) {
        Ok(Look::Why { file, .. } | Look::Timeline { file, .. } | Look::Explore { file, .. }) =>
            explain(files, file, told, errors),
        Err(_) => {}
    }
    2
}

/// Does what the words ask for, and answers the exit status. How far a search is goes to the file that the environment names by `NT_PROGRESS`, if
/// it can be opened. `Err` if there is no memory to read that.
fn look<R: AllocGlobal + Env + Files + Print, E: Sink>(
    rt: &R,
    words: &[String],
    errors: &mut E,
) -> Result<u8, AllocError> {
    match env::var(rt, "NT_PROGRESS") {
        Ok(path) => if let Ok(file) = fs::create(rt, path.as_str()) {
            let mut progress = Progress::new(Counted::new(file));
            return Ok(carry_out(rt, words, errors, &mut progress));
        },
        Err(VarError::NotPresent | VarError::NotUnicode) => {}
        Err(VarError::OutOfMemory) => return Err(AllocError),
    }
    let mut progress = Progress::new(Counted::new(io::sink()));
    Ok(carry_out(rt, words, errors, &mut progress))
}

/// Says more of a fault that was reported, or does what the words ask for, and answers the exit status. `Err` if there is no memory to read what is
/// asked.
fn answer<R: AllocGlobal + Env + Files + Print, E: Sink>(
    rt: &R,
    errors: &mut E,
) -> Result<u8, AllocError> {
    let words = words(rt)?;
    match told_by(rt)? {
        Some(told) => Ok(explain_fault(rt, words.as_slice(), &told, errors)),
        None => look(rt, words.as_slice(), errors),
    }
}

/// The same, where a lack of memory is told too.
fn start<R: AllocGlobal + Env + Files + Print, E: Sink>(rt: &R, errors: &mut E) -> u8 {
    match answer(rt, errors) {
        Ok(status) => status,
        Err(AllocError) => lacks_memory(errors),
    }
}

fn main(rt: HostRuntime) -> ExitCode {
    ExitCode::from(start(&rt, &mut Counted::new(rt.stderr())))
}
