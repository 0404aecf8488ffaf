//! A script that is run once more, up to the line with its fault.

use crate::message::{put_message, put_place};
use crate::told::Told;
use nt_devices::{Counted, Sink, Source, write_whole};
use nt_lines::ReadFault;
use nt_script::{RunFault, Runner};
use std::alloc::{AllocError, Global};
use std::rt::Files;
use std::{fs, io};

/// Whether all lines before this one were carried out, and there were as many. The last may lack its LF.
fn is_passed(number: u64, passed: Result<Option<u64>, RunFault>) -> bool {
    match passed {
        Ok(None) => true,
        Ok(Some(count)) => number.saturating_sub(1) == count,
        Err(_) => false,
    }
}

/// All about a fault of the script that the reader gives.
fn message_of<R: Source>(
    alloc: Global,
    reader: &mut R,
    told: &Told,
) -> Result<Vec<u8>, AllocError> {
    let mut runner = Runner::new(alloc)?;
    let mut out = Vec::new(alloc);
    let number = told.line.max(1);
    let passed = runner.pass_to(alloc, number, reader, &mut Counted::new(io::sink()));
    let is_reached = is_passed(number, passed)
        && !matches!(runner.read_line(reader), Err(ReadFault::Failed));
    if is_reached {
        let bindings = runner.session().map(|session| session.bindings());
        put_message(alloc, &mut out, told, runner.line(), bindings)?;
    } else {
        put_place(&mut out, told, None)?;
    }
    Ok(out)
}

/// Runs the script in this file once more, up to the line whose fault was reported, and says all about it on `errors`. A failure to read the file
/// or to say it is ignored, and so is a want of memory: the fault itself was reported before.
pub fn explain<F: Files + AllocGlobal, E: Sink>(
    files: &F,
    path: &str,
    told: &Told,
    errors: &mut E,
) {
    if let Ok(file) = fs::open(files, path) {
        if let Ok(message) = message_of(files.alloc(), &mut Counted::new(file), told) {
            let _ = write_whole(errors, message.as_slice());
        }
    }
}
