//! Why the threads of a script wait, between a reader and two writers.
ghost use Rattle.std.specs.Prelude.{◌≡◌, IfOk, Ok, Some};
ghost use Rattle.nt_hangs.specs.Ending.{is_past, past_text, FileTold, SaysPast, Shows, ShowsFound, TellsAsked, TellsFault, TellsInput, WhyEnds};

use crate::errors::{lacks_memory, message_of, say, status_of};
use crate::input::{before_zero, lines_in};
use crate::reading::{InputFault, read_whole};
use crate::refusals::warn;
use crate::reports::{Found, Report, report_on};
use nt_devices::{Counted, Sink, Source, write_and_flush};
use nt_script::RunFault;
use nt_wording::put_number;
use std::alloc::{AllocError, Global};
use std::fs;
use std::rt::Files;

/// Writes the report, and answers its exit status; 1 if it could not be handed on, which is said.
pub fn show<W: Sink, E: Sink>(report: &Report, writer: &mut W, errors: &mut E) -> u8
    ensures { Shows report.now.text.items report.now.code (W.seen writer.old) (W.seen writer.new)
        (E.seen errors.old) (E.seen errors.new) result }
{
    match write_and_flush(writer, report.text.as_slice()) {
        Ok(()) => report.code,
        Err(_) => say(errors, b"ntlook: write failed\n", 1),
    }
}

/// Writes the report, says which calls were refused, if any were, and answers the exit status: that of the report, or 2 where calls were refused
/// and that counts as a fault; 1 if the report could not be handed on, which is said.
pub fn show_found<W: Sink, E: Sink>(
    found: &Found,
    strict: bool,
    writer: &mut W,
    errors: &mut E,
) -> u8
    ensures { ShowsFound found.now strict (W.seen writer.old) (W.seen writer.new)
        (E.seen errors.old) (E.seen errors.new) result }
{
    match write_and_flush(writer, found.report.text.as_slice()) {
        Ok(()) => warn(
            errors,
            found.refused,
            found.line.as_slice(),
            strict,
            found.report.code,
        ),
        Err(_) => say(errors, b"ntlook: write failed\n", 1),
    }
}

/// Says why the script was not run to the line, and answers the exit status.
pub fn tell<E: Sink>(alloc: Global, fault: RunFault, errors: &mut E) -> u8
    ensures { TellsFault fault (E.seen errors.old) (E.seen errors.new) result }
{
    match message_of(alloc, fault) {
        Ok(line) => say(errors, line.as_slice(), status_of(fault)),
        Err(_) => lacks_memory(errors),
    }
}

/// What is said where line `last` is asked for and the script has only `count` lines.
fn past_line(alloc: Global, last: u64, count: u64) -> Result<Vec<u8>, AllocError>
    ensures { IfOk result (λ line. line.items ≡ past_text (Some last) count) }
{
    let mut line = Vec::new(alloc);
    line.extend_from_slice(b"ntlook: --at ")?;
    put_number(&mut line, last)?;
    line.extend_from_slice(b": no such line\n  the script has lines 1 to ")?;
    put_number(&mut line, count)?;
    line.extend_from_slice(b"\n")?;
    Ok(line)
}

/// Says that the script has only `count` lines, and answers the exit status.
fn say_past<E: Sink>(alloc: Global, last: u64, count: u64, errors: &mut E) -> u8
    ensures { SaysPast (past_text (Some last) count) (E.seen errors.old) (E.seen errors.new) result }
{
    match past_line(alloc, last, count) {
        Ok(line) => say(errors, line.as_slice(), 2),
        Err(_) => lacks_memory(errors),
    }
}

/// Shows what was found, unless the line that is asked for comes after line `count`, the last one.
fn show_asked<W: Sink, E: Sink>(
    alloc: Global,
    found: &Found,
    last: Option<u64>,
    count: u64,
    strict: bool,
    writer: &mut W,
    errors: &mut E,
) -> u8
    ensures { TellsAsked (is_past last count) (past_text last count) (Ok found.now) strict
        (W.seen writer.old) (W.seen writer.new) (E.seen errors.old) (E.seen errors.new) result }
{
    match last {
        Some(last) if count < last => say_past(alloc, last, count, errors),
        _ => show_found(found, strict, writer, errors),
    }
}

/// Reports on these bytes.
fn why_input<W: Sink, E: Sink>(
    alloc: Global,
    file: &[u8],
    input: &[u8],
    last: Option<u64>,
    strict: bool,
    writer: &mut W,
    errors: &mut E,
) -> u8
    ensures { TellsInput file.now input.now last strict (W.seen writer.old) (W.seen writer.new)
        (E.seen errors.old) (E.seen errors.new) result }
{
    match report_on(alloc, file, input, last) {
        Ok(found) => {
            let count = lines_in(before_zero(input));
            show_asked(alloc, &found, last, count, strict, writer, errors)
        }
        Err(fault) => tell(alloc, fault, errors),
    }
}

/// Runs the script that the reader gives up to a line, or to its end, and writes why its threads wait there. `file` is what the report
/// calls the script.
///
/// Answers the exit status: 0 if nobody waits; 4 if nothing rules out that the waits end; 3 if some never end; 2 if a line has a fault, there is no line
/// with the number `last`, or, where that is `strict`, a call was refused; 1 if reading, writing or memory failed. Of 1, 2 and refused calls a line
/// on `errors` tells; a failure to write that is ignored.
pub fn why_over<R: Source, W: Sink, E: Sink>(
    alloc: Global,
    file: &[u8],
    last: Option<u64>,
    strict: bool,
    reader: &mut R,
    writer: &mut W,
    errors: &mut E,
) -> u8
    ensures { WhyEnds file.now last strict (R.seen reader.old) (R.seen reader.new)
        (W.seen writer.old) (W.seen writer.new) (E.seen errors.old) (E.seen errors.new) result }
{
    match read_whole(alloc, reader) {
        Ok(input) => why_input(alloc, file, input.as_slice(), last, strict, writer, errors),
        Err(InputFault::Failed) => say(errors, b"ntlook: read failed\n", 1),
        Err(InputFault::Memory) => lacks_memory(errors),
    }
}

/// The same of the script in this file; 1 where it can't be opened, which is said on `errors`.
pub fn why_file<F: Files + AllocGlobal, W: Sink, E: Sink>(
    files: &F,
    path: &str,
    last: Option<u64>,
    strict: bool,
    writer: &mut W,
    errors: &mut E,
) -> u8
    ensures { FileTold path.now last strict (W.seen writer.old) (W.seen writer.new) (E.seen errors.old) (E.seen errors.new) result }
{
    match fs::open(files, path) {
        Ok(file) => why_over(
            files.alloc(),
            path.as_bytes(),
            last,
            strict,
            &mut Counted::new(file),
            writer,
            errors,
        ),
        Err(_) => say(errors, b"ntlook: cannot open\n", 1),
    }
}
