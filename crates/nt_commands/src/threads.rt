//! Running the plan of threads before two writers.

ghost use Rattle.std.specs.Prelude.{◌≡◌, ◌≤◌, ◌&&◌, nat_le};
ghost use Rattle.nt_commands.specs.Telling.{TellsLines, ThreadsEnd};
ghost use Rattle.nt_commands.specs.CommandLine.{are_lawful_counts};

use crate::errors::{OUT_OF_MEMORY, USAGE, say};
use nt_devices::{Sink, write_and_flush};
use nt_threads::{MOST_ROUNDS, MOST_WORKERS, report_of};
use std::alloc::Global;
use std::sync::Wait;
use std::thread::Threads;

/// Runs `workers` threads beside the first one, each for `rounds` rounds, and writes six lines about the run.
///
/// Answers the exit status: 0 where all was done and handed on; 1 where memory was refused or a write failed. It is 2 unless there
/// are 1 to 64 workers and 1 to 1000 rounds. Where memory was refused nothing is written. Why the status is not 0 is said on
/// `errors`; a failure to write that is ignored.
pub fn threads_over<R: Threads + Wait + Sync, W: Sink, E: Sink>(
    rt: &R,
    alloc: Global,
    workers: u32,
    rounds: u32,
    writer: &mut W,
    errors: &mut E,
) -> u8
    ensures { ThreadsEnd workers rounds (W.seen writer.old) (W.seen writer.new)
        (E.seen errors.old) (E.seen errors.new) result }
{
    if !are_lawful(workers, rounds) {
        return say(errors, USAGE, 2);
    }
    match report_of(rt, alloc, workers, rounds) {
        Ok(lines) => tell_lines(lines.as_slice(), writer, errors),
        Err(_) => say(errors, OUT_OF_MEMORY, 1),
    }
}

const WRITE_FAILED: &str = "ntrun: write failed";

/// Writes the lines and hands them on, and answers the exit status. Why it is not 0 is said on `errors`.
fn tell_lines<W: Sink, E: Sink>(lines: &[u8], writer: &mut W, errors: &mut E) -> u8
    ensures { TellsLines lines.now (W.seen writer.old) (W.seen writer.new)
        (E.seen errors.old) (E.seen errors.new) result }
{
    match write_and_flush(writer, lines) {
        Ok(()) => 0,
        Err(_) => say(errors, WRITE_FAILED, 1),
    }
}

/// Whether there may be these numbers of workers and rounds.
fn are_lawful(workers: u32, rounds: u32) -> bool
    ensures { result ≡ are_lawful_counts workers rounds }
{
    1 <= workers && workers <= MOST_WORKERS && 1 <= rounds && rounds <= MOST_ROUNDS
}
