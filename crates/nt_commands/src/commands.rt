//! What is done with a plan.

ghost use Rattle.nt_commands.specs.Ending.{PrintEnds};
ghost use Rattle.nt_commands.specs.Telling.{PlanEnds, PrintThreadsEnd};

use crate::errors::{OUT_OF_MEMORY, USAGE, say};
use crate::plan::{CommandPlan, PlanFault};
use crate::script::run_file;
use crate::threads::threads_over;
use nt_devices::{Counted, Sink};
use std::io::{self, BufWriter, Print};
use std::rt::Files;
use std::sync::Wait;
use std::thread::Threads;

/// Runs the script in this file to standard output, and answers the exit status.
fn print_file<R: Files + AllocGlobal + Print, E: Sink>(rt: &R, path: &str, errors: &mut E) -> u8
    ensures { PrintEnds (E.seen errors.old) (E.seen errors.new) result }
{
    match BufWriter::new(rt.alloc(), io::writer(rt)) {
        Ok(writer) => run_file(rt, path, &mut Counted::new(writer), errors),
        Err(_) => say(errors, OUT_OF_MEMORY, 1),
    }
}

/// Runs threads and tells of them on standard output, and answers the exit status.
fn print_threads<R: AllocGlobal + Print + Threads + Wait + Sync, E: Sink>(
    rt: &R,
    workers: u32,
    rounds: u32,
    errors: &mut E,
) -> u8
    ensures { PrintThreadsEnd workers rounds (E.seen errors.old) (E.seen errors.new) result }
{
    match BufWriter::new(rt.alloc(), io::writer(rt)) {
        Ok(writer) => threads_over(
            rt,
            rt.alloc(),
            workers,
            rounds,
            &mut Counted::new(writer),
            errors,
        ),
        Err(_) => say(errors, OUT_OF_MEMORY, 1),
    }
}

/// Does what was planned, and answers the exit status. What is not done is said on `errors`.
pub fn carry_out<R: Files + AllocGlobal + Print + Threads + Wait + Sync, E: Sink>(
    rt: &R,
    plan: Result<CommandPlan, PlanFault>,
    errors: &mut E,
) -> u8
    ensures { PlanEnds plan (E.seen errors.old) (E.seen errors.new) result }
{
    match plan {
        Ok(CommandPlan::Script(path)) => print_file(rt, path.as_str(), errors),
        Ok(CommandPlan::Threads { workers, rounds }) => print_threads(rt, workers, rounds, errors),
        Err(PlanFault::Usage) => say(errors, USAGE, 2),
        Err(PlanFault::Memory) => say(errors, OUT_OF_MEMORY, 1),
    }
}
