//! Running a script between a reader and two writers.

ghost use Rattle.std.specs.Prelude.{◌≡◌, ◌-◌, ◌+◌, ◌<◌, ◌^◌, true, false, Err, IfOk, IfErr};
ghost use Rattle.std.specs.Io.KnownBytes.{Keeps};
ghost use Rattle.nt_devices.specs.Device.{one_more};
ghost use Rattle.nt_script.specs.declared.fault.RunFault.TheVariants.{Write};
ghost use Rattle.nt_commands.specs.Ending.{CountsReads, FileEnds, IsFlushed, Outcome, ScriptEnds, run_status};

use crate::errors::{say, tell};
use nt_devices::{Counted, Sink, Source};
use nt_script::{RunFault, Summary, run};
use std::alloc::Global;
use std::fs;
use std::rt::Files;

/// Runs the script that the reader gives, and answers the exit status: 0 where it was done, 2 where the script has a fault,
/// 1 where reading, writing or memory failed. Why it is not 0 is said on `errors`; a failure to write that is ignored.
pub fn script_over<R: Source, W: Sink, E: Sink>(
    alloc: Global,
    reader: &mut R,
    writer: &mut W,
    errors: &mut E,
) -> u8
    requires read_failures { (R.seen reader.old).failed < 2 ^ 64 - 1 }
    requires write_failures { (W.seen writer.old).failed < 2 ^ 64 - 1 }
    ensures { ScriptEnds (R.seen reader.old) (R.seen reader.new) (W.seen writer.old) (W.seen writer.new)
        (E.seen errors.old) (E.seen errors.new) result }
{
    match run_and_flush(alloc, reader, writer) {
        Ok(_) => 0,
        Err(fault) => {
            tell(errors, fault);
            status_of(fault)
        }
    }
}

/// Runs the script in this file, and answers the exit status as `script_over` does; 1 where the file can't be opened, which
/// is said on `errors`.
pub fn run_file<F: Files + AllocGlobal, W: Sink, E: Sink>(
    files: &F,
    path: &str,
    writer: &mut W,
    errors: &mut E,
) -> u8
    requires { (W.seen writer.old).failed < 2 ^ 64 - 1 }
    ensures { FileEnds (W.seen writer.old) (W.seen writer.new) (E.seen errors.old) (E.seen errors.new) result }
{
    match fs::open(files, path) {
        Ok(file) => script_over(files.alloc(), &mut Counted::new(file), writer, errors),
        Err(_) => say(errors, "ntrun: cannot open", 1),
    }
}

/// Runs the script, and then hands on what the writer holds back. After a failed write nothing more is written.
fn run_and_flush<R: Source, W: Sink>(
    alloc: Global,
    reader: &mut R,
    writer: &mut W,
) -> Result<Summary, RunFault>
    requires read_failures { (R.seen reader.old).failed < 2 ^ 64 - 1 }
    requires write_failures { (W.seen writer.old).failed < 2 ^ 64 - 1 }
    ensures { Outcome (R.seen reader.old) (R.seen reader.new) (W.seen writer.old) (W.seen writer.new) result
        × CountsReads (R.seen reader.old) (R.seen reader.new) result }
{
    match run(alloc, reader, writer) {
        Ok(summary) => hand_on(summary, writer),
        Err(RunFault::Write { line }) => Err(RunFault::Write { line }),
        Err(fault) => {
            try_to_hand_on(writer);
            Err(fault)
        }
    }
}

/// Hands on what the writer holds back of a script that was run to its end.
fn hand_on<W: Sink>(summary: Summary, writer: &mut W) -> Result<Summary, RunFault>
    requires lines { summary.lines < 2 ^ 64 - 1 }
    ensures kept { Keeps (W.seen writer.old).held (W.seen writer.new).held }
    ensures ok { IfOk result (λ told. (told ≡ summary) × ((W.seen writer.new).failed ≡ (W.seen writer.old).failed)
        × ((W.seen writer.new).handed_on ≡ true)) }
    ensures err { IfErr result (λ fault. (fault ≡ Write (summary.lines + 1))
        × ((W.seen writer.new).failed ≡ one_more (W.seen writer.old).failed) × ((W.seen writer.new).handed_on ≡ false)) }
{
    match writer.flush_counted() {
        Ok(()) => Ok(summary),
        Err(_) => Err(RunFault::Write {
            line: summary.lines + 1,
        }),
    }
}

/// Tries to hand on what the writer holds back of a script that has a fault. The fault is reported whether or not this fails.
fn try_to_hand_on<W: Sink>(writer: &mut W)
    requires { (W.seen writer.old).failed < 2 ^ 64 - 1 }
    ensures kept { Keeps (W.seen writer.old).held (W.seen writer.new).held }
    ensures flushed { IsFlushed (W.seen writer.old) (W.seen writer.new) }
{
    let _ = writer.flush_counted();
}

/// The exit status of a run that was not done.
fn status_of(fault: RunFault) -> u8
    ensures { result ≡ run_status (Err fault) }
{
    match fault {
        RunFault::Script { .. } => 2,
        RunFault::Read { .. } | RunFault::Write { .. } | RunFault::Memory { .. } => 1,
    }
}
