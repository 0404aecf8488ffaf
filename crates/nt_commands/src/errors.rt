//! What is said on standard error.

ghost use Rattle.std.specs.Prelude.{◌≡◌, ◌++◌, codes};
ghost use Rattle.std.specs.Fmt.{decimal};
ghost use Rattle.nt_devices.specs.Device.{Says, WritesBytes};
ghost use Rattle.nt_commands.specs.Ending.{run_message, with_feed};

use nt_devices::{Sink, WriteFailed, write_whole};
use nt_script::RunFault;

pub(crate) const USAGE: &str = "ntrun: usage: ntrun script FILE or ntrun threads N ROUNDS";

pub(crate) const OUT_OF_MEMORY: &str = "ntrun: out of memory";

/// Says a line, and answers the exit status that goes with it. A failure to say it is ignored.
#[tactic(auto, using(crate::proofs::Saying::bytes_said))]
pub fn say<E: Sink>(errors: &mut E, line: &str, status: u8) -> u8
    ensures status { result ≡ status }
    ensures said { Says (E.seen errors.old) (E.seen errors.new) (with_feed line.now) }
{
    let _ = write_line(errors, line);
    status
}

/// Says why a run ended. A failure to say it is ignored.
#[tactic(auto, using(crate::proofs::Saying::bytes_said))]
pub fn tell<E: Sink>(errors: &mut E, fault: RunFault)
    ensures { Says (E.seen errors.old) (E.seen errors.new) (run_message fault) }
{
    let _ = write_message(errors, fault);
}

/// Writes why a run ended.
fn write_message<E: Sink>(errors: &mut E, fault: RunFault) -> Result<(), WriteFailed>
    ensures { WritesBytes (E.seen errors.old) (E.seen errors.new) (run_message fault) result }
{
    match write_place(errors, fault.line()) {
        Ok(()) => write_reason(errors, fault.reason()),
        Err(failed) => Err(failed),
    }
}

/// Writes the beginning of a message, with the line's number.
fn write_place<E: Sink>(errors: &mut E, line: u64) -> Result<(), WriteFailed>
    ensures { WritesBytes (E.seen errors.old) (E.seen errors.new) (codes "ntrun: line " ++ decimal line) result }
{
    match write_whole(errors, b"ntrun: line ") {
        Ok(()) => write_whole(errors, itoa::Buffer::new().format(line).as_bytes()),
        Err(failed) => Err(failed),
    }
}

/// Writes the rest of a message.
fn write_reason<E: Sink>(errors: &mut E, reason: &str) -> Result<(), WriteFailed>
    ensures { WritesBytes (E.seen errors.old) (E.seen errors.new) (codes ": " ++ with_feed reason.now) result }
{
    match write_whole(errors, b": ") {
        Ok(()) => write_line(errors, reason),
        Err(failed) => Err(failed),
    }
}

/// Writes a line.
fn write_line<E: Sink>(errors: &mut E, line: &str) -> Result<(), WriteFailed>
    ensures { WritesBytes (E.seen errors.old) (E.seen errors.new) (with_feed line.now) result }
{
    match write_whole(errors, line.as_bytes()) {
        Ok(()) => write_whole(errors, b"\n"),
        Err(failed) => Err(failed),
    }
}
