//! What is said on standard error.
ghost use Rattle.std.specs.Prelude.{◌≡◌, ◌++◌, IfOk, OnOk, Err};
ghost use Rattle.nt_devices.specs.Device.{Says};
ghost use Rattle.nt_hangs.specs.Ending.{hang_message, hang_status, SaysMemory};

use nt_devices::{Sink, write_whole};
use nt_script::RunFault;
use nt_wording::put_number;
use std::alloc::{AllocError, Global};

/// Says a line, and answers the exit status that goes with it. A failure to say it is ignored.
pub fn say<E: Sink>(errors: &mut E, line: &[u8], status: u8) -> u8
    ensures status { result ≡ status }
    ensures said { Says (E.seen errors.old) (E.seen errors.new) line.now }
{
    let _ = write_whole(errors, line);
    status
}

/// Says that memory was refused, and answers the exit status.
pub fn lacks_memory<E: Sink>(errors: &mut E) -> u8
    ensures { SaysMemory (E.seen errors.old) (E.seen errors.new) result }
{
    say(errors, b"ntlook: out of memory\n", 1)
}

/// The line that tells why a run ended.
pub(crate) fn message_of(alloc: Global, fault: RunFault) -> Result<Vec<u8>, AllocError>
    ensures { IfOk result (λ line. line.items ≡ hang_message fault) }
{
    let mut line = Vec::new(alloc);
    line.extend_from_slice(b"ntlook: line ")?;
    put_number(&mut line, fault.line())?;
    line.extend_from_slice(b": ")?;
    line.extend_from_slice(fault.reason().as_bytes())?;
    line.push(b'\n')?;
    Ok(line)
}

/// The exit status of a run that was not done.
pub(crate) fn status_of(fault: RunFault) -> u8
    ensures { result ≡ hang_status fault }
{
    match fault {
        RunFault::Script { .. } => 2,
        RunFault::Read { .. } | RunFault::Write { .. } | RunFault::Memory { .. } => 1,
    }
}
