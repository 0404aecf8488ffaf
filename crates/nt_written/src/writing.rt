//! A call as the line of a script, so that a run can be looked at, and made again.

ghost use Rattle.std.specs.Prelude.{◌≡◌, ◌<◌, ◌≤◌, ◌+◌, ℕ, Option, None, OnOk, OnErr, IfErr, IfSome, length, vec_len, vec_capacity};
ghost use Rattle.nt_lines.specs.declared.input.TheConstants.{MAX_LINE};
ghost use Rattle.nt_grammar.specs.Spelling.{statement_text};
ghost use Rattle.nt_grammar.specs.Naming.{handle_of};
ghost use Rattle.nt_written.specs.Written.{statement_for, IsWritten, IsUnwritten};
ghost use Rattle.nt_written.specs.Writing.{has_words, objects_in, room_of};
ghost use Rattle.nt_written.specs.declared.writing.Unwritten.TheVariants.{Memory};

use crate::written_calls::put_call;
use nt_calls::{Act, Call, Reply, WaitCall};
use nt_grammar::handle_of;
use nt_lines::{MAX_DIGITS, MAX_LINE, put};
use nt_status::{Refusal, ThreadId};
use std::alloc::AllocError;

/// Why a call was not written as a line.
#[derive(Clone, Copy, Debug, PartialEq, Eq)]
pub enum Unwritten {
    /// No line of a script is this call: it creates an object with a flag that there is not.
    Unsayable,
    /// The call's text has more than the 4096 bytes of a line.
    TooLong,
    /// Memory was refused.
    Memory,
}

impl From<AllocError> for Unwritten {
    ghost from_gives = { λ _ cause. cause ≡ Memory };

    fn from(_error: AllocError) -> Unwritten {
        Unwritten::Memory
    }
}

/// The most bytes in a line before the objects of a wait.
const FEW_BYTES: usize = 192;

/// The most bytes of a number, with the space before it.
const NUMBER_BYTES: usize = 1 + MAX_DIGITS;

/// Writes a thread's call, which answered this, as a line after what `out` has; where it can't, `out` has what it had.
///
/// Objects are written by the numbers of their handles. A creation that answered handle 7 has the name `h7`, and one that was
/// refused has the name `refused`, which then stands for nothing.
pub fn write_line(
    out: &mut Vec<u8>,
    who: ThreadId,
    call: &Call,
    answer: &Result<Reply, Refusal>,
) -> Result<(), Unwritten>
    ensures ok { OnOk result (IsWritten
        (statement_for who call.now (handle_of answer.now)) out.old.items out.new.items) }
    ensures err { IfErr result (IsUnwritten (statement_for who call.now (handle_of answer.now))) }
    ensures unchanged { OnErr result (out.new.items ≡ out.old.items) }
{
    if !has_words(call) {
        return Err(Unwritten::Unsayable);
    }
    let room = room_for(call).ok_or(Unwritten::TooLong)?;
    out.reserve(room)?;
    let start = out.len();
    put_call(out, who, call, handle_of(answer));
    if out.len() - start > MAX_LINE {
        out.truncate(start);
        return Err(Unwritten::TooLong);
    }
    put(out, b"\n");
    Ok(())
}

/// Whether each flag of the call has a word.
fn has_words(call: &Call) -> bool
    ensures { result ≡ has_words call.now }
{
    match call {
        Call::Act(Act::CreateEvent(flags)) => *flags < 4,
        Call::Act(Act::CreateMutex(flags) | Act::CreateTimer(flags)) => *flags < 2,
        _ => true,
    }
}

/// Room for a call's line, or none where it has too many objects for any.
fn room_for(call: &Call) -> Option<usize>
    ensures some { IfSome result (λ room. room ≡ room_of call.now) }
    ensures none { result ≡ None → (who : ℕ) (created : Option ℕ)
        → MAX_LINE < length (statement_text (statement_for who call.now created)) }
{
    let count = objects_in(call);
    if count <= MAX_LINE {
        Some(FEW_BYTES + NUMBER_BYTES * count)
    } else {
        None
    }
}

/// How many objects a call's line ends with.
fn objects_in(call: &Call) -> usize
    ensures { result ≡ objects_in call.now }
{
    match call {
        Call::Wait(WaitCall::Objects { handles, .. }) => handles.as_slice().len(),
        _ => 0,
    }
}
