//! Which calls of a run were refused, in words.
ghost use Rattle.std.specs.Prelude.{◌≡◌, nat_lt};
ghost use Rattle.nt_hangs.specs.Ending.{refused_code, Warns};

use crate::errors::say;
use nt_devices::Sink;
use nt_lines::{MAX_DIGITS, number_of};
use nt_wording::put_number;
use std::alloc::{AllocError, Global};

/// The most refused calls that are listed one by one.
const MOST_TOLD: u64 = 20;

/// Why a call is refused with this number.
fn reason_of(number: u64) -> &'static [u8] {
    match number {
        5 => b"a right lacks",
        6 => b"no such object",
        31 => b"the thread has ended",
        87 => b"an argument that no state allows",
        288 => b"the mutex is another's, or free",
        298 => b"above the maximum",
        0x2000_0001 => b"the caller waits",
        0x2000_0002 => b"the caller has ended",
        0x2000_0003 => b"no such thread",
        0x2000_0004 => b"the mutex is held at the greatest depth",
        0x2000_0005 => b"the moment is past",
        0x2000_0007 => b"all handle numbers are used",
        _ => b"refused",
    }
}

/// The number in what a line says of a refused call, as `4: error 6` and an LF.
fn error_in(said: &[u8]) -> Option<u64> {
    let place = said.iter().position(|byte| *byte == b':')?;
    let digits = said.get(place..)?.strip_prefix(b": error ")?;
    number_of(digits.strip_suffix(b"\n")?, MAX_DIGITS)
}

/// Puts the call of the line with this number, which was refused with this error.
fn put_refusal(words: &mut Vec<u8>, count: u64, number: u64, error: u64) -> Result<(), AllocError> {
    words.extend_from_slice(if count > 0 { b", line " } else { b" line " })?;
    put_number(words, number)?;
    words.extend_from_slice(b" error ")?;
    put_number(words, error)?;
    words.push(b' ')?;
    words.extend_from_slice(reason_of(error))
}

/// Notes the call of the line with this number, if what the line said is that it was refused. `count` is how many were before it. Answers how many were.
pub(crate) fn note_refusal(
    words: &mut Vec<u8>,
    count: u64,
    number: u64,
    said: &[u8],
) -> Result<u64, AllocError> {
    let Some(error) = error_in(said) else {
        return Ok(count);
    };
    if count < MOST_TOLD {
        put_refusal(words, count, number, error)?;
    }
    Ok(count.saturating_add(1))
}

/// The line that tells which calls were refused: how many, and the words that were noted of them. Empty where none was.
pub fn refusals_line(alloc: Global, count: u64, words: &[u8]) -> Result<Vec<u8>, AllocError> {
    let mut line = Vec::new(alloc);
    if count == 0 {
        return Ok(line);
    }
    line.extend_from_slice(b"ntlook: ")?;
    put_number(&mut line, count)?;
    line.extend_from_slice(if count == 1 {
        b" call was refused:"
    } else {
        b" calls were refused:"
    })?;
    line.extend_from_slice(words)?;
    if count > MOST_TOLD {
        line.extend_from_slice(b", ..")?;
    }
    line.push(b'\n')?;
    Ok(line)
}

/// The exit status of a report, where `refused` calls were refused: 2 where one was, if `strict` counts that as a fault.
fn refused_code(strict: bool, refused: u64, code: u8) -> u8
    ensures { result ≡ refused_code strict refused code }
{
    if refused > 0 && strict { 2 } else { code }
}

/// Says which calls were refused, if any were, and answers the exit status of the report. A failure to say it is ignored.
pub(crate) fn warn<E: Sink>(errors: &mut E, refused: u64, line: &[u8], strict: bool, code: u8) -> u8
    ensures { Warns (nat_lt 0 refused) line.now (refused_code strict refused code) (E.seen errors.old) (E.seen errors.new) result }
{
    let status = refused_code(strict, refused, code);
    if refused > 0 {
        say(errors, line, status)
    } else {
        status
    }
}
