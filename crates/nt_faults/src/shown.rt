//! A line as it is shown, with a mark below it.

use crate::walk::Mark;
use std::alloc::AllocError;
use std::cmp::min;

/// The most columns of a line that are shown, round the mark.
const SHOWN: usize = 200;

/// The bytes of a line that stand before its comment.
pub(crate) fn code_of(line: &[u8]) -> usize {
    line.iter()
        .position(|byte| *byte == b';')
        .unwrap_or(line.len())
}

/// The line without the CR that may end it.
pub(crate) fn without_return(line: &[u8]) -> &[u8] {
    match line {
        [before @ .., b'\r'] => before,
        _ => line,
    }
}

/// Whether the byte can stand in a script before a comment.
fn is_plain(byte: u8) -> bool {
    byte == b'\t' || (b' ' <= byte && byte < 127)
}

/// The place of the first byte that can't stand where it does.
pub(crate) fn bad_byte(line: &[u8]) -> Option<usize> {
    line.iter()
        .take(code_of(line))
        .position(|byte| !is_plain(*byte))
}

fn hex_digit(digit: u8) -> u8 {
    match digit {
        0..=9 => b'0' + digit,
        10..=15 => b'a' + (digit - 10),
        _ => b'?',
    }
}

/// Puts the line as text: a byte that can't stand where it does is shown as `\x` and two digits.
pub(crate) fn put_shown(out: &mut Vec<u8>, line: &[u8]) -> Result<(), AllocError> {
    let code = code_of(line);
    for (at, byte) in line.iter().enumerate() {
        let stands = is_plain(*byte) || (at > code && *byte >= 128);
        if stands {
            out.push(*byte)?;
        } else {
            out.extend_from_slice(&[b'\\', b'x', hex_digit(*byte / 16), hex_digit(*byte % 16)])?;
        }
    }
    Ok(())
}

/// The text without spaces and tabs at its end.
pub(crate) fn without_end(text: &[u8]) -> &[u8] {
    let end = text
        .iter()
        .rposition(|byte| *byte != b' ' && *byte != b'\t');
    match end {
        Some(last) => text.get(..=last).unwrap_or(text),
        None => b"",
    }
}

/// The first column that is shown of a line with this many, where the mark begins at this one.
fn first_shown(columns: usize, start: usize) -> usize {
    min(
        start.saturating_sub(SHOWN / 2),
        columns.saturating_sub(SHOWN),
    )
}

/// Puts a space for each of these bytes, and a tab for a tab.
fn put_blank(out: &mut Vec<u8>, text: &[u8]) -> Result<(), AllocError> {
    for byte in text {
        out.push(if *byte == b'\t' { b'\t' } else { b' ' })?;
    }
    Ok(())
}

/// Puts a byte `times` times.
fn put_times(out: &mut Vec<u8>, byte: u8, times: usize) -> Result<(), AllocError> {
    for _ in 0..times {
        out.push(byte)?;
    }
    Ok(())
}

/// Puts the part of the line round the mark.
fn put_part(out: &mut Vec<u8>, text: &[u8], first: usize) -> Result<(), AllocError> {
    let left = text.get(first..).unwrap_or(b"");
    out.extend_from_slice(if first > 0 { b"  .. " } else { b"  " })?;
    out.extend_from_slice(left.get(..SHOWN).unwrap_or(left))?;
    out.extend_from_slice(if left.len() > SHOWN { b" ..\n" } else { b"\n" })
}

/// Puts the line, or the part of it round the mark, and the mark below it.
pub(crate) fn put_marked(out: &mut Vec<u8>, text: &[u8], mark: Mark) -> Result<(), AllocError> {
    let first = first_shown(text.len(), mark.start);
    put_part(out, text, first)?;
    let before = text
        .get(first..mark.start)
        .unwrap_or(text.get(first..).unwrap_or(b""));
    out.extend_from_slice(if first > 0 { b"     " } else { b"  " })?;
    put_blank(out, before)?;
    put_times(
        out,
        b' ',
        mark.start
            .saturating_sub(first)
            .saturating_sub(before.len()),
    )?;
    put_times(out, b'^', mark.length.clamp(1, SHOWN))?;
    out.extend_from_slice(b"\n")
}
