//! The lines of a script, by lanes.
ghost use Rattle.std.specs.Prelude.{◌≡◌, ◌+◌, ◌++◌, ◌<◌, ◌^◌, [], replicate, slice_index_or, IfOk, IfSome, OnOk};
ghost use Rattle.nt_plans.specs.Gates.{whole_line, with_text};
ghost use Rattle.nt_plans.specs.Kept.{texts_of};

use nt_lines::{first_word, text_of};
use std::alloc::{AllocError, Global};

/// A line of a lane.
#[derive(Drop)]
pub struct Line {
    /// Its number in the script, from 1 on.
    pub number: u64,
    /// Its words, with a space between two.
    pub text: Vec<u8>,
    /// All of it, as it stands, without its LF.
    pub bytes: Vec<u8>,
}

/// Puts the words of a text, with a space between two.
fn put_words(out: &mut Vec<u8>, text: &[u8]) -> Result<(), AllocError> {
    let mut left = text;
    for _word in 0..text.len() {
        let Some((word, rest)) = first_word(left) else {
            return Ok(());
        };
        if !out.is_empty() {
            out.push(b' ')?;
        }
        out.extend_from_slice(word)?;
        left = rest;
    }
    Ok(())
}

/// The words of a line, with a space between two.
fn words_of(alloc: Global, line: &[u8]) -> Result<Vec<u8>, AllocError> {
    let mut text = Vec::new(alloc);
    if let Some(said) = text_of(line) {
        put_words(&mut text, said)?;
    }
    Ok(text)
}

/// A line of a lane, with this number.
pub fn line_of(alloc: Global, number: u64, line: &[u8]) -> Result<Line, AllocError>
    ensures { IfOk result (λ made. (made.number ≡ number) × (made.bytes.items ≡ line.now)) }
{
    Ok(Line {
        number,
        text: words_of(alloc, line)?,
        bytes: Vec::from_slice(alloc, line)?,
    })
}

/// No line yet, in each of `count` lanes.
pub(crate) fn no_lines(alloc: Global, count: usize) -> Result<Vec<Vec<Line>>, AllocError>
    ensures { IfOk result (λ lines. texts_of lines.items ≡ replicate count []) }
{
    let mut lines = Vec::with_capacity(alloc, count)?;
    for _ in 0..count {
        lines.push_reserved(Vec::new(alloc));
    }
    Ok(lines)
}

/// Puts the line last in its lane, if there is that lane.
#[tactic(auto, using(crate::proofs::Lines::texts_added))]
pub(crate) fn push_line(lines: &mut Vec<Vec<Line>>, lane: u32, line: Line) -> Result<(), AllocError>
    ensures { OnOk result (texts_of lines.new.items
        ≡ with_text (texts_of lines.old.items) lane line.bytes.items) }
{
    if lane as usize >= lines.len() {
        return Ok(());
    }
    lines[lane as usize].push(line)?;
    Ok(())
}

/// The lane's line at this place, as it stands.
#[tactic(auto, using(crate::proofs::Lines::bytes_there))]
pub fn bytes_at(lines: &[Vec<Line>], lane: u32, place: usize) -> Option<&[u8]>
    ensures bytes { IfSome result (λ bytes.
        bytes.now ≡ slice_index_or (slice_index_or (texts_of lines.now) lane []) place []) }
    ensures few { IfSome result (λ bytes. place + 1 < 2 ^ 64) }
{
    if lane as usize >= lines.len() {
        return None;
    }
    let own = lines[lane as usize].as_slice();
    if place >= own.len() {
        return None;
    }
    Some(own[place].bytes.as_slice())
}

/// Puts a line as it stands, with an LF.
pub fn put_whole(out: &mut Vec<u8>, line: &[u8]) -> Result<(), AllocError>
    ensures { OnOk result (out.new.items ≡ out.old.items ++ whole_line line.now) }
{
    out.extend_from_slice(line)?;
    out.extend_from_slice(b"\n")
}
