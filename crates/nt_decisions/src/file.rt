//! A file, as it is read.

ghost use Rattle.std.specs.Prelude.{◌≡◌, ◌<◌, ◌≤◌, length, position, MatchResult, OnOk, IfErr, IfSome, Some};
ghost use Rattle.std.specs.List.{position_or_len};
ghost use Rattle.nt_decisions.specs.Decisions.{is_end, lines_in, entry_in, read_on, time_of, time_in, file_in, schedule_of, IsFault, IsLineFault, EndsLine};

use crate::decision::{Decision, read_decision};
use std::alloc::{AllocError, Global};

/// How the time of a run goes.
#[derive(Clone, Copy, Debug, PartialEq, Eq)]
pub struct Time {
    /// Whether deadlines may come although threads could run.
    pub is_free: bool,
    /// Whether a step takes no time.
    pub is_still: bool,
}

/// What a file says.
#[derive(Debug, Drop)]
pub struct Schedule {
    pub time: Time,
    pub decisions: Vec<Decision>,
}

/// Why a file can't be read.
#[derive(Clone, Copy, Debug, PartialEq, Eq)]
pub enum FileFault {
    /// Its first line is none of a file of decisions.
    FirstLine,
    /// A line is no decision.
    Line,
    /// Memory was refused.
    Memory,
}

pub(crate) const FIRST_LINE: &[u8] = b"; ntwin-schedule 1";

const FIRST_LINE_FREE: &[u8] = b"; ntwin-schedule 1 time=free";

const FIRST_LINE_STILL: &[u8] = b"; ntwin-schedule 1 time=still";

const FIRST_LINE_FREE_AND_STILL: &[u8] = b"; ntwin-schedule 1 time=free time=still";

fn time_of(is_free: bool, is_still: bool) -> Time
    ensures { result ≡ time_of is_free is_still }
{
    Time { is_free, is_still }
}

fn time_in(line: &[u8]) -> Option<Time>
    ensures { result ≡ time_in line.now }
{
    if line == FIRST_LINE {
        Some(time_of(false, false))
    } else if line == FIRST_LINE_FREE {
        Some(time_of(true, false))
    } else if line == FIRST_LINE_STILL {
        Some(time_of(false, true))
    } else if line == FIRST_LINE_FREE_AND_STILL {
        Some(time_of(true, true))
    } else {
        None
    }
}

/// Where the first line ends: at a line feed, or with the text.
fn line_end(text: &[u8]) -> usize
    ensures place { result ≡ position_or_len is_end text.now }
    ensures within { result ≤ length text.now }
{
    first_end(text).unwrap_or(text.len())
}

/// Where the first line feed is.
fn first_end(text: &[u8]) -> Option<usize>
    ensures place { result ≡ position is_end text.now }
    ensures within { IfSome result (λ place. place < length text.now) }
{
    text.iter().position(|byte| *byte == b'\n')
}

/// The first line, and what comes after it.
fn split_line(text: &[u8]) -> (&[u8], &[u8])
    requires { 0 < length text.now }
    ensures split { EndsLine text.now result.0.now result.1.now }
    ensures shorter { length result.1.now < length text.now }
{
    let end = line_end(text);
    if end < text.len() {
        (&text[..end], &text[end + 1..])
    } else {
        (text, &text[end..])
    }
}

/// Takes a line.
fn take_line(decisions: &mut Vec<Decision>, line: &[u8]) -> Result<(), FileFault>
    ensures ok { OnOk result (entry_in decisions.old.items line.now ≡ Some decisions.new.items) }
    ensures fault { IfErr result (λ fault. IsLineFault fault (entry_in decisions.old.items line.now)) }
{
    if line.is_empty() || line[0] == b';' {
        return Ok(());
    }
    match read_decision(line) {
        Some(decision) => match decisions.push(decision) {
            Ok(()) => Ok(()),
            Err(_) => Err(FileFault::Memory),
        },
        None => Err(FileFault::Line),
    }
}

/// Takes each line.
fn take_lines(decisions: &mut Vec<Decision>, text: &[u8]) -> Result<(), FileFault>
    ensures ok { OnOk result (read_on (Some decisions.old.items) (lines_in text.now) ≡ Some decisions.new.items) }
    ensures fault { IfErr result (λ fault. IsLineFault fault (read_on (Some decisions.old.items) (lines_in text.now))) }
{
    let mut left = text;
    while !left.is_empty() {
        let (line, after) = split_line(left);
        take_line(decisions, line)?;
        left = after;
    }
    Ok(())
}

/// Reads a file of decisions.
#[tactic(auto, using(crate::proofs::Lines::fault_in))]
pub fn read_schedule(alloc: Global, text: &[u8]) -> Result<Schedule, FileFault>
    ensures { MatchResult result (λ schedule. file_in text.now ≡ Some (schedule_of schedule))
        (λ fault. IsFault fault text.now) }
{
    if text.is_empty() {
        return Err(FileFault::FirstLine);
    }
    let (line, after) = split_line(text);
    let mut decisions = Vec::new(alloc);
    match time_in(line) {
        None => Err(FileFault::FirstLine),
        Some(time) => {
            take_lines(&mut decisions, after)?;
            Ok(Schedule { time, decisions })
        }
    }
}
