//! What stands in a thread's column beside a step.

use crate::steps::{EndOfWait, Kind, Step};
use nt_wording::{put_number, put_status};
use std::alloc::AllocError;

/// Puts a call, and what it answered.
fn put_call(out: &mut Vec<u8>, step: &Step) -> Result<(), AllocError> {
    out.extend_from_slice(&step.call)?;
    if step.kind == Kind::Pends {
        return out.extend_from_slice(b": pending");
    }
    if !step.answer.is_empty() {
        out.extend_from_slice(b": ")?;
    }
    out.extend_from_slice(&step.answer)
}

/// Puts how a wait ended, and since which line it pended.
fn put_end(out: &mut Vec<u8>, end: &EndOfWait) -> Result<(), AllocError> {
    put_status(out, end.status)?;
    out.extend_from_slice(b" since ")?;
    put_number(out, end.since)
}

/// Puts the call of this thread, the end of its wait, or `|` while it waits; nothing where it does none of that.
pub(crate) fn put_cell(
    out: &mut Vec<u8>,
    step: &Step,
    ended: &[EndOfWait],
    thread: u32,
    waits: bool,
) -> Result<(), AllocError> {
    if step.who == Some(thread) {
        return put_call(out, step);
    }
    match ended.iter().find(|end| end.thread == thread) {
        Some(end) => put_end(out, end),
        None if waits => out.extend_from_slice(b"|"),
        None => Ok(()),
    }
}
