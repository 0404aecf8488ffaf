//! The timeline as text: a column for each thread, and a row for each step.

use crate::cells::put_cell;
use crate::kept::Kept;
use crate::part::Selection;
use crate::steps::{EndOfWait, Step};
use crate::waiting::{MOST_THREADS, Waiting};
use nt_wording::{put_number, put_thread_title};
use std::alloc::{AllocError, Global};

/// How wide the line's number stands.
const NUMBER_WIDTH: usize = 6;

/// How wide each thread's column is, by thread; 0 of one that is not shown.
#[derive(Drop)]
struct Columns {
    widths: Vec<usize>,
}

impl Columns {
    fn width(&self, thread: u32) -> usize {
        match self.widths.get(thread as usize) {
            Some(width) => *width,
            None => 0,
        }
    }

    /// Makes the thread's column at least so wide.
    fn widen(&mut self, thread: u32, width: usize) {
        if let Some(widest) = self.widths.get_mut(thread as usize) {
            *widest = width.max(*widest);
        }
    }

    /// Makes a step's cells fit.
    fn fit(
        &mut self,
        cell: &mut Vec<u8>,
        step: &Step,
        ended: &[EndOfWait],
    ) -> Result<(), AllocError> {
        for thread in 0..MOST_THREADS as u32 {
            cell.clear();
            put_cell(cell, step, ended, thread, false)?;
            self.widen(thread, cell.len());
        }
        Ok(())
    }

    /// Makes the titles of the shown threads fit.
    fn fit_titles(&mut self, cell: &mut Vec<u8>, told: &[u8]) -> Result<(), AllocError> {
        for thread in 0..MOST_THREADS as u32 {
            if self.width(thread) > 0 {
                cell.clear();
                put_thread_title(cell, told, thread)?;
                self.widen(thread, cell.len());
            }
        }
        Ok(())
    }

    /// The columns of what is shown.
    fn of(
        alloc: Global,
        kept: &Kept,
        part: &Selection<'_>,
        told: &[u8],
    ) -> Result<Columns, AllocError> {
        let mut columns = Columns {
            widths: Vec::from_elem(alloc, 0, MOST_THREADS)?,
        };
        let mut cell = Vec::new(alloc);
        for step in &kept.steps {
            let ended = step.ended(&kept.ended);
            if part.shows(step, ended) {
                columns.fit(&mut cell, step, ended)?;
            }
        }
        columns.fit_titles(&mut cell, told)?;
        Ok(columns)
    }
}

/// Puts this byte until so much stands after the start.
fn pad(out: &mut Vec<u8>, start: usize, width: usize, fill: u8) -> Result<(), AllocError> {
    for _place in out.len().saturating_sub(start)..width {
        out.push(fill)?;
    }
    Ok(())
}

/// Puts the text right of spaces, so that it ends where a line's number does.
fn put_right(out: &mut Vec<u8>, text: &[u8]) -> Result<(), AllocError> {
    let left = NUMBER_WIDTH.saturating_sub(text.len());
    let start = out.len();
    pad(out, start, left, b' ')?;
    out.extend_from_slice(text)
}

/// Puts a line's number, right of spaces.
fn put_line(alloc: Global, out: &mut Vec<u8>, line: u64) -> Result<(), AllocError> {
    let mut number = Vec::new(alloc);
    put_number(&mut number, line)?;
    put_right(out, &number)
}

/// Ends a row, with no spaces before its end.
fn end_row(out: &mut Vec<u8>) -> Result<(), AllocError> {
    for _place in 0..out.len() {
        if out.last() != Some(&b' ') {
            break;
        }
        out.truncate(out.len().saturating_sub(1));
    }
    out.extend_from_slice(b"\n")
}

/// Puts the titles of the columns.
fn put_titles(
    alloc: Global,
    out: &mut Vec<u8>,
    columns: &Columns,
    told: &[u8],
) -> Result<(), AllocError> {
    put_right(out, b"line")?;
    for thread in 0..MOST_THREADS as u32 {
        let width = columns.width(thread);
        if width > 0 {
            out.extend_from_slice(b"  ")?;
            let start = out.len();
            put_thread_title(out, told, thread)?;
            pad(out, start, width, b' ')?;
        }
    }
    end_row(out)
}

/// Puts the cells of a step, with this byte between them.
fn put_cells(
    out: &mut Vec<u8>,
    columns: &Columns,
    step: &Step,
    ended: &[EndOfWait],
    waiting: &Waiting,
    fill: u8,
) -> Result<(), AllocError> {
    for thread in 0..MOST_THREADS as u32 {
        let width = columns.width(thread);
        if width > 0 {
            let start = out.len();
            pad(out, start, 2, fill)?;
            let waits = waiting.since(thread).is_some();
            put_cell(out, step, ended, thread, waits)?;
            pad(out, start, width.saturating_add(2), fill)?;
        }
    }
    Ok(())
}

/// Puts a step's row. A tick is a rule, with the moment at its end.
fn put_row(
    alloc: Global,
    out: &mut Vec<u8>,
    columns: &Columns,
    step: &Step,
    ended: &[EndOfWait],
    waiting: &Waiting,
) -> Result<(), AllocError> {
    put_line(alloc, out, step.line)?;
    if step.who.is_some() {
        put_cells(out, columns, step, ended, waiting, b' ')?;
        return end_row(out);
    }
    put_cells(out, columns, step, ended, waiting, b'-')?;
    out.extend_from_slice(b"--  tick ")?;
    out.extend_from_slice(&step.call)?;
    if !step.answer.is_empty() {
        out.extend_from_slice(b": ")?;
        out.extend_from_slice(&step.answer)?;
    }
    end_row(out)
}

/// Puts since when those wait who still do.
fn put_last(
    alloc: Global,
    out: &mut Vec<u8>,
    columns: &Columns,
    waiting: &Waiting,
) -> Result<(), AllocError> {
    put_right(out, b"end")?;
    for thread in 0..MOST_THREADS as u32 {
        let width = columns.width(thread);
        if width > 0 {
            let start = out.len();
            out.extend_from_slice(b"  ")?;
            if let Some(line) = waiting.since(thread) {
                out.extend_from_slice(b"waits since ")?;
                put_number(out, line)?;
            }
            pad(out, start, width.saturating_add(2), b' ')?;
        }
    }
    end_row(out)
}

/// Puts the rows of what is shown.
pub(crate) fn put_rows(
    alloc: Global,
    out: &mut Vec<u8>,
    kept: &Kept,
    part: &Selection<'_>,
    told: &[u8],
) -> Result<(), AllocError> {
    let columns = Columns::of(alloc, kept, part, told)?;
    let mut waiting = Waiting::new(alloc)?;
    put_titles(alloc, out, &columns, told)?;
    for step in &kept.steps {
        let ended = step.ended(&kept.ended);
        if part.shows(step, ended) {
            put_row(alloc, out, &columns, step, ended, &waiting)?;
        }
        waiting.pass(step, ended);
    }
    put_last(alloc, out, &columns, &waiting)
}
