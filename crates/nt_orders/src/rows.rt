//! The steps of an order, a line each, in columns; and who hangs at its end, in words.
ghost use Rattle.std.specs.Prelude.{◌≡◌, ◌++◌, OnOk, codes, decimal, length};
ghost use Rattle.nt_machine.specs.Dispatcher.{state};
ghost use Rattle.nt_orders.specs.Texts.{gap, hang_text, line_text, number_width, row_place_text, row_text, rows_text, text_width};

use itoa::Buffer;
use nt_core::Core;
use nt_wording::{marks_in, put_held, put_number};
use std::alloc::AllocError;

/// A step: the line that was carried out, and what came of it.
#[derive(Drop)]
pub(crate) struct Row {
    pub number: u64,
    pub text: Vec<u8>,
    pub answer: Vec<u8>,
}

/// How many digits the number has.
pub(crate) fn digits_in(number: u64) -> usize
    ensures { result ≡ length (decimal number) }
{
    let mut buffer = Buffer::new();
    buffer.format(number).len()
}

/// Puts `count` spaces.
pub(crate) fn put_gap(out: &mut Vec<u8>, count: usize) -> Result<(), AllocError>
    ensures { OnOk result (out.new.items ≡ out.old.items ++ gap count) }
{
    match out.len().checked_add(count) {
        Some(length) => out.resize(length, b' '),
        None => Err(AllocError),
    }
}

/// The most digits that the number of a line has.
fn number_width(rows: &[Row]) -> usize
    ensures { result ≡ number_width rows.now }
{
    rows.iter()
        .fold(0, |width, row| width.max(digits_in(row.number)))
}

/// The most bytes that the text of a line has.
fn text_width(rows: &[Row]) -> usize
    ensures { result ≡ text_width rows.now }
{
    rows.iter().fold(0, |width, row| width.max(row.text.len()))
}

/// Puts the number of a line, at the right of its column.
fn put_place(out: &mut Vec<u8>, width: usize, number: u64) -> Result<(), AllocError>
    ensures { OnOk result (out.new.items ≡ out.old.items ++ row_place_text width number) }
{
    out.extend_from_slice(b"line ")?;
    put_gap(out, width.saturating_sub(digits_in(number)))?;
    put_number(out, number)?;
    out.extend_from_slice(b"  ")
}

/// Puts the text of a line, at the left of its column.
fn put_text(out: &mut Vec<u8>, width: usize, text: &[u8]) -> Result<(), AllocError>
    ensures { OnOk result (out.new.items ≡ out.old.items ++ line_text width text.now) }
{
    out.extend_from_slice(text)?;
    put_gap(out, width.saturating_sub(text.len()))?;
    out.extend_from_slice(b"    ")
}

/// Puts a step, after `indent` spaces.
fn put_row(
    out: &mut Vec<u8>,
    indent: usize,
    numbers: usize,
    texts: usize,
    row: &Row,
) -> Result<(), AllocError>
    ensures { OnOk result (out.new.items ≡ out.old.items ++ row_text indent numbers texts row.now) }
{
    put_gap(out, indent)?;
    put_place(out, numbers, row.number)?;
    put_text(out, texts, row.text.as_slice())?;
    out.extend_from_slice(row.answer.as_slice())?;
    out.extend_from_slice(b"\n")
}

/// Puts the steps, each after `indent` spaces.
pub(crate) fn put_rows(out: &mut Vec<u8>, indent: usize, rows: &[Row]) -> Result<(), AllocError>
    ensures { OnOk result (out.new.items ≡ out.old.items ++ rows_text indent rows.now) }
{
    let numbers = number_width(rows);
    let texts = text_width(rows);
    for row in rows {
        put_row(out, indent, numbers, texts, row)?;
    }
    Ok(())
}

/// What is said where there is no knot.
fn stuck_text() -> &'static [u8]
    ensures { result.now ≡ codes "stuck: whoever has a line left waits, and nothing can end that" }
{
    b"stuck: whoever has a line left waits, and nothing can end that"
}

/// Puts who hangs, by the names that the script's comments give: those that hold each other, or all that wait.
pub(crate) fn put_hang(
    out: &mut Vec<u8>,
    core: &Core,
    told: &[u8],
    stuck: bool,
    held: &[bool],
) -> Result<(), AllocError>
    ensures { OnOk result (out.new.items ≡ out.old.items ++ hang_text (state core.now) told.now stuck held.now) }
{
    let count = marks_in(held);
    if count == 0 {
        out.extend_from_slice(stuck_text())
    } else {
        let all = stuck && count < core.pending();
        put_held(out, told, held, core.threads(), all)
    }
}
