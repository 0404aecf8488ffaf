//! The timeline as a page of its own: the picture, a list of what each line did, and a script that links the two. It loads nothing.

use crate::page_parts::{LISTED, SCRIPT, STYLE, TOOLS};
use nt_picture::{Layout, put_escaped};
use nt_timeline::{EndOfWait, Film, Kind, Step, Words, name_of};
use nt_wording::put_number;
use std::alloc::{AllocError, Global};

/// Puts a cell of the list.
fn put_cell(out: &mut Vec<u8>, text: &[u8]) -> Result<(), AllocError> {
    out.extend_from_slice(b"<td>")?;
    put_escaped(out, text)?;
    out.extend_from_slice(b"</td>")
}

/// What the page says that a call answered.
fn answer_of(step: &Step) -> &[u8] {
    match step.kind {
        Kind::Pends => b"pending",
        _ => &step.answer,
    }
}

/// Puts the waits that a step ended, each with its thread and its line.
fn put_ends(alloc: Global, out: &mut Vec<u8>, ended: &[EndOfWait]) -> Result<(), AllocError> {
    out.extend_from_slice(b"<td>")?;
    for (place, end) in ended.iter().enumerate() {
        if place > 0 {
            out.extend_from_slice(b"; ")?;
        }
        let thread = format!(in alloc; "t{} ", end.thread)?;
        out.extend_from_slice(thread.as_bytes())?;
        out.extend_from_slice(&name_of(alloc, end.status)?)?;
        out.extend_from_slice(b" since ")?;
        put_number(out, end.since)?;
    }
    out.extend_from_slice(b"</td>")
}

/// Puts the row of a step.
fn put_row(
    alloc: Global,
    out: &mut Vec<u8>,
    step: &Step,
    ended: &[EndOfWait],
) -> Result<(), AllocError> {
    let open = format!(in alloc; "<tr tabindex=\"-1\" data-line=\"{}\">", step.line)?;
    out.extend_from_slice(open.as_bytes())?;
    let line = format!(in alloc; "<th scope=\"row\">{}</th>", step.line)?;
    out.extend_from_slice(line.as_bytes())?;
    match step.who {
        Some(thread) => {
            let who = format!(in alloc; "t{thread}")?;
            put_cell(out, who.as_bytes())?;
        }
        None => put_cell(out, b"tick")?,
    }
    put_cell(out, &step.call)?;
    put_cell(out, answer_of(step))?;
    put_ends(alloc, out, ended)?;
    out.extend_from_slice(b"</tr>\n")
}

/// Puts the list of what the shown steps did.
fn put_list(
    alloc: Global,
    out: &mut Vec<u8>,
    film: &Film,
    layout: &Layout,
) -> Result<(), AllocError> {
    out.extend_from_slice(LISTED.as_bytes())?;
    for (place, step) in film.kept.steps.iter().enumerate() {
        if layout.is_shown.get(place) == Some(&true) {
            put_row(alloc, out, step, step.ended(&film.kept.ended))?;
        }
    }
    out.extend_from_slice(b"</tbody></table></section>\n")
}

/// The page of the shown steps, with this picture.
pub(crate) fn page_of(
    alloc: Global,
    file: &[u8],
    film: &Film,
    layout: &Layout,
    picture: &[u8],
) -> Result<Vec<u8>, AllocError> {
    let mut out = Vec::new(alloc);
    out.extend_from_slice(
        b"<!doctype html>\n<html lang=\"en\"><head><meta charset=\"utf-8\"><meta name=\"viewport\" content=\"width=device-width\"><title>",
    )?;
    put_escaped(&mut out, file)?;
    out.extend_from_slice(b"</title>\n")?;
    out.extend_from_slice(STYLE.as_bytes())?;
    out.extend_from_slice(b"</head><body>\n")?;
    out.extend_from_slice(TOOLS.as_bytes())?;
    out.extend_from_slice(b"<main id=\"view\">\n")?;
    out.extend_from_slice(picture)?;
    out.extend_from_slice(b"</main>\n")?;
    put_list(alloc, &mut out, film, layout)?;
    out.extend_from_slice(SCRIPT.as_bytes())?;
    out.extend_from_slice(b"</body></html>\n")?;
    Ok(out)
}
