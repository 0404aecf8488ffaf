//! The timeline as a picture: lanes, time to the right, and below them the objects.

use crate::escape::{put_escaped, put_text, width_of};
use crate::layout::{Layout, TOP};
use crate::legend::{LEGEND, put_legend};
use crate::marks::{put_before, put_behind, put_lane, put_raw};
use crate::objects::{ROW, put_row, rows_of};
use crate::pending::{BULGE, put_pending};
use crate::style::STYLE;
use nt_hangs::verdict_of;
use nt_timeline::{Film, Selection, Words};
use nt_wording::{code_of, put_verdict};
use std::alloc::{AllocError, Global};

/// Puts the head: the size, the style, the file's name and the verdict.
fn put_head(
    alloc: Global,
    out: &mut Vec<u8>,
    file: &[u8],
    (width, height): (u32, u32),
    film: &Film,
    words: Words<'_>,
) -> Result<(), AllocError> {
    put_raw(
        out,
        format!(in alloc;
            "<svg xmlns=\"http://www.w3.org/2000/svg\" viewBox=\"0 0 {width} {height}\" width=\"{width}\" height=\"{height}\" role=\"img\" aria-label=\""
        )?.as_str(),
    )?;
    put_escaped(out, file)?;
    out.extend_from_slice(b"\">\n")?;
    put_raw(out, STYLE)?;
    put_raw(
        out,
        "<rect class=\"paper\" width=\"100%\" height=\"100%\" rx=\"8\"/>\n",
    )?;
    put_text(alloc, out, "title", 16, 26, file)?;
    let core = words.session.core();
    let verdict = verdict_of(alloc, core, &film.absent)?;
    let mut text = Vec::new(alloc);
    put_verdict(&mut text, core, words.told, &verdict)?;
    let class = if code_of(core, &verdict) == 3 {
        "verdict"
    } else {
        "calm"
    };
    put_text(alloc, out, class, 16, 46, &text)
}

/// The width from which on a picture says how to narrow it, in pixels.
const WIDE: u32 = 1200;

/// Puts what the numbers over the lanes are, and how to narrow a wide picture.
fn put_captions(
    alloc: Global,
    out: &mut Vec<u8>,
    film: &Film,
    file: &[u8],
    width: u32,
) -> Result<(), AllocError> {
    put_text(alloc, out, "kind", 20, TOP - 6, b"line")?;
    if film.kept.steps.iter().any(|step| step.who.is_none()) {
        put_text(alloc, out, "kind", 20, TOP - 24, b"time, in 100 ns")?;
    }
    if width > WIDE {
        let x = width_of(file.len(), 14).saturating_add(32);
        let how = b"wide: --lines A..B, --thread tN or --object NAME shows a part";
        put_text(alloc, out, "kind", x, 26, how)?;
    }
    Ok(())
}

/// Puts the lanes of the threads.
fn put_lanes(
    alloc: Global,
    out: &mut Vec<u8>,
    layout: &Layout,
    told: &[u8],
) -> Result<(), AllocError> {
    for (place, thread) in layout.lanes.iter().enumerate() {
        put_lane(alloc, out, layout, told, place, *thread)?;
    }
    Ok(())
}

/// Puts what stands behind the calls of the shown steps.
fn put_all_behind(
    alloc: Global,
    out: &mut Vec<u8>,
    film: &Film,
    layout: &Layout,
    bottom: u32,
) -> Result<(), AllocError> {
    for (place, step) in film.kept.steps.iter().enumerate() {
        if layout.is_shown.get(place) == Some(&true) {
            put_behind(alloc, out, &film.kept, layout, place, step, bottom)?;
        }
    }
    Ok(())
}

/// Puts the calls of the shown steps.
fn put_calls(
    alloc: Global,
    out: &mut Vec<u8>,
    film: &Film,
    layout: &Layout,
) -> Result<(), AllocError> {
    for (place, step) in film.kept.steps.iter().enumerate() {
        if layout.is_shown.get(place) == Some(&true) {
            put_before(alloc, out, layout, place, step)?;
        }
    }
    Ok(())
}

/// Puts the rows of the objects, from this far down on.
fn put_objects(
    alloc: Global,
    out: &mut Vec<u8>,
    film: &Film,
    layout: &Layout,
    words: Words<'_>,
    rows: &[usize],
    top: u32,
) -> Result<(), AllocError> {
    if !rows.is_empty() {
        put_text(alloc, out, "head", 20, top.saturating_sub(10), b"objects")?;
    }
    let mut y = top;
    for place in rows {
        put_row(alloc, out, &film.kept, layout, words, *place, y)?;
        y = y.saturating_add(ROW);
    }
    Ok(())
}

/// The picture of the shown steps.
pub fn picture_of(
    alloc: Global,
    file: &[u8],
    film: &Film,
    layout: &Layout,
    words: Words<'_>,
    part: &Selection<'_>,
) -> Result<Vec<u8>, AllocError> {
    let rows = rows_of(alloc, &film.kept, layout, words, part)?;
    let top = layout.end_of_lanes().saturating_add(34);
    let bottom = top.saturating_add((rows.len().min(65536) as u32).saturating_mul(ROW));
    let height = bottom.saturating_add(44 + LEGEND);
    let width = layout.right.saturating_add(BULGE + 10).max(720);
    let mut out = Vec::new(alloc);
    put_head(alloc, &mut out, file, (width, height), film, words)?;
    put_captions(alloc, &mut out, film, file, width)?;
    put_lanes(alloc, &mut out, layout, words.told)?;
    put_all_behind(alloc, &mut out, film, layout, bottom)?;
    put_pending(alloc, &mut out, film, layout, words)?;
    put_calls(alloc, &mut out, film, layout)?;
    put_objects(alloc, &mut out, film, layout, words, &rows, top)?;
    put_legend(alloc, &mut out, height.saturating_sub(22))?;
    out.extend_from_slice(b"</svg>\n")?;
    Ok(out)
}
