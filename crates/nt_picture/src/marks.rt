//! The marks of a picture: lanes, waits, arrows and calls.

use crate::escape::{begin_group, bytes_in, end_group, put_cut, put_text};
use crate::layout::{LANE, Layout, TOP, at, below_of};
use nt_status::Status;
use nt_timeline::{EndOfWait, Kept, Kind, Step, name_of};
use nt_wording::called_by;
use std::alloc::{AllocError, Global};

/// How far to the right a lane's name begins, in pixels.
const NAME: u32 = 54;

/// Puts text as it is.
pub(crate) fn put_raw(out: &mut Vec<u8>, text: &str) -> Result<(), AllocError> {
    out.extend_from_slice(text.as_bytes())
}

/// The class of a wait that ended so.
fn class_of(status: Status) -> &'static str {
    if status.is_timeout() {
        "timed"
    } else if status.is_alerted() {
        "alerted"
    } else if status.is_abandoned() {
        "abandoned"
    } else {
        "granted"
    }
}

/// Puts the band of a lane.
fn put_band(alloc: Global, out: &mut Vec<u8>, top: u32, width: u32) -> Result<(), AllocError> {
    let band = format!(in alloc;
        "<rect class=\"band\" x=\"8\" y=\"{top}\" width=\"{width}\" height=\"{LANE}\" rx=\"6\"/>\n"
    )?;
    put_raw(out, band.as_str())
}

/// Puts a thread's lane: every second one on a band.
pub(crate) fn put_lane(
    alloc: Global,
    out: &mut Vec<u8>,
    layout: &Layout,
    told: &[u8],
    place: usize,
    thread: u32,
) -> Result<(), AllocError> {
    let y = layout.y(thread).unwrap_or(0);
    let (left, right) = (layout.left, layout.right);
    if place % 2 == 0 {
        put_band(alloc, out, y.saturating_sub(34), right.saturating_add(8))?;
    }
    put_raw(
        out,
        format!(in alloc;
            "<line class=\"lane\" x1=\"{left}\" y1=\"{y}\" x2=\"{right}\" y2=\"{y}\"/>\n"
        )?.as_str(),
    )?;
    let (top, base, color) = (y.saturating_sub(11), y.saturating_add(5), thread % 8);
    put_raw(
        out,
        format!(in alloc;
            "<rect class=\"chip o{color}\" x=\"14\" y=\"{top}\" width=\"34\" height=\"22\" rx=\"5\"/>"
        )?.as_str(),
    )?;
    put_raw(
        out,
        format!(in alloc;
            "<text class=\"thread\" x=\"31\" y=\"{base}\">t{thread}</text>\n"
        )?.as_str(),
    )?;
    let word = format!(in alloc; "t{thread}")?;
    let name = called_by(told, word.as_bytes()).unwrap_or(b"");
    let room = left.saturating_sub(NAME + 8);
    put_cut(alloc, out, "kind", (NAME, base), name, bytes_in(room, 10))
}

/// Puts the line that marks a tick over all lanes, and its moment.
fn put_tick(
    alloc: Global,
    out: &mut Vec<u8>,
    layout: &Layout,
    step: &Step,
    x: u32,
    bottom: u32,
) -> Result<(), AllocError> {
    let top = TOP + 2;
    begin_group(alloc, out, "ticks", step.line, b"tick ")?;
    put_raw(
        out,
        format!(in alloc;
            "<line class=\"tick\" x1=\"{x}\" y1=\"{top}\" x2=\"{x}\" y2=\"{bottom}\"/>\n"
        )?.as_str(),
    )?;
    put_text(alloc, out, "moment", x, TOP - 24, &step.call)?;
    end_group(out)
}

/// Puts a wait that pended, from where it began to where it ended: how that was as a title, and what of it is shown.
pub(crate) fn put_bar(
    alloc: Global,
    out: &mut Vec<u8>,
    class: &str,
    began: &Step,
    (how, shown): (&[u8], &[u8]),
    (x, end, y): (u32, u32, u32),
) -> Result<(), AllocError> {
    let mut title = Vec::from_slice(alloc, &began.label)?;
    title.extend_from_slice(b"; ")?;
    title.extend_from_slice(how)?;
    begin_group(alloc, out, class, began.line, &title)?;
    let (top, width) = (y.saturating_sub(6), end.saturating_sub(x).max(4));
    put_raw(
        out,
        format!(in alloc;
            "<rect class=\"wait\" x=\"{x}\" y=\"{top}\" width=\"{width}\" height=\"12\" rx=\"6\"/>\n"
        )?.as_str(),
    )?;
    if class == "pending" {
        put_raw(
            out,
            format!(in alloc;
                "<rect class=\"hatch\" x=\"{x}\" y=\"{top}\" width=\"{width}\" height=\"12\" rx=\"6\"/>\n"
            )?.as_str(),
        )?;
        put_text(
            alloc,
            out,
            "open",
            end.saturating_sub(6),
            y.saturating_add(21),
            shown,
        )?;
    } else if shown != b"WAIT_OBJECT_0".as_slice() {
        put_text(
            alloc,
            out,
            "end",
            end.saturating_sub(4),
            y.saturating_add(20),
            shown,
        )?;
    }
    end_group(out)
}

/// Puts the wait that ended at a step, and the arrow from the call that ended it; no arrow where time did.
fn put_end(
    alloc: Global,
    out: &mut Vec<u8>,
    kept: &Kept,
    layout: &Layout,
    step: &Step,
    x: u32,
    end: &EndOfWait,
) -> Result<(), AllocError> {
    let (Some(y), Some(began)) = (layout.y(end.thread), kept.steps.get(end.began)) else {
        return Ok(());
    };
    let class = class_of(end.status);
    let how = name_of(alloc, end.status)?;
    put_bar(
        alloc,
        out,
        class,
        began,
        (&how, &how),
        (at(&layout.x, end.began), x, y),
    )?;
    let from = match step.who {
        Some(thread) => layout.y(thread).unwrap_or(TOP),
        None => TOP,
    };
    let (begins, ends) = if from < y {
        (from.saturating_add(6), y.saturating_sub(9))
    } else {
        (from.saturating_sub(6), y.saturating_add(9))
    };
    if class == "timed" {
        return Ok(());
    }
    put_raw(
        out,
        format!(in alloc;
            "<path class=\"arrow {class}\" d=\"M{x} {begins} L{x} {ends}\" marker-end=\"url(#tip-{class})\"/>\n"
        )?.as_str(),
    )
}

/// Puts the mark of a refused call.
pub(crate) fn put_cross(
    alloc: Global,
    out: &mut Vec<u8>,
    x: u32,
    y: u32,
) -> Result<(), AllocError> {
    let (left, top) = (x.saturating_sub(5), y.saturating_sub(5));
    put_raw(
        out,
        format!(in alloc;
            "<path class=\"cross\" d=\"M{left} {top} l10 10 m0 -10 l-10 10\"/>\n"
        )?.as_str(),
    )
}

/// Puts the mark of a wait that ended at once.
pub(crate) fn put_diamond(
    alloc: Global,
    out: &mut Vec<u8>,
    x: u32,
    y: u32,
) -> Result<(), AllocError> {
    let high = y.saturating_sub(7);
    put_raw(
        out,
        format!(in alloc;
            "<path class=\"diamond\" d=\"M{x} {high} l7 7 l-7 7 l-7 -7 z\"/>\n"
        )?.as_str(),
    )
}

/// Puts the mark of any other call.
pub(crate) fn put_dot(alloc: Global, out: &mut Vec<u8>, x: u32, y: u32) -> Result<(), AllocError> {
    put_raw(
        out,
        format!(in alloc; "<circle class=\"dot\" cx=\"{x}\" cy=\"{y}\" r=\"4.5\"/>\n")?.as_str(),
    )
}

/// Puts the mark of a call.
fn put_mark(
    alloc: Global,
    out: &mut Vec<u8>,
    kind: Kind,
    x: u32,
    y: u32,
) -> Result<(), AllocError> {
    match kind {
        Kind::Refused => put_cross(alloc, out, x, y),
        Kind::AtOnce(_) => put_diamond(alloc, out, x, y),
        _ => put_dot(alloc, out, x, y),
    }
}

/// Puts a call: its mark, what it is, and what it answered.
fn put_call(
    alloc: Global,
    out: &mut Vec<u8>,
    step: &Step,
    x: u32,
    y: u32,
) -> Result<(), AllocError> {
    let class = match step.kind {
        Kind::Refused => "refused",
        Kind::AtOnce(status) => class_of(status),
        _ => "call",
    };
    let below = below_of(step);
    let mut title = Vec::from_slice(alloc, &step.call)?;
    if !step.answer.is_empty() {
        title.extend_from_slice(b": ")?;
        title.extend_from_slice(&step.answer)?;
    }
    begin_group(alloc, out, class, step.line, &title)?;
    put_mark(alloc, out, step.kind, x, y)?;
    put_text(
        alloc,
        out,
        "label",
        x.saturating_sub(3),
        y.saturating_sub(14),
        &step.label,
    )?;
    if !below.is_empty() {
        put_text(
            alloc,
            out,
            "more",
            x.saturating_sub(3),
            y.saturating_add(20),
            below,
        )?;
    }
    end_group(out)
}

/// Puts the number of a shown step's line, and what stands behind the calls: a tick's line, or the waits that the step ended.
pub(crate) fn put_behind(
    alloc: Global,
    out: &mut Vec<u8>,
    kept: &Kept,
    layout: &Layout,
    place: usize,
    step: &Step,
    bottom: u32,
) -> Result<(), AllocError> {
    let x = at(&layout.x, place);
    let mut number = Vec::new(alloc);
    nt_wording::put_number(&mut number, step.line)?;
    put_text(alloc, out, "number", x, TOP - 6, &number)?;
    if step.who.is_none() {
        put_tick(alloc, out, layout, step, x, bottom)?;
    }
    for end in step.ended(&kept.ended) {
        put_end(alloc, out, kept, layout, step, x, end)?;
    }
    Ok(())
}

/// Puts a shown step's call.
pub(crate) fn put_before(
    alloc: Global,
    out: &mut Vec<u8>,
    layout: &Layout,
    place: usize,
    step: &Step,
) -> Result<(), AllocError> {
    match step.who {
        Some(thread) => put_call(
            alloc,
            out,
            step,
            at(&layout.x, place),
            layout.y(thread).unwrap_or(TOP),
        ),
        None => Ok(()),
    }
}
