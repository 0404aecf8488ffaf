//! What the colours and the marks of a picture mean.

use crate::escape::put_text;
use crate::marks::{put_cross, put_diamond, put_dot, put_raw};
use std::alloc::{AllocError, Global};

/// How high the legend is, in pixels.
pub(crate) const LEGEND: u32 = 42;

/// The colours of waits: the class, what it means, and how far to the right it stands.
const COLORS: [(&str, &str, u32); 5] = [
    ("granted", "granted", 20),
    ("abandoned", "granted, abandoned mutex", 120),
    ("alerted", "ended for an APC", 310),
    ("timed", "timed out", 450),
    ("pending", "still waits", 550),
];

/// Puts what the colours mean.
fn put_colors(alloc: Global, out: &mut Vec<u8>, base: u32) -> Result<(), AllocError> {
    let top = base.saturating_sub(9);
    for (class, text, x) in COLORS {
        put_raw(
            out,
            format!(in alloc;
                "<g class=\"{class}\"><rect class=\"wait\" x=\"{x}\" y=\"{top}\" width=\"26\" height=\"10\" rx=\"5\"/></g>"
            )?.as_str(),
        )?;
        put_text(
            alloc,
            out,
            "legend",
            x.saturating_add(32),
            base,
            text.as_bytes(),
        )?;
    }
    Ok(())
}

/// Puts what the marks mean.
fn put_marks(alloc: Global, out: &mut Vec<u8>, base: u32) -> Result<(), AllocError> {
    let middle = base.saturating_sub(4);
    put_dot(alloc, out, 33, middle)?;
    put_text(alloc, out, "legend", 52, base, b"call")?;
    put_diamond(alloc, out, 133, middle)?;
    put_text(alloc, out, "legend", 152, base, b"wait that ended at once")?;
    put_cross(alloc, out, 323, middle)?;
    put_text(alloc, out, "legend", 342, base, b"refused call")?;
    put_text(
        alloc,
        out,
        "legend",
        450,
        base,
        b"arrow: what ended a wait, or alone can end it",
    )
}

/// Puts the legend, with its last line at this height.
pub(crate) fn put_legend(alloc: Global, out: &mut Vec<u8>, base: u32) -> Result<(), AllocError> {
    put_colors(alloc, out, base.saturating_sub(20))?;
    put_marks(alloc, out, base)
}
