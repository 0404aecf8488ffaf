//! Text within a picture.

use std::alloc::{AllocError, Global};

/// Puts the text so that it stands for itself: a byte that is no ASCII text becomes `?`.
pub fn put_escaped(out: &mut Vec<u8>, text: &[u8]) -> Result<(), AllocError> {
    for byte in text {
        match *byte {
            b'&' => out.extend_from_slice(b"&amp;")?,
            b'<' => out.extend_from_slice(b"&lt;")?,
            b'>' => out.extend_from_slice(b"&gt;")?,
            b'"' => out.extend_from_slice(b"&quot;")?,
            b' '..=b'~' => out.push(*byte)?,
            _ => out.push(b'?')?,
        }
    }
    Ok(())
}

/// Puts text at this place.
pub(crate) fn put_text(
    alloc: Global,
    out: &mut Vec<u8>,
    class: &str,
    x: u32,
    y: u32,
    text: &[u8],
) -> Result<(), AllocError> {
    let open = format!(in alloc; "<text class=\"{class}\" x=\"{x}\" y=\"{y}\">")?;
    out.extend_from_slice(open.as_bytes())?;
    put_escaped(out, text)?;
    out.extend_from_slice(b"</text>\n")
}

/// Begins a group of elements: its class, and its title, which is shown where the pointer rests.
pub(crate) fn begin_group(
    alloc: Global,
    out: &mut Vec<u8>,
    class: &str,
    line: u64,
    title: &[u8],
) -> Result<(), AllocError> {
    let open = format!(in alloc; "<g class=\"{class}\"><title>line {line}: ")?;
    out.extend_from_slice(open.as_bytes())?;
    put_escaped(out, title)?;
    out.extend_from_slice(b"</title>\n")
}

/// Ends a group.
pub(crate) fn end_group(out: &mut Vec<u8>) -> Result<(), AllocError> {
    out.extend_from_slice(b"</g>\n")
}

/// The text, or as much of it as these bytes hold with two dots at its end.
pub(crate) fn shortened(alloc: Global, text: &[u8], most: usize) -> Result<Vec<u8>, AllocError> {
    match text.get(..most.saturating_sub(2)) {
        Some(front) if text.len() > most => {
            let mut cut = Vec::from_slice(alloc, front)?;
            cut.extend_from_slice(b"..")?;
            Ok(cut)
        }
        _ => Vec::from_slice(alloc, text),
    }
}

/// Puts text at this place, cut to these bytes. The whole of a text that is cut is its title.
pub(crate) fn put_cut(
    alloc: Global,
    out: &mut Vec<u8>,
    class: &str,
    (x, y): (u32, u32),
    text: &[u8],
    most: usize,
) -> Result<(), AllocError> {
    if text.len() <= most {
        return put_text(alloc, out, class, x, y, text);
    }
    out.extend_from_slice(b"<g><title>")?;
    put_escaped(out, text)?;
    out.extend_from_slice(b"</title>")?;
    put_text(alloc, out, class, x, y, &shortened(alloc, text, most)?)?;
    out.extend_from_slice(b"</g>\n")
}

/// About how many bytes of text, at this size, are as wide as these pixels.
pub(crate) fn bytes_in(pixels: u32, size: u32) -> usize {
    (pixels.saturating_sub(6).saturating_mul(25) / size.saturating_mul(14).max(1)) as usize
}

/// About how many pixels wide a text of `bytes` bytes is, at this size.
pub(crate) fn width_of(bytes: usize, size: u32) -> u32 {
    let units = (bytes.min(4096) as u32).saturating_mul(size);
    (units.saturating_mul(14) / 25).saturating_add(6)
}
