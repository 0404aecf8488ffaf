//! The forms of a timeline that are drawn: their common layout.

use crate::draw::Form;
use crate::page::page_of;
use crate::trace::trace_of;
use nt_picture::{Layout, left_of, picture_of};
use nt_script::Session;
use nt_timeline::{Film, Selection, Words};
use std::alloc::{AllocError, Global};

/// A part of a session in this form: as a trace, as a page, or else as a picture.
pub(crate) fn drawn(
    alloc: Global,
    file: &[u8],
    film: &Film,
    session: &Session,
    form: Form,
    part: &Selection<'_>,
) -> Result<Vec<u8>, AllocError> {
    let words = Words {
        session,
        objects: film.watch.objects(),
        told: film.watch.told(),
    };
    let left = left_of(&film.kept, words);
    let layout = Layout::of(alloc, &film.kept, part, session.core(), left)?;
    if form == Form::Trace {
        return trace_of(alloc, file, film, &layout, words);
    }
    let picture = picture_of(alloc, file, film, &layout, words, part)?;
    if form == Form::Page {
        return page_of(alloc, file, film, &layout, &picture);
    }
    Ok(picture)
}
