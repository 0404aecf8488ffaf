//! What a part asks for that a run does not have, in words.

use crate::film::Film;
use crate::part::Selection;
use nt_faults::nearest_name;
use nt_lines::caller_of;
use nt_script::Session;
use nt_wording::put_number;
use std::alloc::{AllocError, Global};

/// The most names that are listed.
const MOST_TOLD: usize = 20;

/// Puts an option of the command line with its value, and that there is no such thing.
fn put_option(
    out: &mut Vec<u8>,
    option: &str,
    value: &[u8],
    thing: &str,
) -> Result<(), AllocError> {
    out.extend_from_slice(b"ntlook: ")?;
    out.extend_from_slice(option.as_bytes())?;
    out.push(b' ')?;
    out.extend_from_slice(value)?;
    out.extend_from_slice(b": no such ")?;
    out.extend_from_slice(thing.as_bytes())?;
    out.push(b'\n')?;
    Ok(())
}

/// Puts what may have been meant.
fn put_meant(out: &mut Vec<u8>, word: &[u8]) -> Result<(), AllocError> {
    out.extend_from_slice(b"  did you mean `")?;
    out.extend_from_slice(word)?;
    out.extend_from_slice(b"`?\n")
}

/// The words of a range of lines.
fn range_of(alloc: Global, first: u64, last: u64) -> Result<Vec<u8>, AllocError> {
    let mut range = Vec::new(alloc);
    put_number(&mut range, first)?;
    range.extend_from_slice(b"..")?;
    put_number(&mut range, last)?;
    Ok(range)
}

/// Puts that the script has no such lines among its `count`, if that is so.
fn put_lines(
    alloc: Global,
    out: &mut Vec<u8>,
    (first, last): (u64, u64),
    count: u64,
) -> Result<(), AllocError> {
    if first <= last && first <= count {
        return Ok(());
    }
    put_option(out, "--lines", &range_of(alloc, first, last)?, "lines")?;
    if first <= count {
        put_meant(out, &range_of(alloc, last, first)?)?;
    }
    out.extend_from_slice(b"  the script has lines 1 to ")?;
    put_number(out, count)?;
    out.extend_from_slice(b"\n")
}

/// Puts that there is no such thread among `threads`, if that is so.
fn put_thread(
    alloc: Global,
    out: &mut Vec<u8>,
    thread: u32,
    threads: u32,
) -> Result<(), AllocError> {
    if thread < threads {
        return Ok(());
    }
    let mut name = Vec::new(alloc);
    name.push(b't')?;
    put_number(&mut name, u64::from(thread))?;
    put_option(out, "--thread", &name, "thread")?;
    if threads == 1 {
        return out.extend_from_slice(b"  there is t0 alone\n");
    }
    out.extend_from_slice(b"  there are t0 to t")?;
    put_number(out, u64::from(threads.saturating_sub(1)))?;
    out.extend_from_slice(b"\n")
}

/// Puts the names that objects have, of many the first.
fn put_names(out: &mut Vec<u8>, session: &Session) -> Result<(), AllocError> {
    if session.names() == 0 {
        return out.extend_from_slice(b"  no object has a name\n");
    }
    out.extend_from_slice(if session.names() == 1 {
        b"  there is "
    } else {
        b"  there are "
    })?;
    for place in 0..session.names().min(MOST_TOLD) {
        if let Some(name) = session.name_at(place) {
            out.extend_from_slice(if place > 0 { b", " } else { b"" })?;
            out.extend_from_slice(name)?;
        }
    }
    out.extend_from_slice(if session.names() > MOST_TOLD {
        b", ..\n"
    } else {
        b"\n"
    })
}

impl Film {
    /// Whether an object of the run has this name, or a thread has, or a line names a handle by this number.
    fn has(&self, session: &Session, object: &[u8]) -> bool {
        session.bindings().get(object).is_some()
            || caller_of(object).is_some_and(|thread| thread < session.core().threads())
            || self.kept.steps.iter().any(|step| step.is_asked_for)
    }

    /// Puts that no object has this name, if that is so.
    fn put_object(
        &self,
        out: &mut Vec<u8>,
        session: &Session,
        object: &str,
    ) -> Result<(), AllocError> {
        let word = object.as_bytes();
        if self.has(session, word) {
            return Ok(());
        }
        put_option(out, "--object", word, "object")?;
        if let Some(name) = nearest_name(word, session.bindings()) {
            put_meant(out, name)?;
        }
        put_names(out, session)
    }

    /// Lines that tell what a run of `count` lines has in place of what the part asks for; empty where it has all of that.
    pub fn lacking(
        &self,
        alloc: Global,
        count: u64,
        part: &Selection<'_>,
    ) -> Result<Vec<u8>, AllocError> {
        let mut out = Vec::new(alloc);
        if let Some(lines) = part.lines {
            put_lines(alloc, &mut out, lines, count)?;
        }
        let Some(session) = self.watch.session() else {
            return Ok(out);
        };
        if let Some(thread) = part.thread {
            put_thread(alloc, &mut out, thread, session.core().threads())?;
        }
        if let Some(object) = part.object {
            self.put_object(&mut out, session, object)?;
        }
        Ok(out)
    }
}
