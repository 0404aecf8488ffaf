//! All that is said of a fault.

use crate::meant::{meant, told_of_bytes};
use crate::near::near;
use crate::place::Place;
use crate::shown::{bad_byte, code_of, put_marked, put_shown, without_end, without_return};
use crate::told::Told;
use crate::walk::{Mark, mark_of};
use itoa::Buffer;
use nt_grammar::{Bindings, KEYWORDS, ScriptFault};
use nt_lines::{MAX_LINE, caller_of};
use std::alloc::{AllocError, Global};

/// The bytes that are shown of a line that is too long.
const BEGINNING: usize = 60;

fn put_text(out: &mut Vec<u8>, text: &str) -> Result<(), AllocError> {
    out.extend_from_slice(text.as_bytes())
}

fn put_number(out: &mut Vec<u8>, number: u64) -> Result<(), AllocError> {
    put_text(out, Buffer::new().format(number))
}

/// Puts `NAME:LINE: FAULT`, or `NAME:LINE:COLUMN: FAULT`.
pub(crate) fn put_place(
    out: &mut Vec<u8>,
    told: &Told,
    column: Option<usize>,
) -> Result<(), AllocError> {
    put_text(out, told.name.as_str())?;
    put_text(out, ":")?;
    put_number(out, told.line)?;
    if let Some(column) = column {
        put_text(out, ":")?;
        put_number(out, column as u64)?;
    }
    put_text(out, ": ")?;
    put_text(out, told.fault.as_str())?;
    put_text(out, "\n")
}

/// Puts which threads there are.
fn put_threads(out: &mut Vec<u8>, threads: u32) -> Result<(), AllocError> {
    put_text(out, "  no thread has this number: there ")?;
    if threads == 1 {
        return put_text(out, "is t0 alone\n");
    }
    put_text(out, "are t0 to t")?;
    put_number(out, u64::from(threads.saturating_sub(1)))?;
    put_text(out, "\n")
}

/// Puts the word that may have been meant.
fn put_other(out: &mut Vec<u8>, other: &[u8]) -> Result<(), AllocError> {
    put_text(out, "  did you mean `")?;
    out.extend_from_slice(other)?;
    put_text(out, "`?\n")
}

/// Puts what may have been meant by a word that can't stand in this place, where that is known.
fn put_hint(
    alloc: Global,
    out: &mut Vec<u8>,
    place: Place,
    word: &[u8],
    bindings: &Bindings,
) -> Result<(), AllocError> {
    if word.starts_with(b"#") || word.starts_with(b"//") {
        return put_text(out, "  a comment begins with `;`\n");
    }
    if place == Place::Object && caller_of(word).is_some() {
        return put_threads(out, bindings.threads());
    }
    if let Some(other) = meant(alloc, place, word, bindings)? {
        return put_other(out, &other);
    }
    match near(place, word, bindings) {
        Some(other) => put_other(out, other),
        None => Ok(()),
    }
}

/// Puts what wrote the bytes from one that can't stand in a script on, where that is known. It shows at the beginning of a script alone.
fn put_bytes(out: &mut Vec<u8>, line: &[u8], mark: Mark, opens: bool) -> Result<(), AllocError> {
    if !opens || mark.place != Place::End {
        return Ok(());
    }
    match told_of_bytes(line.get(mark.start..).unwrap_or(b"")) {
        Some(text) => put_text(out, text),
        None => Ok(()),
    }
}

/// Puts each keyword.
fn put_keywords(out: &mut Vec<u8>) -> Result<(), AllocError> {
    for (at, keyword) in KEYWORDS.iter().enumerate() {
        if at > 0 {
            put_text(out, ", ")?;
        }
        put_text(out, keyword.text())?;
    }
    Ok(())
}

/// Puts what can stand in this place, if anything can.
fn put_stands(out: &mut Vec<u8>, place: Place) -> Result<(), AllocError> {
    if place == Place::End {
        return Ok(());
    }
    put_text(out, "  here can stand: ")?;
    if let Some(name) = place.name() {
        put_text(out, name)?;
        put_text(out, ": ")?;
    }
    if place == Place::Keyword {
        put_keywords(out)?;
    }
    put_text(out, place.stands())?;
    put_text(out, "\n")
}

/// Puts the line with its mark, what may have been meant, and what can stand there.
fn put_mark(
    alloc: Global,
    out: &mut Vec<u8>,
    text: &[u8],
    mark: Mark,
    bindings: &Bindings,
) -> Result<(), AllocError> {
    put_marked(out, text, mark)?;
    let end = mark.start.saturating_add(mark.length);
    let word = text.get(mark.start..end).unwrap_or(b"");
    if !word.is_empty() {
        put_hint(alloc, out, mark.place, word, bindings)?;
    }
    put_stands(out, mark.place)
}

/// The faults of single words.
const OF_WORDS: [ScriptFault; 8] = [
    ScriptFault::ThreadsExpected,
    ScriptFault::UnknownWord,
    ScriptFault::MissingWord,
    ScriptFault::BadNumber,
    ScriptFault::BadName,
    ScriptFault::NameTaken,
    ScriptFault::UnknownName,
    ScriptFault::ExtraWord,
];

/// Whether this is the fault of a single word.
fn is_of_a_word(fault: &str) -> bool {
    OF_WORDS.iter().any(|it| it.words() == fault)
}

/// Where the line's fault stands, if it is one of a word or a byte.
fn find(line: &[u8], fault: &str, bindings: &Bindings, opens: bool) -> Option<Mark> {
    if fault == ScriptFault::BadByte.words() {
        let start = bad_byte(line)?;
        return Some(Mark {
            start,
            length: 4,
            place: Place::End,
        });
    }
    if !is_of_a_word(fault) {
        return None;
    }
    mark_of(line.get(..code_of(line)).unwrap_or(line), bindings, opens)
}

/// Puts what is said of a line that goes on after the last byte that it may have.
fn put_too_long(out: &mut Vec<u8>, line: &[u8]) -> Result<(), AllocError> {
    put_text(out, "  ")?;
    put_shown(out, line.get(..BEGINNING).unwrap_or(line))?;
    put_text(out, " .. goes on after 4096 bytes\n")
}

/// Puts all about the fault reported of this line: its place; the line, with the word marked; what may have been meant; and what can stand there.
/// `bindings` is what the lines before it bound, and `None` before the `threads` line.
pub(crate) fn put_message(
    alloc: Global,
    out: &mut Vec<u8>,
    told: &Told,
    line: &[u8],
    bindings: Option<&Bindings>,
) -> Result<(), AllocError> {
    if told.fault.as_str() == ScriptFault::LineTooLong.words() {
        put_place(out, told, Some(MAX_LINE + 1))?;
        return put_too_long(out, line);
    }
    let line = without_return(line);
    let none = Bindings::new(alloc, 0);
    let bound = bindings.unwrap_or(&none);
    let mut shown = Vec::new(alloc);
    put_shown(&mut shown, line)?;
    let text = without_end(shown.as_slice());
    match find(line, told.fault.as_str(), bound, bindings.is_none()) {
        Some(mark) => {
            put_place(out, told, Some(mark.start.saturating_add(1)))?;
            put_mark(alloc, out, text, mark, bound)?;
            put_bytes(out, line, mark, bindings.is_none())
        }
        None => {
            put_place(out, told, Some(1))?;
            put_plain(out, text)
        }
    }
}

/// Puts the line with no mark, if there is anything in it.
fn put_plain(out: &mut Vec<u8>, text: &[u8]) -> Result<(), AllocError> {
    if text.is_empty() {
        return Ok(());
    }
    put_text(out, "  ")?;
    out.extend_from_slice(text)?;
    put_text(out, "\n")
}
