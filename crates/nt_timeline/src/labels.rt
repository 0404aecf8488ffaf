//! What a picture calls a call.

use nt_lines::{first_word, number_of};
use nt_script::Session;
use nt_status::Handle;
use nt_wording::{called_by, put_number, put_object_name};
use std::alloc::{AllocError, Global};

/// What a word that names an object stands for.
#[derive(Clone, Copy)]
pub struct Words<'a> {
    pub session: &'a Session,
    /// By the places of names, the numbers of the objects that they were given to.
    pub objects: &'a [u32],
    /// The lines that are a comment.
    pub told: &'a [u8],
}

/// Puts an object's word as it is, or what the comments call it.
fn put_called(out: &mut Vec<u8>, told: &[u8], word: &[u8]) -> Result<(), AllocError> {
    out.extend_from_slice(called_by(told, word).unwrap_or(word))
}

/// Puts the name of the object that the handle with this number names; else `h` and the number.
fn put_handle(out: &mut Vec<u8>, words: Words<'_>, number: u32) -> Result<(), AllocError> {
    match words.session.core().opened(Handle::new(number)) {
        Some(opened) => put_object_name(out, words.session, words.objects, opened.object.get()),
        None => {
            out.extend_from_slice(b"h")?;
            put_number(out, u64::from(number))
        }
    }
}

/// Puts the name of the object with this number, or what the comments call it.
pub fn put_object(
    alloc: Global,
    out: &mut Vec<u8>,
    words: Words<'_>,
    object: u32,
) -> Result<(), AllocError> {
    let mut name = Vec::new(alloc);
    put_object_name(&mut name, words.session, words.objects, object)?;
    put_called(out, words.told, &name)
}

/// Puts what an object's word stands for: a name or a thread as it is or as it is called, a handle by what it names.
fn put_word(
    alloc: Global,
    out: &mut Vec<u8>,
    words: Words<'_>,
    word: &[u8],
) -> Result<(), AllocError> {
    match number_of(word, 10) {
        Some(number) if number <= u64::from(u32::MAX) => {
            let mut name = Vec::new(alloc);
            put_handle(&mut name, words, number as u32)?;
            put_called(out, words.told, &name)
        }
        _ => put_called(out, words.told, word),
    }
}

/// Puts the words of the text, each as it stands for an object, with this between them.
fn put_objects(
    alloc: Global,
    out: &mut Vec<u8>,
    words: Words<'_>,
    text: &[u8],
    between: &[u8],
) -> Result<(), AllocError> {
    let mut rest = text;
    for place in 0..text.len() {
        let Some((word, others)) = first_word(rest) else {
            return Ok(());
        };
        if place > 0 {
            out.extend_from_slice(between)?;
        }
        put_word(alloc, out, words, word)?;
        rest = others;
    }
    Ok(())
}

/// Puts when a wait times out, and whether an APC ends it.
fn put_limits(out: &mut Vec<u8>, time: &[u8], mode: &[u8]) -> Result<(), AllocError> {
    if time != b"inf".as_slice() {
        out.extend_from_slice(b", ")?;
        out.extend_from_slice(time)?;
        out.extend_from_slice(b" ms")?;
    }
    if mode == b"alertable".as_slice() {
        out.extend_from_slice(b", alertable")?;
    }
    Ok(())
}

/// The first word, and what stands after it; nothing and nothing where there is none.
fn next(text: &[u8]) -> (&[u8], &[u8]) {
    first_word(text).unwrap_or((b"", b""))
}

/// Puts a wait: its time, its mode, and its objects.
fn put_wait(
    alloc: Global,
    out: &mut Vec<u8>,
    words: Words<'_>,
    verb: &[u8],
    between: &[u8],
    text: &[u8],
) -> Result<(), AllocError> {
    let (time, rest) = next(text);
    let (mode, objects) = next(rest);
    out.extend_from_slice(verb)?;
    put_objects(alloc, out, words, objects, between)?;
    put_limits(out, time, mode)
}

/// Puts a swap: what it signals, and for what it waits.
fn put_swap(
    alloc: Global,
    out: &mut Vec<u8>,
    words: Words<'_>,
    text: &[u8],
) -> Result<(), AllocError> {
    let (signaled, rest) = next(text);
    let (waited, rest) = next(rest);
    let (time, rest) = next(rest);
    let (mode, _) = next(rest);
    out.extend_from_slice(b"signal ")?;
    put_word(alloc, out, words, signaled)?;
    out.extend_from_slice(b", wait ")?;
    put_word(alloc, out, words, waited)?;
    put_limits(out, time, mode)
}

/// Puts a call on an object: its verb, the object, and the other words as they are.
fn put_act(
    alloc: Global,
    out: &mut Vec<u8>,
    words: Words<'_>,
    verb: &[u8],
    text: &[u8],
) -> Result<(), AllocError> {
    let (object, rest) = next(text);
    out.extend_from_slice(verb)?;
    if !object.is_empty() {
        out.extend_from_slice(b" ")?;
        put_word(alloc, out, words, object)?;
    }
    out.extend_from_slice(rest)
}

/// Puts what a picture calls a call.
pub(crate) fn put_label(
    alloc: Global,
    out: &mut Vec<u8>,
    words: Words<'_>,
    call: &[u8],
) -> Result<(), AllocError> {
    let (verb, rest) = next(call);
    match verb {
        b"any" => put_wait(alloc, out, words, b"wait ", b" or ", rest),
        b"all" => put_wait(alloc, out, words, b"wait ", b" and ", rest),
        b"sleep" => put_wait(alloc, out, words, b"sleep", b"", rest),
        b"swap" => put_swap(alloc, out, words, rest),
        _ => put_act(alloc, out, words, verb, rest),
    }
}
