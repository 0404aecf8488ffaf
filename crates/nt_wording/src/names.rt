//! What threads and objects are called.
ghost use Rattle.std.specs.Prelude.{◌≡◌, ◌++◌, None, ◌≤◌, OnOk, drop, option_and_then, vec_len};
ghost use Rattle.std.specs.Option.{option_copied};
ghost use Rattle.nt_script.specs.Progress.{progress};
ghost use Rattle.nt_grammar.specs.Scope.{name_in};
ghost use Rattle.nt_wording.specs.Names.{after_front, called_by, later, name_told, object_name, object_title, or_nothing, name_place_of};
ghost use Rattle.nt_wording.specs.Names.{thread_name, thread_title, titled};
ghost use Rattle.nt_lines.specs.Lines.{lines_of};

use crate::lines::first_line;
use crate::text::put_number;
use nt_script::Session;
use std::alloc::AllocError;

/// Puts a thread's name.
pub(crate) fn put_thread(out: &mut Vec<u8>, thread: u32) -> Result<(), AllocError>
    ensures { OnOk result (out.new.items ≡ out.old.items ++ thread_name thread) }
{
    out.extend_from_slice(b"t")?;
    put_number(out, u64::from(thread))
}

/// The place of the first name that the object was given.
fn place_of(objects: &[u32], object: u32) -> Option<usize>
    ensures { result ≡ name_place_of objects.now object }
{
    objects.iter().position(|named| *named == object)
}

/// The first name that the object was given.
fn name_of<'a>(session: &'a Session, objects: &[u32], object: u32) -> Option<&'a [u8]>
    ensures { option_copied result
        ≡ option_and_then (name_in (progress session.now).scope.names) (name_place_of objects.now object) }
{
    match place_of(objects, object) {
        Some(place) => session.name_at(place),
        None => None,
    }
}

/// Puts an object's name.
pub fn put_object_name(
    out: &mut Vec<u8>,
    session: &Session,
    objects: &[u32],
    object: u32,
) -> Result<(), AllocError>
    ensures { OnOk result (out.new.items ≡ out.old.items ++ object_name (progress session.now) objects.now object) }
{
    if object < session.core().threads() {
        return put_thread(out, object);
    }
    match name_of(session, objects, object) {
        Some(name) => out.extend_from_slice(name),
        None => {
            out.extend_from_slice(b"object ")?;
            put_number(out, u64::from(object))
        }
    }
}

/// What stands after the front, where the text begins so.
fn after<'a>(front: &[u8], text: &'a [u8]) -> Option<&'a [u8]>
    ensures { option_copied result ≡ after_front front.now text.now }
{
    if text.starts_with(front) {
        Some(&text[front.len()..])
    } else {
        None
    }
}

/// What this line calls the word, as `; h256 is accounts` does.
fn name_told<'a>(word: &[u8], line: &'a [u8]) -> Option<&'a [u8]>
    ensures { option_copied result ≡ name_told word.now line.now }
{
    match after(b"; ", line) {
        Some(text) => match after(word, text) {
            Some(text) => after(b" is ", text),
            None => None,
        },
        None => None,
    }
}

/// The later of two names.
fn later<'a>(old: Option<&'a [u8]>, new: Option<&'a [u8]>) -> Option<&'a [u8]>
    ensures { option_copied result ≡ later (option_copied old.entry) (option_copied new.entry) }
{
    match new {
        Some(name) => Some(name),
        None => old,
    }
}

/// What the last of the text's lines that tells a name for the word calls it.
pub fn called_by<'a>(told: &'a [u8], word: &[u8]) -> Option<&'a [u8]>
    ensures { option_copied result ≡ called_by word.now None (lines_of told.now) }
{
    let mut found = None;
    let mut rest = told;
    while !rest.is_empty() {
        let (line, others) = first_line(rest);
        found = later(found, name_told(word, line));
        rest = others;
    }
    found
}

/// Puts a space and the name, if there is one.
fn put_name(out: &mut Vec<u8>, name: Option<&[u8]>) -> Result<(), AllocError>
    ensures { OnOk result (out.new.items ≡ out.old.items ++ or_nothing (option_copied name.entry)) }
{
    match name {
        Some(name) => {
            out.extend_from_slice(b" ")?;
            out.extend_from_slice(name)
        }
        None => Ok(()),
    }
}

/// Puts the name of the word that stands from `start` on, if the text tells one.
fn put_called(out: &mut Vec<u8>, told: &[u8], start: usize) -> Result<(), AllocError>
    requires { start ≤ vec_len out.old }
    ensures { OnOk result (out.new.items ≡ out.old.items
        ++ or_nothing (called_by (drop start out.old.items) None (lines_of told.now))) }
{
    let name = called_by(told, &out[start..]);
    put_name(out, name)
}

/// Puts a thread's name, and what it is called.
pub fn put_thread_title(out: &mut Vec<u8>, told: &[u8], thread: u32) -> Result<(), AllocError>
    ensures { OnOk result (out.new.items ≡ out.old.items ++ thread_title told.now thread) }
{
    let start = out.len();
    put_thread(out, thread)?;
    put_called(out, told, start)
}

/// Puts an object's name, and what it is called.
pub(crate) fn put_object_title(
    out: &mut Vec<u8>,
    session: &Session,
    objects: &[u32],
    told: &[u8],
    object: u32,
) -> Result<(), AllocError>
    ensures { OnOk result (out.new.items ≡ out.old.items ++ object_title (progress session.now) objects.now told.now object) }
{
    let start = out.len();
    put_object_name(out, session, objects, object)?;
    put_called(out, told, start)
}
