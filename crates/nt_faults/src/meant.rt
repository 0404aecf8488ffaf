//! What is meant by words and bytes that other languages write so.

use crate::place::Place;
use nt_grammar::Bindings;
use std::alloc::{AllocError, Global};

/// The functions of Windows and other words, in small letters, each with the keyword of its line.
const CALLS: [(&[u8], &[u8]); 27] = [
    (b"wait", b"any"),
    (b"waitforsingleobject", b"any"),
    (b"waitforsingleobjectex", b"any"),
    (b"waitformultipleobjects", b"any"),
    (b"waitformultipleobjectsex", b"any"),
    (b"sleepex", b"sleep"),
    (b"signalobjectandwait", b"swap"),
    (b"createevent", b"event"),
    (b"createeventw", b"event"),
    (b"createsemaphore", b"semaphore"),
    (b"createsemaphorew", b"semaphore"),
    (b"createmutex", b"mutex"),
    (b"createmutexw", b"mutex"),
    (b"createwaitabletimer", b"timer"),
    (b"createwaitabletimerw", b"timer"),
    (b"duplicatehandle", b"dup"),
    (b"setevent", b"set"),
    (b"resetevent", b"reset"),
    (b"pulseevent", b"pulse"),
    (b"releasesemaphore", b"release"),
    (b"releasemutex", b"unlock"),
    (b"setwaitabletimer", b"arm"),
    (b"setwaitabletimerex", b"arm"),
    (b"cancelwaitabletimer", b"cancel"),
    (b"queueuserapc", b"apc"),
    (b"closehandle", b"close"),
    (b"exitthread", b"exit"),
];

/// The longest of these words.
const MOST: usize = 24;

/// The keyword of the function with this name, in small letters.
fn keyword_of(name: &[u8]) -> Option<&'static [u8]> {
    CALLS
        .iter()
        .find(|(called, _)| *called == name)
        .map(|(_, keyword)| *keyword)
}

/// The word with small letters.
fn small(alloc: Global, word: &[u8]) -> Result<Vec<u8>, AllocError> {
    let mut letters = Vec::new(alloc);
    for byte in word {
        letters.push(byte.to_ascii_lowercase())?;
    }
    Ok(letters)
}

/// The word that was meant by one that can't stand in this place: the same in small letters where that can, the keyword of a function's name, or `inf`
/// for `INFINITE`.
pub(crate) fn meant(
    alloc: Global,
    place: Place,
    word: &[u8],
    bindings: &Bindings,
) -> Result<Option<Vec<u8>>, AllocError> {
    if word.len() > MOST {
        return Ok(None);
    }
    let letters = small(alloc, word)?;
    let other = match place {
        Place::Keyword => keyword_of(&letters),
        Place::Time if letters.as_slice() == b"infinite".as_slice() => Some(b"inf".as_slice()),
        _ => None,
    };
    match other {
        Some(other) => Ok(Some(Vec::from_slice(alloc, other)?)),
        None if place.is_spelled() && place.fits(bindings, &letters) => Ok(Some(letters)),
        None => Ok(None),
    }
}

/// What is said of bytes that begin so and can't stand in a script, where it is known what wrote them.
pub(crate) fn told_of_bytes(bytes: &[u8]) -> Option<&'static str> {
    match bytes {
        [0xef, 0xbb, 0xbf, ..] => {
            Some("  a byte order mark: save the script as UTF-8 without one\n")
        }
        [0xff, 0xfe, ..] | [0xfe, 0xff, ..] | [0, _, 0, ..] => {
            Some("  UTF-16: save the script as UTF-8 without a byte order mark\n")
        }
        _ => None,
    }
}
