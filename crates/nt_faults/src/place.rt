//! What may stand in a place of a line, as words for a reader.

use nt_grammar::{ALERTABLE, Bindings, INF, Keyword, PLAIN};
use nt_lines::{MAX_DIGITS, are_digits, caller_of, name_of, number_of};
use nt_status::{MAX_MOMENT, MAX_THREADS};

/// A place of a line.
#[derive(Clone, Copy, Debug, PartialEq, Eq)]
pub(crate) enum Place {
    /// The word that begins a script.
    Opening,
    /// How many threads there are.
    Threads,
    /// The caller, or the word of a tick.
    First,
    /// The moment of a tick.
    Moment,
    /// The word after a caller.
    Keyword,
    Name,
    Object,
    Time,
    Mode,
    /// A signed number of 32 bits, by its name in the table of lines.
    Int(&'static str),
    /// A due time.
    Due,
    /// A number of 64 bits, likewise.
    Value(&'static str),
    /// Rights.
    Access,
    /// Nothing: the word is one too many.
    End,
}

/// Whether the word is a number of at most `most`, or `-` and one of at most `least`.
fn is_signed(word: &[u8], least: u64, most: u64) -> bool {
    match word {
        [b'-', digits @ ..] => number_of(digits, MAX_DIGITS).is_some_and(|n| n <= least),
        _ => number_of(word, MAX_DIGITS).is_some_and(|n| n <= most),
    }
}

/// Whether the word is a number from `least` to `most`.
fn is_number(word: &[u8], least: u64, most: u64) -> bool {
    number_of(word, MAX_DIGITS).is_some_and(|n| least <= n && n <= most)
}

/// Whether the word names an object, or is the number of a handle.
fn is_object(bindings: &Bindings, word: &[u8]) -> bool {
    if are_digits(word) {
        return is_number(word, 0, u64::from(u32::MAX));
    }
    match caller_of(word) {
        Some(thread) => thread < bindings.threads(),
        None => bindings.get(word).is_some(),
    }
}

impl Place {
    /// Whether the word may stand here.
    pub(crate) fn fits(self, bindings: &Bindings, word: &[u8]) -> bool {
        match self {
            Place::Opening => word == b"threads".as_slice(),
            Place::Threads => is_number(word, 1, u64::from(MAX_THREADS)),
            Place::First => word == b"tick".as_slice() || caller_of(word).is_some(),
            Place::Moment => is_number(word, 0, MAX_MOMENT),
            Place::Keyword => Keyword::of(word).is_some(),
            Place::Name => name_of(word).is_some() && bindings.get(word).is_none(),
            Place::Object => is_object(bindings, word),
            Place::Time => word == INF || is_number(word, 0, u64::from(u32::MAX)),
            Place::Mode => word == PLAIN || word == ALERTABLE,
            Place::Int(_) => is_signed(word, 1 << 31, i32::MAX as u64),
            Place::Due => is_signed(word, 1 << 63, i64::MAX as u64),
            Place::Value(_) => is_number(word, 0, u64::MAX),
            Place::Access => is_number(word, 0, u64::from(u32::MAX)),
            Place::End => false,
        }
    }

    /// Whether what stands here is known by its letters: a word, a thread or a name.
    pub(crate) fn is_spelled(self) -> bool {
        match self {
            Place::Opening
            | Place::First
            | Place::Keyword
            | Place::Object
            | Place::Time
            | Place::Mode => true,
            _ => false,
        }
    }

    /// The place's name in the table of lines, where its words need one.
    pub(crate) fn name(self) -> Option<&'static str> {
        match self {
            Place::Threads => Some("N"),
            Place::Moment => Some("M"),
            Place::Int(name) | Place::Value(name) => Some(name),
            Place::Due => Some("DUE"),
            Place::Access => Some("ACCESS"),
            _ => None,
        }
    }

    /// What can stand here. It is empty at a line's end, and for keywords, which the message lists one by one.
    pub(crate) fn stands(self) -> &'static str {
        match self {
            Place::Opening => "threads, and then how many: 1 to 256",
            Place::Threads => "a number from 1 to 256",
            Place::First => "tick, or the thread that makes the call, as t0",
            Place::Moment => "a number from 0 to 4611686018427387904",
            Place::Name => {
                "a new name: a letter or _, then letters, digits or _, at most 32, and not t and digits alone"
            }
            Place::Object => "the name of an object, a thread as t0, or a handle's number",
            Place::Time => "inf, or milliseconds from 0 to 4294967295",
            Place::Mode => "plain, alertable",
            Place::Int(_) => "a number from -2147483648 to 2147483647",
            Place::Due => "a number from -9223372036854775808 to 9223372036854775807",
            Place::Value(_) => "a number from 0 to 18446744073709551615",
            Place::Access => "a number from 0 to 4294967295",
            Place::Keyword | Place::End => "",
        }
    }
}
