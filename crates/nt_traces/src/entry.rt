//! What a line of a trace says: `opening lock N` begins a run of N threads, and `lock NAME T` or `lock NAME T U` is an event of it. So it is
//! with `word`, of the words on which threads sleep, and `park`, of those that wait at an address.

ghost use Rattle.std.specs.Prelude.{◌≡◌};
ghost use Rattle.nt_lines.specs.Words.{words_of};
ghost use Rattle.nt_traces.specs.Traces.{number_below, opened_of, opening_of, other_of, threads_of, Says, SaysLockEvent, SaysParkEvent, SaysWordEvent};

use crate::word::{WordEvent, WordKind};
use nt_lines::{first_word, number_of};
use nt_lock_traces::{LockEvent, LockKind};
use nt_park_traces::{ParkEvent, ParkKind};

/// The most threads of a run of the lock.
pub const MAX_THREADS: u64 = 1024;

/// The most threads of a run of the words.
const MAX_SEATS: u64 = 64;

/// The most threads of a run of parking.
const MAX_PARKED: u64 = 64;

const OPENING: &[u8] = b"opening";

const LOCK: &[u8] = b"lock";

const WORD: &[u8] = b"word";

const PARK: &[u8] = b"park";

/// What a line says: a run of a protocol begins, or an event of it.
#[derive(Clone, Copy, Debug, PartialEq, Eq)]
pub enum TraceEntry {
    LockOpens(usize),
    LockStep(LockEvent),
    WordOpens(usize),
    WordStep(WordEvent),
    ParkOpens(usize),
    ParkStep(ParkEvent),
}

/// The word as a number below this one.
fn number_in(word: &[u8], limit: u64) -> Option<usize>
    ensures { result ≡ number_below limit word.now }
{
    match number_of(word, 9) {
        Some(number) if number < limit => Some(number as usize),
        _ => None,
    }
}

/// How many threads a run has, in the only word.
fn opened_in(text: &[u8], limit: u64) -> Option<usize>
    ensures { result ≡ opened_of limit (words_of text.now) }
{
    match first_word(text) {
        Some((word, left)) => match first_word(left) {
            Some(_) => None,
            None => number_in(word, limit),
        },
        None => None,
    }
}

/// The other thread of an event, or 0 where it names none.
fn other_in(text: &[u8]) -> Option<usize>
    ensures { result ≡ other_of (words_of text.now) }
{
    match first_word(text) {
        Some((word, left)) => match first_word(left) {
            Some(_) => None,
            None => number_in(word, MAX_THREADS),
        },
        None => Some(0),
    }
}

/// An event's thread and the other one.
fn threads_in(text: &[u8]) -> Option<(usize, usize)>
    ensures { result ≡ threads_of (words_of text.now) }
{
    match first_word(text) {
        Some((word, left)) => match number_in(word, MAX_THREADS) {
            Some(thread) => match other_in(left) {
                Some(other) => Some((thread, other)),
                None => None,
            },
            None => None,
        },
        None => None,
    }
}

/// An event of the lock: its name and its threads.
fn lock_event_in(text: &[u8]) -> Option<LockEvent>
    ensures { SaysLockEvent (words_of text.now) result }
{
    match first_word(text) {
        Some((name, left)) => match LockKind::of(name) {
            Some(kind) => match threads_in(left) {
                Some((thread, other)) => Some(LockEvent {
                    kind,
                    thread,
                    other,
                }),
                None => None,
            },
            None => None,
        },
        None => None,
    }
}

/// An event of the words.
fn word_event_in(text: &[u8]) -> Option<WordEvent>
    ensures { SaysWordEvent (words_of text.now) result }
{
    match first_word(text) {
        Some((name, left)) => match WordKind::of(name) {
            Some(kind) => match threads_in(left) {
                Some((thread, other)) => Some(WordEvent {
                    kind,
                    thread,
                    other,
                }),
                None => None,
            },
            None => None,
        },
        None => None,
    }
}

/// An event of parking.
fn park_event_in(text: &[u8]) -> Option<ParkEvent>
    ensures { SaysParkEvent (words_of text.now) result }
{
    match first_word(text) {
        Some((name, left)) => match ParkKind::of(name) {
            Some(kind) => match threads_in(left) {
                Some((thread, other)) => Some(ParkEvent {
                    kind,
                    thread,
                    other,
                }),
                None => None,
            },
            None => None,
        },
        None => None,
    }
}

/// A run begins.
fn opening_in(text: &[u8]) -> Option<TraceEntry>
    ensures { result ≡ opening_of (words_of text.now) }
{
    match first_word(text) {
        Some((protocol, left)) => {
            if protocol == LOCK {
                match opened_in(left, MAX_THREADS + 1) {
                    Some(threads) => Some(TraceEntry::LockOpens(threads)),
                    None => None,
                }
            } else if protocol == WORD {
                match opened_in(left, MAX_SEATS + 1) {
                    Some(threads) => Some(TraceEntry::WordOpens(threads)),
                    None => None,
                }
            } else if protocol == PARK {
                match opened_in(left, MAX_PARKED + 1) {
                    Some(threads) => Some(TraceEntry::ParkOpens(threads)),
                    None => None,
                }
            } else {
                None
            }
        }
        None => None,
    }
}

/// What the line says, if it says anything.
pub(crate) fn entry_in(line: &[u8]) -> Option<TraceEntry>
    ensures { Says (words_of line.now) result }
{
    match first_word(line) {
        Some((first, left)) => {
            if first == OPENING {
                opening_in(left)
            } else if first == LOCK {
                match lock_event_in(left) {
                    Some(event) => Some(TraceEntry::LockStep(event)),
                    None => None,
                }
            } else if first == WORD {
                match word_event_in(left) {
                    Some(event) => Some(TraceEntry::WordStep(event)),
                    None => None,
                }
            } else if first == PARK {
                match park_event_in(left) {
                    Some(event) => Some(TraceEntry::ParkStep(event)),
                    None => None,
                }
            } else {
                None
            }
        }
        None => None,
    }
}
