//! What a line says, as `c/schedule/told.c` writes it.

use nt_lines::{caller_of, first_word, number_of};
use nt_schedule::{Choice, Point, Slept, StepReport, TurnRequest, Turned, Woken};

/// The most digits of a number of 64 bits.
const MOST_DIGITS: usize = 20;

/// What a line says.
#[derive(Clone, Copy)]
pub enum RunLine {
    /// A run begins, in which deadlines may come early or not.
    Run(bool),
    Step(StepReport),
}

/// The only word of a text.
fn only_word(text: &[u8]) -> Option<&[u8]> {
    let (word, left) = first_word(text)?;
    if first_word(left).is_some() {
        return None;
    }
    Some(word)
}

fn thread_in(word: &[u8]) -> Option<usize> {
    let number = caller_of(word)?;
    Some(number as usize)
}

fn number_in(word: &[u8]) -> Option<u64> {
    number_of(word, MOST_DIGITS)
}

/// A moment, or that there is none.
fn until_in(word: &[u8]) -> Option<Option<u64>> {
    if word == b"never".as_slice() {
        return Some(None);
    }
    let moment = number_in(word)?;
    Some(Some(moment))
}

/// A thread, or nobody.
fn woken_in(word: &[u8]) -> Option<Option<usize>> {
    if word == b"nobody".as_slice() {
        return Some(None);
    }
    let thread = thread_in(word)?;
    Some(Some(thread))
}

fn point_in(word: &[u8]) -> Option<Point> {
    if word == b"call".as_slice() {
        Some(Point::Call)
    } else if word == b"yield".as_slice() {
        Some(Point::Yield)
    } else if word == b"sleep".as_slice() {
        Some(Point::Sleep)
    } else if word == b"end".as_slice() {
        Some(Point::End)
    } else {
        None
    }
}

fn choice_in(word: &[u8]) -> Option<Choice> {
    if word == b"clock".as_slice() {
        return Some(Choice::Clock);
    }
    if word == b"nobody".as_slice() {
        return Some(Choice::Nobody);
    }
    let thread = thread_in(word)?;
    Some(Choice::Thread(thread))
}

/// What stands after `sleeps`.
fn slept_in(text: &[u8]) -> Option<Slept> {
    let (thread, left) = first_word(text)?;
    let (word, left) = first_word(left)?;
    let until = only_word(left)?;
    Some(Slept {
        thread: thread_in(thread)?,
        word: number_in(word)?,
        until: until_in(until)?,
    })
}

/// What stands after `wakes`.
fn wakes_in(text: &[u8]) -> Option<Woken> {
    let (word, left) = first_word(text)?;
    let woken = only_word(left)?;
    Some(Woken {
        word: number_in(word)?,
        thread: woken_in(woken)?,
    })
}

/// Whether the step was decided: the last word says so, or there is none.
fn decided_in(text: &[u8]) -> Option<bool> {
    match first_word(text) {
        None => Some(false),
        Some((word, left)) => {
            if word == b"decided".as_slice() && first_word(left).is_none() {
                Some(true)
            } else {
                None
            }
        }
    }
}

/// What stands after `turn`.
fn turned_in(text: &[u8], is_free: bool) -> Option<Turned> {
    let (caller, left) = first_word(text)?;
    let (point, left) = first_word(left)?;
    let (choice, left) = first_word(left)?;
    let (time, left) = first_word(left)?;
    let choice = choice_in(choice)?;
    let is_decided = decided_in(left)?;
    let asked = TurnRequest {
        point: point_in(point)?,
        caller: thread_in(caller)?,
        wanted: if is_decided { Some(choice) } else { None },
        is_free,
    };
    Some(Turned {
        asked,
        choice,
        time: number_in(time)?,
    })
}

/// A run begins: `free` may follow.
fn run_in(text: &[u8]) -> Option<RunLine> {
    match first_word(text) {
        None => Some(RunLine::Run(false)),
        Some(_) => {
            if only_word(text)? == b"free".as_slice() {
                Some(RunLine::Run(true))
            } else {
                None
            }
        }
    }
}

/// A step of this kind, with what stands after it.
fn told_in(kind: &[u8], text: &[u8], is_free: bool) -> Option<StepReport> {
    if kind == b"turn".as_slice() {
        Some(StepReport::Turns(turned_in(text, is_free)?))
    } else if kind == b"passes".as_slice() {
        Some(StepReport::Passes(number_in(only_word(text)?)?))
    } else if kind == b"sleeps".as_slice() {
        Some(StepReport::Sleeps(slept_in(text)?))
    } else if kind == b"wakes".as_slice() {
        Some(StepReport::Wakes(wakes_in(text)?))
    } else if kind == b"rouses".as_slice() {
        Some(StepReport::Rouses(thread_in(only_word(text)?)?))
    } else if kind == b"ends".as_slice() {
        Some(StepReport::Ends(thread_in(only_word(text)?)?))
    } else if first_word(text).is_some() {
        None
    } else if kind == b"comes".as_slice() {
        Some(StepReport::Comes)
    } else if kind == b"hangs".as_slice() {
        Some(StepReport::Hangs)
    } else {
        None
    }
}

/// What the line says, if it says anything.
pub fn line_in(line: &[u8], is_free: bool) -> Option<RunLine> {
    let (kind, left) = first_word(line)?;
    if kind == b"run".as_slice() {
        return run_in(left);
    }
    Some(RunLine::Step(told_in(kind, left, is_free)?))
}
