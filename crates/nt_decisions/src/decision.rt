//! A decision, and its line.

ghost use Rattle.std.specs.Prelude.{◌≡◌};
ghost use Rattle.nt_lines.specs.Words.{words_of};
ghost use Rattle.nt_decisions.specs.Decisions.{chosen_in, decision_in, parts_in};

use nt_lines::{caller_of, first_word, number_of};

/// Who goes on: a thread, or the clock, by which the next deadline comes.
#[derive(Clone, Copy, Debug, PartialEq, Eq)]
pub enum Chosen {
    Thread(u32),
    Clock,
}

/// At its point of this ordinal the thread has that one go on.
#[derive(Clone, Copy, Debug, PartialEq, Eq)]
pub struct Decision {
    pub thread: u32,
    pub ordinal: u64,
    pub chosen: Chosen,
}

// The word of the clock.
pub(crate) const CLOCK: &[u8] = b"clock";

fn chosen_in(word: &[u8]) -> Option<Chosen>
    ensures { result ≡ chosen_in word.now }
{
    if word == CLOCK {
        return Some(Chosen::Clock);
    }
    match caller_of(word) {
        Some(thread) => Some(Chosen::Thread(thread)),
        None => None,
    }
}

/// The decision that three words are.
fn decision_of(thread: &[u8], ordinal: &[u8], chosen: &[u8]) -> Option<Decision>
    ensures { result ≡ parts_in thread.now ordinal.now chosen.now }
{
    match caller_of(thread) {
        None => None,
        Some(thread) => match number_of(ordinal, 9) {
            None => None,
            Some(ordinal) => match chosen_in(chosen) {
                None => None,
                Some(chosen) => Some(Decision {
                    thread,
                    ordinal,
                    chosen,
                }),
            },
        },
    }
}

/// The decision that a line is.
pub fn read_decision(line: &[u8]) -> Option<Decision>
    ensures { result ≡ decision_in (words_of line.now) }
{
    match first_word(line) {
        None => None,
        Some((thread, left)) => match first_word(left) {
            None => None,
            Some((ordinal, left)) => match first_word(left) {
                None => None,
                Some((chosen, left)) => match first_word(left) {
                    None => decision_of(thread, ordinal, chosen),
                    Some(_) => None,
                },
            },
        },
    }
}
