//! From the words of a line to the first that can't stand where it does.

use crate::place::Place;
use crate::shape::{After, after_of, places_of};
use crate::shown::without_end;
use nt_grammar::{Bindings, Keyword};
use nt_lines::{caller_of, first_word};

/// Where a line has its fault: the place of the word's first byte, how many bytes it has, none where it is missing, and what should stand there.
#[derive(Clone, Copy, Debug, PartialEq, Eq)]
pub(crate) struct Mark {
    pub(crate) start: usize,
    pub(crate) length: usize,
    pub(crate) place: Place,
}

/// The words of a text that were not walked over yet.
#[derive(Drop)]
struct Walk<'a> {
    text: &'a [u8],
    left: &'a [u8],
    bindings: &'a Bindings,
}

impl<'a> Walk<'a> {
    /// Takes the next word, with the place of its first byte.
    fn take(&mut self) -> Option<(usize, &'a [u8])> {
        let (word, left) = first_word(self.left)?;
        let end = self.text.len().saturating_sub(left.len());
        self.left = left;
        Some((end.saturating_sub(word.len()), word))
    }

    /// The mark of a word that is missing: after the last word and a space.
    fn missing(&self, place: Place) -> Mark {
        let start = without_end(self.text).len().saturating_add(1);
        Mark {
            start,
            length: 0,
            place,
        }
    }

    /// Takes a word that may stand in this place, or answers its mark.
    fn expect(&mut self, place: Place) -> Result<&'a [u8], Mark> {
        match self.take() {
            Some((_, word)) if place.fits(self.bindings, word) => Ok(word),
            Some((start, word)) => Err(Mark {
                start,
                length: word.len(),
                place,
            }),
            None => Err(self.missing(place)),
        }
    }

    /// Nothing more may stand here.
    fn end(&mut self) -> Result<(), Mark> {
        match self.take() {
            Some((start, word)) => Err(Mark {
                start,
                length: word.len(),
                place: Place::End,
            }),
            None => Ok(()),
        }
    }

    /// Takes this word, where it stands here.
    fn pass(&mut self, option: &[u8]) {
        if let Some((word, left)) = first_word(self.left) {
            if word == option {
                self.left = left;
            }
        }
    }

    /// Takes the words of these places.
    fn places(&mut self, places: &[Place]) -> Result<(), Mark> {
        for place in places {
            let _word = self.expect(*place)?;
        }
        Ok(())
    }

    /// Takes as many objects as there are words.
    fn objects(&mut self) -> Result<(), Mark> {
        for _ in 0..self.left.len() {
            if first_word(self.left).is_none() {
                return Ok(());
            }
            let _word = self.expect(Place::Object)?;
        }
        Ok(())
    }

    /// Takes what may stand after the places.
    fn after(&mut self, after: After) -> Result<(), Mark> {
        match after {
            After::Options(options) => {
                for option in options {
                    self.pass(option);
                }
            }
            After::Objects => self.objects()?,
            After::Routine => {
                if first_word(self.left).is_some() {
                    self.places(&[Place::Value("ROUTINE"), Place::Value("ARG")])?;
                }
            }
        }
        self.end()
    }

    /// Takes a line after `threads`.
    fn statement(&mut self) -> Result<(), Mark> {
        let first = self.expect(Place::First)?;
        if caller_of(first).is_none() {
            let _moment = self.expect(Place::Moment)?;
            return self.end();
        }
        let word = self.expect(Place::Keyword)?;
        match Keyword::of(word) {
            Some(keyword) => {
                self.places(places_of(keyword))?;
                self.after(after_of(keyword))
            }
            None => Ok(()),
        }
    }
}

/// Where the first fault stands among the words of a line, which says nothing before `threads` where `opens`.
pub(crate) fn mark_of(text: &[u8], bindings: &Bindings, opens: bool) -> Option<Mark> {
    if first_word(text).is_none() {
        return None;
    }
    let mut walk = Walk {
        text,
        left: text,
        bindings,
    };
    let walked = if opens {
        match walk.places(&[Place::Opening, Place::Threads]) {
            Ok(()) => walk.end(),
            Err(mark) => Err(mark),
        }
    } else {
        walk.statement()
    };
    walked.err()
}
