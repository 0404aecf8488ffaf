//! The words of a line, with a fault where one is missing or too many.

ghost use Rattle.std.specs.Prelude.{◌≡◌, length, ◌==◌};
ghost use Rattle.nt_lines.specs.Words.{words_of};
ghost use Rattle.nt_grammar.specs.Reading.{GivesText, Takes, plain_text, word_at, end_at, option_at};

use crate::fault::ScriptFault;
use nt_lines::{first_word, text_of};
use std::marker::Model;

/// The words of a line that are left, seen as a list of them.
#[derive(Drop)]
pub(crate) struct Words<'a> {
    left: &'a [u8],
}

impl<'a> Model for Words<'a> {
    ghost use Rattle.std.specs.Prelude.{ℕ, List};
    ghost use Rattle.nt_lines.specs.Words.{words_of};

    ghost Value = { List (List ℕ) };

    ghost view = { λ words. words_of words.left.now };
}

impl<'a> Words<'a> {
    pub(crate) fn new(text: &'a [u8]) -> Words<'a>
        ensures { result ≡ words_of text.entry.now }
    {
        Words { left: text }
    }

    /// Takes the next word.
    pub(crate) fn next(&mut self) -> Result<&'a [u8], ScriptFault>
        ensures { Takes (λ word. word.now) result self.new (word_at self.old) }
    {
        let left: &'a [u8] = self.left;
        match first_word(left) {
            Some((word, left)) => {
                self.left = left;
                Ok(word)
            }
            None => Err(ScriptFault::MissingWord),
        }
    }

    pub(crate) fn is_empty(&self) -> bool
        ensures { result ≡ (length self.now == 0) }
    {
        first_word(self.left).is_none()
    }

    /// Nothing may stand after the words that were taken.
    pub(crate) fn end(&self) -> Result<(), ScriptFault>
        ensures { result ≡ end_at self.now }
    {
        if self.is_empty() {
            Ok(())
        } else {
            Err(ScriptFault::ExtraWord)
        }
    }

    /// Takes a word that may stand here, where it does.
    pub(crate) fn option(&mut self, text: &[u8]) -> bool
        ensures { option_at text.now self.old ≡ (result, self.new) }
    {
        let left: &'a [u8] = self.left;
        let mut ahead = Words { left };
        match ahead.next() {
            Ok(word) if word == text => {
                *self = ahead;
                true
            }
            _ => false,
        }
    }
}

/// The part of the line that is not a comment, if each of its bytes may stand there.
#[tactic(auto, unfolding(crate::specs::Reading::plain_text))]
pub(crate) fn plain_text(line: &[u8]) -> Result<&[u8], ScriptFault>
    ensures { GivesText result (plain_text line.now) }
{
    match text_of(line) {
        Some(text) => Ok(text),
        None => Err(ScriptFault::BadByte),
    }
}
