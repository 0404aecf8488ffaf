// SPDX-License-Identifier: MIT OR Apache-2.0
//! The lines of a text, and the words, numbers and names in them.
//!
//! A script comes from a file, a pipe or a terminal, a piece at a time, and any piece may be the last or fail. [`Input`] makes lines of the pieces:
//! each without its line end, at most [`MAX_LINE`] bytes long, with what was read ahead kept for the next. It knows how a line ended, and
//! if it could not be read to its end, why.
//!
//! Within a line all is by value and nothing is copied: the text before the comment, its first word and the rest, a word as a number, a
//! name or a caller. What a line means is for others to say.
#![tactic(auto)]

mod input;
mod text;
mod words;

pub use input::{Ending, Input, MAX_LINE, ReadFault};
pub use text::put;
pub use words::{
    MAX_CALLER, MAX_DIGITS, are_digits, caller_of, first_word, name_of, number_of, text_of,
};
