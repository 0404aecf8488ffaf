// SPDX-License-Identifier: MIT OR Apache-2.0
//! A set of numbers as bits: a mark for each place, with the lowest marked place at hand.
//!
//! Which objects changed, so that waits on them are to be looked at? Which threads may have to be alerted? A dispatcher asks after every
//! call, and usually the answer is: none, or one. So it must not look at all objects to answer, and a mark should cost one bit at most.
//!
//! The places are numbered from 0. Each has a bit, and 64 bits stand in a word. Above them stands a bit for each word, which is set exactly
//! if the word is not 0; above these a bit for each of the words that they fill; and so three levels are enough for 262,144 places:
//!
//! ```text
//!   top      1 0 1 0 ..                              one word: is any place marked, and in which group of 4,096 is the lowest?
//!            |   |
//!   groups   01..  00..  10..  ..                    a bit for each word below
//!             |          |
//!   words    000.. 010.. .. 100.. ..                 a bit for each place
//! ```
//!
//! If no place is marked, one look at the top tells. Else the lowest bit of the top leads to a group, whose lowest bit leads to a word, whose
//! lowest bit is the place: three steps, however many places there are. A mark is set by a bit in each level. To clear it takes its bit away,
//! and the bits above as far as nothing else is left below them. Only adding places takes memory.
//!
//! Whoever has at most 256 places and no memory uses `FewMarks`, which has two levels: four words, and one above them.
#![tactic(auto)]

mod bits;
mod few;
mod marks;

pub use few::FewMarks;
pub use marks::Marks;
