// SPDX-License-Identifier: MIT OR Apache-2.0
//! A call that was made, as the line of a script.
//!
//! A run can be looked at and made again if its calls are written down. A script can hold them: each call is the line that reads as that call,
//! word by word as the grammar has them, with objects by the numbers of their handles and numbers without leading zeros.
//!
//! ```text
//!    thread 0 sets handle 3 --> t0 set 3
//!    thread 0 creates an event, which answers handle 3 --> t0 event h3
//! ```
//!
//! - What is written reads as that call and as no other ([`write_line`]). Few calls have no line: those with a flag that there is
//!   not, and those with more objects than a line has room for ([`Unwritten`]).
//! - Room for the longest line is made first; then nothing can fail, and each word is put where it belongs.
#![tactic(auto)]

mod writing;
mod written_calls;
mod written_words;

pub use writing::{Unwritten, write_line};
