// SPDX-License-Identifier: MIT OR Apache-2.0
//! Files of decisions: what differs in a scheduled run from what is usual, as `c/schedule/decisions.c` writes and reads it.
//!
//! ```text
//!    ; ntwin-schedule 1 time=free
//!    t1 12 t2          at its point 12 t1 has t2 go on
//!    t2 3 clock        at its point 3 t2 has the next deadline come
//! ```
//!
//! What was written is read back, and as nothing else (`written_is_read`). A line that begins with `;` is a comment. C reads more as the same:
//! numbers with spaces before them, a first line with more words.
#![tactic(auto)]

mod decision;
mod file;
mod writing;

pub use decision::{Chosen, Decision, read_decision};
pub use file::{FileFault, Schedule, Time, read_schedule};
pub use writing::{write_schedule, written_is_read};
