// SPDX-License-Identifier: MIT OR Apache-2.0
//! Why the threads of a script wait, as text.
//!
//! A script is run up to a line, and each line is seen: since which line a thread waits, and which object a name was given to. One loop takes
//! the lines ([`take_lines`]), also for whoever keeps more of them ([`TakeLine`]).
//! The report tells of each thread that waits, of what it waits for, and whether anything can end that ([`report_on`]). [`why_over`] writes
//! it for a reader's script, and [`why_file`] for a file's.
#![tactic(auto)]

mod absent;
mod errors;
mod input;
mod reading;
mod refusals;
mod reports;
mod taker;
mod watch;
mod why;

pub use absent::{absent_in, verdict_of};
pub use errors::{lacks_memory, say};
pub use input::before_zero;
pub use reading::{InputFault, read_whole};
pub use refusals::refusals_line;
pub use reports::{Found, Report, last_moment, put_head, report_on};
pub use taker::{TakeLine, take_lines};
pub use watch::Watch;
pub use why::{show, show_found, tell, why_file, why_over};
