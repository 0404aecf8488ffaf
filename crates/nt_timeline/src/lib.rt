// SPDX-License-Identifier: MIT OR Apache-2.0
//! The run of a script as a timeline in text, with a column for each thread.
//!
//! A script is run line by line, and of each line that calls or ticks a step is kept: who called, what it answered, which waits it ended
//! (`steps`). Then the steps are laid out (`rows`). What a wait, an answer and an object are called is what
//! the dispatcher tells, by the names of Windows. [`timeline_file`] does it of a file's script; `nt_drawing` draws what is kept.
#![tactic(auto)]

mod answers;
mod cells;
mod film;
mod kept;
mod labels;
mod lacking;
mod part;
mod rows;
mod steps;
mod timeline;
mod waiting;

pub use answers::name_of;
pub use film::Film;
pub use kept::Kept;
pub use labels::{Words, put_object};
pub use part::Selection;
pub use steps::{EndOfWait, Kind, ObjectChange, Step};
pub use timeline::{Outcome, timeline_file, timeline_on, timeline_over};
