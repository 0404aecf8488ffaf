// SPDX-License-Identifier: MIT OR Apache-2.0
//! What threads and objects are called, what threads wait for, and whether anything can end that, in words.
//!
//! An object has the first name that a script gave it, and comments may tell another ([`called_by`]). [`put_waiters`] puts a line for each thread
//! that waits, and [`put_verdict`] what is known of the waits' ends. [`answer_of`] says what a call answered, and whose waits it ended.
#![tactic(auto)]

mod answers;
mod lines;
mod names;
mod objects;
mod text;
mod verdicts;
mod waits;

pub use answers::{answer_of, put_status};
pub use lines::first_line;
pub use names::{called_by, put_object_name, put_thread_title};
pub use text::{put_number, put_signed};
pub use verdicts::{code_of, is_marked, marks_in, put_held, put_verdict};
pub use waits::put_waiters;
