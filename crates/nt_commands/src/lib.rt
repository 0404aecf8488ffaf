// SPDX-License-Identifier: MIT OR Apache-2.0
//! What a command line asks for, and what its commands do.
//!
//! A program has words, files and two outputs, and answers one number. Between them nothing may get lost: a script that could not be read to its
//! end, a line that could not be written, a growth that was refused. So each command is proved to end in one of a few ways, each
//! with its exit status and its line on standard error, and status 0 means that everything was handed on:
//!
//! ```text
//!    words --> what is asked for --> script FILE         a transcript     run_file
//!          |                     \-> threads N ROUNDS    a report         threads_over
//!          +--> usage, 2
//! ```
//!
//! [`carry_out`] does all of it. What it calls is generic in the files and outputs, so tests give [`script_over`] and
//! [`threads_over`] ones that fail.
#![tactic(auto)]

mod commands;
mod errors;
mod plan;
mod script;
mod threads;

pub use commands::carry_out;
pub use plan::{CommandPlan, PlanFault, plan_of};
pub use script::{run_file, script_over};
pub use threads::threads_over;
