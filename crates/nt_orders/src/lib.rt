// SPDX-License-Identifier: MIT OR Apache-2.0
//! Every order of a script's lines, as text: whether one hangs, and which.
//!
//! A script is one order of its threads' calls. Here its lines are a plan (`nt_plans`): what it creates, wherever that stands, is made first;
//! then each thread keeps the order of its own lines, and the ticks keep theirs ([`Script`]). `nt_explore` tries all orders of the plan, and
//! the report shows the shortest that hangs, line by line, and since when a wait was lost ([`report_on`]). That order is a script too
//! ([`Findings`]). [`explore_over`] tells of a reader's script, [`explore_file`] of a file's, and meanwhile a [`Progress`] of how far it is.
#![tactic(auto)]

mod explore;
mod fault;
mod lanes;
mod order;
mod progress;
mod reading;
mod report;
mod rows;

pub use explore::{explore_file, explore_over};
pub use fault::OrdersFault;
pub use lanes::Script;
pub use nt_plans::Line;
pub use progress::Progress;
pub use report::{Findings, report_on};
