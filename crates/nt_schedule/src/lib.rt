// SPDX-License-Identifier: MIT OR Apache-2.0
//! How a program runs by schedules of its threads, as `c/schedule` does it: who goes on at each point, what a file says of that, and which
//! schedule comes next.
//!
//! ```text
//!    threads, the time --> who goes on: a thread, the clock, nobody      Turns::turn
//!    a run's own report --> where it goes otherwise                      Run::follow
//!    the path of a run --> what is asked of the next one                 next_branch
//! ```
//!
//! One thread runs at a time. At a **point** the scheduler decides which one goes on; where nothing is decided, that is the **usual** choice. The
//! time is a number, which comes to the next **deadline** once no thread can go on, or earlier where the time is free.
//!
//! | Law | It says |
//! |---|---|
//! | `who_is_chosen_can_go_on` | a thread that is chosen can go on |
//! | `time_comes_to_deadlines` | the time never goes back, and comes to the next deadline alone |
//! | `hangs_exactly` | nobody is chosen exactly where no thread can go on and none has a deadline |
//! | `each_path_once` | a search asks for each path within its bound once, in order, and leaves none out |
//!
//! `Run` follows what a run tells (`c/schedule/told.c`). What the program does between its points is no part of it.
#![tactic(auto)]

mod choosing;
mod following;
mod laws;
mod search;
mod standing;
mod told;
mod tree;
mod turns;

pub use following::Run;
pub use laws::{hangs_exactly, time_comes_to_deadlines, who_is_chosen_can_go_on};
pub use search::each_path_once;
pub use standing::{Choice, Point, Sleep, ThreadState, Turn, TurnRequest};
pub use told::{Differs, Slept, StepReport, Turned, Woken};
pub use tree::{Branch, Node, diverges, next_branch};
pub use turns::Turns;
