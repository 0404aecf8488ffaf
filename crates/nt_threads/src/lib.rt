// SPDX-License-Identifier: MIT OR Apache-2.0
//! The plan of the program's threads: real threads that share a mutex, a semaphore and an event.
//!
//! Scripts show what the dispatcher does by itself. This shows that threads which really run, sleep and wake come to what it promises: each of n
//! threads waits for one event, and then makes rounds in which it takes a mutex, releases a semaphore and gives the mutex back.
//!
//! ```text
//!    plan ----> a door for each thread ----> the front ----> its history ----> counts ----> the report
//!               (a pass, seen as the calls    (nt_front)      (a run of         (of the
//!                that were made through it)                    the machine)      entries)
//! ```
//!
//! A thread sees its [`Door`] alone: so what the plan asks of it is proved of every door, and the front's is one. If the work is
//! whole, each thread made the plan's calls and no others, and the counts are those of a history which is a run: it depends on no
//! schedule how often the mutex was acquired.
#![tactic(auto)]

mod counts;
mod door;
mod driving;
mod front_door;
mod plan;
mod report;
mod running;

pub use counts::{Counts, counts_of};
pub use door::Door;
pub use driving::{Driven, drive};
pub use front_door::FrontDoor;
pub use plan::{MOST_ROUNDS, MOST_WORKERS, Objects};
pub use running::{history_of, report_of};
