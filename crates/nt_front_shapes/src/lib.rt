// SPDX-License-Identifier: MIT OR Apache-2.0
//! What nt_front_bench times, and how it counts.
//!
//! A shape is a round of calls under a name, with what stands beside it. A measurement counts the calls and grants of its rounds, and the
//! answers that are not those expected. The rounds of a front's parts are made here, since they need no front.
#![tactic(auto)]

mod moves;
mod parts;
mod shapes;
mod told;

pub use moves::{call, nanos_since, now, objects, try_wait, wait, wait_for};
pub use parts::{bare_lock, core_alone, core_and_journal};
pub use shapes::{Company, FrontShape, RoundKind, SHAPES, shape_named};
pub use told::{FrontBenchFault, Measurement};
