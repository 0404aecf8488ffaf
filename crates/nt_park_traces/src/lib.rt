// SPDX-License-Identifier: MIT OR Apache-2.0
//! A run of parking, one event of a trace at a time: whether it is a step of the protocol of `nt_protocols`.
//!
//! Threads wait at an address, and others unpark them. What a run and an event stand for is in `specs/ParkTrace.antt`.
#![tactic(auto)]

mod park;
mod park_names;
mod park_run;
mod park_steps;

pub use park::{MOST_PARKED, ParkEvent, ParkKind, ParkPlace, ParkSeat, ParkStanding};
pub use park_run::{ParkRun, counts_tell_nothing};
