// SPDX-License-Identifier: MIT OR Apache-2.0
//! Reads a trace of threads of the library for C: whether its events are a run of a protocol of `nt_protocols`, and if not, which is the first
//! that is no step.
//!
//! A trace names each event and its threads, as `c/` does where it is compiled to tell its steps. What a trace stands for is in `specs/`: an event
//! is a step of the protocol, of a fixed number of threads.
#![tactic(auto)]

mod entry;
mod lines;
mod reading;
mod word;
mod word_names;
mod word_run;
mod word_steps;

pub use entry::MAX_THREADS;
pub use reading::{TraceFault, TraceVerdict, read_trace};
pub use word::{MOST_SEATS, WordEvent, WordKind, WordPlace, WordSeat, WordValue};
pub use word_run::{WordRun, counts_tell_nothing};
