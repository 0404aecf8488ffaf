// SPDX-License-Identifier: MIT OR Apache-2.0
//! A run of the lock that favours a thread, one event of a trace at a time: whether it is a step of the protocol of `nt_protocols`.
//!
//! What a run and an event stand for is in `specs/LockTrace.antt`.
#![tactic(auto)]

mod lock;
mod lock_kinds;
mod lock_names;
mod lock_run;
mod lock_steps;
mod lock_test;

pub use lock::{Buffer, Frame, LockEvent, LockPlace, LockWord, Seat};
pub use lock_kinds::{
    ArrivingStep, FavouredStep, HandlingStep, LockKind, OwningStep, RevokingStep, SleepingStep,
    TakingStep,
};
pub use lock_run::LockRun;
