// SPDX-License-Identifier: MIT OR Apache-2.0
//! The dispatcher for one thread: objects, waits, and the calls on them.
//!
//! Threads share objects, and wait until objects let them go on. A `Core` is given one call after another, each with the thread that makes
//! it, and reports which waits that call ended. It starts no thread and takes no lock: whoever drives threads does that, as `nt_front` does.
//!
//! `nt_machine` carries out its calls. Here time passes, and the numbers of what is gone are given again.
#![tactic(auto)]

// What a caller sees.
mod dispatcher;
mod like;
mod queues;
mod readers;
// What comes with time, and what a driver may do besides.
mod copy;
mod renewals;
mod set_aside;
mod ticks;

pub use dispatcher::Core;
pub use nt_calls::{Act, Call, FEW_OBJECTS, Grant, Reply, WaitCall, WaitMode};
