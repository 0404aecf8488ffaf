// SPDX-License-Identifier: MIT OR Apache-2.0
//! Asynchronous procedure calls that wait for their thread.
//!
//! An APC is a routine and its argument, queued to a thread, which takes it once it waits alertably. The queue of each thread is first in,
//! first out. A program queues APCs itself, and may be refused for want of memory. A timer with a routine queues one when it is due:
//! nobody made a call then who could be refused.
//!
//! So a timer is **promised a place** when it is armed, in the queue of the thread that armed it. All memory is taken then; to fill the
//! place can't fail, and the place stays until it is given up:
//!
//! ```text
//!    promise  ----> an empty place ---- push_promised: the timer is due ----> its APC, last in the queue
//!                     ^     |                                                   |
//!                     |     +---- forget: the place is given up                 |
//!                     +---------- withdraw: armed again or canceled; next: taken by the thread
//! ```
//!
//! A timer has one place at most, and so one APC at most in all queues.
#![tactic(auto)]

mod apc;
mod inbox;
mod linked;
mod place;
mod queues;

pub use apc::{Apc, Queued};
pub use queues::ApcQueues;
