// SPDX-License-Identifier: MIT OR Apache-2.0
//! The pending waits of all threads: which threads wait, for what, and in which order for each object.
//!
//! Two questions are asked of pending waits all the time. What does this thread wait for? Who waits for this object, and whose wait began
//! first? A wait for several objects stands in the queue of each, by a **block** of its own there:
//!
//! ```text
//!                    object 5        object 6        object 7
//!    thread 0  .......[block]...........................            waits for 5
//!                        |
//!    thread 2  .......[block].........[block].........[block]       waits for any of 5, 6, 7
//!                                        |
//!    thread 1  ........................[block]..........            waits for 6, since later
//! ```
//!
//! Down the columns are the queues, in the order in which the waits began; along the rows are the blocks of one wait. To begin or end a wait
//! for n objects takes n steps, however many others pend, since each block knows its neighbours in its queue. All memory is taken before a
//! wait begins, so to end one can't fail. For a wait for one object it is taken as early as its thread and its object are made ([`Room`]), so
//! it can't fail to begin either. Deadlines stand beside, by thread, with the earliest at hand.
//!
//! Whether a wait is satisfied is not known here: whoever serves waits looks at them one by one, and each look is counted. So it can be promised
//! of every call how many waits it looked at ([`WaitTable::looked`]).
#![tactic(auto)]

mod begin;
mod block;
mod chain;
mod deadlines;
mod links;
mod pending;
mod place;
mod queues;
mod room;
mod slot;
mod table;
mod take;
mod wait;

pub use room::Room;
pub use table::{Reader, WaitTable};
pub use wait::{About, Wait};
