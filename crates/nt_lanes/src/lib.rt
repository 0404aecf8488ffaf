// SPDX-License-Identifier: MIT OR Apache-2.0
//! What each thread is to call, one after another, and where the threads are: the plan and the positions of a search of all orders
//! (`nt_explore`).
//!
//! A **lane** is a thread with what it has to do, in order ([`Plan`]); after the threads' lanes comes one for the ticks. A [`Position`] is how far
//! each lane is, with the dispatcher there.
//!
//! **Of threads that stand alike only the lowest is tried** ([`is_tried`]): at the same place of the same calls, which name neither of them, they run,
//! wait for nothing and own nothing, and nobody waits for them. Which lanes have the same to do is found once for a plan ([`kinds_of`]).
#![tactic(auto)]

mod alike;
mod plan;
mod position;
mod twins;

pub use alike::is_tried;
pub use plan::{Ask, Plan};
pub use position::{Position, at_start, copy_of, is_like};
pub use twins::kinds_of;
