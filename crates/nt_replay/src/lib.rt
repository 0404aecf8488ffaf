// SPDX-License-Identifier: MIT OR Apache-2.0
//! A journal's entries made again: their calls and ticks on a copy of the machine that they began at, result by result and grant
//! by grant. Where numbers were given again, the entries say which ones, and the same are given.
#![tactic(auto)]

mod renewing;
mod replaying;
mod unreplayed;

pub use replaying::replay;
pub use unreplayed::Unreplayed;
