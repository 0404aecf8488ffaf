// SPDX-License-Identifier: MIT OR Apache-2.0
//! Alarms by place, with the earliest of them at hand.
//!
//! Which timer is due next? Which waiting thread times out first? A dispatcher asks after every tick, and may look neither at all timers nor
//! at all threads to answer. So the alarms that are set stand as a heap: no alarm comes before the one above it, and the first one is on top.
//!
//! ```text
//!    rank        0                  place 2, at 20      the earliest alarm is read here, in one step
//!              /   \
//!    rank     1     2        place 0, at 50   place 1, at 35     no alarm comes before the one above it
//!
//!    rank     3    4    ..   places 3, 4, ..            the places with no alarm, in any order
//! ```
//!
//! Each place has a rank, and each rank a place, from the first on: so to set or clear an alarm only lets places change their ranks, and takes no
//! memory. It takes as many steps as the heap of the alarms that are set has levels, however many places have none.
//! If several alarms are of one moment, the lowest place comes first: that is the order in which timers expire and waits time out.
#![tactic(auto)]

mod alarms;
mod heap;

pub use alarms::Alarms;
