// SPDX-License-Identifier: MIT OR Apache-2.0
//! Why threads wait, and whether anything can end it.
//!
//! A program hangs where a wait pends that nothing ends. Two cases are seen from the dispatcher alone, without a look at the program:
//!
//! - **Stuck**: every thread that may still call waits, and time alone ends no wait. No deadline comes, armed timers satisfy none, and no
//!   APC is queued or will be. Nobody is left who could signal anything ([`is_stuck`]).
//! - **A knot**: threads that wait for what only they themselves could release: mutexes that others of them own, the ends of others of
//!   them, and objects that nobody can signal any longer. Neither a deadline nor an APC can end these waits ([`greatest_knot`]). Other
//!   threads may run on, but none of them can untie it.
//!
//! Both are for good, as the laws say ([`stuck_stays`], [`knots_hold`]): whatever is called and however much time passes, none of these
//! threads goes on. An event, a semaphore or a timer that a handle may signal is in no knot, since any thread may use that handle. So a
//! thread that waits for an event that nobody ever sets is no hang by itself while another thread runs: a verdict is never a false alarm.
#![tactic(auto)]

mod knot;
mod laws;
mod rights;
mod stuck;
mod verdict;

pub use knot::greatest_knot;
pub use laws::{
    hangs_are_for_good, knots_hold, losses_come_backwards, searches_miss_nothing,
    steps_are_counted, stuck_stays,
};
pub use stuck::is_stuck;
pub use verdict::{Verdict, why};
