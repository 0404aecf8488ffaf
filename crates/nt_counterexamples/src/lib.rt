// SPDX-License-Identifier: MIT OR Apache-2.0
//! What goes wrong if one step of a protocol of `nt_protocols` is another: for each such protocol a run, given step by step, that breaks a law.
//!
//! That a proof of a law fails for a wrong protocol does not show that the law is false there. These runs do.
//!
//! | Wrong step | What it comes to |
//! |---|---|
//! | `without_barriers` | two threads have the lock |
//! | `with_one_look` | two threads have the lock |
//! | `without_wake_up_of_who_revoked` | who has revoked a favour sleeps, and nobody is to wake it |
//! | `with_a_wake_up_owed_in_sleep` | a handler's call and who has revoked sleep for one another |
//! | `with_a_sleeper_forgotten` | a thread sleeps on the lock, and nobody is to wake it |
//! | `with_a_grant_overwritten` | a thread whose wait was granted never learns of it |
//! | `without_wake_up_of_who_was_told` | a wait that was granted sleeps on, and nobody is to wake it |
//! | `without_second_look_under_the_latch` | a change is lost |
//!
//! `all_at_once` is a run of the right protocol to a state in which one thread has the lock as the favoured one, one sleeps until it is
//! outside, and one sleeps on the lock: what the laws speak of happens.
#![tactic(auto)]

mod lock;
mod parking;
mod word;

pub use lock::{
    all_at_once, with_a_sleeper_forgotten, with_a_wake_up_owed_in_sleep, with_one_look,
    without_barriers, without_wake_up_of_who_revoked,
};
pub use parking::without_second_look_under_the_latch;
pub use word::{with_a_grant_overwritten, without_wake_up_of_who_was_told};
