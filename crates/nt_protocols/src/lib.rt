// SPDX-License-Identifier: MIT OR Apache-2.0
//! How threads of the library for C wait for one another: each protocol as the steps of any number of threads, and laws of every run.
//!
//! A step is one atomic operation, one system call, the arrival of one plain store, or one call or return. A **run** is any list of steps
//! that can come one after another from the opening, in which nobody has called yet. A **law** holds after every run.
//!
//! | Protocol | In C | Definitions |
//! |---|---|---|
//! | the lock that favours a thread: a biased lock, revoked by an asymmetric barrier | `c/ntwin/lock.c` | `specs/Lock.antt` |
//! | the word by which a thread learns of its grant: a wake token | `c/ntwin/waiting.c` | `specs/Word.antt` |
//! | waits at an address: parking | `c/win32/parking.c` | `specs/Parking.antt` |
//!
//! | Law | It says |
//! |---|---|
//! | `one_owner` | no two threads have the lock |
//! | `one_claimer` | one thread at most has made the lock taken or wanted and not given it back |
//! | `favours_are_made_by_claimers` | the lock comes to favour a thread by who has it alone |
//! | `inside_tells` | what a thread sees of its `inside` tells how it has the lock |
//! | `nobody_waits_for_the_favoured_in_vain` | who sleeps until the favoured thread is outside is woken by it |
//! | `nobody_sleeps_on_the_lock_in_vain` | while a thread sleeps on the lock, some thread comes to wake one |
//! | `nobody_sleeps_in_vain` | while a thread sleeps, its wait pends, or a thread is to wake it |
//! | `grants_are_told` | a thread's word says granted exactly while its wait pends no longer |
//! | `each_grant_once` | each grant is answered once |
//! | `nobody_is_parked_in_vain` | who sleeps at an address stands in the list, or a thread is to wake it |
//! | `no_change_is_lost` | while a thread waits for a value that has changed, some thread is to unpark all |
//! | `who_leaves_is_listed` | a wait that times out leaves the list only where it stands in it |
//! | `each_unpark_once` | each unpark is answered once |
//!
//! The form of a proof: one record of what every step keeps (`Kept`), that each step keeps it (`keeps`), and an induction over the run. "Nobody
//! sleeps in vain" is said as "a thread that is awake stands where its next steps wake it"; nothing is said of time or fairness.
#![tactic(auto)]

mod lock;
mod parking;
mod word;

pub use lock::{
    favours_are_made_by_claimers, inside_tells, nobody_sleeps_on_the_lock_in_vain,
    nobody_waits_for_the_favoured_in_vain, one_claimer, one_owner,
};
pub use parking::{
    each_unpark_once, no_change_is_lost, nobody_is_parked_in_vain, who_leaves_is_listed,
};
pub use word::{each_grant_once, grants_are_told, nobody_sleeps_in_vain};
