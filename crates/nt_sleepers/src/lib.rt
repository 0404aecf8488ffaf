// SPDX-License-Identifier: MIT OR Apache-2.0
//! Who sleeps to which moment, so that no timeout and no timer waits for a thread that nobody woke.
//!
//! A thread whose wait pends sleeps, and is woken when its wait ends. It sleeps by itself no longer than to its own deadline, and then lets
//! time pass: so no timeout waits for another thread to run. A timer belongs to no thread. Those whose waits a timer may end are the
//! *watchers*; if there are any, some thread sleeps no longer than to the next moment at which anything is due. The rest need not wake for
//! timers.
//!
//! ```text
//!     call, tick ──▶ grants      each wait that ended: its thread no longer sleeps, and gets its status
//!                ├─▶ a moment    a wait that began: its thread sleeps to its deadline
//!                └─▶ called      nobody sleeps short enough for the watchers: one is called, to look at the time
//!     watch      ──▶ a moment    to which a watcher sleeps: no longer than to what is due next, if nobody else does
//! ```
//!
//! **What always holds** (`TimeIsKept`): each thread whose wait times out sleeps no longer than to then, unless it was stopped. If anybody
//! watches, some thread sleeps no longer than to whichever moment is awaited. Whoever sleeps has a wait that pends. A thread that was called
//! counts as one that sleeps to moment 0, until it has looked.
#![tactic(auto)]

mod keeping;
mod life;
mod sleepers;
mod told;

pub use sleepers::Sleepers;
pub use told::Told;
