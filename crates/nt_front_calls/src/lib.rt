// SPDX-License-Identifier: MIT OR Apache-2.0
//! The calls of a front, each with an answer of its own.
//!
//! `Front` takes every call as a value and answers every call by one type, so that the journal can keep them. Who writes the calls of a
//! thread by hand wants to name each, and to be answered a handle if it makes an object, and the pass again if it waits. So do the
//! methods of [`Calls`]: those of `nt_core_calls`, for threads that block.
//!
//! ```text
//!    create_event, set_event, next_apc, tick_to, ..   lend the pass     Result<Told<the answer>, Refused>
//!    wait_one, wait_any, sleep, signal_and_wait, ..   take the pass     (pass, Result<WaitEnd, Refused>), once the wait has ended
//!    begin_one, begin_any, begin_sleep, ..            take the pass     Began: a sleeper if the wait pends, and else the pass
//!    poll, await_grant                                take a sleeper    the pass, and the status of the grant
//!    exit                                             takes the pass    (what the thread holds then, Result<Told<()>, Refused>)
//! ```
//!
//! Each answer says in which entry of the journal it stands. [`Refused`] tells what refused a call: the dispatcher, as an entry has it
//! too; or a full journal, or memory for a list of handles, and then nothing was done or written.
#![tactic(auto)]

mod calls;
mod making;
mod told;
mod waiting;
mod waits;

pub use calls::Calls;
pub use nt_answers::{Apc, Timeout};
pub use told::{Began, Polled, Refused, Told, WaitEnd};
