// SPDX-License-Identifier: MIT OR Apache-2.0
//! The calls of a dispatcher, each with an answer of its own.
//!
//! `Core::call` takes every call as a value and answers every call by one type, so that calls can be kept, sent and made again. Whoever
//! writes a call by hand wants to name it, and to be answered a handle if it makes an object, or how the wait began if it waits. So do
//! the methods of [`Calls`]: each makes one call, and its contract is that of `Core::call`, said of its own answer (`IsCalled`).
#![tactic(auto)]

mod calls;
mod making;
mod of_core;

pub use calls::Calls;
pub use nt_answers::{Apc, Began, Timeout};
