// SPDX-License-Identifier: MIT OR Apache-2.0
//! Readers and writers that count their failures.
//!
//! Any read, write or flush may fail. Whoever promises "a failure is always reported" has to speak of failures, and a reader or writer keeps
//! no account of them. So here it does: [`Counted`] wraps any reader or writer, and a [`Source`] or [`Sink`] is one of which a contract can say how
//! many of its calls failed so far. Then the promise is a plain one: if the status is 0, no failure was counted.
//!
//! A write that is taken in may still lie in a buffer. So a sink tells also whether all that was written was handed on since, by a flush
//! that succeeded.
#![tactic(auto)]

mod counted;
mod output;
mod sink;
mod source;

pub use counted::Counted;
pub use output::{WriteFailed, write_and_flush, write_whole};
pub use sink::Sink;
pub use source::Source;
