// SPDX-License-Identifier: MIT OR Apache-2.0
//! What calls answer, each in a type of its own.
//!
//! The dispatcher answers every call by one type, `Reply`. Each kind of call tells the same part of it: a creation a handle, a wait its
//! status or that it pends. These functions take that part out, and their contracts say which reply it stands for ([`handle_told`] and
//! the others). `nt_core_calls` makes calls by them.
#![tactic(auto)]

mod began;
mod timeout;
mod told;

pub use began::Began;
pub use nt_apc::Apc;
pub use timeout::Timeout;
pub use told::{apc_told, began_told, done_told, handle_told, previous_told};
