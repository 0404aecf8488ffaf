// SPDX-License-Identifier: MIT OR Apache-2.0
//! What a command line of `ntlook` asks for, and what its commands do.
//!
//! The first word is a command, and the words after it are a FILE, and options with a value each, in any order ([`look_of`]). A command's
//! name, its options and its usage line stand in [`Command`]; what it does stands in a crate of its own, and [`carry_out`] calls that.
#![tactic(auto)]

mod command;
mod commands;
mod look;
mod words;

pub use command::Command;
pub use commands::carry_out;
pub use look::{Look, look_of};
pub use nt_hangs::lacks_memory;
pub use nt_orders::Progress;
