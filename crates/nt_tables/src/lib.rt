// SPDX-License-Identifier: MIT OR Apache-2.0
//! What each handle names, the objects by number, and for each thread the mutexes that it owns.
//!
//! A **handle** is a place in a table, which has the number of an object and the rights that the handle has over it. Several handles may name one
//! object, each with rights of its own. The table counts them, so that it is known at once when the last one is closed.
//!
//! A thread that ends lets go of every mutex that it holds, and each of them is abandoned. To find them among all objects would cost a walk of
//! all. So each thread has a list of its own, and a mutex comes to it with the first acquisition and leaves it with the last release:
//!
//! ```text
//!    thread 0 --> mutex 9 <-> mutex 4          the one that came last stands first
//!    thread 1 --> none
//!    thread 2 --> mutex 7
//! ```
//!
//! The links lie beside the objects, by number, so a mutex is linked and unlinked in a few steps and without memory. What could go wrong
//! with two accounts of one fact is ruled out by the type: a mutex stands in a thread's list exactly if its own state says that the
//! thread owns it ([`ObjectTable`]). Whatever is done to an object is done here, and mends the lists with it.
#![tactic(auto)]

mod handles;
mod links;
mod optional;
mod owners;
mod table;

pub use handles::{HandleTable, Opened};
pub use owners::Owners;
pub use table::ObjectTable;
