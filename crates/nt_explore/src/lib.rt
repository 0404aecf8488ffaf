// SPDX-License-Identifier: MIT OR Apache-2.0
//! Every order in which threads may make the calls that each of them has to make, one after another.
//!
//! A hang often shows in one order of a program's calls only. So all orders are tried: each thread keeps the order of its own calls
//! ([`Plan`]), and a thread that waits makes no call until its wait ends. Orders that come to equal places and equal states are one
//! from there on, which makes them few: 17,153,136 orders of 3 threads with 6 calls each come to 422 states.
//!
//! The search goes level by level: first all states after one step, then all after two, and so on. So the first state that hangs is one
//! that a shortest order comes to ([`OrderVerdict::Hangs`]).
//!
//! **No state is kept.** Of each that was met the table has 16 bytes: a hash, the state that it came from, and the lane that went. Where a
//! hash is known already, that state is made again, from the start and the lanes that led there, and the two are compared
//! (`Core::is_like`). Equal states have equal hashes, so each is met once; that two others have the same costs time alone.
//!
//! **Of threads that stand alike only the lowest goes**: at the same place of the same calls, which name neither of them, they run, wait for
//! nothing and own nothing, and nobody waits for them. Each order of the others has its image, as long, which hangs and loses waits as it does
//! (`nt_apart`).
//!
//! Where all states were met and one hangs, it also tells from when on a wait was lost ([`Loss`]), which is often earlier. For that each
//! step is kept as the numbers of two states, 8 bytes. A wait is lost where it pends and is lost wherever a lane leads from there. So
//! for each thread one pass over the steps, the last first, leaves the states in which its wait is lost.
#![tactic(auto)]

mod going;
mod hanging;
mod hash;
mod loss;
mod met;
mod search;

pub use nt_lanes::{Ask, Plan};
pub use search::{Explored, Loss, OrderVerdict, Watcher, explore};
