// SPDX-License-Identifier: MIT OR Apache-2.0
//! The dispatcher for callers in C: a static library, whose header is `c/nt.h`.
//!
//! A caller in C has numbers and pointers, and no type keeps its promises. So each export takes numbers, makes one call of the
//! dispatcher, and answers numbers; its contract says which call that was, and what becomes of each number:
//!
//! ```text
//!    nt_set_event(nt, 3, 7, out) ---> is there a dispatcher? ---> the machine's call ---> 0, or the error's number
//!    thread 3, handle 7               if not: 6                   (nt_sleepers)           what it answers, written to `out`
//! ```
//!
//! A handle is a pointer to room for a dispatcher, of `nt_room` bytes, and whether there is one. The room is the caller's memory: that it is
//! there, is nobody else's, and is used by one call at a time is what the header asks for. It asks, too, that C writes neither field, so that a
//! handle says rightly whether there is one (`fit` of `Nt`). Every contract here takes that as given. Three functions of a line each touch the
//! room (`cell`, `held_mut`); all else is safe code.
#![tactic(auto)]

mod begins;
mod calls;
mod cell;
mod handle;
mod held_mut;
mod life;
mod looks;
mod numbers;
mod readers;
mod reply;
mod sleeps;
mod waits;
