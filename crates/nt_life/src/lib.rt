// SPDX-License-Identifier: MIT OR Apache-2.0
//! A dispatcher for a program that has no end.
//!
//! A dispatcher hands out 65,536 handle numbers, and then refuses each creation with HandleLimit. A program that makes an event for each
//! request comes there within a minute, though it closes each of them. A `Lasting` gives numbers again: an object gets that of one that is
//! gone, a handle that of one that was closed, and a thread the place of one that has ended. As in NT, the number that was freed last comes
//! first.
//!
//! ```text
//!    CreateEvent ---> the numbers that were freed last, if both can be given    Core::create_again     nothing grows
//!                          | else
//!                          v
//!                     the next new numbers                                      Core::call
//!                          | HandleLimit
//!                          v
//!                     any other object number that can be given, or             Core::create_again
//!                     one that is added                                         Core::add_vacant
//!                          | HandleLimit
//!                          v
//!                     65,536 handles are open, or none of 65,536 object numbers can be given
//! ```
//!
//! Two lists hold the **spare** numbers: those of closed handles, and those of objects that no handle names. Each of these stands there once,
//! and no other number does, by the invariant of the type. So none is lost, and none is given twice. An object that no handle names may
//! live on while a wait names it, and so it is asked about before its number is given. What is alive keeps its number.
//!
//! Opened by `Lasting::once` it gives each number once, and each of its calls is the machine's own. So one type serves whoever may want either.
//! Whoever comes to the end of the numbers so can go on: from `Lasting::give_again` on they are given again.
//!
//! The lists have room for all numbers from the opening on, so that closing never takes memory: 512 KiB of addresses, of which what is used
//! once is touched.
#![tactic(auto)]

mod beginning;
mod begun;
mod from_now;
mod giving;
mod lasting;
mod laws;
mod listing;
mod renewal;
mod set_aside;
mod spare;
mod stack;

pub use begun::Begun;
pub use lasting::Lasting;
pub use laws::numbers_come_back;
pub use renewal::Renewal;
