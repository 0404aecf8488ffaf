// SPDX-License-Identifier: MIT OR Apache-2.0
//! The machine of a dispatcher: its parts, and how each call is carried out on them.
//!
//! `nt_core` shows it as a dispatcher, and lets time pass.
//!
//! **The life of a wait.** It begins (`begin_wait`): where its objects let it, it takes them and is over at once. Else it pends, last in the
//! queue of each object that it names. When a later call changes an object, the waits in its queue are visited in the order in which they
//! began (`serve_one`, `visit`). Each that fits takes its objects, leaves its queues, and is listed in `grants()`. Or an APC comes for a
//! wait that is alertable (`rouse`), or its moment passes (`time_out_all`).
//!
//! **The way of one call.** `Core::call` judges the caller, and one match hands the call to the function for it. That function finds its
//! object once, answers the first cause that refuses the call, and else makes the change where the object stands. Then the waits that the
//! change may end are served. What an exit or a tick changes is marked, and served mark by mark (`serve_marked`): between two calls no mark
//! is left. Last of all, each object that nothing keeps any longer ends. A refused call changes nothing.
//!
//! What a call has to do is said by the definitions of `nt_calls` (`Step`, `Called`), and nothing of it is said by this code: that page
//! comes first. What refuses a call, and what a wait takes, is asked of that crate too.
#![tactic(auto)]

// The parts, and the way of a call through them.
mod calls;
mod machine;
mod standing;
// Waits: how they begin, and are served.
mod pending;
mod serving;
mod waiting;
// The calls by their objects.
mod apcs;
mod events;
mod exit;
mod mutexes;
mod objects;
mod semaphores;
mod swap;
mod timers;
// The end of objects that nothing keeps.
mod living;

pub use machine::{Answer, Machine};
pub use objects::add_places;
pub use standing::Standing;
