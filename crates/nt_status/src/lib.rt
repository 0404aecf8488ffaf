// SPDX-License-Identifier: MIT OR Apache-2.0
//! The words in which calls are made and answered: statuses, refusals, flags, rights, and numbers of threads, handles and moments.
//!
//! Win32 has a number of 32 bits for nearly everything: a wait's status, why a call failed, a handle, a set of flags. Mixed up, they still
//! compile. Here each is a type of its own, with the number that the reference gives it:
//!
//! ```text
//!    asked with    EventFlags, MutexFlags, TimerFlags    how an object begins
//!                  Access                                what a handle may be used for
//!                  Handle, Handles                       which object, by the caller's name for it
//!    answered by   Status                                how a wait ended
//!                  Refusal                               why a call was refused
//!    inside        ObjectNumber, ObjectNumbers           which object, whatever handles name it
//!                  ThreadId, Moment                      who, and when, in units of 100 ns
//! ```
//!
//! A handle names an object with rights, and two handles may name one object: so the number of a handle and that of an object are not one
//! type. The limits of the dispatcher stand here too, each once.
#![tactic(auto)]

mod access;
mod event_flags;
mod handles;
mod limits;
mod moment;
mod mutex_flags;
mod object_numbers;
mod optional_moment;
mod refusal;
mod status;
mod thread_id;
mod timer_flags;

pub use access::Access;
pub use event_flags::EventFlags;
pub use handles::{Handle, Handles};
pub use limits::{
    INFINITE, MAX_HANDLES, MAX_INLINE_HANDLES, MAX_MANY_THREADS, MAX_MOMENT, MAX_THREADS,
    MAX_WAIT_OBJECTS,
};
pub use moment::{Moment, UNITS_PER_MS};
pub use mutex_flags::MutexFlags;
pub use object_numbers::{ObjectNumber, ObjectNumbers};
pub use optional_moment::OptionalMoment;
pub use refusal::Refusal;
pub use status::Status;
pub use thread_id::ThreadId;
pub use timer_flags::TimerFlags;
