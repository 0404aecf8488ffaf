// SPDX-License-Identifier: MIT OR Apache-2.0
//! The calls that threads make of a dispatcher, what each does, and what refuses it.
//!
//! What a call has to do is said in `specs/`, and nothing of it is said by code: `State` is the whole machine as plain data, `Step` an
//! accepted call and `Tick` an accepted tick as relations between two states, `Refusals` the causes of refusal in their order, and
//! `Run` a history of all that. That is what a reader has to believe.
//!
//! Beside these definitions stand the types of calls and answers, and what can be answered by looking at the objects alone: what a
//! handle names, by which cause a call is refused, whether a wait is satisfied and what it then takes, when it comes due. `nt_machine`
//! keeps a machine that makes the calls.
#![tactic(auto)]

// The calls and their answers.
mod call;
// What a call names, and what refuses it.
mod handles;
mod judging;
mod objects;
mod refusals;
mod swaps;
mod wait_refusal;
// How a wait takes its objects, and when it comes due.
mod timing;
mod trying;

pub use call::{Act, Call, Grant, Reply, WaitCall, WaitMode};
pub use handles::{
    FEW_OBJECTS, MODIFY_STATE, NamedObjects, SYNCHRONIZE, name_all, named, object_named, opened,
};
pub use judging::{
    event_named, mutex_named, object_to_share, running_thread, semaphore_named, timer_named,
    timer_to_arm,
};
pub use objects::{count_living, is_set_by};
pub use refusals::close_refusal;
pub use swaps::{is_swap_denied, swap_refusal};
pub use timing::{deadline_after, due_moment, late_status, routine_for};
pub use trying::{is_ready, try_again, try_wait};
pub use wait_refusal::objects_refusal;
