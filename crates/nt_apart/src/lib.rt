// SPDX-License-Identifier: MIT OR Apache-2.0
//! Which calls of two threads may be made in either order, since steps that touch nothing in common commute; and which threads stand alike.
//!
//! A search through the orders in which threads may make their calls need not try both orders of two calls that commute: it comes to the same
//! state by each, with the same replies and the same grants. So what two calls touch decides, and these laws say where that is nothing in common:
//!
//! | Law | It says, of two threads |
//! |---|---|
//! | `changes_of_two_objects_commute` | a set, a reset, a release or an unlock, each of another object, for which no wait pends |
//! | `calls_on_two_objects_commute` | the same of whole calls, by handles and rights, with the objects that end |
//! | `waking_commutes` | one of the two may end any number of waits |
//! | `signals_commute` | each of the two may end any number of waits, a pulse too, if no object is within reach of both |
//! | `waits_begin_in_either_order` | two waits that name no object in common, whatever comes of each |
//! | `waits_begin_beside_changes` | a wait, and the change of an object that it does not name |
//! | `waits_commute_with_changes` | the same as steps, with all that follows from a call |
//! | `apcs_to_two_threads_commute` | two APCs, queued to two threads, each of which may end a wait |
//! | `signals_commute_with_apcs`, `apcs_commute_with_signals` | an act that may end waits, and an APC to a thread that does not wait for its object |
//! | `two_timers_commute` | two timers that are set for later moments or cancelled |
//! | `signals_commute_with_timers`, `timers_commute_with_signals` | an act that may end waits, and a timer that is set for later or cancelled |
//! | `steps_apart_commute` | any two steps but creations and duplicates, whose footprints have no object and no thread in common |
//! | `two_closes_commute` | two handles that are closed, as whole calls, with the objects that end |
//! | `calls_of_renamed_threads`, `ticks_of_renamed_threads` | any call or tick, where threads are renamed, as by exchanging two |
//! | `one_of_alike_is_enough` | orders of renamed threads have images that hang alike, and of threads that stand alike one is enough |
//! | `fewer_lanes_tell_losses` | a search by one of each that stand alike meets a shortest loss, too, also within a bound |
//! | `fewer_lanes_are_enough` | a search that leaves lanes out meets a shortest hang, if the lanes that it tries are enough |
//!
//! A law is the contract of a function that takes nothing and does nothing, as in `nt_laws`.
#![tactic(auto)]

mod lanes;
mod steps;

pub use lanes::{
    calls_of_renamed_threads, fewer_lanes_are_enough, fewer_lanes_tell_losses,
    one_of_alike_is_enough, ticks_of_renamed_threads,
};
pub use steps::{
    apcs_commute_with_signals, apcs_to_two_threads_commute, calls_on_two_objects_commute,
    changes_of_two_objects_commute, signals_commute, signals_commute_with_apcs,
    signals_commute_with_timers, steps_apart_commute, timers_commute_with_signals,
    two_closes_commute, two_timers_commute, waits_begin_beside_changes,
    waits_begin_in_either_order, waits_commute_with_changes, waking_commutes,
};
