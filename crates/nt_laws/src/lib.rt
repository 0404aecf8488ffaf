// SPDX-License-Identifier: MIT OR Apache-2.0
//! The laws of the dispatcher: what its definitions come to, said of every run in the subject's own words.
//!
//! `nt_core` says what one call and one tick do (`Called`, `Ticked`). A **run** is calls and ticks, each with its result and its
//! grants, that lead from the opening to a state (`Run`), and a **part** of a run leads from one state to a later one (`Turns`).
//! What a `Core` was asked and answered since it was new is a run, and so are the calls of a script; the history of a front is a run,
//! or the last part of one where parts were handed out before. So the laws hold of all of these.
//!
//! A **life** is a run in which numbers were given again as well, and objects of ended threads got other numbers (`Life`), by the operations
//! of `nt_core` that no call of the machine makes. A run is a life without them (`runs_are_lives`), so what is said of lives holds of runs.
//!
//! A **law** is a statement on all runs, or on all lives, that follows from the definitions and names no code and no machine. A reader has to believe none:
//! the definitions are what is believed, and the laws show that they mean what one would expect. What a thread took is read off
//! the replies and grants that it got (`takes`), so a law would not hold of a status that names the wrong object.
//!
//! ```text
//!    the state, and the calls --> what is granted, and to whom      nothing is left to choose
//!    what was given           --> what was taken                    nothing beyond it is handed out
//!    the handles before       --> the handles after                 a number, or a right, never comes back
//!    what keeps an object     --> what lives                        neither more nor less
//! ```
//!
//! | Law | It says |
//! |---|---|
//! | `serves_one_way` | which waits a change ends, with which statuses, is a function of the state and of the queues of what changed |
//! | `runs_one_way` | results, grants and states are a function of the calls and ticks, and of which calls found no memory |
//! | `semaphores_give_what_they_have` | a semaphore's count and its takings make up what it was given |
//! | `one_owner` | a thread holds a mutex as deep as it owes releases of it, and no two threads owe any |
//! | `one_set_one_wait` | an auto-reset event is taken at most as often as it is set |
//! | `handles_stay` | a handle names one object with the same rights, and nothing once it was closed |
//! | `rights_never_grow` | a right that no handle of an object has any longer never comes back |
//! | `objects_live_while_kept` | an object lives exactly while a handle, a pending wait or a running thread keeps it |
//! | `runs_are_lives` | a run is a life in which no number is given again and no object moves, and such a life is a run |
//! | `handles_stay_until_given_again` | in a life a handle names one object, by the number that it has then, until it is closed or given again |
//! | `rights_never_grow_until_given_again` | in a life a lost right comes back only with the object's number |
//! | `rights_never_grow_though_moved` | in a life a lost right does not come back by another number that the object gets either |
//! | `objects_live_while_kept_in_lives` | in a life too an object lives exactly while a handle, a pending wait or a running thread keeps it |
//! | `semaphores_give_what_they_have_since_given` | in a life a semaphore's count and its takings make up what it was given, since its number was given last |
//! | `one_owner_since_given` | in a life a thread holds a mutex as deep as it owes releases of it, since its number was given last, and no two owe any |
//! | `one_set_one_wait_since_given` | in a life an auto-reset event is taken at most as often as it is set, since its number was given last |
//! | `lives_one_way` | results, grants and states of a life are a function of what was asked for, and of what found no memory |
//!
//! A statement is proved only where a contract names it. So each law is the contract of a function that takes nothing and does
//! nothing: whoever calls it has the law in its own proof, as `nt_replay` and `nt_script` have `runs_one_way`, and pays nothing when
//! the program runs.
#![tactic(auto)]

mod laws;
mod lives;

pub use laws::{
    handles_stay, objects_live_while_kept, one_owner, one_set_one_wait, rights_never_grow,
    runs_one_way, semaphores_give_what_they_have, serves_one_way,
};
pub use lives::{
    handles_stay_until_given_again, lives_one_way, objects_live_while_kept_in_lives,
    one_owner_since_given, one_set_one_wait_since_given, rights_never_grow_though_moved,
    rights_never_grow_until_given_again, runs_are_lives,
    semaphores_give_what_they_have_since_given,
};
