//! What no script of `tests/scripts` can say: each file has the scenarios of one subject, as data, and the tests that play them. Each
//! test passes also where one growth is refused: `tests/growths/tests` runs them with each in turn.
mod callers;
mod calls;
mod closing;
mod copies;
mod free;
mod hangs;
mod lasting;
pub mod memory;
mod openings;
mod orders;
mod play;
mod renewals;
mod renewing;
mod script;
mod slots;
mod tested;
