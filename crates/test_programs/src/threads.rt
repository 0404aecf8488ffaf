//! The plan over doors in memory, and the journal of a run over a front. Each test passes also where one allocation is refused:
//! `tests/growths/tests` refuses each in turn.
mod door;
mod hall;
mod held;
mod journal;
mod plans;
