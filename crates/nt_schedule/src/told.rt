//! What a run tells of itself, step by step.

use crate::standing::{Choice, TurnRequest};

/// A thread falls asleep on this word, to that moment or until another thread wakes it.
#[derive(Clone, Copy, Debug)]
pub struct Slept {
    pub thread: usize,
    pub word: u64,
    pub until: Option<u64>,
}

/// A thread that sleeps on this word is woken; none: nobody sleeps there.
#[derive(Clone, Copy, Debug)]
pub struct Woken {
    pub word: u64,
    pub thread: Option<usize>,
}

/// A thread came to a point: who goes on, and the time then.
#[derive(Clone, Copy, Debug)]
pub struct Turned {
    pub asked: TurnRequest,
    pub choice: Choice,
    pub time: u64,
}

/// What a run reports of one step.
#[derive(Clone, Copy, Debug)]
pub enum StepReport {
    /// There is one thread more.
    Comes,
    Sleeps(Slept),
    Wakes(Woken),
    /// What the thread sleeps for has come by another way.
    Rouses(usize),
    Ends(usize),
    /// This much time passes with a step.
    Passes(u64),
    Turns(Turned),
    /// Nobody can go on, and nothing is due.
    Hangs,
}

/// How the machine goes otherwise.
#[derive(Clone, Copy, Debug)]
pub enum Differs {
    /// It chooses this.
    Chooses(Choice),
    /// Its time is this.
    IsAt(u64),
    /// It wakes this thread, or none.
    Wakes(Option<usize>),
    /// It is the turn of this thread, or of none.
    HasTurn(Option<usize>),
}
