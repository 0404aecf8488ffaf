//! What is kept of a run: a step for each line that calls or ticks.

use nt_objects::Object;
use nt_status::Status;

/// How a call was answered.
#[derive(Clone, Copy, Debug, PartialEq, Eq)]
pub enum Kind {
    /// It is a tick.
    Tick,
    /// It was accepted.
    Call,
    /// It was refused.
    Refused,
    /// Its wait ended at once.
    AtOnce(Status),
    /// Its wait pends.
    Pends,
}

/// A line that calls or ticks.
#[derive(Drop)]
pub struct Step {
    pub line: u64,
    /// The thread that calls; none of a tick.
    pub who: Option<u32>,
    /// The call's words, with one space between them.
    pub call: Vec<u8>,
    /// What a picture calls it.
    pub label: Vec<u8>,
    pub kind: Kind,
    /// What it answered, by name; empty where that says nothing.
    pub answer: Vec<u8>,
    /// Where the waits that it ended begin among those that ended, and where they end.
    pub ended: (usize, usize),
    /// Whether it names the object that is asked for.
    pub is_asked_for: bool,
}

/// An object that a step left otherwise than it was.
#[derive(Clone, Copy, Debug)]
pub struct ObjectChange {
    /// The place of its name.
    pub place: usize,
    /// The place of the step.
    pub step: usize,
    pub object: Object,
}

/// The end of a wait that pended.
#[derive(Drop)]
pub struct EndOfWait {
    pub thread: u32,
    pub status: Status,
    /// The place of the step that began the wait, and its line.
    pub began: usize,
    pub since: u64,
    /// Whether the wait names the object that is asked for.
    pub is_asked_for: bool,
}

impl Step {
    /// The waits that the step ended.
    pub fn ended<'a>(&self, all: &'a [EndOfWait]) -> &'a [EndOfWait] {
        all.get(self.ended.0..self.ended.1).unwrap_or(&[])
    }
}
