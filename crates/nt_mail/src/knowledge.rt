//! What seats know of the entries written and the moments published. No value of these types is made: they are for contracts.
use crate::entry::Entry;
use nt_core::{Call, Reply};
use nt_status::{Moment, Refusal, Status, ThreadId};
use std::collections::LinkedList;

/// What a thread asked: a call or a tick, or, once it had ended, to begin again.
#[derive(Drop)]
pub enum Asked {
    Call(Call),
    Tick(Moment),
    Begin,
}

/// A call or tick, or a beginning, that was written, with the number of its entry.
#[derive(Drop)]
pub struct Made {
    pub number: u64,
    pub asked: Asked,
    pub result: Result<Reply, Refusal>,
}

/// A grant that a thread took, with the number of its entry.
#[derive(Drop)]
pub struct Got {
    pub number: u64,
    pub status: Status,
}

/// What a thread knows.
#[derive(Drop)]
pub struct Knowledge {
    pub thread: ThreadId,
    /// The calls and ticks of it that were written.
    pub made: LinkedList<Made>,
    /// The grants that it took.
    pub got: LinkedList<Got>,
    /// The words that it read as its own.
    pub polled: LinkedList<u64>,
    /// The moments that it read.
    pub moments: LinkedList<Moment>,
}

/// What a seat knows.
pub struct View {
    /// Whether it is the dispatcher's. Any other knows parts alone.
    pub keeps: bool,
    /// All entries written.
    pub written: LinkedList<Entry>,
    /// All moments published.
    pub published: LinkedList<Moment>,
    /// What the threads know whose seats it is, or that are joined to it.
    pub parts: LinkedList<Knowledge>,
}

/// Written by hand, so that whoever has a seat of a front has nothing to prove of what it knows.
impl Drop for View {
    fn drop(self) {
        let View {
            keeps: _,
            written: _,
            published: _,
            parts: _,
        } = self;
    }
}
