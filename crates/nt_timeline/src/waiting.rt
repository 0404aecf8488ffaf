//! Who waits, step by step.

use crate::steps::{EndOfWait, Kind, Step};
use nt_status::MAX_THREADS;
use std::alloc::{AllocError, Global};

/// The greatest number of threads, each of which has a place.
pub(crate) const MOST_THREADS: usize = MAX_THREADS as usize;

/// By thread, the line on which its pending wait began; 0 while it does not wait.
#[derive(Drop)]
pub(crate) struct Waiting {
    since: Vec<u64>,
}

impl Waiting {
    /// Nobody waits yet.
    pub(crate) fn new(alloc: Global) -> Result<Waiting, AllocError> {
        Ok(Waiting {
            since: Vec::from_elem(alloc, 0, MOST_THREADS)?,
        })
    }

    /// The line on which the thread's pending wait began, if it waits.
    pub(crate) fn since(&self, thread: u32) -> Option<u64> {
        match self.since.get(thread as usize) {
            Some(line) if *line > 0 => Some(*line),
            _ => None,
        }
    }

    fn set(&mut self, thread: u32, line: u64) {
        if let Some(since) = self.since.get_mut(thread as usize) {
            *since = line;
        }
    }

    /// Goes past a step, which ended these waits.
    pub(crate) fn pass(&mut self, step: &Step, ended: &[EndOfWait]) {
        if let (Some(thread), Kind::Pends) = (step.who, step.kind) {
            self.set(thread, step.line);
        }
        for end in ended {
            self.set(end.thread, 0);
        }
    }
}
