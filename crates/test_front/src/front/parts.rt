//! The parts of a journal that the threads of a crew take.
use crate::front::told::Learned;
use nt_front::{Front, Named, Part, Pass};
use std::alloc::Global;
use std::sync::atomic::{AtomicU64, Ordering};
use std::sync::{Mutex, MutexGuard, Wait};

/// When a part is to be taken, and the parts that were, in their order.
#[derive(Drop)]
pub struct Parts {
    /// How many entries there are in a part, at the least, where parts are taken as entries come.
    every: u64,
    /// The number of the first entry that no part has.
    first: AtomicU64,
    taken: Mutex<Vec<Part>>,
}

impl Parts {
    /// No part yet. One is to be taken whenever there are `every` new entries.
    pub fn new(alloc: Global, every: u64) -> Parts {
        Parts {
            every,
            first: AtomicU64::new(1),
            taken: Mutex::new(Vec::new(alloc)),
        }
    }

    /// Takes a part where the last entry that this thread learned of makes one due.
    pub fn take_when_due<N: Named>(
        &self,
        rt: &impl Wait,
        front: &Front<N>,
        pass: &mut Pass<N>,
        told: &mut Learned,
    ) {
        let first = self.first.load(Ordering::SeqCst);
        if told.last.saturating_sub(first) >= self.every {
            self.take(rt, front, pass, told);
        }
    }

    /// Takes a part. Parts come in their order, since only one thread at a time takes one.
    pub fn take<N: Named>(
        &self,
        rt: &impl Wait,
        front: &Front<N>,
        pass: &mut Pass<N>,
        told: &mut Learned,
    ) {
        let mut taken = self.taken.lock(rt);
        match front.rotate(rt, pass) {
            Ok(part) => self.keep(&mut taken, part, told),
            Err(_) => told.lost(),
        }
    }

    /// Keeps a part, after those before it.
    fn keep(&self, taken: &mut Vec<Part>, part: Part, told: &mut Learned) {
        let next = part.first.wrapping_add(part.entries.len() as u64);
        self.first.store(next, Ordering::SeqCst);
        if taken.push(part).is_err() {
            told.lost();
        }
    }

    /// The parts that were taken.
    pub fn taken(&self, rt: &impl Wait) -> MutexGuard<'_, Vec<Part>> {
        self.taken.lock(rt)
    }
}
