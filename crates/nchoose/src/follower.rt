//! Runs, written down line by line, compared with the machine.

use crate::told_line::{RunLine, line_in};
use memchr::memchr;
use nt_schedule::{Differs, Run};
use std::alloc::{AllocError, Global};

/// What is found.
#[derive(Clone, Copy)]
pub enum Comparison {
    /// This number of runs and of steps, and the machine goes as each.
    Same(u64, u64),
    /// On this line it goes otherwise.
    Differs(u64, Differs),
    /// This line says nothing.
    NoStep(u64),
    Memory,
}

/// What came of a line.
enum Taken {
    Same,
    Differs(Differs),
    NoStep,
}

/// A run, and how many there were before.
#[derive(Drop)]
struct Follower {
    run: Run,
    is_free: bool,
    runs: u64,
    steps: u64,
}

/// The first line, without the LF that ends it, and what stands after it.
fn first_line(text: &[u8]) -> (&[u8], &[u8]) {
    match memchr(b'\n', text) {
        Some(place) => (&text[..place], &text[place + 1..]),
        None => (text, &text[text.len()..]),
    }
}

impl Follower {
    fn new(alloc: Global) -> Follower {
        Follower {
            run: Run::new(alloc),
            is_free: false,
            runs: 0,
            steps: 0,
        }
    }

    fn begin(&mut self, alloc: Global, is_free: bool) {
        self.run = Run::new(alloc);
        self.is_free = is_free;
        self.runs = self.runs.saturating_add(1);
    }

    fn take(&mut self, alloc: Global, line: &[u8]) -> Result<Taken, AllocError> {
        match line_in(line, self.is_free) {
            None => Ok(Taken::NoStep),
            Some(RunLine::Run(is_free)) => {
                self.begin(alloc, is_free);
                Ok(Taken::Same)
            }
            Some(RunLine::Step(told)) => {
                self.steps = self.steps.saturating_add(1);
                match self.run.follow(told)? {
                    None => Ok(Taken::Same),
                    Some(differs) => Ok(Taken::Differs(differs)),
                }
            }
        }
    }

    fn take_all(&mut self, alloc: Global, text: &[u8]) -> Comparison {
        let mut rest = text;
        for number in 1..u64::MAX {
            if rest.is_empty() {
                return Comparison::Same(self.runs, self.steps);
            }
            let (line, after) = first_line(rest);
            match self.take(alloc, line) {
                Ok(Taken::Same) => {}
                Ok(Taken::Differs(differs)) => return Comparison::Differs(number, differs),
                Ok(Taken::NoStep) => return Comparison::NoStep(number),
                Err(AllocError) => return Comparison::Memory,
            }
            rest = after;
        }
        Comparison::Memory
    }
}

/// Has the machine follow what the text tells, to its end or to where it goes otherwise.
pub fn follow(alloc: Global, text: &[u8]) -> Comparison {
    let mut follower = Follower::new(alloc);
    let found = follower.take_all(alloc, text);
    drop(follower);
    found
}
