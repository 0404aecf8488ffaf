//! A trace as a text, and what is found of it.

ghost use Rattle.std.specs.Prelude.{◌≡◌, IfOk};
ghost use Rattle.nt_lines.specs.Lines.{lines_of};
ghost use Rattle.nt_traces.specs.declared.entry.TraceEntry.{TraceEntry};
ghost use Rattle.nt_traces.specs.Traces.{at_of, start, IsTold, Takes, TakesLine};

use crate::entry::{TraceEntry, entry_in};
use crate::lines::first_line;
use crate::word::WordEvent;
use crate::word_run::WordRun;
use nt_lock_traces::{LockEvent, LockRun};
use nt_park_traces::{ParkEvent, ParkRun};
use std::alloc::{AllocError, Global};

/// What a trace is found to be.
#[derive(Clone, Copy, Debug, PartialEq, Eq)]
pub enum TraceVerdict {
    /// This number of lines, each of which begins a run or is a step of one.
    IsRun(u64),
    /// The event on this line is the first that is no step.
    IsNoStep(u64),
}

/// Why a trace can't be read.
#[derive(Clone, Copy, Debug, PartialEq, Eq)]
pub enum TraceFault {
    /// This line is no event, or names a thread that the run has not.
    Line(u64),
    /// Memory was refused.
    Memory,
}

/// The runs that a trace is in, one of each protocol.
#[derive(Drop)]
pub(crate) struct Runs {
    pub(crate) lock: LockRun,
    pub(crate) word: WordRun,
    pub(crate) park: ParkRun,
}

/// What came of a line.
#[derive(Clone, Copy, Debug, PartialEq, Eq)]
pub(crate) enum Taken {
    Step,
    NoStep,
    NoEvent,
}

impl Runs {
    fn new(alloc: Global) -> Result<Runs, AllocError>
        ensures { IfOk result (λ runs. at_of runs ≡ start) }
    {
        Ok(Runs {
            lock: LockRun::new(alloc, 0)?,
            word: WordRun::new(alloc, 0)?,
            park: ParkRun::new(alloc, 0)?,
        })
    }

    fn take_lock(&mut self, event: LockEvent) -> Taken
        ensures { Takes (at_of self.old) (TraceEntry.LockStep event) (at_of self.new) result }
    {
        if !self.lock.has(event) {
            Taken::NoEvent
        } else if self.lock.step(event) {
            Taken::Step
        } else {
            Taken::NoStep
        }
    }

    fn take_word(&mut self, event: WordEvent) -> Taken
        ensures { Takes (at_of self.old) (TraceEntry.WordStep event) (at_of self.new) result }
    {
        if !self.word.has(event) {
            Taken::NoEvent
        } else if self.word.step(event) {
            Taken::Step
        } else {
            Taken::NoStep
        }
    }

    fn take_park(&mut self, event: ParkEvent) -> Taken
        ensures { Takes (at_of self.old) (TraceEntry.ParkStep event) (at_of self.new) result }
    {
        if !self.park.has(event) {
            Taken::NoEvent
        } else if self.park.step(event) {
            Taken::Step
        } else {
            Taken::NoStep
        }
    }

    /// Takes what a line says.
    fn take(&mut self, alloc: Global, entry: TraceEntry) -> Result<Taken, AllocError>
        ensures { IfOk result (Takes (at_of self.old) entry (at_of self.new)) }
    {
        match entry {
            TraceEntry::LockOpens(threads) => self.lock = LockRun::new(alloc, threads)?,
            TraceEntry::WordOpens(threads) => self.word = WordRun::new(alloc, threads)?,
            TraceEntry::ParkOpens(threads) => self.park = ParkRun::new(alloc, threads)?,
            TraceEntry::LockStep(event) => return Ok(self.take_lock(event)),
            TraceEntry::WordStep(event) => return Ok(self.take_word(event)),
            TraceEntry::ParkStep(event) => return Ok(self.take_park(event)),
        }
        Ok(Taken::Step)
    }

    fn take_line(&mut self, alloc: Global, line: &[u8]) -> Result<Taken, AllocError>
        ensures { IfOk result (TakesLine (at_of self.old) (at_of self.new) line.now) }
    {
        match entry_in(line) {
            Some(entry) => self.take(alloc, entry),
            None => Ok(Taken::NoEvent),
        }
    }

    /// Takes all lines.
    fn read(&mut self, alloc: Global, text: &[u8]) -> Result<TraceVerdict, TraceFault>
        ensures { IsTold (at_of self.old) (lines_of text.now) result }
    {
        let mut rest = text;
        let mut lines: u64 = 0;
        while !rest.is_empty() {
            let (line, after) = first_line(rest);
            match self.take_line(alloc, line) {
                Ok(Taken::Step) => {}
                Ok(Taken::NoStep) => return Ok(TraceVerdict::IsNoStep(lines + 1)),
                Ok(Taken::NoEvent) => return Err(TraceFault::Line(lines + 1)),
                Err(AllocError) => return Err(TraceFault::Memory),
            }
            lines += 1;
            rest = after;
        }
        Ok(TraceVerdict::IsRun(lines))
    }
}

/// Reads a trace to its end, or to the first line that is no step: which run is read, or which line is the first that is none, and why.
pub fn read_trace(alloc: Global, text: &[u8]) -> Result<TraceVerdict, TraceFault>
    ensures { IsTold start (lines_of text.now) result }
{
    match Runs::new(alloc) {
        Ok(mut runs) => {
            let found = runs.read(alloc, text);
            drop(runs);
            found
        }
        Err(AllocError) => Err(TraceFault::Memory),
    }
}
