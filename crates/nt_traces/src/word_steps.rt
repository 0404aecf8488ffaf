//! The steps of the words on which threads sleep, by name.

ghost use Rattle.std.specs.Prelude.{◌≡◌, ◌<◌, ◌≤◌, ◌↔◌, IsTrue, IfOk, length};
ghost use Rattle.nt_protocols.specs.Word as Protocol;
ghost use Rattle.nt_traces.specs.declared.word.TheConstants.{MOST_SEATS};
ghost use Rattle.nt_traces.specs.WordMoves as Moves;
ghost use Rattle.nt_traces.specs.WordTrace.{event_of, place_of, state_of, step, IsWithin, Reads};

use crate::word::WordPlace::{
    InCall, InWait, Outside, Passing, Sleeping, ToCompare, ToLoad, ToLookAtTime, ToSleep,
};
use crate::word::{MOST_SEATS, WordEvent, WordKind, WordPlace, WordSeat, WordValue};
use crate::word_run::WordRun;
use std::alloc::{AllocError, Global};

/// A thread that has not called.
const OUTSIDE: WordSeat = WordSeat {
    word: WordValue::Awake,
    place: Outside,
    pends: false,
    due: false,
    owes: [false; MOST_SEATS],
};

impl WordRun {
    /// None of these threads has called yet.
    pub fn new(alloc: Global, threads: usize) -> Result<WordRun, AllocError>
        ensures state { IfOk result (λ run. state_of run ≡ Protocol.opening) }
        ensures threads { IfOk result (λ run. length run.seats.items ≡ threads) }
    {
        Ok(WordRun {
            seats: vec![in alloc; OUTSIDE; threads]?,
        })
    }

    /// Whether the run has the threads that an event names.
    pub fn has(&self, event: WordEvent) -> bool
        ensures { IsTrue result ↔ IsWithin (length self.now.seats.items) event }
    {
        event.thread < self.seats.len()
            && event.other < self.seats.len()
            && event.other < MOST_SEATS
    }

    /// From one place to another.
    fn walk(&mut self, t: usize, from: WordPlace, to: WordPlace) -> bool
        requires { t < length self.old.seats.items }
        ensures { Reads self.old (Moves.walk (state_of self.old) t from to) self.new result }
    {
        let comes = self.is_at(t, from);
        if comes {
            self.goes(t, to);
        }
        comes
    }

    /// From one place to another, where it owes nobody a wake-up.
    fn leave(&mut self, t: usize, from: WordPlace, to: WordPlace) -> bool
        requires { t < length self.old.seats.items }
        ensures { Reads self.old (Moves.leave (state_of self.old) t from to) self.new result }
    {
        let comes = self.is_at(t, from) && self.owes_nobody(t);
        if comes {
            self.goes(t, to);
        }
        comes
    }

    fn begin(&mut self, t: usize) -> bool
        requires { t < length self.old.seats.items }
        ensures { Reads self.old (step (state_of self.old) (Protocol.Event.Begins t)) self.new result }
    {
        let comes = self.is_at(t, InCall);
        if comes {
            self.begins(t);
        }
        comes
    }

    fn mark(&mut self, t: usize) -> bool
        requires { t < length self.old.seats.items }
        ensures { Reads self.old (step (state_of self.old) (Protocol.Event.Marks t)) self.new result }
    {
        let comes = self.is_at(t, ToCompare);
        if comes {
            self.marks(t);
        }
        comes
    }

    fn doze(&mut self, t: usize) -> bool
        requires { t < length self.old.seats.items }
        ensures { Reads self.old (step (state_of self.old) (Protocol.Event.FallsAsleep t)) self.new result }
    {
        let comes = self.is_at(t, ToSleep);
        if comes {
            self.dozes(t);
        }
        comes
    }

    fn read(&mut self, t: usize) -> bool
        requires { t < length self.old.seats.items }
        ensures { Reads self.old (step (state_of self.old) (Protocol.Event.Reads t)) self.new result }
    {
        let comes = self.is_at(t, ToLoad);
        if comes {
            self.reads(t);
        }
        comes
    }

    /// Has looked at the time, and goes there.
    fn look(&mut self, t: usize, from: WordPlace, to: WordPlace) -> bool
        requires { t < length self.old.seats.items }
        ensures { Reads self.old (Moves.look (state_of self.old) t from to) self.new result }
    {
        let comes = self.is_at(t, from);
        if comes {
            self.looks(t, to);
        }
        comes
    }

    /// Ends u's wait, and tells u so.
    fn grant(&mut self, t: usize, u: usize) -> bool
        requires t { t < length self.old.seats.items }
        requires u { u < length self.old.seats.items }
        requires most { u < MOST_SEATS }
        ensures { Reads self.old (step (state_of self.old) (Protocol.Event.Grants t u)) self.new result }
    {
        let comes = self.is_waking(t) && self.pends(u);
        if comes {
            self.grants(t, u);
        }
        comes
    }

    /// Calls u to look at the time.
    fn call(&mut self, t: usize, u: usize) -> bool
        requires t { t < length self.old.seats.items }
        requires u { u < length self.old.seats.items }
        requires most { u < MOST_SEATS }
        ensures { Reads self.old (step (state_of self.old) (Protocol.Event.Calls t u)) self.new result }
    {
        let comes = self.is_waking(t) && self.pends(u);
        if comes {
            self.calls(t, u);
        }
        comes
    }

    /// Wakes u, whom it owes that.
    fn wake(&mut self, t: usize, u: usize) -> bool
        requires t { t < length self.old.seats.items }
        requires u { u < length self.old.seats.items }
        requires most { u < MOST_SEATS }
        ensures { Reads self.old (step (state_of self.old) (Protocol.Event.Wakes t u)) self.new result }
    {
        let comes = self.owes(t, u);
        if comes {
            self.wakes(t, u);
        }
        comes
    }

    /// Whether the event can come next: then it has, and else nothing has changed.
    pub fn step(&mut self, event: WordEvent) -> bool
        requires { IsWithin (length self.old.seats.items) event }
        ensures { Reads self.old (step (state_of self.old) (event_of event.kind event.thread event.other)) self.new result }
    {
        let WordEvent {
            kind,
            thread: t,
            other: u,
        } = event;
        match kind {
            WordKind::Enters => self.walk(t, Outside, InCall),
            WordKind::Returns => self.leave(t, InCall, Outside),
            WordKind::Begins => self.begin(t),
            WordKind::TurnsToSleep => self.leave(t, InWait, ToCompare),
            WordKind::Marks => self.mark(t),
            WordKind::FallsAsleep => self.doze(t),
            WordKind::Stirs => self.walk(t, Sleeping, ToLoad),
            WordKind::Restarts => self.walk(t, Sleeping, ToSleep),
            WordKind::FindsItLate => self.walk(t, ToSleep, ToLookAtTime),
            WordKind::Reads => self.read(t),
            WordKind::LooksAtTime => self.look(t, ToLookAtTime, Passing),
            WordKind::Rearms => self.look(t, Passing, InWait),
            WordKind::Grants => self.grant(t, u),
            WordKind::Calls => self.call(t, u),
            WordKind::Wakes => self.wake(t, u),
        }
    }
}
