//! The steps of parking, by name.

ghost use Rattle.std.specs.Prelude.{◌≡◌, ◌<◌, ◌↔◌, IsTrue, IfOk, length};
ghost use Rattle.nt_protocols.specs.Parking as Protocol;
ghost use Rattle.nt_park_traces.specs.declared.park.TheConstants.{MOST_PARKED};
ghost use Rattle.nt_park_traces.specs.ParkMoves as Moves;
ghost use Rattle.nt_park_traces.specs.ParkTrace.{bare, event_of, place_of, state_of, step, threads_of, IsWithin, Reads};

use crate::park::ParkPlace::{
    Asleep, GivesToGo, GivesToSleep, GivesToWake, Out, TakesToLeave, TakesToLook, TakesToUnpark,
    ToCheck, ToLeave, ToLoad, ToLook, ToPark, ToSleep, Unparking, Waking,
};
use crate::park::{MOST_PARKED, ParkEvent, ParkKind, ParkPlace, ParkSeat, ParkStanding};
use crate::park_run::ParkRun;
use std::alloc::{AllocError, Global};

/// A thread that has not called.
const OUTSIDE: ParkSeat = ParkSeat {
    place: Out,
    parked: false,
    standing: ParkStanding::Absent,
    expected: 0,
    owes: [false; MOST_PARKED],
};

impl ParkRun {
    /// None of these threads has called yet.
    pub fn new(alloc: Global, threads: usize) -> Result<ParkRun, AllocError>
        ensures state { IfOk result (λ run. state_of run ≡ Protocol.opening) }
        ensures threads { IfOk result (λ run. threads_of run ≡ threads) }
    {
        Ok(ParkRun {
            value: 0,
            latch: false,
            seats: vec![in alloc; OUTSIDE; threads]?,
        })
    }

    /// Whether the run has the threads that an event names.
    pub fn has(&self, event: ParkEvent) -> bool
        ensures { IsTrue result ↔ IsWithin (threads_of self.now) event }
    {
        event.thread < self.seats.len()
            && event.other < self.seats.len()
            && event.other < MOST_PARKED
    }

    /// From one place to another.
    fn walk(&mut self, t: usize, from: ParkPlace, to: ParkPlace) -> bool
        requires { t < length self.old.seats.items }
        ensures { Reads self.old (bare (Moves.walk (state_of self.old) t from to)) self.new result }
    {
        let comes = self.is_at(t, from);
        if comes {
            self.goes(t, to);
        }
        comes
    }

    /// The same as it takes the latch.
    fn take(&mut self, t: usize, from: ParkPlace, to: ParkPlace) -> bool
        requires { t < length self.old.seats.items }
        ensures { Reads self.old (bare (Moves.takes (state_of self.old) t from to)) self.new result }
    {
        let comes = self.is_at(t, from) && !self.latch;
        if comes {
            self.latches(t, to, true);
        }
        comes
    }

    /// The same as it gives the latch back.
    fn give(&mut self, t: usize, from: ParkPlace, to: ParkPlace) -> bool
        requires { t < length self.old.seats.items }
        ensures { Reads self.old (bare (Moves.gives (state_of self.old) t from to)) self.new result }
    {
        let comes = self.is_at(t, from);
        if comes {
            self.latches(t, to, false);
        }
        comes
    }

    fn count(&mut self, t: usize, expected: usize) -> bool
        requires { t < length self.old.seats.items }
        ensures { Reads self.old (step (state_of self.old) (Protocol.Event.Counts t expected)) self.new result }
    {
        let comes = self.is_at(t, Out);
        if comes {
            self.counts(t, expected);
        }
        comes
    }

    fn look_same(&mut self, t: usize) -> bool
        requires { t < length self.old.seats.items }
        ensures { Reads self.old (step (state_of self.old) (Protocol.Event.LooksSame t)) self.new result }
    {
        let comes = self.is_at(t, ToLook) && self.is_expected(t);
        if comes {
            self.goes(t, ToPark);
        }
        comes
    }

    fn look_other(&mut self, t: usize) -> bool
        requires { t < length self.old.seats.items }
        ensures { Reads self.old (step (state_of self.old) (Protocol.Event.LooksOther t)) self.new result }
    {
        let comes = self.is_at(t, ToLook) && !self.is_expected(t);
        if comes {
            self.goes(t, GivesToGo);
        }
        comes
    }

    fn park(&mut self, t: usize) -> bool
        requires { t < length self.old.seats.items }
        ensures { Reads self.old (step (state_of self.old) (Protocol.Event.Parks t)) self.new result }
    {
        let comes = self.is_at(t, ToPark);
        if comes {
            self.parks(t);
        }
        comes
    }

    fn doze(&mut self, t: usize) -> bool
        requires { t < length self.old.seats.items }
        ensures { Reads self.old (step (state_of self.old) (Protocol.Event.FallsAsleep t)) self.new result }
    {
        let comes = self.is_at(t, ToSleep);
        if comes {
            self.dozes(t);
        }
        comes
    }

    fn read(&mut self, t: usize) -> bool
        requires { t < length self.old.seats.items }
        ensures { Reads self.old (step (state_of self.old) (Protocol.Event.Reads t)) self.new result }
    {
        let comes = self.is_at(t, ToLoad);
        if comes {
            self.reads(t);
        }
        comes
    }

    fn leave(&mut self, t: usize) -> bool
        requires { t < length self.old.seats.items }
        ensures { Reads self.old (step (state_of self.old) (Protocol.Event.Leaves t)) self.new result }
    {
        let comes = self.is_at(t, ToLeave);
        if comes {
            self.leaves(t);
        }
        comes
    }

    fn change(&mut self, t: usize, value: usize) -> bool
        requires { t < length self.old.seats.items }
        ensures { Reads self.old (step (state_of self.old) (Protocol.Event.Changes t value)) self.new result }
    {
        let comes = self.is_at(t, Out);
        if comes {
            self.changes(t, value);
        }
        comes
    }

    fn see_nobody(&mut self, t: usize, all: bool) -> bool
        requires { t < length self.old.seats.items }
        ensures { Reads self.old (step (state_of self.old) (Protocol.Event.SeesNobody t all)) self.new result }
    {
        let comes = self.is_at(t, ToCheck(all)) && self.nobody_counts();
        if comes {
            self.goes(t, Out);
        }
        comes
    }

    fn take_off(&mut self, t: usize, u: usize, all: bool) -> bool
        requires t { t < length self.old.seats.items }
        requires u { u < length self.old.seats.items }
        ensures { Reads self.old (step (state_of self.old) (Protocol.Event.TakesOff t u all)) self.new result }
    {
        let comes = self.is_at(t, Unparking(all)) && self.stands(u, ParkStanding::Listed);
        if comes {
            self.takes_off(t, u);
        }
        comes
    }

    fn unpark(&mut self, t: usize, u: usize) -> bool
        requires t { t < length self.old.seats.items }
        requires u { u < length self.old.seats.items }
        requires most { u < MOST_PARKED }
        ensures { Reads self.old (step (state_of self.old) (Protocol.Event.Unparks t u)) self.new result }
    {
        let comes = self.stands(u, ParkStanding::Taken(t));
        if comes {
            self.unparks(t, u);
        }
        comes
    }

    fn finish(&mut self, t: usize, all: bool) -> bool
        requires { t < length self.old.seats.items }
        ensures { Reads self.old (step (state_of self.old) (Protocol.Event.Finishes t all)) self.new result }
    {
        let comes = self.is_at(t, Unparking(all)) && self.has_unparked(t, all);
        if comes {
            self.goes(t, GivesToWake);
        }
        comes
    }

    fn wake(&mut self, t: usize, u: usize) -> bool
        requires t { t < length self.old.seats.items }
        requires u { u < length self.old.seats.items }
        requires most { u < MOST_PARKED }
        ensures { Reads self.old (step (state_of self.old) (Protocol.Event.Wakes t u)) self.new result }
    {
        let comes = self.owes(t, u);
        if comes {
            self.wakes(t, u);
        }
        comes
    }

    fn go(&mut self, t: usize) -> bool
        requires { t < length self.old.seats.items }
        ensures { Reads self.old (step (state_of self.old) (Protocol.Event.Returns t)) self.new result }
    {
        let comes = self.is_at(t, Waking) && self.owes_nobody(t);
        if comes {
            self.goes(t, Out);
        }
        comes
    }

    /// Whether the event can come next: then it has, and else nothing has changed.
    pub fn step(&mut self, event: ParkEvent) -> bool
        requires { IsWithin (threads_of self.old) event }
        ensures { Reads self.old (step (state_of self.old) (event_of event.kind event.thread event.other)) self.new result }
    {
        let ParkEvent {
            kind,
            thread: t,
            other: u,
        } = event;
        match kind {
            ParkKind::Counts => self.count(t, u),
            ParkKind::TakesToLook => self.take(t, TakesToLook, ToLook),
            ParkKind::TakesToLeave => self.take(t, TakesToLeave, ToLeave),
            ParkKind::TakesToUnpark(all) => self.take(t, TakesToUnpark(all), Unparking(all)),
            ParkKind::GivesToGo => self.give(t, GivesToGo, Out),
            ParkKind::GivesToSleep => self.give(t, GivesToSleep, ToSleep),
            ParkKind::GivesToWake => self.give(t, GivesToWake, Waking),
            ParkKind::LooksSame => self.look_same(t),
            ParkKind::LooksOther => self.look_other(t),
            ParkKind::Parks => self.park(t),
            ParkKind::FallsAsleep => self.doze(t),
            ParkKind::Stirs => self.walk(t, Asleep, ToLoad),
            ParkKind::Restarts => self.walk(t, Asleep, ToSleep),
            ParkKind::Reads => self.read(t),
            ParkKind::TimesOut => self.walk(t, ToSleep, TakesToLeave),
            ParkKind::Leaves => self.leave(t),
            ParkKind::Changes => self.change(t, u),
            ParkKind::Calls => self.walk(t, Out, ToCheck(false)),
            ParkKind::SeesNobody(all) => self.see_nobody(t, all),
            ParkKind::SeesSome(all) => self.walk(t, ToCheck(all), TakesToUnpark(all)),
            ParkKind::TakesOff(all) => self.take_off(t, u, all),
            ParkKind::Unparks => self.unpark(t, u),
            ParkKind::Finishes(all) => self.finish(t, all),
            ParkKind::Wakes => self.wake(t, u),
            ParkKind::Returns => self.go(t),
        }
    }
}
