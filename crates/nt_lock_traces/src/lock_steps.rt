//! The steps of the lock, by name.

ghost use Rattle.std.specs.Prelude.{◌≡◌, ◌<◌, ◌==◌, ◌↔◌, IsTrue, IfOk, length};
ghost use Rattle.nt_protocols.specs.Lock as Lock;
ghost use Rattle.nt_lock_traces.specs.declared.lock_kinds.LockKind.{LockKind};
ghost use Rattle.nt_lock_traces.specs.LockTrace.{state_of, place_of, step, arriving_event, favoured_event, handling_event, owning_event, revoking_event, sleeping_event, taking_event, HasRoom, IsWithin, Reads, RoomFor};

use crate::lock::LockPlace::{
    Asleep, AsleepOn, Inside, Out, Owner, ToBar, ToCheck, ToFavour, ToLook, ToMark, ToPay,
    ToPutBack, ToReload, ToSleep, ToSleepOn, ToStepBack, ToStore, ToTake, ToUnset, ToWake,
    ToWakeRevoker,
};
use crate::lock::LockWord::{Favours, Free, Taken, Wanted};
use crate::lock::{LockEvent, LockPlace, OUTSIDE};
use crate::lock_kinds::{
    ArrivingStep, FavouredStep, HandlingStep, LockKind, OwningStep, RevokingStep, SleepingStep,
    TakingStep,
};
use crate::lock_run::LockRun;
use crate::lock_test::LockTest::{Is, IsHeld, IsNot};
use std::alloc::{AllocError, Global};

/// Where a thread is that has revoked n's favour: of its own it needs no barrier.
fn revoking(t: usize, n: usize, once: bool) -> LockPlace
    ensures { place_of result ≡ Lock.revoking (n == t) n once }
{
    if n == t {
        ToLook(n, once)
    } else {
        ToBar(n, once)
    }
}

impl LockRun {
    /// Nobody of these threads has asked for the lock yet.
    pub fn new(alloc: Global, threads: usize) -> Result<LockRun, AllocError>
        ensures state { IfOk result (λ run. state_of run ≡ Lock.opening) }
        ensures threads { IfOk result (λ run. length run.seats.items ≡ threads) }
    {
        Ok(LockRun {
            lock: Free,
            seats: vec![in alloc; OUTSIDE; threads]?,
        })
    }

    /// A thread's handler may begin: it is in none.
    fn has_room(&self, kind: LockKind, t: usize) -> bool
        ensures { IsTrue result ↔ RoomFor ((state_of self.now).seats t).under kind }
    {
        match kind {
            LockKind::Handling(HandlingStep::Interrupts(_)) => !self.is_handling(t),
            _ => true,
        }
    }

    /// Whether the run has the threads that an event names, and room for it.
    pub fn has(&self, event: LockEvent) -> bool
        ensures { IsTrue result ↔ (IsWithin (length self.now.seats.items) event × HasRoom (state_of self.now) event) }
    {
        event.thread < self.seats.len()
            && event.other < self.seats.len()
            && self.has_room(event.kind, event.thread)
    }

    /// The steps of the favoured thread.
    fn step_favoured(&mut self, kind: FavouredStep, t: usize, u: usize) -> bool
        requires t { t < length self.old.seats.items }
        requires u { u < length self.old.seats.items }
        ensures { Reads self.old (Lock.step (state_of self.old) (favoured_event kind t u)) self.new result }
    {
        match kind {
            FavouredStep::SeesFavour => self.walk_if(t, Out, Is(Favours(t)), ToStore),
            FavouredStep::StoresInside => self.store(t, ToStore, true, ToCheck),
            FavouredStep::Enters => self.walk_if(t, ToCheck, Is(Favours(t)), Inside),
            FavouredStep::MissesFavour => self.walk_if(t, ToCheck, IsNot(Favours(t)), ToStepBack),
            FavouredStep::StepsBack => self.clear(t, ToStepBack),
            FavouredStep::StepsOut => self.clear(t, Inside),
            FavouredStep::KeepsFavour => self.walk_if(t, ToReload, Is(Favours(t)), Out),
            FavouredStep::FindsRevoked => self.walk_if(
                t,
                ToReload,
                IsNot(Favours(t)),
                ToWakeRevoker,
            ),
            FavouredStep::WakesRevoker => self.wake(
                t,
                ToWakeRevoker,
                u,
                AsleepOn(t),
                ToLook(t, false),
                Out,
            ),
            FavouredStep::WakesNoRevoker => self.wake_nobody(t, ToWakeRevoker, AsleepOn(t), Out),
        }
    }

    /// The steps of a thread that takes the lock as all do.
    fn step_taking(&mut self, kind: TakingStep, t: usize, u: usize) -> bool
        requires { t < length self.old.seats.items }
        ensures { Reads self.old (Lock.step (state_of self.old) (taking_event kind t u)) self.new result }
    {
        match kind {
            TakingStep::Asks => self.walk(t, Out, ToTake),
            TakingStep::TakesFree => self.make(t, ToTake, Is(Free), Taken, Owner),
            TakingStep::TriesFree => self.make(t, Out, Is(Free), Taken, Owner),
            TakingStep::Revokes => self.make(
                t,
                ToTake,
                Is(Favours(u)),
                Taken,
                revoking(t, u, false),
            ),
            TakingStep::TriesFavoured => self.make(
                t,
                Out,
                Is(Favours(u)),
                Taken,
                revoking(t, u, true),
            ),
            TakingStep::StopsLooking => self.walk(t, ToTake, ToMark),
            TakingStep::MarksFree => self.make(t, ToMark, Is(Free), Wanted, Owner),
            TakingStep::MarksFavoured => self.make(
                t,
                ToMark,
                Is(Favours(u)),
                Wanted,
                revoking(t, u, false),
            ),
            TakingStep::MarksHeld => self.make(t, ToMark, IsHeld, Wanted, ToPay),
        }
    }

    /// The steps of one that sleeps on it.
    fn step_sleeping(&mut self, kind: SleepingStep, t: usize, u: usize) -> bool
        requires t { t < length self.old.seats.items }
        requires u { u < length self.old.seats.items }
        ensures { Reads self.old (Lock.step (state_of self.old) (sleeping_event kind t u)) self.new result }
    {
        match kind {
            SleepingStep::PaysOne => self.wake(t, ToPay, u, AsleepOn(t), ToLook(t, false), ToSleep),
            SleepingStep::PaysNobody => self.wake_nobody(t, ToPay, AsleepOn(t), ToSleep),
            SleepingStep::FallsAsleep => self.walk_if(t, ToSleep, Is(Wanted), Asleep),
            SleepingStep::FindsUnwanted => self.walk_if(t, ToSleep, IsNot(Wanted), ToMark),
            SleepingStep::Stirs => self.walk(t, Asleep, ToMark),
            SleepingStep::Restarts => self.walk(t, Asleep, ToSleep),
        }
    }

    /// The steps of one that has revoked a favour.
    fn step_revoking(&mut self, kind: RevokingStep, t: usize, u: usize) -> bool
        requires t { t < length self.old.seats.items }
        requires u { u < length self.old.seats.items }
        ensures { Reads self.old (Lock.step (state_of self.old) (revoking_event kind t u)) self.new result }
    {
        match kind {
            RevokingStep::PassesBarrier => self.pass(t, u, false),
            RevokingStep::PassesBarrierOnce => self.pass(t, u, true),
            RevokingStep::FindsOutside => self.look(t, ToLook(u, false), u, false, Owner),
            RevokingStep::FindsOutsideOnce => self.look(t, ToLook(u, true), u, false, Owner),
            RevokingStep::FindsInside => self.look(t, ToLook(u, false), u, true, ToSleepOn(u)),
            RevokingStep::Declines => self.look(t, ToLook(u, true), u, true, ToPutBack(u)),
            RevokingStep::FallsAsleepOn => self.look(t, ToSleepOn(u), u, true, AsleepOn(u)),
            RevokingStep::FindsLeft => self.look(t, ToSleepOn(u), u, false, ToLook(u, false)),
            RevokingStep::StirsOn => self.walk(t, AsleepOn(u), ToLook(u, false)),
            RevokingStep::RestartsOn => self.walk(t, AsleepOn(u), ToSleepOn(u)),
            RevokingStep::PutsBack => self.give(t, ToPutBack(u), Favours(u)),
        }
    }

    /// The steps of one that has it as all have it.
    fn step_owning(&mut self, kind: OwningStep, t: usize, u: usize) -> bool
        requires t { t < length self.old.seats.items }
        requires u { u < length self.old.seats.items }
        ensures { Reads self.old (Lock.step (state_of self.old) (owning_event kind t u)) self.new result }
    {
        match kind {
            OwningStep::StoresFirst => self.store(t, Owner, true, ToFavour),
            OwningStep::GainsFavour => self.make(t, ToFavour, Is(Taken), Favours(t), Inside),
            OwningStep::MissesTaken => self.miss(t, ToFavour, IsNot(Taken), ToUnset),
            OwningStep::UnstoresInside => self.store(t, ToUnset, false, Owner),
            OwningStep::GivesBack => self.give(t, Owner, Free),
            OwningStep::WakesOne => self.wake(t, ToWake, u, Asleep, ToMark, Out),
            OwningStep::WakesNobody => self.wake_nobody(t, ToWake, Asleep, Out),
        }
    }

    /// The arrivals of plain stores.
    fn step_arriving(&mut self, kind: ArrivingStep, t: usize) -> bool
        requires { t < length self.old.seats.items }
        ensures { Reads self.old (Lock.step (state_of self.old) (arriving_event kind t t)) self.new result }
    {
        match kind {
            ArrivingStep::SetArrives => self.arrive(t, true),
            ArrivingStep::ClearArrives => self.arrive(t, false),
        }
    }

    /// The beginning and the end of a handler.
    fn step_handling(&mut self, kind: HandlingStep, t: usize) -> bool
        requires t { t < length self.old.seats.items }
        requires room { RoomFor ((state_of self.old).seats t).under (LockKind.Handling kind) }
        ensures { Reads self.old (Lock.step (state_of self.old) (handling_event kind t t)) self.new result }
    {
        match kind {
            HandlingStep::Interrupts(frame) => self.interrupt(t, frame),
            HandlingStep::Resumes(frame) => self.resume(t, frame),
        }
    }

    /// Whether the event can come next: then it has, and else nothing has changed.
    pub fn step(&mut self, event: LockEvent) -> bool
        requires within { IsWithin (length self.old.seats.items) event }
        requires room { HasRoom (state_of self.old) event }
        ensures { Reads self.old (step (state_of self.old) event) self.new result }
    {
        let LockEvent {
            kind,
            thread: t,
            other: u,
        } = event;
        match kind {
            LockKind::Favoured(kind) => self.step_favoured(kind, t, u),
            LockKind::Taking(kind) => self.step_taking(kind, t, u),
            LockKind::Sleeping(kind) => self.step_sleeping(kind, t, u),
            LockKind::Revoking(kind) => self.step_revoking(kind, t, u),
            LockKind::Owning(kind) => self.step_owning(kind, t, u),
            LockKind::Arriving(kind) => self.step_arriving(kind, t),
            LockKind::Handling(kind) => self.step_handling(kind, t),
        }
    }
}
