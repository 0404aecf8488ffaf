//! The dispatcher with those who sleep.
ghost use Rattle.std.specs.Prelude.{◌≡◌, ◌≤◌, [], replicate, slice_get, true, false, None, Some, Err, IfOk, IfErr, OnOk, OnErr, MatchBool, nat_le, ◌&&◌};
ghost use Rattle.nt_status.specs.declared.refusal.Refusal.{Refusal};
ghost use Rattle.nt_status.specs.declared.refusal.Refusal.TheVariants.{InvalidParameter, Memory, HandleLimit};
ghost use Rattle.nt_alarms.specs.Alarms.{alarm_at};
ghost use Rattle.nt_calls.specs.declared.call.WaitCall.{WaitCall};
ghost use Rattle.nt_calls.specs.Moves.{pended};
ghost use Rattle.nt_calls.specs.State.{opening};
ghost use Rattle.nt_calls.specs.Steps.{Called, Ticked};
ghost use Rattle.nt_machine.specs.Accepts.{IsTickLocal};
ghost use Rattle.nt_life.specs.Lasting.{MakesCall, FindsNoneFor, IsUnchanged, LooksAt, MayBegin, MaySetAside, GivesFromNow, no_spares};
ghost use Rattle.nt_machine.specs.Dispatcher.{state};
ghost use Rattle.nt_machine.specs.Lawful.{IsLawful};
ghost use Rattle.nt_sleepers.specs.Sleepers.{LetsSleep, StopsSleeping, Watches, Woke, told_of};

use crate::life::{is_idle, is_still, settle, settle_all, stop, watch};
use crate::told::Told;
use nt_alarms::Alarms;
use nt_core::{Call, Core, Reply, WaitMode};
use nt_life::{Begun, Lasting};
use nt_marks::Marks;
use nt_status::{Handle, MAX_MANY_THREADS, MAX_THREADS, Moment, ObjectNumber, Refusal};
use std::alloc::Global;
use std::marker::Model;

/// A dispatcher, to which moment each thread sleeps by itself, and which threads watch.
#[derive(Drop)]
pub struct Sleepers {
    life: Lasting,
    alarms: Alarms,
    watchers: Marks,
    called: Option<u32>,
}

impl Model for Sleepers {
    ghost use Rattle.std.specs.Coded.{codes};
    ghost use Rattle.nt_waits.specs.Waits.{waits_code};
    ghost use Rattle.nt_machine.specs.Dispatcher.{state};
    ghost use Rattle.nt_sleepers.specs.Sleepers.{CalledWaits, Sleeping, TimeIsKept};

    ghost Value = { Sleeping };

    ghost coded = { Prim.hlevel (codes, waits_code) };

    ghost view = { λ s. record { core = s.life.core; spare = s.life.spare; alarms = s.alarms; watchers = s.watchers; called = s.called } };

    ghost invariant = { λ s. TimeIsKept (state s.life.core) s.alarms s.watchers × CalledWaits (state s.life.core) s.called };
}

/// Whether the caller's wait pends from now on.
fn has_pended(asked: &Result<Reply, Refusal>) -> bool
    ensures { result ≡ pended asked.now }
{
    matches!(asked, Ok(Reply::Pended))
}

/// Whether the call was refused, so that it has changed nothing.
fn was_refused(asked: &Result<Reply, Refusal>) -> bool
    ensures { result ≡ true → (r : Refusal) × (asked.now ≡ Err r) }
{
    match asked {
        Ok(_) => false,
        Err(_) => true,
    }
}

impl Sleepers {
    /// A dispatcher that gives each number once. Its threads run, so that nobody sleeps.
    ///
    /// Refused with 87 unless there are 1 to `MAX_THREADS` threads, and with 8 if memory is refused.
    pub fn new(alloc: Global, threads: u32) -> Result<Sleepers, Refusal>
        ensures ok { IfOk result (λ s. (1 ≤ threads) × (threads ≤ MAX_THREADS) × (state s.core ≡ opening threads)
            × (s.core.grants ≡ [])) }
        ensures spare { IfOk result (λ s. s.spare ≡ None) }
        ensures asleep { IfOk result (λ s. (s.alarms ≡ replicate threads None) × (s.watchers ≡ replicate threads false)
            × (s.called ≡ None)) }
        ensures untested { IfOk result (λ s. s.core.table.looked ≡ 0) }
        ensures lawful { IfOk result (λ s. IsLawful s.core) }
        ensures err { IfErr result (λ r.
            MatchBool (nat_le 1 threads && nat_le threads MAX_THREADS) (r ≡ Memory) (r ≡ InvalidParameter)) }
    {
        // `Lasting::once` refuses them too; here it comes before the alarms' memory.
        if threads == 0 || threads > MAX_THREADS {
            return Err(Refusal::InvalidParameter);
        }
        let alarms = Alarms::with_places(alloc, threads as usize)?;
        let watchers = Marks::with_places(alloc, threads as usize)?;
        let life = Lasting::once(alloc, threads)?;
        Ok(Sleepers {
            life,
            alarms,
            watchers,
            called: None,
        })
    }

    /// The same, but a dispatcher that gives numbers again, for 1 to `MAX_MANY_THREADS` threads.
    pub fn lasting(alloc: Global, threads: u32) -> Result<Sleepers, Refusal>
        ensures ok { IfOk result (λ s. (1 ≤ threads) × (threads ≤ MAX_MANY_THREADS) × (state s.core ≡ opening threads)
            × (s.core.grants ≡ [])) }
        ensures spare { IfOk result (λ s. s.spare ≡ Some no_spares) }
        ensures asleep { IfOk result (λ s. (s.alarms ≡ replicate threads None) × (s.watchers ≡ replicate threads false)
            × (s.called ≡ None)) }
        ensures untested { IfOk result (λ s. s.core.table.looked ≡ 0) }
        ensures lawful { IfOk result (λ s. IsLawful s.core) }
        ensures err { IfErr result (λ r.
            MatchBool (nat_le 1 threads && nat_le threads MAX_MANY_THREADS) (r ≡ Memory) (r ≡ InvalidParameter)) }
    {
        // `Lasting::new` refuses them too; here it comes before the alarms' memory.
        if threads == 0 || threads > MAX_MANY_THREADS {
            return Err(Refusal::InvalidParameter);
        }
        let alarms = Alarms::with_places(alloc, threads as usize)?;
        let watchers = Marks::with_places(alloc, threads as usize)?;
        let life = Lasting::new(alloc, threads)?;
        Ok(Sleepers {
            life,
            alarms,
            watchers,
            called: None,
        })
    }

    /// Makes the call of this thread, and returns its reply or why it is refused. If its wait pends, it sleeps to its deadline.
    #[inline(always)]
    pub fn call(&mut self, who: u32, call: &Call) -> Result<Reply, Refusal>
        ensures makes { MakesCall (state self.old.core) self.old.spare who call.now
            result self.new.core.grants (state self.new.core) }
        ensures limit { result ≡ Err HandleLimit → FindsNoneFor (state self.old.core) self.old.spare call.now }
        ensures unchanged { IsUnchanged (state self.old.core) result self.new.core.grants (state self.new.core) }
        ensures lawful { IsLawful self.new.core }
        ensures looks { LooksAt self.old.core who call.now result self.new.core }
        ensures woke { Woke self.old who (pended result) self.new }
        ensures nobody { OnErr result (self.new.called ≡ None) }
    {
        let result = self.life.call(who, call);
        if was_refused(&result) {
            self.called = None;
            return result;
        }
        if is_still(&self.life) {
            return result;
        }
        let began = has_pended(&result);
        self.called = settle_all(&self.life, &mut self.alarms, &mut self.watchers, who, began);
        result
    }

    /// The call `WaitCall::Objects` of this thread, for a caller whose handles stand in a slice: it takes no list of them.
    pub fn wait_objects(
        &mut self,
        who: u32,
        handles: &[Handle],
        all: bool,
        mode: WaitMode,
    ) -> Result<Reply, Refusal>
        ensures called { Called (state self.old.core) who (Call.Wait (WaitCall.Objects all mode handles.now))
            result self.new.core.grants (state self.new.core) }
        ensures lawful { IsLawful self.new.core }
        ensures looks { LooksAt self.old.core who (Call.Wait (WaitCall.Objects all mode handles.now))
            result self.new.core }
        ensures woke { Woke self.old who (pended result) self.new }
        ensures nobody { OnErr result (self.new.called ≡ None) }
        ensures spare { self.new.spare ≡ self.old.spare }
    {
        let was_idle = is_idle(&self.life);
        let result = self.life.wait_objects(who, handles, all, mode);
        let began = has_pended(&result);
        settle(
            &self.life,
            &mut self.alarms,
            &mut self.watchers,
            &mut self.called,
            who,
            began,
            was_idle,
        );
        result
    }

    /// Lets all moments up to `m`, counted in 100 ns, pass. A moment before the present one is refused.
    pub fn tick(&mut self, m: Moment) -> Result<Reply, Refusal>
        ensures ticked { Ticked (state self.old.core) m result self.new.core.grants (state self.new.core) }
        ensures lawful { IsLawful self.new.core }
        ensures local { OnOk result (IsTickLocal (state self.old.core) m self.new.core.table.looked self.new.core.grants) }
        ensures untested { OnErr result (self.new.core.table.looked ≡ 0) }
        ensures woke { Woke self.old 0 false self.new }
        ensures nobody { OnErr result (self.new.called ≡ None) }
        ensures spare { self.new.spare ≡ self.old.spare }
    {
        let was_idle = is_idle(&self.life);
        let result = self.life.tick(m);
        settle(
            &self.life,
            &mut self.alarms,
            &mut self.watchers,
            &mut self.called,
            0,
            false,
            was_idle,
        );
        result
    }

    /// A thread begins in the place of one that has ended and whose object is gone, as `Lasting::begin` has it. `told` names nobody then.
    pub fn begin(&mut self) -> Option<Begun>
        ensures begun { MayBegin (state self.old.core) self.old.spare result self.new.core.grants (state self.new.core) }
        ensures lawful { IsLawful self.new.core }
        ensures sleeps { LetsSleep self.old self.new }
    {
        self.called = None;
        self.life.begin()
    }

    /// Sets aside the object of a thread that has ended and that handles still name, as `Lasting::set_aside` has it. `told` names nobody then.
    pub fn set_aside(&mut self, thread: u32) -> Result<ObjectNumber, Refusal>
        ensures aside { MaySetAside (state self.old.core) self.old.spare thread result
            self.new.core.grants (state self.new.core) }
        ensures lawful { IsLawful self.new.core }
        ensures sleeps { LetsSleep self.old self.new }
    {
        self.called = None;
        self.life.set_aside(thread)
    }

    /// Numbers are given again from now on, as `Lasting::give_again` has it. What threads learn of the last call stays as it is.
    pub fn give_again(&mut self, alloc: Global) -> Result<(), Refusal>
        ensures gives { GivesFromNow (state self.old.core) self.old.spare result self.new.spare }
        ensures same { self.new ≡ record self.old { spare = self.new.spare } }
    {
        self.life.give_again(alloc)
    }

    /// A timer may end the pending wait of this thread: it watches from now on. Returns the moment to which it sleeps by itself, in units
    /// of 100 ns; none if it sleeps until its wait ends or it is called. If its wait does not pend, nothing is done.
    pub fn watch(&mut self, who: u32) -> Option<u64>
        ensures { Watches self.old who result self.new }
    {
        watch(&self.life, &mut self.alarms, &mut self.watchers, who)
    }

    /// The moment to which this thread sleeps by itself, in units of 100 ns. None if it sleeps until its wait ends or it is called, or
    /// does not sleep.
    pub fn moment(&self, who: u32) -> Option<u64>
        ensures { result ≡ alarm_at self.now.alarms who }
    {
        self.alarms.get(who as usize)
    }

    /// This thread no longer sleeps or watches, though its wait may pend: it is gone, or looks for itself. A watcher may be called in its place.
    pub fn stop(&mut self, who: u32)
        ensures { StopsSleeping self.old who self.new }
    {
        self.called = stop(&self.life, &mut self.alarms, &mut self.watchers, who);
    }

    /// What threads learn of the last call or tick, by index: each wait that ended, and then who is called, if anybody is.
    pub fn told(&self, index: usize) -> Option<Told>
        ensures { result ≡ slice_get (told_of self.now.core.grants self.now.called) index }
    {
        let grants = self.life.core().grants();
        if let Some(grant) = grants.get(index) {
            return Some(Told::Granted(*grant));
        }
        let thread = self.called?;
        if index == grants.len() {
            Some(Told::Called(thread))
        } else {
            None
        }
    }

    /// The dispatcher, to be read.
    pub fn core(&self) -> &Core
        ensures { result.now ≡ self.now.core }
    {
        self.life.core()
    }

    /// An equal dispatcher with the same sleepers, in memory of its own.
    ///
    /// Refused with 8 if memory is refused.
    pub fn copy(&self) -> Result<Sleepers, Refusal>
        ensures value { IfOk result (λ copied. copied ≡ self.now) }
        ensures memory { IfErr result (λ refusal. refusal ≡ Memory) }
    {
        let alarms = self.alarms.copy()?;
        let watchers = self.watchers.copy()?;
        let life = self.life.copy()?;
        Ok(Sleepers {
            life,
            alarms,
            watchers,
            called: self.called,
        })
    }
}
