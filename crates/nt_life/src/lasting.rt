//! The dispatcher that lasts.
ghost use Rattle.std.specs.Prelude.{◌≡◌, ◌≤◌, ◌+◌, ◌&&◌, ℕ, false, length, [], nat_le, IfOk, IfErr, OnOk, OnErr, MatchBool, Some, None};
ghost use Rattle.nt_status.specs.declared.limits.TheConstants.{MAX_MANY_THREADS, MAX_THREADS};
ghost use Rattle.nt_status.specs.declared.refusal.Refusal.TheVariants.{InvalidParameter, Memory};
ghost use Rattle.nt_calls.specs.State.{opening};
ghost use Rattle.nt_calls.specs.Steps.{Called, Ticked};
ghost use Rattle.nt_calls.specs.Moves.{Moves, IsMomentAfter};
ghost use Rattle.nt_machine.specs.Accepts.{IsTickLocal};
ghost use Rattle.std.specs.FinMap as map;
ghost use Rattle.nt_calls.specs.declared.call.Call.{Call};
ghost use Rattle.nt_calls.specs.declared.call.WaitCall.{WaitCall};
ghost use Rattle.nt_machine.specs.Dispatcher.{state};
ghost use Rattle.nt_machine.specs.Lawful.{IsLawful};
ghost use Rattle.nt_life.specs.Lasting.{MaySpare, MayBegin, KeepsPace, LooksAt, KeepsClosed, GivesFromNow, gives, MayBeginThis, MayPop, MaySetAside, no_spares, MakesCall, KeepsLimits, MayStack, MayTurn, MayKeepOrder, IsUnchanged};
ghost use Rattle.nt_life.specs.Renewals.{Tells};

use crate::beginning::{begin_this_with, begin_with};
use crate::begun::Begun;
use crate::from_now::give_from_now;
use crate::giving::{gives, make_call};
use crate::renewal::Renewal;
use crate::set_aside::set_aside_with;
use crate::spare::{Spare, copy_of};
use nt_core::{Call, Core, Reply, WaitMode};
use nt_status::{Handle, Moment, ObjectNumber, Refusal};
use std::alloc::Global;
use std::marker::Model;

/// A dispatcher for a fixed number of threads, driven by one, that gives numbers again, or gives each once.
pub struct Lasting {
    core: Core,
    /// None if each number is given once.
    spare: Option<Spare>,
}

/// Written by hand, so that whoever lets it go has one function to call, and nothing to prove of its parts.
impl Drop for Lasting {
    fn drop(self) {
        let Lasting { core: _, spare: _ } = self;
    }
}

impl Model for Lasting {
    ghost use Rattle.std.specs.Coded.{codes};
    ghost use Rattle.nt_waits.specs.Waits.{waits_code};
    ghost use Rattle.nt_machine.specs.Dispatcher.{state};
    ghost use Rattle.nt_machine.specs.Lawful.{IsLawful};
    ghost use Rattle.nt_life.specs.Lasting.{WithSpare, MaySpare};

    ghost Value = { WithSpare };

    ghost coded = { Prim.hlevel (codes, waits_code) };

    ghost view = { λ l. record { core = l.core; spare = l.spare } };

    ghost invariant = { λ l. IsLawful l.core × MaySpare (state l.core) l.spare };
}

impl Lasting {
    /// A dispatcher that gives numbers again. Its threads run and wait for nothing, and no number is spare.
    ///
    /// Refused with 87 unless there are 1 to `MAX_MANY_THREADS` threads, and with 8 if memory is refused.
    pub fn new(alloc: Global, threads: u32) -> Result<Lasting, Refusal>
        ensures ok { IfOk result (λ life. (1 ≤ threads) × (threads ≤ MAX_MANY_THREADS)
            × (state life.core ≡ opening threads) × (life.core.grants ≡ [])) }
        ensures none { IfOk result (λ life. life.spare ≡ Some no_spares) }
        ensures untested { IfOk result (λ life. life.core.table.looked ≡ 0) }
        ensures err { IfErr result (λ r.
            MatchBool (nat_le 1 threads && nat_le threads MAX_MANY_THREADS) (r ≡ Memory) (r ≡ InvalidParameter)) }
    {
        let core = Core::with_many_threads(alloc, threads)?;
        let spare = Spare::new(alloc)?;
        Ok(Lasting {
            core,
            spare: Some(spare),
        })
    }

    /// A dispatcher that gives each number once, so that each of its calls is the machine's own. Its threads run and wait for nothing.
    ///
    /// Refused with 87 unless there are 1 to `MAX_THREADS` threads, and with 8 if memory is refused.
    pub fn once(alloc: Global, threads: u32) -> Result<Lasting, Refusal>
        ensures ok { IfOk result (λ life. (1 ≤ threads) × (threads ≤ MAX_THREADS)
            × (state life.core ≡ opening threads) × (life.core.grants ≡ [])) }
        ensures none { IfOk result (λ life. life.spare ≡ None) }
        ensures untested { IfOk result (λ life. life.core.table.looked ≡ 0) }
        ensures err { IfErr result (λ r.
            MatchBool (nat_le 1 threads && nat_le threads MAX_THREADS) (r ≡ Memory) (r ≡ InvalidParameter)) }
    {
        let core = Core::new(alloc, threads)?;
        Ok(Lasting { core, spare: None })
    }

    /// The dispatcher, to be read: its grants, its present moment, whether a thread waits, and so on.
    pub fn core(&self) -> &Core
        ensures { result.now ≡ self.now.core }
    {
        &self.core
    }

    /// Tells that the dispatcher is lawful and that each number that may be given again is spare once, and does nothing.
    pub fn stands(&self)
        ensures lawful { IsLawful self.now.core }
        ensures spare { MaySpare (state self.now.core) self.now.spare }
    {
        let _ = &self.core;
    }

    /// Makes the call of this thread, and answers its reply or why it is refused. A creation and a duplicate take the numbers that were
    /// freed last, if there are any, and are refused with HandleLimit only if 65,536 handles are open, or no object number is free.
    /// If each number is given once, every call is the machine's own.
    ///
    /// If an object that no handle names is still awaited, and was the last of which a handle was closed, the number of another is tried:
    /// each in turn, one for each creation.
    ///
    /// The pending waits that it ends are in `core().grants()`. It takes no memory unless `Core::call` does. A refused call changes
    /// nothing.
    #[inline(always)]
    pub fn call(&mut self, who: u32, call: &Call) -> Result<Reply, Refusal>
        ensures makes { MakesCall (state self.old.core) self.old.spare who call.now
            result self.new.core.grants (state self.new.core) }
        ensures limits { KeepsLimits self.old.core self.old.spare who call.now result self.new.core }
        ensures stacked { MayStack call.now result self.old.spare self.new.spare }
        ensures turned { MayTurn (state self.old.core) call.now self.old.spare self.new.spare }
        ensures ordered { MayKeepOrder (state self.old.core) call.now self.old.spare self.new.spare }
        ensures pace { KeepsPace (state self.old.core) who call.now result self.new.core.grants (state self.new.core) }
        ensures unchanged { IsUnchanged (state self.old.core) result self.new.core.grants (state self.new.core) }
        ensures lawful { IsLawful self.new.core }
    {
        let mut told = None;
        self.call_told(who, call, &mut told)
    }

    /// Makes the call as `call` does, and tells which numbers were given again. That has to be written down of the call, so that it can be
    /// made again. None if the call was the machine's own.
    #[inline(always)]
    pub fn call_told(
        &mut self,
        who: u32,
        call: &Call,
        told: &mut Option<Renewal>,
    ) -> Result<Reply, Refusal>
        ensures told { Tells (state self.old.core) who call.now told.new
            result self.new.core.grants (state self.new.core) }
        ensures own { gives self.old.spare call.now ≡ false → told.new ≡ None }
        ensures makes { MakesCall (state self.old.core) self.old.spare who call.now
            result self.new.core.grants (state self.new.core) }
        ensures limits { KeepsLimits self.old.core self.old.spare who call.now result self.new.core }
        ensures stacked { MayStack call.now result self.old.spare self.new.spare }
        ensures turned { MayTurn (state self.old.core) call.now self.old.spare self.new.spare }
        ensures ordered { MayKeepOrder (state self.old.core) call.now self.old.spare self.new.spare }
        ensures pace { KeepsPace (state self.old.core) who call.now result self.new.core.grants (state self.new.core) }
        ensures unchanged { IsUnchanged (state self.old.core) result self.new.core.grants (state self.new.core) }
        ensures lawful { IsLawful self.new.core }
    {
        *told = None;
        // (Here, so that each other call is as short as a `Core`'s.)
        if !gives(&self.spare, call) {
            return self.core.call(who, call);
        }
        make_call(&mut self.core, &mut self.spare, who, call, told)
    }

    /// The call `WaitCall::Objects` of this thread, as `Core::wait_objects` makes it.
    pub fn wait_objects(
        &mut self,
        who: u32,
        handles: &[Handle],
        all: bool,
        mode: WaitMode,
    ) -> Result<Reply, Refusal>
        ensures called { Called (state self.old.core) who (Call.Wait (WaitCall.Objects all mode handles.now))
            result self.new.core.grants (state self.new.core) }
        ensures pace { KeepsPace (state self.old.core) who (Call.Wait (WaitCall.Objects all mode handles.now))
            result self.new.core.grants (state self.new.core) }
        ensures looks { LooksAt self.old.core who (Call.Wait (WaitCall.Objects all mode handles.now))
            result self.new.core }
        ensures lawful { IsLawful self.new.core }
        ensures spare { self.new.spare ≡ self.old.spare }
    {
        self.core.wait_objects(who, handles, all, mode)
    }

    /// Lets all moments up to `m`, counted in 100 ns, pass, as `Core::tick` does.
    pub fn tick(&mut self, m: Moment) -> Result<Reply, Refusal>
        ensures ticked { Ticked (state self.old.core) m result self.new.core.grants (state self.new.core) }
        ensures local { OnOk result (IsTickLocal (state self.old.core) m
            self.new.core.table.looked self.new.core.grants) }
        ensures few { length self.new.core.grants + map.len (state self.new.core).waits
            ≡ map.len (state self.old.core).waits }
        ensures moves { (by : ℕ) → Moves (state self.old.core) by false self.new.core.grants (state self.new.core) }
        ensures moment { IsMomentAfter (state self.old.core).now m result (state self.new.core).now }
        ensures untested { OnErr result (self.new.core.table.looked ≡ 0) }
        ensures lawful { IsLawful self.new.core }
        ensures spare { self.new.spare ≡ self.old.spare }
    {
        self.core.tick(m)
    }

    /// A thread begins in the first place of one that has ended and whose object is gone, with the number of the handle that was closed last.
    /// It takes no memory.
    ///
    /// None if there is no such place, or no handle is closed, or each number is given once. An event that is made and closed at once
    /// leaves a closed handle.
    pub fn begin(&mut self) -> Option<Begun>
        ensures begun { MayBegin (state self.old.core) self.old.spare result self.new.core.grants (state self.new.core) }
        ensures lawful { IsLawful self.new.core }
        ensures stacked { MayPop self.old.spare self.new.spare }
    {
        begin_with(&mut self.core, &mut self.spare)
    }

    /// A thread begins in this place, by the same rules. It returns the thread's handle.
    ///
    /// None if the thread that had the place runs or its object lives, or no handle is closed, or each number is given once.
    pub fn begin_this(&mut self, thread: u32) -> Option<Handle>
        ensures begun { MayBeginThis (state self.old.core) self.old.spare thread result
            self.new.core.grants (state self.new.core) }
        ensures lawful { IsLawful self.new.core }
        ensures stacked { MayPop self.old.spare self.new.spare }
    {
        begin_this_with(&mut self.core, &mut self.spare, thread)
    }

    /// Sets aside the object of a thread that has ended and that handles still name: it gets the number of an object that is gone, by which
    /// they name it from then on, and `begin` can give the thread's place to another. Returns that number. It looks at each handle, and takes
    /// no memory unless a number has to be added.
    ///
    /// Refused with 6 if the thread runs, nothing names its object, a pending wait names it, an APC is queued to it, or each number is given
    /// once; else with HandleLimit if no object number is free and there are as many as handle numbers, and with 8 if memory is refused. A
    /// refusal changes nothing.
    pub fn set_aside(&mut self, thread: u32) -> Result<ObjectNumber, Refusal>
        ensures aside { MaySetAside (state self.old.core) self.old.spare thread result
            self.new.core.grants (state self.new.core) }
        ensures unchanged { OnErr result ((state self.new.core ≡ state self.old.core)
            × (self.new.spare ≡ self.old.spare)) }
        ensures lawful { IsLawful self.new.core }
        ensures closed { KeepsClosed self.old.spare self.new.spare }
    {
        set_aside_with(&mut self.core, &mut self.spare, thread)
    }

    /// From now on numbers are given again, though each was given once so far: those of the handles that are closed and of the objects that no
    /// handle names. If numbers are given again already, nothing is done.
    ///
    /// It looks at each handle and at each object once, so no call should wait for it: it is made once in a life, when numbers run out. Refused
    /// with 8 if memory is refused, and then nothing changes.
    pub fn give_again(&mut self, alloc: Global) -> Result<(), Refusal>
        ensures core { self.new.core ≡ self.old.core }
        ensures gives { GivesFromNow (state self.old.core) self.old.spare result self.new.spare }
    {
        give_from_now(alloc, &self.core, &mut self.spare)
    }

    /// An equal dispatcher in memory of its own, as a point to come back to. Each goes its own way from then on.
    ///
    /// Refused with 8 if memory is refused.
    pub fn copy(&self) -> Result<Lasting, Refusal>
        ensures value { IfOk result (λ copied. copied ≡ self.now) }
        ensures memory { IfErr result (λ refusal. refusal ≡ Memory) }
    {
        let spare = copy_of(&self.spare)?;
        let core = self.core.copy()?;
        Ok(Lasting { core, spare })
    }
}
