//! How a thread's own wait begins.
ghost use Rattle.std.specs.Prelude.{ℕ, ◌≡◌, ◌≢◌, ◌≤◌, ◌&&◌, ◌∷◌, ◌<◌, [], None, false, OnOk, OnErr, IfOk, IfErr, is_some, IfSome, IfNone, IsTrue, length, slice_set};
ghost use Rattle.std.specs.Option.{OnSome};
ghost use Rattle.nt_status.specs.declared.refusal.Refusal.TheVariants.{Memory};
ghost use Rattle.std.specs.List.{Contains};
ghost use Rattle.nt_objects.specs.Object.{is_gone};
ghost use Rattle.nt_apc.specs.Queues.{has_apc};
ghost use Rattle.nt_calls.specs.State.{object_at};
ghost use Rattle.nt_machine.specs.Dispatcher.{state};
ghost use Rattle.nt_calls.specs.Serving.{late_status, wait_on, fits, status, taken_by};
ghost use Rattle.nt_calls.specs.Living.{LivesWhileKept};
ghost use Rattle.nt_calls.specs.Naming.{call_named};
ghost use Rattle.nt_calls.specs.Refusals.{grows};
ghost use Rattle.nt_calls.specs.Steps.{Called};
ghost use Rattle.nt_calls.specs.declared.call.Call.{Call};
ghost use Rattle.nt_calls.specs.declared.call.WaitCall.{WaitCall};
ghost use Rattle.nt_machine.specs.Lawful.{IsMachineSound, IsSteady};
ghost use Rattle.nt_calls.specs.declared.call.Reply.{Reply};
ghost use Rattle.nt_machine.specs.Accepts.{IsFresh, IsFreeToCall, HasBegun, reply_of, replied, IsLocal, IsCallMade, IsWaitMade, CanBegin, KeepsWaits};

use crate::machine::{Answer, Machine};
use nt_calls::{
    FEW_OBJECTS, NamedObjects, Reply, SYNCHRONIZE, WaitCall, WaitMode, late_status, name_all,
    objects_refusal, opened, try_wait,
};
use nt_status::{Handle, Handles, MAX_WAIT_OBJECTS, ObjectNumber, Refusal, Status, ThreadId};

/// The status with which a wait ended at once, or none where it pends. What begins a wait answers only that: a reply is large, and a
/// function that may get one clears room for it at each call.
pub(crate) type Begun = Result<Option<Status>, Refusal>;

/// The reply of a waiting call, from how its wait began.
pub(crate) fn replied(ended: Begun) -> Answer
    ensures { result ≡ replied ended }
{
    match ended {
        Ok(Some(status)) => Ok(Reply::Status(status)),
        Ok(None) => Ok(Reply::Pended),
        Err(refusal) => Err(refusal),
    }
}

impl Machine {
    /// Whether the thread may take its APCs from now on.
    pub(crate) fn hand(&mut self, thread: ThreadId, may: bool)
        requires steady { IsSteady self.old }
        requires known { thread < self.old.threads }
        ensures handing { self.new ≡ record self.old { handing = slice_set self.old.handing thread may } }
        ensures steady { IsSteady self.new }
    {
        self.handing[thread.get() as usize] = may;
    }

    /// Whether a wait of this thread, alertable or not, ends for its queued APCs.
    pub(crate) fn is_alerted(&self, thread: ThreadId, alertable: bool) -> bool
        requires sound { IsMachineSound self.now }
        requires known { thread < self.now.threads }
        ensures { result ≡ (alertable && has_apc self.now.apcs.queues thread) }
    {
        alertable && !self.apcs.is_empty(thread)
    }

    /// Where the objects satisfy the caller's wait, takes them, and answers its status.
    #[inline(always)]
    fn take_now(&mut self, thread: ThreadId, objects: &[ObjectNumber], all: bool) -> Option<Status>
        requires can { CanBegin self.old thread (wait_on objects.now all) }
        requires steady { IsSteady self.old }
        ensures fits { is_some result ≡ fits self.old.objects thread (wait_on objects.now all) }
        ensures status { IfSome result (λ code. code ≡ status self.old.objects thread (wait_on objects.now all)) }
        ensures taken { OnSome result (state self.new ≡ taken_by (state self.old) thread (wait_on objects.now all)) }
        ensures steady { IsSteady self.new }
        ensures kept { KeepsWaits self.old self.new }
        ensures none { IfNone result (self.new ≡ self.old) }
    {
        let status = try_wait(&mut self.objects, thread, objects, all)?;
        self.handing[thread.get() as usize] = false;
        Some(status)
    }

    /// Where the caller's wait for these objects ends at once, its status: it takes what it fits, or ends for its queued APCs, or
    /// for its timeout of 0.
    #[inline(always)]
    pub(crate) fn end_at_once(
        &mut self,
        thread: ThreadId,
        objects: &[ObjectNumber],
        all: bool,
        mode: WaitMode,
    ) -> Option<Status>
        requires can { CanBegin self.old thread (wait_on objects.now all) }
        requires steady { IsSteady self.old }
        ensures begun { IfSome result (λ code.
            HasBegun (state self.old) (state self.new) thread
            (WaitCall.Objects all mode objects.now) (Reply.Status code)) }
        ensures pends { IfNone result ((fits self.old.objects thread (wait_on objects.now all) ≡ false)
            × ((mode.alertable && has_apc self.old.apcs.queues thread) ≡ false) × (mode.ms ≢ 0)) }
        ensures steady { IsSteady self.new }
        ensures kept { KeepsWaits self.old self.new }
        ensures none { IfNone result (self.new ≡ self.old) }
    {
        if let Some(status) = self.take_now(thread, objects, all) {
            return Some(status);
        }
        if self.is_alerted(thread, mode.alertable) {
            self.hand(thread, true);
            return Some(Status::IO_COMPLETION);
        }
        if mode.ms == 0 {
            self.hand(thread, false);
            return Some(late_status(objects.is_empty()));
        }
        None
    }

    /// Begins the caller's wait for these objects, none for a sleep: it ends at once, with a status, or pends. Where memory is
    /// refused nothing changes.
    #[inline(always)]
    fn begin_wait(
        &mut self,
        thread: ThreadId,
        objects: &[ObjectNumber],
        all: bool,
        mode: WaitMode,
    ) -> Begun
        requires can { CanBegin self.old thread (wait_on objects.now all) }
        requires steady { IsSteady self.old }
        ensures begun { IfOk result (λ ended.
            HasBegun (state self.old) (state self.new) thread
            (WaitCall.Objects all mode objects.now) (reply_of ended)) }
        ensures steady { IsSteady self.new }
        ensures grants { self.new.grants ≡ self.old.grants }
        ensures looked { self.new.table.looked ≡ self.old.table.looked }
        ensures grows { OnErr result (IsTrue (grows (state self.old) thread
            (Call.Wait (WaitCall.Objects all mode objects.now)))) }
        ensures refused { IfErr result (λ refusal. (refusal ≡ Memory) × (self.new ≡ self.old)) }
    {
        if let Some(status) = self.end_at_once(thread, objects, all, mode) {
            return Ok(Some(status));
        }
        self.pend(thread, objects, all, mode)?;
        Ok(None)
    }

    /// The caller's wait for the objects with these numbers, begun or refused by its own causes.
    #[inline(always)]
    fn wait_for(
        &mut self,
        thread: ThreadId,
        denied: bool,
        numbers: &[ObjectNumber],
        all: bool,
        mode: WaitMode,
    ) -> Begun
        requires fresh { IsFresh self.old }
        requires caller { IsFreeToCall (state self.old) thread }
        requires living { (h : ℕ) → Contains numbers.now h → h < length self.old.objects
            → is_gone (object_at self.old.objects h) ≡ false }
        ensures { IsCallMade self.old self.new thread denied (Call.Wait (WaitCall.Objects all mode numbers.now))
            (replied result) }
    {
        match objects_refusal(self.objects.as_slice(), thread, denied, numbers) {
            Some(refusal) => Err(refusal),
            None => self.begin_wait(thread, numbers, all, mode),
        }
    }

    /// The caller's wait for the object that this handle names, begun or refused by its own causes.
    #[inline(always)]
    fn wait_for_one(
        &mut self,
        thread: ThreadId,
        handle: Handle,
        all: bool,
        mode: WaitMode,
    ) -> Answer
        requires fresh { IsFresh self.old }
        requires caller { IsFreeToCall (state self.old) thread }
        ensures { IsWaitMade self.old self.new thread (WaitCall.Objects all mode (handle ∷ [])) result }
    {
        let (object, denied) = opened(&self.handles, handle, SYNCHRONIZE);
        replied(self.wait_for(thread, denied, &[object], all, mode))
    }

    /// The caller's wait for the objects that the handles of a slice name, begun or refused by its own causes.
    fn wait_for_objects(
        &mut self,
        thread: ThreadId,
        these: &[Handle],
        all: bool,
        mode: WaitMode,
    ) -> Answer
        requires fresh { IsFresh self.old }
        requires caller { IsFreeToCall (state self.old) thread }
        ensures { IsWaitMade self.old self.new thread (WaitCall.Objects all mode these.now) result }
    {
        match these {
            [handle] => self.wait_for_one(thread, *handle, all, mode),
            _ => replied(self.wait_for_several(thread, these, all, mode)),
        }
    }

    /// The caller's wait for the objects that the handles of a list name, begun or refused by its own causes.
    #[inline(always)]
    fn wait_for_listed(
        &mut self,
        thread: ThreadId,
        these: &Handles,
        all: bool,
        mode: WaitMode,
    ) -> Answer
        requires fresh { IsFresh self.old }
        requires caller { IsFreeToCall (state self.old) thread }
        ensures { IsWaitMade self.old self.new thread (WaitCall.Objects all mode these.now) result }
    {
        match these.alone() {
            Some(handle) => self.wait_for_one(thread, handle, all, mode),
            None => replied(self.wait_for_several(thread, these.as_slice(), all, mode)),
        }
    }

    /// The caller's wait for the objects of no handle or of several. A list of few objects has less room to clear.
    fn wait_for_several(
        &mut self,
        thread: ThreadId,
        these: &[Handle],
        all: bool,
        mode: WaitMode,
    ) -> Begun
        requires fresh { IsFresh self.old }
        requires caller { IsFreeToCall (state self.old) thread }
        ensures { IsWaitMade self.old self.new thread (WaitCall.Objects all mode these.now) (replied result) }
    {
        if these.len() <= FEW_OBJECTS {
            self.wait_for_few(thread, these, all, mode.ms, mode.alertable)
        } else if these.len() > MAX_WAIT_OBJECTS {
            Err(Refusal::InvalidParameter)
        } else {
            self.wait_for_many(thread, these, all, mode.ms, mode.alertable)
        }
    }

    /// The caller's wait for at most `FEW_OBJECTS`. A function of its own, since the list of their objects lies in its own frame. The parts
    /// of the mode come one by one, as to `pend_one`.
    #[inline(never)]
    fn wait_for_few(
        &mut self,
        thread: ThreadId,
        these: &[Handle],
        all: bool,
        ms: u32,
        alertable: bool,
    ) -> Begun
        requires few { length these.now ≤ FEW_OBJECTS }
        requires fresh { IsFresh self.old }
        requires caller { IsFreeToCall (state self.old) thread }
        ensures { IsWaitMade self.old self.new thread
            (WaitCall.Objects all (record { ms = ms; alertable = alertable }) these.now) (replied result) }
    {
        let mut few = NamedObjects::<FEW_OBJECTS>::new();
        let denied = name_all(&self.handles, these, &mut few);
        let mode = WaitMode { ms, alertable };
        self.wait_for(thread, denied, few.as_slice(), all, mode)
    }

    /// The caller's wait for at most `MAX_WAIT_OBJECTS`.
    #[inline(never)]
    fn wait_for_many(
        &mut self,
        thread: ThreadId,
        these: &[Handle],
        all: bool,
        ms: u32,
        alertable: bool,
    ) -> Begun
        requires few { length these.now ≤ MAX_WAIT_OBJECTS }
        requires fresh { IsFresh self.old }
        requires caller { IsFreeToCall (state self.old) thread }
        ensures { IsWaitMade self.old self.new thread
            (WaitCall.Objects all (record { ms = ms; alertable = alertable }) these.now) (replied result) }
    {
        let mut numbers = NamedObjects::<MAX_WAIT_OBJECTS>::new();
        let denied = name_all(&self.handles, these, &mut numbers);
        let mode = WaitMode { ms, alertable };
        self.wait_for(thread, denied, numbers.as_slice(), all, mode)
    }

    /// A waiting call, begun or refused by its own causes.
    #[inline(always)]
    pub(crate) fn wait(&mut self, thread: ThreadId, call: &WaitCall) -> Answer
        requires fresh { IsFresh self.old }
        requires caller { IsFreeToCall (state self.old) thread }
        ensures { IsWaitMade self.old self.new thread call.now result }
    {
        match call {
            WaitCall::Objects { handles, all, mode } => {
                self.wait_for_listed(thread, handles, *all, *mode)
            }
            WaitCall::Sleep(mode) => replied(self.begin_wait(thread, &[], false, *mode)),
            WaitCall::Swap {
                signal,
                object,
                mode,
            } => self.signal_and_wait(thread, *signal, *object, *mode),
        }
    }

    /// Makes this thread's wait for the objects that these handles name, or refuses it, and ends no object.
    fn make_wait(&mut self, who: u32, these: &[Handle], all: bool, mode: WaitMode) -> Answer
        requires steady { IsSteady self.old }
        ensures { IsWaitMade self.old self.new who (WaitCall.Objects all mode these.now) result }
    {
        self.tell_anew();
        if let Some(refusal) = self.caller_refusal(who) {
            return Err(refusal);
        }
        self.wait_for_objects(ThreadId::new(who as u16), these, all, mode)
    }

    /// `call` of this thread's wait for the objects that these handles name.
    pub fn wait_objects(&mut self, who: u32, these: &[Handle], all: bool, mode: WaitMode) -> Answer
        requires steady { IsSteady self.old }
        requires living { LivesWhileKept (state self.old) }
        ensures called { Called (state self.old) who (Call.Wait (WaitCall.Objects all mode these.now))
            result self.new.grants (state self.new) }
        ensures steady { IsSteady self.new }
        ensures living { LivesWhileKept (state self.new) }
        ensures local { OnOk result (IsLocal (state self.old) who
            (call_named self.old.handles (Call.Wait (WaitCall.Objects all mode these.now)))
            self.new.table.looked self.new.grants) }
        ensures untested { OnErr result (self.new.table.looked ≡ 0) }
    {
        let reply = self.make_wait(who, these, all, mode)?;
        self.end_forgotten();
        Ok(reply)
    }
}
