//! Calls on timers, and their expiry.
ghost use Rattle.std.specs.Prelude.{◌≡◌, ◌≤◌, ◌<◌, pos, ◌≤ℤ◌, false, length, slice_set, is_some, None, Some, IfSome, IsSomeAnd, IsTrue, OnOk, OnErr};
ghost use Rattle.nt_objects.specs.Object.{is_timer, has_ended, due_of, mutex_owner};
ghost use Rattle.nt_apc.specs.Queues.{withdrawn, place_of};
ghost use Rattle.nt_calls.specs.State.{object_at};
ghost use Rattle.nt_calls.specs.Change.{notified, expired, armed_anew, due_moment, routine_for};
ghost use Rattle.nt_machine.specs.Dispatcher.{state, with_queues};
ghost use Rattle.nt_machine.specs.Lawful.{IsMachineSound};
ghost use Rattle.nt_machine.specs.Accepts.{IsFresh, IsFreeToCall, IsPromised, IsActMade, Accepts, IsActOfAny, IsRunning, KeepsWaits};
ghost use Rattle.nt_calls.specs.declared.call.Act.{Act};
ghost use Rattle.nt_calls.specs.declared.call.Call.{Call};
ghost use Rattle.nt_calls.specs.declared.call.Reply.{Reply};

use crate::machine::{Answer, Machine};
use nt_apc::Apc;
use nt_calls::{Reply, due_moment, routine_for, timer_named, timer_to_arm};
use nt_objects::{Armed, Object, Routine};
use nt_status::{Handle, Moment, ObjectNumber, OptionalMoment, Refusal, ThreadId, TimerFlags};
use std::alloc::AllocError;

impl Machine {
    /// CreateWaitableTimer.
    pub(crate) fn create_timer(&mut self, flags: u32) -> Answer
        requires fresh { IsFresh self.old }
        ensures { IsActOfAny self.old self.new (Act.CreateTimer flags) result }
    {
        let Some(flags) = TimerFlags::from_bits(flags) else {
            return Err(Refusal::InvalidParameter);
        };
        self.create(Object::new_timer(flags))
    }

    /// Puts the timer in its place, and its alarm at its due moment.
    pub(crate) fn put_timer(&mut self, timer: ObjectNumber, object: Object)
        requires known { timer < length self.old.objects }
        requires clock { timer < length self.old.alarms }
        requires owner { mutex_owner object ≡ mutex_owner (object_at self.old.objects timer) }
        ensures { self.new ≡ record self.old {
          objects = slice_set self.old.objects timer object;
          alarms = slice_set self.old.alarms timer (due_of object);
        } }
    {
        let place = timer.get() as usize;
        match object.due() {
            Some(due) => self.alarms.set(place, due),
            None => self.alarms.clear(place),
        }
        self.objects.put(timer, object);
    }

    /// Withdraws the timer's queued APC, if there is one.
    fn withdraw(&mut self, timer: ObjectNumber)
        ensures { self.new ≡ with_queues self.old (withdrawn self.old.apcs.queues timer) }
    {
        if let Some(thread) = self.apcs.place_of(timer) {
            self.apcs.withdraw(thread, timer);
        }
    }

    /// Queues the APC of a timer that expires, unless one of its is queued already.
    fn notify(&mut self, timer: ObjectNumber, due: Moment, routine: Option<Routine>)
        requires { IfSome routine (λ r. place_of self.old.apcs.places timer ≡ Some r.thread) }
        ensures { self.new ≡ with_queues self.old (notified self.old.apcs.queues timer due routine) }
    {
        let Some(routine) = routine else {
            return;
        };
        let thread = routine.thread;
        if !self.apcs.queued(thread, timer) {
            let apc = Apc {
                routine: routine.routine,
                arg: routine.arg,
                at: OptionalMoment::new(Some(due)),
            };
            self.apcs.push_promised(thread, timer, apc);
        }
    }

    /// The timer expires, seen from this moment, which is not before it is due.
    pub fn expire(&mut self, timer: ObjectNumber, now: Moment)
        requires sound { IsMachineSound self.old }
        requires due { IsSomeAnd (due_of (object_at self.old.objects timer)) (λ due. due ≤ now) }
        ensures expired { state self.new ≡ expired now (state self.old) timer }
        ensures sound { IsMachineSound self.new }
        ensures kept { KeepsWaits self.old self.new }
    {
        let mut object = self.object(timer);
        let Some(due) = object.due() else {
            unreachable!()
        };
        let Some(due) = Moment::new(due) else {
            unreachable!()
        };
        let routine = object.expire(now);
        self.put_timer(timer, object);
        self.notify(timer, due, routine);
    }

    /// Promises the APC of this routine, if there is one, a place in its thread's queue. Where memory is refused nothing changes.
    fn promise(&mut self, timer: ObjectNumber, routine: Option<Routine>) -> Result<(), AllocError>
        requires { IfSome routine (λ r. r.thread < length self.old.apcs.queues) }
        ensures ok { OnOk result (IsPromised self.old timer routine self.new) }
        ensures needs { OnErr result (IsTrue (is_some routine)) }
        ensures err { OnErr result (self.new ≡ self.old) }
    {
        if let Some(routine) = routine {
            self.apcs.promise(routine.thread, timer)?;
        }
        Ok(())
    }

    /// Stops the timer, withdraws its queued APC, and arms it again, not set. Where memory is refused nothing changes.
    fn arm(&mut self, timer: ObjectNumber, armed: Armed) -> Result<(), AllocError>
        requires sound { IsMachineSound self.old }
        requires kind { IsTrue (is_timer (object_at self.old.objects timer)) }
        requires runs { IfSome armed.routine
            (λ r. (r.thread < self.old.threads) × (has_ended (object_at self.old.objects r.thread) ≡ false)) }
        ensures armed { OnOk result (state self.new ≡ armed_anew (state self.old) timer armed) }
        ensures sound { OnOk result (IsMachineSound self.new) }
        ensures kept { OnOk result (KeepsWaits self.old self.new) }
        ensures needs { OnErr result (IsTrue (is_some armed.routine)) }
        ensures err { OnErr result (self.new ≡ self.old) }
    {
        self.promise(timer, armed.routine)?;
        self.withdraw(timer);
        let mut object = self.object(timer);
        object.arm(armed.due, armed.period, armed.routine);
        self.put_timer(timer, object);
        Ok(())
    }

    /// Arms the timer again. Where its due moment is not ahead it expires at once. Where that sets a timer that was not set, the
    /// waits that name it are served.
    fn start(
        &mut self,
        thread: ThreadId,
        timer: ObjectNumber,
        due: i64,
        period: i32,
        routine: Option<(u64, u64)>,
    ) -> Result<(), AllocError>
        requires fresh { IsFresh self.old }
        requires running { IsRunning self.old thread }
        requires kind { IsTrue (is_timer (object_at self.old.objects timer)) }
        requires period { pos 0 ≤ℤ period }
        ensures ok { OnOk result (Accepts self.old self.new thread
            (Call.Act (Act.SetTimer timer due period routine)) Reply.Done) }
        ensures needs { OnErr result (IsTrue (is_some routine)) }
        ensures err { OnErr result (self.new ≡ self.old) }
    {
        let was_set = self.object(timer).signaled_for(thread);
        let now = self.moment;
        let due = due_moment(now, due);
        let period = period.unsigned_abs();
        let armed = Armed {
            due,
            period,
            routine: routine_for(thread, routine),
        };
        self.arm(timer, armed)?;
        if due <= now.get() {
            self.expire(timer, now);
            if !was_set {
                self.serve_one(timer);
            }
        }
        Ok(())
    }

    /// SetWaitableTimer.
    pub(crate) fn set_timer(
        &mut self,
        thread: ThreadId,
        handle: Handle,
        due: i64,
        period: i32,
        routine: Option<(u64, u64)>,
    ) -> Answer
        requires fresh { IsFresh self.old }
        requires free { IsFreeToCall (state self.old) thread }
        ensures { IsActMade self.old self.new thread (Act.SetTimer handle due period routine) result }
    {
        let timer = timer_to_arm(&self.handles, &self.objects, handle, period)?;
        self.start(thread, timer, due, period, routine)?;
        Ok(Reply::Done)
    }

    /// CancelWaitableTimer: the timer is stopped, and its queued APC withdrawn. Whether it is set stays.
    pub(crate) fn cancel_timer(&mut self, handle: Handle) -> Answer
        requires fresh { IsFresh self.old }
        ensures { IsActOfAny self.old self.new (Act.CancelTimer handle) result }
    {
        let timer = timer_named(&self.handles, &self.objects, handle)?;
        self.withdraw(timer);
        let mut object = self.object(timer);
        object.cancel();
        self.put_timer(timer, object);
        Ok(Reply::Done)
    }
}
