//! The calls that answer at once.
ghost use Rattle.std.specs.Prelude.{◌≡◌};
ghost use Rattle.nt_calls.specs.declared.call.Act.{Act};
ghost use Rattle.nt_calls.specs.declared.call.Call.{Call};
ghost use Rattle.nt_calls.specs.declared.call.Reply.{Reply};
ghost use Rattle.nt_front_calls.specs.Answers.{CallIsTold, CallIsDone, FrontIsTicked};

use crate::told::{Refused, Told};
use nt_answers::Apc;
use nt_core::Act;
use nt_front::{Front, Named, Pass};
use nt_status::{Access, EventFlags, Handle, Moment, MutexFlags, TimerFlags};
use std::sync::Wait;

/// A front whose calls are made by their names, each for the thread whose pass it is given.
///
/// Every call may be refused, as [`Refused`] says. A pass learns of what is written alone, and is as before if nothing is.
#[derive(Drop)]
pub struct Calls<'f, 'r, N: Named, R> {
    pub(crate) front: &'f Front<N>,
    pub(crate) rt: &'r R,
}

impl<'f, 'r, N: Named, R: Wait> Calls<'f, 'r, N, R> {
    /// The calls of this front. Who has to wait waits by this runtime.
    pub fn of(front: &'f Front<N>, rt: &'r R) -> Calls<'f, 'r, N, R> {
        Calls { front, rt }
    }

    /// CreateEvent, with the flags of CreateEventEx. Answers the event's handle.
    pub fn create_event(
        &self,
        pass: &mut Pass<N>,
        flags: EventFlags,
    ) -> Result<Told<Handle>, Refused>
        ensures { CallIsTold Reply.Handle N.front pass.old (Call.Act (Act.CreateEvent flags)) result pass.new }
    {
        self.make_handle(pass, Act::create_event(flags))
    }

    /// CreateSemaphore. Answers the semaphore's handle.
    pub fn create_semaphore(
        &self,
        pass: &mut Pass<N>,
        initial: i32,
        maximum: i32,
    ) -> Result<Told<Handle>, Refused>
        ensures { CallIsTold Reply.Handle N.front pass.old (Call.Act (Act.CreateSemaphore initial maximum)) result pass.new }
    {
        self.make_handle(pass, Act::CreateSemaphore { initial, maximum })
    }

    /// CreateMutex, with the flags of CreateMutexEx. Answers the mutex's handle.
    pub fn create_mutex(
        &self,
        pass: &mut Pass<N>,
        flags: MutexFlags,
    ) -> Result<Told<Handle>, Refused>
        ensures { CallIsTold Reply.Handle N.front pass.old (Call.Act (Act.CreateMutex flags)) result pass.new }
    {
        self.make_handle(pass, Act::create_mutex(flags))
    }

    /// CreateWaitableTimer, with the flags of CreateWaitableTimerEx. Answers the timer's handle.
    pub fn create_timer(
        &self,
        pass: &mut Pass<N>,
        flags: TimerFlags,
    ) -> Result<Told<Handle>, Refused>
        ensures { CallIsTold Reply.Handle N.front pass.old (Call.Act (Act.CreateTimer flags)) result pass.new }
    {
        self.make_handle(pass, Act::create_timer(flags))
    }

    /// SetEvent.
    pub fn set_event(&self, pass: &mut Pass<N>, event: Handle) -> Result<Told<()>, Refused>
        ensures { CallIsDone N.front pass.old (Call.Act (Act.SetEvent event)) result pass.new }
    {
        self.make_done(pass, Act::SetEvent(event))
    }

    /// ResetEvent.
    pub fn reset_event(&self, pass: &mut Pass<N>, event: Handle) -> Result<Told<()>, Refused>
        ensures { CallIsDone N.front pass.old (Call.Act (Act.ResetEvent event)) result pass.new }
    {
        self.make_done(pass, Act::ResetEvent(event))
    }

    /// PulseEvent.
    pub fn pulse_event(&self, pass: &mut Pass<N>, event: Handle) -> Result<Told<()>, Refused>
        ensures { CallIsDone N.front pass.old (Call.Act (Act.PulseEvent event)) result pass.new }
    {
        self.make_done(pass, Act::PulseEvent(event))
    }

    /// ReleaseSemaphore. Answers the count before.
    pub fn release_semaphore(
        &self,
        pass: &mut Pass<N>,
        semaphore: Handle,
        count: i32,
    ) -> Result<Told<i32>, Refused>
        ensures { CallIsTold Reply.Previous N.front pass.old (Call.Act (Act.ReleaseSemaphore semaphore count)) result pass.new }
    {
        self.make_previous(pass, semaphore, count)
    }

    /// ReleaseMutex.
    pub fn release_mutex(&self, pass: &mut Pass<N>, mutex: Handle) -> Result<Told<()>, Refused>
        ensures { CallIsDone N.front pass.old (Call.Act (Act.ReleaseMutex mutex)) result pass.new }
    {
        self.make_done(pass, Act::ReleaseMutex(mutex))
    }

    /// SetWaitableTimer. The due time is a moment, or from now on if it is negative, in units of 100 ns; the period is in milliseconds, 0
    /// for none. The routine, with its argument, is queued to the caller when the timer expires.
    pub fn set_timer(
        &self,
        pass: &mut Pass<N>,
        timer: Handle,
        due: i64,
        period: i32,
        routine: Option<(u64, u64)>,
    ) -> Result<Told<()>, Refused>
        ensures { CallIsDone N.front pass.old (Call.Act (Act.SetTimer timer due period routine)) result pass.new }
    {
        let act = Act::SetTimer {
            timer,
            due,
            period,
            routine,
        };
        self.make_done(pass, act)
    }

    /// CancelWaitableTimer.
    pub fn cancel_timer(&self, pass: &mut Pass<N>, timer: Handle) -> Result<Told<()>, Refused>
        ensures { CallIsDone N.front pass.old (Call.Act (Act.CancelTimer timer)) result pass.new }
    {
        self.make_done(pass, Act::CancelTimer(timer))
    }

    /// QueueUserAPC, to the thread that the handle names.
    pub fn queue_apc(
        &self,
        pass: &mut Pass<N>,
        thread: Handle,
        routine: u64,
        arg: u64,
    ) -> Result<Told<()>, Refused>
        ensures { CallIsDone N.front pass.old (Call.Act (Act.QueueApc thread routine arg)) result pass.new }
    {
        let act = Act::QueueApc {
            thread,
            routine,
            arg,
        };
        self.make_done(pass, act)
    }

    /// Takes the thread's oldest APC, if its last ended wait ended for its APCs and it has not found none since. Answers none if there is
    /// none to take.
    pub fn next_apc(&self, pass: &mut Pass<N>) -> Result<Told<Option<Apc>>, Refused>
        ensures { CallIsTold Reply.Apc N.front pass.old (Call.Act Act.NextApc) result pass.new }
    {
        self.make_apc(pass)
    }

    /// DuplicateHandle: answers one handle more for what this one names, with these rights, none of which the first may lack.
    pub fn duplicate(
        &self,
        pass: &mut Pass<N>,
        handle: Handle,
        access: Access,
    ) -> Result<Told<Handle>, Refused>
        ensures { CallIsTold Reply.Handle N.front pass.old (Call.Act (Act.Duplicate handle access)) result pass.new }
    {
        self.make_handle(pass, Act::duplicate(handle, access))
    }

    /// CloseHandle: the handle no longer names anything, and no other gets its number unless the front lasts.
    pub fn close(&self, pass: &mut Pass<N>, handle: Handle) -> Result<Told<()>, Refused>
        ensures { CallIsDone N.front pass.old (Call.Act (Act.Close handle)) result pass.new }
    {
        self.make_done(pass, Act::Close(handle))
    }

    /// Lets all moments up to this one pass, as `Core::tick` does. The dispatcher refuses it with `MomentBack` if it is before the present
    /// moment.
    pub fn tick_to(&self, pass: &mut Pass<N>, moment: Moment) -> Result<Told<()>, Refused>
        ensures { FrontIsTicked N.front pass.old moment result pass.new }
    {
        self.make_tick(pass, moment)
    }
}
