//! The calls by their names.
ghost use Rattle.std.specs.Prelude.{◌≡◌, false, true, [], ◌∷◌};
ghost use Rattle.nt_calls.specs.declared.call.Act.{Act};
ghost use Rattle.nt_calls.specs.declared.call.Call.{Call};
ghost use Rattle.nt_calls.specs.declared.call.WaitCall.{WaitCall};
ghost use Rattle.nt_machine.specs.Dispatcher.{Dispatcher};
ghost use Rattle.nt_answers.specs.Answers.{done_reply, created_reply, previous_reply, apc_reply, began_reply};
ghost use Rattle.nt_core_calls.specs.Called.{IsCalled, IsTicked};

use nt_answers::{Apc, Began, Timeout};
use nt_status::{Access, EventFlags, Handle, Moment, MutexFlags, Refusal, TimerFlags};

/// A dispatcher whose calls are made by their names. `who` is the number of the thread that makes the call.
///
/// Every call may be refused with why its thread can't call (`Refusal::UnknownThread`, `ThreadEnded`, `ThreadWaiting`), and then with
/// what is wrong with its arguments, as `Core::call` is. A refused call changes nothing. The pending waits that a call ends are in
/// `grants()` of the dispatcher.
pub trait Calls {
    // the dispatcher that is called
    ghost dispatcher: { Self → Dispatcher };

    /// CreateEvent, with the flags of CreateEventEx. Answers the event's handle.
    fn create_event(&mut self, who: u32, flags: EventFlags) -> Result<Handle, Refusal>
        ensures { IsCalled (dispatcher self.old) who (Call.Act (Act.CreateEvent flags))
            (created_reply result) (dispatcher self.new) };

    /// CreateSemaphore. Answers the semaphore's handle.
    fn create_semaphore(&mut self, who: u32, initial: i32, maximum: i32) -> Result<Handle, Refusal>
        ensures { IsCalled (dispatcher self.old) who (Call.Act (Act.CreateSemaphore initial maximum))
            (created_reply result) (dispatcher self.new) };

    /// CreateMutex, with the flags of CreateMutexEx. Answers the mutex's handle.
    fn create_mutex(&mut self, who: u32, flags: MutexFlags) -> Result<Handle, Refusal>
        ensures { IsCalled (dispatcher self.old) who (Call.Act (Act.CreateMutex flags))
            (created_reply result) (dispatcher self.new) };

    /// CreateWaitableTimer, with the flags of CreateWaitableTimerEx. Answers the timer's handle.
    fn create_timer(&mut self, who: u32, flags: TimerFlags) -> Result<Handle, Refusal>
        ensures { IsCalled (dispatcher self.old) who (Call.Act (Act.CreateTimer flags))
            (created_reply result) (dispatcher self.new) };

    /// SetEvent.
    fn set_event(&mut self, who: u32, event: Handle) -> Result<(), Refusal>
        ensures { IsCalled (dispatcher self.old) who (Call.Act (Act.SetEvent event))
            (done_reply result) (dispatcher self.new) };

    /// ResetEvent.
    fn reset_event(&mut self, who: u32, event: Handle) -> Result<(), Refusal>
        ensures { IsCalled (dispatcher self.old) who (Call.Act (Act.ResetEvent event))
            (done_reply result) (dispatcher self.new) };

    /// PulseEvent.
    fn pulse_event(&mut self, who: u32, event: Handle) -> Result<(), Refusal>
        ensures { IsCalled (dispatcher self.old) who (Call.Act (Act.PulseEvent event))
            (done_reply result) (dispatcher self.new) };

    /// ReleaseSemaphore. Answers the count before.
    fn release_semaphore(&mut self, who: u32, semaphore: Handle, count: i32) -> Result<i32, Refusal>
        ensures { IsCalled (dispatcher self.old) who (Call.Act (Act.ReleaseSemaphore semaphore count))
            (previous_reply result) (dispatcher self.new) };

    /// ReleaseMutex.
    fn release_mutex(&mut self, who: u32, mutex: Handle) -> Result<(), Refusal>
        ensures { IsCalled (dispatcher self.old) who (Call.Act (Act.ReleaseMutex mutex))
            (done_reply result) (dispatcher self.new) };

    /// SetWaitableTimer. The due time is a moment, or from now on if it is negative, in units of 100 ns; the period is in milliseconds, 0
    /// for none. The routine, with its argument, is queued to the caller when the timer expires.
    fn set_timer(
        &mut self,
        who: u32,
        timer: Handle,
        due: i64,
        period: i32,
        routine: Option<(u64, u64)>,
    ) -> Result<(), Refusal>
        ensures { IsCalled (dispatcher self.old) who (Call.Act (Act.SetTimer timer due period routine))
            (done_reply result) (dispatcher self.new) };

    /// CancelWaitableTimer.
    fn cancel_timer(&mut self, who: u32, timer: Handle) -> Result<(), Refusal>
        ensures { IsCalled (dispatcher self.old) who (Call.Act (Act.CancelTimer timer))
            (done_reply result) (dispatcher self.new) };

    /// QueueUserAPC, to the thread that the handle names.
    fn queue_apc(&mut self, who: u32, thread: Handle, routine: u64, arg: u64) -> Result<(), Refusal>
        ensures { IsCalled (dispatcher self.old) who (Call.Act (Act.QueueApc thread routine arg))
            (done_reply result) (dispatcher self.new) };

    /// Takes the caller's oldest APC, if its last ended wait ended for its APCs and it has not found none since. Answers none if there is
    /// none to take.
    fn next_apc(&mut self, who: u32) -> Result<Option<Apc>, Refusal>
        ensures { IsCalled (dispatcher self.old) who (Call.Act Act.NextApc)
            (apc_reply result) (dispatcher self.new) };

    /// DuplicateHandle: answers one handle more for what this one names, with these rights, none of which the first may lack.
    fn duplicate(&mut self, who: u32, handle: Handle, access: Access) -> Result<Handle, Refusal>
        ensures { IsCalled (dispatcher self.old) who (Call.Act (Act.Duplicate handle access))
            (created_reply result) (dispatcher self.new) };

    /// CloseHandle: the handle no longer names anything, and no other gets its number.
    fn close(&mut self, who: u32, handle: Handle) -> Result<(), Refusal>
        ensures { IsCalled (dispatcher self.old) who (Call.Act (Act.Close handle))
            (done_reply result) (dispatcher self.new) };

    /// WaitForSingleObjectEx.
    fn wait_one(
        &mut self,
        who: u32,
        handle: Handle,
        timeout: Timeout,
        alertable: bool,
    ) -> Result<Began, Refusal>
        ensures { IsCalled (dispatcher self.old) who
            (Call.Wait (WaitCall.Objects false (record { ms = timeout; alertable = alertable }) (handle ∷ [])))
            (began_reply result) (dispatcher self.new) };

    /// WaitForMultipleObjectsEx, for any of the objects. It takes no list of the handles.
    fn wait_any(
        &mut self,
        who: u32,
        handles: &[Handle],
        timeout: Timeout,
        alertable: bool,
    ) -> Result<Began, Refusal>
        ensures { IsCalled (dispatcher self.old) who
            (Call.Wait (WaitCall.Objects false (record { ms = timeout; alertable = alertable }) handles.now))
            (began_reply result) (dispatcher self.new) };

    /// WaitForMultipleObjectsEx, for all of the objects. It takes no list of the handles.
    fn wait_all(
        &mut self,
        who: u32,
        handles: &[Handle],
        timeout: Timeout,
        alertable: bool,
    ) -> Result<Began, Refusal>
        ensures { IsCalled (dispatcher self.old) who
            (Call.Wait (WaitCall.Objects true (record { ms = timeout; alertable = alertable }) handles.now))
            (began_reply result) (dispatcher self.new) };

    /// SleepEx.
    fn sleep(&mut self, who: u32, timeout: Timeout, alertable: bool) -> Result<Began, Refusal>
        ensures { IsCalled (dispatcher self.old) who
            (Call.Wait (WaitCall.Sleep (record { ms = timeout; alertable = alertable })))
            (began_reply result) (dispatcher self.new) };

    /// SignalObjectAndWait: signals one object, and waits for the other, or for the same.
    fn signal_and_wait(
        &mut self,
        who: u32,
        signal: Handle,
        object: Handle,
        timeout: Timeout,
        alertable: bool,
    ) -> Result<Began, Refusal>
        ensures { IsCalled (dispatcher self.old) who
            (Call.Wait (WaitCall.Swap signal object (record { ms = timeout; alertable = alertable })))
            (began_reply result) (dispatcher self.new) };

    /// The calling thread ends.
    fn exit(&mut self, who: u32) -> Result<(), Refusal>
        ensures { IsCalled (dispatcher self.old) who Call.Exit
            (done_reply result) (dispatcher self.new) };

    /// Lets all moments up to this one pass, as `Core::tick` does. Refused with `MomentBack` if it is before the present moment.
    fn tick_to(&mut self, moment: Moment) -> Result<(), Refusal>
        ensures { IsTicked (dispatcher self.old) moment (done_reply result) (dispatcher self.new) };
}
