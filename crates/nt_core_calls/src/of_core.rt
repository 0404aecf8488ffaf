//! The calls of a `Core`.
use crate::calls::Calls;
use crate::making::{
    make_apc, make_done, make_exit, make_handle, make_previous, make_tick, make_wait, wait_for,
};
use nt_answers::{Apc, Began, Timeout};
use nt_core::{Act, Core, WaitCall};
use nt_status::{Access, EventFlags, Handle, Moment, MutexFlags, Refusal, TimerFlags};

impl Calls for Core {
    ghost dispatcher = { λ core. core };

    fn create_event(&mut self, who: u32, flags: EventFlags) -> Result<Handle, Refusal> {
        make_handle(self, who, Act::create_event(flags))
    }

    fn create_semaphore(
        &mut self,
        who: u32,
        initial: i32,
        maximum: i32,
    ) -> Result<Handle, Refusal> {
        make_handle(self, who, Act::CreateSemaphore { initial, maximum })
    }

    fn create_mutex(&mut self, who: u32, flags: MutexFlags) -> Result<Handle, Refusal> {
        make_handle(self, who, Act::create_mutex(flags))
    }

    fn create_timer(&mut self, who: u32, flags: TimerFlags) -> Result<Handle, Refusal> {
        make_handle(self, who, Act::create_timer(flags))
    }

    fn set_event(&mut self, who: u32, event: Handle) -> Result<(), Refusal> {
        make_done(self, who, Act::SetEvent(event))
    }

    fn reset_event(&mut self, who: u32, event: Handle) -> Result<(), Refusal> {
        make_done(self, who, Act::ResetEvent(event))
    }

    fn pulse_event(&mut self, who: u32, event: Handle) -> Result<(), Refusal> {
        make_done(self, who, Act::PulseEvent(event))
    }

    fn release_semaphore(
        &mut self,
        who: u32,
        semaphore: Handle,
        count: i32,
    ) -> Result<i32, Refusal> {
        make_previous(self, who, semaphore, count)
    }

    fn release_mutex(&mut self, who: u32, mutex: Handle) -> Result<(), Refusal> {
        make_done(self, who, Act::ReleaseMutex(mutex))
    }

    fn set_timer(
        &mut self,
        who: u32,
        timer: Handle,
        due: i64,
        period: i32,
        routine: Option<(u64, u64)>,
    ) -> Result<(), Refusal> {
        let act = Act::SetTimer {
            timer,
            due,
            period,
            routine,
        };
        make_done(self, who, act)
    }

    fn cancel_timer(&mut self, who: u32, timer: Handle) -> Result<(), Refusal> {
        make_done(self, who, Act::CancelTimer(timer))
    }

    fn queue_apc(
        &mut self,
        who: u32,
        thread: Handle,
        routine: u64,
        arg: u64,
    ) -> Result<(), Refusal> {
        let act = Act::QueueApc {
            thread,
            routine,
            arg,
        };
        make_done(self, who, act)
    }

    fn next_apc(&mut self, who: u32) -> Result<Option<Apc>, Refusal> {
        make_apc(self, who)
    }

    fn duplicate(&mut self, who: u32, handle: Handle, access: Access) -> Result<Handle, Refusal> {
        make_handle(self, who, Act::duplicate(handle, access))
    }

    fn close(&mut self, who: u32, handle: Handle) -> Result<(), Refusal> {
        make_done(self, who, Act::Close(handle))
    }

    fn wait_one(
        &mut self,
        who: u32,
        handle: Handle,
        timeout: Timeout,
        alertable: bool,
    ) -> Result<Began, Refusal> {
        wait_for(self, who, &[handle], false, timeout.mode(alertable))
    }

    fn wait_any(
        &mut self,
        who: u32,
        handles: &[Handle],
        timeout: Timeout,
        alertable: bool,
    ) -> Result<Began, Refusal> {
        wait_for(self, who, handles, false, timeout.mode(alertable))
    }

    fn wait_all(
        &mut self,
        who: u32,
        handles: &[Handle],
        timeout: Timeout,
        alertable: bool,
    ) -> Result<Began, Refusal> {
        wait_for(self, who, handles, true, timeout.mode(alertable))
    }

    fn sleep(&mut self, who: u32, timeout: Timeout, alertable: bool) -> Result<Began, Refusal> {
        make_wait(self, who, WaitCall::Sleep(timeout.mode(alertable)))
    }

    fn signal_and_wait(
        &mut self,
        who: u32,
        signal: Handle,
        object: Handle,
        timeout: Timeout,
        alertable: bool,
    ) -> Result<Began, Refusal> {
        let wait = WaitCall::Swap {
            signal,
            object,
            mode: timeout.mode(alertable),
        };
        make_wait(self, who, wait)
    }

    fn exit(&mut self, who: u32) -> Result<(), Refusal> {
        make_exit(self, who)
    }

    fn tick_to(&mut self, moment: Moment) -> Result<(), Refusal> {
        make_tick(self, moment)
    }
}
