//! The calls that return at once: on handles and threads, events, mutexes, semaphores, timers and APCs.
ghost use Rattle.std.specs.Prelude.{None, Some};
ghost use Rattle.nt_calls.specs.declared.call.Act.{Act};
ghost use Rattle.nt_calls.specs.declared.call.Call.{Call};
ghost use Rattle.nt_c.specs.Asks.{Acts, AnswersCall};

use crate::handle::Nt;
use crate::reply::{NtReply, tell};
use nt_core::{Act, Call};
use nt_status::Handle;

impl Nt {
    /// Has this thread do the act, and tells C what is answered.
    #[inline(always)]
    fn act(&mut self, who: u32, act: Act, out: &mut NtReply) -> u32
        ensures answers { Acts self.old who act result out.old out.new self.new }
    {
        tell(self.ask(who, &Call::Act(act)), out)
    }
}

/// DuplicateHandle: one handle more for what this one names, with these rights, none of which the first may lack.
#[unsafe(no_mangle)]
pub extern "C" fn nt_duplicate(
    nt: &mut Nt,
    who: u32,
    handle: u32,
    access: u32,
    out: &mut NtReply,
) -> u32
    ensures answers { Acts nt.old who (Act.Duplicate handle access) result out.old out.new nt.new }
{
    let act = Act::Duplicate {
        handle: Handle::new(handle),
        access,
    };
    nt.act(who, act, out)
}

/// CloseHandle: the handle no longer names anything, and no other gets its number, unless the dispatcher gives numbers again.
#[unsafe(no_mangle)]
pub extern "C" fn nt_close_handle(nt: &mut Nt, who: u32, handle: u32, out: &mut NtReply) -> u32
    ensures answers { Acts nt.old who (Act.Close handle) result out.old out.new nt.new }
{
    nt.act(who, Act::Close(Handle::new(handle)), out)
}

/// ExitThread: the calling thread ends.
#[unsafe(no_mangle)]
pub extern "C" fn nt_exit(nt: &mut Nt, who: u32, out: &mut NtReply) -> u32
    ensures answers { AnswersCall nt.old who Call.Exit result out.old out.new nt.new }
{
    tell(nt.ask(who, &Call::Exit), out)
}

/// CreateEvent, with the flags of CreateEventEx: 1 manual reset, 2 set at first. It answers the event's handle.
#[unsafe(no_mangle)]
pub extern "C" fn nt_create_event(nt: &mut Nt, who: u32, flags: u32, out: &mut NtReply) -> u32
    ensures answers { Acts nt.old who (Act.CreateEvent flags) result out.old out.new nt.new }
{
    nt.act(who, Act::CreateEvent(flags), out)
}

/// SetEvent.
#[unsafe(no_mangle)]
pub extern "C" fn nt_set_event(nt: &mut Nt, who: u32, event: u32, out: &mut NtReply) -> u32
    ensures answers { Acts nt.old who (Act.SetEvent event) result out.old out.new nt.new }
{
    nt.act(who, Act::SetEvent(Handle::new(event)), out)
}

/// ResetEvent.
#[unsafe(no_mangle)]
pub extern "C" fn nt_reset_event(nt: &mut Nt, who: u32, event: u32, out: &mut NtReply) -> u32
    ensures answers { Acts nt.old who (Act.ResetEvent event) result out.old out.new nt.new }
{
    nt.act(who, Act::ResetEvent(Handle::new(event)), out)
}

/// PulseEvent.
#[unsafe(no_mangle)]
pub extern "C" fn nt_pulse_event(nt: &mut Nt, who: u32, event: u32, out: &mut NtReply) -> u32
    ensures answers { Acts nt.old who (Act.PulseEvent event) result out.old out.new nt.new }
{
    nt.act(who, Act::PulseEvent(Handle::new(event)), out)
}

/// CreateMutex, with the flag of CreateMutexEx: 1 owned by the caller. It answers the mutex's handle.
#[unsafe(no_mangle)]
pub extern "C" fn nt_create_mutex(nt: &mut Nt, who: u32, flags: u32, out: &mut NtReply) -> u32
    ensures answers { Acts nt.old who (Act.CreateMutex flags) result out.old out.new nt.new }
{
    nt.act(who, Act::CreateMutex(flags), out)
}

/// ReleaseMutex.
#[unsafe(no_mangle)]
pub extern "C" fn nt_release_mutex(nt: &mut Nt, who: u32, mutex: u32, out: &mut NtReply) -> u32
    ensures answers { Acts nt.old who (Act.ReleaseMutex mutex) result out.old out.new nt.new }
{
    nt.act(who, Act::ReleaseMutex(Handle::new(mutex)), out)
}

/// CreateSemaphore. It answers the semaphore's handle.
#[unsafe(no_mangle)]
pub extern "C" fn nt_create_semaphore(
    nt: &mut Nt,
    who: u32,
    initial: i32,
    maximum: i32,
    out: &mut NtReply,
) -> u32
    ensures answers { Acts nt.old who (Act.CreateSemaphore initial maximum) result out.old out.new nt.new }
{
    nt.act(who, Act::CreateSemaphore { initial, maximum }, out)
}

/// ReleaseSemaphore. It answers the count before.
#[unsafe(no_mangle)]
pub extern "C" fn nt_release_semaphore(
    nt: &mut Nt,
    who: u32,
    semaphore: u32,
    count: i32,
    out: &mut NtReply,
) -> u32
    ensures answers { Acts nt.old who (Act.ReleaseSemaphore semaphore count) result out.old out.new nt.new }
{
    let act = Act::ReleaseSemaphore {
        semaphore: Handle::new(semaphore),
        count,
    };
    nt.act(who, act, out)
}

/// CreateWaitableTimer, with the flag of CreateWaitableTimerEx: 1 manual reset. It answers the timer's handle.
#[unsafe(no_mangle)]
pub extern "C" fn nt_create_timer(nt: &mut Nt, who: u32, flags: u32, out: &mut NtReply) -> u32
    ensures answers { Acts nt.old who (Act.CreateTimer flags) result out.old out.new nt.new }
{
    nt.act(who, Act::CreateTimer(flags), out)
}

/// SetWaitableTimer with no routine. The due time is a moment, or from now on where it is negative, in units of 100 ns; the period is in
/// milliseconds, 0 for none.
#[unsafe(no_mangle)]
pub extern "C" fn nt_set_timer(
    nt: &mut Nt,
    who: u32,
    timer: u32,
    due: i64,
    period: i32,
    out: &mut NtReply,
) -> u32
    ensures answers { Acts nt.old who (Act.SetTimer timer due period None) result out.old out.new nt.new }
{
    let act = Act::SetTimer {
        timer: Handle::new(timer),
        due,
        period,
        routine: None,
    };
    nt.act(who, act, out)
}

/// SetWaitableTimer with a routine, which is queued to the caller with its argument when the timer expires.
#[unsafe(no_mangle)]
pub extern "C" fn nt_set_timer_apc(
    nt: &mut Nt,
    who: u32,
    timer: u32,
    due: i64,
    period: i32,
    routine: u64,
    arg: u64,
    out: &mut NtReply,
) -> u32
    ensures answers { Acts nt.old who
        (Act.SetTimer timer due period (Some (routine, arg))) result out.old out.new nt.new }
{
    let act = Act::SetTimer {
        timer: Handle::new(timer),
        due,
        period,
        routine: Some((routine, arg)),
    };
    nt.act(who, act, out)
}

/// CancelWaitableTimer.
#[unsafe(no_mangle)]
pub extern "C" fn nt_cancel_timer(nt: &mut Nt, who: u32, timer: u32, out: &mut NtReply) -> u32
    ensures answers { Acts nt.old who (Act.CancelTimer timer) result out.old out.new nt.new }
{
    nt.act(who, Act::CancelTimer(Handle::new(timer)), out)
}

/// QueueUserAPC, to the thread that the handle names.
#[unsafe(no_mangle)]
pub extern "C" fn nt_queue_apc(
    nt: &mut Nt,
    who: u32,
    thread: u32,
    routine: u64,
    arg: u64,
    out: &mut NtReply,
) -> u32
    ensures answers { Acts nt.old who (Act.QueueApc thread routine arg) result out.old out.new nt.new }
{
    let act = Act::QueueApc {
        thread: Handle::new(thread),
        routine,
        arg,
    };
    nt.act(who, act, out)
}

/// Takes the caller's oldest APC, where its last ended wait ended for its APCs and it has not found none since.
#[unsafe(no_mangle)]
pub extern "C" fn nt_next_apc(nt: &mut Nt, who: u32, out: &mut NtReply) -> u32
    ensures answers { Acts nt.old who Act.NextApc result out.old out.new nt.new }
{
    nt.act(who, Act::NextApc, out)
}
