//! What a thread of a front asks for by name, as data, and the call that it is.
ghost use Rattle.std.specs.Prelude.{◌≤◌};

use crate::front::says::{
    FrontAnswer, Said, said_apc, said_done, said_end, said_handle, said_previous,
};
use nt_front::{Held, Named, Pass, Sleeper};
use nt_front_calls::{Began, Calls, Polled, Refused, Timeout, Told, WaitEnd};
use nt_status::{Access, EventFlags, Handle, Moment, MutexFlags, TimerFlags};
use std::alloc::{Alloc, Global};
use std::sync::Wait;

/// A call that answers a handle.
#[derive(Clone, Copy)]
pub enum Makes {
    Event,
    Semaphore(i32, i32),
    OwnedMutex,
    Timer,
    /// One handle more, which may only be waited for.
    ToWait(u32),
    /// One handle more, by which the object may be changed.
    ToModify(u32),
}

/// A call that has nothing to tell.
#[derive(Clone, Copy)]
pub enum Does {
    Set(u32),
    Reset(u32),
    Pulse(u32),
    ReleaseMutex(u32),
    /// By handle, with the due time and the period.
    SetTimer(u32, i64, i32),
    CancelTimer(u32),
    /// To the thread of this handle, with the routine and its argument.
    QueueApc(u32, u64, u64),
    Close(u32),
    TickTo(u64),
}

/// What is waited for.
#[derive(Clone, Copy)]
pub enum Waits {
    One(u32),
    Any(&'static [u32]),
    All(&'static [u32]),
    Sleep,
    /// One is signaled, and the other waited for.
    Swap(u32, u32),
}

/// What a thread asks for: a wait with its milliseconds, and whether it is alertable.
#[derive(Clone, Copy)]
pub enum FrontRequest {
    Make(Makes),
    Do(Does),
    Release(u32, i32),
    NextApc,
    Wait(Waits, u32, bool),
    Begin(Waits, u32, bool),
    Poll,
    Await,
    Exit,
    /// Of an ended thread: to begin again. No call by name.
    BeginAgain,
    /// A part of the journal. No call by name.
    Part,
    /// The moment. No call by name.
    Now,
}

/// Which of two threads asks for what, under which number that is written, or 0, and what it is to be answered.
#[derive(Clone, Copy)]
pub struct Row(pub u32, pub FrontRequest, pub u64, pub FrontAnswer);

/// The handles of a list of up to five, and how many they are.
fn listed(numbers: &[u32]) -> ([Handle; 5], usize)
    ensures { result.1 ≤ 5 }
{
    let mut handles = [Handle::new(0); 5];
    let count = numbers.len().min(5);
    for i in 0..count {
        handles[i] = Handle::new(numbers[i]);
    }
    (handles, count)
}

fn make<N: Named, R: Wait>(
    calls: &Calls<'_, '_, N, R>,
    pass: &mut Pass<N>,
    makes: Makes,
) -> Result<Told<Handle>, Refused> {
    match makes {
        Makes::Event => calls.create_event(pass, EventFlags::NONE),
        Makes::Semaphore(initial, maximum) => calls.create_semaphore(pass, initial, maximum),
        Makes::OwnedMutex => calls.create_mutex(pass, MutexFlags::INITIAL_OWNER),
        Makes::Timer => calls.create_timer(pass, TimerFlags::NONE),
        Makes::ToWait(handle) => calls.duplicate(pass, Handle::new(handle), Access::SYNCHRONIZE),
        Makes::ToModify(handle) => calls.duplicate(pass, Handle::new(handle), Access::MODIFY_STATE),
    }
}

fn carry_out<N: Named, R: Wait>(
    calls: &Calls<'_, '_, N, R>,
    pass: &mut Pass<N>,
    does: Does,
) -> Result<Told<()>, Refused> {
    match does {
        Does::Set(event) => calls.set_event(pass, Handle::new(event)),
        Does::Reset(event) => calls.reset_event(pass, Handle::new(event)),
        Does::Pulse(event) => calls.pulse_event(pass, Handle::new(event)),
        Does::ReleaseMutex(mutex) => calls.release_mutex(pass, Handle::new(mutex)),
        Does::SetTimer(timer, due, period) => {
            calls.set_timer(pass, Handle::new(timer), due, period, None)
        }
        Does::CancelTimer(timer) => calls.cancel_timer(pass, Handle::new(timer)),
        Does::QueueApc(thread, routine, arg) => {
            calls.queue_apc(pass, Handle::new(thread), routine, arg)
        }
        Does::Close(handle) => calls.close(pass, Handle::new(handle)),
        Does::TickTo(units) => calls.tick_to(pass, Moment::new(units).unwrap_or(Moment::ZERO)),
    }
}

fn wait<N: Named, R: Wait + Alloc<A = Global>>(
    calls: &Calls<'_, '_, N, R>,
    pass: Pass<N>,
    waits: Waits,
    timeout: Timeout,
    alertable: bool,
) -> (Pass<N>, Result<WaitEnd, Refused>) {
    match waits {
        Waits::One(object) => calls.wait_one(pass, Handle::new(object), timeout, alertable),
        Waits::Any(objects) => {
            let (handles, count) = listed(objects);
            calls.wait_any(pass, &handles[..count], timeout, alertable)
        }
        Waits::All(objects) => {
            let (handles, count) = listed(objects);
            calls.wait_all(pass, &handles[..count], timeout, alertable)
        }
        Waits::Sleep => calls.sleep(pass, timeout, alertable),
        Waits::Swap(signal, object) => {
            let (signal, object) = (Handle::new(signal), Handle::new(object));
            calls.signal_and_wait(pass, signal, object, timeout, alertable)
        }
    }
}

fn begin<N: Named, R: Wait + Alloc<A = Global>>(
    calls: &Calls<'_, '_, N, R>,
    pass: Pass<N>,
    waits: Waits,
    timeout: Timeout,
    alertable: bool,
) -> Began<N> {
    match waits {
        Waits::One(object) => calls.begin_one(pass, Handle::new(object), timeout, alertable),
        Waits::Any(objects) => {
            let (handles, count) = listed(objects);
            calls.begin_any(pass, &handles[..count], timeout, alertable)
        }
        Waits::All(objects) => {
            let (handles, count) = listed(objects);
            calls.begin_all(pass, &handles[..count], timeout, alertable)
        }
        Waits::Sleep => calls.begin_sleep(pass, timeout, alertable),
        Waits::Swap(signal, object) => {
            let (signal, object) = (Handle::new(signal), Handle::new(object));
            calls.signal_and_begin(pass, signal, object, timeout, alertable)
        }
    }
}

/// What a thread that has its pass is answered, and what it holds then.
fn ask_by_pass<N: Named, R: Wait + Alloc<A = Global>>(
    calls: &Calls<'_, '_, N, R>,
    mut pass: Pass<N>,
    ask: FrontRequest,
) -> (Held<N>, Said) {
    let said = match ask {
        FrontRequest::Make(makes) => said_handle(make(calls, &mut pass, makes)),
        FrontRequest::Do(does) => said_done(carry_out(calls, &mut pass, does)),
        FrontRequest::Release(semaphore, count) => {
            let semaphore = Handle::new(semaphore);
            said_previous(calls.release_semaphore(&mut pass, semaphore, count))
        }
        FrontRequest::NextApc => said_apc(calls.next_apc(&mut pass)),
        FrontRequest::Wait(waits, ms, alertable) => {
            let (pass, ended) = wait(calls, pass, waits, Timeout::from_ms(ms), alertable);
            return (Held::Pass(pass), said_end(ended));
        }
        FrontRequest::Begin(waits, ms, alertable) => {
            return held_after(begin(calls, pass, waits, Timeout::from_ms(ms), alertable));
        }
        FrontRequest::Exit => {
            let (held, ended) = calls.exit(pass);
            return (held, said_done(ended));
        }
        FrontRequest::Poll
        | FrontRequest::Await
        | FrontRequest::BeginAgain
        | FrontRequest::Part
        | FrontRequest::Now => Said::NOTHING,
    };
    (Held::Pass(pass), said)
}

/// What a thread holds whose wait began so, and what it was answered.
fn held_after<N: Named>(began: Began<N>) -> (Held<N>, Said) {
    match began {
        Began::Ended(pass, told) => (Held::Pass(pass), Said::ended(told)),
        Began::Pended(sleeper, entry) => (Held::Sleeping(sleeper), Said::pended(entry)),
        Began::Refused(pass, refused) => (Held::Pass(pass), Said::refused(refused)),
    }
}

/// What a thread that waits is answered, and what it holds then.
fn ask_asleep<N: Named, R: Wait + Alloc<A = Global>>(
    calls: &Calls<'_, '_, N, R>,
    sleeper: Sleeper<N>,
    ask: FrontRequest,
) -> (Held<N>, Said) {
    match ask {
        FrontRequest::Poll => match calls.poll(sleeper) {
            Polled::Ready(pass, told) => (Held::Pass(pass), Said::ended(told)),
            Polled::Still(sleeper) => (Held::Sleeping(sleeper), Said::STILL),
        },
        FrontRequest::Await => {
            let (pass, told) = calls.await_grant(sleeper);
            (Held::Pass(pass), Said::ended(told))
        }
        _ => (Held::Sleeping(sleeper), Said::NOTHING),
    }
}

/// What a thread is answered, and what it holds then.
pub fn ask_for<N: Named, R: Wait + Alloc<A = Global>>(
    calls: &Calls<'_, '_, N, R>,
    held: Held<N>,
    ask: FrontRequest,
) -> (Held<N>, Said) {
    match held {
        Held::Pass(pass) => ask_by_pass(calls, pass, ask),
        Held::Sleeping(sleeper) => ask_asleep(calls, sleeper, ask),
        Held::Ended(ended) => (Held::Ended(ended), Said::NOTHING),
    }
}
