//! What the threads do: thread 1 hands out work, and the others do it, one that sleeps meanwhile and one that polls.
use crate::fault::FrontExampleFault;
use crate::host::Host;
use crate::shared::{PIECES, Shared};
use nt_front::{Carried, Front, Held, Named, Pass, Sleeper};
use nt_front_calls::{Began, Calls, Polled, Refused, Timeout};
use nt_status::{Handle, Refusal, Status};

/// What a thread brings back: what it holds at its end, and how many pieces of work it did.
#[derive(Drop)]
pub struct ThreadResult<N: Named> {
    pub held: Carried<Held<N>>,
    pub done: Result<u32, FrontExampleFault>,
}

impl<N: Named> ThreadResult<N> {
    /// The same, of a thread that was to run beside the others and could not.
    pub fn in_vain(self) -> ThreadResult<N> {
        let ThreadResult { held, done: _ } = self;
        ThreadResult {
            held,
            done: Err(FrontExampleFault::Refused(Refusal::Memory)),
        }
    }

    pub fn into_held(self) -> Held<N> {
        let ThreadResult { held, done: _ } = self;
        held.into_hold()
    }
}

/// A thread, from its first call to its end.
pub fn live<N: Named, R: Host>(
    front: &Front<N>,
    rt: &R,
    carried: Carried<Pass<N>>,
    shared: &Shared,
) -> ThreadResult<N> {
    let calls = Calls::of(front, rt);
    let pass = carried.into_hold();
    let (pass, done) = match pass.thread().get() {
        1 => lead(&calls, pass, shared),
        2 => follow(&calls, pass, shared),
        _ => follow_by_polls(&calls, pass, shared),
    };
    let (hold, ended) = calls.exit(pass);
    ThreadResult {
        held: Carried { hold },
        done: told(ended.and(done)),
    }
}

fn told(done: Result<u32, Refused>) -> Result<u32, FrontExampleFault> {
    Ok(done?)
}

/// Hands out a piece of work each time the timer expires, and then tells all to stop.
fn lead<N: Named, R: Host>(
    calls: &Calls<'_, '_, N, R>,
    pass: Pass<N>,
    shared: &Shared,
) -> (Pass<N>, Result<u32, Refused>) {
    let (mut pass, handed_out) = hand_out(calls, pass, shared);
    let stopped = calls.set_event(&mut pass, shared.stop);
    (pass, stopped.and(handed_out))
}

fn hand_out<N: Named, R: Host>(
    calls: &Calls<'_, '_, N, R>,
    pass: Pass<N>,
    shared: &Shared,
) -> (Pass<N>, Result<u32, Refused>) {
    let mut pass = pass;
    for _ in 0..PIECES {
        let objects = [shared.timer, shared.stop];
        let (back, ended) = calls.wait_any(pass, &objects, Timeout::INFINITE, false);
        pass = back;
        match ended {
            Ok(end) if end.status.index() == Some(0) => {}
            Ok(_) => return (pass, Ok(0)),
            Err(refused) => return (pass, Err(refused)),
        }
        if let Err(refused) = calls.release_semaphore(&mut pass, shared.work, 1) {
            return (pass, Err(refused));
        }
    }
    (pass, Ok(0))
}

/// Does work until the stop event is set, and sleeps while there is none.
fn follow<N: Named, R: Host>(
    calls: &Calls<'_, '_, N, R>,
    pass: Pass<N>,
    shared: &Shared,
) -> (Pass<N>, Result<u32, Refused>) {
    let mut pass = pass;
    for done in 0..u32::MAX {
        let objects = [shared.work, shared.stop];
        let (back, ended) = calls.wait_any(pass, &objects, Timeout::INFINITE, false);
        pass = back;
        match ended {
            Ok(end) if end.status.index() == Some(0) => {}
            Ok(_) => return (pass, Ok(done)),
            Err(refused) => return (pass, Err(refused)),
        }
    }
    (pass, Ok(u32::MAX))
}

/// Does work until the stop event is set, and polls while there is none.
fn follow_by_polls<N: Named, R: Host>(
    calls: &Calls<'_, '_, N, R>,
    pass: Pass<N>,
    shared: &Shared,
) -> (Pass<N>, Result<u32, Refused>) {
    let mut pass = pass;
    for done in 0..u32::MAX {
        let (back, ended) = poll_any(calls, pass, &[shared.work, shared.stop]);
        pass = back;
        match ended {
            Ok(status) if status.index() == Some(0) => {}
            Ok(_) => return (pass, Ok(done)),
            Err(refused) => return (pass, Err(refused)),
        }
    }
    (pass, Ok(u32::MAX))
}

/// Waits for any of these, and polls until the wait is granted.
fn poll_any<N: Named, R: Host>(
    calls: &Calls<'_, '_, N, R>,
    pass: Pass<N>,
    handles: &[Handle],
) -> (Pass<N>, Result<Status, Refused>) {
    match calls.begin_any(pass, handles, Timeout::INFINITE, false) {
        Began::Ended(pass, told) => (pass, Ok(told.answer)),
        Began::Refused(pass, refused) => (pass, Err(refused)),
        Began::Pended(sleeper, _) => {
            let (pass, status) = poll_until_granted(calls, sleeper);
            (pass, Ok(status))
        }
    }
}

/// Polls; what else the thread has to do stands between two polls.
fn poll_until_granted<N: Named, R: Host>(
    calls: &Calls<'_, '_, N, R>,
    sleeper: Sleeper<N>,
) -> (Pass<N>, Status) {
    let mut sleeper = sleeper;
    for _ in 0..u64::MAX {
        match calls.poll(sleeper) {
            Polled::Ready(pass, told) => return (pass, told.answer),
            Polled::Still(still) => sleeper = still,
        }
    }
    let (pass, told) = calls.await_grant(sleeper);
    (pass, told.answer)
}
