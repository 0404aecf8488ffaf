//! The threads start, one after another, and the clock runs beside them.
use crate::clock::tick_along;
use crate::fault::FrontExampleFault;
use crate::host::Host;
use crate::shared::Shared;
use crate::work::{ThreadResult, live};
use nt_front::{Carried, Front, Held, Named, Pass};
use nt_front_calls::{Calls, Refused};
use std::thread::{self, JoinHandle, Scope};

/// A thread that was started, or what it brought back where no thread could be made and this one lived its life.
#[derive(Drop)]
enum Started<N: Named> {
    Runs(JoinHandle<ThreadResult<N>>),
    Lived(ThreadResult<N>),
}

impl<N: Named + Send> Started<N> {
    fn join(self, rt: &impl Host) -> ThreadResult<N> {
        match self {
            Started::Runs(child) => child.join(rt),
            Started::Lived(back) => back,
        }
    }
}

/// Starts a thread. Where none can be made, this thread sets the event that stops all, and does the new thread's work
/// itself, which is short then.
fn start<'s, 'e: 's, N: Named + Send + Sync + 'e, R: Host>(
    scope: &'s Scope<'s, &'e ()>,
    front: &'e Front<N>,
    rt: &'e R,
    clock: &mut Pass<N>,
    carried: Carried<Pass<N>>,
    shared: &'e Shared,
) -> Started<N> {
    match scope.spawn(move || live(front, rt, carried, shared)) {
        Ok(child) => Started::Runs(child),
        Err(refused) => {
            let _ = Calls::of(front, rt).set_event(clock, shared.stop);
            let back = (refused.value)();
            Started::Lived(back.in_vain())
        }
    }
}

/// The passes of the other threads.
#[derive(Drop)]
pub struct Others<N: Named> {
    pub one: Carried<Pass<N>>,
    pub two: Carried<Pass<N>>,
    pub three: Carried<Pass<N>>,
}

/// What the clock and the three others bring back.
#[derive(Drop)]
pub struct AllResults<N: Named> {
    pub clock: Carried<Held<N>>,
    pub ticked: Result<(), FrontExampleFault>,
    pub one: ThreadResult<N>,
    pub two: ThreadResult<N>,
    pub three: ThreadResult<N>,
}

/// Starts the threads of these passes, and ticks until they have ended.
fn start_in<'s, 'e: 's, N: Named + Send + Sync + 'e, R: Host>(
    scope: &'s Scope<'s, &'e ()>,
    front: &'e Front<N>,
    rt: &'e R,
    clock: Pass<N>,
    others: Others<N>,
    shared: &'e Shared,
) -> AllResults<N> {
    let mut clock = clock;
    let Others { one, two, three } = others;
    let three = start(scope, front, rt, &mut clock, three, shared);
    let two = start(scope, front, rt, &mut clock, two, shared);
    let one = start(scope, front, rt, &mut clock, one, shared);
    let (clock, ticked) = tick_along(front, rt, clock, shared);
    AllResults {
        clock: Carried { hold: clock },
        ticked,
        one: one.join(rt),
        two: two.join(rt),
        three: three.join(rt),
    }
}

/// Makes the objects, has the threads of these passes run, and returns once all have ended.
pub fn run_threads<N: Named + Send + Sync, R: Host>(
    front: &Front<N>,
    rt: &R,
    clock: Carried<Pass<N>>,
    others: Others<N>,
) -> Result<AllResults<N>, Refused> {
    let mut pass = clock.into_hold();
    let created = Shared::create(&Calls::of(front, rt), &mut pass);
    let clock = Carried { hold: pass };
    let shared = created?;
    Ok(start_all(front, rt, clock, others, &shared))
}

/// Starts the threads, and returns once all have ended.
fn start_all<N: Named + Send + Sync, R: Host>(
    front: &Front<N>,
    rt: &R,
    clock: Carried<Pass<N>>,
    others: Others<N>,
    shared: &Shared,
) -> AllResults<N> {
    thread::scope(thread::scope_env(), rt, move |scope| {
        start_in(scope, front, rt, clock.into_hold(), others, shared)
    })
}
