//! Workers take a mutex, release a semaphore and release the mutex, as `ntrun threads` has them do.
ghost use Rattle.std.specs.Prelude.{◌≡◌, ◌+◌, ◌<◌, ◌≤◌, [], vec_len, vec_capacity};

use nt_core::Act;
use nt_front::{Carried, Exited, Front, Held, History, Named, Pass};
use nt_front_shapes::{Measurement, call, objects, wait, wait_for};
use nt_status::{Handle, INFINITE};
use std::alloc::Global;
use std::sync::Wait;
use std::thread::{self, Promise, Scope, Threads};

/// The objects of the plan.
#[derive(Clone, Copy)]
pub struct WorkerObjects {
    pub mutex: Handle,
    pub semaphore: Handle,
    pub start: Handle,
    pub workers: u32,
    pub rounds: u32,
    pub alloc: Global,
}

impl WorkerObjects {
    /// The handles after those of the threads, in the order of `create_all`.
    pub fn new(alloc: Global, workers: u32, rounds: u32) -> WorkerObjects {
        let threads = workers.wrapping_add(1);
        WorkerObjects {
            mutex: Handle::new(threads),
            semaphore: Handle::new(threads.wrapping_add(1)),
            start: Handle::new(threads.wrapping_add(2)),
            workers,
            rounds,
            alloc,
        }
    }
}

/// What a thread brings back.
#[derive(Drop)]
pub struct WorkerResult<N: Named> {
    pub held: Carried<Held<N>>,
    pub told: Measurement,
}

/// Of what comes back nothing is promised.
#[derive(Clone, Copy)]
pub struct NoPromise;

impl<N: Named> Promise<WorkerResult<N>> for NoPromise {
    ghost use Rattle.std.specs.Prelude.{◌≡◌};

    ghost kept_by = { λ p r. p ≡ p };
}

/// Ends the thread.
fn end<N: Named, R: Wait>(
    rt: &R,
    front: &Front<N>,
    pass: Pass<N>,
    mut told: Measurement,
) -> WorkerResult<N> {
    let hold = match front.exit(rt, pass) {
        Exited::Ended(ended, _) => Held::Ended(ended),
        Exited::NoRoom(pass) => {
            told.wrong();
            Held::Pass(pass)
        }
    };
    WorkerResult {
        held: Carried { hold },
        told,
    }
}

/// What a worker does, from the wait for the event to its end.
fn work<N: Named, R: Wait>(
    rt: &R,
    front: &Front<N>,
    carried: Carried<Pass<N>>,
    objects: &WorkerObjects,
) -> WorkerResult<N> {
    let mut told = Measurement::default();
    let mut pass = wait_for(
        rt,
        objects.alloc,
        front,
        carried.into_hold(),
        objects.start,
        &mut told,
    );
    for _ in 0..objects.rounds {
        pass = wait_for(rt, objects.alloc, front, pass, objects.mutex, &mut told);
        let semaphore = objects.semaphore;
        call(
            rt,
            front,
            &mut pass,
            Act::ReleaseSemaphore {
                semaphore,
                count: 1,
            },
            &mut told,
        );
        call(
            rt,
            front,
            &mut pass,
            Act::ReleaseMutex(objects.mutex),
            &mut told,
        );
    }
    end(rt, front, pass, told)
}

/// Creates the objects of the plan, in their order.
fn create_all<N: Named, R: Wait>(
    rt: &R,
    front: &Front<N>,
    pass: &mut Pass<N>,
    objects: &WorkerObjects,
    told: &mut Measurement,
) {
    call(rt, front, pass, Act::CreateMutex(0), told);
    let maximum = objects.workers.wrapping_mul(objects.rounds);
    let semaphore = Act::CreateSemaphore {
        initial: 0,
        maximum: i32::try_from(maximum).unwrap_or(i32::MAX),
    };
    call(rt, front, pass, semaphore, told);
    call(rt, front, pass, Act::CreateEvent(1), told);
}

/// Sets the event, waits for the ends of all workers, and ends the first thread.
fn lead<N: Named, R: Wait>(
    rt: &R,
    front: &Front<N>,
    carried: Carried<Pass<N>>,
    handles: &[Handle],
    objects_of: &WorkerObjects,
) -> WorkerResult<N> {
    let mut told = Measurement::default();
    let mut pass = carried.into_hold();
    call(
        rt,
        front,
        &mut pass,
        Act::SetEvent(objects_of.start),
        &mut told,
    );
    match objects(objects_of.alloc, handles, true, INFINITE) {
        Some(asked) => pass = wait(rt, front, pass, asked, &mut told),
        None => told.wrong(),
    }
    end(rt, front, pass, told)
}

/// Starts a thread for each of the carriers, and leads them.
fn start_each<'s, 'e: 's, N: Named + Send + Sync + 'e, R: Threads + Wait + Sync>(
    scope: &'s Scope<'s, &'e ()>,
    rt: &'e R,
    front: &'e Front<N>,
    first: Carried<Pass<N>>,
    mut carriers: Vec<Carried<Pass<N>>>,
    back: Vec<WorkerResult<N>>,
    handles: &'e [Handle],
    objects: &'e WorkerObjects,
) -> Vec<WorkerResult<N>>
    requires { vec_len back + vec_len carriers < vec_capacity back }
    ensures count { vec_len result ≤ vec_len back + vec_len carriers + 1 }
    ensures capacity { vec_capacity result ≡ vec_capacity back }
{
    let Some(carried) = carriers.pop() else {
        let mut back = back;
        back.push_reserved(lead(rt, front, first, handles, objects));
        return back;
    };
    match scope.spawn_with(NoPromise, move || work(rt, front, carried, objects)) {
        Ok(child) => {
            let mut back = start_each(scope, rt, front, first, carriers, back, handles, objects);
            back.push_reserved(child.join(rt));
            back
        }
        Err(_) => start_each(scope, rt, front, first, carriers, back, handles, objects),
    }
}

/// The plan: a thread for each carrier, and the first thread beside them.
fn start_all<N: Named + Send + Sync, R: Threads + Wait + Sync>(
    rt: &R,
    front: &Front<N>,
    first: Carried<Pass<N>>,
    carriers: Vec<Carried<Pass<N>>>,
    back: Vec<WorkerResult<N>>,
    handles: &[Handle],
    objects: &WorkerObjects,
) -> Vec<WorkerResult<N>>
    requires { vec_len back + vec_len carriers < vec_capacity back }
    ensures { vec_len result ≤ vec_len back + vec_len carriers + 1 }
{
    thread::scope(
        thread::scope_env(),
        rt,
        move |scope| -> Vec<WorkerResult<N>>
            requires { vec_len back + vec_len carriers < vec_capacity back }
            ensures { vec_len result ≤ vec_len back + vec_len carriers + 1 }
        { start_each(scope, rt, front, first, carriers, back, handles, objects) },
    )
}

/// Has all threads do the plan, and ends the front.
pub fn with_all<N: Named + Send + Sync, R: Threads + Wait + Sync>(
    rt: &R,
    front: Front<N>,
    mut carriers: Vec<Carried<Pass<N>>>,
    back: Vec<WorkerResult<N>>,
    holds: Vec<Held<N>>,
    handles: &[Handle],
    objects: &WorkerObjects,
) -> (History, Measurement)
    requires back { (vec_len back ≡ 0) × (vec_len carriers ≤ vec_capacity back) }
    requires holds { (holds.items ≡ []) × (vec_len carriers ≤ vec_capacity holds) }
{
    let mut told = Measurement::default();
    let Some(first) = carriers.pop() else {
        told.wrong();
        return (front.finish(holds), told);
    };
    let mut pass = first.into_hold();
    create_all(rt, &front, &mut pass, objects, &mut told);
    let first = Carried { hold: pass };
    let back = start_all(rt, &front, first, carriers, back, handles, objects);
    (finish(front, back, holds, &mut told), told)
}

/// Puts the holds of all threads together, and ends the front.
fn finish<N: Named>(
    front: Front<N>,
    mut back: Vec<WorkerResult<N>>,
    mut holds: Vec<Held<N>>,
    told: &mut Measurement,
) -> History
    requires { (holds.items ≡ []) × (vec_len back ≤ vec_capacity holds) }
{
    while let Some(one) = back.pop() {
        let WorkerResult { held, told: known } = one;
        told.join(known);
        holds.push_reserved(held.into_hold());
    }
    front.finish(holds)
}
