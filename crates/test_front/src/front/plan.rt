//! The threads of `ntrun threads`, by jobs: workers that share a mutex, and the thread that leads them.
use crate::front::crew::Crew;
use crate::front::jobs::{Manner, call, wait, wait_for};
use crate::front::roams::end;
use crate::front::steps::{Creation, ENDLESS, objects};
use crate::front::told::Learned;
use nt_core::Act;
use nt_front::{Front, Held, Named, Pass};
use nt_status::Handle;
use std::sync::Wait;

/// How many threads there are: two workers, and the one that leads them.
pub const THREADS: u32 = 3;

/// What the first thread creates, in the order of the handles: the mutex, the semaphore, and the event that lets the workers begin.
pub const CREATIONS: &[Creation] = &[
    Creation::Mutex,
    Creation::Semaphore(0, 6),
    Creation::Event(1),
];

const MUTEX: u32 = THREADS;

const SEMAPHORE: u32 = THREADS + 1;

const START: u32 = THREADS + 2;

/// Lets the workers begin, takes a part of the journal, and waits for the end of all workers.
pub fn lead<N: Named>(
    rt: &impl Wait,
    front: &Front<N>,
    crew: &Crew,
    mut pass: Pass<N>,
    told: &mut Learned,
) -> Held<N> {
    call(
        rt,
        front,
        &mut pass,
        Act::SetEvent(Handle::new(START)),
        told,
    );
    crew.parts.take(rt, front, &mut pass, told);
    let workers = [Handle::new(1), Handle::new(2)];
    let Ok(asked) = objects(crew.alloc, &workers, true, ENDLESS) else {
        told.lost();
        return Held::Pass(pass);
    };
    let held = wait(rt, front, crew, pass, asked, Manner::Asleep, told);
    end(rt, front, held, told)
}

/// Waits for the start, then makes `rounds` rounds: takes the mutex, releases the semaphore by one, releases the mutex.
pub fn toil<N: Named>(
    rt: &impl Wait,
    front: &Front<N>,
    crew: &Crew,
    pass: Pass<N>,
    rounds: u32,
    told: &mut Learned,
) -> Held<N> {
    let (mutex, semaphore) = (Handle::new(MUTEX), Handle::new(SEMAPHORE));
    let mut pass = wait_for(rt, front, crew, pass, Handle::new(START), told);
    for _ in 0..rounds {
        pass = wait_for(rt, front, crew, pass, mutex, told);
        let release = Act::ReleaseSemaphore {
            semaphore,
            count: 1,
        };
        call(rt, front, &mut pass, release, told);
        call(rt, front, &mut pass, Act::ReleaseMutex(mutex), told);
    }
    end(rt, front, Held::Pass(pass), told)
}
