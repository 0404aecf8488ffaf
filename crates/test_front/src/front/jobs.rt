//! What the threads of a crew do.
use crate::front::crew::Crew;
use crate::front::plan::{lead, toil};
use crate::front::roams::roam;
use crate::front::steps::{ENDLESS, objects};
use crate::front::told::Learned;
use crate::front::wakes::{self, Way, wake};
use nt_core::{Act, WaitCall};
use nt_front::{Begun, Front, Held, Named, Pass, Polled, Sleeper};
use nt_status::{Handle, Moment};
use std::sync::Wait;
use std::sync::atomic::Ordering;
use std::thread;
use std::time::{Clock, Duration};

/// A thread's job. Objects are given by the numbers of their handles.
#[derive(Clone, Copy)]
pub enum Job {
    /// Makes `calls` calls of all sorts, and then ends its thread.
    Roam {
        calls: u32,
        manner: Manner,
    },
    /// Lets the moment pass, 1 ms at a time, until the others are done.
    Tick,
    /// `times` times: sets one event, and waits for the other.
    Serve {
        sets: u32,
        waits: u32,
        times: u32,
    },
    /// `times` times: waits for one event, and sets the other.
    Answer {
        waits: u32,
        sets: u32,
        times: u32,
    },
    /// `times` times: waits for the mutex, and releases it.
    Lock {
        mutex: u32,
        times: u32,
    },
    /// Waits for the event, asleep or by polls.
    Await {
        event: u32,
        manner: Manner,
    },
    /// Sets the event once a thread waits for it. Until then it gives up at most `turns` turns.
    SetWhenAwaited {
        event: u32,
        turns: u32,
    },
    /// Leads the workers of the plan.
    Lead,
    /// Works by the plan, for `rounds` rounds.
    Toil {
        rounds: u32,
    },
    /// Waits asleep for the object, or for 1 ms where none is named, and then sets the event that is named.
    Sleep {
        object: Option<u32>,
        sets: Option<u32>,
    },
    /// Wakes the thread that sleeps by this call.
    Wake(Way),
}

/// How a thread waits for its grant.
#[derive(Clone, Copy)]
pub enum Manner {
    Asleep,
    /// By this number of polls at the most.
    Polling(u32),
}

/// Does the job, and answers what is held at its end.
pub fn work<N: Named, R: Wait + Clock>(
    rt: &R,
    front: &Front<N>,
    crew: &Crew,
    mut pass: Pass<N>,
    job: Job,
    told: &mut Learned,
) -> Held<N> {
    match job {
        Job::Roam { calls, manner } => roam(rt, front, crew, pass, calls, manner, told),
        Job::Tick => {
            tick(rt, front, crew, &mut pass, told);
            Held::Pass(pass)
        }
        Job::Serve { sets, waits, times } => {
            Held::Pass(serve(
                rt,
                front,
                crew,
                pass,
                Handle::new(sets),
                Handle::new(waits),
                times,
                told,
            ))
        }
        Job::Answer { waits, sets, times } => {
            Held::Pass(answer(
                rt,
                front,
                crew,
                pass,
                Handle::new(waits),
                Handle::new(sets),
                times,
                told,
            ))
        }
        Job::Lock { mutex, times } => Held::Pass(lock(
            rt,
            front,
            crew,
            pass,
            Handle::new(mutex),
            times,
            told,
        )),
        Job::Lead => lead(rt, front, crew, pass, told),
        Job::Toil { rounds } => toil(rt, front, crew, pass, rounds, told),
        Job::Sleep { object, sets } => wakes::sleep(rt, front, crew, pass, object, sets, told),
        Job::Wake(way) => wake(rt, front, crew, pass, way, told),
        Job::Await { event, manner } => {
            await_event(rt, front, crew, pass, Handle::new(event), manner, told)
        }
        Job::SetWhenAwaited { event, turns } => {
            set_when_awaited(rt, front, crew, &mut pass, Handle::new(event), turns, told);
            Held::Pass(pass)
        }
    }
}

/// Makes a call that never pends.
pub fn call<N: Named>(
    rt: &impl Wait,
    front: &Front<N>,
    pass: &mut Pass<N>,
    act: Act,
    told: &mut Learned,
) {
    match front.call(rt, pass, act) {
        Ok(receipt) => told.called(&receipt),
        Err(_) => told.lost(),
    }
}

/// Begins a wait and waits for its end. Where the polls are used up the thread still sleeps.
pub fn wait<N: Named>(
    rt: &impl Wait,
    front: &Front<N>,
    crew: &Crew,
    pass: Pass<N>,
    asked: WaitCall,
    manner: Manner,
    told: &mut Learned,
) -> Held<N> {
    match front.begin(rt, pass, asked) {
        Begun::Done(pass, receipt) => {
            told.called(&receipt);
            Held::Pass(pass)
        }
        Begun::NoRoom(pass) => {
            told.lost();
            Held::Pass(pass)
        }
        Begun::Pended(sleeper, receipt) => {
            told.called(&receipt);
            crew.awaited.fetch_add(1, Ordering::SeqCst);
            match manner {
                Manner::Asleep => {
                    let (pass, receipt) = front.sleep(rt, sleeper);
                    told.granted(&receipt);
                    Held::Pass(pass)
                }
                Manner::Polling(polls) => poll_for(front, sleeper, polls, told),
            }
        }
    }
}

/// Polls so often at the most, and gives up its turn between two.
fn poll_for<N: Named>(
    front: &Front<N>,
    sleeper: Sleeper<N>,
    polls: u32,
    told: &mut Learned,
) -> Held<N> {
    let mut sleeper = sleeper;
    for _ in 0..polls {
        match front.poll(sleeper) {
            Polled::Ready(pass, receipt) => {
                told.granted(&receipt);
                return Held::Pass(pass);
            }
            Polled::Still(still) => sleeper = still,
        }
        thread::yield_now();
    }
    Held::Sleeping(sleeper)
}

/// Waits asleep for one object.
pub fn wait_for<N: Named>(
    rt: &impl Wait,
    front: &Front<N>,
    crew: &Crew,
    pass: Pass<N>,
    object: Handle,
    told: &mut Learned,
) -> Pass<N> {
    let Ok(asked) = objects(crew.alloc, &[object], false, ENDLESS) else {
        told.lost();
        return pass;
    };
    match front.begin(rt, pass, asked) {
        Begun::Done(pass, receipt) => {
            told.called(&receipt);
            pass
        }
        Begun::NoRoom(pass) => {
            told.lost();
            pass
        }
        Begun::Pended(sleeper, receipt) => {
            told.called(&receipt);
            let (pass, receipt) = front.sleep(rt, sleeper);
            told.granted(&receipt);
            pass
        }
    }
}

/// Lets the moment pass until nobody roams. It takes parts too: where the others get no processor for a while, its ticks
/// alone would fill the journal.
fn tick<N: Named, R: Wait + Clock>(
    rt: &R,
    front: &Front<N>,
    crew: &Crew,
    pass: &mut Pass<N>,
    told: &mut Learned,
) {
    for number in 1..=crew.ticks {
        if crew.roaming.load(Ordering::SeqCst) == 0 {
            return;
        }
        tick_to(rt, front, pass, number.wrapping_mul(10_000), told);
        crew.parts.take_when_due(rt, front, pass, told);
        thread::sleep(rt, Duration::from_micros(20));
    }
    told.lost();
}

/// Lets all moments up to this one pass, and looks at the present one.
fn tick_to<N: Named>(
    rt: &impl Wait,
    front: &Front<N>,
    pass: &mut Pass<N>,
    moment: u64,
    told: &mut Learned,
) {
    let Some(moment) = Moment::new(moment) else {
        told.lost();
        return;
    };
    match front.tick(rt, pass, moment) {
        Ok(receipt) => told.called(&receipt),
        Err(_) => told.lost(),
    }
    if front.now(pass) != moment {
        told.lost();
    }
}

fn serve<N: Named>(
    rt: &impl Wait,
    front: &Front<N>,
    crew: &Crew,
    mut pass: Pass<N>,
    sets: Handle,
    waits: Handle,
    times: u32,
    told: &mut Learned,
) -> Pass<N> {
    for _ in 0..times {
        call(rt, front, &mut pass, Act::SetEvent(sets), told);
        pass = wait_for(rt, front, crew, pass, waits, told);
    }
    pass
}

fn answer<N: Named>(
    rt: &impl Wait,
    front: &Front<N>,
    crew: &Crew,
    mut pass: Pass<N>,
    waits: Handle,
    sets: Handle,
    times: u32,
    told: &mut Learned,
) -> Pass<N> {
    for _ in 0..times {
        pass = wait_for(rt, front, crew, pass, waits, told);
        call(rt, front, &mut pass, Act::SetEvent(sets), told);
    }
    pass
}

fn lock<N: Named>(
    rt: &impl Wait,
    front: &Front<N>,
    crew: &Crew,
    mut pass: Pass<N>,
    mutex: Handle,
    times: u32,
    told: &mut Learned,
) -> Pass<N> {
    for _ in 0..times {
        pass = wait_for(rt, front, crew, pass, mutex, told);
        call(rt, front, &mut pass, Act::ReleaseMutex(mutex), told);
    }
    pass
}

/// Waits for the event.
fn await_event<N: Named>(
    rt: &impl Wait,
    front: &Front<N>,
    crew: &Crew,
    pass: Pass<N>,
    event: Handle,
    manner: Manner,
    told: &mut Learned,
) -> Held<N> {
    match objects(crew.alloc, &[event], false, ENDLESS) {
        Ok(asked) => wait(rt, front, crew, pass, asked, manner, told),
        Err(_) => {
            told.lost();
            Held::Pass(pass)
        }
    }
}

/// Sets the event once somebody waits.
fn set_when_awaited<N: Named>(
    rt: &impl Wait,
    front: &Front<N>,
    crew: &Crew,
    pass: &mut Pass<N>,
    event: Handle,
    turns: u32,
    told: &mut Learned,
) {
    for _ in 0..turns {
        if crew.awaited.load(Ordering::SeqCst) > 0 {
            call(rt, front, pass, Act::SetEvent(event), told);
            return;
        }
        thread::yield_now();
    }
    told.lost();
}
