//! 64 threads wait for all of a common event and one of their own.
use crate::alone::set_stage;
use nt_core::Act;
use nt_front::{Begun, Carried, Front, Named, Pass, Polled, Sleeper};
use nt_front_shapes::{FrontShape, Measurement, call, nanos_since, now, objects};
use nt_status::{Handle, INFINITE};
use std::alloc::Global;
use std::mem;
use std::sync::Wait;
use std::time::Clock;

/// How many wait.
const WAITERS: u32 = 64;

/// A thread whose wait pends, or whose wait went wrong.
#[derive(Drop)]
enum Waiter<N: Named> {
    Waits(Carried<Sleeper<N>>),
    Lost,
}

/// Begins the thread's wait, for the common event and its own.
fn begin<N: Named, R: Wait>(
    rt: &R,
    alloc: Global,
    front: &Front<N>,
    pass: Pass<N>,
    handles: &[Handle],
    told: &mut Measurement,
) -> Waiter<N> {
    let Some(asked) = objects(alloc, handles, true, INFINITE) else {
        return lost(pass, told);
    };
    match front.begin(rt, pass, asked) {
        Begun::Pended(sleeper, _) => {
            told.called(true);
            Waiter::Waits(Carried { hold: sleeper })
        }
        Begun::Done(pass, _) => lost(pass, told),
        Begun::NoRoom(pass) => lost(pass, told),
    }
}

fn lost<N: Named>(pass: Pass<N>, told: &mut Measurement) -> Waiter<N> {
    told.wrong();
    drop(Carried { hold: pass });
    Waiter::Lost
}

/// Sets the waiter's own event and then the common one, which ends its wait, and has it wait again.
fn turn<N: Named, R: Wait>(
    rt: &R,
    alloc: Global,
    front: &Front<N>,
    pass: &mut Pass<N>,
    waiter: Waiter<N>,
    handles: &[Handle; 2],
    told: &mut Measurement,
) -> Waiter<N> {
    let Waiter::Waits(carried) = waiter else {
        told.wrong();
        return waiter;
    };
    call(rt, front, pass, Act::SetEvent(handles[1]), told);
    call(rt, front, pass, Act::SetEvent(handles[0]), told);
    match front.poll(carried.into_hold()) {
        Polled::Ready(granted, _) => {
            told.granted();
            begin(rt, alloc, front, granted, handles, told)
        }
        Polled::Still(sleeper) => {
            told.wrong();
            Waiter::Waits(Carried { hold: sleeper })
        }
    }
}

/// The common event, and this waiter's own.
fn events_of(first: u32, waiter: u32) -> [Handle; 2] {
    let own = first.wrapping_add(1).wrapping_add(waiter);
    [Handle::new(first), Handle::new(own)]
}

/// Has the threads of the carriers wait.
fn begin_all<N: Named, R: Wait>(
    rt: &R,
    alloc: Global,
    front: &Front<N>,
    others: &mut Vec<Carried<Pass<N>>>,
    waiters: &mut Vec<Waiter<N>>,
    first: u32,
    told: &mut Measurement,
) {
    for number in 0..WAITERS {
        match others.pop() {
            Some(other) => {
                let events = events_of(first, number);
                let waiter = begin(rt, alloc, front, other.into_hold(), &events, told);
                keep(waiters, waiter, told);
            }
            None => told.wrong(),
        }
    }
}

fn keep<N: Named>(waiters: &mut Vec<Waiter<N>>, waiter: Waiter<N>, told: &mut Measurement) {
    if waiters.push(waiter).is_err() {
        told.wrong();
    }
}

/// Makes the rounds, each with the next of the waiters.
fn turns<N: Named, R: Wait>(
    rt: &R,
    alloc: Global,
    front: &Front<N>,
    pass: &mut Pass<N>,
    waiters: &mut Vec<Waiter<N>>,
    first: u32,
    rounds: u32,
    told: &mut Measurement,
) {
    for round in 0..rounds {
        let number = round % WAITERS;
        let events = events_of(first, number);
        match waiters.get_mut(number as usize) {
            Some(place) => turn_at(rt, alloc, front, pass, place, &events, told),
            None => told.wrong(),
        }
    }
}

fn turn_at<N: Named, R: Wait>(
    rt: &R,
    alloc: Global,
    front: &Front<N>,
    pass: &mut Pass<N>,
    place: &mut Waiter<N>,
    handles: &[Handle; 2],
    told: &mut Measurement,
) {
    let waiter = mem::replace(place, Waiter::Lost);
    *place = turn(rt, alloc, front, pass, waiter, handles, told);
}

fn time_turns<N: Named, R: Wait + Clock>(
    rt: &R,
    alloc: Global,
    front: &Front<N>,
    pass: &mut Pass<N>,
    others: &mut Vec<Carried<Pass<N>>>,
    waiters: &mut Vec<Waiter<N>>,
    first: u32,
    rounds: u32,
    told: &mut Measurement,
) {
    begin_all(rt, alloc, front, others, waiters, first, told);
    told.begin();
    let began = now(rt);
    turns(rt, alloc, front, pass, waiters, first, rounds, told);
    told.nanos = nanos_since(rt, began);
}

/// Sets the stage, has 64 threads wait, and times the rounds.
pub fn one_of_64<N: Named, R: Wait + Clock>(
    rt: &R,
    alloc: Global,
    front: &Front<N>,
    pass: &mut Pass<N>,
    others: &mut Vec<Carried<Pass<N>>>,
    shape: &FrontShape,
    rounds: u32,
    told: &mut Measurement,
) {
    set_stage(rt, front, pass, shape, told);
    let first = shape.first_handle();
    let mut waiters = Vec::new(alloc);
    time_turns(
        rt,
        alloc,
        front,
        pass,
        others,
        &mut waiters,
        first,
        rounds,
        told,
    );
}
