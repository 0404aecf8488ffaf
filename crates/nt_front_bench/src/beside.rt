//! The pairs of one thread beside another that waits. A program that needs a lock has several threads, and some C libraries take a lock
//! with no atomic step while there is only one.
use crate::alone::{rounds_of, set_stage};
use crate::pair::SideResult;
use nt_core::Act;
use nt_front::{Carried, Front, Named, Pass};
use nt_front_shapes::{FrontShape, Measurement, call, wait_for};
use std::alloc::Global;
use std::sync::Wait;
use std::thread::{self, Threads};
use std::time::Clock;

/// Makes the rounds once the other thread waits, and lets it go on after them.
fn lead<N: Named, R: Wait + Clock>(
    rt: &R,
    alloc: Global,
    front: &Front<N>,
    carried: Carried<Pass<N>>,
    shape: FrontShape,
    rounds: u32,
) -> SideResult<N> {
    let mut around = Measurement::default();
    let ready = shape.ready_event();
    let pass = wait_for(rt, alloc, front, carried.into_hold(), ready, &mut around);
    let mut told = Measurement::default();
    let mut pass = rounds_of(rt, alloc, front, pass, &shape, rounds, &mut told);
    call(
        rt,
        front,
        &mut pass,
        Act::SetEvent(shape.last_event()),
        &mut around,
    );
    told.wrong = told.wrong.wrapping_add(around.wrong);
    SideResult {
        carried: Carried { hold: pass },
        told,
    }
}

/// Says that it is there, and waits until the rounds are made.
fn rest<N: Named, R: Wait>(
    rt: &R,
    alloc: Global,
    front: &Front<N>,
    carried: Carried<Pass<N>>,
    shape: FrontShape,
) -> SideResult<N> {
    let mut told = Measurement::default();
    let mut pass = carried.into_hold();
    call(
        rt,
        front,
        &mut pass,
        Act::SetEvent(shape.ready_event()),
        &mut told,
    );
    let pass = wait_for(rt, alloc, front, pass, shape.last_event(), &mut told);
    SideResult {
        carried: Carried { hold: pass },
        told,
    }
}

/// Makes the rounds of both threads. The calls counted and the time taken are those of the pairs alone.
pub fn beside<N: Named + Send + Sync, R: Threads + Wait + Clock + Sync>(
    rt: &R,
    alloc: Global,
    front: &Front<N>,
    mut pass: Pass<N>,
    other: Carried<Pass<N>>,
    shape: FrontShape,
    rounds: u32,
    told: &mut Measurement,
) -> Pass<N> {
    set_stage(rt, front, &mut pass, &shape, told);
    let one = Carried { hold: pass };
    let (one, two) = thread::join(
        rt,
        move || lead(rt, alloc, front, one, shape, rounds),
        move || rest(rt, alloc, front, other, shape),
    );
    told.join(one.told);
    told.wrong = told.wrong.wrapping_add(two.told.wrong);
    told.nanos = one.told.nanos;
    let SideResult { carried, told: _ } = one;
    carried.into_hold()
}
