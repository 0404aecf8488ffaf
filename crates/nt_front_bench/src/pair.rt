//! Two threads set each other's event and wait for their own.
use crate::alone::set_stage;
use nt_core::Act;
use nt_front::{Carried, Front, Named, Pass};
use nt_front_shapes::{FrontShape, Measurement, call, nanos_since, now, wait_for};
use nt_status::Handle;
use std::alloc::Global;
use std::sync::Wait;
use std::thread::{self, Threads};
use std::time::Clock;

/// Which side of the table a thread is on.
#[derive(Clone, Copy)]
struct Side {
    mine: Handle,
    other: Handle,
    rounds: u32,
}

/// What a thread brings back.
#[derive(Drop)]
pub struct SideResult<N: Named> {
    pub carried: Carried<Pass<N>>,
    pub told: Measurement,
}

/// Sets the other's event and waits for its own, in every round, and times them.
fn serve<N: Named, R: Wait + Clock>(
    rt: &R,
    alloc: Global,
    front: &Front<N>,
    carried: Carried<Pass<N>>,
    side: Side,
) -> SideResult<N> {
    let Side {
        mine,
        other,
        rounds,
    } = side;
    let mut pass = carried.into_hold();
    let mut told = Measurement::default();
    let began = now(rt);
    for _ in 0..rounds {
        call(rt, front, &mut pass, Act::SetEvent(other), &mut told);
        pass = wait_for(rt, alloc, front, pass, mine, &mut told);
    }
    told.nanos = nanos_since(rt, began);
    SideResult {
        carried: Carried { hold: pass },
        told,
    }
}

/// Waits for its own event and sets the other's, in every round.
fn answer<N: Named, R: Wait>(
    rt: &R,
    alloc: Global,
    front: &Front<N>,
    carried: Carried<Pass<N>>,
    side: Side,
) -> SideResult<N> {
    let Side {
        mine,
        other,
        rounds,
    } = side;
    let mut pass = carried.into_hold();
    let mut told = Measurement::default();
    for _ in 0..rounds {
        pass = wait_for(rt, alloc, front, pass, mine, &mut told);
        call(rt, front, &mut pass, Act::SetEvent(other), &mut told);
    }
    SideResult {
        carried: Carried { hold: pass },
        told,
    }
}

/// Makes the rounds of both threads.
pub fn round_trips<N: Named + Send + Sync, R: Threads + Wait + Clock + Sync>(
    rt: &R,
    alloc: Global,
    front: &Front<N>,
    mut pass: Pass<N>,
    other: Carried<Pass<N>>,
    shape: &FrontShape,
    rounds: u32,
    told: &mut Measurement,
) -> Pass<N> {
    set_stage(rt, front, &mut pass, shape, told);
    let first = shape.first_handle();
    let (mine, other_event) = (Handle::new(first), Handle::new(first.wrapping_add(1)));
    let serving = Side {
        mine,
        other: other_event,
        rounds,
    };
    let answering = Side {
        mine: other_event,
        other: mine,
        rounds,
    };
    let one = Carried { hold: pass };
    let (one, two) = thread::join(
        rt,
        move || serve(rt, alloc, front, one, serving),
        move || answer(rt, alloc, front, other, answering),
    );
    told.join(one.told);
    told.join(two.told);
    // How many waits pended is up to the schedule.
    told.grants = 0;
    told.nanos = one.told.nanos;
    let SideResult { carried, told: _ } = one;
    carried.into_hold()
}
