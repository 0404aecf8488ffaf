//! Threads that make calls of all sorts.
use crate::front::crew::Crew;
use crate::front::jobs::{Manner, call, wait};
use crate::front::steps::Draws;
use crate::front::told::Learned;
use nt_front::{Exited, Front, Held, Named, Pass};
use std::sync::Wait;
use std::sync::atomic::Ordering;

/// Makes `calls` calls of all sorts, and then ends the thread.
pub fn roam<N: Named>(
    rt: &impl Wait,
    front: &Front<N>,
    crew: &Crew,
    pass: Pass<N>,
    calls: u32,
    manner: Manner,
    told: &mut Learned,
) -> Held<N> {
    let mut draws = Draws::new(
        crew.seed
            .wrapping_mul(256)
            .wrapping_add(u64::from(pass.thread().get())),
    );
    let mut held = Held::Pass(pass);
    for _ in 0..calls {
        held = step(rt, front, crew, held, &mut draws, manner, told);
        if let Held::Pass(pass) = &mut held {
            crew.parts.take_when_due(rt, front, pass, told);
        }
    }
    crew.roaming.fetch_sub(1, Ordering::SeqCst);
    end(rt, front, held, told)
}

/// Makes one call.
fn step<N: Named>(
    rt: &impl Wait,
    front: &Front<N>,
    crew: &Crew,
    held: Held<N>,
    draws: &mut Draws,
    manner: Manner,
    told: &mut Learned,
) -> Held<N> {
    let Held::Pass(mut pass) = held else {
        return held;
    };
    if !draws.waits() {
        call(rt, front, &mut pass, draws.act(), told);
        return Held::Pass(pass);
    }
    match draws.wait(crew.alloc) {
        Ok(asked) => wait(rt, front, crew, pass, asked, manner, told),
        Err(_) => {
            told.lost();
            Held::Pass(pass)
        }
    }
}

/// Ends the thread.
pub fn end<N: Named>(
    rt: &impl Wait,
    front: &Front<N>,
    held: Held<N>,
    told: &mut Learned,
) -> Held<N> {
    let Held::Pass(pass) = held else {
        return held;
    };
    match front.exit(rt, pass) {
        Exited::Ended(ended, receipt) => {
            told.called(&receipt);
            Held::Ended(ended)
        }
        Exited::NoRoom(pass) => {
            told.lost();
            Held::Pass(pass)
        }
    }
}
