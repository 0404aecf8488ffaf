//! What one thread does.
use nt_core::Act;
use nt_front::{Front, Named, Pass};
use nt_front_shapes::{
    Company, FrontShape, Measurement, RoundKind, call, nanos_since, now, try_wait, wait_for,
};
use nt_status::{Handle, Moment, Status, UNITS_PER_MS};
use std::alloc::Global;
use std::sync::Wait;
use std::time::Clock;

/// Creates the crowd's events, and what the rounds use.
pub fn set_stage<N: Named, R: Wait>(
    rt: &R,
    front: &Front<N>,
    pass: &mut Pass<N>,
    shape: &FrontShape,
    told: &mut Measurement,
) {
    create_events(rt, front, pass, shape.crowd(), told);
    match shape.kind {
        RoundKind::Mutex => call(rt, front, pass, Act::CreateMutex(0), told),
        RoundKind::Semaphore => create_semaphore(rt, front, pass, told),
        RoundKind::AnyOf64 => create_events(rt, front, pass, 64, told),
        RoundKind::OneOf64 => create_events(rt, front, pass, 65, told),
        RoundKind::RoundTrip => create_events(rt, front, pass, 2, told),
        RoundKind::Ticks(timers) => {
            create_timers(rt, front, pass, timers, told);
            arm(rt, front, pass, shape.first_handle(), timers, told);
        }
        _ => create_events(rt, front, pass, 1, told),
    }
    if let Company::Sleeper = shape.company {
        create_events(rt, front, pass, 2, told);
    }
    told.begin();
}

/// A semaphore whose count is 0, and 1 at the most.
fn create_semaphore<N: Named, R: Wait>(
    rt: &R,
    front: &Front<N>,
    pass: &mut Pass<N>,
    told: &mut Measurement,
) {
    let (initial, maximum) = (0, 1);
    call(
        rt,
        front,
        pass,
        Act::CreateSemaphore { initial, maximum },
        told,
    );
}

/// Creates auto-reset events, none of them set.
fn create_events<N: Named, R: Wait>(
    rt: &R,
    front: &Front<N>,
    pass: &mut Pass<N>,
    count: u32,
    told: &mut Measurement,
) {
    for _ in 0..count {
        call(rt, front, pass, Act::CreateEvent(0), told);
    }
}

/// Creates manual-reset timers.
fn create_timers<N: Named, R: Wait>(
    rt: &R,
    front: &Front<N>,
    pass: &mut Pass<N>,
    count: u32,
    told: &mut Measurement,
) {
    for _ in 0..count {
        call(rt, front, pass, Act::CreateTimer(1), told);
    }
}

/// Sets `timers` timers, each due a millisecond after the one before, and periodic, so that one is due in each millisecond.
fn arm<N: Named, R: Wait>(
    rt: &R,
    front: &Front<N>,
    pass: &mut Pass<N>,
    first: u32,
    timers: u32,
    told: &mut Measurement,
) {
    let period = i32::try_from(timers).unwrap_or(i32::MAX);
    for number in 0..timers {
        let act = Act::SetTimer {
            timer: Handle::new(first.wrapping_add(number)),
            due: (i64::from(number) + 1) * UNITS_PER_MS as i64,
            period,
            routine: None,
        };
        call(rt, front, pass, act, told);
    }
}

/// Sets the stage of a shape for one thread, and makes its rounds.
pub fn alone<N: Named, R: Wait + Clock>(
    rt: &R,
    alloc: Global,
    front: &Front<N>,
    mut pass: Pass<N>,
    shape: &FrontShape,
    rounds: u32,
    told: &mut Measurement,
) -> Pass<N> {
    set_stage(rt, front, &mut pass, shape, told);
    rounds_of(rt, alloc, front, pass, shape, rounds, told)
}

/// Makes the rounds of a shape for one thread, and times them.
pub fn rounds_of<N: Named, R: Wait + Clock>(
    rt: &R,
    alloc: Global,
    front: &Front<N>,
    mut pass: Pass<N>,
    shape: &FrontShape,
    rounds: u32,
    told: &mut Measurement,
) -> Pass<N> {
    let first = shape.first_handle();
    let object = Handle::new(first);
    let began = now(rt);
    let pass = match shape.kind {
        RoundKind::Mutex => mutexes(rt, alloc, front, pass, object, rounds, told),
        RoundKind::Semaphore => semaphores(rt, alloc, front, pass, object, rounds, told),
        RoundKind::AnyOf64 => any_of_64(rt, alloc, front, pass, first, rounds, told),
        RoundKind::Ticks(_) => {
            ticks(rt, front, &mut pass, rounds, told);
            pass
        }
        RoundKind::Rotate => {
            parts(rt, front, &mut pass, rounds, told);
            pass
        }
        _ => events(rt, alloc, front, pass, object, rounds, told),
    };
    told.nanos = nanos_since(rt, began);
    pass
}

fn events<N: Named, R: Wait>(
    rt: &R,
    alloc: Global,
    front: &Front<N>,
    mut pass: Pass<N>,
    event: Handle,
    rounds: u32,
    told: &mut Measurement,
) -> Pass<N> {
    for _ in 0..rounds {
        call(rt, front, &mut pass, Act::SetEvent(event), told);
        pass = try_wait(rt, alloc, front, pass, &[event], Status::object(0), told);
    }
    pass
}

fn mutexes<N: Named, R: Wait>(
    rt: &R,
    alloc: Global,
    front: &Front<N>,
    mut pass: Pass<N>,
    mutex: Handle,
    rounds: u32,
    told: &mut Measurement,
) -> Pass<N> {
    for _ in 0..rounds {
        pass = wait_for(rt, alloc, front, pass, mutex, told);
        call(rt, front, &mut pass, Act::ReleaseMutex(mutex), told);
    }
    pass
}

fn semaphores<N: Named, R: Wait>(
    rt: &R,
    alloc: Global,
    front: &Front<N>,
    mut pass: Pass<N>,
    semaphore: Handle,
    rounds: u32,
    told: &mut Measurement,
) -> Pass<N> {
    for _ in 0..rounds {
        call(
            rt,
            front,
            &mut pass,
            Act::ReleaseSemaphore {
                semaphore,
                count: 1,
            },
            told,
        );
        pass = wait_for(rt, alloc, front, pass, semaphore, told);
    }
    pass
}

fn any_of_64<N: Named, R: Wait>(
    rt: &R,
    alloc: Global,
    front: &Front<N>,
    mut pass: Pass<N>,
    first: u32,
    rounds: u32,
    told: &mut Measurement,
) -> Pass<N> {
    let mut events = [Handle::new(0); 64];
    let mut number = first;
    for event in &mut events {
        *event = Handle::new(number);
        number = number.wrapping_add(1);
    }
    for _ in 0..rounds {
        pass = try_wait(rt, alloc, front, pass, &events, Status::TIMEOUT, told);
    }
    pass
}

/// Takes `rounds` parts of the journal.
fn parts<N: Named, R: Wait>(
    rt: &R,
    front: &Front<N>,
    pass: &mut Pass<N>,
    rounds: u32,
    told: &mut Measurement,
) {
    for _ in 0..rounds {
        told.called(front.rotate(rt, pass).is_ok());
    }
}

fn ticks<N: Named, R: Wait>(
    rt: &R,
    front: &Front<N>,
    pass: &mut Pass<N>,
    rounds: u32,
    told: &mut Measurement,
) {
    for number in 0..rounds {
        let Some(moment) = Moment::new((u64::from(number) + 1) * UNITS_PER_MS) else {
            told.wrong();
            return;
        };
        match front.tick(rt, pass, moment) {
            Ok(receipt) => told.called(receipt.result.is_ok()),
            Err(_) => told.wrong(),
        }
    }
}
