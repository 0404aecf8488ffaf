//! The clock: a thread that ticks.
use crate::fault::FrontExampleFault;
use crate::host::Host;
use crate::part::replay_part;
use crate::shared::Shared;
use nt_front::{Front, Held, Named, Pass};
use nt_front_calls::{Calls, Refused, Timeout, Told};
use nt_status::{Handle, Moment};
use std::thread;
use std::time::{Duration, Instant};

/// Ticks until the other threads have ended, takes the journal, and ends.
pub fn tick_along<N: Named, R: Host>(
    front: &Front<N>,
    rt: &R,
    pass: Pass<N>,
    shared: &Shared,
) -> (Held<N>, Result<(), FrontExampleFault>) {
    let calls = Calls::of(front, rt);
    let (mut pass, ticked) = tick_all(&calls, rt, pass);
    // Whatever happened, the others are to stop.
    let stopped = calls.set_event(&mut pass, shared.stop);
    let replayed = replay_part(front, rt, &mut pass);
    let (held, ended) = calls.exit(pass);
    (held, all_of(ticked, stopped, replayed, ended))
}

/// The first of these that went wrong.
fn all_of(
    ticked: Result<(), FrontExampleFault>,
    stopped: Result<Told<()>, Refused>,
    replayed: Result<(), FrontExampleFault>,
    ended: Result<Told<()>, Refused>,
) -> Result<(), FrontExampleFault> {
    ticked?;
    stopped?;
    replayed?;
    ended?;
    Ok(())
}

/// Ticks each millisecond, until the other threads have ended.
fn tick_all<N: Named, R: Host>(
    calls: &Calls<'_, '_, N, R>,
    rt: &R,
    pass: Pass<N>,
) -> (Pass<N>, Result<(), FrontExampleFault>) {
    let mut pass = pass;
    let began = match Instant::now(rt) {
        Ok(began) => began,
        Err(_) => return (pass, Err(FrontExampleFault::Host)),
    };
    for _ in 0..u64::MAX {
        if let Err(fault) = tick(calls, rt, &mut pass, began) {
            return (pass, Err(fault));
        }
        // A thread's handle is its number.
        let threads = [Handle::new(1), Handle::new(2), Handle::new(3)];
        let (back, ended) = calls.wait_all(pass, &threads, Timeout::ZERO, false);
        pass = back;
        match ended {
            Ok(end) if end.status.is_timeout() => thread::sleep(rt, Duration::from_millis(1)),
            Ok(_) => return (pass, Ok(())),
            Err(refused) => return (pass, Err(refused.into())),
        }
    }
    (pass, Ok(()))
}

/// Lets the time pass that has passed.
fn tick<N: Named, R: Host>(
    calls: &Calls<'_, '_, N, R>,
    rt: &R,
    pass: &mut Pass<N>,
    began: Instant,
) -> Result<(), FrontExampleFault> {
    let ms = u32::try_from(began.elapsed(rt)?.as_millis()).unwrap_or(u32::MAX);
    let Some(moment) = Moment::ZERO.after_ms(ms) else {
        return Err(FrontExampleFault::Host);
    };
    calls.tick_to(pass, moment)?;
    Ok(())
}
