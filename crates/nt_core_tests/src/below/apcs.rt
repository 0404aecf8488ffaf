//! Queues of APCs, and the places that they keep for timers.

use crate::expect::{expect, expect_equal};
use crate::tests::memory::{CoreHost, walk_at_last};
use nt_apc::{Apc, ApcQueues};
use nt_status::{Moment, ObjectNumber, OptionalMoment, Refusal, ThreadId};
use std::test::Fail;

/// The APC of a timer that was due at this moment.
fn apc(routine: u64, moment: u64) -> Apc {
    Apc {
        routine,
        arg: 3,
        at: OptionalMoment::new(Moment::new(moment)),
    }
}

/// The routine of the thread's oldest APC, which is taken.
fn next(apcs: &mut ApcQueues, t: ThreadId) -> Option<u64> {
    if (t.get() as usize) < apcs.threads() {
        Some(apcs.next(t)?.routine)
    } else {
        None
    }
}

/// They come in this order, in a copy too, which has the timer's place.
fn take_in_turn(
    rt: &impl CoreHost,
    apcs: &mut ApcQueues,
    t: ThreadId,
    timer: ObjectNumber,
) -> Result<(), Refusal> {
    let mut copied = apcs.copy()?;
    expect_equal(rt, copied.place_of(timer), Some(t), "a timer's place");
    for routine in [Some(7), Some(2), Some(8), None] {
        expect_equal(rt, next(apcs, t), routine, "an APC");
        expect_equal(rt, next(&mut copied, t), routine, "that of a copy");
    }
    Ok(())
}

/// The thread queues an APC, its timer expires at the place that it was promised, and the thread queues one more.
fn queue(
    rt: &impl CoreHost,
    apcs: &mut ApcQueues,
    t: ThreadId,
    timer: ObjectNumber,
) -> Result<(), Refusal> {
    expect(rt, (t.get() as usize) < apcs.threads(), "a thread");
    apcs.promise(t, timer)?;
    apcs.push(t, apc(7, 0))?;
    if apcs.place_of(timer) == Some(t) && !apcs.queued(t, timer) {
        apcs.push_promised(t, timer, apc(2, 50_000));
    }
    expect(rt, (t.get() as usize) < apcs.threads(), "a thread");
    apcs.push(t, apc(8, 0))?;
    Ok(())
}

#[test]
fn apcs_come_first_in_first_out(rt: HostRuntime) -> Result<(), Fail> {
    walk_at_last(&rt, "APCs", || {
        let mut apcs = ApcQueues::new(rt.alloc(), 2)?;
        let (t, timer) = (ThreadId::new(1), ObjectNumber::new(5));
        queue(&rt, &mut apcs, t, timer)?;
        take_in_turn(&rt, &mut apcs, t, timer)
    })
}
