//! The plan over a dispatcher in memory.
ghost use Rattle.std.specs.Prelude.{◌≤◌};

use crate::expect::{expect, expect_at, expect_equal};
use crate::refused::{ProgramHost, is_refusing, tell_refused};
use crate::threads::door::MemoryDoor;
use crate::threads::hall::{Hall, ToHall};
use nt_core::{Act, Call};
use nt_status::Refusal;
use nt_threads::{Driven, drive};
use std::alloc::{AllocGlobal, Global};
use std::sync::Wait;
use std::test::Fail;
use std::thread::Threads;

/// How many threads made which calls.
#[derive(Clone, Copy, Default, PartialEq, Eq, Debug)]
struct Made {
    waits: u32,
    releases: u32,
    unlocks: u32,
    exits: u32,
    others: u32,
}

impl Made {
    fn count(&mut self, call: &Call) {
        let place = match call {
            Call::Wait(_) => &mut self.waits,
            Call::Act(Act::ReleaseSemaphore { .. }) => &mut self.releases,
            Call::Act(Act::ReleaseMutex(_)) => &mut self.unlocks,
            Call::Exit => &mut self.exits,
            Call::Act(_) => &mut self.others,
        };
        *place = place.saturating_add(1);
    }
}

/// What was made through all doors, whether all came back in order, and whether the plan was carried out whole.
#[derive(Clone, Copy)]
struct Seen {
    made: Made,
    in_order: bool,
    whole: bool,
}

fn seen_of(driven: &Driven<MemoryDoor<ToHall<'_>>>, threads: u16) -> Seen {
    let mut made = Made::default();
    let mut in_order = driven.doors.len() == usize::from(threads);
    let mut thread = 0_u16;
    for door in &driven.doors {
        in_order = in_order && door.thread.get() == thread;
        thread = thread.saturating_add(1);
        for call in &door.made {
            made.count(call);
        }
    }
    Seen {
        made,
        in_order,
        whole: driven.whole,
    }
}

/// Carries out the plan over the hall.
fn carry_out<R: Threads + Wait + Sync>(
    rt: &R,
    alloc: Global,
    hall: &Hall,
    threads: u16,
    rounds: u32,
) -> Result<Seen, Refusal>
    requires threads { threads ≤ 65 }
    requires rounds { rounds ≤ 1000 }
{
    let calls = rounds as usize * 3 + 6;
    let mut doors = Vec::with_capacity(alloc, usize::from(threads))?;
    let back = Vec::with_capacity(alloc, usize::from(threads))?;
    for thread in 0..threads {
        doors.push_reserved(MemoryDoor::new(alloc, thread, calls, ToHall(hall))?);
    }
    Ok(seen_of(&drive(rt, alloc, doors, back, rounds), threads))
}

/// Carries out the plan, where memory is refused too, and looks at what was made. Every thread has ended then.
fn check<R: ProgramHost + Threads + Wait + Sync>(rt: &R, workers: u16, rounds: u32, wanted: Made)
    requires workers { workers ≤ 64 }
    requires rounds { rounds ≤ 1000 }
{
    let threads = workers + 1;
    let Ok(hall) = Hall::new(rt.alloc(), u32::from(threads)) else {
        return tell_refused(rt, "an opening");
    };
    let Ok(seen) = carry_out(rt, rt.alloc(), &hall, threads, rounds) else {
        return tell_refused(rt, "the test itself");
    };
    expect(rt, seen.in_order, "the order of the calls");
    for thread in 0..threads {
        let has_ended = hall.has_ended(rt, u32::from(thread));
        expect_at(rt, has_ended, "the end of thread", u64::from(thread));
    }
    if seen.whole {
        expect_equal(rt, seen.made, wanted, "the calls");
    } else {
        tell_refused(rt, "the plan");
    }
}

/// The calls of a whole plan: waits, releases of the semaphore and of the mutex, and ends of threads. The others are three
/// creations and one set.
fn whole_plan(waits: u32, releases: u32, exits: u32) -> Made {
    Made {
        waits,
        releases,
        unlocks: releases,
        exits,
        others: 4,
    }
}

#[test]
fn two_workers_make_three_rounds(rt: HostRuntime) {
    check(&rt, 2, 3, whole_plan(9, 6, 3));
}

#[test]
fn one_worker_makes_one_round(rt: HostRuntime) {
    check(&rt, 1, 1, whole_plan(3, 1, 2));
}

/// A wait for ten objects takes memory of its own.
#[test]
fn ten_workers_make_two_rounds(rt: HostRuntime) {
    // how many allocations ten threads make depends on their schedule, since tables grow with who waits first
    if is_refusing(&rt) {
        return;
    }
    check(&rt, 10, 2, whole_plan(31, 20, 11));
}
