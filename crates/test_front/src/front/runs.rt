//! Crews at work: nobody is left asleep, and each thread learns exactly what the history has of it. A fresh dispatcher answers
//! each call of the history as it was answered.
use crate::expect::{expect, expect_equal};
use crate::front::crew::{Crew, man};
use crate::front::jobs::{Job, Manner};
use crate::front::parts::Parts;
use crate::front::plan;
use crate::front::seen::Seen;
use crate::front::steps::{CREATIONS, Creation, ROAMERS};
use crate::front::told::Entries;
use crate::refused::is_refusing;
use nt_front::prepare;
use nt_status::Refusal;
use std::alloc::Global;
use std::env::{Env, var};
use std::marker::Brand;
use std::process::Abort;
use std::sync::Wait;
use std::sync::atomic::AtomicU64;
use std::test::Fail;
use std::thread::Threads;
use std::time::Clock;

/// What a crew is, as data.
#[derive(Clone, Copy)]
pub struct Roll {
    pub threads: u32,
    pub creations: &'static [Creation],
    pub jobs: &'static [Job],
    /// How many of the threads roam.
    pub roaming: u64,
    /// The room of the journal, in entries.
    pub room: usize,
    /// How many entries make a part of it due, for those that roam.
    pub every: u64,
}

/// No part of the journal is ever due.
pub const NEVER: u64 = u64::MAX;

/// Two threads hand over to one another 200,000 times, each asleep while it waits.
const PAIR: Roll = Roll {
    threads: 2,
    creations: &[Creation::Event(0), Creation::Event(0)],
    jobs: &[
        Job::Serve {
            sets: 2,
            waits: 3,
            times: 100_000,
        },
        Job::Answer {
            waits: 2,
            sets: 3,
            times: 100_000,
        },
    ],
    roaming: 0,
    room: 700_000,
    every: NEVER,
};

/// 64 threads at one mutex.
const LOCKERS: Roll = Roll {
    threads: 64,
    creations: &[Creation::Mutex],
    jobs: &[Job::Lock {
        mutex: 64,
        times: 500,
    }],
    roaming: 0,
    room: 100_000,
    every: NEVER,
};

const ASLEEP: Job = Job::Roam {
    calls: 2_858,
    manner: Manner::Asleep,
};

const POLLING: Job = Job::Roam {
    calls: 2_858,
    manner: Manner::Polling(u32::MAX),
};

/// Seven threads of 8 make 20,006 calls of all sorts, some asleep while they wait and some by polls; the first is the clock.
const ROAM: Roll = Roll {
    threads: ROAMERS,
    creations: CREATIONS,
    jobs: &[
        Job::Tick,
        ASLEEP,
        POLLING,
        ASLEEP,
        POLLING,
        ASLEEP,
        ASLEEP,
        ASLEEP,
    ],
    roaming: 7,
    room: 1_000_000,
    every: NEVER,
};

/// How many calls each of seven threads makes, of more than 100,000.
const MANY: u32 = 14_286;

/// Seven threads of 8 make 100,002 calls of all sorts over a journal of 400 entries, of which whoever comes takes a part for each 100.
const ROTATE: Roll = Roll {
    threads: ROAMERS,
    creations: CREATIONS,
    jobs: &[
        Job::Tick,
        Job::Roam {
            calls: MANY,
            manner: Manner::Polling(u32::MAX),
        },
        Job::Roam {
            calls: MANY,
            manner: Manner::Asleep,
        },
    ],
    roaming: 7,
    room: 400,
    every: 100,
};

/// The plan of two workers and three rounds; the thread that leads them takes a part of the journal once they may begin.
const PLAN: Roll = Roll {
    threads: plan::THREADS,
    creations: plan::CREATIONS,
    jobs: &[Job::Lead, Job::Toil { rounds: 3 }],
    roaming: 0,
    room: 100,
    every: NEVER,
};

/// One thread keeps its wait open by polls until the other sets the event.
const HELD: Roll = Roll {
    threads: 2,
    creations: &[Creation::Event(0)],
    jobs: &[
        Job::SetWhenAwaited {
            event: 2,
            turns: 1_000_000,
        },
        Job::Await {
            event: 2,
            manner: Manner::Polling(1_000_000),
        },
    ],
    roaming: 0,
    room: 8,
    every: NEVER,
};

/// Has this crew work on a new front.
pub fn man_all<R: Threads + Wait + Clock + Sync>(
    rt: &R,
    alloc: Global,
    roll: Roll,
    seed: u64,
) -> Result<Seen, Refusal> {
    let blank = prepare(alloc, roll.threads, roll.room)?;
    let crew = Crew {
        alloc,
        threads: roll.threads,
        creations: roll.creations,
        jobs: roll.jobs,
        roaming: AtomicU64::new(roll.roaming),
        awaited: AtomicU64::new(0),
        ticks: 400_000,
        seed,
        parts: Parts::new(alloc, roll.every),
    };
    man::<Brand, _>(rt, blank, &crew)
}

/// Nothing was lost, nobody is left asleep, and history and threads say the same.
pub fn assert_whole(rt: &impl Abort, seen: &Seen) {
    let wrong = (seen.lost, seen.sleeping, seen.differ, seen.difference);
    assert_eq!(rt; wrong, (0, 0, 0, 0), "{seen:?}");
}

#[test]
fn two_sleepers_hand_over(rt: HostRuntime) -> Result<(), Fail> {
    if is_refusing(&rt) {
        return Ok(());
    }
    let seen = man_all(&rt, rt.alloc(), PAIR, 0)?;
    assert_whole(&rt, &seen);
    // two creations, and a set and a wait for each of the 200,000
    expect_equal(&rt, seen.calls.count, 400_002, "the calls");
    Ok(())
}

#[test]
fn many_threads_share_a_mutex(rt: HostRuntime) -> Result<(), Fail> {
    if is_refusing(&rt) {
        return Ok(());
    }
    let seen = man_all(&rt, rt.alloc(), LOCKERS, 0)?;
    assert_whole(&rt, &seen);
    // one creation, and a wait and a release for each of the 500 rounds of each of the 64 threads
    expect_equal(&rt, seen.calls.count, 64_001, "the calls");
    Ok(())
}

/// How many such crews, one after another: 1, or what ROUNDS says.
fn rounds(env: &(impl AllocGlobal + Env)) -> u64 {
    match var(env, "ROUNDS") {
        Ok(text) => text.as_str().parse::<u64>().unwrap_or(1),
        Err(_) => 1,
    }
}

#[test]
fn threads_of_all_sorts_roam(rt: HostRuntime) -> Result<(), Fail> {
    if is_refusing(&rt) {
        return Ok(());
    }
    for round in 0..rounds(&rt) {
        let seen = man_all(&rt, rt.alloc(), ROAM, round)?;
        assert_whole(&rt, &seen);
    }
    Ok(())
}

#[test]
fn hold_until_answered(rt: HostRuntime) -> Result<(), Fail> {
    if is_refusing(&rt) {
        return Ok(());
    }
    let seen = man_all(&rt, rt.alloc(), HELD, 0)?;
    // the creation, the wait, the set, and the grant under the number after it
    let expected = Seen {
        parts: 0,
        entries: 4,
        calls: Entries { count: 3, sum: 6 },
        grants: Entries { count: 1, sum: 4 },
        differ: 0,
        sleeping: 0,
        lost: 0,
        difference: 0,
    };
    expect_equal(&rt, seen, expected, "a wait that is held open");
    Ok(())
}

/// All parts and the history, in their order, are what a fresh dispatcher does.
#[test]
fn chain(rt: HostRuntime) -> Result<(), Fail> {
    if is_refusing(&rt) {
        return Ok(());
    }
    let seen = man_all(&rt, rt.alloc(), PLAN, 0)?;
    assert_whole(&rt, &seen);
    // three creations, the set, the wait and the end of the first thread; of each other a wait for the start, three calls a round, and its end
    expect_equal(&rt, seen.parts, 1, "the parts");
    let calls = 6 + 2 * (1 + 3 * 3 + 1);
    expect_equal(&rt, seen.calls.count, calls, "the calls");
    Ok(())
}

/// Whoever comes takes the next part; no call finds the journal full.
#[test]
fn parts_follow_one_another(rt: HostRuntime) -> Result<(), Fail> {
    if is_refusing(&rt) {
        return Ok(());
    }
    let seen = man_all(&rt, rt.alloc(), ROTATE, 0)?;
    assert_whole(&rt, &seen);
    expect(&rt, seen.calls.count >= 100_000, "100,000 calls");
    expect(&rt, seen.parts >= 250, "250 parts");
    Ok(())
}
