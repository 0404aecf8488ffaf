//! What is reported of threads that run.

use crate::commands::Ran;
use crate::devices::{MemoryWriter, WriteLimit};
use crate::expect::{expect, expect_at};
use crate::refused::{ProgramHost, is_refusing, tell_refused};
use nt_commands::threads_over;
use nt_devices::Counted;
use std::sync::Wait;
use std::thread::Threads;

fn run_once<R: ProgramHost + Threads + Wait + Sync>(
    rt: &R,
    workers: u32,
    rounds: u32,
    room: WriteLimit,
) -> Ran {
    let mut taken = MemoryWriter::new(rt.alloc(), room);
    let mut errors = MemoryWriter::new(rt.alloc(), WriteLimit::ENDLESS);
    let status = threads_over(
        rt,
        rt.alloc(),
        workers,
        rounds,
        &mut Counted::new(&mut taken),
        &mut Counted::new(&mut errors),
    );
    Ran::new(taken, errors, status)
}

/// Runs the threads, a second time where memory is refused.
fn run_at_last<R: ProgramHost + Threads + Wait + Sync>(
    rt: &R,
    workers: u32,
    rounds: u32,
    room: WriteLimit,
) -> Ran {
    let ran = run_once(rt, workers, rounds, room);
    if !ran.is_refused() {
        return ran;
    }
    tell_refused(rt, "a run of threads");
    run_once(rt, workers, rounds, room)
}

/// The longest run takes about a second, and a hundred times as long in a build that checks each step (`rt try`). Where growths are
/// refused one worker runs alone: how many growths there are with more is a matter of when threads end and how many waits pend.
#[test]
fn workers_make_rounds(rt: HostRuntime) {
    for (workers, rounds, lines) in [
        (
            1,
            1,
            "threads 1\nrounds 1\nacquired 1\nreleased 1\nsemaphore 1\nabandoned 0\n",
        ),
        (
            64,
            10,
            "threads 64\nrounds 10\nacquired 640\nreleased 640\nsemaphore 640\nabandoned 0\n",
        ),
        (
            64,
            1000,
            "threads 64\nrounds 1000\nacquired 64000\nreleased 64000\nsemaphore 64000\nabandoned 0\n",
        ),
    ] {
        if workers == 1 || !is_refusing(&rt) {
            let ran = run_at_last(&rt, workers, rounds, WriteLimit::ENDLESS);
            expect(&rt, ran.is(lines, "", 0), lines);
        }
    }
}

#[test]
fn other_counts_get_the_usage(rt: HostRuntime) {
    let usage = "ntrun: usage: ntrun script FILE or ntrun threads N ROUNDS\n";
    for (workers, rounds) in [(0, 1), (1, 0), (65, 1), (1, 1001), (u32::MAX, u32::MAX)] {
        let ran = run_at_last(&rt, workers, rounds, WriteLimit::ENDLESS);
        expect_at(&rt, ran.is("", usage, 2), "workers", u64::from(workers));
    }
}

#[test]
fn a_failed_write_is_told(rt: HostRuntime) {
    for (room, written) in [
        (WriteLimit::of(12), "threads 1\nro"),
        (WriteLimit::NONE, ""),
        (
            WriteLimit::NEVER_FLUSHED,
            "threads 1\nrounds 1\nacquired 1\nreleased 1\nsemaphore 1\nabandoned 0\n",
        ),
    ] {
        let ran = run_at_last(&rt, 1, 1, room);
        let is_told = ran.is(written, "ntrun: write failed\n", 1);
        expect(&rt, is_told, written);
    }
}
