// SPDX-License-Identifier: MIT OR Apache-2.0
//! `nt_bench [ROUNDS [SHAPE]]` makes the same calls on the core round by round, and prints for each shape how many calls and
//! grants a round has, and with ROUNDS the picoseconds of a call. SHAPE, which counts from 0, runs that one alone.
#![tactic(auto)]

mod shapes;
mod turns;

use shapes::{SHAPES, Shape, shape_of};
use std::alloc::AllocError;
use std::env;
use std::io::{self, Write};
use std::process::ExitCode;
use std::time::{Duration, Instant};
use turns::{BenchFault, CallCounts, Stage};

/// How often a round is made where nothing is timed.
const FEW: u64 = 3;

/// What the command line asks for: how many rounds, timed or not, of all shapes or of one.
#[derive(Clone, Copy)]
struct Plan {
    rounds: u64,
    is_timed: bool,
    only: Option<u32>,
}

impl Plan {
    fn has(self, shape: u32) -> bool {
        match self.only {
            Some(only) => only == shape,
            None => true,
        }
    }
}

fn plan_of(rt: &HostRuntime) -> Result<Plan, AllocError> {
    let mut words = env::args(rt).map_err(|_| AllocError)?;
    let _program = words.next();
    let asked = match words.next() {
        Some(word) => word.as_str().parse::<u64>().ok(),
        None => None,
    };
    let only = match words.next() {
        Some(word) => word.as_str().parse::<u32>().ok(),
        None => None,
    };
    Ok(match asked {
        Some(rounds) => Plan {
            rounds,
            is_timed: true,
            only,
        },
        None => Plan {
            rounds: FEW,
            is_timed: false,
            only,
        },
    })
}

/// What a shape counted, and how long it took.
#[derive(Clone, Copy)]
struct Measured {
    counts: CallCounts,
    took: Duration,
}

/// Makes the stage's round `rounds` times, and measures the time.
fn timed(rt: &HostRuntime, stage: &mut Stage<'_>, rounds: u64) -> Result<Measured, BenchFault> {
    let began = Instant::now(rt).map_err(|_| BenchFault::Clock)?;
    let counts = stage.run(rounds)?;
    let took = began.elapsed(rt).map_err(|_| BenchFault::Clock)?;
    Ok(Measured { counts, took })
}

/// Opens a stage for the shape, and makes its round `rounds` times.
fn measure(rt: &HostRuntime, shape: &Shape, rounds: u64) -> Result<Measured, BenchFault> {
    let mut stage = Stage::open(rt.alloc(), shape)?;
    timed(rt, &mut stage, rounds)
}

/// Runs one shape, and prints its line.
fn run_shape(
    rt: &HostRuntime,
    number: u32,
    plan: Plan,
    out: &mut impl Write,
) -> Result<(), BenchFault> {
    let shape = shape_of(rt.alloc(), number)?;
    let Measured { counts, took } = measure(rt, &shape, plan.rounds)?;
    let CallCounts { calls, grants } = counts;
    let told = if plan.is_timed {
        let picoseconds = took.as_nanos().saturating_mul(1000) / (calls.max(1) as u128);
        writeln!(
            out,
            "{}: {calls} calls, {grants} grants, {picoseconds} ps a call",
            shape.name
        )
    } else {
        writeln!(out, "{}: {calls} calls, {grants} grants", shape.name)
    };
    told.map_err(|_| BenchFault::Output)
}

fn run_all(rt: &HostRuntime) -> Result<(), BenchFault> {
    let plan = plan_of(rt)?;
    let mut out = io::writer(rt);
    for number in 0..SHAPES {
        if plan.has(number) {
            run_shape(rt, number, plan, &mut out)?;
        }
    }
    Ok(())
}

fn main(rt: HostRuntime) -> ExitCode {
    match run_all(&rt) {
        Ok(()) => ExitCode::SUCCESS,
        Err(_) => ExitCode::FAILURE,
    }
}
