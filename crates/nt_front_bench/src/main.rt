// SPDX-License-Identifier: MIT OR Apache-2.0
//! `nt_front_bench [SHAPE ROUNDS]` makes the same calls on the front over and over. With no word it makes a few rounds of each
//! shape, and prints how many calls and grants those were. With two it times one shape: first on a journal whose memory was never
//! touched, and then on one that was.
#![tactic(auto)]

ghost use Rattle.std.specs.Prelude.{◌≡◌};

mod alone;
mod beside;
mod measure;
mod pair;
mod queue;
mod workers;

use measure::measure;
use nt_front::PackedEntry;
use nt_front_shapes::{FrontBenchFault, FrontShape, Measurement, SHAPES, shape_named};
use std::alloc::Global;
use std::env;
use std::io::{self, Write};
use std::mem::size_of;
use std::process::ExitCode;
use std::sync::Wait;
use std::thread::Threads;
use std::time::Clock;

/// How often a round is made where nothing is timed.
const FEW: u32 = 3;

/// What the command line asks for: a number of rounds of one shape, or a few rounds of each.
#[derive(Clone, Copy)]
enum Plan {
    Each,
    Timed(FrontShape, u32),
}

fn plan_of(rt: &HostRuntime) -> Result<Plan, FrontBenchFault> {
    let mut words = env::args(rt).map_err(|_| FrontBenchFault::Memory)?;
    let _program = words.next();
    let Some(name) = words.next() else {
        return Ok(Plan::Each);
    };
    let rounds = match words.next() {
        Some(word) => word.as_str().parse::<u32>().ok(),
        None => None,
    };
    match (shape_named(name.as_str()), rounds) {
        (Some(shape), Some(rounds)) => Ok(Plan::Timed(shape, rounds)),
        _ => Err(FrontBenchFault::Usage),
    }
}

fn picoseconds(told: &Measurement) -> u128 {
    told.nanos.saturating_mul(1000) / (told.calls.max(1) as u128)
}

/// Makes a few rounds of a shape, and prints what they were.
fn run_few<R: Threads + Wait + Clock + Sync>(
    rt: &R,
    alloc: Global,
    shape: FrontShape,
    out: &mut impl Write,
) -> Result<(), FrontBenchFault> {
    let told = measure(rt, alloc, shape, FEW)?;
    let (calls, grants) = (told.calls, told.grants);
    let printed = writeln!(out, "{}: {calls} calls, {grants} grants", shape.name);
    printed.map_err(|_| FrontBenchFault::Output)
}

/// Prints the size of an entry, and makes a few rounds of each shape.
fn run_each<R: Threads + Wait + Clock + Sync>(
    rt: &R,
    alloc: Global,
    out: &mut impl Write,
) -> Result<(), FrontBenchFault> {
    let bytes = size_of::<PackedEntry>();
    let printed = writeln!(out, "an entry takes {bytes} bytes");
    printed.map_err(|_| FrontBenchFault::Output)?;
    for shape in SHAPES {
        run_few(rt, alloc, *shape, out)?;
    }
    Ok(())
}

/// Times one shape twice, and prints both times.
fn run_timed<R: Threads + Wait + Clock + Sync>(
    rt: &R,
    alloc: Global,
    shape: FrontShape,
    rounds: u32,
    out: &mut impl Write,
) -> Result<(), FrontBenchFault> {
    let cold = measure(rt, alloc, shape, rounds)?;
    let warm = measure(rt, alloc, shape, rounds)?;
    let Measurement { calls, grants, .. } = warm;
    let (first, then) = (picoseconds(&cold), picoseconds(&warm));
    writeln!(
        out,
        "{}: {calls} calls, {grants} grants, {first} ps a call at first, {then} ps a call then",
        shape.name
    )
    .map_err(|_| FrontBenchFault::Output)
}

fn run<R: Threads + Wait + Clock + Sync>(
    rt: &R,
    alloc: Global,
    plan: Plan,
    out: &mut impl Write,
) -> Result<(), FrontBenchFault> {
    match plan {
        Plan::Each => run_each(rt, alloc, out),
        Plan::Timed(shape, rounds) => run_timed(rt, alloc, shape, rounds, out),
    }
}

fn main(rt: HostRuntime) -> ExitCode {
    let Ok(plan) = plan_of(&rt) else {
        return ExitCode::FAILURE;
    };
    let mut out = io::writer(&rt);
    match run(&rt, rt.alloc(), plan, &mut out) {
        Ok(()) => ExitCode::SUCCESS,
        Err(_) => ExitCode::FAILURE,
    }
}
