//! A front is opened under its name, its threads run, and it ends.
ghost use Rattle.std.specs.Prelude.{◌≡◌, ◌≤◌, ◌<◌, ◌+◌, [], vec_len, vec_capacity};

use crate::fault::FrontExampleFault;
use crate::host::Host;
use crate::part::replay_rest;
use crate::starting::{AllResults, Others, run_threads};
use nt_front::{Blank, Carried, Front, Held, Named, Pass, open, prepare_lasting};
use std::io::Write;
use std::marker::Brand;

/// How many threads there are: the clock, and the three others.
const THREADS: u32 = 4;

/// How many entries the journal has room for.
const ROOM: usize = 50_000;

/// Runs the threads, and writes what they did.
pub fn run<R: Host>(rt: &R, out: &mut impl Write) -> Result<(), FrontExampleFault> {
    let blank = prepare_lasting(rt.alloc(), THREADS, ROOM)?;
    let pieces = run_named::<Brand, R>(rt, blank)?;
    writeln!(out, "{pieces} pieces of work were done")?;
    writeln!(out, "the journal makes the same run again")?;
    Ok(())
}

/// Runs the threads on the front that has this name.
fn run_named<N: Named + Send + Sync, R: Host>(
    rt: &R,
    blank: Blank,
) -> Result<u32, FrontExampleFault>
    requires { (blank ≡ N.front) × (blank.threads ≡ THREADS) }
{
    let holds = match Vec::with_capacity(rt.alloc(), THREADS as usize) {
        Ok(holds) => holds,
        Err(refused) => {
            drop(blank);
            return Err(FrontExampleFault::Refused(refused.into()));
        }
    };
    match open::<N>(rt.alloc(), blank) {
        Ok((front, passes)) => run_on(rt, front, passes, holds),
        Err(refused) => {
            holds.destroy_empty();
            Err(refused.into())
        }
    }
}

/// Has the threads of these passes run, ends the front, and makes the rest of its journal again.
fn run_on<N: Named + Send + Sync, R: Host>(
    rt: &R,
    front: Front<N>,
    passes: Vec<Pass<N>>,
    holds: Vec<Held<N>>,
) -> Result<u32, FrontExampleFault>
    requires passes { vec_len passes ≡ 4 }
    requires holds { (holds.items ≡ []) × (4 ≤ vec_capacity holds) }
{
    let (holds, done) = run_all(rt, &front, passes, holds);
    let history = front.finish(holds);
    match done {
        Ok(done) => {
            replay_rest(history)?;
            Ok(done)
        }
        Err(fault) => {
            drop(history);
            Err(fault)
        }
    }
}

/// Hands the passes out, and has their threads run. Answers what they hold at the end, and how many pieces of work they did.
fn run_all<N: Named + Send + Sync, R: Host>(
    rt: &R,
    front: &Front<N>,
    mut passes: Vec<Pass<N>>,
    holds: Vec<Held<N>>,
) -> (Vec<Held<N>>, Result<u32, FrontExampleFault>)
    requires passes { vec_len passes ≡ 4 }
    requires holds { (holds.items ≡ []) × (4 ≤ vec_capacity holds) }
{
    let three = carried(&mut passes);
    let two = carried(&mut passes);
    let one = carried(&mut passes);
    let clock = carried(&mut passes);
    passes.destroy_empty();
    let others = Others { one, two, three };
    match run_threads(front, rt, clock, others) {
        Ok(back) => put_together(back, holds),
        Err(refused) => (holds, Err(refused.into())),
    }
}

/// The last of these passes, for another thread to own.
fn carried<N: Named>(passes: &mut Vec<Pass<N>>) -> Carried<Pass<N>>
    requires { 0 < vec_len passes.old }
    ensures { vec_len passes.new + 1 ≡ vec_len passes.old }
{
    match passes.pop() {
        Some(hold) => Carried { hold },
        None => unreachable!(),
    }
}

/// What all threads hold at the end, and how many pieces of work they did.
fn put_together<N: Named>(
    back: AllResults<N>,
    mut holds: Vec<Held<N>>,
) -> (Vec<Held<N>>, Result<u32, FrontExampleFault>)
    requires { (holds.items ≡ []) × (4 ≤ vec_capacity holds) }
{
    let AllResults {
        clock,
        ticked,
        one,
        two,
        three,
    } = back;
    let done = pieces_of(ticked, [one.done, two.done, three.done]);
    holds.push_reserved(clock.into_hold());
    holds.push_reserved(one.into_held());
    holds.push_reserved(two.into_held());
    holds.push_reserved(three.into_held());
    (holds, done)
}

/// How many pieces of work were done, if no call was refused.
fn pieces_of(
    ticked: Result<(), FrontExampleFault>,
    done: [Result<u32, FrontExampleFault>; 3],
) -> Result<u32, FrontExampleFault> {
    let mut pieces = 0_u32;
    for one in done {
        pieces = pieces.saturating_add(one?);
    }
    ticked?;
    Ok(pieces)
}
