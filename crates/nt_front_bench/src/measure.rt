//! Opens a front for a shape, and makes its rounds.
ghost use Rattle.std.specs.Prelude.{◌≡◌, ◌+◌, ◌<◌, ◌≤◌, [], vec_len, vec_capacity, IfOk};

use crate::alone::alone;
use crate::beside::beside;
use crate::pair::round_trips;
use crate::queue::one_of_64;
use crate::workers::{WorkerObjects, WorkerResult, with_all};
use nt_core::{Act, Call};
use nt_front::{Blank, Carried, Front, Held, History, Named, Pass, ReadEntry, open, prepare};
use nt_front_shapes::{
    Company, FrontBenchFault, FrontShape, Measurement, RoundKind, bare_lock, core_alone,
    core_and_journal, nanos_since, now,
};
use nt_status::Handle;
use std::alloc::{AllocError, Global};
use std::marker::Brand;
use std::sync::Wait;
use std::thread::Threads;
use std::time::Clock;

/// Makes `rounds` rounds of the shape. Every answer was the one expected.
pub fn measure<R: Threads + Wait + Clock + Sync>(
    rt: &R,
    alloc: Global,
    shape: FrontShape,
    rounds: u32,
) -> Result<Measurement, FrontBenchFault> {
    let told = match shape.kind {
        RoundKind::Core => core_alone(rt, alloc, rounds)?,
        RoundKind::CoreAndJournal => core_and_journal(rt, alloc, rounds)?,
        RoundKind::Lock => bare_lock(rt, rounds),
        RoundKind::Workers(workers) => the_plan(rt, alloc, shape, workers, rounds)?,
        _ => on_a_front(rt, alloc, shape, rounds)?,
    };
    if told.wrong == 0 {
        Ok(told)
    } else {
        Err(FrontBenchFault::Wrong)
    }
}

fn on_a_front<R: Threads + Wait + Clock + Sync>(
    rt: &R,
    alloc: Global,
    shape: FrontShape,
    rounds: u32,
) -> Result<Measurement, FrontBenchFault> {
    let threads = shape.threads();
    let blank = prepare(alloc, threads, shape.entries(rounds))?;
    on_passes::<Brand, _>(rt, alloc, blank, threads, shape, rounds)
}

/// Takes the passes into carriers, the first thread's last.
fn carry<N: Named>(
    mut passes: Vec<Pass<N>>,
    carriers: Vec<Carried<Pass<N>>>,
) -> Vec<Carried<Pass<N>>>
    requires { (carriers.items ≡ []) × (vec_len passes ≤ vec_capacity carriers) }
    ensures count { vec_len result ≡ vec_len passes }
    ensures capacity { vec_capacity result ≡ vec_capacity carriers }
{
    let mut carriers = carriers;
    while let Some(pass) = passes.pop() {
        carriers.push_reserved(Carried { hold: pass });
    }
    passes.destroy_empty();
    carriers
}

fn on_passes<N: Named + Send + Sync, R: Threads + Wait + Clock + Sync>(
    rt: &R,
    alloc: Global,
    blank: Blank,
    threads: u32,
    shape: FrontShape,
    rounds: u32,
) -> Result<Measurement, FrontBenchFault>
    requires { (blank ≡ N.front) × (blank.threads ≡ threads) }
{
    match Vec::with_capacity(alloc, threads as usize) {
        Ok(carriers) => on_opened::<N, _>(rt, alloc, blank, carriers, shape, rounds),
        Err(refused) => {
            drop(blank);
            Err(refused.into())
        }
    }
}

/// Opens the front, with room for its passes.
fn on_opened<N: Named + Send + Sync, R: Threads + Wait + Clock + Sync>(
    rt: &R,
    alloc: Global,
    blank: Blank,
    carriers: Vec<Carried<Pass<N>>>,
    shape: FrontShape,
    rounds: u32,
) -> Result<Measurement, FrontBenchFault>
    requires blank { blank ≡ N.front }
    requires carriers { (carriers.items ≡ []) × (blank.threads ≤ vec_capacity carriers) }
{
    match open::<N>(alloc, blank) {
        Ok((front, passes)) => {
            let carriers = carry(passes, carriers);
            Ok(on_carriers(rt, alloc, front, carriers, shape, rounds))
        }
        Err(refused) => {
            drop(carriers);
            Err(refused.into())
        }
    }
}

fn on_carriers<N: Named + Send + Sync, R: Threads + Wait + Clock + Sync>(
    rt: &R,
    alloc: Global,
    front: Front<N>,
    carriers: Vec<Carried<Pass<N>>>,
    shape: FrontShape,
    rounds: u32,
) -> Measurement {
    let mut carriers = carriers;
    rounds_of(rt, alloc, &front, &mut carriers, &shape, rounds)
}

fn rounds_of<N: Named + Send + Sync, R: Threads + Wait + Clock + Sync>(
    rt: &R,
    alloc: Global,
    front: &Front<N>,
    carriers: &mut Vec<Carried<Pass<N>>>,
    shape: &FrontShape,
    rounds: u32,
) -> Measurement {
    let mut told = Measurement::default();
    make_rounds(rt, alloc, front, carriers, shape, rounds, &mut told);
    told
}

/// Makes the rounds with the carriers' passes.
fn make_rounds<N: Named + Send + Sync, R: Threads + Wait + Clock + Sync>(
    rt: &R,
    alloc: Global,
    front: &Front<N>,
    carriers: &mut Vec<Carried<Pass<N>>>,
    shape: &FrontShape,
    rounds: u32,
    told: &mut Measurement,
) {
    let Some(first) = carriers.pop() else {
        told.wrong();
        return;
    };
    let mut pass = first.into_hold();
    match (shape.company, shape.kind) {
        (Company::Sleeper, _) => match carriers.pop() {
            Some(other) => pass = beside(rt, alloc, front, pass, other, *shape, rounds, told),
            None => told.wrong(),
        },
        (_, RoundKind::OneOf64) => one_of_64(
            rt, alloc, front, &mut pass, carriers, shape, rounds, told,
        ),
        (_, RoundKind::RoundTrip) => match carriers.pop() {
            Some(other) => pass = round_trips(rt, alloc, front, pass, other, shape, rounds, told),
            None => told.wrong(),
        },
        _ => pass = alone(rt, alloc, front, pass, shape, rounds, told),
    }
    drop(Carried { hold: pass });
}

/// The whole plan, from the opening of the front to the look at its history.
fn the_plan<R: Threads + Wait + Clock + Sync>(
    rt: &R,
    alloc: Global,
    shape: FrontShape,
    workers: u32,
    rounds: u32,
) -> Result<Measurement, FrontBenchFault> {
    let threads = shape.threads();
    let began = now(rt);
    let handles = handles_of(alloc, threads)?;
    let objects = WorkerObjects::new(alloc, workers, rounds);
    let blank = prepare(alloc, threads, shape.entries(rounds))?;
    let mut told = planned::<Brand, _>(rt, alloc, blank, threads, handles.as_slice(), &objects)?;
    told.nanos = nanos_since(rt, began);
    let wanted = u64::from(workers).wrapping_mul(u64::from(rounds));
    if told.grants != wanted {
        return Err(FrontBenchFault::Wrong);
    }
    // The calls of the rounds alone, as in C.
    told.calls = wanted.wrapping_mul(3);
    Ok(told)
}

/// How many accepted releases of a semaphore the history has.
fn releases(history: &History) -> u64 {
    let mut releases = 0_u64;
    for entry in &history.entries {
        if let ReadEntry::Called {
            call: Call::Act(Act::ReleaseSemaphore { .. }),
            result: Ok(_),
            ..
        } = entry.read()
        {
            releases = releases.wrapping_add(1);
        }
    }
    releases
}

/// The handles of the workers, those of the threads but the first.
fn handles_of(alloc: Global, threads: u32) -> Result<Vec<Handle>, FrontBenchFault> {
    let mut handles = Vec::with_capacity(alloc, threads as usize)?;
    for number in 1..threads {
        if handles.push(Handle::new(number)).is_err() {
            return Err(FrontBenchFault::Memory);
        }
    }
    Ok(handles)
}

/// Room for the carriers, for what comes back, and for what the threads hold at the end.
struct Room<N: Named> {
    carriers: Vec<Carried<Pass<N>>>,
    back: Vec<WorkerResult<N>>,
    holds: Vec<Held<N>>,
}

impl<N: Named> Room<N> {
    /// Room for `threads` threads.
    fn new(alloc: Global, threads: usize) -> Result<Room<N>, AllocError>
        ensures carriers { IfOk result (λ r. (r.carriers.items ≡ []) × (threads ≤ vec_capacity r.carriers)) }
        ensures back { IfOk result (λ r. (r.back.items ≡ []) × (threads ≤ vec_capacity r.back)) }
        ensures holds { IfOk result (λ r. (r.holds.items ≡ []) × (threads ≤ vec_capacity r.holds)) }
    {
        let carriers = Vec::with_capacity(alloc, threads)?;
        let back = Vec::with_capacity(alloc, threads)?;
        let holds = Vec::with_capacity(alloc, threads)?;
        Ok(Room {
            carriers,
            back,
            holds,
        })
    }

    /// Gives back what was never used.
    fn let_go(self)
        requires { self.holds.items ≡ [] }
    {
        let Room {
            carriers: _,
            back: _,
            holds,
        } = self;
        holds.destroy_empty();
    }
}

/// Takes the memory for the way, opens the front, and has its threads do the plan. The result's grants are the releases in the history.
fn planned<N: Named + Send + Sync, R: Threads + Wait + Clock + Sync>(
    rt: &R,
    alloc: Global,
    blank: Blank,
    threads: u32,
    handles: &[Handle],
    objects: &WorkerObjects,
) -> Result<Measurement, FrontBenchFault>
    requires { (blank ≡ N.front) × (blank.threads ≡ threads) }
{
    match Room::new(alloc, threads as usize) {
        Ok(room) => planned_in::<N, _>(rt, alloc, blank, room, handles, objects),
        Err(refused) => {
            drop(blank);
            Err(refused.into())
        }
    }
}

/// Opens the front, and has its threads do the plan, with the memory for the way.
fn planned_in<N: Named + Send + Sync, R: Threads + Wait + Clock + Sync>(
    rt: &R,
    alloc: Global,
    blank: Blank,
    room: Room<N>,
    handles: &[Handle],
    objects: &WorkerObjects,
) -> Result<Measurement, FrontBenchFault>
    requires blank { blank ≡ N.front }
    requires carriers { (room.carriers.items ≡ []) × (blank.threads ≤ vec_capacity room.carriers) }
    requires back { (room.back.items ≡ []) × (blank.threads ≤ vec_capacity room.back) }
    requires holds { (room.holds.items ≡ []) × (blank.threads ≤ vec_capacity room.holds) }
{
    match open::<N>(alloc, blank) {
        Ok((front, passes)) => Ok(planned_on(rt, front, passes, room, handles, objects)),
        Err(refused) => {
            room.let_go();
            Err(refused.into())
        }
    }
}

/// Has the threads of these passes do the plan, and counts the releases in the history.
fn planned_on<N: Named + Send + Sync, R: Threads + Wait + Clock + Sync>(
    rt: &R,
    front: Front<N>,
    passes: Vec<Pass<N>>,
    room: Room<N>,
    handles: &[Handle],
    objects: &WorkerObjects,
) -> Measurement
    requires carriers { (room.carriers.items ≡ []) × (vec_len passes ≤ vec_capacity room.carriers) }
    requires back { (room.back.items ≡ []) × (vec_len passes ≤ vec_capacity room.back) }
    requires holds { (room.holds.items ≡ []) × (vec_len passes ≤ vec_capacity room.holds) }
{
    let Room {
        carriers,
        back,
        holds,
    } = room;
    let carriers = carry(passes, carriers);
    let (history, mut told) = with_all(rt, front, carriers, back, holds, handles, objects);
    told.grants = releases(&history);
    told
}
