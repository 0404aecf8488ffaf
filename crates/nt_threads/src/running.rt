//! The plan over a front, by threads that run.
ghost use Rattle.std.specs.Prelude.{◌≡◌, ◌+◌, ◌-◌, ◌*◌, ◌<◌, ◌≤◌, [], true, false, map, vec_len, vec_capacity, IfOk};
ghost use Rattle.nt_machine.specs.Dispatcher.{Dispatcher, state};
ghost use Rattle.nt_machine.specs.Lawful.{IsLawful};
ghost use Rattle.nt_front.specs.Runs.{IsRun};
ghost use Rattle.nt_front.specs.Held.{knowledge_of};
ghost use Rattle.nt_front.specs.Holds.{new_threads};
ghost use Rattle.nt_threads.specs.declared.plan.Objects.{Objects};
ghost use Rattle.nt_threads.specs.Doors.{HasFreeRoom, HaveFreeRoom, accepted_calls, calls_of_hold, made_through};
ghost use Rattle.nt_threads.specs.Plans.{carried_out};
ghost use Rattle.nt_threads.specs.Reports.{PlanIsCarriedOut, IsThreadsReport, ComesOfRun};

use crate::counts::counts_of;
use crate::driving::{Driven, drive};
use crate::front_door::FrontDoor;
use crate::plan::{MOST_ROUNDS, MOST_THREADS, MOST_WORKERS};
use crate::report::lines_of;
use nt_front::{Blank, Front, Held, History, Named, Pass, open, prepare};
use nt_mail::PackedEntry;
use nt_status::{Handle, Refusal};
use std::alloc::{AllocError, Global};
use std::marker::Brand;
use std::sync::Wait;
use std::thread::Threads;

/// What the threads of a plan left, and whether all of it was carried out and stands in the history.
#[derive(Drop)]
struct Ran {
    history: History,
    whole: bool,
}

impl Ran {
    /// The history, where all of the plan was carried out.
    fn whole_history(self) -> Result<History, AllocError>
        ensures { IfOk result (λ history. (self.whole ≡ true) × (history ≡ self.history)) }
    {
        let Ran { history, whole } = self;
        if whole {
            return Ok(history);
        }
        drop(history);
        Err(AllocError)
    }
}

/// Room for the doors, for those that come back, and for what the threads hold at the end.
struct Room<'f, N: Named> {
    doors: Vec<FrontDoor<'f, N>>,
    back: Vec<FrontDoor<'f, N>>,
    holds: Vec<Held<N>>,
}

impl<'f, N: Named> Room<'f, N> {
    /// Room for `threads` threads.
    fn new(alloc: Global, threads: usize) -> Result<Room<'f, N>, AllocError>
        ensures { IfOk result (λ r. HaveFreeRoom threads r.doors r.back r.holds) }
    {
        let doors = Vec::with_capacity(alloc, threads)?;
        let back = Vec::with_capacity(alloc, threads)?;
        let holds = Vec::with_capacity(alloc, threads)?;
        Ok(Room { doors, back, holds })
    }

    /// Gives back what was never used.
    fn let_go(self)
        requires { self.holds.items ≡ [] }
    {
        let Room {
            doors: _,
            back: _,
            holds,
        } = self;
        holds.destroy_empty();
    }
}

/// Runs the plan by real threads over a front, and answers the history that they left.
///
/// The front has a thread more than there are workers. Memory alone can be wanting, at the opening or in a call; all threads
/// have ended then too.
pub fn history_of<R: Threads + Wait + Sync>(
    rt: &R,
    alloc: Global,
    workers: u32,
    rounds: u32,
) -> Result<History, AllocError>
    requires workers { workers ≤ MOST_WORKERS }
    requires rounds { rounds ≤ MOST_ROUNDS }
    ensures comes { IfOk result (λ history. ComesOfRun (workers + 1) history.entries.items) }
    ensures whole { IfOk result (λ history. PlanIsCarriedOut workers rounds history.entries.items) }
{
    let room = workers as usize * (4 * rounds as usize + 3) + 7;
    let blank = prepare(alloc, workers + 1, room).map_err(|_| AllocError)?;
    let ran = run::<Brand, R>(rt, alloc, blank, rounds)?;
    ran.whole_history()
}

/// Runs the plan by real threads over a front, and answers the lines that tell of its history.
///
/// Memory alone can be wanting, as for the history; all threads have ended then too.
pub fn report_of<R: Threads + Wait + Sync>(
    rt: &R,
    alloc: Global,
    workers: u32,
    rounds: u32,
) -> Result<Vec<u8>, AllocError>
    requires workers { workers ≤ MOST_WORKERS }
    requires rounds { rounds ≤ MOST_ROUNDS }
    ensures { IfOk result (λ lines. IsThreadsReport workers rounds lines.items) }
{
    let history = history_of(rt, alloc, workers, rounds)?;
    let told = told_of(alloc, workers, rounds, history.entries.as_slice());
    drop(history);
    told
}

/// The lines that tell of these entries.
fn told_of(
    alloc: Global,
    workers: u32,
    rounds: u32,
    entries: &[PackedEntry],
) -> Result<Vec<u8>, AllocError>
    requires workers { workers ≤ MOST_WORKERS }
    requires comes { ComesOfRun (workers + 1) entries.now }
    requires whole { PlanIsCarriedOut workers rounds entries.now }
    ensures { IfOk result (λ lines. IsThreadsReport workers rounds lines.items) }
{
    let threads = workers + 1;
    let counts = counts_of(alloc, threads, Handle::new(threads), entries)?;
    lines_of(alloc, workers, rounds, &counts)
}

/// Opens the front, and has its threads carry out the plan. All memory for their way is taken before.
fn run<N: Named + Send + Sync, R: Threads + Wait + Sync>(
    rt: &R,
    alloc: Global,
    blank: Blank,
    rounds: u32,
) -> Result<Ran, AllocError>
    requires front { blank ≡ N.front }
    requires once { blank.lasts ≡ false }
    requires threads { (0 < blank.threads) × (blank.threads ≤ MOST_THREADS) }
    requires rounds { rounds ≤ MOST_ROUNDS }
    ensures comes { IfOk result (λ r. r.whole ≡ true → ComesOfRun blank.threads r.history.entries.items) }
    ensures whole { IfOk result (λ r. r.whole ≡ true
        → PlanIsCarriedOut (blank.threads - 1) rounds r.history.entries.items) }
{
    match Room::new(alloc, MOST_THREADS as usize) {
        Ok(room) => run_in::<N, R>(rt, alloc, blank, room, rounds),
        Err(refused) => {
            drop(blank);
            Err(refused)
        }
    }
}

/// The same, with the memory for the way.
fn run_in<N: Named + Send + Sync, R: Threads + Wait + Sync>(
    rt: &R,
    alloc: Global,
    blank: Blank,
    room: Room<'_, N>,
    rounds: u32,
) -> Result<Ran, AllocError>
    requires front { blank ≡ N.front }
    requires once { blank.lasts ≡ false }
    requires threads { (0 < blank.threads) × (blank.threads ≤ MOST_THREADS) }
    requires rounds { rounds ≤ MOST_ROUNDS }
    requires room { HaveFreeRoom MOST_THREADS room.doors room.back room.holds }
    ensures comes { IfOk result (λ r. r.whole ≡ true → ComesOfRun blank.threads r.history.entries.items) }
    ensures whole { IfOk result (λ r. r.whole ≡ true
        → PlanIsCarriedOut (blank.threads - 1) rounds r.history.entries.items) }
{
    match open::<N>(alloc, blank) {
        Ok((front, passes)) => Ok(run_on(rt, alloc, front, passes, room, rounds)),
        Err(_) => {
            room.let_go();
            Err(AllocError)
        }
    }
}

/// Has the threads of these passes carry out the plan, and ends the front.
fn run_on<N: Named + Send + Sync, R: Threads + Wait + Sync>(
    rt: &R,
    alloc: Global,
    front: Front<N>,
    passes: Vec<Pass<N>>,
    room: Room<'_, N>,
    rounds: u32,
) -> Ran
    requires passes { (passes.items ≡ new_threads N.front.threads) × (0 < N.front.threads) }
    requires once { N.front.lasts ≡ false }
    requires threads { vec_len passes ≤ MOST_THREADS }
    requires rounds { rounds ≤ MOST_ROUNDS }
    requires room { HaveFreeRoom (vec_len passes) room.doors room.back room.holds }
    ensures comes { result.whole ≡ true → ComesOfRun N.front.threads result.history.entries.items }
    ensures whole { result.whole ≡ true → PlanIsCarriedOut (N.front.threads - 1) rounds result.history.entries.items }
{
    let (holds, whole) = drive_on(rt, alloc, &front, passes, room, rounds);
    let history = front.finish(holds);
    // Where no part of the journal was handed out before, the history is all of it.
    let is_all = history.first == 1;
    Ran {
        history,
        whole: whole & is_all,
    }
}

/// Has the threads of these passes carry out the plan over the front, and answers what they hold then.
fn drive_on<'f, N: Named + Send + Sync, R: Threads + Wait + Sync>(
    rt: &R,
    alloc: Global,
    front: &'f Front<N>,
    passes: Vec<Pass<N>>,
    room: Room<'f, N>,
    rounds: u32,
) -> (Vec<Held<N>>, bool)
    requires threads { vec_len passes ≤ MOST_THREADS }
    requires rounds { rounds ≤ MOST_ROUNDS }
    requires room { HaveFreeRoom (vec_len passes) room.doors room.back room.holds }
    ensures threads { map (λ h. (knowledge_of h).thread) result.0.items ≡ map (λ p. p.thread) passes.items }
    ensures whole { result.1 ≡ true → (o : Objects)
        × (map calls_of_hold result.0.items ≡ carried_out (λ p. accepted_calls p.made) o rounds passes.items) }
{
    let Room { doors, back, holds } = room;
    let doors = doors_of(front, passes, doors);
    let Driven { doors, whole } = drive(rt, alloc, doors, back, rounds);
    (holds_of(doors, holds), whole)
}

/// A door for each pass, in their order.
fn doors_of<'f, N: Named>(
    front: &'f Front<N>,
    mut passes: Vec<Pass<N>>,
    doors: Vec<FrontDoor<'f, N>>,
) -> Vec<FrontDoor<'f, N>>
    requires { HasFreeRoom (vec_len passes) doors }
    ensures threads { map (λ d. d.thread) result.items ≡ map (λ p. p.thread) passes.items }
    ensures made { map (λ d. made_through d.hold) result.items ≡ map (λ p. accepted_calls p.made) passes.items }
    ensures count { vec_len result ≡ vec_len passes }
    ensures capacity { vec_capacity result ≡ vec_capacity doors.entry }
{
    let Some(pass) = passes.pop() else {
        passes.destroy_empty();
        return doors;
    };
    let mut doors = doors_of(front, passes, doors);
    doors.push_reserved(FrontDoor::new(front, pass));
    doors
}

/// What the threads of these doors hold, in their order.
fn holds_of<N: Named>(mut doors: Vec<FrontDoor<'_, N>>, holds: Vec<Held<N>>) -> Vec<Held<N>>
    requires { HasFreeRoom (vec_len doors) holds }
    ensures threads { map (λ h. (knowledge_of h).thread) result.items ≡ map (λ d. d.thread) doors.entry.items }
    ensures made { map calls_of_hold result.items ≡ map (λ d. made_through d.hold) doors.entry.items }
    ensures count { vec_len result ≡ vec_len doors.entry }
    ensures capacity { vec_capacity result ≡ vec_capacity holds }
{
    let Some(door) = doors.pop() else {
        return holds;
    };
    let mut holds = holds_of(doors, holds);
    holds.push_reserved(door.into_held());
    holds
}
