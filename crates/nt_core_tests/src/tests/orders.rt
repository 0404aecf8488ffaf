//! Every order of the calls that threads make: locks that are crossed, and forks that philosophers take. The counts, orders
//! and losses are those of a search in Python over a machine of its own.
use crate::expect::expect;
use crate::tests::memory::{CoreHost, tell_refusal};
use nt_apc::Apc;
use nt_core::{Act, Call, Core, WaitCall, WaitMode};
use nt_explore::{Ask, Explored, Loss, OrderVerdict, Plan, Watcher, explore};
use nt_status::{Handle, Handles, INFINITE, Refusal};
use std::alloc::Global;

/// What a thread does with the lock of this handle. The first lock's handle has the number of threads.
#[derive(Clone, Copy)]
enum Does {
    Takes(u32),
    Gives(u32),
    /// Tries to release it, and then to close its handle.
    Drops(u32),
}

use Does::{Drops, Gives, Takes};

/// A search, and what it comes to.
struct Row {
    name: &'static str,
    locks: u32,
    lanes: &'static [&'static [Does]],
    most: usize,
    states: usize,
    steps: usize,
    hangs: usize,
    told: Told,
}

/// The verdict: an order that hangs, with the order after which a thread's wait is lost.
enum Told {
    Hangs(&'static [u32], Option<(&'static [u32], u32)>),
    None,
    Met(usize),
}

const CROSSED: &[&[Does]] = &[
    &[Takes(2), Takes(3), Gives(3), Gives(2)],
    &[Takes(3), Takes(2), Gives(2), Gives(3)],
];

const FORKS: &[&[Does]] = &[
    &[Takes(3), Takes(4), Gives(4), Gives(3)],
    &[Takes(4), Takes(5), Gives(5), Gives(4)],
    &[Takes(5), Takes(3), Gives(3), Gives(5)],
];

const ORDERED: &[&[Does]] = &[
    &[Takes(3), Takes(4), Gives(4), Gives(3)],
    &[Takes(4), Takes(5), Gives(5), Gives(4)],
    &[Takes(3), Takes(5), Gives(5), Gives(3)],
];

/// A thread tries to drop a lock that it does not hold, so it keeps the handle, and waits for the lock.
const DROPPED: &[Row] = &[Row {
    name: "acts up to the first that is refused",
    locks: 1,
    lanes: &[&[Drops(2), Takes(2)], &[Takes(2)]],
    most: 100,
    states: 7,
    steps: 7,
    hangs: 2,
    told: Told::Hangs(&[0, 0, 1], Some((&[0, 0, 1], 1))),
}];

/// Two locks that are crossed.
const LOCKS: &[Row] = &[
    Row {
        name: "two locks crossed",
        locks: 2,
        lanes: CROSSED,
        most: 1000,
        states: 26,
        steps: 34,
        hangs: 1,
        told: Told::Hangs(&[0, 1, 0, 1], Some((&[0, 1, 0], 0))),
    },
    Row {
        name: "only the start is looked at",
        locks: 2,
        lanes: CROSSED,
        most: 1,
        states: 3,
        steps: 2,
        hangs: 0,
        told: Told::Met(0),
    },
];

/// Each takes its left fork first.
const PHILOSOPHERS: &[Row] = &[Row {
    name: "three philosophers",
    locks: 3,
    lanes: FORKS,
    most: 1000,
    states: 139,
    steps: 276,
    hangs: 1,
    told: Told::Hangs(&[0, 1, 0, 2, 1, 2], Some((&[0, 1, 0, 2], 0))),
}];

/// Each takes the lower of its forks first.
const LOWER_FIRST: &[Row] = &[Row {
    name: "three philosophers who take the lower fork first",
    locks: 3,
    lanes: ORDERED,
    most: 1000,
    states: 116,
    steps: 224,
    hangs: 0,
    told: Told::None,
}];

const ALIKE: &[&[Does]] = &[
    &[Takes(3), Gives(3)],
    &[Takes(3), Gives(3)],
    &[Takes(3), Gives(3)],
];

const TWO_KEEP: &[&[Does]] = &[
    &[Takes(2), Takes(2), Gives(2)],
    &[Takes(2), Takes(2), Gives(2)],
];

const OTHERS_ALIKE: &[&[Does]] = &[
    &[Takes(3), Gives(3)],
    &[Takes(3), Takes(4), Gives(4)],
    &[Takes(3), Takes(4), Gives(4)],
];

/// Of threads that stand alike only the lowest goes.
const LOWEST: &[Row] = &[
    Row {
        name: "three threads of the same lines",
        locks: 1,
        lanes: ALIKE,
        most: 1000,
        states: 10,
        steps: 12,
        hangs: 0,
        told: Told::None,
    },
    Row {
        name: "two that keep their lock",
        locks: 1,
        lanes: TWO_KEEP,
        most: 1000,
        states: 7,
        steps: 8,
        hangs: 1,
        told: Told::Hangs(&[0, 0, 0, 1], Some((&[0, 1], 1))),
    },
    Row {
        name: "two of the same lines beside another",
        locks: 2,
        lanes: OTHERS_ALIKE,
        most: 1000,
        states: 26,
        steps: 37,
        hangs: 5,
        told: Told::Hangs(&[1, 0, 1, 1], Some((&[1, 0], 0))),
    },
];

/// How many states of the crossed locks were met after each look.
const MET: &[usize] = &[
    3, 5, 6, 8, 10, 12, 14, 14, 15, 15, 16, 17, 18, 19, 19, 21, 21, 22, 22, 23, 23, 24, 25, 26, 26,
    26,
];

/// Nobody.
#[derive(Drop)]
struct Nobody;

impl Watcher for Nobody {
    ghost learns = { λ old looked states new. Unit {0} };

    fn tell(&mut self, _looked: usize, _states: usize) {}
}

/// Learns how far the search is, and compares it with how many states are to be met after each look.
#[derive(Drop)]
struct Learner {
    met: &'static [usize],
    looked: usize,
    as_expected: bool,
}

impl Watcher for Learner {
    ghost learns = { λ old looked states new. Unit {0} };

    fn tell(&mut self, looked: usize, states: usize) {
        let is_next = looked == self.looked.saturating_add(1);
        let is_met = match self.met.get(self.looked) {
            Some(met) => *met == states,
            None => false,
        };
        self.as_expected = self.as_expected && is_next && is_met;
        self.looked = looked;
    }
}

fn ask_of(alloc: Global, does: Does) -> Result<Ask, Refusal> {
    match does {
        Takes(lock) => {
            let mut handles = Handles::new(alloc);
            handles.push(Handle::new(lock))?;
            Ok(Ask::Call(Call::Wait(WaitCall::Objects {
                handles,
                all: false,
                mode: WaitMode {
                    ms: INFINITE,
                    alertable: false,
                },
            })))
        }
        Gives(lock) => Ok(Ask::Call(Call::Act(Act::ReleaseMutex(Handle::new(lock))))),
        Drops(lock) => {
            let mut acts = Vec::new(alloc);
            acts.push(Some(Act::ReleaseMutex(Handle::new(lock))))?;
            acts.push(Some(Act::Close(Handle::new(lock))))?;
            Ok(Ask::Tries(acts))
        }
    }
}

/// Adds to a lane what its thread does.
fn add(alloc: Global, plan: &mut Plan, lane: u32, asks: &[Does]) -> Result<(), Refusal> {
    for does in asks {
        let ask = ask_of(alloc, *does)?;
        plan.add(lane, ask).map_err(|_| Refusal::Memory)?;
    }
    Ok(())
}

/// What the threads of a row do.
fn plan_of(alloc: Global, lanes: &[&[Does]]) -> Result<Plan, Refusal> {
    let threads = lanes.len().min(3) as u32;
    let mut plan = Plan::new(alloc, threads).map_err(|_| Refusal::Memory)?;
    for lane in 0..threads {
        if let Some(asks) = lanes.get(lane as usize) {
            add(alloc, &mut plan, lane, asks)?;
        }
    }
    Ok(plan)
}

/// Makes the locks.
fn make_locks(core: &mut Core, locks: u32) -> Result<(), Refusal> {
    let _inside: Option<Apc> = None;
    for _ in 0..locks {
        core.call(0, &Call::Act(Act::CreateMutex(0)))?;
    }
    Ok(())
}

fn is_loss(loss: &Option<Loss>, told: &Option<(&[u32], u32)>) -> bool {
    match (loss, told) {
        (Some(loss), Some(told)) => loss.lanes.as_slice() == told.0 && loss.thread == told.1,
        (None, None) => true,
        _ => false,
    }
}

fn is_verdict(verdict: &OrderVerdict, told: &Told) -> bool {
    match (verdict, told) {
        (OrderVerdict::Hangs { lanes, loss }, Told::Hangs(order, lost)) => {
            lanes.as_slice() == *order && is_loss(loss, lost)
        }
        (OrderVerdict::None, Told::None) => true,
        (OrderVerdict::Met { level }, Told::Met(most)) => level == most,
        _ => false,
    }
}

/// Whether the search came to just what the row says.
fn is_told(explored: &Explored, row: &Row) -> bool {
    explored.states == row.states
        && explored.steps == row.steps
        && explored.hangs == row.hangs
        && is_verdict(&explored.verdict, &row.told)
}

/// Whether a search from this dispatcher does.
fn explores(alloc: Global, core: &mut Core, row: &Row) -> Result<bool, Refusal> {
    make_locks(core, row.locks)?;
    let plan = plan_of(alloc, row.lanes)?;
    let explored = explore(alloc, core, &plan, row.most, &mut Nobody);
    let Ok(explored) = explored else {
        return Err(Refusal::Memory);
    };
    Ok(is_told(&explored, row))
}

fn is_row(alloc: Global, row: &Row) -> Result<bool, Refusal> {
    let mut core = Core::new(alloc, row.lanes.len().min(3) as u32)?;
    explores(alloc, &mut core, row)
}

/// `is_row`, with a second try where memory is refused.
fn is_row_at_last(rt: &impl CoreHost, row: &Row) -> Result<bool, Refusal> {
    is_row(rt.alloc(), row).or_else(|refusal| {
        tell_refusal(rt, refusal, "every order");
        is_row(rt.alloc(), row)
    })
}

fn tells_just_this(rt: &impl CoreHost, rows: &[Row]) {
    for row in rows {
        let told = is_row_at_last(rt, row);
        expect(rt, matches!(told, Ok(true)), row.name);
    }
}

/// Whether a search of the crossed locks from this dispatcher reports, after each look, exactly the next number in `met`.
fn learns(
    alloc: Global,
    core: &mut Core,
    most: usize,
    met: &'static [usize],
) -> Result<bool, Refusal> {
    make_locks(core, 2)?;
    let plan = plan_of(alloc, CROSSED)?;
    let mut learner = Learner {
        met,
        looked: 0,
        as_expected: true,
    };
    let explored = explore(alloc, core, &plan, most, &mut learner);
    if explored.is_err() {
        return Err(Refusal::Memory);
    }
    Ok(learner.as_expected && learner.looked == met.len())
}

fn is_learned(alloc: Global, most: usize, met: &'static [usize]) -> Result<bool, Refusal> {
    let mut core = Core::new(alloc, 2)?;
    learns(alloc, &mut core, most, met)
}

/// `is_learned`, with a second try where memory is refused.
fn is_learned_at_last(
    rt: &impl CoreHost,
    most: usize,
    met: &'static [usize],
) -> Result<bool, Refusal> {
    is_learned(rt.alloc(), most, met).or_else(|refusal| {
        tell_refusal(rt, refusal, "a watcher");
        is_learned(rt.alloc(), most, met)
    })
}

// (A test is run once for each growth, with that one refused: so each of the large searches is a test by itself.)

#[test]
fn crossed_locks_hang(rt: HostRuntime) {
    tells_just_this(&rt, LOCKS);
}

#[test]
fn acts_are_tried_until_one_is_refused(rt: HostRuntime) {
    tells_just_this(&rt, DROPPED);
}

#[test]
fn philosophers_hang(rt: HostRuntime) {
    tells_just_this(&rt, PHILOSOPHERS);
}

#[test]
fn philosophers_who_take_the_lower_fork_first_do_not_hang(rt: HostRuntime) {
    tells_just_this(&rt, LOWER_FIRST);
}

#[test]
fn of_threads_that_stand_alike_only_the_lowest_goes(rt: HostRuntime) {
    tells_just_this(&rt, LOWEST);
}

#[test]
fn a_watcher_learns_of_each_look(rt: HostRuntime) {
    let all = is_learned_at_last(&rt, 1000, MET);
    expect(&rt, matches!(all, Ok(true)), "all states are looked at");
}

#[test]
fn a_watcher_learns_of_no_look_past_the_bound(rt: HostRuntime) {
    let bound = is_learned_at_last(&rt, 7, &[3, 5, 6, 8]);
    expect(&rt, matches!(bound, Ok(true)), "more than 7 states are met");
}
