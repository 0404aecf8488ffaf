//! A crew: a thread for each pass of one front, each with a job, and the history that they leave.
ghost use Rattle.std.specs.Prelude.{◌≡◌, ◌+◌, ◌<◌, ◌≤◌, [], vec_len, vec_capacity, IfOk};

use crate::front::jobs::{Job, work};
use crate::front::parts::Parts;
use crate::front::seen::{Seen, look_at};
use crate::front::steps::Creation;
use crate::front::told::{Learned, let_go};
use nt_core::Reply;
use nt_front::{Blank, Carried, Front, Held, History, Named, Pass, open};
use nt_status::{Handle, Refusal, ThreadId};
use std::alloc::{AllocError, Global};
use std::sync::Wait;
use std::sync::atomic::AtomicU64;
use std::thread;
use std::thread::{Promise, Scope, Threads};
use std::time::Clock;

/// What the threads of a crew share.
#[derive(Drop)]
pub struct Crew {
    pub alloc: Global,
    pub threads: u32,
    /// What the first thread creates before the others start.
    pub creations: &'static [Creation],
    /// The thread with the number t has the job at t; those past the last have the last.
    pub jobs: &'static [Job],
    /// How many threads roam.
    pub roaming: AtomicU64,
    /// How many waits have come, or pended.
    pub awaited: AtomicU64,
    /// How often the clock ticks at the most.
    pub ticks: u64,
    /// From which the calls of those that roam are drawn.
    pub seed: u64,
    /// The parts of the journal that the threads take.
    pub parts: Parts,
}

impl Crew {
    fn job_of(&self, thread: ThreadId) -> Job {
        match self.jobs.get(usize::from(thread.get())) {
            Some(job) => *job,
            None => match self.jobs.last() {
                Some(job) => *job,
                None => Job::Tick,
            },
        }
    }
}

/// What a thread brings back.
#[derive(Drop)]
pub struct MemberResult<N: Named> {
    held: Carried<Held<N>>,
    thread: ThreadId,
    told: Learned,
}

/// Of what comes back nothing is promised.
#[derive(Clone, Copy)]
pub struct Nothing;

impl<N: Named> Promise<MemberResult<N>> for Nothing {
    ghost use Rattle.std.specs.Prelude.{◌≡◌};

    ghost kept_by = { λ p r. p ≡ p };
}

/// A thread of the crew does its job.
fn serve_in<N: Named, R: Wait + Clock>(
    rt: &R,
    front: &Front<N>,
    crew: &Crew,
    carried: Carried<Pass<N>>,
    mut told: Learned,
) -> MemberResult<N> {
    let pass = carried.into_hold();
    let thread = pass.thread();
    let held = work(rt, front, crew, pass, crew.job_of(thread), &mut told);
    MemberResult {
        held: Carried { hold: held },
        thread,
        told,
    }
}

/// Starts a thread for each carrier, and does the first thread's job beside them.
fn start_each<'s, 'e: 's, N: Named + Send + Sync + 'e, R: Threads + Wait + Clock + Sync>(
    scope: &'s Scope<'s, &'e ()>,
    rt: &'e R,
    front: &'e Front<N>,
    crew: &'e Crew,
    first: Carried<Pass<N>>,
    told: Learned,
    mut carriers: Vec<Carried<Pass<N>>>,
    back: Vec<MemberResult<N>>,
) -> Vec<MemberResult<N>>
    requires { vec_len back + vec_len carriers < vec_capacity back }
    ensures count { vec_len result ≤ vec_len back + vec_len carriers + 1 }
    ensures capacity { vec_capacity result ≡ vec_capacity back }
{
    let Some(carried) = carriers.pop() else {
        let mut back = back;
        back.push_reserved(serve_in(rt, front, crew, first, told));
        return back;
    };
    match scope.spawn_with(
        Nothing,
        move || serve_in(rt, front, crew, carried, Learned::default()),
    ) {
        Ok(child) => {
            let mut back = start_each(scope, rt, front, crew, first, told, carriers, back);
            back.push_reserved(child.join(rt));
            back
        }
        Err(_) => start_each(scope, rt, front, crew, first, told, carriers, back),
    }
}

fn start_all<N: Named + Send + Sync, R: Threads + Wait + Clock + Sync>(
    rt: &R,
    front: &Front<N>,
    crew: &Crew,
    first: Carried<Pass<N>>,
    told: Learned,
    carriers: Vec<Carried<Pass<N>>>,
    back: Vec<MemberResult<N>>,
) -> Vec<MemberResult<N>>
    requires { vec_len back + vec_len carriers < vec_capacity back }
    ensures { vec_len result ≤ vec_len back + vec_len carriers + 1 }
{
    thread::scope(
        thread::scope_env(),
        rt,
        move |scope| -> Vec<MemberResult<N>>
            requires { vec_len back + vec_len carriers < vec_capacity back }
            ensures { vec_len result ≤ vec_len back + vec_len carriers + 1 }
        { start_each(scope, rt, front, crew, first, told, carriers, back) },
    )
}

/// Creates the objects of the crew, in their order: their handles follow on from those of the threads.
fn create_all<N: Named>(
    rt: &impl Wait,
    front: &Front<N>,
    pass: &mut Pass<N>,
    threads: u32,
    creations: &[Creation],
    told: &mut Learned,
) {
    let mut next = threads;
    for creation in creations {
        let wanted = Ok(Reply::Handle(Handle::new(next)));
        next = next.wrapping_add(1);
        match front.call(rt, pass, creation.act()) {
            Ok(receipt) if receipt.result == wanted => told.called(&receipt),
            _ => told.lost(),
        }
    }
}

/// Takes the passes into carriers, the first thread's last.
fn carry<N: Named>(
    mut passes: Vec<Pass<N>>,
    carriers: Vec<Carried<Pass<N>>>,
) -> Vec<Carried<Pass<N>>>
    requires { (carriers.items ≡ []) × (vec_len passes ≤ vec_capacity carriers) }
    ensures count { vec_len result ≡ vec_len passes }
    ensures capacity { vec_capacity result ≡ vec_capacity carriers }
{
    let mut carriers = carriers;
    while let Some(pass) = passes.pop() {
        carriers.push_reserved(Carried { hold: pass });
    }
    passes.destroy_empty();
    carriers
}

/// Puts the holds of all threads together, and ends the front.
fn finish<N: Named>(
    front: Front<N>,
    mut back: Vec<MemberResult<N>>,
    mut holds: Vec<Held<N>>,
    told: &mut Vec<(ThreadId, Learned)>,
    seen: &mut Seen,
) -> History
    requires holds { (holds.items ≡ []) × (vec_len back ≤ vec_capacity holds) }
    requires told { vec_len told.old + vec_len back ≤ vec_capacity told.old }
{
    while let Some(one) = back.pop() {
        let MemberResult {
            held,
            thread,
            told: known,
        } = one;
        let held = held.into_hold();
        if matches!(&held, Held::Sleeping(_)) {
            seen.sleeping = seen.sleeping.wrapping_add(1);
        }
        told.push_reserved((thread, known));
        holds.push_reserved(held);
    }
    front.finish(holds)
}

/// Has the crew do its jobs, and ends the front.
fn run<N: Named + Send + Sync, R: Threads + Wait + Clock + Sync>(
    rt: &R,
    front: Front<N>,
    mut carriers: Vec<Carried<Pass<N>>>,
    back: Vec<MemberResult<N>>,
    holds: Vec<Held<N>>,
    crew: &Crew,
    told: &mut Vec<(ThreadId, Learned)>,
    seen: &mut Seen,
) -> History
    requires back { (vec_len back ≡ 0) × (vec_len carriers ≤ vec_capacity back) }
    requires holds { (holds.items ≡ []) × (vec_len carriers ≤ vec_capacity holds) }
    requires told { vec_len told.old + vec_len carriers ≤ vec_capacity told.old }
{
    let Some(first) = carriers.pop() else {
        return front.finish(holds);
    };
    let mut pass = first.into_hold();
    let mut created = Learned::default();
    create_all(
        rt,
        &front,
        &mut pass,
        crew.threads,
        crew.creations,
        &mut created,
    );
    let first = Carried { hold: pass };
    let back = start_all(rt, &front, crew, first, created, carriers, back);
    finish(front, back, holds, told, seen)
}

/// Room for what a crew takes along and brings back.
struct Room<N: Named> {
    carriers: Vec<Carried<Pass<N>>>,
    back: Vec<MemberResult<N>>,
    holds: Vec<Held<N>>,
    told: Vec<(ThreadId, Learned)>,
}

impl<N: Named> Room<N> {
    /// Room for `threads` threads.
    fn new(alloc: Global, threads: usize) -> Result<Room<N>, AllocError>
        ensures carriers { IfOk result (λ r. (r.carriers.items ≡ []) × (threads ≤ vec_capacity r.carriers)) }
        ensures back { IfOk result (λ r. (vec_len r.back ≡ 0) × (threads ≤ vec_capacity r.back)) }
        ensures holds { IfOk result (λ r. (r.holds.items ≡ []) × (threads ≤ vec_capacity r.holds)) }
        ensures told { IfOk result (λ r. (vec_len r.told ≡ 0) × (threads ≤ vec_capacity r.told)) }
    {
        let carriers = Vec::with_capacity(alloc, threads)?;
        let back = Vec::with_capacity(alloc, threads)?;
        let told = Vec::with_capacity(alloc, threads)?;
        let holds = Vec::with_capacity(alloc, threads)?;
        Ok(Room {
            carriers,
            back,
            holds,
            told,
        })
    }

    /// Gives back what was never used.
    fn let_go(self)
        requires { self.holds.items ≡ [] }
    {
        let Room {
            carriers: _,
            back: _,
            holds,
            told: _,
        } = self;
        holds.destroy_empty();
    }
}

/// Has the crew do its jobs with these passes, and looks at all that is left.
fn seen_of<N: Named + Send + Sync, R: Threads + Wait + Clock + Sync>(
    rt: &R,
    front: Front<N>,
    passes: Vec<Pass<N>>,
    room: Room<N>,
    crew: &Crew,
) -> Result<Seen, Refusal>
    requires carriers { (room.carriers.items ≡ []) × (vec_len passes ≤ vec_capacity room.carriers) }
    requires back { (vec_len room.back ≡ 0) × (vec_len passes ≤ vec_capacity room.back) }
    requires holds { (room.holds.items ≡ []) × (vec_len passes ≤ vec_capacity room.holds) }
    requires told { (vec_len room.told ≡ 0) × (vec_len passes ≤ vec_capacity room.told) }
{
    let Room {
        carriers,
        back,
        holds,
        mut told,
    } = room;
    let mut seen = Seen::default();
    let carriers = carry(passes, carriers);
    let history = run(rt, front, carriers, back, holds, crew, &mut told, &mut seen);
    let parts = crew.parts.taken(rt);
    let looked = look_at(crew, parts.as_slice(), &history, told.as_slice(), seen);
    drop(parts);
    drop(history);
    drop(told);
    looked
}

/// Opens the front, has the crew do its jobs, and looks at all that is left.
pub fn man<N: Named + Send + Sync, R: Threads + Wait + Clock + Sync>(
    rt: &R,
    blank: Blank,
    crew: &Crew,
) -> Result<Seen, Refusal>
    requires { (blank ≡ N.front) × (blank.threads ≡ crew.now.threads) }
{
    match Room::<N>::new(crew.alloc, crew.threads as usize) {
        Ok(room) => man_in(rt, blank, room, crew),
        Err(_) => {
            let_go(blank);
            Err(Refusal::Memory)
        }
    }
}

/// The same with room for what the crew takes along.
fn man_in<N: Named + Send + Sync, R: Threads + Wait + Clock + Sync>(
    rt: &R,
    blank: Blank,
    room: Room<N>,
    crew: &Crew,
) -> Result<Seen, Refusal>
    requires front { blank ≡ N.front }
    requires carriers { (room.carriers.items ≡ []) × (blank.threads ≤ vec_capacity room.carriers) }
    requires back { (vec_len room.back ≡ 0) × (blank.threads ≤ vec_capacity room.back) }
    requires holds { (room.holds.items ≡ []) × (blank.threads ≤ vec_capacity room.holds) }
    requires told { (vec_len room.told ≡ 0) × (blank.threads ≤ vec_capacity room.told) }
{
    match open::<N>(crew.alloc, blank) {
        Ok((front, passes)) => seen_of(rt, front, passes, room, crew),
        Err(refused) => {
            room.let_go();
            Err(refused)
        }
    }
}
