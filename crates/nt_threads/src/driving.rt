//! The plan, carried out by a thread for each door.
ghost use Rattle.std.specs.Prelude.{◌≡◌, ◌++◌, ◌∷◌, ◌+◌, ◌*◌, ◌<◌, ◌≤◌, ◌^◌, [], true, map, vec_len, vec_capacity, IfSome, IfNone};
ghost use Rattle.nt_threads.specs.declared.plan.Objects.{Objects};
ghost use Rattle.nt_threads.specs.Plans.{carried_out, led};

use crate::door::Door;
use crate::plan::{Objects, Plan, Worked, create_all, lead, work};
use nt_core::Act;
use nt_status::MAX_THREADS;
use std::alloc::Global;
use std::snapshot::Snapshot;
use std::sync::Wait;
use std::sync::atomic::{AtomicBool, Ordering};
use std::thread;
use std::thread::{Promise, Scope, Threads};

/// The doors after the plan, in their order, and whether all of it was carried out: no call was refused, and every thread was
/// started.
#[derive(Drop)]
pub struct Driven<D: Door> {
    pub doors: Vec<D>,
    pub whole: bool,
}

/// The door that comes back is the one that went, and where the work is whole it made a worker's calls and no others.
#[derive(Drop)]
struct Works<D> {
    door: Snapshot<D>,
    objects: Objects,
    rounds: u32,
}

impl<D: Door> Promise<Worked<D>> for Works<D> {
    ghost use Rattle.std.specs.Prelude.{◌≡◌, ◌++◌, true};
    ghost use Rattle.nt_threads.specs.Plans.{work_of};

    ghost kept_by = { λ p r. (D.thread_of r.door ≡ D.thread_of p.door.value)
        × (r.whole ≡ true → D.made_of r.door ≡ D.made_of p.door.value ++ work_of p.objects p.rounds) };
}

/// Carries out the plan by a thread for each door, this one for the first.
///
/// The first creates a mutex, a semaphore with room for each release and a manual-reset event, starts the others, sets the
/// event, and waits for the end of all. Each of the others waits for the event; `rounds` times it waits for the mutex,
/// releases the semaphore by 1 and releases the mutex; then it ends. After a refusal a thread ends at once, and
/// where a thread cannot be started, no further one is. `back` takes the doors.
pub fn drive<D: Door + Send, R: Threads + Wait + Sync>(
    rt: &R,
    alloc: Global,
    doors: Vec<D>,
    back: Vec<D>,
    rounds: u32,
) -> Driven<D>
    requires back { (back.items ≡ []) × (vec_len doors ≤ vec_capacity back) }
    requires threads { vec_len doors ≤ MAX_THREADS }
    requires releases { vec_len doors * rounds < 2 ^ 31 }
    ensures threads { map D.thread_of result.doors.items ≡ map D.thread_of doors.items }
    ensures whole { result.whole ≡ true → (o : Objects)
        × (map D.made_of result.doors.items ≡ carried_out D.made_of o rounds doors.items) }
{
    let Some((mut first, others)) = parted(doors) else {
        return Driven {
            doors: back,
            whole: false,
        };
    };
    let workers = others.len() as u32;
    match create_all(rt, &mut first, workers * rounds) {
        Ok(objects) => {
            let plan = Plan {
                objects,
                workers,
                rounds,
                alloc,
                stopped: AtomicBool::new(false),
            };
            start_all(rt, &plan, first, others, back)
        }
        Err(_) => Driven {
            doors: end_all(rt, first, others, back),
            whole: false,
        },
    }
}

/// The first, and the others.
#[tactic(auto, using(crate::proofs::Firsts::first_and_rest, crate::proofs::Firsts::empty_of_length))]
fn parted<T: Drop>(mut items: Vec<T>) -> Option<(T, Vec<T>)>
    ensures some { IfSome result (λ r. items.items ≡ r.0 ∷ r.1.items) }
    ensures none { IfNone result (items.items ≡ []) }
{
    if items.is_empty() {
        return None;
    }
    let first = items.remove(0);
    Some((first, items))
}

/// Starts a thread for each of the others.
fn start_all<D: Door + Send, R: Threads + Wait + Sync>(
    rt: &R,
    plan: &Plan,
    first: D,
    others: Vec<D>,
    back: Vec<D>,
) -> Driven<D>
    requires back { (back.items ≡ []) × (vec_len others + 1 ≤ vec_capacity back) }
    ensures threads { map D.thread_of result.doors.items ≡ D.thread_of first ∷ map D.thread_of others.items }
    ensures whole { result.whole ≡ true → map D.made_of result.doors.items
        ≡ led D.made_of plan.now.objects plan.now.workers plan.now.rounds first others.items }
{
    thread::scope(
        thread::scope_env(),
        rt,
        move |scope| -> Driven<D>
            requires { (back.items ≡ []) × (vec_len others + 1 ≤ vec_capacity back) }
            ensures threads { map D.thread_of result.doors.items ≡ D.thread_of first ∷ map D.thread_of others.items }
            ensures whole { result.whole ≡ true → map D.made_of result.doors.items
                ≡ led D.made_of plan.entry.now.objects plan.entry.now.workers plan.entry.now.rounds first others.items }
        { start_each(scope, rt, plan, first, others, back) },
    )
}

/// Starts a thread for the last of the others, and for those before it, and leads them. Where one cannot be started, no
/// further one is.
fn start_each<'s, 'e: 's, D: Door + Send + 'e, R: Threads + Wait + Sync>(
    scope: &'s Scope<'s, &'e ()>,
    rt: &'e R,
    plan: &'e Plan,
    first: D,
    mut others: Vec<D>,
    back: Vec<D>,
) -> Driven<D>
    requires back { (back.items ≡ []) × (vec_len others + 1 ≤ vec_capacity back) }
    ensures threads { map D.thread_of result.doors.items ≡ D.thread_of first ∷ map D.thread_of others.items }
    ensures whole { result.whole ≡ true → map D.made_of result.doors.items
        ≡ led D.made_of plan.now.objects plan.now.workers plan.now.rounds first others.items }
    ensures count { vec_len result.doors ≡ vec_len others + 1 }
    ensures capacity { vec_capacity result.doors ≡ vec_capacity back }
{
    let Some(door) = others.pop() else {
        let mut doors = back;
        let Worked { door, whole } = lead(rt, first, plan);
        doors.push_reserved(door);
        return Driven { doors, whole };
    };
    let promise = Works {
        door: Snapshot::of(&door),
        objects: plan.objects,
        rounds: plan.rounds,
    };
    match scope.spawn_with(promise, move || work(rt, door, plan)) {
        Ok(child) => {
            let Driven { mut doors, whole } = start_each(scope, rt, plan, first, others, back);
            let worked = child.join(rt);
            doors.push_reserved(worked.door);
            Driven {
                doors,
                whole: whole && worked.whole,
            }
        }
        Err(refused) => {
            plan.stopped.store(true, Ordering::SeqCst);
            let worked = (refused.value)();
            let mut doors = stop_all(rt, plan, first, others, back);
            doors.push_reserved(worked.door);
            Driven {
                doors,
                whole: false,
            }
        }
    }
}

/// Lets the workers begin that were started, and ends the first thread and those that were not started.
fn stop_all<D: Door, R: Wait>(rt: &R, plan: &Plan, first: D, others: Vec<D>, back: Vec<D>) -> Vec<D>
    requires back { (back.items ≡ []) × (vec_len others + 1 ≤ vec_capacity back) }
    ensures threads { map D.thread_of result.items ≡ D.thread_of first ∷ map D.thread_of others.items }
    ensures count { vec_len result ≡ vec_len others + 1 }
    ensures capacity { vec_capacity result ≡ vec_capacity back }
{
    let mut first = first;
    let _ = first.act(rt, Act::SetEvent(plan.objects.start));
    end_all(rt, first, others, back)
}

/// Ends the threads of these doors.
fn end_all<D: Door, R: Wait>(rt: &R, first: D, others: Vec<D>, back: Vec<D>) -> Vec<D>
    requires back { (back.items ≡ []) × (vec_len others + 1 ≤ vec_capacity back) }
    ensures threads { map D.thread_of result.items ≡ D.thread_of first ∷ map D.thread_of others.items }
    ensures count { vec_len result ≡ vec_len others + 1 }
    ensures capacity { vec_capacity result ≡ vec_capacity back }
{
    let mut others = others;
    let Some(mut door) = others.pop() else {
        let mut first = first;
        let mut doors = back;
        let _ = first.exit(rt);
        doors.push_reserved(first);
        return doors;
    };
    let mut doors = end_all(rt, first, others, back);
    let _ = door.exit(rt);
    doors.push_reserved(door);
    doors
}
