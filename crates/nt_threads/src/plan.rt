//! What the threads of the plan ask of their doors.
ghost use Rattle.std.specs.Prelude.{◌≡◌, ◌++◌, ◌+◌, ◌∷◌, ◌<◌, ◌^◌, [], true, IfOk, OnOk};
ghost use Rattle.nt_calls.specs.declared.call.Act.{Act};
ghost use Rattle.nt_calls.specs.declared.call.Call.{Call};
ghost use Rattle.nt_threads.specs.Plans.{creations, lead_of, rounds_of, round_of, endless_wait_for, endless_wait_for_all, work_of, workers};

use crate::door::Door;
use nt_core::{Act, Reply, WaitCall, WaitMode};
use nt_status::{EventFlags, Handle, Handles, INFINITE, MAX_WAIT_OBJECTS, MutexFlags, Refusal};
use std::alloc::{AllocError, Global};
use std::sync::Wait;
use std::sync::atomic::{AtomicBool, Ordering};

/// The most workers: the first thread waits for all of them in one wait.
pub const MOST_WORKERS: u32 = MAX_WAIT_OBJECTS as u32;

/// The most rounds of each worker.
pub const MOST_ROUNDS: u32 = 1000;

/// The most threads: the workers and the first.
pub(crate) const MOST_THREADS: u32 = MOST_WORKERS + 1;

/// The objects that the threads of the plan share.
#[derive(Clone, Copy)]
pub struct Objects {
    pub mutex: Handle,
    pub semaphore: Handle,
    /// The manual-reset event for which the workers wait at first.
    pub start: Handle,
}

/// What each thread of the plan knows of it.
#[derive(Drop)]
pub(crate) struct Plan {
    pub(crate) objects: Objects,
    pub(crate) workers: u32,
    pub(crate) rounds: u32,
    pub(crate) alloc: Global,
    /// Whether a worker that comes now is to end at once.
    pub(crate) stopped: AtomicBool,
}

/// A thread's door after its part, and whether no call of it was refused.
#[derive(Drop)]
pub(crate) struct Worked<D: Door> {
    pub(crate) door: D,
    pub(crate) whole: bool,
}

/// Creates one object.
fn create<D: Door, R: Wait>(rt: &R, door: &mut D, act: Act) -> Result<Handle, Refusal>
    ensures thread { D.thread_of door.new ≡ D.thread_of door.old }
    ensures made { OnOk result (D.made_of door.new ≡ D.made_of door.old ++ Call.Act act ∷ []) }
{
    match door.act(rt, act)? {
        Reply::Handle(handle) => Ok(handle),
        _ => Err(Refusal::InvalidHandle),
    }
}

/// Creates the objects of the plan, with a semaphore that counts to `most`.
pub(crate) fn create_all<D: Door, R: Wait>(
    rt: &R,
    door: &mut D,
    most: u32,
) -> Result<Objects, Refusal>
    requires { most < 2 ^ 31 }
    ensures thread { D.thread_of door.new ≡ D.thread_of door.old }
    ensures made { OnOk result (D.made_of door.new ≡ D.made_of door.old ++ creations most) }
{
    let mutex = create(rt, door, Act::create_mutex(MutexFlags::NONE))?;
    let semaphore = create(
        rt,
        door,
        Act::CreateSemaphore {
            initial: 0,
            maximum: most as i32,
        },
    )?;
    let start = create(rt, door, Act::create_event(EventFlags::MANUAL_RESET))?;
    Ok(Objects {
        mutex,
        semaphore,
        start,
    })
}

/// Waits for one object.
fn wait_for<D: Door, R: Wait>(
    rt: &R,
    alloc: Global,
    door: &mut D,
    object: Handle,
) -> Result<(), Refusal>
    ensures thread { D.thread_of door.new ≡ D.thread_of door.old }
    ensures made { OnOk result (D.made_of door.new ≡ D.made_of door.old ++ endless_wait_for object ∷ []) }
{
    let wait = WaitCall::Objects {
        handles: Handles::from_slice(alloc, &[object])?,
        all: false,
        mode: WaitMode {
            ms: INFINITE,
            alertable: false,
        },
    };
    door.wait(rt, wait)?;
    Ok(())
}

/// The handles of threads 1 to `count`.
fn worker_handles(alloc: Global, count: u32) -> Result<Handles, AllocError>
    ensures { IfOk result (λ handles. handles ≡ workers count) }
{
    let mut handles = Handles::new(alloc);
    for before in 0..count {
        handles.push(Handle::new(before + 1))?;
    }
    Ok(handles)
}

/// Waits until all workers have ended.
fn wait_for_workers<D: Door, R: Wait>(
    rt: &R,
    alloc: Global,
    door: &mut D,
    count: u32,
) -> Result<(), Refusal>
    ensures thread { D.thread_of door.new ≡ D.thread_of door.old }
    ensures made { OnOk result (D.made_of door.new ≡ D.made_of door.old ++ endless_wait_for_all (workers count) ∷ []) }
{
    let wait = WaitCall::Objects {
        handles: worker_handles(alloc, count)?,
        all: true,
        mode: WaitMode {
            ms: INFINITE,
            alertable: false,
        },
    };
    door.wait(rt, wait)?;
    Ok(())
}

/// Acquires the mutex, releases the semaphore by one, and releases the mutex.
fn make_round<D: Door, R: Wait>(
    rt: &R,
    alloc: Global,
    door: &mut D,
    objects: &Objects,
) -> Result<(), Refusal>
    ensures thread { D.thread_of door.new ≡ D.thread_of door.old }
    ensures made { OnOk result (D.made_of door.new ≡ D.made_of door.old ++ round_of objects.now) }
{
    wait_for(rt, alloc, door, objects.mutex)?;
    let release = Act::ReleaseSemaphore {
        semaphore: objects.semaphore,
        count: 1,
    };
    door.act(rt, release)?;
    door.act(rt, Act::ReleaseMutex(objects.mutex))?;
    Ok(())
}

/// Makes `rounds` rounds.
fn make_rounds<D: Door, R: Wait>(
    rt: &R,
    alloc: Global,
    door: &mut D,
    objects: &Objects,
    rounds: u32,
) -> Result<(), Refusal>
    ensures thread { D.thread_of door.new ≡ D.thread_of door.old }
    ensures made { OnOk result (D.made_of door.new ≡ D.made_of door.old ++ rounds_of objects.now rounds) }
{
    for _ in 0..rounds {
        make_round(rt, alloc, door, objects)?;
    }
    Ok(())
}

/// Waits for the start, and makes the rounds of a worker.
fn start_and_work<D: Door, R: Wait>(rt: &R, door: &mut D, plan: &Plan) -> Result<(), Refusal>
    ensures thread { D.thread_of door.new ≡ D.thread_of door.old }
    ensures made { OnOk result (D.made_of door.new
        ≡ D.made_of door.old ++ endless_wait_for plan.now.objects.start ∷ rounds_of plan.now.objects plan.now.rounds) }
{
    wait_for(rt, plan.alloc, door, plan.objects.start)?;
    make_rounds(rt, plan.alloc, door, &plan.objects, plan.rounds)
}

/// A worker: it makes its rounds and ends. It ends at once after a refusal, or where the plan is stopped.
pub(crate) fn work<D: Door, R: Wait>(rt: &R, door: D, plan: &Plan) -> Worked<D>
    ensures thread { D.thread_of result.door ≡ D.thread_of door }
    ensures made { result.whole ≡ true
        → D.made_of result.door ≡ D.made_of door ++ work_of plan.now.objects plan.now.rounds }
{
    let mut door = door;
    let whole = !plan.stopped.load(Ordering::SeqCst) && start_and_work(rt, &mut door, plan).is_ok();
    let ended = door.exit(rt).is_ok();
    Worked {
        door,
        whole: whole && ended,
    }
}

/// The first thread, once the workers are started: it lets them begin, waits for the end of each, and ends. After a refusal
/// it ends at once.
pub(crate) fn lead<D: Door, R: Wait>(rt: &R, door: D, plan: &Plan) -> Worked<D>
    ensures thread { D.thread_of result.door ≡ D.thread_of door }
    ensures made { result.whole ≡ true
        → D.made_of result.door ≡ D.made_of door ++ lead_of plan.now.objects plan.now.workers }
{
    let mut door = door;
    let whole = door.act(rt, Act::SetEvent(plan.objects.start)).is_ok()
        && wait_for_workers(rt, plan.alloc, &mut door, plan.workers).is_ok();
    let ended = door.exit(rt).is_ok();
    Worked {
        door,
        whole: whole && ended,
    }
}
