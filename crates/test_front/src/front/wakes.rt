//! Each public call that can grant a thread which sleeps wakes it: a body that forgets the bell leaves the sleeper asleep, and its test never ends.
use crate::expect::{expect_at, expect_equal};
use crate::front::crew::Crew;
use crate::front::jobs::{Job, Manner, call};
use crate::front::runs::{NEVER, Roll, man_all};
use crate::front::steps::{Creation, ENDLESS, INFINITE, objects};
use crate::front::told::Learned;
use crate::refused::is_refusing;
use nt_core::{Act, WaitCall, WaitMode};
use nt_front::{Begun, Exited, Front, Held, Named, Pass, Waited};
use nt_status::{Handle, Moment};
use std::alloc::Global;
use std::sync::Wait;
use std::sync::atomic::Ordering;
use std::test::Fail;
use std::thread;
use std::thread::Threads;
use std::time::{Clock, Duration};

/// The first thread, whose end a thread can wait for.
const FIRST: u32 = 0;

/// What the sleeper waits for.
const STARTS: u32 = 2;

/// What the sleeper sets once it has been woken.
const ANSWERS: u32 = 3;

/// The call that wakes the sleeper.
#[derive(Clone, Copy)]
pub enum Way {
    Call,
    Tick,
    /// Sets this event, after a second.
    SetLater(u32),
    /// A wait that begins by a signal, and ends at once.
    Begin,
    /// A wait that begins by a signal, and pends until the sleeper has answered.
    BeginAndSleep,
    Wait,
    Exit,
}

/// Waits asleep for one object, or for 1 ms where none is named; and then sets an event, where one is named.
pub fn sleep<N: Named>(
    rt: &impl Wait,
    front: &Front<N>,
    crew: &Crew,
    pass: Pass<N>,
    object: Option<u32>,
    sets: Option<u32>,
    told: &mut Learned,
) -> Held<N> {
    let asked = match object {
        Some(object) => objects(crew.alloc, &[Handle::new(object)], false, ENDLESS),
        None => Ok(WaitCall::Sleep(WaitMode {
            ms: 1,
            alertable: false,
        })),
    };
    crew.awaited.fetch_add(1, Ordering::SeqCst);
    let Ok(asked) = asked else {
        told.lost();
        return Held::Pass(pass);
    };
    let mut pass = wait(rt, front, pass, asked, told);
    if let Some(event) = sets {
        let set = Act::SetEvent(Handle::new(event));
        call(rt, front, &mut pass, set, told);
    }
    Held::Pass(pass)
}

/// Makes a wait that ends.
fn wait<N: Named>(
    rt: &impl Wait,
    front: &Front<N>,
    pass: Pass<N>,
    asked: WaitCall,
    told: &mut Learned,
) -> Pass<N> {
    match front.wait(rt, pass, asked) {
        Waited::Done(pass, receipt) => {
            told.called(&receipt);
            pass
        }
        Waited::Granted(pass, begun, granted) => {
            told.called(&begun);
            told.granted(&granted);
            pass
        }
        Waited::NoRoom(pass) => {
            told.lost();
            pass
        }
    }
}

/// The same by a begin, and a sleep where it pends.
fn begin<N: Named>(
    rt: &impl Wait,
    front: &Front<N>,
    pass: Pass<N>,
    asked: WaitCall,
    told: &mut Learned,
) -> Pass<N> {
    match front.begin(rt, pass, asked) {
        Begun::Done(pass, receipt) => {
            told.called(&receipt);
            pass
        }
        Begun::Pended(sleeper, begun) => {
            told.called(&begun);
            let (pass, granted) = front.sleep(rt, sleeper);
            told.granted(&granted);
            pass
        }
        Begun::NoRoom(pass) => {
            told.lost();
            pass
        }
    }
}

/// Signals what the sleeper waits for, and waits for its answer.
fn swap(ms: u32) -> WaitCall {
    WaitCall::Swap {
        signal: Handle::new(STARTS),
        object: Handle::new(ANSWERS),
        mode: WaitMode {
            ms,
            alertable: false,
        },
    }
}

/// Lets 1 ms pass.
fn tick<N: Named>(rt: &impl Wait, front: &Front<N>, pass: &mut Pass<N>, told: &mut Learned) {
    let Some(moment) = Moment::new(10_000) else {
        told.lost();
        return;
    };
    match front.tick(rt, pass, moment) {
        Ok(receipt) => told.called(&receipt),
        Err(_) => told.lost(),
    }
}

/// Sets the event.
fn set<N: Named>(
    rt: &impl Wait,
    front: &Front<N>,
    mut pass: Pass<N>,
    event: u32,
    told: &mut Learned,
) -> Held<N> {
    let act = Act::SetEvent(Handle::new(event));
    call(rt, front, &mut pass, act, told);
    Held::Pass(pass)
}

/// Ends the thread.
fn exit<N: Named>(rt: &impl Wait, front: &Front<N>, pass: Pass<N>, told: &mut Learned) -> Held<N> {
    match front.exit(rt, pass) {
        Exited::Ended(ended, receipt) => {
            told.called(&receipt);
            Held::Ended(ended)
        }
        Exited::NoRoom(pass) => {
            told.lost();
            Held::Pass(pass)
        }
    }
}

/// Makes this call once each other thread has come to its wait.
pub fn wake<N: Named, R: Wait + Clock>(
    rt: &R,
    front: &Front<N>,
    crew: &Crew,
    mut pass: Pass<N>,
    way: Way,
    told: &mut Learned,
) -> Held<N> {
    for _ in rt.forever() {
        if crew.awaited.load(Ordering::SeqCst) >= u64::from(crew.threads.saturating_sub(1)) {
            break;
        }
        thread::yield_now();
    }
    // Longer than a thread looks for its grant before it sleeps.
    let pause = if matches!(way, Way::SetLater(_)) {
        1000
    } else {
        20
    };
    thread::sleep(rt, Duration::from_millis(pause));
    match way {
        Way::Call => set(rt, front, pass, STARTS, told),
        Way::SetLater(event) => set(rt, front, pass, event, told),
        Way::Tick => {
            tick(rt, front, &mut pass, told);
            Held::Pass(pass)
        }
        Way::Begin => Held::Pass(begin(rt, front, pass, swap(0), told)),
        Way::BeginAndSleep => Held::Pass(begin(rt, front, pass, swap(INFINITE), told)),
        Way::Wait => Held::Pass(wait(rt, front, pass, swap(INFINITE), told)),
        Way::Exit => exit(rt, front, pass, told),
    }
}

/// A thread makes the call, and another one sleeps until then.
const fn woken(jobs: &'static [Job]) -> Roll {
    Roll {
        threads: 2,
        creations: &[Creation::Event(0), Creation::Event(0)],
        jobs,
        roaming: 0,
        room: 100,
        every: NEVER,
    }
}

/// Sleeps until the event is set.
const SLEEPS: Job = Job::Sleep {
    object: Some(STARTS),
    sets: None,
};

/// Sleeps until the event is set, and answers.
const ANSWERS_THEN: Job = Job::Sleep {
    object: Some(STARTS),
    sets: Some(ANSWERS),
};

/// Sleeps until the first thread ends.
const SLEEPS_TO_THE_END: Job = Job::Sleep {
    object: Some(FIRST),
    sets: None,
};

/// Sleeps for 1 ms.
const SLEEPS_BY_TIME: Job = Job::Sleep {
    object: None,
    sets: None,
};

/// Each call, with how many calls and grants the journal has then, after two creations.
const WAYS: &[(&[Job], u64, u64)] = &[
    // the wait and the call that ends it
    (&[Job::Wake(Way::Call), SLEEPS], 4, 1),
    (&[Job::Wake(Way::Tick), SLEEPS_BY_TIME], 4, 1),
    (&[Job::Wake(Way::Begin), SLEEPS], 4, 1),
    (&[Job::Wake(Way::Exit), SLEEPS_TO_THE_END], 4, 1),
    // the answer too, which ends the other wait
    (&[Job::Wake(Way::BeginAndSleep), ANSWERS_THEN], 5, 2),
    (&[Job::Wake(Way::Wait), ANSWERS_THEN], 5, 2),
];

/// How many calls and grants the journal of this crew has; none of either where something is wrong.
fn calls_and_grants<R: Threads + Wait + Clock + Sync>(
    rt: &R,
    alloc: Global,
    roll: Roll,
) -> Result<(u64, u64), Fail> {
    let seen = man_all(rt, alloc, roll, 0)?;
    let wrong = (seen.lost, seen.sleeping, seen.differ, seen.difference);
    if wrong != (0, 0, 0, 0) {
        return Ok((0, 0));
    }
    Ok((seen.calls.count, seen.grants.count))
}

#[test]
fn each_call_wakes_whom_it_grants(rt: HostRuntime) -> Result<(), Fail> {
    if is_refusing(&rt) {
        return Ok(());
    }
    for (place, (jobs, calls, grants)) in WAYS.iter().enumerate() {
        let seen = calls_and_grants(&rt, rt.alloc(), woken(jobs))?;
        expect_at(&rt, seen == (*calls, *grants), "way", place as u64);
    }
    Ok(())
}

/// One thread sets a manual-reset event; each other one sleeps until then, once its wait has pended.
const fn waiters(threads: u32, jobs: &'static [Job]) -> Roll {
    Roll {
        threads,
        creations: &[Creation::Event(1)],
        jobs,
        roaming: 0,
        room: 100,
        every: NEVER,
    }
}

/// A creation, three waits, and the set that ends them.
#[test]
fn one_call_wakes_three_sleepers(rt: HostRuntime) -> Result<(), Fail> {
    if is_refusing(&rt) {
        return Ok(());
    }
    const JOBS: &[Job] = &[
        Job::Wake(Way::SetLater(4)),
        Job::Await {
            event: 4,
            manner: Manner::Asleep,
        },
    ];
    let seen = calls_and_grants(&rt, rt.alloc(), waiters(4, JOBS))?;
    expect_equal(&rt, seen, (5, 3), "calls and grants");
    Ok(())
}

/// `tests/threads` runs this alone, and looks at the processor time that it uses.
#[test]
fn a_thread_sleeps_for_a_second(rt: HostRuntime) -> Result<(), Fail> {
    if is_refusing(&rt) {
        return Ok(());
    }
    const JOBS: &[Job] = &[
        Job::Wake(Way::SetLater(2)),
        Job::Await {
            event: 2,
            manner: Manner::Asleep,
        },
    ];
    let seen = calls_and_grants(&rt, rt.alloc(), waiters(2, JOBS))?;
    expect_equal(&rt, seen, (3, 1), "calls and grants");
    Ok(())
}
