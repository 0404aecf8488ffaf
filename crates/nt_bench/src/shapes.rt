//! What is timed.

use crate::turns::ThreadCall;
use nt_core::{Act, Call, WaitCall, WaitMode};
use nt_status::{Handle, Handles, INFINITE};
use std::alloc::{AllocError, Global};
use std::ops::Range;

/// A number of threads, the calls that make the objects, and a round, which leaves everything as it was before it.
#[derive(Drop)]
pub struct Shape {
    pub name: &'static str,
    pub threads: u32,
    pub prepare: Vec<ThreadCall>,
    pub round: Vec<ThreadCall>,
}

impl Shape {
    fn new(alloc: Global, name: &'static str, threads: u32) -> Self {
        Shape {
            name,
            threads,
            prepare: Vec::new(alloc),
            round: Vec::new(alloc),
        }
    }

    /// Adds `events` auto-reset events, made by thread 0. Their handles follow those of the threads.
    fn with_events(mut self, events: u32) -> Result<Self, AllocError> {
        for _ in 0..events {
            self.prepare.push(act(0, Act::CreateEvent(0)))?;
        }
        Ok(self)
    }

    fn make(mut self, who: u32, made: Act) -> Result<Self, AllocError> {
        self.prepare.push(act(who, made))?;
        Ok(self)
    }

    fn then(mut self, who: u32, asked: Act) -> Result<Self, AllocError> {
        self.round.push(act(who, asked))?;
        Ok(self)
    }

    /// A wait for `count` objects, from the handle `first` on.
    fn wait(
        mut self,
        who: u32,
        first: u32,
        count: u32,
        all: bool,
        ms: u32,
    ) -> Result<Self, AllocError> {
        let turn = wait(
            *self.round.allocator(),
            who,
            first..first.saturating_add(count),
            all,
            ms,
        )?;
        self.round.push(turn)?;
        Ok(self)
    }

    /// Each of these threads waits for this object alone, without a timeout.
    fn wait_each(mut self, threads: Range<u32>, object: u32) -> Result<Self, AllocError> {
        for who in threads {
            self = self.wait(who, object, 1, false, INFINITE)?;
        }
        Ok(self)
    }

    /// Before the round each of these threads waits for this object alone, without a timeout.
    fn begin_each(mut self, threads: Range<u32>, object: u32) -> Result<Self, AllocError> {
        for who in threads {
            let turn = wait(
                *self.prepare.allocator(),
                who,
                object..object.saturating_add(1),
                false,
                INFINITE,
            )?;
            self.prepare.push(turn)?;
        }
        Ok(self)
    }
}

fn wait(
    alloc: Global,
    who: u32,
    objects: Range<u32>,
    all: bool,
    ms: u32,
) -> Result<ThreadCall, AllocError> {
    let mut handles = Handles::new(alloc);
    for number in objects {
        handles.push(Handle::new(number))?;
    }
    let mode = WaitMode {
        ms,
        alertable: false,
    };
    let wait = WaitCall::Objects { handles, all, mode };
    Ok(ThreadCall {
        who,
        call: Call::Wait(wait),
    })
}

fn act(who: u32, act: Act) -> ThreadCall {
    ThreadCall {
        who,
        call: Call::Act(act),
    }
}

fn set(event: u32) -> Act {
    Act::SetEvent(Handle::new(event))
}

/// A set event is taken at once.
fn set_and_wait(alloc: Global) -> Result<Shape, AllocError> {
    Shape::new(alloc, "set, wait(0)", 1)
        .with_events(1)?
        .then(0, set(1))?
        .wait(0, 1, 1, false, 0)
}

/// A pending wait is granted.
fn hand_over(alloc: Global) -> Result<Shape, AllocError> {
    Shape::new(alloc, "wait, set", 2)
        .with_events(1)?
        .wait(0, 2, 1, false, INFINITE)?
        .then(1, set(2))
}

/// A wait for any of 64 events, whose last is set.
fn any_of_64(alloc: Global) -> Result<Shape, AllocError> {
    Shape::new(alloc, "wait for any of 64, set the last", 2)
        .with_events(64)?
        .wait(0, 2, 64, false, INFINITE)?
        .then(1, set(65))
}

/// A wait for all of 64 events, which are set one by one.
fn all_of_64(alloc: Global) -> Result<Shape, AllocError> {
    let mut shape = Shape::new(alloc, "wait for all of 64, set each", 2)
        .with_events(64)?
        .wait(0, 2, 64, true, INFINITE)?;
    for event in 2..66 {
        shape = shape.then(1, set(event))?;
    }
    Ok(shape)
}

/// 255 threads wait for one manual-reset event, which is pulsed.
fn pulse_255(alloc: Global) -> Result<Shape, AllocError> {
    Shape::new(alloc, "255 waits, one pulse", 256)
        .make(0, Act::CreateEvent(1))?
        .wait_each(1..256, 256)?
        .then(0, Act::PulseEvent(Handle::new(256)))
}

/// Eight threads wait for one semaphore, which is released by eight.
fn release_8(alloc: Global) -> Result<Shape, AllocError> {
    let semaphore = Act::CreateSemaphore {
        initial: 0,
        maximum: 8,
    };
    let release = Act::ReleaseSemaphore {
        semaphore: Handle::new(9),
        count: 8,
    };
    Shape::new(alloc, "8 waits, release by 8", 9)
        .make(0, semaphore)?
        .wait_each(1..9, 9)?
        .then(0, release)
}

/// A mutex goes from one thread to the other and back.
fn mutex(alloc: Global) -> Result<Shape, AllocError> {
    let unlock = Act::ReleaseMutex(Handle::new(2));
    Shape::new(alloc, "a mutex to and fro", 2)
        .make(0, Act::CreateMutex(1))?
        .wait(1, 2, 1, false, INFINITE)?
        .then(0, unlock)?
        .wait(0, 2, 1, false, INFINITE)?
        .then(1, unlock)
}

/// One thread sets what another waits for, and waits in one call; then that one sets what it waits for.
fn signal_and_wait(alloc: Global) -> Result<Shape, AllocError> {
    let mut shape = Shape::new(alloc, "wait, signal and wait, set", 2)
        .with_events(2)?
        .wait(0, 2, 1, false, INFINITE)?;
    let call = Call::Wait(WaitCall::Swap {
        signal: Handle::new(2),
        object: Handle::new(3),
        mode: WaitMode {
            ms: INFINITE,
            alertable: false,
        },
    });
    shape.round.push(ThreadCall { who: 1, call })?;
    shape.then(0, set(3))
}

/// A free mutex is taken and released by one thread.
fn free_mutex(alloc: Global) -> Result<Shape, AllocError> {
    Shape::new(alloc, "wait for a free mutex, release it", 1)
        .make(0, Act::CreateMutex(0))?
        .wait(0, 1, 1, false, 0)?
        .then(0, Act::ReleaseMutex(Handle::new(1)))
}

/// A semaphore is released by one, and taken at once.
fn free_semaphore(alloc: Global) -> Result<Shape, AllocError> {
    let semaphore = Act::CreateSemaphore {
        initial: 0,
        maximum: 1,
    };
    let release = Act::ReleaseSemaphore {
        semaphore: Handle::new(1),
        count: 1,
    };
    Shape::new(alloc, "release a semaphore, wait(0)", 1)
        .make(0, semaphore)?
        .then(0, release)?
        .wait(0, 1, 1, false, 0)
}

/// None of 64 events is set, and the wait for any of them times out at once.
fn none_of_64(alloc: Global) -> Result<Shape, AllocError> {
    Shape::new(alloc, "wait(0) for any of 64, none set", 1)
        .with_events(64)?
        .wait(0, 1, 64, false, 0)
}

/// 63 threads wait for one auto-reset event. It is set, and who gets it waits again, until each has had it.
fn event_of_63(alloc: Global) -> Result<Shape, AllocError> {
    let mut shape = Shape::new(alloc, "63 waits for one event, set in turn", 64)
        .with_events(1)?
        .begin_each(1..64, 64)?;
    for who in 1..64 {
        shape = shape.then(0, set(64))?.wait(who, 64, 1, false, INFINITE)?;
    }
    Ok(shape)
}

/// 63 threads wait for one mutex. Its owner passes it on, and waits again, until the first has it again.
fn mutex_of_64(alloc: Global) -> Result<Shape, AllocError> {
    let mut shape = Shape::new(alloc, "63 waits for one mutex, passed on", 64)
        .make(0, Act::CreateMutex(1))?
        .begin_each(1..64, 64)?;
    for who in 0..64 {
        shape = shape
            .then(who, Act::ReleaseMutex(Handle::new(64)))?
            .wait(who, 64, 1, false, INFINITE)?;
    }
    Ok(shape)
}

/// How many shapes there are.
pub const SHAPES: u32 = 13;

/// The shape of this number, which counts from 0.
pub fn shape_of(alloc: Global, number: u32) -> Result<Shape, AllocError> {
    match number {
        0 => set_and_wait(alloc),
        1 => hand_over(alloc),
        2 => any_of_64(alloc),
        3 => all_of_64(alloc),
        4 => pulse_255(alloc),
        5 => release_8(alloc),
        6 => mutex(alloc),
        7 => signal_and_wait(alloc),
        8 => free_mutex(alloc),
        9 => free_semaphore(alloc),
        10 => none_of_64(alloc),
        11 => event_of_63(alloc),
        _ => mutex_of_64(alloc),
    }
}
