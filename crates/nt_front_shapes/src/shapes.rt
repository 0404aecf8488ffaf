//! What is timed. `bench/front.c` makes the same calls under the same names, but for those of `Rotate`: it has no parts.

use nt_status::{Handle, MAX_THREADS};

/// How many untouched events a crowd has. Its threads are the most that there may be.
pub const CROWD_EVENTS: u32 = 10_000;

/// What a round is.
#[derive(Clone, Copy)]
pub enum RoundKind {
    /// An auto-reset event is set, and a wait with timeout 0 takes it.
    Event,
    /// A free mutex is waited for and released.
    Mutex,
    /// A semaphore is released, and waited for.
    Semaphore,
    /// A wait with timeout 0 for any of 64 events, none of which is set.
    AnyOf64,
    /// 64 threads wait for all of a common event and one of their own. One's own is set, and then the common one; it waits again.
    OneOf64,
    /// One of this number of periodic timers comes due in a tick.
    Ticks(u32),
    /// Two threads set each other's event and wait for their own.
    RoundTrip,
    /// This number of workers wait for a mutex, release a semaphore and release the mutex, as `ntrun threads` has them do.
    Workers(u32),
    /// The calls of `Event` on the dispatcher alone, with no lock and no journal.
    Core,
    /// The calls of `Core`, with an entry written for each.
    CoreAndJournal,
    /// A lock is taken and given back.
    Lock,
    /// A part of the journal is taken: with the entries that set the stage at first, and from then on with none.
    Rotate,
}

/// What there is beside the threads and objects of the rounds.
#[derive(Clone, Copy)]
pub enum Company {
    Nothing,
    /// A thread that waits for an event of its own, asleep: a process in which nobody could meet another needs no lock.
    Sleeper,
    /// Threads and objects that no call touches.
    Crowd,
}

/// A round under its name, with what stands beside it.
#[derive(Clone, Copy)]
pub struct FrontShape {
    pub name: &'static str,
    pub kind: RoundKind,
    pub company: Company,
}

pub const SHAPES: &[FrontShape] = &[
    FrontShape {
        name: "event",
        kind: RoundKind::Event,
        company: Company::Nothing,
    },
    FrontShape {
        name: "event_beside",
        kind: RoundKind::Event,
        company: Company::Sleeper,
    },
    FrontShape {
        name: "event_crowd",
        kind: RoundKind::Event,
        company: Company::Crowd,
    },
    FrontShape {
        name: "mutex",
        kind: RoundKind::Mutex,
        company: Company::Nothing,
    },
    FrontShape {
        name: "mutex_beside",
        kind: RoundKind::Mutex,
        company: Company::Sleeper,
    },
    FrontShape {
        name: "mutex_crowd",
        kind: RoundKind::Mutex,
        company: Company::Crowd,
    },
    FrontShape {
        name: "semaphore",
        kind: RoundKind::Semaphore,
        company: Company::Nothing,
    },
    FrontShape {
        name: "semaphore_beside",
        kind: RoundKind::Semaphore,
        company: Company::Sleeper,
    },
    FrontShape {
        name: "semaphore_crowd",
        kind: RoundKind::Semaphore,
        company: Company::Crowd,
    },
    FrontShape {
        name: "any_of_64",
        kind: RoundKind::AnyOf64,
        company: Company::Nothing,
    },
    FrontShape {
        name: "any_of_64_crowd",
        kind: RoundKind::AnyOf64,
        company: Company::Crowd,
    },
    FrontShape {
        name: "one_of_64",
        kind: RoundKind::OneOf64,
        company: Company::Nothing,
    },
    FrontShape {
        name: "one_of_64_crowd",
        kind: RoundKind::OneOf64,
        company: Company::Crowd,
    },
    FrontShape {
        name: "tick_100",
        kind: RoundKind::Ticks(100),
        company: Company::Nothing,
    },
    FrontShape {
        name: "tick_10000",
        kind: RoundKind::Ticks(10_000),
        company: Company::Nothing,
    },
    FrontShape {
        name: "round_trip",
        kind: RoundKind::RoundTrip,
        company: Company::Nothing,
    },
    FrontShape {
        name: "round_trip_crowd",
        kind: RoundKind::RoundTrip,
        company: Company::Crowd,
    },
    FrontShape {
        name: "threads_2",
        kind: RoundKind::Workers(2),
        company: Company::Nothing,
    },
    FrontShape {
        name: "threads_8",
        kind: RoundKind::Workers(8),
        company: Company::Nothing,
    },
    FrontShape {
        name: "threads_64",
        kind: RoundKind::Workers(64),
        company: Company::Nothing,
    },
    FrontShape {
        name: "core_alone",
        kind: RoundKind::Core,
        company: Company::Nothing,
    },
    FrontShape {
        name: "core_and_journal",
        kind: RoundKind::CoreAndJournal,
        company: Company::Nothing,
    },
    FrontShape {
        name: "bare_lock",
        kind: RoundKind::Lock,
        company: Company::Nothing,
    },
    FrontShape {
        name: "rotate",
        kind: RoundKind::Rotate,
        company: Company::Nothing,
    },
    FrontShape {
        name: "rotate_crowd",
        kind: RoundKind::Rotate,
        company: Company::Crowd,
    },
];

pub fn shape_named(name: &str) -> Option<FrontShape> {
    for shape in SHAPES {
        if shape.name == name {
            return Some(*shape);
        }
    }
    None
}

impl FrontShape {
    /// How many threads the front has.
    pub fn threads(&self) -> u32 {
        match (self.company, self.kind) {
            (Company::Crowd, _) => MAX_THREADS,
            (Company::Sleeper, _) | (_, RoundKind::RoundTrip) => 2,
            (_, RoundKind::OneOf64) => 65,
            (_, RoundKind::Workers(workers)) => workers.wrapping_add(1),
            _ => 1,
        }
    }

    /// The handle of the first object that the rounds use: those of the threads and of the crowd come before it.
    pub fn first_handle(&self) -> u32 {
        self.threads().wrapping_add(self.crowd())
    }

    /// How many events the crowd has.
    pub fn crowd(&self) -> u32 {
        match self.company {
            Company::Crowd => CROWD_EVENTS,
            _ => 0,
        }
    }

    /// The event by which the thread beside the rounds says that it is there. It comes after the one object of a pair.
    pub fn ready_event(&self) -> Handle {
        Handle::new(self.first_handle().wrapping_add(1))
    }

    /// The event for which the thread beside the rounds waits.
    pub fn last_event(&self) -> Handle {
        Handle::new(self.first_handle().wrapping_add(2))
    }

    /// How many entries the calls that set the stage and `rounds` rounds write at the most.
    pub fn entries(&self, rounds: u32) -> usize {
        let (stage, each) = match self.kind {
            RoundKind::AnyOf64 => (64, 1),
            RoundKind::Rotate => (8, 0),
            RoundKind::OneOf64 => (256, 4),
            RoundKind::Ticks(timers) => (timers.saturating_mul(2), 1),
            RoundKind::RoundTrip => (8, 6),
            RoundKind::Workers(workers) => (
                workers.saturating_mul(3).saturating_add(7),
                workers.saturating_mul(4),
            ),
            _ => (16, 2),
        };
        let calls = (each as usize).saturating_mul(rounds as usize);
        calls
            .saturating_add(stage as usize)
            .saturating_add(self.crowd() as usize)
    }
}
