//! What threads that roam ask for, drawn by a plain generator of numbers.
ghost use Rattle.std.specs.Prelude.{◌<◌};

use nt_core::{Act, WaitCall, WaitMode};
use nt_status::{Handle, Handles};
use std::alloc::{AllocError, Global};

/// INFINITE: a timeout that never passes.
pub const INFINITE: u32 = 0xFFFF_FFFF;

/// How many threads roam or tick in a crew of all sorts; the objects after theirs are numbered from here on.
pub const ROAMERS: u32 = 8;

const AUTO_RESET: u32 = ROAMERS;

const MANUAL_RESET: u32 = ROAMERS + 1;

const SEMAPHORE: u32 = ROAMERS + 2;

const MUTEX: u32 = ROAMERS + 3;

const TIMER: u32 = ROAMERS + 4;

const GATE_TIMER: u32 = ROAMERS + 5;

/// How each of these objects is created, in the order of their handles.
pub const CREATIONS: &[Creation] = &[
    Creation::Event(0),
    Creation::Event(1),
    Creation::Semaphore(1, 3),
    Creation::Mutex,
    Creation::Timer(0),
    Creation::Timer(1),
];

/// A creation as data, with its flags or counts.
#[derive(Clone, Copy)]
pub enum Creation {
    Event(u32),
    Semaphore(i32, i32),
    Mutex,
    Timer(u32),
}

impl Creation {
    pub fn act(self) -> Act {
        match self {
            Creation::Event(flags) => Act::CreateEvent(flags),
            Creation::Semaphore(initial, maximum) => Act::CreateSemaphore { initial, maximum },
            Creation::Mutex => Act::CreateMutex(0),
            Creation::Timer(flags) => Act::CreateTimer(flags),
        }
    }
}

/// Numbers without a pattern, always the same from the same seed.
#[derive(Clone, Copy)]
pub struct Draws {
    state: u64,
}

impl Draws {
    pub fn new(seed: u64) -> Draws {
        Draws {
            state: seed.wrapping_mul(0x9E37_79B9_7F4A_7C15).wrapping_add(1),
        }
    }

    /// A number below this one, which is above 0.
    fn below(&mut self, bound: u64) -> u64
        requires { 0 < bound }
        ensures { result < bound }
    {
        self.state = self
            .state
            .wrapping_mul(6_364_136_223_846_793_005)
            .wrapping_add(1_442_695_040_888_963_407);
        (self.state >> 33) % bound
    }

    /// One of the objects.
    fn object(&mut self) -> Handle {
        Handle::new(AUTO_RESET.wrapping_add(self.below(6) as u32))
    }

    /// A thread's object.
    fn thread(&mut self) -> Handle {
        Handle::new(self.below(u64::from(ROAMERS)) as u32)
    }

    /// A call that never pends.
    pub fn act(&mut self) -> Act {
        match self.below(14) {
            0 | 1 => Act::SetEvent(Handle::new(AUTO_RESET)),
            2 => Act::SetEvent(Handle::new(MANUAL_RESET)),
            3 => Act::ResetEvent(Handle::new(MANUAL_RESET)),
            4 => Act::PulseEvent(Handle::new(AUTO_RESET)),
            5 => Act::PulseEvent(Handle::new(MANUAL_RESET)),
            6 | 7 => Act::ReleaseSemaphore {
                semaphore: Handle::new(SEMAPHORE),
                count: 1,
            },
            8 | 9 => Act::ReleaseMutex(Handle::new(MUTEX)),
            10 => self.arm(),
            11 => Act::CancelTimer(Handle::new(GATE_TIMER)),
            12 => Act::QueueApc {
                thread: self.thread(),
                routine: 7,
                arg: self.state,
            },
            _ => Act::NextApc,
        }
    }

    /// A timer is set, one with a routine and one without.
    fn arm(&mut self) -> Act {
        if self.below(2) == 0 {
            Act::SetTimer {
                timer: Handle::new(TIMER),
                due: -5_000,
                period: 1,
                routine: Some((3, self.state)),
            }
        } else {
            Act::SetTimer {
                timer: Handle::new(GATE_TIMER),
                due: -15_000,
                period: 0,
                routine: None,
            }
        }
    }

    /// A wait that ends by itself, at the latest after 3 ms of the dispatcher's moments.
    pub fn wait(&mut self, alloc: Global) -> Result<WaitCall, AllocError> {
        let mode = WaitMode {
            ms: self.below(4) as u32,
            alertable: self.below(2) == 0,
        };
        match self.below(6) {
            0 => Ok(WaitCall::Sleep(mode)),
            1 => Ok(WaitCall::Swap {
                signal: Handle::new(MUTEX),
                object: self.object(),
                mode,
            }),
            2 => objects(
                alloc,
                &[Handle::new(AUTO_RESET), Handle::new(SEMAPHORE)],
                true,
                mode,
            ),
            3 => objects(
                alloc,
                &[
                    Handle::new(MUTEX),
                    Handle::new(MANUAL_RESET),
                    Handle::new(TIMER),
                ],
                true,
                mode,
            ),
            4 => objects(alloc, &[self.object()], false, mode),
            _ => objects(
                alloc,
                &[Handle::new(GATE_TIMER), self.thread(), Handle::new(MUTEX)],
                false,
                mode,
            ),
        }
    }

    /// Whether the next step is a wait.
    pub fn waits(&mut self) -> bool {
        self.below(5) < 2
    }
}

/// A wait without a deadline, which no APC ends.
pub const ENDLESS: WaitMode = WaitMode {
    ms: INFINITE,
    alertable: false,
};

/// A wait for any or all of these objects.
pub fn objects(
    alloc: Global,
    handles: &[Handle],
    all: bool,
    mode: WaitMode,
) -> Result<WaitCall, AllocError> {
    match Handles::from_slice(alloc, handles) {
        Ok(handles) => Ok(WaitCall::Objects { handles, all, mode }),
        Err(_) => Err(AllocError),
    }
}
