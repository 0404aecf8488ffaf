//! The calls, and their answers.
ghost use Rattle.std.specs.Prelude.{◌≡◌};
ghost use Rattle.nt_calls.specs.declared.call.Act.{Act};

use nt_apc::Apc;
use nt_status::{Access, EventFlags, Handle, Handles, MutexFlags, Status, ThreadId, TimerFlags};
use std::alloc::AllocError;

/// A call that never pends.
#[derive(Clone, Copy, PartialEq, Eq, Debug)]
pub enum Act {
    /// CreateEvent, with the flags of CreateEventEx: 1 manual reset, 2 set at first.
    CreateEvent(u32),
    /// CreateSemaphore.
    CreateSemaphore {
        initial: i32,
        maximum: i32,
    },
    /// CreateMutex, with the flag of CreateMutexEx: 1 owned by the caller.
    CreateMutex(u32),
    SetEvent(Handle),
    ResetEvent(Handle),
    PulseEvent(Handle),
    /// ReleaseSemaphore; it answers the count before.
    ReleaseSemaphore {
        semaphore: Handle,
        count: i32,
    },
    ReleaseMutex(Handle),
    /// CreateWaitableTimer, with the flag of CreateWaitableTimerEx: 1 manual reset.
    CreateTimer(u32),
    /// SetWaitableTimer. The due time is a moment, or from now on where it is negative, in units of 100 ns; the period is in
    /// milliseconds, 0 for none. The routine, with its argument, is queued to the caller when the timer expires.
    SetTimer {
        timer: Handle,
        due: i64,
        period: i32,
        routine: Option<(u64, u64)>,
    },
    /// CancelWaitableTimer.
    CancelTimer(Handle),
    /// QueueUserAPC, to the thread that the handle names.
    QueueApc {
        thread: Handle,
        routine: u64,
        arg: u64,
    },
    /// DuplicateHandle: one handle more for what this one names, with these rights, none of which the first may lack.
    Duplicate {
        handle: Handle,
        access: u32,
    },
    /// CloseHandle: the handle no longer names anything, and no other gets its number.
    Close(Handle),
    /// Takes the caller's oldest APC, where its last ended wait ended for its APCs and it has not found none since.
    NextApc,
}

/// Calls of flags and rights that are known. (An act keeps the bits, since the core judges those that are not.)
impl Act {
    /// CreateEvent.
    pub fn create_event(flags: EventFlags) -> Self
        ensures { result ≡ Act.CreateEvent flags }
    {
        Act::CreateEvent(flags.bits())
    }

    /// CreateMutex.
    pub fn create_mutex(flags: MutexFlags) -> Self
        ensures { result ≡ Act.CreateMutex flags }
    {
        Act::CreateMutex(flags.bits())
    }

    /// CreateWaitableTimer.
    pub fn create_timer(flags: TimerFlags) -> Self
        ensures { result ≡ Act.CreateTimer flags }
    {
        Act::CreateTimer(flags.bits())
    }

    /// DuplicateHandle: one handle more for what this one names, with these rights.
    pub fn duplicate(handle: Handle, access: Access) -> Self
        ensures { result ≡ Act.Duplicate handle access }
    {
        Act::Duplicate {
            handle,
            access: access.bits(),
        }
    }
}

/// How long a wait lasts at most, and what else ends it.
#[derive(Clone, Copy, PartialEq, Eq, Debug)]
pub struct WaitMode {
    /// In milliseconds: it ends at once at 0, and has no deadline at `INFINITE`.
    pub ms: u32,
    /// Whether APCs that are queued for the thread end the wait.
    pub alertable: bool,
}

/// A call that may pend.
#[derive(Debug)]
pub enum WaitCall {
    /// WaitForMultipleObjectsEx: for any of the objects, or for all.
    Objects {
        all: bool,
        mode: WaitMode,
        handles: Handles,
    },
    /// SleepEx.
    Sleep(WaitMode),
    /// SignalObjectAndWait: signals one object, and waits for the other, or for the same.
    Swap {
        signal: Handle,
        object: Handle,
        mode: WaitMode,
    },
}

/// Written by hand, so that whoever lets a wait go has one function to call, and nothing to prove of its handles.
impl Drop for WaitCall {
    fn drop(self) {
        match self {
            WaitCall::Objects {
                handles: _,
                all: _,
                mode: _,
            } => {}
            WaitCall::Sleep(_) => {}
            WaitCall::Swap {
                signal: _,
                object: _,
                mode: _,
            } => {}
        }
    }
}

/// The same call, with its handles in memory of its own.
impl Clone for WaitCall {
    ghost use Rattle.std.specs.Prelude.{◌≡◌};

    ghost is_clone = { λ wait copied. copied ≡ wait };

    fn clone(&self) -> Result<Self, AllocError> {
        match self {
            WaitCall::Objects { handles, all, mode } => Ok(WaitCall::Objects {
                handles: handles.clone()?,
                all: *all,
                mode: *mode,
            }),
            WaitCall::Sleep(mode) => Ok(WaitCall::Sleep(*mode)),
            WaitCall::Swap {
                signal,
                object,
                mode,
            } => Ok(WaitCall::Swap {
                signal: *signal,
                object: *object,
                mode: *mode,
            }),
        }
    }
}

/// What a thread asks of the dispatcher.
#[derive(Debug)]
pub enum Call {
    Act(Act),
    Wait(WaitCall),
    /// The calling thread ends.
    Exit,
}

/// Written by hand, as that of a wait.
impl Drop for Call {
    fn drop(self) {
        match self {
            Call::Act(_) => {}
            Call::Wait(_) => {}
            Call::Exit => {}
        }
    }
}

/// The same call, so that it can be kept or made again.
impl Clone for Call {
    ghost use Rattle.std.specs.Prelude.{◌≡◌};

    ghost is_clone = { λ call copied. copied ≡ call };

    fn clone(&self) -> Result<Self, AllocError> {
        match self {
            Call::Act(act) => Ok(Call::Act(*act)),
            Call::Wait(wait) => Ok(Call::Wait(wait.clone()?)),
            Call::Exit => Ok(Call::Exit),
        }
    }
}

/// What an accepted call answers.
#[derive(Clone, Copy, PartialEq, Eq, Debug)]
pub enum Reply {
    /// The call is carried out and has nothing to tell.
    Done,
    /// The handle of the object that was created, or the one more.
    Handle(Handle),
    /// The semaphore's count before it was released.
    Previous(i32),
    /// The caller's wait ended at once, with this status.
    Status(Status),
    /// The caller's wait pends. A later call or tick ends it.
    Pended,
    /// The oldest APC, or none.
    Apc(Option<Apc>),
}

/// A pending wait that a call or tick ended.
#[derive(Clone, Copy, PartialEq, Eq, Debug)]
pub struct Grant {
    pub thread: ThreadId,
    pub status: Status,
}
