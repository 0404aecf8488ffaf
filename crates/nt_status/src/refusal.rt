ghost use Rattle.std.specs.Prelude.{◌≡◌, Some};
ghost use Rattle.nt_status.specs.Refusal.{name_of, number_of};
ghost use Rattle.nt_status.specs.declared.refusal.Refusal.TheVariants.{Memory};

use std::alloc::{AllocError, AllocFailed};
use std::fmt::{Display, Error, Formatter, Write};

/// Why a call was refused. A refused call changed nothing.
#[derive(Clone, Copy, PartialEq, Eq, Debug)]
pub enum Refusal {
    /// ERROR_ACCESS_DENIED: the handle lacks a right that the call needs.
    AccessDenied,
    /// ERROR_INVALID_HANDLE: no object has this handle, or none of the kind that the call is for.
    InvalidHandle,
    /// ERROR_NOT_ENOUGH_MEMORY: the call had to grow, and the allocator refused.
    Memory,
    /// ERROR_GEN_FAILURE: the thread has ended.
    ThreadGone,
    /// ERROR_INVALID_PARAMETER: an argument that no state allows.
    InvalidParameter,
    /// ERROR_NOT_OWNER: the mutex is not the caller's.
    NotOwner,
    /// ERROR_TOO_MANY_POSTS: the semaphore's maximum would be passed.
    TooManyPosts,
    /// The calling thread waits.
    ThreadWaiting,
    /// The calling thread has ended.
    ThreadEnded,
    /// No thread has the caller's number.
    UnknownThread,
    /// The caller holds a mutex that it would wait for at the greatest depth, 2147483647.
    RecursionLimit,
    /// The tick is to a moment before the present one.
    MomentBack,
    /// The journal has too little room left for what the call may write.
    JournalFull,
    /// All 65536 handle numbers are used.
    HandleLimit,
}

impl Refusal {
    /// The error number: that of the Windows name where it has one, else one with bit 29 set, which no system code has.
    pub fn number(self) -> u32
        ensures { result ≡ number_of self }
    {
        match self {
            Refusal::AccessDenied => 5,
            Refusal::InvalidHandle => 6,
            Refusal::Memory => 8,
            Refusal::ThreadGone => 31,
            Refusal::InvalidParameter => 87,
            Refusal::NotOwner => 288,
            Refusal::TooManyPosts => 298,
            Refusal::ThreadWaiting => 0x2000_0001,
            Refusal::ThreadEnded => 0x2000_0002,
            Refusal::UnknownThread => 0x2000_0003,
            Refusal::RecursionLimit => 0x2000_0004,
            Refusal::MomentBack => 0x2000_0005,
            Refusal::JournalFull => 0x2000_0006,
            Refusal::HandleLimit => 0x2000_0007,
        }
    }
    /// The error's name: that of Windows if it has one, else one that begins with `NT_ERROR_`, as in `c/nt.h`.
    pub fn name(self) -> &'static str
        ensures { result.now ≡ name_of self }
    {
        match self {
            Refusal::AccessDenied => "ERROR_ACCESS_DENIED",
            Refusal::InvalidHandle => "ERROR_INVALID_HANDLE",
            Refusal::Memory => "ERROR_NOT_ENOUGH_MEMORY",
            Refusal::ThreadGone => "ERROR_GEN_FAILURE",
            Refusal::InvalidParameter => "ERROR_INVALID_PARAMETER",
            Refusal::NotOwner => "ERROR_NOT_OWNER",
            Refusal::TooManyPosts => "ERROR_TOO_MANY_POSTS",
            Refusal::ThreadWaiting => "NT_ERROR_THREAD_WAITING",
            Refusal::ThreadEnded => "NT_ERROR_THREAD_ENDED",
            Refusal::UnknownThread => "NT_ERROR_UNKNOWN_THREAD",
            Refusal::RecursionLimit => "NT_ERROR_RECURSION_LIMIT",
            Refusal::MomentBack => "NT_ERROR_MOMENT_BACK",
            Refusal::JournalFull => "NT_ERROR_JOURNAL_FULL",
            Refusal::HandleLimit => "NT_ERROR_HANDLE_LIMIT",
        }
    }
}

/// The error's name, as `ERROR_NOT_OWNER`.
impl Display for Refusal {
    ghost output = { λ refusal. Some (name_of refusal) };

    fn fmt<W: Write>(&self, formatter: &mut Formatter<W>) -> Result<(), Error> {
        let name = self.name();
        write!(formatter, "{name}")
    }
}

impl From<AllocError> for Refusal {
    ghost from_gives = { λ _ refusal. refusal ≡ Memory };

    fn from(_refused: AllocError) -> Refusal {
        Self::Memory
    }
}

impl<T: Drop> From<AllocFailed<T>> for Refusal {
    ghost from_gives = { λ _ refusal. refusal ≡ Memory };

    /// The value that found no room is dropped.
    fn from(_refused: AllocFailed<T>) -> Refusal {
        Self::from(AllocError)
    }
}
