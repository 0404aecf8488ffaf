//! What calls of a front answer.
ghost use Rattle.std.specs.Prelude.{◌≡◌};
ghost use Rattle.nt_front_calls.specs.Told.{told_in, cause_of};

use nt_front::{Named, Pass, Sleeper};
use nt_status::{Refusal, Status};
use std::fmt::{Display, Error, Formatter, Write};

/// An answer, and where it stands.
#[derive(Clone, Copy, PartialEq, Eq, Debug)]
pub struct Told<T> {
    /// The number of the entry that has it. Entries are numbered from 1.
    pub entry: u64,
    pub answer: T,
}

/// Why a call of a front was refused.
#[derive(Clone, Copy, PartialEq, Eq, Debug)]
pub enum Refused {
    /// The dispatcher refused it, as the entry with this number has it.
    Call { entry: u64, refusal: Refusal },
    /// The journal has too little room left for what the call may write. Nothing was done or written.
    JournalFull,
    /// The list of the handles that a wait names found no memory. A wait for at most `MAX_INLINE_HANDLES` objects takes none, and is never
    /// refused so. Nothing was done or written.
    NoMemory,
}

/// How a wait ended that was waited for.
#[derive(Clone, Copy, PartialEq, Eq, Debug)]
pub struct WaitEnd {
    pub status: Status,
    /// The number of the entry of the call.
    pub entry: u64,
    /// That of the entry of the grant, if the wait pended.
    pub granted: Option<u64>,
}

/// How a wait began.
pub enum Began<N: Named> {
    /// The wait ended at once, with this status.
    Ended(Pass<N>, Told<Status>),
    /// The wait pends, as the entry with this number has it.
    Pended(Sleeper<N>, u64),
    Refused(Pass<N>, Refused),
}

/// What a look for a grant finds.
pub enum Polled<N: Named> {
    /// The wait was granted, with this status.
    Ready(Pass<N>, Told<Status>),
    /// No grant was found.
    Still(Sleeper<N>),
}

impl Refused {
    /// The refusal alone: `Refusal::JournalFull` from a full front, and `Refusal::Memory` from a list that found none.
    pub fn cause(self) -> Refusal
        ensures { result ≡ cause_of self }
    {
        match self {
            Refused::Call { refusal, .. } => refusal,
            Refused::JournalFull => Refusal::JournalFull,
            Refused::NoMemory => Refusal::Memory,
        }
    }
}

/// The refusal alone, for `?`.
impl From<Refused> for Refusal {
    ghost use Rattle.std.specs.Prelude.{◌≡◌};
    ghost use Rattle.nt_front_calls.specs.Told.{cause_of};

    ghost from_gives = { λ refused refusal. refusal ≡ cause_of refused };

    fn from(refused: Refused) -> Refusal {
        refused.cause()
    }
}

/// The name of the refusal, as `ERROR_NOT_OWNER`.
impl Display for Refused {
    ghost use Rattle.std.specs.Prelude.{Some};
    ghost use Rattle.nt_status.specs.Refusal.{name_of};
    ghost use Rattle.nt_front_calls.specs.Told.{cause_of};

    ghost output = { λ refused. Some (name_of (cause_of refused)) };

    fn fmt<W: Write>(&self, formatter: &mut Formatter<W>) -> Result<(), Error> {
        self.cause().fmt(formatter)
    }
}

/// An answer of the dispatcher that stands in this entry.
pub(crate) fn told_at<T>(entry: u64, answer: Result<T, Refusal>) -> Result<Told<T>, Refused>
    ensures { result ≡ told_in entry answer }
{
    match answer {
        Ok(answer) => Ok(Told { entry, answer }),
        Err(refusal) => Err(Refused::Call { entry, refusal }),
    }
}
