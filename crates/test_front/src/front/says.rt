//! What a thread of a front is answered, as data.

use nt_front_calls::{Apc, Refused, Told, WaitEnd};
use nt_status::{Handle, Status};

/// An answer. Refusals and statuses have their numbers.
#[derive(Clone, Copy, PartialEq, Eq, Debug)]
pub enum FrontAnswer {
    Done,
    Handle(u32),
    Previous(i32),
    /// The routine and its argument.
    Apc(u64, u64),
    NoApc,
    /// The wait ended with this status, at once or by a grant that was looked for.
    Ended(u32),
    /// It pended, and a grant ended it with this status.
    Granted(u32),
    Pended,
    /// No grant was found.
    Still,
    Refused(u32),
    /// The journal was full, and nothing was written.
    Full,
    /// A list of handles found no memory.
    NoMemory,
    /// The thread's place is not free, and nothing was written.
    Taken,
    /// The part has this number of entries, of which the first is the number of the answer.
    Entries(usize),
    /// The moment that a pass reads.
    Moment(u64),
    /// What the thread holds does not let it ask for this.
    Nothing,
}

/// An answer, and the number of its entry; 0 for what is not written.
#[derive(Clone, Copy, PartialEq, Eq, Debug)]
pub struct Said {
    pub entry: u64,
    pub answer: FrontAnswer,
}

impl Said {
    pub const NOTHING: Said = Said {
        entry: 0,
        answer: FrontAnswer::Nothing,
    };

    pub const STILL: Said = Said {
        entry: 0,
        answer: FrontAnswer::Still,
    };

    /// What is answered, of which nothing was written.
    pub fn unwritten(answer: FrontAnswer) -> Said {
        Said { entry: 0, answer }
    }

    pub fn pended(entry: u64) -> Said {
        Said {
            entry,
            answer: FrontAnswer::Pended,
        }
    }

    pub fn ended(told: Told<Status>) -> Said {
        Said {
            entry: told.entry,
            answer: FrontAnswer::Ended(told.answer.code()),
        }
    }

    pub fn refused(refused: Refused) -> Said {
        match refused {
            Refused::Call { entry, refusal } => Said {
                entry,
                answer: FrontAnswer::Refused(refusal.number()),
            },
            Refused::JournalFull => Said {
                entry: 0,
                answer: FrontAnswer::Full,
            },
            Refused::NoMemory => Said {
                entry: 0,
                answer: FrontAnswer::NoMemory,
            },
        }
    }
}

pub fn said_done(answer: Result<Told<()>, Refused>) -> Said {
    match answer {
        Ok(told) => Said {
            entry: told.entry,
            answer: FrontAnswer::Done,
        },
        Err(refused) => Said::refused(refused),
    }
}

pub fn said_handle(answer: Result<Told<Handle>, Refused>) -> Said {
    match answer {
        Ok(told) => Said {
            entry: told.entry,
            answer: FrontAnswer::Handle(told.answer.get()),
        },
        Err(refused) => Said::refused(refused),
    }
}

pub fn said_previous(answer: Result<Told<i32>, Refused>) -> Said {
    match answer {
        Ok(told) => Said {
            entry: told.entry,
            answer: FrontAnswer::Previous(told.answer),
        },
        Err(refused) => Said::refused(refused),
    }
}

pub fn said_apc(answer: Result<Told<Option<Apc>>, Refused>) -> Said {
    match answer {
        Ok(told) => Said {
            entry: told.entry,
            answer: match told.answer {
                Some(apc) => FrontAnswer::Apc(apc.routine, apc.arg),
                None => FrontAnswer::NoApc,
            },
        },
        Err(refused) => Said::refused(refused),
    }
}

pub fn said_end(answer: Result<WaitEnd, Refused>) -> Said {
    match answer {
        Ok(end) => Said {
            entry: end.entry,
            answer: match end.granted {
                Some(_) => FrontAnswer::Granted(end.status.code()),
                None => FrontAnswer::Ended(end.status.code()),
            },
        },
        Err(refused) => Said::refused(refused),
    }
}
