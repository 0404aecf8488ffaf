//! Why the program ended early.
use nt_front_calls::Refused;
use nt_replay::Unreplayed;
use nt_status::Refusal;
use std::io;

#[derive(Clone, Copy, Debug)]
pub enum FrontExampleFault {
    /// A call was refused that should not be; for memory, in most cases.
    Refused(Refusal),
    /// The journal does not make the same run again, from the entry at this place on.
    Differs(usize),
    /// A line could not be written, or the clock not be read.
    Host,
}

impl From<Refusal> for FrontExampleFault {
    fn from(refusal: Refusal) -> FrontExampleFault {
        FrontExampleFault::Refused(refusal)
    }
}

impl From<Refused> for FrontExampleFault {
    fn from(refused: Refused) -> FrontExampleFault {
        FrontExampleFault::Refused(refused.cause())
    }
}

/// A journal in which a call was refused for memory, or one that finds none, can't be made again as it was.
impl From<Unreplayed> for FrontExampleFault {
    fn from(cause: Unreplayed) -> FrontExampleFault {
        match cause {
            Unreplayed::Differs(place) => FrontExampleFault::Differs(place),
            Unreplayed::Memory(_) => FrontExampleFault::Refused(Refusal::Memory),
        }
    }
}

impl From<io::Error> for FrontExampleFault {
    fn from(_: io::Error) -> FrontExampleFault {
        FrontExampleFault::Host
    }
}
