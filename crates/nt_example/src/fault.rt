//! Why the program ended early.
use nt_status::Refusal;
use std::io;

#[derive(Clone, Copy, Debug)]
pub enum Fault {
    /// A call was refused that should not be; for memory, in most cases.
    Refused(Refusal),
    /// A line could not be written.
    Output,
}

impl From<Refusal> for Fault {
    fn from(refusal: Refusal) -> Fault {
        Fault::Refused(refusal)
    }
}

impl From<io::Error> for Fault {
    fn from(_: io::Error) -> Fault {
        Fault::Output
    }
}
