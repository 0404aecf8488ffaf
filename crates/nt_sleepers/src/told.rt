//! What a thread learns while it sleeps.
use nt_core::Grant;

/// What a thread learns.
#[derive(Clone, Copy, PartialEq, Eq, Debug)]
pub enum Told {
    /// Its wait ended, with this status.
    Granted(Grant),
    /// It is to look at the time, before it sleeps on: the thread with this number.
    Called(u32),
}
