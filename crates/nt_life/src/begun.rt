//! What is reported of a thread that began.
use nt_status::Handle;

/// A thread that began in the place of one that had ended.
#[derive(Clone, Copy, PartialEq, Eq, Debug)]
pub struct Begun {
    /// Its number, by which it calls.
    pub thread: u32,
    /// Its own handle, with all rights of a thread.
    pub handle: Handle,
}
