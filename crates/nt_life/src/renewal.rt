//! What is reported of numbers that are given again.
use nt_core::Act;
use nt_status::{Handle, ObjectNumber};

/// What numbers are given again to, and which ones: those of an object that is gone, of a handle that was closed, and of a thread that has
/// ended.
#[derive(Clone, Copy, PartialEq, Eq, Debug)]
pub enum Renewal {
    /// To what this creation makes, and to its handle.
    Create {
        act: Act,
        object: ObjectNumber,
        handle: Handle,
    },
    /// As `Create`, once the object's number was added for it.
    CreateAdded {
        act: Act,
        object: ObjectNumber,
        handle: Handle,
    },
    /// To nothing: no object number could be added for this creation, which is refused for that.
    Unadded(Act),
    /// To the handle of a duplicate.
    Duplicate {
        source: Handle,
        access: u32,
        handle: Handle,
    },
    /// To the thread itself, which begins again, and to its handle.
    Begin(Handle),
}
