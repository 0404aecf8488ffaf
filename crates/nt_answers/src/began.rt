//! How a wait began.
use nt_status::Status;

/// What a call that may pend answers.
#[derive(Clone, Copy, PartialEq, Eq, Debug)]
pub enum Began {
    /// The wait ended at once, with this status.
    Ended(Status),
    /// The wait pends. A later call or tick ends it, and has its status among its grants.
    Pended,
}
