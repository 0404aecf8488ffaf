//! Whether a thread may call.

/// What the machine keeps of a thread, so that one look tells whether it may call: its object and its pending wait say the same.
#[derive(Clone, Copy)]
pub enum Standing {
    /// It runs, and waits for nothing.
    Free,
    /// Its wait pends.
    Waiting,
    /// It has ended.
    Ended,
}
