//! What steps ask of the lock.

use crate::lock::LockWord;

/// What a step asks of the lock.
#[derive(Clone, Copy, Debug, PartialEq, Eq)]
pub(crate) enum LockTest {
    Is(LockWord),
    IsNot(LockWord),
    IsHeld,
}
