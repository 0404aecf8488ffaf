//! The numbers of errors that no call of the machine answers, or not for this cause.

/// ERROR_INVALID_HANDLE: the handle has no dispatcher, or what is asked about has no such object.
pub(crate) const INVALID_HANDLE: u32 = 6;

/// ERROR_INVALID_PARAMETER.
pub(crate) const INVALID_PARAMETER: u32 = 87;

/// ERROR_NO_MORE_ITEMS.
pub(crate) const NO_MORE: u32 = 259;

/// No thread has this number.
pub(crate) const UNKNOWN_THREAD: u32 = 0x2000_0003;

/// ERROR_NOT_ENOUGH_MEMORY.
pub(crate) const OUT_OF_MEMORY: u32 = 8;
