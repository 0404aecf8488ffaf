//! The most of each thing that there may be, and the timeout without a deadline.

/// The most threads of a dispatcher. Their numbers are 0 to 255.
pub const MAX_THREADS: u32 = 256;

/// The most threads of a dispatcher that is opened for many. Their numbers are 0 to 4095.
pub const MAX_MANY_THREADS: u32 = 4096;

/// The most handles that a dispatcher gives in its life, so also the most objects. Their numbers are 0 to 65535.
pub const MAX_HANDLES: usize = 65536;

/// MAXIMUM_WAIT_OBJECTS: the most objects of one wait.
pub const MAX_WAIT_OBJECTS: usize = 64;

/// The most handles that take no memory in a list: they stand in the list itself.
pub const MAX_INLINE_HANDLES: usize = 4;

/// The greatest moment, in units of 100 ns since the dispatcher's moment 0. No tick is to a later one.
pub const MAX_MOMENT: u64 = 1 << 62;

/// INFINITE: the timeout without a deadline. Other timeouts are in milliseconds.
pub const INFINITE: u32 = 0xFFFF_FFFF;

// Contracts cite these by their names, so each name's number stands here a second time: who changes one is refused.
const _: () = prove!(MAX_THREADS == 256);

const _: () = prove!(MAX_MANY_THREADS == 4_096);

const _: () = prove!(MAX_HANDLES == 65_536);

const _: () = prove!(MAX_WAIT_OBJECTS == 64);

const _: () = prove!(MAX_INLINE_HANDLES == 4);

const _: () = prove!(MAX_MOMENT == 4_611_686_018_427_387_904);

const _: () = prove!(INFINITE == u32::MAX);
