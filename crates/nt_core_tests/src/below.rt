//! The crates below the dispatcher, and those of devices and lines: one walk makes each call that takes memory, which succeeds if memory is there.
//! No contract says that. Also what no run of calls comes to.
mod apcs;
mod devices;
mod lines;
mod lists;
mod marks;
mod tables;
mod waits;
