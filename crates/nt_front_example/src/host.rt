//! What the threads ask of the runtime.
use std::alloc::{Alloc, Global};
use std::sync::Wait;
use std::thread::Threads;
use std::time::Clock;

/// A runtime that starts threads, lets them wait, reads the time and has memory. That of `main` does.
pub trait Host: Threads + Wait + Clock + Alloc<A = Global> + Sync {}

impl<R: Threads + Wait + Clock + Alloc<A = Global> + Sync> Host for R {}
