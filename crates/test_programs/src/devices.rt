//! A reader and a writer over memory, which fail where a test wants it.

use std::alloc::Global;
use std::io::{self, ErrorKind, Read, Write};

/// A reader of these bytes.
#[derive(Clone, Copy)]
pub struct Given<'a> {
    left: &'a [u8],
    at_once: usize,
    fails: bool,
}

impl<'a> Given<'a> {
    pub fn all(bytes: &'a [u8]) -> Given<'a> {
        Given {
            left: bytes,
            at_once: usize::MAX,
            fails: false,
        }
    }

    /// Gives a byte a read.
    pub fn one_by_one(bytes: &'a [u8]) -> Given<'a> {
        Given {
            left: bytes,
            at_once: 1,
            fails: false,
        }
    }

    /// Gives the first `count` bytes, and then fails.
    pub fn failing_after(bytes: &'a [u8], count: usize) -> Given<'a> {
        Given {
            left: &bytes[..count.min(bytes.len())],
            at_once: usize::MAX,
            fails: true,
        }
    }
}

impl<'a> Read for Given<'a> {
    fn read(&mut self, buf: &mut [u8]) -> io::Result<usize> {
        let left: &'a [u8] = self.left;
        if left.is_empty() && self.fails {
            return Err(io::Error::from(ErrorKind::Interrupted));
        }
        let count = left.len().min(buf.len()).min(self.at_once);
        buf[..count].copy_from_slice(&left[..count]);
        self.left = &left[count..];
        Ok(count)
    }
}

/// How much a writer takes.
#[derive(Clone, Copy)]
pub struct WriteLimit {
    whole: usize,
    at_once: usize,
    flushes: bool,
}

impl WriteLimit {
    /// Whatever is written.
    pub const ENDLESS: WriteLimit = WriteLimit {
        whole: usize::MAX,
        at_once: usize::MAX,
        flushes: true,
    };

    /// A byte a write.
    pub const ONE_BY_ONE: WriteLimit = WriteLimit {
        whole: usize::MAX,
        at_once: 1,
        flushes: true,
    };

    /// Nothing, and the writer says so.
    pub const NONE: WriteLimit = WriteLimit {
        whole: usize::MAX,
        at_once: 0,
        flushes: true,
    };

    /// All bytes, but the writer fails to hand them on.
    pub const NEVER_FLUSHED: WriteLimit = WriteLimit {
        whole: usize::MAX,
        at_once: usize::MAX,
        flushes: false,
    };

    /// Takes `whole` bytes, and then the writer fails.
    pub fn of(whole: usize) -> WriteLimit {
        WriteLimit {
            whole,
            at_once: usize::MAX,
            flushes: true,
        }
    }
}

/// A writer that keeps what it takes.
#[derive(Drop)]
pub struct MemoryWriter {
    pub bytes: Vec<u8>,
    /// Whether the memory to keep it was refused.
    pub is_refused: bool,
    room: WriteLimit,
}

impl MemoryWriter {
    pub fn new(alloc: Global, room: WriteLimit) -> MemoryWriter {
        MemoryWriter {
            bytes: Vec::new(alloc),
            is_refused: false,
            room,
        }
    }
}

impl Write for MemoryWriter {
    fn write(&mut self, buf: &[u8]) -> io::Result<usize> {
        if self.room.whole == 0 {
            return Err(io::Error::from(ErrorKind::Interrupted));
        }
        let count = buf.len().min(self.room.whole).min(self.room.at_once);
        if self.bytes.extend_from_slice(&buf[..count]).is_err() {
            self.is_refused = true;
            return Err(io::Error::from(ErrorKind::OutOfMemory));
        }
        self.room.whole -= count;
        Ok(count)
    }

    fn flush(&mut self) -> io::Result<()> {
        if self.room.flushes {
            Ok(())
        } else {
            Err(io::Error::from(ErrorKind::BrokenPipe))
        }
    }
}
