//! Devices that fail, and what is counted of it.

use crate::expect::expect_equal;
use nt_devices::{Counted, Sink, Source, WriteFailed, write_whole};
use std::io::{self, ErrorKind, Read, Write};

/// A reader of zeros and a writer that keeps nothing, of three bytes at once. It fails on its first `times` calls alone.
#[derive(Drop)]
struct Failing {
    times: u64,
    /// How often it was called.
    calls: u64,
}

impl Failing {
    /// How many of these bytes it takes or gives, where it does not fail.
    fn call(&mut self, bytes: usize) -> io::Result<usize> {
        self.calls = self.calls.saturating_add(1);
        if self.times > 0 {
            self.times -= 1;
            return Err(io::Error::from(ErrorKind::Interrupted));
        }
        Ok(bytes.min(3))
    }
}

impl Read for Failing {
    fn read(&mut self, buf: &mut [u8]) -> io::Result<usize> {
        let count = self.call(buf.len())?.min(buf.len());
        buf[..count].fill(0);
        Ok(count)
    }
}

impl Write for Failing {
    fn write(&mut self, buf: &[u8]) -> io::Result<usize> {
        Ok(self.call(buf.len())?.min(buf.len()))
    }

    fn flush(&mut self) -> io::Result<()> {
        self.call(0)?;
        Ok(())
    }
}

/// Makes a call with four bytes: how many went, or none where it failed; and how many calls failed up to now.
fn call_counted(device: &mut Counted<&mut Failing>, call: &str) -> (Option<usize>, u64) {
    let went = match call {
        "read_counted" => device.read_counted(&mut [1; 4]).ok(),
        "read" => device.read(&mut [1; 4]).ok(),
        "write_counted" => device.write_counted(b"four").ok(),
        "write" => device.write(b"four").ok(),
        "flush_counted" => device.flush_counted().ok().map(|()| 0),
        _ => device.flush().ok().map(|()| 0),
    };
    (went, Sink::failures(device).max(Source::failures(device)))
}

#[test]
fn each_call_is_one_of_the_device_and_each_failure_counted(rt: HostRuntime) {
    for (call, bytes) in [
        ("read_counted", 3),
        ("read", 3),
        ("write_counted", 3),
        ("write", 3),
        ("flush_counted", 0),
        ("flush", 0),
    ] {
        let mut device = Failing { times: 2, calls: 0 };
        let mut counted = Counted::new(&mut device);
        for (went, failures) in [(None, 1), (None, 2), (Some(bytes), 2)] {
            expect_equal(
                &rt,
                call_counted(&mut counted, call),
                (went, failures),
                call,
            );
        }
        expect_equal(&rt, device.calls, 3, call);
    }
}

#[test]
fn a_failed_write_ends_the_writing_of_a_whole(rt: HostRuntime) {
    for (times, calls, outcome) in [(0, 3, Ok(())), (1, 1, Err(WriteFailed))] {
        let mut device = Failing { times, calls: 0 };
        let found = write_whole(&mut Counted::new(&mut device), b"of nine b");
        expect_equal(&rt, found, outcome, "how a write ends");
        expect_equal(&rt, device.calls, calls, "calls");
    }
}
