//! Any reader or writer as one that counts its failures.

ghost use Rattle.std.specs.Prelude.{◌≡◌, ◌<◌, false, length, IfOk};
ghost use Rattle.std.specs.Io.{ReadsAtMost, WritesAtMost};
ghost use Rattle.std.specs.Io.KnownBytes.{Keeps, ReadConsumes, WriteAppends};
ghost use Rattle.nt_devices.specs.Device.{Counts, HandsOn, one_more};
ghost use Rattle.nt_devices.specs.Counted.{device_of, failures_of, flushes_of, handed_on_of};

use crate::sink::Sink;
use crate::source::Source;
use std::io::{self, ErrorKind, Read, Write};

/// Any reader or writer, with a count of its failures and one of its flushes. Both stop at `u64::MAX`.
#[derive(Debug, Drop)]
pub struct Counted<T> {
    device: T,
    failures: u64,
    /// How many flushes were tried.
    flushes: u64,
    /// Whether a flush succeeded, and nothing was written since.
    handed_on: bool,
}

impl<T> Counted<T> {
    /// The device, which has not failed yet, and has handed on nothing.
    pub fn new(device: T) -> Counted<T>
        ensures device { device_of result ≡ device }
        ensures failures { failures_of result ≡ 0 }
        ensures flushes { flushes_of result ≡ 0 }
        ensures held { handed_on_of result ≡ false }
    {
        Counted {
            device,
            failures: 0,
            flushes: 0,
            handed_on: false,
        }
    }

    fn count(&self) -> u64
        ensures { result ≡ failures_of self.now }
    {
        let Counted { failures, .. } = self;
        *failures
    }

    /// Counts the result where it is a failure.
    fn note<X>(&mut self, outcome: &io::Result<X>)
        ensures counted { Counts (failures_of self.old) (failures_of self.new) outcome.now }
        ensures device { device_of self.new ≡ device_of self.old }
        ensures flushes { flushes_of self.new ≡ flushes_of self.old }
        ensures handed { handed_on_of self.new ≡ handed_on_of self.old }
    {
        if outcome.is_err() {
            self.failures = self.failures.saturating_add(1);
        }
    }
}

impl<R: Read> Counted<R> {
    fn read_once(&mut self, buf: &mut [u8]) -> io::Result<usize>
        ensures bound { ReadsAtMost result buf.new }
        ensures bytes { ReadConsumes (R.remaining (device_of self.old))
            (R.remaining (device_of self.new)) result buf.new }
        ensures counted { Counts (failures_of self.old) (failures_of self.new) result }
    {
        let result = self.device.read(buf);
        self.note(&result);
        result
    }
}

impl<R: Read> Read for Counted<R> {
    ghost remaining = { λ c. R.remaining c.device };

    fn read(&mut self, buf: &mut [u8]) -> io::Result<usize> {
        self.read_once(buf)
    }
}

impl<R: Read> Source for Counted<R> {
    ghost seen = { λ c. record { left = R.remaining c.device; failed = c.failures } };

    fn failures(&self) -> u64 {
        self.count()
    }

    fn read_counted(&mut self, buf: &mut [u8]) -> io::Result<usize> {
        self.read_once(buf)
    }
}

impl<W: Write> Counted<W> {
    fn write_once(&mut self, buf: &[u8]) -> io::Result<usize>
        ensures bound { WritesAtMost result buf.now }
        ensures bytes { WriteAppends (W.contents (device_of self.old))
            (W.contents (device_of self.new)) result buf.now }
        ensures some { 0 < length buf.now → IfOk result (λ n. 0 < n) }
        ensures counted { Counts (failures_of self.old) (failures_of self.new) result }
        ensures unflushed { flushes_of self.new ≡ flushes_of self.old }
        ensures held { handed_on_of self.new ≡ false }
    {
        self.handed_on = false;
        let result = match self.device.write(buf) {
            Ok(0) if !buf.is_empty() => Err(io::Error::from(ErrorKind::WriteZero)),
            result => result,
        };
        self.note(&result);
        result
    }

    fn flush_once(&mut self) -> io::Result<()>
        ensures bytes { Keeps (W.contents (device_of self.old)) (W.contents (device_of self.new)) }
        ensures counted { Counts (failures_of self.old) (failures_of self.new) result }
        ensures flushed { flushes_of self.new ≡ one_more (flushes_of self.old) }
        ensures handed { HandsOn (handed_on_of self.new) result }
    {
        self.flushes = self.flushes.saturating_add(1);
        let result = self.device.flush();
        self.note(&result);
        self.handed_on = result.is_ok();
        result
    }
}

impl<W: Write> Write for Counted<W> {
    ghost contents = { λ c. W.contents c.device };

    fn write(&mut self, buf: &[u8]) -> io::Result<usize> {
        self.write_once(buf)
    }

    fn flush(&mut self) -> io::Result<()> {
        self.flush_once()
    }
}

impl<W: Write> Sink for Counted<W> {
    ghost seen = { λ c. record { held = W.contents c.device; failed = c.failures; flushes = c.flushes; handed_on = c.handed_on } };

    fn failures(&self) -> u64 {
        self.count()
    }

    fn write_counted(&mut self, buf: &[u8]) -> io::Result<usize> {
        self.write_once(buf)
    }

    fn flush_counted(&mut self) -> io::Result<()> {
        self.flush_once()
    }
}
