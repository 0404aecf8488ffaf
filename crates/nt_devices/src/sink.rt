//! What writes, counts its flushes and what failed, and knows whether all was handed on.

ghost use Rattle.std.specs.Prelude.{◌≡◌, ◌<◌, false, length, IfOk};
ghost use Rattle.std.specs.Io.{WritesAtMost};
ghost use Rattle.std.specs.Io.KnownBytes.{Keeps, WriteAppends};
ghost use Rattle.nt_devices.specs.Device.{Counts, HandsOn, Writing, one_more};

use std::io::{self, Write};

/// A writer with a count of the writes and flushes that failed. A write that takes no bytes is a failure.
pub trait Sink: Write {
    ghost seen: { Self → Writing };

    fn failures(&self) -> u64
        ensures { result ≡ (seen self.now).failed };

    /// Writes once. A failure is counted, and not tried again.
    fn write_counted(&mut self, buf: &[u8]) -> io::Result<usize>
        ensures bound { WritesAtMost result buf.now }
        ensures bytes { WriteAppends (seen self.old).held (seen self.new).held result buf.now }
        ensures some { 0 < length buf.now → IfOk result (λ n. 0 < n) }
        ensures counted { Counts (seen self.old).failed (seen self.new).failed result }
        ensures unflushed { (seen self.new).flushes ≡ (seen self.old).flushes }
        ensures held { (seen self.new).handed_on ≡ false };

    /// Hands on what the writer holds back. A failure is counted, and not tried again.
    fn flush_counted(&mut self) -> io::Result<()>
        ensures bytes { Keeps (seen self.old).held (seen self.new).held }
        ensures counted { Counts (seen self.old).failed (seen self.new).failed result }
        ensures flushed { (seen self.new).flushes ≡ one_more (seen self.old).flushes }
        ensures handed { HandsOn (seen self.new).handed_on result };
}
