//! What reads, and counts the reads that failed.

ghost use Rattle.std.specs.Prelude.{◌≡◌};
ghost use Rattle.std.specs.Io.{ReadsAtMost};
ghost use Rattle.std.specs.Io.KnownBytes.{ReadConsumes};
ghost use Rattle.nt_devices.specs.Device.{Counts, Reading};

use std::io::{self, Read};

/// A reader with a count of the reads that failed.
pub trait Source: Read {
    ghost seen: { Self → Reading };

    fn failures(&self) -> u64
        ensures { result ≡ (seen self.now).failed };

    /// Reads once. A failure is counted, and not tried again.
    fn read_counted(&mut self, buf: &mut [u8]) -> io::Result<usize>
        ensures bound { ReadsAtMost result buf.new }
        ensures bytes { ReadConsumes (seen self.old).left (seen self.new).left result buf.new }
        ensures counted { Counts (seen self.old).failed (seen self.new).failed result };
}
