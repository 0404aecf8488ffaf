//! Writing bytes as a whole.

ghost use Rattle.std.specs.Prelude.{◌≡◌, ◌<◌, false, length};
ghost use Rattle.nt_devices.specs.Device.{Hands, WritesBytes};

use crate::sink::Sink;

/// A write failed.
#[derive(Clone, Copy, Debug, PartialEq, Eq)]
pub struct WriteFailed;

/// Writes all of the bytes, in as many writes as it takes. A failure is not tried again, and nothing is flushed.
pub fn write_whole<W: Sink>(writer: &mut W, bytes: &[u8]) -> Result<(), WriteFailed>
    ensures bytes { WritesBytes (W.seen writer.old) (W.seen writer.new) bytes.now result }
    ensures unflushed { (W.seen writer.new).flushes ≡ (W.seen writer.old).flushes }
    ensures held { 0 < length bytes.now → (W.seen writer.new).handed_on ≡ false }
{
    let mut done = 0;
    while done < bytes.len() {
        match writer.write_counted(&bytes[done..]) {
            Ok(count) => done += count,
            Err(_) => return Err(WriteFailed),
        }
    }
    Ok(())
}

/// Writes all of the bytes, and hands them on. After a failed write nothing more is written.
pub fn write_and_flush<W: Sink>(writer: &mut W, bytes: &[u8]) -> Result<(), WriteFailed>
    ensures { Hands (W.seen writer.old) (W.seen writer.new) bytes.now result }
{
    match write_whole(writer, bytes) {
        Ok(()) => match writer.flush_counted() {
            Ok(()) => Ok(()),
            Err(_) => Err(WriteFailed),
        },
        Err(failed) => Err(failed),
    }
}
