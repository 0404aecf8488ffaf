//! The bytes of a script, and its lines.
ghost use Rattle.std.specs.Prelude.{◌≡◌, ◌<◌, ◌≤◌, length, position, unwrap_or, IfSome};
ghost use Rattle.nt_lines.specs.Lines.{lines_of};
ghost use Rattle.nt_hangs.specs.Watching.{before_zero, is_zero};

use memchr::memchr;
use nt_wording::first_line;

/// Where the first zero byte is.
fn first_zero(bytes: &[u8]) -> Option<usize>
    ensures place { result ≡ position is_zero bytes.now }
    ensures within { IfSome result (λ place. place < length bytes.now) }
{
    memchr(0, bytes)
}

/// Where the first zero byte is, or the length where there is none.
fn zero_start(bytes: &[u8]) -> usize
    ensures place { result ≡ unwrap_or (position is_zero bytes.now) (length bytes.now) }
    ensures within { result ≤ length bytes.now }
{
    first_zero(bytes).unwrap_or(bytes.len())
}

/// The bytes before the first zero byte: a journal's file may have room for more lines than it has.
pub fn before_zero(bytes: &[u8]) -> &[u8]
    ensures { result.now ≡ before_zero bytes.now }
{
    &bytes[..zero_start(bytes)]
}

/// How many lines there are.
pub(crate) fn lines_in(bytes: &[u8]) -> u64
    ensures { result ≡ length (lines_of bytes.now) }
{
    let mut rest = bytes;
    let mut count: u64 = 0;
    while !rest.is_empty() {
        let (_line, after) = first_line(rest);
        rest = after;
        count += 1;
    }
    count
}
