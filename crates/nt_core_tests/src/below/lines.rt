//! Lines that a slow reader gives.

use crate::expect::expect_equal;
use crate::tests::memory::{CoreHost, walk_at_last};
use nt_devices::Counted;
use nt_lines::{Ending, Input, MAX_LINE, put};
use nt_status::Refusal;
use std::io::{self, Read};
use std::test::Fail;

/// A reader that gives a byte at once.
#[derive(Drop)]
struct Slow<'a> {
    left: &'a [u8],
}

impl<'a> Read for Slow<'a> {
    fn read(&mut self, buf: &mut [u8]) -> io::Result<usize> {
        let left: &'a [u8] = self.left;
        let count = left.len().min(buf.len()).min(1);
        buf[..count].copy_from_slice(&left[..count]);
        self.left = &left[count..];
        Ok(count)
    }
}

/// Reads the next line, and puts a word in its place.
fn read_line(
    rt: &impl CoreHost,
    input: &mut Input,
    reader: &mut Counted<Slow<'_>>,
    wanted: (&[u8], Ending),
) -> Result<(), Refusal> {
    let mut line = Vec::with_capacity(rt.alloc(), MAX_LINE + 1)?;
    let ending = input.read_line(reader, &mut line);
    expect_equal(rt, ending, Ok(wanted.1), "how a line ends");
    expect_equal(rt, line.as_slice(), wanted.0, "a line");
    line.clear();
    put(&mut line, b"more");
    expect_equal(rt, line.as_slice(), b"more", "what is put");
    Ok(())
}

fn read_lines(rt: &impl CoreHost, input: &mut Input) -> Result<(), Refusal> {
    let left = b"t0 next\n\nlast";
    let mut reader = Counted::new(Slow { left });
    for (line, ending) in [
        (b"t0 next".as_slice(), Ending::Feed),
        (b"", Ending::Feed),
        (b"last", Ending::EndOfInput),
    ] {
        read_line(rt, input, &mut reader, (line, ending))?;
    }
    Ok(())
}

#[test]
fn lines_end_at_feeds_and_at_the_end_of_input(rt: HostRuntime) -> Result<(), Fail> {
    walk_at_last(
        &rt,
        "lines",
        || read_lines(&rt, &mut Input::new(rt.alloc())?),
    )
}
