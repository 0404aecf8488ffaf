//! The lines that the program prints.
ghost use Rattle.std.specs.Prelude.{◌≡◌, ◌++◌, IfOk, OnOk, codes};
ghost use Rattle.nt_threads.specs.Reports.{count_line, count_lines};

use crate::counts::Counts;
use itoa::Buffer;
use std::alloc::{AllocError, Global};

/// Puts a line: a name that ends in a space, and a number.
fn put_line(out: &mut Vec<u8>, name: &str, number: u128) -> Result<(), AllocError>
    ensures { OnOk result (out.new.items ≡ out.old.items ++ count_line name.now number) }
{
    let mut buffer = Buffer::new();
    out.extend_from_slice(name.as_bytes())?;
    out.extend_from_slice(buffer.format(number).as_bytes())?;
    out.push(b'\n')?;
    Ok(())
}

/// The six lines: the workers and rounds, and what was counted.
pub(crate) fn lines_of(
    alloc: Global,
    workers: u32,
    rounds: u32,
    counts: &Counts,
) -> Result<Vec<u8>, AllocError>
    ensures { IfOk result (λ lines. lines.items ≡ count_lines workers rounds counts.now) }
{
    let mut out = Vec::new(alloc);
    put_line(&mut out, "threads ", u128::from(workers))?;
    put_line(&mut out, "rounds ", u128::from(rounds))?;
    put_line(&mut out, "acquired ", u128::from(counts.acquired))?;
    put_line(&mut out, "released ", u128::from(counts.released))?;
    put_line(&mut out, "semaphore ", counts.posted)?;
    put_line(&mut out, "abandoned ", u128::from(counts.abandoned))?;
    Ok(out)
}
