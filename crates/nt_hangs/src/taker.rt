//! Whoever takes the lines of a script, one after another.
ghost use Rattle.std.specs.Prelude.{◌+◌, ◌≡◌, ◌≤◌, ℕ, List, length, IfErr, IfOk, OnOk};
ghost use Rattle.nt_lines.specs.Lines.{lines_of};
ghost use Rattle.nt_hangs.specs.Steps.{is_last};
ghost use Rattle.nt_hangs.specs.Taking.{TakesLines};
ghost use Rattle.nt_hangs.specs.Watching.{lines_up_to};

use nt_wording::first_line;
use std::alloc::Global;

/// Takes the lines of a script, one after another, and may refuse one.
pub trait TakeLine {
    /// Why a line is refused.
    type Fault;

    /// Whether the line with this number can be taken next.
    ghost IsReady: { ℕ → Self → Type 0 };

    /// What taking the line with this number does.
    ghost Takes: { ℕ → List ℕ → Self → Self → Type 0 };

    /// Whether the line with this number can be refused so.
    ghost Refuses: { ℕ → List ℕ → Self → Self.Fault → Type 0 };

    /// Takes the line with this number, without the LF that ends it.
    fn take_line(&mut self, alloc: Global, number: u64, line: &[u8]) -> Result<(), Self::Fault>
        requires { IsReady number self.old }
        ensures ready { OnOk result (IsReady (number + 1) self.new) }
        ensures takes { OnOk result (Takes number line.now self.old self.new) }
        ensures refuses { IfErr result (Refuses number line.now self.old) };
}

/// Whether the line with this number was the last to be taken.
fn is_last(last: Option<u64>, count: u64) -> bool
    ensures { result ≡ is_last last count }
{
    match last {
        Some(last) => last == count,
        None => false,
    }
}

/// Has the lines taken up to this one, or all, and answers how many there were. The first that is refused is the last to be taken.
pub fn take_lines<T: TakeLine>(
    taker: &mut T,
    alloc: Global,
    input: &[u8],
    last: Option<u64>,
) -> Result<u64, T::Fault>
    requires { T.IsReady 1 taker.old }
    ensures takes { TakesLines T.Takes T.Refuses (lines_up_to last (lines_of input.now)) taker.old taker.new result }
    ensures few { IfOk result (λ count. count ≤ length input.now) }
{
    let mut rest = input;
    let mut count: u64 = 0;
    while !rest.is_empty() {
        if is_last(last, count) {
            return Ok(count);
        }
        let (line, after) = first_line(rest);
        match taker.take_line(alloc, count + 1, line) {
            Ok(()) => {}
            Err(fault) => return Err(fault),
        }
        rest = after;
        count += 1;
    }
    Ok(count)
}
