//! How many calls and ticks a script made, and what came of them.

ghost use Rattle.std.specs.Prelude.{◌≡◌, ◌+◌, ◌<◌, ◌^◌, length, is_err, if◌then◌else◌};

use nt_core::Reply;
use nt_status::Refusal;

#[derive(Clone, Copy, Debug, PartialEq, Eq)]
pub(crate) struct Tally {
    pub(crate) calls: u64,
    pub(crate) refused: u64,
    pub(crate) granted: u64,
}

impl Tally {
    pub(crate) fn new() -> Tally
        ensures { result ≡ record { calls = 0; refused = 0; granted = 0 } }
    {
        Tally {
            calls: 0,
            refused: 0,
            granted: 0,
        }
    }

    /// Counts one call more, and the waits that it ended.
    pub(crate) fn count(&mut self, answer: &Result<Reply, Refusal>, granted: usize)
        requires calls { self.old.calls + 1 < 2 ^ 64 }
        requires refused { self.old.refused + 1 < 2 ^ 64 }
        requires granted { self.old.granted + granted < 2 ^ 64 }
        ensures { self.new ≡ record {
          calls = self.old.calls + 1;
          refused = self.old.refused + (if is_err answer.now then 1 else 0);
          granted = self.old.granted + granted;
        } }
    {
        self.calls += 1;
        if answer.is_err() {
            self.refused += 1;
        }
        self.granted += granted as u64;
    }
}
