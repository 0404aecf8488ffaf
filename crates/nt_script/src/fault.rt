//! Why a script can't be carried out.

ghost use Rattle.std.specs.Prelude.{◌≡◌, ◌++◌, Some};
ghost use Rattle.nt_script.specs.Message.{fault_text, line_number, reason_of};

use nt_grammar::ScriptFault;
use std::error::Error;
use std::fmt;

/// Why a run ended before its script did.
#[derive(Clone, Copy, Debug, PartialEq, Eq)]
pub enum RunFault {
    Script { line: u64, fault: ScriptFault },
    Read { line: u64 },
    Write { line: u64 },
    Memory { line: u64 },
}

impl RunFault {
    /// The number of the line at which the run ended, from 1 on.
    pub fn line(self) -> u64
        ensures { result ≡ line_number self }
    {
        match self {
            RunFault::Script { line, .. }
            | RunFault::Read { line }
            | RunFault::Write { line }
            | RunFault::Memory { line } => line,
        }
    }

    /// Why it ended there, in words.
    pub fn reason(self) -> &'static str
        ensures { result.now ≡ reason_of self }
    {
        match self {
            RunFault::Script { fault, .. } => fault.words(),
            RunFault::Read { .. } => "read failed",
            RunFault::Write { .. } => "write failed",
            RunFault::Memory { .. } => "out of memory",
        }
    }
}

impl fmt::Display for RunFault {
    ghost output = { λ fault. Some (fault_text fault) };

    fn fmt<W: fmt::Write>(&self, f: &mut fmt::Formatter<W>) -> fmt::Result {
        let line = self.line();
        let reason = self.reason();
        write!(f, "line {line}: {reason}")
    }
}

impl Error for RunFault {}
