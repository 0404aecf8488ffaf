//! Why a line says nothing.

ghost use Rattle.std.specs.Prelude.{◌≡◌, Some};
ghost use Rattle.nt_grammar.specs.Message.{fault_words};
ghost use Rattle.nt_grammar.specs.declared.fault.LineFault.TheVariants.{Memory, Script};

use std::alloc::AllocError;
use std::error::Error;
use std::fmt;

/// What is wrong with a line of a script.
#[derive(Clone, Copy, Debug, PartialEq, Eq)]
pub enum ScriptFault {
    LineTooLong,
    BadByte,
    ThreadsExpected,
    UnknownWord,
    MissingWord,
    BadNumber,
    BadName,
    NameTaken,
    UnknownName,
    ExtraWord,
}

impl ScriptFault {
    /// The fault in words.
    pub fn words(self) -> &'static str
        ensures { result.now ≡ fault_words self }
    {
        match self {
            ScriptFault::LineTooLong => "line too long",
            ScriptFault::BadByte => "bad byte",
            ScriptFault::ThreadsExpected => "threads expected",
            ScriptFault::UnknownWord => "unknown word",
            ScriptFault::MissingWord => "missing word",
            ScriptFault::BadNumber => "bad number",
            ScriptFault::BadName => "bad name",
            ScriptFault::NameTaken => "name taken",
            ScriptFault::UnknownName => "unknown name",
            ScriptFault::ExtraWord => "extra word",
        }
    }
}

impl fmt::Display for ScriptFault {
    ghost output = { λ fault. Some (fault_words fault) };

    fn fmt<W: fmt::Write>(&self, f: &mut fmt::Formatter<W>) -> fmt::Result {
        let words = self.words();
        write!(f, "{words}")
    }
}

impl Error for ScriptFault {}

/// Why one line can't be carried out.
#[derive(Clone, Copy, Debug, PartialEq, Eq)]
pub enum LineFault {
    Memory,
    Script(ScriptFault),
}

impl From<AllocError> for LineFault {
    ghost from_gives = { λ _ fault. fault ≡ Memory };

    fn from(_error: AllocError) -> LineFault {
        LineFault::Memory
    }
}

impl From<ScriptFault> for LineFault {
    ghost from_gives = { λ script fault. fault ≡ Script script };

    fn from(fault: ScriptFault) -> LineFault {
        LineFault::Script(fault)
    }
}
