ghost use Rattle.std.specs.Prelude.{◌≡◌, ◌<◌, ◌↔◌, ◌==◌, IsTrue, IsSome, IfSome, Some};
ghost use Rattle.nt_status.specs.Status.{object_code, abandoned_code, is_status_code, is_abandoned_code, io_completion_code, timeout_code, index_in, status_text};

use crate::limits::MAX_WAIT_OBJECTS;
use std::fmt::{Display, Error, Formatter, Write};
use std::marker::Model;

/// How a wait ended, seen as its code. It can be nothing but WAIT_OBJECT_0 or WAIT_ABANDONED_0 with an index below
/// `MAX_WAIT_OBJECTS`, WAIT_IO_COMPLETION or WAIT_TIMEOUT.
#[derive(Clone, Copy, PartialEq, Eq, Debug)]
pub struct Status(u32);

impl Model for Status {
    ghost use Rattle.std.specs.Prelude.{ℕ, IsTrue};
    ghost use Rattle.nt_status.specs.Status.{is_status_code};

    ghost Value = { ℕ };

    ghost view = { λ s. s.0 };

    ghost invariant = { λ s. IsTrue (is_status_code s.0) };

    ghost inverse = { λ n. record { 0 = n } };
}

impl Status {
    /// WAIT_TIMEOUT: the interval has passed.
    pub const TIMEOUT: Status = Status(0x102);

    /// WAIT_IO_COMPLETION: the thread has APCs to take.
    pub const IO_COMPLETION: Status = Status(0xC0);

    /// WAIT_OBJECT_0 + `index`: the object at this index of the wait was taken.
    pub fn object(index: u32) -> Self
        requires { index < MAX_WAIT_OBJECTS }
        ensures { result ≡ object_code index }
    {
        Status(index)
    }

    /// WAIT_ABANDONED_0 + `index`: the same, and it is a mutex whose last owner ended while it held it.
    pub fn abandoned(index: u32) -> Self
        requires { index < MAX_WAIT_OBJECTS }
        ensures { result ≡ abandoned_code index }
    {
        Status(0x80 + index)
    }

    /// The status with this code. None where no wait ends with it.
    pub fn from_code(code: u32) -> Option<Self>
        ensures known { IsSome result ↔ IsTrue (is_status_code code) }
        ensures value { IfSome result (λ status. status ≡ code) }
    {
        if code < MAX_WAIT_OBJECTS as u32
            || (0x80 <= code && code < 0xC0)
            || code == 0xC0
            || code == 0x102
        {
            Some(Status(code))
        } else {
            None
        }
    }

    /// The number that the wait functions answer.
    pub fn code(self) -> u32
        ensures code { result ≡ self }
        ensures known { IsTrue (is_status_code result) }
    {
        self.0
    }
    /// The index in the wait of the object that was taken, abandoned or not. None if the wait ended otherwise.
    pub fn index(self) -> Option<u32>
        ensures { result ≡ index_in self }
    {
        let code = self.code();
        let is_taken = code < MAX_WAIT_OBJECTS as u32;
        if is_taken {
            Some(code)
        } else if 0x80 <= code && code < 0xC0 {
            Some(code - 0x80)
        } else {
            None
        }
    }

    /// Whether a mutex was taken whose last owner ended while it held it.
    pub fn is_abandoned(self) -> bool
        ensures { result ≡ is_abandoned_code self }
    {
        (0x80..0xC0).contains(&self.code())
    }

    /// Whether the interval has passed.
    pub fn is_timeout(self) -> bool
        ensures { result ≡ (self == timeout_code) }
    {
        self == Status::TIMEOUT
    }

    /// Whether the wait ended for APCs, which the thread may take now.
    pub fn is_alerted(self) -> bool
        ensures { result ≡ (self == io_completion_code) }
    {
        self == Status::IO_COMPLETION
    }
}

/// `WAIT_OBJECT_0+1`, `WAIT_ABANDONED_0+1`, `WAIT_IO_COMPLETION` or `WAIT_TIMEOUT`.
impl Display for Status {
    ghost output = { λ status. Some (status_text status) };

    fn fmt<W: Write>(&self, formatter: &mut Formatter<W>) -> Result<(), Error> {
        let code = self.code();
        let is_taken = code < MAX_WAIT_OBJECTS as u32;
        if is_taken {
            write!(formatter, "WAIT_OBJECT_0+{code}")
        } else if 0x80 <= code && code < 0xC0 {
            let index = code - 0x80;
            write!(formatter, "WAIT_ABANDONED_0+{index}")
        } else if code == 0xC0 {
            write!(formatter, "WAIT_IO_COMPLETION")
        } else {
            write!(formatter, "WAIT_TIMEOUT")
        }
    }
}
