//! A mutex or none, as it lies in the links.
ghost use Rattle.std.specs.Prelude.{◌≡◌, Some, IsSome, is_none};

use nt_status::ObjectNumber;
use std::marker::Model;

/// A mutex or none, which is read and written at once. (An `Option<ObjectNumber>` takes as many bytes, and a tag to test.)
#[derive(Clone, Copy)]
pub struct OptionalMutex(u64);

impl Model for OptionalMutex {
    ghost use Rattle.std.specs.Prelude.{ℕ, ◌≤◌, ◌^◌, Option};
    ghost use Rattle.nt_status.specs.Moment.{one_below, one_above};

    ghost Value = { Option ℕ };

    ghost view = { λ m. one_below m.0 };

    ghost invariant = { λ m. m.0 ≤ 2 ^ 32 };

    ghost inverse = { λ m. record { 0 = one_above m } };
}

impl OptionalMutex {
    pub const NONE: OptionalMutex = OptionalMutex(0);

    pub fn some(mutex: ObjectNumber) -> Self
        ensures { result ≡ Some mutex }
    {
        OptionalMutex(mutex.get() as u64 + 1)
    }

    pub fn is_none(self) -> bool
        ensures { result ≡ is_none self }
    {
        self.0 == 0
    }

    /// The mutex, which there is.
    pub fn mutex(self) -> ObjectNumber
        requires { IsSome self }
        ensures { Some result ≡ self }
    {
        ObjectNumber::new((self.0 - 1) as u32)
    }

    /// The mutex, or none.
    pub fn get(self) -> Option<ObjectNumber>
        ensures { result ≡ self }
    {
        if self.is_none() {
            None
        } else {
            Some(self.mutex())
        }
    }
}
