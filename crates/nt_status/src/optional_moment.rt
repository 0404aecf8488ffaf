ghost use Rattle.std.specs.Prelude.{◌≡◌};

use crate::moment::Moment;
use std::fmt::{Debug, Error, Formatter, Write};
use std::marker::Model;

/// A moment or none, in the eight bytes of a moment. (An `Option<Moment>` takes sixteen.)
#[derive(Clone, Copy, PartialEq, Eq)]
pub struct OptionalMoment(u64);

impl Model for OptionalMoment {
    ghost use Rattle.std.specs.Prelude.{ℕ, ◌+◌, ◌≤◌, Option};
    ghost use Rattle.nt_status.specs.declared.limits.TheConstants.{MAX_MOMENT};
    ghost use Rattle.nt_status.specs.Moment.{one_below, one_above};

    ghost Value = { Option ℕ };

    ghost view = { λ m. one_below m.0 };

    ghost invariant = { λ m. m.0 ≤ MAX_MOMENT + 1 };

    ghost inverse = { λ m. record { 0 = one_above m } };
}

impl OptionalMoment {
    /// This moment, or none.
    pub fn new(moment: Option<Moment>) -> Self
        ensures { result ≡ moment }
    {
        match moment {
            Some(moment) => OptionalMoment(moment.get() + 1),
            None => OptionalMoment(0),
        }
    }

    /// The moment, or none.
    pub fn get(self) -> Option<Moment>
        ensures { result ≡ self }
    {
        if self.0 == 0 {
            None
        } else {
            Moment::new(self.0 - 1)
        }
    }
}

impl Debug for OptionalMoment {
    fn fmt<W: Write>(&self, formatter: &mut Formatter<W>) -> Result<(), Error> {
        self.get().fmt(formatter)
    }
}
