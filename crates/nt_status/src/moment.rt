ghost use Rattle.std.specs.Prelude.{◌≡◌, ◌≤◌, ◌↔◌, ◌+◌, ◌*◌, IsSome, IfSome};

use crate::limits::MAX_MOMENT;
use std::marker::Model;

/// The units of 100 ns of a millisecond.
pub const UNITS_PER_MS: u64 = 10_000;

const _: () = prove!(UNITS_PER_MS == 10_000);

/// A moment, in units of 100 ns since the dispatcher's moment 0. The greatest is `MAX_MOMENT`.
#[derive(Clone, Copy, PartialEq, Eq, PartialOrd, Ord, Debug)]
pub struct Moment(u64);

impl Model for Moment {
    ghost use Rattle.std.specs.Prelude.{ℕ, ◌≤◌};
    ghost use Rattle.nt_status.specs.declared.limits.TheConstants.{MAX_MOMENT};

    ghost Value = { ℕ };

    ghost view = { λ m. m.0 };

    ghost invariant = { λ m. m.0 ≤ MAX_MOMENT };

    ghost inverse = { λ n. record { 0 = n } };
}

const _: () = prove!(Moment::ZERO.0 == 0);

const _: () = prove!(Moment::MAX.0 == 4_611_686_018_427_387_904);

impl Moment {
    /// The dispatcher's moment 0.
    pub const ZERO: Moment = Moment(0);

    /// The greatest moment.
    pub const MAX: Moment = Moment(MAX_MOMENT);

    /// The moment of this number, in units of 100 ns. None above `MAX_MOMENT`.
    pub fn new(value: u64) -> Option<Self>
        ensures valid { IsSome result ↔ (value ≤ MAX_MOMENT) }
        ensures value { IfSome result (λ m. m ≡ value) }
    {
        if value <= MAX_MOMENT {
            Some(Moment(value))
        } else {
            None
        }
    }

    /// In units of 100 ns.
    pub fn get(self) -> u64
        ensures value { result ≡ self }
        ensures limit { result ≤ MAX_MOMENT }
    {
        self.0
    }
    /// The moment that is this many milliseconds later. None above `MAX_MOMENT`.
    pub fn after_ms(self, ms: u32) -> Option<Self>
        ensures valid { IsSome result ↔ (self + UNITS_PER_MS * ms ≤ MAX_MOMENT) }
        ensures value { IfSome result (λ m. m ≡ self + UNITS_PER_MS * ms) }
    {
        Moment::new(self.0 + UNITS_PER_MS * u64::from(ms))
    }
}
