ghost use Rattle.std.specs.Prelude.{◌≡◌, ◌↔◌, ⊤, [], ◌∷◌, codes, IsSome, IfSome, IsTrue};
ghost use Rattle.nt_status.specs.Flags.{has_flag, only_known, timer_bits};

use bitflags::{Flag, Flags, bitflag_items};
use std::marker::Model;
use std::ops::BitOr;

/// How a waitable timer is created, by the flags of CreateWaitableTimerEx.
#[derive(Clone, Copy, PartialEq, Eq, Debug)]
pub struct TimerFlags(TimerBits);

impl Model for TimerFlags {
    ghost use Rattle.std.specs.Prelude.{ℕ, IsTrue};
    ghost use Rattle.nt_status.specs.Flags.{only_known, timer_bits};

    ghost Value = { ℕ };

    ghost view = { λ flags. flags.0.0 };

    ghost invariant = { λ flags. IsTrue (only_known timer_bits flags.0.0) };

    ghost inverse = { λ bits. record { 0 = record { 0 = bits } } };
}

impl TimerFlags {
    /// No flag: a timer that a wait resets.
    pub const NONE: TimerFlags = TimerFlags(TimerBits(0));

    /// CREATE_WAITABLE_TIMER_MANUAL_RESET: a wait that the timer satisfies leaves it set.
    pub const MANUAL_RESET: TimerFlags = TimerFlags(TimerBits::MANUAL_RESET);

    /// The flags with these bits. None where a bit is set that names no flag.
    pub fn from_bits(bits: u32) -> Option<Self>
        ensures known { IsSome result ↔ IsTrue (only_known timer_bits bits) }
        ensures value { IfSome result (λ flags. flags ≡ bits) }
    {
        match TimerBits::from_bits(bits) {
            Some(known) => Some(TimerFlags(known)),
            None => None,
        }
    }

    /// The number that the Win32 flags make, joined by `|`.
    pub fn bits(self) -> u32
        ensures value { result ≡ self }
        ensures known { IsTrue (only_known timer_bits result) }
    {
        self.0.bits()
    }

    /// Whether each of the other's flags is among these.
    pub fn contains(self, other: Self) -> bool
        ensures { result ≡ has_flag self other }
    {
        self.0.contains(other.0)
    }
}

impl BitOr for TimerFlags {
    ghost use Rattle.std.specs.Prelude.{◌≡◌};
    ghost use Rattle.std.specs.Int.RustNames.{bit_or};

    type Output = TimerFlags;

    ghost bitor_gives = { λ these others all. all ≡ bit_or these others };

    fn bitor(self, other: Self) -> Self {
        TimerFlags(self.0.union(other.0))
    }
}

#[derive(Clone, Copy, PartialEq, Eq, Debug)]
struct TimerBits(u32);

bitflag_items! {
    impl TimerBits: u32 {
        const MANUAL_RESET = 1;
    }
}

impl Flags for TimerBits {
    type Bits = u32;

    ghost exact = { ⊤ };

    ghost table = { (codes "MANUAL_RESET", 1) ∷ [] };

    ghost set_of = { λ flags. flags.0 };

    fn flags<'a>() -> &'a [Flag<TimerBits>] {
        TimerBits::FLAGS
    }

    fn bits(&self) -> u32 {
        self.0
    }

    fn from_bits_retain(bits: u32) -> TimerBits {
        TimerBits(bits)
    }
}
