ghost use Rattle.std.specs.Prelude.{◌≡◌, ◌↔◌, ⊤, [], ◌∷◌, codes, IsSome, IfSome, IsTrue};
ghost use Rattle.nt_status.specs.Flags.{has_flag, only_known, event_bits};

use bitflags::{Flag, Flags, bitflag_items};
use std::marker::Model;
use std::ops::BitOr;

/// How an event is created, by the flags of CreateEventEx.
#[derive(Clone, Copy, PartialEq, Eq, Debug)]
pub struct EventFlags(EventBits);

impl Model for EventFlags {
    ghost use Rattle.std.specs.Prelude.{ℕ, IsTrue};
    ghost use Rattle.nt_status.specs.Flags.{only_known, event_bits};

    ghost Value = { ℕ };

    ghost view = { λ flags. flags.0.0 };

    ghost invariant = { λ flags. IsTrue (only_known event_bits flags.0.0) };

    ghost inverse = { λ bits. record { 0 = record { 0 = bits } } };
}

impl EventFlags {
    /// No flag: an auto-reset event that is not set.
    pub const NONE: EventFlags = EventFlags(EventBits(0));

    /// CREATE_EVENT_MANUAL_RESET: a wait that the event satisfies leaves it set.
    pub const MANUAL_RESET: EventFlags = EventFlags(EventBits::MANUAL_RESET);

    /// CREATE_EVENT_INITIAL_SET: the event is created set.
    pub const INITIAL_SET: EventFlags = EventFlags(EventBits::INITIAL_SET);

    /// The flags with these bits. None where a bit is set that names no flag.
    pub fn from_bits(bits: u32) -> Option<Self>
        ensures known { IsSome result ↔ IsTrue (only_known event_bits bits) }
        ensures value { IfSome result (λ flags. flags ≡ bits) }
    {
        match EventBits::from_bits(bits) {
            Some(known) => Some(EventFlags(known)),
            None => None,
        }
    }

    /// The number that the Win32 flags make, joined by `|`.
    pub fn bits(self) -> u32
        ensures value { result ≡ self }
        ensures known { IsTrue (only_known event_bits result) }
    {
        self.0.bits()
    }

    /// Whether each of the other's flags is among these.
    pub fn contains(self, other: Self) -> bool
        ensures { result ≡ has_flag self other }
    {
        self.0.contains(other.0)
    }
}

impl BitOr for EventFlags {
    ghost use Rattle.std.specs.Prelude.{◌≡◌};
    ghost use Rattle.std.specs.Int.RustNames.{bit_or};

    type Output = EventFlags;

    ghost bitor_gives = { λ these others all. all ≡ bit_or these others };

    fn bitor(self, other: Self) -> Self {
        EventFlags(self.0.union(other.0))
    }
}

#[derive(Clone, Copy, PartialEq, Eq, Debug)]
struct EventBits(u32);

bitflag_items! {
    impl EventBits: u32 {
        const MANUAL_RESET = 1;
        const INITIAL_SET = 2;
    }
}

impl Flags for EventBits {
    type Bits = u32;

    ghost exact = { ⊤ };

    ghost table = { (codes "MANUAL_RESET", 1) ∷ (codes "INITIAL_SET", 2) ∷ [] };

    ghost set_of = { λ flags. flags.0 };

    fn flags<'a>() -> &'a [Flag<EventBits>] {
        EventBits::FLAGS
    }

    fn bits(&self) -> u32 {
        self.0
    }

    fn from_bits_retain(bits: u32) -> EventBits {
        EventBits(bits)
    }
}
