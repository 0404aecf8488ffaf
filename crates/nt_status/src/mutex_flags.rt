ghost use Rattle.std.specs.Prelude.{◌≡◌, ◌↔◌, ⊤, [], ◌∷◌, codes, IsSome, IfSome, IsTrue};
ghost use Rattle.nt_status.specs.Flags.{has_flag, only_known, mutex_bits};

use bitflags::{Flag, Flags, bitflag_items};
use std::marker::Model;
use std::ops::BitOr;

/// How a mutex is created, by the flags of CreateMutexEx.
#[derive(Clone, Copy, PartialEq, Eq, Debug)]
pub struct MutexFlags(MutexBits);

impl Model for MutexFlags {
    ghost use Rattle.std.specs.Prelude.{ℕ, IsTrue};
    ghost use Rattle.nt_status.specs.Flags.{only_known, mutex_bits};

    ghost Value = { ℕ };

    ghost view = { λ flags. flags.0.0 };

    ghost invariant = { λ flags. IsTrue (only_known mutex_bits flags.0.0) };

    ghost inverse = { λ bits. record { 0 = record { 0 = bits } } };
}

impl MutexFlags {
    /// No flag: a mutex that nobody owns.
    pub const NONE: MutexFlags = MutexFlags(MutexBits(0));

    /// CREATE_MUTEX_INITIAL_OWNER: the thread that creates the mutex owns it.
    pub const INITIAL_OWNER: MutexFlags = MutexFlags(MutexBits::INITIAL_OWNER);

    /// The flags with these bits. None where a bit is set that names no flag.
    pub fn from_bits(bits: u32) -> Option<Self>
        ensures known { IsSome result ↔ IsTrue (only_known mutex_bits bits) }
        ensures value { IfSome result (λ flags. flags ≡ bits) }
    {
        match MutexBits::from_bits(bits) {
            Some(known) => Some(MutexFlags(known)),
            None => None,
        }
    }

    /// The number that the Win32 flags make, joined by `|`.
    pub fn bits(self) -> u32
        ensures value { result ≡ self }
        ensures known { IsTrue (only_known mutex_bits result) }
    {
        self.0.bits()
    }

    /// Whether each of the other's flags is among these.
    pub fn contains(self, other: Self) -> bool
        ensures { result ≡ has_flag self other }
    {
        self.0.contains(other.0)
    }
}

impl BitOr for MutexFlags {
    ghost use Rattle.std.specs.Prelude.{◌≡◌};
    ghost use Rattle.std.specs.Int.RustNames.{bit_or};

    type Output = MutexFlags;

    ghost bitor_gives = { λ these others all. all ≡ bit_or these others };

    fn bitor(self, other: Self) -> Self {
        MutexFlags(self.0.union(other.0))
    }
}

#[derive(Clone, Copy, PartialEq, Eq, Debug)]
struct MutexBits(u32);

bitflag_items! {
    impl MutexBits: u32 {
        const INITIAL_OWNER = 1;
    }
}

impl Flags for MutexBits {
    type Bits = u32;

    ghost exact = { ⊤ };

    ghost table = { (codes "INITIAL_OWNER", 1) ∷ [] };

    ghost set_of = { λ flags. flags.0 };

    fn flags<'a>() -> &'a [Flag<MutexBits>] {
        MutexBits::FLAGS
    }

    fn bits(&self) -> u32 {
        self.0
    }

    fn from_bits_retain(bits: u32) -> MutexBits {
        MutexBits(bits)
    }
}
