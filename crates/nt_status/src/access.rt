ghost use Rattle.std.specs.Prelude.{◌≡◌, ◌↔◌, ⊤, [], ◌∷◌, codes, IsSome, IfSome, IsTrue};
ghost use Rattle.nt_status.specs.Flags.{has_flag, only_known};
ghost use Rattle.nt_status.specs.Access.{access_bits};

use bitflags::{Flag, Flags, bitflag_items};
use std::marker::Model;
use std::ops::BitOr;

/// What a handle may be used for.
#[derive(Clone, Copy, PartialEq, Eq, Debug)]
pub struct Access(AccessBits);

impl Model for Access {
    ghost use Rattle.std.specs.Prelude.{ℕ, IsTrue};
    ghost use Rattle.nt_status.specs.Flags.{only_known};
    ghost use Rattle.nt_status.specs.Access.{access_bits};

    ghost Value = { ℕ };

    ghost view = { λ rights. rights.0.0 };

    ghost invariant = { λ rights. IsTrue (only_known access_bits rights.0.0) };

    ghost inverse = { λ bits. record { 0 = record { 0 = bits } } };
}

impl Access {
    /// No right at all.
    pub const NONE: Access = Access(AccessBits(0));

    /// SYNCHRONIZE: to wait for the object.
    pub const SYNCHRONIZE: Access = Access(AccessBits::SYNCHRONIZE);

    /// EVENT_MODIFY_STATE, and its equals for semaphores and timers: to signal the object, or to set or cancel the timer.
    pub const MODIFY_STATE: Access = Access(AccessBits::MODIFY_STATE);

    /// THREAD_SET_CONTEXT: to queue an APC to the thread.
    pub const SET_CONTEXT: Access = Access(AccessBits::SET_CONTEXT);

    /// The rights with these bits. None where a bit is set that names no right.
    pub fn from_bits(bits: u32) -> Option<Self>
        ensures known { IsSome result ↔ IsTrue (only_known access_bits bits) }
        ensures value { IfSome result (λ rights. rights ≡ bits) }
    {
        match AccessBits::from_bits(bits) {
            Some(known) => Some(Access(known)),
            None => None,
        }
    }

    /// The number that the rights make, joined by `|`.
    pub fn bits(self) -> u32
        ensures value { result ≡ self }
        ensures known { IsTrue (only_known access_bits result) }
    {
        self.0.bits()
    }

    /// Whether each of the other's rights is among these.
    pub fn contains(self, other: Self) -> bool
        ensures { result ≡ has_flag self other }
    {
        self.0.contains(other.0)
    }
}

impl BitOr for Access {
    ghost use Rattle.std.specs.Prelude.{◌≡◌};
    ghost use Rattle.std.specs.Int.RustNames.{bit_or};

    type Output = Access;

    ghost bitor_gives = { λ these others all. all ≡ bit_or these others };

    fn bitor(self, other: Self) -> Self {
        Access(self.0.union(other.0))
    }
}

#[derive(Clone, Copy, PartialEq, Eq, Debug)]
struct AccessBits(u32);

bitflag_items! {
    impl AccessBits: u32 {
        const SYNCHRONIZE = 0x0010_0000;
        const MODIFY_STATE = 0x0002;
        const SET_CONTEXT = 0x0010;
    }
}

impl Flags for AccessBits {
    type Bits = u32;

    ghost exact = { ⊤ };

    ghost table = { (codes "SYNCHRONIZE", 0x00100000) ∷ (codes "MODIFY_STATE", 2) ∷ (codes "SET_CONTEXT", 16) ∷ [] };

    ghost set_of = { λ rights. rights.0 };

    fn flags<'a>() -> &'a [Flag<AccessBits>] {
        AccessBits::FLAGS
    }

    fn bits(&self) -> u32 {
        self.0
    }

    fn from_bits_retain(bits: u32) -> AccessBits {
        AccessBits(bits)
    }
}
