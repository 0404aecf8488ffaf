//! How long a wait may pend.
ghost use Rattle.std.specs.Prelude.{◌≡◌};

use nt_calls::WaitMode;
use nt_status::INFINITE;
use std::marker::Model;

/// How long a wait may pend, seen as its milliseconds. That of 0xFFFFFFFF has no end.
#[derive(Clone, Copy, PartialEq, Eq, Debug)]
pub struct Timeout(u32);

impl Model for Timeout {
    ghost use Rattle.std.specs.Prelude.{ℕ};

    ghost Value = { ℕ };

    ghost view = { λ timeout. timeout.0 };

    ghost inverse = { λ n. record { 0 = n } };
}

impl Timeout {
    /// INFINITE: the wait has no deadline.
    pub const INFINITE: Timeout = Timeout(INFINITE);

    /// The wait ends at once, whether its objects let it or not.
    pub const ZERO: Timeout = Timeout(0);

    /// These milliseconds, and no deadline at 0xFFFFFFFF.
    pub fn from_ms(ms: u32) -> Self
        ensures { result ≡ ms }
    {
        Timeout(ms)
    }

    /// In milliseconds, and 0xFFFFFFFF without a deadline.
    pub fn ms(self) -> u32
        ensures { result ≡ self }
    {
        self.0
    }

    /// The mode of a wait with this timeout, alertable or not.
    pub fn mode(self, alertable: bool) -> WaitMode
        ensures { result ≡ record { ms = self; alertable = alertable } }
    {
        WaitMode {
            ms: self.0,
            alertable,
        }
    }
}

const _: () = prove!(Timeout::INFINITE.0 == u32::MAX);

const _: () = prove!(Timeout::ZERO.0 == 0);
