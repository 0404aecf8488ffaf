ghost use Rattle.std.specs.Prelude.{◌≡◌};

use std::marker::Model;

/// A thread, by its number.
#[derive(Clone, Copy, PartialEq, Eq, PartialOrd, Ord, Debug)]
pub struct ThreadId(u16);

impl Model for ThreadId {
    ghost use Rattle.std.specs.Prelude.{ℕ};

    ghost Value = { ℕ };

    ghost view = { λ t. t.0 };

    ghost inverse = { λ n. record { 0 = n } };
}

impl ThreadId {
    pub fn new(number: u16) -> Self
        ensures { result ≡ number }
    {
        ThreadId(number)
    }

    pub fn get(self) -> u16
        ensures { result ≡ self }
    {
        self.0
    }
}
