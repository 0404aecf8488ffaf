//! Assertions as functions. What an assertion compares and prints is proved here, and not again in each test.
ghost use Rattle.std.specs.Prelude.{IsTrue};

use crate::tests::memory::CoreHost;
use std::fmt::Debug;

/// Fails the test, and tells what was to be shown, unless this holds.
pub fn expect(rt: &impl CoreHost, holds: bool, shows: &str)
    ensures { IsTrue holds }
{
    assert!(rt; holds, "{shows}");
}

/// The same at a step of a row, from 0.
pub fn expect_step(rt: &impl CoreHost, holds: bool, step: usize) {
    assert!(rt; holds, "step {step}");
}

/// Fails the test, and tells both values and what they are, unless the value found is the one expected.
pub fn expect_equal<T: Copy + PartialEq + Debug>(
    rt: &impl CoreHost,
    found: T,
    expected: T,
    shows: &str,
) {
    assert_eq!(rt; found, expected, "{shows}");
}
