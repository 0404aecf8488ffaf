//! Assertions as functions. What an assertion compares and prints is proved here, and not again in each test.
use std::fmt::Debug;
use std::process::Abort;

/// Fails the test, and tells what was to be shown, unless this holds.
pub fn expect(rt: &impl Abort, holds: bool, shows: &str) {
    assert!(rt; holds, "{shows}");
}

/// The same of one of several, with its number.
pub fn expect_at(rt: &impl Abort, holds: bool, shows: &str, number: u64) {
    assert!(rt; holds, "{shows} {number}");
}

/// Fails the test, and tells both values and what they are, unless the value found is the one expected.
pub fn expect_equal<T: Copy + PartialEq + Debug>(
    rt: &impl Abort,
    found: T,
    expected: T,
    shows: &str,
) {
    assert_eq!(rt; found, expected, "{shows}");
}
