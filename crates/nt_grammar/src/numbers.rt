//! Numbers as words of a line, put where there is room for them, so that it can't fail.

ghost use Rattle.std.specs.Prelude.{◌≡◌, ◌+◌, ◌≤◌, ◌++◌, vec_len, vec_capacity, decimal};
ghost use Rattle.std.specs.Fmt.{signed_decimal};

use itoa::Buffer;
use nt_lines::{MAX_DIGITS, put};

/// Puts a number in decimal, where there is room for the most digits.
#[tactic(auto, using(crate::proofs::Digits::length_most))]
pub fn put_number(out: &mut Vec<u8>, number: u64)
    requires { vec_len out.old + MAX_DIGITS ≤ vec_capacity out.old }
    ensures items { out.new.items ≡ out.old.items ++ decimal number }
    ensures len { vec_len out.new ≤ vec_len out.old + MAX_DIGITS }
    ensures room { vec_capacity out.old ≤ vec_capacity out.new }
{
    let mut buffer = Buffer::new();
    put(out, buffer.format(number).as_bytes());
}

/// Puts a count, which may be negative, in decimal, where there is room for the most digits.
pub fn put_signed(out: &mut Vec<u8>, count: i32)
    requires { vec_len out.old + 11 ≤ vec_capacity out.old }
    ensures items { out.new.items ≡ out.old.items ++ signed_decimal count }
    ensures len { vec_len out.new ≤ vec_len out.old + 11 }
    ensures room { vec_capacity out.old ≤ vec_capacity out.new }
{
    let mut buffer = Buffer::new();
    put(out, buffer.format(count).as_bytes());
}

/// Puts a number of 64 bits, which may be negative, in decimal, where there is room for the most digits.
pub fn put_signed64(out: &mut Vec<u8>, value: i64)
    requires { vec_len out.old + MAX_DIGITS ≤ vec_capacity out.old }
    ensures items { out.new.items ≡ out.old.items ++ signed_decimal value }
    ensures len { vec_len out.new ≤ vec_len out.old + MAX_DIGITS }
    ensures room { vec_capacity out.old ≤ vec_capacity out.new }
{
    let mut buffer = Buffer::new();
    put(out, buffer.format(value).as_bytes());
}
