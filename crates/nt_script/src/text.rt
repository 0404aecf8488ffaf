//! Digits in base 16, put where there is room for them, so that it can't fail.

ghost use Rattle.std.specs.Prelude.{◌≡◌, ◌+◌, ◌≤◌, ◌<◌, ◌++◌, true, vec_len, vec_capacity};
ghost use Rattle.std.specs.Fmt.{digit_glyph};
ghost use Rattle.nt_script.specs.Transcript.{hex_digits};

use nt_lines::put;

fn hex_digit(digit: u8) -> u8
    requires { digit < 16 }
    ensures { result ≡ digit_glyph true digit }
{
    if digit < 10 {
        b'0' + digit
    } else {
        b'A' - 10 + digit
    }
}

/// Puts the last digits of a number in base 16, as many as are asked for, where there is room for them.
pub(crate) fn put_hex(out: &mut Vec<u8>, count: usize, number: u32)
    requires { vec_len out.old + count ≤ vec_capacity out.old }
    ensures items { out.new.items ≡ out.old.items ++ hex_digits count number }
    ensures len { vec_len out.new ≡ vec_len out.old + count }
    ensures room { vec_capacity out.old ≤ vec_capacity out.new }
{
    if count > 0 {
        put_hex(out, count - 1, number / 16);
        put(out, &[hex_digit((number % 16) as u8)]);
    }
}
