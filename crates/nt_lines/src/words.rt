//! The words of a line, and the numbers and names among them.

ghost use Rattle.std.specs.Prelude.{◌≡◌, ◌<◌, ◌≤◌, length, take, position, IfSome, Some, None, option_map, if◌then◌else◌};
ghost use Rattle.std.specs.List.{list_all, position_or_len};
ghost use Rattle.std.specs.Str.Lines.{strip_carriage_return};
ghost use Rattle.nt_lines.specs.Words.{is_gap, is_no_gap, are_digits, is_digit, digits_number, value_after, fitting, caller_of, is_letter, is_name_byte, is_identifier, is_thread_like, is_name, is_plain, is_semicolon, comment_start, text_of, IsFirstWord};

use memchr::memchr;

/// The first word, and what stands after it.
pub fn first_word<'a>(text: &'a [u8]) -> Option<(&'a [u8], &'a [u8])>
    ensures { IsFirstWord text.now result }
{
    let start = word_start(text)?;
    let text = &text[start..];
    let end = word_end(text);
    Some((&text[..end], &text[end..]))
}

fn is_gap(byte: u8) -> bool
    ensures { result ≡ is_gap byte }
{
    byte == b' ' || byte == b'\t'
}

/// Where the first word begins.
fn word_start(text: &[u8]) -> Option<usize>
    ensures place { result ≡ position is_no_gap text.now }
    ensures within { IfSome result (λ start. start < length text.now) }
{
    text.iter().position(|byte| !is_gap(*byte))
}

/// Where the first gap begins, or the length.
fn word_end(text: &[u8]) -> usize
    ensures place { result ≡ position_or_len is_gap text.now }
    ensures within { result ≤ length text.now }
{
    first_gap(text).unwrap_or(text.len())
}

fn first_gap(text: &[u8]) -> Option<usize>
    ensures place { result ≡ position is_gap text.now }
    ensures within { IfSome result (λ place. place < length text.now) }
{
    text.iter().position(|byte| is_gap(*byte))
}

fn is_digit(byte: u8) -> bool
    ensures { result ≡ is_digit byte }
{
    b'0' <= byte && byte <= b'9'
}

pub fn are_digits(word: &[u8]) -> bool
    ensures { result ≡ are_digits word.now }
{
    word.iter().all(|byte| is_digit(*byte))
}

/// The number that digits write, if it fits.
fn value_of(digits: &[u8]) -> Option<u64>
    ensures { result ≡ fitting (value_after 0 digits.now) }
{
    let mut value = 0u64;
    for digit in digits {
        value = value
            .checked_mul(10)?
            .checked_add(u64::from(digit.saturating_sub(b'0')))?;
    }
    Some(value)
}

/// The most digits of a number of 64 bits. One with a sign takes at most as many bytes.
pub const MAX_DIGITS: usize = 20;

/// A number of at most `most` digits.
#[tactic(auto, unfolding(crate::specs::Words::digits_number))]
pub fn number_of(word: &[u8], most: usize) -> Option<u64>
    ensures { result ≡ digits_number most word.now }
{
    if are_digits(word) && !word.is_empty() && word.len() <= most {
        value_of(word)
    } else {
        None
    }
}

/// The greatest number of nine digits.
pub const MAX_CALLER: u64 = 999_999_999;

/// The thread that `t` and one to nine digits name.
#[tactic(auto, unfolding(crate::specs::Words::caller_of))]
pub fn caller_of(word: &[u8]) -> Option<u32>
    ensures { result ≡ caller_of word.now }
{
    match word {
        [b't', digits @ ..] => match number_of(digits, 9) {
            Some(n) if n <= MAX_CALLER => Some(n as u32),
            _ => None,
        },
        _ => None,
    }
}

fn is_letter(byte: u8) -> bool
    ensures { result ≡ is_letter byte }
{
    matches!(byte, b'A'..=b'Z' | b'a'..=b'z' | b'_')
}

fn is_name_byte(byte: u8) -> bool
    ensures { result ≡ is_name_byte byte }
{
    is_letter(byte) || is_digit(byte)
}

fn are_name_bytes(word: &[u8]) -> bool
    ensures { result ≡ list_all is_name_byte word.now }
{
    word.iter().all(|byte| is_name_byte(*byte))
}

fn is_identifier(word: &[u8]) -> bool
    ensures { result ≡ is_identifier word.now }
{
    !word.is_empty() && !is_digit(word[0]) && are_name_bytes(word)
}

fn is_thread_like(word: &[u8]) -> bool
    ensures { result ≡ is_thread_like word.now }
{
    match word {
        [b't', digits @ ..] => !digits.is_empty() && are_digits(digits),
        _ => false,
    }
}

#[tactic(auto, unfolding(crate::specs::Words::is_name))]
fn is_name(word: &[u8]) -> bool
    ensures { result ≡ is_name word.now }
{
    is_identifier(word) && word.len() <= 32 && !is_thread_like(word)
}

/// The word as a name, if it is a lawful one.
pub fn name_of(word: &[u8]) -> Option<&str>
    ensures { option_map (λ name. name.now) result ≡ (if is_name word.now then Some word.now else None) }
{
    if is_name(word) {
        str::from_utf8(word).ok()
    } else {
        None
    }
}

/// What a line says before a comment, if each of its bytes may stand there.
pub fn text_of(line: &[u8]) -> Option<&[u8]>
    ensures { option_map (λ text. text.now) result
        ≡ (if list_all is_plain (text_of line.now) then Some (text_of line.now) else None) }
{
    let text = before_comment(without_return(line));
    if are_plain(text) { Some(text) } else { None }
}

/// It looks at every byte, many at once: nearly all texts are plain.
fn are_plain(text: &[u8]) -> bool
    ensures { result ≡ list_all is_plain text.now }
{
    let mut plain = true;
    for byte in text {
        plain &= is_plain(*byte);
    }
    plain
}

fn is_plain(byte: u8) -> bool
    ensures { result ≡ is_plain byte }
{
    matches!(byte, b'\t' | b' '..=b'~')
}

/// The line without the CR that ends it.
fn without_return(line: &[u8]) -> &[u8]
    ensures { result.now ≡ strip_carriage_return line.now }
{
    if !line.is_empty() && line[line.len() - 1] == b'\r' {
        &line[..line.len() - 1]
    } else {
        line
    }
}

fn before_comment(line: &[u8]) -> &[u8]
    ensures { result.now ≡ take (comment_start line.now) line.now }
{
    &line[..comment_start(line)]
}

/// Where the first comment begins, or the line's length.
fn comment_start(line: &[u8]) -> usize
    ensures start { result ≡ comment_start line.now }
    ensures within { result ≤ length line.now }
{
    first_semicolon(line).unwrap_or(line.len())
}

fn first_semicolon(line: &[u8]) -> Option<usize>
    ensures place { result ≡ position is_semicolon line.now }
    ensures within { IfSome result (λ place. place < length line.now) }
{
    memchr(b';', line)
}
