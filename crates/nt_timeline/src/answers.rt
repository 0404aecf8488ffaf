//! What a call answered, by name.

use crate::steps::Kind;
use memchr::memchr;
use nt_lines::{MAX_DIGITS, number_of};
use nt_status::{Refusal, Status};
use nt_wording::put_status;
use std::alloc::{AllocError, Global};

/// Every refusal.
const REFUSALS: [Refusal; 14] = [
    Refusal::AccessDenied,
    Refusal::InvalidHandle,
    Refusal::Memory,
    Refusal::ThreadGone,
    Refusal::InvalidParameter,
    Refusal::NotOwner,
    Refusal::TooManyPosts,
    Refusal::ThreadWaiting,
    Refusal::ThreadEnded,
    Refusal::UnknownThread,
    Refusal::RecursionLimit,
    Refusal::MomentBack,
    Refusal::JournalFull,
    Refusal::HandleLimit,
];

/// The name of the error with this number.
fn error_name(number: u64) -> &'static str {
    for refusal in REFUSALS {
        if u64::from(refusal.number()) == number {
            return refusal.name();
        }
    }
    "an error"
}

/// The value of a hexadecimal digit; 0 of any other byte.
fn digit_of(byte: u8) -> u32 {
    match byte {
        b'0'..=b'9' => u32::from(byte - b'0'),
        b'A'..=b'F' => u32::from(byte - b'A') + 10,
        b'a'..=b'f' => u32::from(byte - b'a') + 10,
        _ => 0,
    }
}

/// The number that hexadecimal digits write.
fn hexadecimal(digits: &[u8]) -> u32 {
    let mut number: u32 = 0;
    for digit in digits {
        number = number.wrapping_mul(16).wrapping_add(digit_of(*digit));
    }
    number
}

/// What stands before the byte, and what after it; all and nothing where it is not there.
pub(crate) fn cut(text: &[u8], byte: u8) -> (&[u8], &[u8]) {
    match memchr(byte, text) {
        Some(place) => (&text[..place], &text[place + 1..]),
        None => (text, b""),
    }
}

/// The answer in what a line of a script said: it stands in the first line, after the number.
pub(crate) fn answer_in(said: &[u8]) -> &[u8] {
    let (line, _) = cut(said, b'\n');
    let (_, answer) = cut(line, b' ');
    answer
}

/// How a wait ended, by name. That of the first object has no number after it.
pub fn name_of(alloc: Global, status: Status) -> Result<Vec<u8>, AllocError> {
    let mut name = Vec::new(alloc);
    put_status(&mut name, status)?;
    Ok(name)
}

/// What kind of call it is that answered this, and the answer by name.
pub(crate) fn told(
    alloc: Global,
    answer: &[u8],
    ticks: bool,
) -> Result<(Kind, Vec<u8>), AllocError> {
    if answer == b"pending".as_slice() {
        return Ok((Kind::Pends, Vec::new(alloc)));
    }
    if let Some(number) = answer.strip_prefix(b"error ") {
        let name = error_name(number_of(number, MAX_DIGITS).unwrap_or(0));
        return Ok((Kind::Refused, Vec::from_slice(alloc, name.as_bytes())?));
    }
    if let Some(digits) = answer.strip_prefix(b"status 0x") {
        if let Some(status) = Status::from_code(hexadecimal(digits)) {
            return Ok((Kind::AtOnce(status), name_of(alloc, status)?));
        }
    }
    if ticks {
        return Ok((Kind::Tick, Vec::new(alloc)));
    }
    if answer == b"ok".as_slice() || answer.starts_with(b"handle ") {
        return Ok((Kind::Call, Vec::new(alloc)));
    }
    Ok((Kind::Call, Vec::from_slice(alloc, answer)?))
}
