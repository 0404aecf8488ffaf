//! What may stand in a place of a line: a number, a new name, an object, a timeout, a mode.

ghost use Rattle.std.specs.Prelude.{◌≡◌, ◌≤◌, ◌<◌, ◌^◌, ◌-◌, ◌≤ℤ◌, ◌<ℤ◌, pos, neg_ℤ, drop, IfOk, IfSome, None};
ghost use Rattle.nt_grammar.specs.Scope.{bound_in};
ghost use Rattle.nt_grammar.specs.Places.{number_in, is_negative, signed_in, named_object, object_meant, time_in, begins_with_digit, blame, ObjectPlace};
ghost use Rattle.nt_grammar.specs.Reading.{Takes, or_fault, number_at, signed_at, routine_at, free_name_at, object_word_at, time_at, mode_at};

use crate::fault::ScriptFault;
use crate::keyword::{ALERTABLE, INF, PLAIN};
use crate::scope::Bindings;
use crate::words::Words;
use nt_lines::{MAX_DIGITS, are_digits, caller_of, name_of, number_of};
use nt_status::{Handle, INFINITE};

impl<'a> Words<'a> {
    #[tactic(auto, unfolding(crate::specs::Reading::number_at))]
    pub(crate) fn number(&mut self, least: u64, most: u64) -> Result<u64, ScriptFault>
        ensures exact { Takes (λ n. n) result self.new (number_at least most self.old) }
        ensures range { IfOk result (λ n. (least ≤ n) × (n ≤ most)) }
    {
        let word = self.next()?;
        number_in(word, least, most).ok_or(ScriptFault::BadNumber)
    }

    /// A signed number of 32 bits.
    #[tactic(auto, unfolding(crate::specs::Reading::signed_at))]
    pub(crate) fn signed32(&mut self) -> Result<i32, ScriptFault>
        ensures { Takes (λ n. n) result self.new (signed_at (2 ^ 31) self.old) }
    {
        let word = self.next()?;
        signed32_in(word).ok_or(ScriptFault::BadNumber)
    }

    /// A signed number of 64 bits.
    #[tactic(auto, unfolding(crate::specs::Reading::signed_at))]
    pub(crate) fn signed64(&mut self) -> Result<i64, ScriptFault>
        ensures { Takes (λ n. n) result self.new (signed_at (2 ^ 63) self.old) }
    {
        let word = self.next()?;
        signed64_in(word).ok_or(ScriptFault::BadNumber)
    }

    /// A routine and its argument, both or none, and nothing after them.
    #[tactic(auto, unfolding(crate::specs::Reading::routine_at))]
    pub(crate) fn routine(mut self) -> Result<Option<(u64, u64)>, ScriptFault>
        ensures { result ≡ routine_at self.entry }
    {
        if self.is_empty() {
            return Ok(None);
        }
        let routine = self.number(0, u64::MAX)?;
        let arg = self.number(0, u64::MAX)?;
        self.end()?;
        Ok(Some((routine, arg)))
    }

    #[tactic(auto, unfolding(crate::specs::Reading::free_name_at))]
    pub(crate) fn free_name(&mut self, bindings: &Bindings) -> Result<&'a str, ScriptFault>
        ensures exact { Takes (λ name. name.now) result self.new (free_name_at bindings.now.scope self.old) }
        ensures free { IfOk result (λ name. bound_in bindings.now.scope.names name.now ≡ None) }
    {
        let word = self.next()?;
        let Some(name) = name_of(word) else {
            return Err(ScriptFault::BadName);
        };
        if bindings.get(word).is_some() {
            return Err(ScriptFault::NameTaken);
        }
        Ok(name)
    }

    #[tactic(auto, unfolding(crate::specs::Reading::object_word_at))]
    pub(crate) fn object(&mut self, bindings: &Bindings) -> Result<Handle, ScriptFault>
        ensures { Takes (λ handle. handle) result self.new (object_word_at bindings.now.scope self.old) }
    {
        let word = self.next()?;
        let mut first = 0;
        object_of(bindings, &mut first, word)
    }

    /// A timeout in milliseconds, or none.
    #[tactic(auto, unfolding(crate::specs::Reading::time_at))]
    pub(crate) fn time(&mut self) -> Result<u32, ScriptFault>
        ensures { Takes (λ ms. ms) result self.new (time_at self.old) }
    {
        let word = self.next()?;
        match time_in(word) {
            Some(ms) => Ok(ms),
            None if begins_with_digit(word) => Err(ScriptFault::BadNumber),
            None => Err(ScriptFault::UnknownWord),
        }
    }

    /// Whether the wait is alertable.
    #[tactic(auto, unfolding(crate::specs::Reading::mode_at))]
    pub(crate) fn mode(&mut self) -> Result<bool, ScriptFault>
        ensures { Takes (λ alertable. alertable) result self.new (mode_at self.old) }
    {
        let word = self.next()?;
        if word == PLAIN {
            Ok(false)
        } else if word == ALERTABLE {
            Ok(true)
        } else {
            Err(ScriptFault::UnknownWord)
        }
    }
}

fn number_in(word: &[u8], least: u64, most: u64) -> Option<u64>
    ensures exact { result ≡ number_in least most word.now }
    ensures range { IfSome result (λ n. (least ≤ n) × (n ≤ most)) }
{
    match number_of(word, MAX_DIGITS) {
        Some(n) if least <= n && n <= most => Some(n),
        _ => None,
    }
}

/// The negative of a number, which 64 bits hold.
fn negative(n: u64) -> i64
    requires { n ≤ 2 ^ 63 }
    ensures { result ≡ neg_ℤ (pos n) }
{
    if n == 1 << 63 { i64::MIN } else { -(n as i64) }
}

fn is_negative(word: &[u8]) -> bool
    ensures { result ≡ is_negative word.now }
{
    matches!(word, [b'-', ..])
}

/// The word without its first byte.
fn after_sign(word: &[u8]) -> &[u8]
    ensures { result.now ≡ drop 1 word.now }
{
    match word {
        [_, others @ ..] => others,
        [] => word,
    }
}

fn signed32_in(word: &[u8]) -> Option<i32>
    ensures { result ≡ signed_in (2 ^ 31) word.now }
{
    if is_negative(word) {
        let n = number_in(after_sign(word), 0, 1 << 31)?;
        Some(negative(n) as i32)
    } else {
        let n = number_in(word, 0, i32::MAX as u64)?;
        Some(n as i32)
    }
}

fn signed64_in(word: &[u8]) -> Option<i64>
    ensures { result ≡ signed_in (2 ^ 63) word.now }
{
    if is_negative(word) {
        let n = number_in(after_sign(word), 0, 1 << 63)?;
        Some(negative(n))
    } else {
        let n = number_in(word, 0, i64::MAX as u64)?;
        Some(n as i64)
    }
}

/// The handle that a word means, or the word's fault. A name is first looked for at the place `next`.
pub(crate) fn object_of(
    bindings: &Bindings,
    next: &mut usize,
    word: &[u8],
) -> Result<Handle, ScriptFault>
    ensures { result ≡ or_fault (object_meant bindings.now.scope word.now) (blame ObjectPlace word.now) }
{
    match object_in(bindings, next, word) {
        Some(handle) => Ok(handle),
        None if are_digits(word) => Err(ScriptFault::BadNumber),
        None => Err(ScriptFault::UnknownName),
    }
}

/// The handle that a word means: digits alone are a handle's number.
fn object_in(bindings: &Bindings, next: &mut usize, word: &[u8]) -> Option<Handle>
    ensures { result ≡ object_meant bindings.now.scope word.now }
{
    if are_digits(word) {
        let number = number_in(word, 0, u64::from(u32::MAX))?;
        return Some(Handle::new(number as u32));
    }
    named_object(bindings, next, word)
}

/// A thread's object, or what a name stands for.
fn named_object(bindings: &Bindings, next: &mut usize, word: &[u8]) -> Option<Handle>
    ensures { result ≡ named_object bindings.now.scope word.now }
{
    if let Some(thread) = caller_of(word) {
        return (thread < bindings.threads()).then_some(Handle::new(thread));
    }
    bindings.get_next(next, word)
}

fn time_in(word: &[u8]) -> Option<u32>
    ensures { result ≡ time_in word.now }
{
    if word == INF {
        return Some(INFINITE);
    }
    let ms = number_in(word, 0, u64::from(u32::MAX))?;
    Some(ms as u32)
}

fn begins_with_digit(word: &[u8]) -> bool
    ensures { result ≡ begins_with_digit word.now }
{
    matches!(word, [b'0'..=b'9', ..])
}
