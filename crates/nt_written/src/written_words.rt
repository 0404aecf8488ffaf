//! The lines of calls, put word by word where there is room for them.

ghost use Rattle.std.specs.Prelude.{◌≡◌, ◌+◌, ◌*◌, ◌≤◌, ◌<◌, ◌^◌, ◌++◌, ◌∷◌, true, ℤ, length, vec_len, vec_capacity, decimal};
ghost use Rattle.std.specs.Fmt.{signed_decimal};
ghost use Rattle.nt_status.specs.Flags.{has_flag};
ghost use Rattle.nt_lines.specs.Words.{is_name};
ghost use Rattle.nt_grammar.specs.Scope.{Scope};
ghost use Rattle.nt_grammar.specs.Naming.{NamesFree};
ghost use Rattle.nt_grammar.specs.Keywords.{keyword_text};
ghost use Rattle.nt_grammar.specs.Spelling.{caller_word, time_word, mode_word, statement_text, IsSigned, CanBeSaid};
ghost use Rattle.nt_written.specs.declared.writing.TheConstants.{NUMBER_BYTES};
ghost use Rattle.nt_written.specs.Written.{name_for, statement_for};
ghost use Rattle.nt_written.specs.Writing.{has_words, flags_have_words, flag_text, wait_word, objects_text, room_of, AreHandles};

use nt_calls::{Act, Call, WaitCall};
use nt_grammar::{ALERTABLE, INF, Keyword, PLAIN, put_number, put_signed, put_signed64};
use nt_lines::put;
use nt_status::{Handle, INFINITE, ThreadId};

// ---- words

/// Puts a space and a word.
fn put_word(out: &mut Vec<u8>, word: &[u8])
    requires { vec_len out.old + 1 + length word.now ≤ vec_capacity out.old }
    ensures items { out.new.items ≡ out.old.items ++ 32 ∷ word.now }
    ensures len { vec_len out.new ≡ vec_len out.old + 1 + length word.now }
    ensures room { vec_capacity out.old ≤ vec_capacity out.new }
{
    put(out, b" ");
    put(out, word);
}

/// Puts a space and a number.
pub(crate) fn put_value(out: &mut Vec<u8>, value: u64)
    requires { vec_len out.old + NUMBER_BYTES ≤ vec_capacity out.old }
    ensures items { out.new.items ≡ out.old.items ++ 32 ∷ decimal value }
    ensures len { vec_len out.new ≤ vec_len out.old + NUMBER_BYTES }
    ensures room { vec_capacity out.old ≤ vec_capacity out.new }
    ensures range { value < 2 ^ 64 }
{
    put(out, b" ");
    put_number(out, value);
}

/// Puts a space and an object, by the number of its handle.
pub(crate) fn put_object(out: &mut Vec<u8>, object: Handle)
    requires { vec_len out.old + NUMBER_BYTES ≤ vec_capacity out.old }
    ensures items { out.new.items ≡ out.old.items ++ 32 ∷ decimal object }
    ensures len { vec_len out.new ≤ vec_len out.old + NUMBER_BYTES }
    ensures room { vec_capacity out.old ≤ vec_capacity out.new }
    ensures range { object < 2 ^ 32 }
{
    put_value(out, u64::from(object.get()));
}

/// Puts a space and a count, which may be negative.
pub(crate) fn put_count(out: &mut Vec<u8>, count: i32)
    requires { vec_len out.old + 12 ≤ vec_capacity out.old }
    ensures items { out.new.items ≡ out.old.items ++ 32 ∷ signed_decimal count }
    ensures len { vec_len out.new ≤ vec_len out.old + 12 }
    ensures room { vec_capacity out.old ≤ vec_capacity out.new }
    ensures range { IsSigned (2 ^ 31) count }
{
    put(out, b" ");
    put_signed(out, count);
}

/// Puts a space and a due time, which may be negative.
pub(crate) fn put_due(out: &mut Vec<u8>, due: i64)
    requires { vec_len out.old + NUMBER_BYTES ≤ vec_capacity out.old }
    ensures items { out.new.items ≡ out.old.items ++ 32 ∷ signed_decimal due }
    ensures len { vec_len out.new ≤ vec_len out.old + NUMBER_BYTES }
    ensures room { vec_capacity out.old ≤ vec_capacity out.new }
    ensures range { IsSigned (2 ^ 63) due }
{
    put(out, b" ");
    put_signed64(out, due);
}

/// Puts a space and a timeout in milliseconds, or none.
pub(crate) fn put_time(out: &mut Vec<u8>, ms: u32)
    requires { vec_len out.old + NUMBER_BYTES ≤ vec_capacity out.old }
    ensures items { out.new.items ≡ out.old.items ++ 32 ∷ time_word ms }
    ensures len { vec_len out.new ≤ vec_len out.old + NUMBER_BYTES }
    ensures room { vec_capacity out.old ≤ vec_capacity out.new }
    ensures range { ms < 2 ^ 32 }
{
    if ms == INFINITE {
        put_word(out, INF);
    } else {
        put_value(out, u64::from(ms));
    }
}

/// Puts a space and whether the wait is alertable.
pub(crate) fn put_mode(out: &mut Vec<u8>, alertable: bool)
    requires { vec_len out.old + 10 ≤ vec_capacity out.old }
    ensures items { out.new.items ≡ out.old.items ++ 32 ∷ mode_word alertable }
    ensures len { vec_len out.new ≤ vec_len out.old + 10 }
    ensures room { vec_capacity out.old ≤ vec_capacity out.new }
{
    if alertable {
        put_word(out, ALERTABLE);
    } else {
        put_word(out, PLAIN);
    }
}

/// Puts a space and the word of a flag, where it is given.
pub(crate) fn put_flag(out: &mut Vec<u8>, flags: u32, flag: u32, word: &[u8])
    requires { vec_len out.old + 1 + length word.now ≤ vec_capacity out.old }
    ensures items { out.new.items ≡ out.old.items ++ flag_text (has_flag flags flag) word.now }
    ensures len { vec_len out.new ≤ vec_len out.old + 1 + length word.now }
    ensures room { vec_capacity out.old ≤ vec_capacity out.new }
{
    if flags & flag == flag {
        put_word(out, word);
    }
}

/// Puts each object after a space.
pub(crate) fn put_objects(out: &mut Vec<u8>, objects: &[Handle])
    requires { vec_len out.old + NUMBER_BYTES * length objects.now ≤ vec_capacity out.old }
    ensures items { out.new.items ≡ out.old.items ++ objects_text objects.now }
    ensures len { vec_len out.new ≤ vec_len out.old + NUMBER_BYTES * length objects.now }
    ensures room { vec_capacity out.old ≤ vec_capacity out.new }
    ensures range { AreHandles objects.now }
{
    for object in objects {
        put_object(out, *object);
    }
}

// ---- how lines begin

/// Puts a caller and a keyword.
pub(crate) fn put_keyword(out: &mut Vec<u8>, who: ThreadId, keyword: Keyword)
    requires { vec_len out.old + 22 + length (keyword_text keyword) ≤ vec_capacity out.old }
    ensures items { out.new.items ≡ out.old.items ++ (caller_word who ++ 32 ∷ keyword_text keyword) }
    ensures len { vec_len out.new ≤ vec_len out.old + 22 + length (keyword_text keyword) }
    ensures room { vec_capacity out.old ≤ vec_capacity out.new }
    ensures range { who < 2 ^ 16 }
{
    put(out, b"t");
    put_number(out, u64::from(who.get()));
    put_word(out, keyword.text().as_bytes());
}

/// Puts a caller, and whether it waits for all of the objects that follow or for any.
pub(crate) fn put_wait_keyword(out: &mut Vec<u8>, who: ThreadId, all: bool)
    requires { vec_len out.old + 25 ≤ vec_capacity out.old }
    ensures items { out.new.items ≡ out.old.items ++ (caller_word who ++ 32 ∷ wait_word all) }
    ensures len { vec_len out.new ≤ vec_len out.old + 25 }
    ensures room { vec_capacity out.old ≤ vec_capacity out.new }
    ensures range { who < 2 ^ 16 }
{
    if all {
        put_keyword(out, who, Keyword::All);
    } else {
        put_keyword(out, who, Keyword::Any);
    }
}

/// Puts a caller, a keyword and an object.
pub(crate) fn put_on(out: &mut Vec<u8>, who: ThreadId, keyword: Keyword, object: Handle)
    requires { vec_len out.old + 43 + length (keyword_text keyword) ≤ vec_capacity out.old }
    ensures items { out.new.items ≡ out.old.items ++ (caller_word who ++ 32 ∷ (keyword_text keyword ++ 32 ∷ decimal object)) }
    ensures len { vec_len out.new ≤ vec_len out.old + 43 + length (keyword_text keyword) }
    ensures room { vec_capacity out.old ≤ vec_capacity out.new }
    ensures range { (who < 2 ^ 16) × (object < 2 ^ 32) }
{
    put_keyword(out, who, keyword);
    put_object(out, object);
}

/// Puts a caller, a keyword and the name of what was created.
pub(crate) fn put_creation(
    out: &mut Vec<u8>,
    who: ThreadId,
    keyword: Keyword,
    created: Option<Handle>,
)
    requires { vec_len out.old + 44 + length (keyword_text keyword) ≤ vec_capacity out.old }
    ensures items { out.new.items ≡ out.old.items ++ (caller_word who ++ 32 ∷ (keyword_text keyword ++ 32 ∷ name_for created)) }
    ensures len { vec_len out.new ≤ vec_len out.old + 44 + length (keyword_text keyword) }
    ensures room { vec_capacity out.old ≤ vec_capacity out.new }
    ensures range { (who < 2 ^ 16) × (is_name (name_for created) ≡ true) }
{
    put_keyword(out, who, keyword);
    match created {
        Some(handle) => {
            put(out, b" h");
            put_number(out, u64::from(handle.get()));
        }
        None => put_word(out, b"refused"),
    }
}
