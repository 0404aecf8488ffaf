//! What a thread's reply word says.
ghost use Rattle.std.specs.Prelude.{◌≡◌, ◌≢◌, ◌/◌, ℕ, IfSome, IfNone};
ghost use Rattle.nt_mail.specs.declared.word.Word.{Word};
ghost use Rattle.nt_mail.specs.Words.{IsLawfulWord, TellsGrant, bits_of, granted_word, idle_word};

use nt_core::Reply;
use nt_status::Status;

/// How many states the low 10 bits of a word can tell.
pub const STATES: u64 = 1 << 10;

/// The numbers of entries are below this: the high 54 bits of a word have no greater.
pub const ENTRY_LIMIT: u64 = 1 << 54;

// A word has no other bits.
const _: () = prove!(ENTRY_LIMIT - 1 == u64::MAX / STATES);

const _: () = prove!(STATES == 1_024);

const _: () = prove!(ENTRY_LIMIT == 18_014_398_509_481_984);

/// A thread's reply word: the number of an entry of the thread, and how its wait stands.
#[derive(Clone, Copy, PartialEq, Eq, Debug)]
pub enum Word {
    /// No wait of the thread is pending, and it has taken each grant. The number is that of an entry which was the thread's last, or
    /// 0.
    Idle(u64),
    /// The thread's wait is pending. The number is that of the thread's last entry.
    Armed(u64),
    /// The thread's wait was granted with this status, and the grant is not taken yet. The number is that of the grant's entry.
    Granted(u64, Status),
}

impl Word {
    /// The word in 64 bits: the entry's number in the high 54, and in the low 10 how the wait stands: 0 for idle, 1 for armed,
    /// and for granted 2 and the status's code.
    pub fn bits(self) -> u64
        requires { IsLawfulWord self }
        ensures { result ≡ bits_of self }
    {
        match self {
            Word::Idle(entry) => entry * STATES,
            Word::Armed(entry) => entry * STATES + 1,
            Word::Granted(entry, status) => entry * STATES + 2 + u64::from(status.code()),
        }
    }

    /// The word with these bits. None where no word has them: where the low bits are of no state, or the word is armed or granted
    /// with the number 0.
    pub fn from_bits(bits: u64) -> Option<Word>
        ensures some { IfSome result (λ word. IsLawfulWord word × (bits_of word ≡ bits)) }
        ensures none { IfNone result ((word : Word) → IsLawfulWord word → bits_of word ≢ bits) }
    {
        let (entry, low) = (bits / STATES, bits % STATES);
        if low == 0 {
            return Some(Word::Idle(entry));
        }
        if entry == 0 {
            return None;
        }
        if low == 1 {
            return Some(Word::Armed(entry));
        }
        match Status::from_code((low - 2) as u32) {
            Some(status) => Some(Word::Granted(entry, status)),
            None => None,
        }
    }
}

/// The idle word with the same number.
pub(crate) fn idle_of(bits: u64) -> u64
    ensures { result ≡ idle_word (bits / STATES) }
{
    bits / STATES * STATES
}

/// The entry's number and the reply that a granted word tells. None where the bits are of no granted word.
pub fn told_by(bits: u64) -> Option<(u64, Reply)>
    ensures some { IfSome result (λ told. TellsGrant bits told.0 told.1) }
    ensures none { IfNone result ((n status : ℕ) → IsLawfulWord (Word.Granted n status)
        → granted_word n status ≢ bits) }
{
    let (entry, low) = (bits / STATES, bits % STATES);
    if entry == 0 || low < 2 {
        return None;
    }
    match Status::from_code((low - 2) as u32) {
        Some(status) => Some((entry, Reply::Status(status))),
        None => None,
    }
}
