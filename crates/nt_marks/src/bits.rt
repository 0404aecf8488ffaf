//! Bits in words of 64: one level.
ghost use Rattle.std.specs.Prelude.{◌≡◌, ◌≢◌, ◌<◌, ◌/◌, ◌+◌, ◌*◌, ◌^◌, ◌==◌, ℕ, length, slice_index};
ghost use Rattle.nt_marks.specs.Bits.{ChangesBit, IsLowestBit};

/// Sets this bit.
pub fn set_bit(words: &mut [u64], bit: usize)
    requires { bit / 64 < length words.old }
    ensures { ChangesBit words.old words.new bit 1 }
{
    words[bit / 64] |= 1 << (bit % 64);
}

/// Clears this bit. Returns whether its word is 0 now.
pub fn clear_bit(words: &mut [u64], bit: usize) -> bool
    requires { bit / 64 < length words.old }
    ensures changes { ChangesBit words.old words.new bit 0 }
    ensures empty { result ≡ (slice_index words.new (bit / 64) == 0) }
    ensures still { slice_index words.old (bit / 64) ≡ 0 → slice_index words.new (bit / 64) ≡ 0 }
{
    let word = words[bit / 64] & !(1 << (bit % 64));
    words[bit / 64] = word;
    word == 0
}

/// The lowest bit that is set. It is in this word, and all words before it are 0.
pub fn lowest_bit(words: &[u64], word: usize) -> usize
    requires few { word < 2 ^ 32 }
    requires here { slice_index words.now word ≢ 0 }
    requires before { (w : ℕ) → w < word → slice_index words.now w ≡ 0 }
    ensures lowest { IsLowestBit words.now result }
    ensures within { result < 64 * word + 64 }
{
    64 * word + words[word].trailing_zeros() as usize
}
