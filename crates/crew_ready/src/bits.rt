//! Bits of words.
ghost use Rattle.std.specs.Prelude.{◌≡◌, ℕ, ◌+◌, ◌*◌, ◌^◌, ◌<◌, ◌≤◌, IfOk, IfSome, MatchOption, None, get_or, length, nat_eq, replicate};
ghost use Rattle.std.specs.Int.{bit_at, trailing_zeros, w64};

use std::alloc::{AllocError, Global};

/// The word with a bit as told.
pub(crate) fn with_bit(word: u64, bit: u32, set: bool) -> u64
    requires { bit < 64 }
    ensures here { nat_eq (bit_at result bit) 1 ≡ set }
    ensures elsewhere { (k : ℕ) → k < 64 → (k ≡ bit → ⊥) → bit_at result k ≡ bit_at word k }
{
    if set {
        word | (1 << bit)
    } else {
        word & !(1 << bit)
    }
}

/// Whether a bit of a word is set.
pub(crate) fn has_bit(word: u64, bit: u32) -> bool
    requires { bit < 64 }
    ensures { result ≡ nat_eq (bit_at word bit) 1 }
{
    word & (1 << bit) != 0
}

/// The place of the least bit of a word among words side by side, and `None` where it has none.
pub(crate) fn first_in(words: &[u64], row: usize) -> Option<usize>
    requires { row ≤ 67_108_864 }
    ensures none { result ≡ None → get_or words.now row 0 ≡ 0 }
    ensures some { IfSome result (λ place. (row < length words.now)
        × (0 < get_or words.now row 0) × (get_or words.now row 0 < 2 ^ 64)
        × (place ≡ row * 64 + trailing_zeros w64 (get_or words.now row 0))) }
{
    if row >= words.len() {
        return None;
    }
    let word = words[row];
    if word == 0 {
        return None;
    }
    Some(row * 64 + word.trailing_zeros() as usize)
}

/// The place of the least word that has a bit set.
pub(crate) fn first_row(words: &[u64]) -> Option<usize>
    ensures { MatchOption result ((j : ℕ) → get_or words.now j 0 ≡ 0) (λ row.
        (row < length words.now) × (0 < get_or words.now row 0)
        × ((j : ℕ) → j < row → get_or words.now j 0 ≡ 0)) }
{
    words.iter().position(|word| *word != 0)
}

/// How many words hold so many bits.
pub(crate) fn rows_of(count: usize) -> usize
    requires { count ≤ 4_294_967_295 }
    ensures enough { count ≤ result * 64 }
    ensures tight { result * 64 < count + 64 }
{
    (count + 63) / 64
}

/// Words with no bit set.
pub(crate) fn clear_words(alloc: Global, rows: usize) -> Result<Vec<u64>, AllocError>
    ensures { IfOk result (λ words. words.items ≡ replicate rows 0) }
{
    vec![in alloc; 0; rows]
}
