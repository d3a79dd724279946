//! One word of 64 bits.

ghost use Rattle.std.specs.Prelude.{◌≡◌, ℕ, ◌<◌, ◌≤◌, ◌≢◌, ◌==◌, false, if◌then◌else◌, MatchOption};
ghost use Rattle.std.specs.Int.{bit_at};
ghost use Rattle.marks.specs.Tree.{IsLowestBit};

/// How many bits a word has.
pub(crate) const BITS: usize = 64;

/// A word with the bit at a place set, or not.
#[inline]
pub(crate) fn with_bit(word: u64, place: u32, on: bool) -> u64
    requires { place < 64 }
    ensures here { bit_at result place ≡ (if on then 1 else 0) }
    ensures others { (i : ℕ) → i < 64 → i ≢ place → bit_at result i ≡ bit_at word i }
    ensures none { on ≡ false → word ≡ 0 → result ≡ 0 }
{
    let one = 1 << place;
    if on { word | one } else { word & !one }
}

/// Whether a word is 0 and was not, or the other way round, once a bit of it was set, or cleared.
#[inline]
pub(crate) fn is_turned(before: u64, after: u64, on: bool) -> bool
    ensures { result ≡ ((if on then before else after) == 0) }
{
    if on { before == 0 } else { after == 0 }
}

/// The lowest bit at or above a place that a word has, if it has one.
#[inline]
pub(crate) fn lowest_from(word: u64, place: u32) -> Option<u32>
    ensures { MatchOption result ((i : ℕ) → place ≤ i → i < 64 → bit_at word i ≡ 0)
        (λ found. IsLowestBit word place found) }
{
    let ahead = word.checked_shr(place)?;
    if ahead == 0 {
        None
    } else {
        Some(place + ahead.trailing_zeros())
    }
}
