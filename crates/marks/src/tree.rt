//! Bits in words of 64, as a tree. Word 0 is its root, and bit b says whether word b + 1 is not 0, down to
//! the bits from a start on, which mean what the caller says.

ghost use Rattle.std.specs.Prelude.{◌≡◌, ◌≢◌, ℕ, ◌+◌, ◌*◌, ◌/◌, ◌<◌, ◌≤◌, ◌^◌, suc, length, slice_index, true, MatchOption};
ghost use Rattle.marks.specs.Tree.{bit_in, has_bits, IsSummed, IsSummedBut, IsInLevel, IsFirstBit, NoneBetween, level_start, low};

use crate::word::{BITS, is_turned, lowest_from, with_bit};

/// Writes a bit, and above it each bit that now says something else of its word.
pub(crate) fn write(words: &mut [u64], bit: usize, on: bool)
    requires { bit < 64 * length words.old }
    ensures here { bit_in words.new bit ≡ on }
    ensures others { (start x : ℕ) → bit / 64 ≤ start → start ≤ x → x ≢ bit
        → bit_in words.new x ≡ bit_in words.old x }
    ensures summed { (start : ℕ) → IsSummedBut start bit words.old
        → (bit < start → on ≡ has_bits (slice_index words.old (bit + 1)))
        → IsSummed start words.new }
{
    let word = bit / BITS;
    let before = words[word];
    let after = with_bit(before, (bit % BITS) as u32, on);
    words[word] = after;
    if word > 0 && is_turned(before, after, on) {
        write(words, word - 1, on);
    }
}

/// The first of the bits from a start on that stands below a bit, or is it.
pub(crate) fn first_below(words: &[u64], start: usize, bit: usize) -> usize
    requires small { length words.now ≤ 2 ^ 26 }
    requires summed { IsSummed start words.now }
    requires on { bit_in words.now bit ≡ true }
    ensures { (level height : ℕ) → start ≡ level_start (level + height) → IsInLevel level bit
        → IsFirstBit words.now start (low height bit) result }
{
    if bit >= start {
        return bit;
    }
    let word = bit + 1;
    let lowest = words[word].trailing_zeros();
    first_below(words, start, BITS * word + lowest as usize)
}

/// The first of the bits from a start on that stands below a word from a place on, or behind that.
pub(crate) fn first_from(words: &[u64], start: usize, word: usize, place: u32) -> Option<usize>
    requires small { length words.now ≤ 2 ^ 26 }
    requires summed { IsSummed start words.now }
    requires inside { word < length words.now }
    requires within { place ≤ 64 }
    ensures { (level height : ℕ) → start ≡ level_start (level + height) → IsInLevel level (64 * word)
        → MatchOption result
        (NoneBetween words.now (low height (64 * word + place)) (level_start (suc (level + height))))
        (λ found. IsFirstBit words.now start (low height (64 * word + place)) found) }
{
    if let Some(lowest) = lowest_from(words[word], place) {
        return Some(first_below(words, start, BITS * word + lowest as usize));
    }
    if word == 0 {
        return None;
    }
    let above = word - 1;
    first_from(words, start, above / BITS, (above % BITS) as u32 + 1)
}
