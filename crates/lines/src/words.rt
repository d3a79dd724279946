//! The numbers that words of a line write, and its last word.

ghost use Rattle.std.specs.Prelude.{◌≡◌, ◌^◌, ◌<◌, ◌≤◌, ◌&&◌, ◌==◌, ◌∷◌, [], nat_lt, length, position, Some, None, if◌then◌else◌, IfSome, option_map};
ghost use Rattle.std.specs.List.{list_all};
ghost use Rattle.std.specs.Option.{option_map_or};
ghost use Rattle.std.specs.Char.{digit_value};
ghost use Rattle.std.specs.Str.Parse.{digits_value};
ghost use Rattle.lines.specs.Lines.{is_lower_hex_digit, is_digit, number_of, id_of, permissions_of, count_of, texts};
ghost use Rattle.lines.specs.Grammar.{halves_at, last_word, parted_by};

use base::{PartitionId, Permissions};
use memchr::memchr;

/// Whether the last word of this name stands, where there is no other word.
pub(crate) fn read_last_word(name: &str, words: &[&[u8]]) -> Option<bool>
    ensures { result ≡ last_word name.now (texts words.now) }
{
    let name = name.as_bytes();
    match words {
        [] => Some(false),
        [word] if *word == name => Some(true),
        _ => None,
    }
}

/// The first of the parts between these marks, and what stands behind its mark, if it has one.
pub(crate) fn first_part(parts: &[u8], mark: u8) -> (&[u8], Option<&[u8]>)
    ensures parts { parted_by mark parts.now
        ≡ result.0.now ∷ option_map_or (λ behind. parted_by mark behind.now) result.1 [] }
    ensures shorter { IfSome result.1 (λ behind. length behind.now < length parts.now) }
{
    match memchr(mark, parts) {
        Some(end) => (&parts[..end], Some(&parts[end + 1..])),
        None => (parts, None),
    }
}

/// What stands before the first of these marks, and after it.
pub(crate) fn halves(word: &[u8], mark: u8) -> Option<(&[u8], &[u8])>
    ensures { option_map (λ halves. (halves.0.now, halves.1.now)) result ≡ halves_at mark word.now }
{
    let at = place_of(word, mark)?;
    Some((&word[..at], &word[at + 1..]))
}

fn place_of(word: &[u8], mark: u8) -> Option<usize>
    ensures { result ≡ position (λ b. b == mark) word.now }
{
    word.iter().position(|byte| *byte == mark)
}

/// The identifier that four digits are.
pub(crate) fn read_id(word: &[u8]) -> Option<PartitionId>
    ensures { result ≡ id_of word.now }
{
    if word.len() != 4 {
        return None;
    }
    let number = read_hex(word)?;
    Some(PartitionId::new(number as u16))
}

/// The number that 1 to 16 digits are.
pub(crate) fn read_number(word: &[u8]) -> Option<u64>
    ensures { result ≡ number_of word.now }
{
    if word.is_empty() || word.len() > 16 {
        return None;
    }
    read_hex(word)
}

/// The permissions that two digits are.
pub(crate) fn read_permissions(word: &[u8]) -> Option<Permissions>
    ensures { result ≡ permissions_of word.now }
{
    if word.len() != 2 {
        return None;
    }
    let number = read_hex(word)?;
    Some(Permissions::new(number as u8))
}

/// The number that lower-case hexadecimal digits are.
fn read_hex(digits: &[u8]) -> Option<u64>
    requires { length digits.now ≤ 16 }
    ensures number { result ≡ (if list_all is_lower_hex_digit digits.now
        then Some (digits_value 16 digits.now) else None) }
    ensures small { IfSome result (λ number. number < 16 ^ length digits.now) }
{
    let mut number = 0u64;
    for digit in digits {
        number = number * 16 + u64::from(lower_hex_value(*digit)?);
    }
    Some(number)
}

fn lower_hex_value(digit: u8) -> Option<u8>
    ensures value { result ≡ (if is_lower_hex_digit digit then Some (digit_value digit) else None) }
    ensures small { IfSome result (λ value. value < 16) }
{
    match digit {
        b'0'..=b'9' => Some(digit - b'0'),
        b'a'..=b'f' => Some(digit - b'a' + 10),
        _ => None,
    }
}

/// The count that decimal digits are, without a leading zero, where it is below 2^32.
pub(crate) fn read_count(word: &[u8]) -> Option<u32>
    ensures { result ≡ count_of word.now }
{
    if word.is_empty() || (word.len() > 1 && word[0] == b'0') {
        return None;
    }
    read_decimal(word)
}

/// The number below 2^32 that decimal digits are.
fn read_decimal(digits: &[u8]) -> Option<u32>
    ensures { result ≡ (if list_all is_digit digits.now && nat_lt (digits_value 10 digits.now) (2 ^ 32)
        then Some (digits_value 10 digits.now) else None) }
{
    let mut number = 0u32;
    for digit in digits {
        let value = decimal_value(*digit)?;
        number = number.checked_mul(10)?.checked_add(value)?;
    }
    Some(number)
}

fn decimal_value(digit: u8) -> Option<u32>
    ensures { result ≡ (if is_digit digit then Some (digit_value digit) else None) }
{
    match digit {
        b'0'..=b'9' => Some(u32::from(digit - b'0')),
        _ => None,
    }
}
