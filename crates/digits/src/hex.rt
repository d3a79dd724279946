//! Hexadecimal digits.

ghost use Rattle.std.specs.Prelude.{◌≡◌, ◌^◌, ◌<◌, ◌≤◌, ◌++◌, false, length, drop, replicate, OnOk};
ghost use Rattle.std.specs.Fmt.{digit_glyph, digits};
ghost use Rattle.digits.specs.Digits.{hex};

use base::OutOfMemory;

/// The digits by their values.
const DIGITS: &[u8; 16] = b"0123456789abcdef";

/// How many digits the largest number has.
const MOST: usize = 16;

fn digit(value: u8) -> u8
    requires { value < 16 }
    ensures { result ≡ digit_glyph false value }
{
    DIGITS[value as usize]
}

/// Writes a number in as many lower-case hexadecimal digits as there is room for.
pub fn fill_digits(number: u64, out: &mut [u8])
    requires some { 0 < length out.old }
    requires fits { number < 16 ^ length out.old }
    ensures { out.new ≡ hex (length out.old) number }
{
    let mut i = out.len();
    let mut rest = number;
    while 0 < i {
        i -= 1;
        out[i] = digit((rest % 16) as u8);
        rest /= 16;
    }
}

/// Appends a number in N lower-case hexadecimal digits.
pub fn append_hex<const N: usize>(text: &mut Vec<u8>, number: u64) -> Result<(), OutOfMemory>
    requires some { 0 < N }
    requires most { N ≤ 16 }
    requires fits { number < 16 ^ N }
    ensures { OnOk result (text.new.items ≡ text.old.items ++ hex N number) }
{
    let mut digits = [b'0'; N];
    fill_digits(number, &mut digits);
    Ok(text.extend_from_slice(&digits)?)
}

/// Appends a number in lower-case hexadecimal digits, as many as it has, with zeros in front up to a width.
pub fn append_wide_hex(text: &mut Vec<u8>, width: usize, number: u64) -> Result<(), OutOfMemory>
    requires { width ≤ 16 }
    ensures { OnOk result (text.new.items ≡ text.old.items ++ hex width number) }
{
    let mut digits = [b'0'; 64];
    let first = fill_end(number, &mut digits);
    append_zeros(text, width.saturating_sub(64 - first))?;
    Ok(text.extend_from_slice(&digits[first..])?)
}

fn append_zeros(text: &mut Vec<u8>, count: usize) -> Result<(), OutOfMemory>
    requires { count ≤ 16 }
    ensures { OnOk result (text.new.items ≡ text.old.items ++ replicate count 48) }
{
    let zeros = [b'0'; MOST];
    Ok(text.extend_from_slice(&zeros[..count])?)
}

/// Writes the digits of a number, as many as it has, up to the end, and answers where they begin.
fn fill_end(number: u64, out: &mut [u8; 64]) -> usize
    ensures bound { result ≤ 64 }
    ensures digits { drop result out.new ≡ digits 16 false number }
{
    let mut i = 64;
    let mut rest = number;
    while i > 0 {
        i -= 1;
        out[i] = digit((rest % 16) as u8);
        rest /= 16;
        if rest == 0 {
            break;
        }
    }
    i
}
