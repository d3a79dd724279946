//! Decimal digits, and where pages lie.

ghost use Rattle.std.specs.Prelude.{◌≡◌, ◌++◌, codes, OnOk};
ghost use Rattle.std.specs.Fmt.{decimal};
ghost use Rattle.digits.specs.Digits as spec;

use crate::hex::fill_digits;
use base::{OutOfMemory, Page, Run};
use itoa::Buffer;

/// Appends a number in decimal digits.
#[inline(always)]
pub fn append_decimal(text: &mut Vec<u8>, number: u64) -> Result<(), OutOfMemory>
    ensures { OnOk result (text.new.items ≡ text.old.items ++ decimal number) }
{
    let mut buffer = Buffer::new();
    Ok(text.extend_from_slice(buffer.format(number).as_bytes())?)
}

/// Appends `ADDRESS COUNT` of pages, the address in ten hexadecimal digits, of which the last three are zeros.
pub fn append_extent(text: &mut Vec<u8>, run: Run) -> Result<(), OutOfMemory>
    ensures { OnOk result (text.new.items ≡ text.old.items ++ spec.extent_text run) }
{
    let mut address = *b"0000000000 ";
    fill_digits(u64::from(run.first().number()), &mut address[0..7]);
    text.extend_from_slice(&address)?;
    append_decimal(text, u64::from(run.count()))
}
