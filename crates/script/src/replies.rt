//! The text of replies.

ghost use Rattle.std.specs.Prelude.{◌≡◌, ◌++◌, OnOk};
ghost use Rattle.std.specs.List.{flat_map};
ghost use Rattle.digits.specs.Digits.{hex};
ghost use Rattle.script.specs.Texts as spec;

use base::OutOfMemory;
use digits::{append_hex, append_wide_hex, fill_digits};
use wire::Reply;

/// Writes `reply` and the eight registers, and where RX was filled `rx` and its bytes.
pub(crate) fn write_reply(reply: &Reply, text: &mut Vec<u8>) -> Result<(), OutOfMemory>
    ensures { OnOk result (text.new.items ≡ text.old.items ++ spec.reply_text reply.now) }
{
    text.extend_from_slice(b"reply")?;
    push_registers(&reply.regs, text)?;
    text.extend_from_slice(b"\n")?;
    match &reply.rx {
        Some(bytes) => write_rx(bytes, text),
        None => Ok(()),
    }
}

/// Appends a blank and eight digits for each register.
fn push_registers(registers: &[u64], text: &mut Vec<u8>) -> Result<(), OutOfMemory>
    ensures { OnOk result
        (text.new.items ≡ text.old.items ++ flat_map spec.register_text registers.now) }
{
    for register in registers {
        push_register(*register, text)?;
    }
    Ok(())
}

/// Appends a blank and eight digits, or more where the register has more. Most registers are 0.
fn push_register(register: u64, text: &mut Vec<u8>) -> Result<(), OutOfMemory>
    ensures { OnOk result (text.new.items ≡ text.old.items ++ spec.register_text register) }
{
    if register == 0 {
        return Ok(text.extend_from_slice(b" 00000000")?);
    }
    if register >= 0x1_0000_0000 {
        text.extend_from_slice(b" ")?;
        return append_wide_hex(text, 8, register);
    }
    let mut digits = [b' '; 9];
    fill_digits(register, &mut digits[1..]);
    Ok(text.extend_from_slice(&digits)?)
}

/// Writes `rx` and two digits for each byte.
fn write_rx(bytes: &[u8], text: &mut Vec<u8>) -> Result<(), OutOfMemory>
    ensures { OnOk result (text.new.items ≡ text.old.items ++ spec.filled_text bytes.now) }
{
    text.extend_from_slice(b"rx ")?;
    push_bytes(bytes, text)?;
    Ok(text.extend_from_slice(b"\n")?)
}

fn push_bytes(bytes: &[u8], text: &mut Vec<u8>) -> Result<(), OutOfMemory>
    ensures { OnOk result (text.new.items ≡ text.old.items ++ flat_map (hex 2) bytes.now) }
{
    for byte in bytes {
        append_hex::<2>(text, u64::from(*byte))?;
    }
    Ok(())
}
