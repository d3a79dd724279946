//! The text of the operations of a call.

ghost use Rattle.std.specs.Prelude.{◌≡◌, ◌++◌, OnOk};
ghost use Rattle.script.specs.Texts as spec;

use base::OutOfMemory;
use digits::{append_decimal, append_extent, append_hex};
use pool::Op;

/// Writes `ops N`, and then the N operations in the order in which they were made.
pub(crate) fn write_operations(operations: &[Op], text: &mut Vec<u8>) -> Result<(), OutOfMemory>
    ensures { OnOk result
        (text.new.items ≡ text.old.items ++ spec.operations_text operations.now) }
{
    text.extend_from_slice(b"ops ")?;
    append_decimal(text, operations.len() as u64)?;
    text.extend_from_slice(b"\n")?;
    for operation in operations {
        write_operation(operation, text)?;
    }
    Ok(())
}

/// Writes a word as `set POOLPAGE INDEX WORD`, an invalidation as `inv ID ADDRESS COUNT`, and a clear as
/// `clear ADDRESS COUNT`.
fn write_operation(operation: &Op, text: &mut Vec<u8>) -> Result<(), OutOfMemory>
    ensures { OnOk result
        (text.new.items ≡ text.old.items ++ spec.operation_text operation.now) }
{
    match operation {
        Op::Set { page, index, word } => {
            text.extend_from_slice(b"set ")?;
            append_decimal(text, u64::from(*page))?;
            text.extend_from_slice(b" ")?;
            append_decimal(text, u64::from(*index))?;
            text.extend_from_slice(b" ")?;
            append_hex::<16>(text, *word)?;
        }
        Op::Invalidate { who, run } => {
            text.extend_from_slice(b"inv ")?;
            append_hex::<4>(text, u64::from(who.number()))?;
            text.extend_from_slice(b" ")?;
            append_extent(text, *run)?;
        }
        Op::Clear { run } => {
            text.extend_from_slice(b"clear ")?;
            append_extent(text, *run)?;
        }
    }
    Ok(text.extend_from_slice(b"\n")?)
}

#[cfg(test)]
mod tests {
    use super::*;
    use base::{Page, Run};
    use std::test::Fail;

    #[test]
    fn writes_a_clear(rt: HostRuntime) -> Result<(), Fail> {
        let mut text = Vec::new(rt.alloc());
        let run = Run::new(Page::new(0x8_0001), 1);
        assert_eq!(rt; write_operation(&Op::Clear { run }, &mut text), Ok(()));
        assert_eq!(rt; text.as_slice(), b"clear 0080001000 1\n".as_slice());
        Ok(())
    }
}
