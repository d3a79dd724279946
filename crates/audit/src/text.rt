//! Words that several texts have.

ghost use Rattle.std.specs.Prelude.{◌≡◌, ◌+◌, ◌≤◌, ◌++◌, length, take, drop, string_bytes, OnOk};
ghost use Rattle.std.specs.Str.{IsUtf8};
ghost use Rattle.digits.specs.Digits.{hex};
ghost use Rattle.audit.specs.Texts as spec;

use base::{Access, MemoryKind, OutOfMemory, PartitionId, Rights};
use digits::append_hex;

/// The text that these bytes are.
pub(crate) fn text_of(bytes: Vec<u8>) -> String
    requires { IsUtf8 bytes.items }
    ensures { string_bytes result ≡ bytes.items }
{
    match String::from_utf8(bytes) {
        Ok(text) => text,
        Err(_) => unreachable!(),
    }
}

/// Appends an identifier in four hexadecimal digits.
pub(crate) fn append_id(text: &mut Vec<u8>, p: PartitionId) -> Result<(), OutOfMemory>
    ensures text { OnOk result (text.new.items ≡ text.old.items ++ hex 4 p) }
    ensures long { OnOk result (length text.new.items ≡ length text.old.items + 4) }
{
    append_hex::<4>(text, u64::from(p.number()))
}

/// Appends ` ACCESS KIND` and ends the line.
pub(crate) fn append_access(text: &mut Vec<u8>, access: Access) -> Result<(), OutOfMemory>
    ensures { OnOk result (text.new.items ≡ text.old.items ++ spec.access_end access) }
{
    Ok(text.extend_from_slice(line_end(access).as_bytes())?)
}

/// Brings a header of at most 32 bytes that stands behind an end to a place before it.
pub(crate) fn bring_forward(text: &mut Vec<u8>, start: usize, end: usize)
    requires ordered { start ≤ end }
    requires inside { end ≤ length text.old.items }
    requires short { length text.old.items ≤ end + 32 }
    ensures { text.new.items ≡ take start text.old.items
        ++ (drop end text.old.items ++ drop start (take end text.old.items)) }
{
    let mut header = [0; 32];
    let count = text.len() - end;
    header[..count].copy_from_slice(&text[end..]);
    text.copy_within(start..end, start + count);
    text[start..start + count].copy_from_slice(&header[..count]);
}

/// What ends the line of pages with this access.
fn line_end(access: Access) -> &'static str
    ensures { result.now ≡ spec.access_end access }
{
    match (access.rights(), access.is_executable(), access.kind()) {
        (Rights::Rw, true, MemoryKind::Normal) => " rwx normal\n",
        (Rights::Rw, true, MemoryKind::Device) => " rwx device\n",
        (Rights::Rw, false, MemoryKind::Normal) => " rw- normal\n",
        (Rights::Rw, false, MemoryKind::Device) => " rw- device\n",
        (Rights::Ro, true, MemoryKind::Normal) => " r-x normal\n",
        (Rights::Ro, true, MemoryKind::Device) => " r-x device\n",
        (Rights::Ro, false, MemoryKind::Normal) => " r-- normal\n",
        (Rights::Ro, false, MemoryKind::Device) => " r-- device\n",
    }
}
