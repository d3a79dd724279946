//! The text of what partitions need.

ghost use Rattle.std.specs.Prelude.{◌≡◌, ◌++◌, IfOk, OnOk, string_bytes};
ghost use Rattle.base.specs.Manifest.{grant};
ghost use Rattle.base.specs.Need.{need};
ghost use Rattle.audit.specs.Texts as spec;

use crate::text::{append_id, text_of};
use base::OutOfMemory;
use digits::append_decimal;
use manifest::{Manifest, Partition};
use std::alloc::Global;

/// `ID need N quota Q` for each partition, in ascending order of identifier: the table pages that its
/// grants need, and those that it may have, its root apart.
pub fn check_text(alloc: Global, manifest: &Manifest) -> Result<String, OutOfMemory>
    ensures { IfOk result (λ text. string_bytes text ≡ spec.check_text manifest.now) }
{
    let mut text = Vec::new(alloc);
    append_check(&mut text, manifest)?;
    Ok(text_of(text))
}

/// Appends the text that `check_text` makes. Without memory the bytes may end in a part of it.
pub fn append_check(text: &mut Vec<u8>, manifest: &Manifest) -> Result<(), OutOfMemory>
    ensures { OnOk result (text.new.items ≡ text.old.items ++ spec.check_text manifest.now) }
{
    for row in manifest.partitions() {
        append_line(text, *row, manifest.need(row.id))?;
    }
    Ok(())
}

fn append_line(text: &mut Vec<u8>, row: Partition, need: u32) -> Result<(), OutOfMemory>
    ensures { OnOk result (text.new.items ≡ text.old.items ++ spec.check_line row need) }
{
    append_id(text, row.id)?;
    text.extend_from_slice(b" need ")?;
    append_decimal(text, u64::from(need))?;
    text.extend_from_slice(b" quota ")?;
    append_decimal(text, u64::from(row.quota))?;
    Ok(text.extend_from_slice(b"\n")?)
}
