//! The text of a partition's translation tables.

ghost use Rattle.std.specs.Prelude.{◌≡◌, ◌++◌, ◌^◌, ◌<◌, ◌≤◌, IfOk, OnOk, string_bytes};
ghost use Rattle.stage2.specs.Slot.{layout_of};
ghost use Rattle.stage2.specs.Tables.{view_of};
ghost use Rattle.audit.specs.TableLines as lines;
ghost use Rattle.audit.specs.Texts as spec;

use crate::table_line::{PageLine, append_leaf, append_table};
use crate::text::{append_id, text_of};
use base::{OutOfMemory, PartitionId};
use digits::append_decimal;
use manifest::Manifest;
use pool::TableMem;
use stage2::{Level, TableEntry, Tables};
use std::alloc::Global;

/// `tables ID USED`, where USED is how many table pages the partition's tables take, its root apart,
/// and then each valid entry in address order, those of a table right after its own: `L1`, `L2` or
/// `L3`, the address where the entry begins, and `table` or its word. For a partition that has no row
/// it is the first line alone, with 0.
pub fn tables_text<M: TableMem + Drop>(
    alloc: Global,
    manifest: &Manifest,
    tables: &Tables<M>,
    p: PartitionId,
) -> Result<String, OutOfMemory>
    requires placed { tables.now.layout ≡ layout_of manifest.now }
    ensures { IfOk result
        (λ text. string_bytes text ≡ spec.tables_text p (view_of tables.now p)) }
{
    let _manifest = manifest;
    let mut text = Vec::new(alloc);
    append_tables(&mut text, tables, p)?;
    Ok(text_of(text))
}

/// Appends the text that `tables_text` makes. Without memory the bytes may end in a part of it.
#[tactic(auto, unfolding(crate::specs::Texts::tables_text))]
pub fn append_tables<M: TableMem + Drop>(
    text: &mut Vec<u8>,
    tables: &Tables<M>,
    p: PartitionId,
) -> Result<(), OutOfMemory>
    ensures { OnOk result
        (text.new.items ≡ text.old.items ++ spec.tables_text p (view_of tables.now p)) }
{
    append_header(text, p, tables.used(p))?;
    let mut page = PageLine::new();
    let mut left = tables.reader().entries(p);
    while let Some(entry) = left.next() {
        append_entry(text, entry, &mut page)?;
    }
    Ok(())
}

/// Appends the line of an entry. The line of a page is made of that of the page before.
#[tactic(auto, unfolding(crate::specs::TableLines::line_of))]
fn append_entry(
    text: &mut Vec<u8>,
    entry: TableEntry,
    page: &mut PageLine,
) -> Result<(), OutOfMemory>
    ensures { OnOk result (text.new.items ≡ text.old.items ++ lines.line_of entry) }
{
    let first = entry.first().number();
    match entry.level() {
        Level::Third => Ok(text.extend_from_slice(page.set(first, entry.word()))?),
        level => match entry.access() {
            Some(_) => append_leaf(text, level, first, entry.word()),
            None => append_table(text, level, first),
        },
    }
}

fn append_header(text: &mut Vec<u8>, p: PartitionId, used: u32) -> Result<(), OutOfMemory>
    ensures { OnOk result (text.new.items ≡ text.old.items ++ spec.tables_header p used) }
{
    text.extend_from_slice(b"tables ")?;
    append_id(text, p)?;
    text.extend_from_slice(b" ")?;
    append_decimal(text, u64::from(used))?;
    Ok(text.extend_from_slice(b"\n")?)
}
