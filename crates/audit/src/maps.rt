//! The text of what a partition reaches.

ghost use Rattle.std.specs.Prelude.{◌≡◌, ◌+◌, ◌≤◌, ◌++◌, length, IfOk, OnOk, string_bytes};
ghost use Rattle.std.specs.List.{flat_map};
ghost use Rattle.stage2.specs.Slot.{layout_of};
ghost use Rattle.stage2.specs.Tables.{view_of};
ghost use Rattle.audit.specs.Runs.{reached_runs};
ghost use Rattle.audit.specs.Texts as spec;

use crate::run_lines::{RunLines, Valued};
use crate::text::{append_id, bring_forward, text_of};
use base::{OutOfMemory, PartitionId};
use digits::append_decimal;
use manifest::Manifest;
use pool::TableMem;
use stage2::Tables;
use std::alloc::Global;

/// `maps ID N`, and then the N maximal runs of pages that the partition reaches alike, upward, as
/// `ADDRESS COUNT ACCESS KIND`. For a partition that has no row it is the first line alone, with 0.
pub fn maps_text<M: TableMem + Drop>(
    alloc: Global,
    manifest: &Manifest,
    tables: &Tables<M>,
    p: PartitionId,
) -> Result<String, OutOfMemory>
    requires placed { tables.now.layout ≡ layout_of manifest.now }
    ensures { IfOk result
        (λ text. string_bytes text ≡ spec.maps_text p (view_of tables.now p)) }
{
    let _manifest = manifest;
    let mut text = Vec::new(alloc);
    append_maps(&mut text, tables, p)?;
    Ok(text_of(text))
}

/// Appends the text that `maps_text` makes. Without memory the bytes may end in a part of it.
#[tactic(auto, unfolding(crate::specs::Texts::maps_text))]
pub fn append_maps<M: TableMem + Drop>(
    text: &mut Vec<u8>,
    tables: &Tables<M>,
    p: PartitionId,
) -> Result<(), OutOfMemory>
    ensures { OnOk result
        (text.new.items ≡ text.old.items ++ spec.maps_text p (view_of tables.now p)) }
{
    let start = text.len();
    let count = append_lines(text, tables, p)?;
    let end = text.len();
    append_header(text, p, count)?;
    bring_forward(text, start, end);
    Ok(())
}

/// Appends the lines of all runs, and says how many they are.
fn append_lines<M: TableMem + Drop>(
    text: &mut Vec<u8>,
    tables: &Tables<M>,
    p: PartitionId,
) -> Result<usize, OutOfMemory>
    ensures count { IfOk result (λ count. count ≡ length (reached_runs (view_of tables.now p))) }
    ensures lines { OnOk result (text.new.items
        ≡ text.old.items ++ flat_map spec.maps_line (reached_runs (view_of tables.now p))) }
{
    let mut lines = RunLines::new();
    let mut left = tables.reader().alike(p);
    while let Some(pages) = left.next() {
        let run = Valued {
            run: pages.pages(),
            value: pages.access(),
        };
        lines.push(text, run)?;
    }
    lines.finish(text)
}

fn append_header(text: &mut Vec<u8>, p: PartitionId, count: usize) -> Result<(), OutOfMemory>
    ensures text { OnOk result (text.new.items ≡ text.old.items ++ spec.maps_header p count) }
    ensures short { OnOk result (length text.new.items ≤ length text.old.items + 32) }
{
    text.extend_from_slice(b"maps ")?;
    append_id(text, p)?;
    text.extend_from_slice(b" ")?;
    append_decimal(text, count as u64)?;
    Ok(text.extend_from_slice(b"\n")?)
}
