//! What an edit needs: how many table pages it takes, and how many operations it makes.

ghost use Rattle.base.specs.Access.{View};
ghost use Rattle.base.specs.Manifest.{page_count};
ghost use Rattle.base.specs.Need.{is_mixed, grow};
ghost use Rattle.base.specs.Pages.{PageRun};
ghost use Rattle.pool.specs.Pool.{pages_of, taken_of};
ghost use Rattle.stage2.specs.inner.Chunks.{block_answer};
ghost use Rattle.stage2.specs.Edits.{edited};
ghost use Rattle.stage2.specs.inner.Clauses as clauses;
ghost use Rattle.stage2.specs.inner.Clauses.{IsTableOf, TurnsIn, TurnsChunk, read_before, read_after, view_in, second_in, entry_read, words_left, IsEditPlanned, IsChunkPlanned, ArePlanned, IsRowPlanned};
ghost use Rattle.stage2.specs.inner.Gigabytes.{gigabyte_growth, Touches};
ghost use Rattle.stage2.specs.Orderly.{IsCanonical};
ghost use Rattle.stage2.specs.Parts.{runs_past};
ghost use Rattle.stage2.specs.Room.{pages_in, reached_in, gigabyte_operations, row_operations};
ghost use Rattle.stage2.specs.Slot.{Layout};
ghost use Rattle.stage2.specs.Walk.{next_page};
ghost use Rattle.stage2.specs.declared.walked.Slot.TheVariants.{Next, Bad};
ghost use Rattle.std.specs.Prelude.{◌≡◌, ◌≢◌, ℕ, ◌+◌, ◌-◌, ◌*◌, ◌/◌, ◌%◌, ◌^◌, ◌<◌, ◌≤◌, ◌&&◌, true, false, Some, None, not, List, length, is_some, nat_lt, ◌==◌, if◌then◌else◌};

use crate::layout::Layout;
use crate::level1::{find_table, touches};
use crate::level2::{block_of, plain_until, table_of};
use crate::outcome::{is_alike_in_block, is_alike_in_table, is_told_mixed};
use crate::parts::{gigabyte_runs, gigabyte_span, next_piece};
use crate::place::{Chunk, Gigabyte};
use crate::read::read_chunk;
use crate::site::{ChunkEdit, RowPlan};
use crate::table_page::{Row, TablePage};
use crate::walked::Slot;
use base::limits::CHUNK_PAGES;
use base::{Access, Runs};
use pool::TableMem;

/// How many operations more than an edit makes in a chunk it may ask for. Where a table that stays needs no more than these beside one that goes, or
/// the other way, no word is looked at to tell which it is. With them a list that had room for the split of blocks has it for any edit of
/// a run in each of these chunks, which needs no plan then.
const SURPLUS: u32 = 4;

/// What an edit needs: how many tables it takes, and how many operations it makes at most.
#[derive(Clone, Copy)]
pub(crate) struct Plan {
    pub(crate) tables: u32,
    pub(crate) operations: u32,
}

impl Plan {
    /// So many tables and operations.
    fn new(tables: u32, operations: u32) -> Self
        ensures { result ≡ record { tables = tables; operations = operations } }
    {
        Plan { tables, operations }
    }
}

/// The level 2 table of a gigabyte of a row, if there are both.
pub(crate) fn second_at<M: TableMem>(
    memory: &M,
    layout: &Layout,
    row: &Option<Row>,
    gigabyte: Gigabyte,
) -> Option<TablePage>
    requires canonical { IsCanonical layout.now (pages_of (M.state memory.now).memory) }
    requires partition { (r : ℕ) → row.now ≡ Some r → r < length layout.now.ids }
    ensures { result ≡ second_in layout.now row.now gigabyte (M.state memory.now) }
{
    match row {
        Some(row) => find_table(memory, layout, *row, gigabyte),
        None => None,
    }
}

/// A chunk's level 2 word, in a gigabyte's table, if it has one.
pub(crate) fn entry_at<M: TableMem>(
    memory: &M,
    layout: &Layout,
    second: &Option<TablePage>,
    chunk: Chunk,
) -> Slot
    requires pages { layout.now.pages ≡ page_count (M.state memory.now).memory.quotas }
    requires table { (j : ℕ) → second.now ≡ Some j → j < layout.now.pages }
    requires taken { (j : ℕ) → second.now ≡ Some j
        → taken_of (M.state memory.now).memory.taken j ≡ true }
    requires known { entry_read layout.now second.now (chunk % 512) (M.state memory.now) ≢ Bad }
    ensures same { result ≡ entry_read layout.now second.now (chunk % 512) (M.state memory.now) }
    ensures inside { (k : ℕ) → result ≡ Next k → k < layout.now.pages }
{
    match second {
        Some(second) => read_chunk(memory, layout, *second, chunk),
        None => Slot::Empty,
    }
}

/// How many words a table gets that is hung in a chunk all of whose pages had one answer, where the runs
/// have so many pages.
fn words_of_new(pages: u32, before: &Option<Access>, access: &Option<Access>) -> u32
    requires { pages ≤ 512 }
    ensures same { (runs : List PageRun) (c : ℕ) → pages ≡ pages_in runs c
        → result ≡ reached_in (edited runs access.now (λ n. before.now)) c }
    ensures most { result ≤ 512 }
{
    match (before, access) {
        (None, None) => 0,
        (None, Some(_)) => pages,
        (Some(_), None) => CHUNK_PAGES - pages,
        (Some(_), Some(_)) => CHUNK_PAGES,
    }
}

/// How many words are written in a table that stays, and how many runs are invalidated there.
fn operations_kept(edit: &ChunkEdit) -> u32
    ensures same { result ≡ clauses.operations_kept edit.now }
    ensures most { result ≤ 1024 }
{
    match edit.access {
        Some(_) => edit.pieces.pages,
        None => edit.pieces.pages + edit.pieces.runs,
    }
}

/// What the edit of a chunk without a table needs.
fn plan_block(edit: &ChunkEdit, entry: &Slot) -> Plan
    ensures { (before : ℕ → View)
        → ((n : ℕ) → n / 512 ≡ edit.now.chunk → before n ≡ block_answer entry.now)
        → IsEditPlanned before edit.now
        (is_mixed (edited edit.now.runs edit.now.access before) edit.now.chunk) true result }
{
    if is_alike_in_block(edit, entry) {
        return Plan::new(0, 3);
    }
    let words = words_of_new(edit.pieces.pages, &block_of(entry), &edit.access);
    Plan::new(1, 3 + words + SURPLUS)
}

/// How many words a table loses that goes.
fn operations_gone<M: TableMem>(memory: &M, edit: &ChunkEdit, third: TablePage) -> u32
    requires table { third < page_count (M.state memory.now).memory.quotas }
    ensures same { result ≡ words_left third edit.now (M.state memory.now) }
    ensures most { result ≤ 512 }
{
    match edit.access {
        Some(_) => memory.nonzero(third.number()),
        None => edit.pieces.pages,
    }
}

/// What the edit of a chunk with a table needs. Words are looked at, if at all, only where it makes a difference of more than a few
/// operations whether the table stays.
#[inline(always)]
fn plan_table<M: TableMem>(memory: &M, edit: &ChunkEdit, third: TablePage, looks: bool) -> Plan
    requires table { IsTableOf edit.now third (M.state memory.now) }
    requires mixed { is_mixed (read_before edit.now (Next third) (M.state memory.now)) edit.now.chunk
        ≡ true }
    ensures { IsEditPlanned (read_before edit.now (Next third) (M.state memory.now)) edit.now
        false looks result }
{
    let kept = operations_kept(edit);
    if is_told_mixed(memory, edit, third) {
        return Plan::new(0, 3 + kept);
    }
    let gone = operations_gone(memory, edit, third);
    let most = kept.max(gone);
    if most - kept.min(gone) <= SURPLUS {
        Plan::new(0, 3 + most)
    } else if !looks {
        Plan::new(0, 3 + most)
    } else if is_alike_in_table(memory, edit, third) {
        Plan::new(0, 3 + gone)
    } else {
        Plan::new(0, 3 + kept)
    }
}

/// What the edit of a chunk needs that has pages of the runs.
#[inline(always)]
fn plan_chunk<M: TableMem>(memory: &M, edit: &ChunkEdit, entry: &Slot, looks: bool) -> Plan
    requires table { (k : ℕ) → entry.now ≡ Next k → IsTableOf edit.now k (M.state memory.now) }
    requires mixed { is_mixed (read_before edit.now entry.now (M.state memory.now)) edit.now.chunk
        ≡ is_some (next_page entry.now) }
    ensures { IsEditPlanned (read_before edit.now entry.now (M.state memory.now)) edit.now
        (is_mixed (read_after edit.now entry.now (M.state memory.now)) edit.now.chunk
        && not (is_some (next_page entry.now))) looks result }
{
    match table_of(entry) {
        Some(third) => plan_table(memory, edit, third, looks),
        None => plan_block(edit, entry),
    }
}

/// What the edit of a chunk needs that has pages of the runs, in a gigabyte with this level 2 table, if it has one.
#[inline(always)]
fn plan_in<M: TableMem>(
    memory: &M,
    row: &RowPlan,
    second: &Option<TablePage>,
    edit: &ChunkEdit,
) -> Plan
    requires canonical { IsCanonical row.now.layout.now (pages_of (M.state memory.now).memory) }
    requires layout { edit.now.layout.now ≡ row.now.layout.now }
    requires in_range { edit.now.chunk < 2 ^ 18 }
    requires turned { TurnsChunk edit.now (view_in row.now.layout.now row.now.row (M.state memory.now)) }
    requires table { second_in row.now.layout.now row.now.row (edit.now.chunk / 512) (M.state memory.now) ≡ second.now }
    ensures { IsChunkPlanned (view_in row.now.layout.now row.now.row (M.state memory.now))
        edit.now.runs edit.now.access edit.now.chunk result }
{
    let entry = entry_at(memory, row.layout, second, edit.chunk);
    plan_chunk(memory, edit, &entry, row.looks)
}

/// What an edit needs for a chunk by those of the runs that do not end before it.
fn plan_at<M: TableMem>(
    memory: &M,
    edit: &RowPlan,
    second: &Option<TablePage>,
    chunk: Chunk,
    runs: &Runs,
) -> Plan
    requires canonical { IsCanonical edit.now.layout.now (pages_of (M.state memory.now).memory) }
    requires past { runs_past (512 * chunk) runs.now ≡ runs.now }
    requires in_range { chunk < 2 ^ 18 }
    requires turned { TurnsIn edit.now (λ n. n / 512 == chunk) runs.now (M.state memory.now) }
    requires table { second_in edit.now.layout.now edit.now.row (chunk / 512) (M.state memory.now) ≡ second.now }
    ensures { IsChunkPlanned (view_in edit.now.layout.now edit.now.row (M.state memory.now))
        runs.now edit.now.access chunk result }
{
    match ChunkEdit::new(edit.layout, runs, chunk, &edit.access, edit.turns) {
        Some(here) => plan_in(memory, edit, second, &here),
        None => Plan::new(0, 0),
    }
}

/// Up to where chunks of a gigabyte, counted from its first, have no table.
#[inline(always)]
fn plain_from<M: TableMem>(memory: &M, second: &Option<TablePage>, first: u32, end: u32) -> u32
    requires page_in { (j : ℕ) → second.now ≡ Some j → j < page_count (M.state memory.now).memory.quotas }
    requires most { end ≤ 512 }
    ensures most { first < result → result ≤ end }
    ensures plain { (layout : Layout) (x : ℕ) → first ≤ x → x < result
        → next_page (entry_read layout second.now x (M.state memory.now)) ≡ None }
{
    match second {
        Some(second) => plain_until(memory, *second, first, end),
        None => end,
    }
}

/// What an edit needs for the chunks of a gigabyte that its runs touch.
#[inline(never)]
fn plan_chunks<M: TableMem>(
    memory: &M,
    edit: &RowPlan,
    second: &Option<TablePage>,
    gigabyte: Gigabyte,
    runs: &Runs,
) -> Plan
    requires canonical { IsCanonical edit.now.layout.now (pages_of (M.state memory.now).memory) }
    requires turned { TurnsIn edit.now (λ n. n / 512 / 512 == gigabyte) runs.now (M.state memory.now) }
    requires table { second_in edit.now.layout.now edit.now.row gigabyte (M.state memory.now) ≡ second.now }
    ensures { ArePlanned edit.now gigabyte runs.now (M.state memory.now) result }
{
    let mut plan = Plan::new(0, 0);
    let mut rest = runs.again();
    let mut index = 0;
    while let Some(piece) = next_piece(&rest, gigabyte, index) {
        rest = piece.runs;
        let plain = plain_from(memory, second, piece.first, piece.filled);
        if piece.first < plain {
            plan.operations += 3 * (plain - piece.first);
            index = plain;
        } else {
            let more = plan_at(memory, edit, second, gigabyte.chunk(piece.first), &rest);
            plan.tables += more.tables;
            plan.operations += more.operations;
            index = piece.first + 1;
        }
    }
    plan
}

/// What an edit needs for a gigabyte, its level 2 table with it.
#[inline(always)]
fn plan_gigabyte<M: TableMem>(memory: &M, edit: &RowPlan, gigabyte: Gigabyte, runs: &Runs) -> Plan
    requires canonical { IsCanonical edit.now.layout.now (pages_of (M.state memory.now).memory) }
    requires touched { Touches runs.now gigabyte }
    requires turned { TurnsIn edit.now (λ n. n / 512 / 512 == gigabyte) runs.now (M.state memory.now) }
    ensures tables { let before = view_in edit.now.layout.now edit.now.row (M.state memory.now) in
        result.tables ≡ gigabyte_growth before (edited runs.now edit.now.access before) gigabyte }
    ensures operations { let before = view_in edit.now.layout.now edit.now.row (M.state memory.now) in
        gigabyte_operations runs.now edit.now.access before gigabyte
        ≤ result.operations }
    ensures few { result.tables ≤ 513 }
    ensures most { result.operations ≤ 1027 * 512 + 2 }
{
    let second = second_at(memory, edit.layout, &edit.row, gigabyte);
    let chunks = plan_chunks(memory, edit, &second, gigabyte, runs);
    let operations = chunks.operations + chunks.operations.min(2);
    match second {
        Some(_) => Plan::new(chunks.tables, operations),
        None => {
            if edit.access.is_some() {
                Plan::new(chunks.tables + 1, operations)
            } else {
                Plan::new(chunks.tables, operations)
            }
        }
    }
}

/// What an edit needs, gigabyte by gigabyte: the tables after it at places where there is none before it, and its operations.
pub(crate) fn plan_row<M: TableMem>(memory: &M, edit: &RowPlan, runs: &Runs) -> Plan
    requires canonical { IsCanonical edit.now.layout.now (pages_of (M.state memory.now).memory) }
    requires turned { TurnsIn edit.now (λ n. nat_lt n (2 ^ 27)) runs.now (M.state memory.now) }
    ensures { IsRowPlanned edit.now runs.now (M.state memory.now) result }
{
    let span = gigabyte_span(runs);
    let mut plan = Plan::new(0, 0);
    for number in span.first..span.end {
        let gigabyte = Gigabyte::new(number);
        let part = gigabyte_runs(runs, gigabyte);
        if touches(&part) {
            let more = plan_gigabyte(memory, edit, gigabyte, &part);
            plan.tables += more.tables;
            plan.operations += more.operations;
        }
    }
    plan
}
