//! Level 2: the word of a chunk, its table, and the chunks of a gigabyte.

ghost use Rattle.base.specs.Manifest.{page_count};
ghost use Rattle.pool.specs.Pool.{taken_of, HasRow};
ghost use Rattle.stage2.specs.inner.Change.{block_step};
ghost use Rattle.stage2.specs.inner.Chunks.{block_answer, IsEntryFor};
ghost use Rattle.stage2.specs.Edits.{edited};
ghost use Rattle.stage2.specs.inner.Clauses.{Puts, Replaces, slot_at, AnswersAll, BecomesAlike, BecomesMixed, ReplacesBlocks, CanEditChunk, IsChunkEdited, CanEditChunks, AreChunksEdited, word_in};
ghost use Rattle.stage2.specs.Room.{reached_in};
ghost use Rattle.stage2.specs.Slot.{Layout, slot};
ghost use Rattle.stage2.specs.Walk.{next_page};
ghost use Rattle.stage2.specs.declared.walked.Slot.TheVariants.{Next};
ghost use Rattle.std.specs.Prelude.{◌≡◌, ℕ, ◌+◌, ◌*◌, ◌%◌, ◌<◌, ◌≤◌, ◌||◌, ◌==◌, true, false, Some, None, is_some};

use crate::layout::Layout;
use crate::level3::{empty_table, fill_table, invalidate_parts, write_runs};
use crate::memory::{give_page, is_empty, take_page};
use crate::outcome::becomes_alike;
use crate::parts::next_piece;
use crate::place::{Chunk, Gigabyte, Span};
use crate::read::{AT_ONCE, read_chunk, read_word};
use crate::site::{ChunkEdit, RowEdit, Site};
use crate::table_page::TablePage;
use crate::walked::Slot;
use base::{Access, PartitionId, Runs};
use pool::{TableMem, WordRange};
use words::{leaf_word, table_word};

/// Writes the level 2 word of a chunk. A valid word is made invalid before, and the chunk
/// invalidated.
fn replace_entry<M: TableMem>(
    memory: &mut M,
    p: PartitionId,
    second: TablePage,
    chunk: Chunk,
    word: u64,
)
    requires page_in { second < page_count (M.state memory.old).memory.quotas }
    requires taken { taken_of (M.state memory.old).memory.taken second ≡ true }
    requires partition { HasRow (M.state memory.old).memory p }
    requires room { 3 ≤ M.room memory.old }
    ensures pages { Puts second (chunk % 512) word (M.state memory.old) (M.state memory.new) }
    ensures history { Replaces p second chunk word (M.state memory.old) (M.state memory.new) }
    ensures room { M.room memory.old ≤ M.room memory.new + 3 }
{
    let index = chunk.index();
    let entry = WordRange {
        page: second.number(),
        first: index,
        end: index + 1,
        word,
        step: 0,
    };
    memory.replace_words(p, entry, chunk.first());
}

/// The level 2 word of a chunk whose pages all have this answer: a block, or an invalid word.
#[tactic(auto, unfolding(words::specs::Words::entry_of))]
fn block_word(chunk: Chunk, answer: &Option<Access>) -> u64
    ensures { IsEntryFor chunk answer.now result }
{
    match answer {
        Some(access) => leaf_word(chunk.first(), *access, true),
        None => 0,
    }
}

/// What the level 2 word of each chunk whose pages are all reached so is more than that of the chunk
/// before.
fn block_step(answer: &Option<Access>) -> u64
    ensures { result ≡ block_step answer.now }
{
    if answer.is_some() { 1 << 21 } else { 0 }
}

/// Makes chunks of a gigabyte that follow one another, and have no table, blocks, or invalid.
pub(crate) fn set_blocks<M: TableMem>(
    memory: &mut M,
    site: &Site,
    gigabyte: Gigabyte,
    chunks: Span,
    answer: &Option<Access>,
)
    requires page_in { site.now.second < page_count (M.state memory.old).memory.quotas }
    requires taken { taken_of (M.state memory.old).memory.taken site.now.second ≡ true }
    requires some { chunks.first < chunks.end }
    requires most { chunks.end ≤ 512 }
    requires partition { HasRow (M.state memory.old).memory site.now.p }
    requires room { 3 * chunks.end ≤ M.room memory.old + 3 * chunks.first }
    ensures replaces { ReplacesBlocks site.now.p site.now.second gigabyte chunks.first chunks.end answer.now
        (M.state memory.old) (M.state memory.new) }
    ensures room { M.room memory.old + 3 * chunks.first ≤ M.room memory.new + 3 * chunks.end }
{
    let chunk = gigabyte.chunk(chunks.first);
    let word = block_word(chunk, answer);
    let blocks = WordRange {
        page: site.second.number(),
        first: chunks.first,
        end: chunks.end,
        word,
        step: block_step(answer),
    };
    memory.replace_words(site.p, blocks, chunk.first());
}

/// Makes a chunk that has no table one block, or invalid.
#[inline(always)]
fn set_block<M: TableMem>(memory: &mut M, site: &Site, edit: &ChunkEdit)
    requires can { CanEditChunk site.now edit.now (M.state memory.old) (M.room memory.old) }
    requires alike { BecomesAlike site.now edit.now (M.state memory.old) }
    requires none { next_page (slot_at site.now edit.now (M.state memory.old)) ≡ None }
    ensures { IsChunkEdited site.now edit.now
        (M.state memory.old) (M.room memory.old) (M.state memory.new) (M.room memory.new) }
{
    let Site { p, second, .. } = *site;
    replace_entry(
        memory,
        p,
        second,
        edit.chunk,
        block_word(edit.chunk, &edit.access),
    );
}

/// Makes a chunk that has a table one block, or invalid, and gives the table back.
#[inline(always)]
fn drop_table<M: TableMem>(memory: &mut M, site: &Site, edit: &ChunkEdit, third: TablePage)
    requires can { CanEditChunk site.now edit.now (M.state memory.old) (M.room memory.old) }
    requires alike { BecomesAlike site.now edit.now (M.state memory.old) }
    requires table { slot_at site.now edit.now (M.state memory.old) ≡ Next third }
    ensures { IsChunkEdited site.now edit.now
        (M.state memory.old) (M.room memory.old) (M.state memory.new) (M.room memory.new) }
{
    let Site { p, second, .. } = *site;
    replace_entry(
        memory,
        p,
        second,
        edit.chunk,
        block_word(edit.chunk, &edit.access),
    );
    empty_table(memory, third, edit);
    give_page(memory, site.row, third);
}

/// Edits the pages of a chunk whose table stays. Where they are unmapped, they are invalidated run by run.
#[inline(always)]
fn rewrite_table<M: TableMem>(memory: &mut M, site: &Site, edit: &ChunkEdit, third: TablePage)
    requires can { CanEditChunk site.now edit.now (M.state memory.old) (M.room memory.old) }
    requires mixed { BecomesMixed site.now edit.now (M.state memory.old) }
    requires table { slot_at site.now edit.now (M.state memory.old) ≡ Next third }
    ensures { IsChunkEdited site.now edit.now
        (M.state memory.old) (M.room memory.old) (M.state memory.new) (M.room memory.new) }
{
    write_runs(memory, third, edit);
    if edit.access.is_none() {
        invalidate_parts(memory, site.p, edit.chunk, &edit.runs);
    }
}

/// Hangs a table in a chunk that has none, whose pages have this answer before the edit.
#[inline(always)]
fn hang_table<M: TableMem>(memory: &mut M, site: &Site, edit: &ChunkEdit, before: &Option<Access>)
    requires can { CanEditChunk site.now edit.now (M.state memory.old) (M.room memory.old) }
    requires mixed { BecomesMixed site.now edit.now (M.state memory.old) }
    requires none { next_page (slot_at site.now edit.now (M.state memory.old)) ≡ None }
    requires before { AnswersAll site.now edit.now before.now (M.state memory.old) }
    ensures { IsChunkEdited site.now edit.now
        (M.state memory.old) (M.room memory.old) (M.state memory.new) (M.room memory.new) }
{
    let Site { p, second, .. } = *site;
    let third = take_page(memory, site.row);
    fill_table(memory, third, edit, before);
    replace_entry(
        memory,
        p,
        second,
        edit.chunk,
        table_word(edit.layout.address(third)),
    );
}

/// Whether a level 2 word is a table descriptor, or wrong.
pub(crate) fn points_at_table(word: u64) -> bool
    ensures same { result ≡ (word % 4 == 3) }
    ensures no { result ≡ false → (layout : Layout) → next_page (slot layout 2 word) ≡ None }
{
    word % 4 == 3
}

/// The table that a word points at.
pub(crate) fn table_of(entry: &Slot) -> Option<TablePage>
    ensures { result ≡ next_page entry.now }
{
    match entry {
        Slot::Next(table) => Some(*table),
        _ => None,
    }
}

/// What all pages of a chunk answer that has no table.
pub(crate) fn block_of(entry: &Slot) -> Option<Access>
    ensures { result ≡ block_answer entry.now }
{
    match entry {
        Slot::Maps(_, access) => Some(*access),
        _ => None,
    }
}

/// Edits the pages of runs in a chunk: they are reached with this access, or not at all.
#[inline(always)]
fn edit_chunk<M: TableMem>(memory: &mut M, site: &Site, edit: &ChunkEdit)
    requires { CanEditChunk site.now edit.now (M.state memory.old) (M.room memory.old) }
    ensures { IsChunkEdited site.now edit.now
        (M.state memory.old) (M.room memory.old) (M.state memory.new) (M.room memory.new) }
{
    let entry = read_chunk(memory, edit.layout, site.second, edit.chunk);
    let table = table_of(&entry);
    if becomes_alike(memory, edit, &entry) {
        match table {
            Some(third) => drop_table(memory, site, edit, third),
            None => set_block(memory, site, edit),
        }
        return;
    }
    match table {
        Some(third) => rewrite_table(memory, site, edit, third),
        None => {
            let before = block_of(&entry);
            hang_table(memory, site, edit, &before)
        }
    }
}

/// The same, for a loop over chunks, whose values would not stay in registers beside those of the edit.
#[inline(never)]
fn edit_one_of_many<M: TableMem>(memory: &mut M, site: &Site, edit: &ChunkEdit)
    requires { CanEditChunk site.now edit.now (M.state memory.old) (M.room memory.old) }
    ensures { IsChunkEdited site.now edit.now
        (M.state memory.old) (M.room memory.old) (M.state memory.new) (M.room memory.new) }
{
    edit_chunk(memory, site, edit);
}

/// Whether none of 64 chunks of a gigabyte that follow one another, from this one on, has a table.
fn are_plain<M: TableMem>(memory: &M, second: TablePage, first: u32) -> bool
    requires page_in { second < page_count (M.state memory.now).memory.quotas }
    requires most { first + 64 ≤ 512 }
    ensures { result ≡ true → (layout : Layout) (x : ℕ) → first ≤ x → x < first + 64
        → next_page (slot layout 2 (word_in (M.state memory.now) second x)) ≡ None }
{
    let mut are = true;
    for index in first..first + AT_ONCE {
        are &= !points_at_table(read_word(memory, second, index));
    }
    are
}

/// Up to where chunks of a gigabyte, counted from its first, have no table, as far as many words at
/// once tell it.
fn plain_at_once<M: TableMem>(memory: &M, second: TablePage, first: u32, end: u32) -> u32
    requires page_in { second < page_count (M.state memory.now).memory.quotas }
    requires most { end ≤ 512 }
    ensures from { first ≤ result }
    ensures most { first < result → result ≤ end }
    ensures plain { (layout : Layout) (x : ℕ) → first ≤ x → x < result
        → next_page (slot layout 2 (word_in (M.state memory.now) second x)) ≡ None }
{
    let mut index = first;
    while index < end && end - index >= AT_ONCE && are_plain(memory, second, index) {
        index += AT_ONCE;
    }
    index
}

/// Up to where chunks of a gigabyte, counted from its first, have no table. Where all words of its table
/// are 0, none has.
pub(crate) fn plain_until<M: TableMem>(memory: &M, second: TablePage, first: u32, end: u32) -> u32
    requires page_in { second < page_count (M.state memory.now).memory.quotas }
    requires most { end ≤ 512 }
    ensures from { first ≤ result }
    ensures most { first < result → result ≤ end }
    ensures plain { (layout : Layout) (x : ℕ) → first ≤ x → x < result
        → next_page (slot layout 2 (word_in (M.state memory.now) second x)) ≡ None }
{
    if first < end && is_empty(memory, second) {
        return end;
    }
    let mut index = plain_at_once(memory, second, first, end);
    while index < end && !points_at_table(read_word(memory, second, index)) {
        index += 1;
    }
    index
}

/// Edits the chunks of a gigabyte that the runs touch, upward: blocks together, and others one by one.
#[inline(never)]
fn edit_each_chunk<M: TableMem>(
    memory: &mut M,
    edit: &RowEdit,
    second: TablePage,
    gigabyte: Gigabyte,
    runs: &Runs,
)
    requires { CanEditChunks edit.now gigabyte second runs.now (M.state memory.old) (M.room memory.old) }
    ensures { AreChunksEdited edit.now gigabyte second runs.now
        (M.state memory.old) (M.room memory.old) (M.state memory.new) (M.room memory.new) }
{
    let site = Site {
        p: edit.p,
        row: edit.row,
        second,
    };
    let mut rest = runs.again();
    let mut index = 0;
    while let Some(piece) = next_piece(&rest, gigabyte, index) {
        rest = piece.runs;
        let plain = plain_until(memory, second, piece.first, piece.filled);
        if piece.first < plain {
            let chunks = Span {
                first: piece.first,
                end: plain,
            };
            set_blocks(memory, &site, gigabyte, chunks, &edit.access);
            index = plain;
        } else {
            let chunk = gigabyte.chunk(piece.first);
            if let Some(here) = ChunkEdit::new(
                edit.layout,
                &rest,
                chunk,
                &edit.access,
                edit.turns,
            ) {
                edit_one_of_many(memory, &site, &here);
            }
            index = piece.first + 1;
        }
    }
}

/// Edits the pages of runs in the chunks of a gigabyte, upward, whose level 2 table may not be
/// linked yet.
#[inline(always)]
pub(crate) fn edit_chunks<M: TableMem>(
    memory: &mut M,
    edit: &RowEdit,
    second: TablePage,
    gigabyte: Gigabyte,
    runs: &Runs,
)
    requires { CanEditChunks edit.now gigabyte second runs.now (M.state memory.old) (M.room memory.old) }
    ensures { AreChunksEdited edit.now gigabyte second runs.now
        (M.state memory.old) (M.room memory.old) (M.state memory.new) (M.room memory.new) }
{
    match ChunkEdit::alone(edit.layout, runs, &edit.access, edit.turns) {
        Some(here) => {
            let site = Site {
                p: edit.p,
                row: edit.row,
                second,
            };
            edit_chunk(memory, &site, &here);
        }
        None => edit_each_chunk(memory, edit, second, gigabyte, runs),
    }
}
