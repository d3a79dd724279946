//! Whether the pages of a chunk are all reached alike after an edit: then they are reached as those of the runs.

ghost use Rattle.base.specs.Access.{View};
ghost use Rattle.base.specs.Manifest.{page_count};
ghost use Rattle.base.specs.Need as needs;
ghost use Rattle.pool.specs.Pool.{words_of, nonzero_in};
ghost use Rattle.stage2.specs.inner.Chunks.{IsOutcome, block_answer};
ghost use Rattle.stage2.specs.Edits.{edited};
ghost use Rattle.stage2.specs.inner.Clauses.{IsTableOf, IsStray, read_after, tells};
ghost use Rattle.stage2.specs.declared.walked.Slot.TheVariants.{Next};
ghost use Rattle.std.specs.Prelude.{◌≡◌, ℕ, ◌/◌, ◌<◌, ◌≤◌, true, false, None};

use crate::level2::{block_of, table_of};
use crate::level3::has_stray;
use crate::site::ChunkEdit;
use crate::table_page::TablePage;
use crate::walked::Slot;
use base::Access;
use base::limits::CHUNK_PAGES;
use pool::TableMem;

/// Whether two pages are reached alike.
pub(crate) fn is_alike(a: &Option<Access>, b: &Option<Access>) -> bool
    ensures { result ≡ needs.is_alike a.now b.now }
{
    match (a, b) {
        (Some(a), Some(b)) => a.is_same(*b),
        (None, None) => true,
        _ => false,
    }
}

/// Whether the pages of a chunk that has no table are all reached alike after an edit. They were before.
pub(crate) fn is_alike_in_block(edit: &ChunkEdit, entry: &Slot) -> bool
    ensures { (before : ℕ → View)
        → ((n : ℕ) → n / 512 ≡ edit.now.chunk → before n ≡ block_answer entry.now)
        → IsOutcome edit.now.chunk (edited edit.now.runs edit.now.access before)
        (tells result edit.now.access) }
{
    edit.pieces.pages == CHUNK_PAGES || is_alike(&block_of(entry), &edit.access)
}

/// Whether so many words of a chunk's table are not 0 that a page beside the runs is reached after the edit and theirs are not, or
/// the other way.
pub(crate) fn is_told_mixed<M: TableMem>(memory: &M, edit: &ChunkEdit, third: TablePage) -> bool
    requires { third < page_count (M.state memory.now).memory.quotas }
    ensures yes { result ≡ true → IsStray third edit.now (M.state memory.now) }
    ensures no { result ≡ false → edit.now.access ≡ None
        → nonzero_in (words_of (M.state memory.now).memory.words) third ≤ edit.now.pieces.pages }
{
    let nonzero = memory.nonzero(third.number());
    match edit.access {
        Some(_) => nonzero + edit.pieces.pages < CHUNK_PAGES,
        None => nonzero > edit.pieces.pages,
    }
}

/// Whether the pages of a chunk that has a table are all reached alike after an edit. Where the number of words that are not 0 leaves
/// it open, those beside the runs are looked at.
#[inline(always)]
pub(crate) fn is_alike_in_table<M: TableMem>(memory: &M, edit: &ChunkEdit, third: TablePage) -> bool
    requires { IsTableOf edit.now third (M.state memory.now) }
    ensures { IsOutcome edit.now.chunk (read_after edit.now (Next third) (M.state memory.now))
        (tells result edit.now.access) }
{
    if is_told_mixed(memory, edit, third) {
        return false;
    }
    // None of the runs' words is 0, and the table has no more.
    if edit.turns && edit.access.is_none() {
        return true;
    }
    !has_stray(memory, third, edit)
}

/// Whether the pages of a chunk are all reached alike after an edit.
#[inline(always)]
pub(crate) fn becomes_alike<M: TableMem>(memory: &M, edit: &ChunkEdit, entry: &Slot) -> bool
    requires { (k : ℕ) → entry.now ≡ Next k → IsTableOf edit.now k (M.state memory.now) }
    ensures { IsOutcome edit.now.chunk (read_after edit.now entry.now (M.state memory.now))
        (tells result edit.now.access) }
{
    match table_of(entry) {
        Some(third) => is_alike_in_table(memory, edit, third),
        None => is_alike_in_block(edit, entry),
    }
}
