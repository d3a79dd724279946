//! Level 3: the words of a chunk's pages, in its table.

ghost use Rattle.base.specs.Manifest.{page_count};
ghost use Rattle.base.specs.Pages.{covers};
ghost use Rattle.pool.specs.Pool.{pages_of, words_of, taken_of, after_sets, nonzero_in, HasRow};
ghost use Rattle.stage2.specs.inner.Change.{entry_for, step_for};
ghost use Rattle.stage2.specs.inner.Chunks.{planned, Writes};
ghost use Rattle.stage2.specs.Edits.{edited};
ghost use Rattle.stage2.specs.inner.Clauses.{AreWordsOf, AreTurned, AreRunsTurned, TurnsRuns, WritesPlan, IsEmpty, IsUnseen, word_in, words_left, IsStray, OthersAnswer, gaps, covers_in};
ghost use Rattle.stage2.specs.Moments.{Settles};
ghost use Rattle.stage2.specs.Parts.{part_count};
ghost use Rattle.stage2.specs.Room.{pages_in, reached_in};
ghost use Rattle.std.specs.Prelude.{◌≡◌, ℕ, ◌+◌, ◌-◌, ◌*◌, ◌<◌, ◌≤◌, true, None, [], ◌||◌, false, Some, is_some};
ghost use Rattle.words.specs.Words.{entry_of};

use crate::parts::part_in;
use crate::place::{Chunk, page_index};
use crate::read::read_word;
use crate::site::ChunkEdit;
use crate::table_page::TablePage;
use base::limits::CHUNK_PAGES;
use base::{Access, Page, PartitionId, Runs};
use pool::{TableMem, TableWords};
use words::leaf_word;

/// Writes 0 into each word of a page that is taken that is not 0, upward.
#[inline(always)]
pub(crate) fn clear_words<M: TableMem>(memory: &mut M, table: TablePage)
    requires page_in { table < page_count (M.state memory.old).memory.quotas }
    requires taken { taken_of (M.state memory.old).memory.taken table ≡ true }
    requires room { nonzero_in (words_of (M.state memory.old).memory.words) table
        ≤ M.room memory.old }
    ensures state { M.state memory.new ≡ after_sets table 0 512 0 0 (M.state memory.old) }
    ensures room { M.room memory.old
        ≤ M.room memory.new + nonzero_in (words_of (M.state memory.old).memory.words) table }
{
    memory.clear_words(table.number());
}

/// The level 3 word of a page that is reached with this access, or not at all.
#[tactic(auto, unfolding(words::specs::Words::entry_of))]
pub(crate) fn word_of(page: Page, access: &Option<Access>) -> u64
    ensures same { entry_of 3 result ≡ entry_for page access.now }
    ensures zero { access.now ≡ None → result ≡ 0 }
{
    match access {
        Some(access) => leaf_word(page, *access, false),
        None => 0,
    }
}

/// What the level 3 word of each page that is reached so is more than that of the page before.
pub(crate) fn step_of(access: &Option<Access>) -> u64
    ensures { result ≡ step_for access.now }
{
    if access.is_some() { 1 << 12 } else { 0 }
}

/// The words of a chunk's table, where all its pages have this answer.
fn chunk_words(third: TablePage, chunk: Chunk, answer: &Option<Access>) -> TableWords
    ensures { AreWordsOf third chunk answer.now result }
{
    let first = chunk.first();
    TableWords {
        page: third.number(),
        start: first.number(),
        word: word_of(first, answer),
        step: step_of(answer),
    }
}

/// Writes the words for the pages of the runs in a chunk into a table, where they are not there.
#[inline(always)]
pub(crate) fn write_runs<M: TableMem>(memory: &mut M, third: TablePage, edit: &ChunkEdit)
    requires page_in { third < page_count (M.state memory.old).memory.quotas }
    requires taken { taken_of (M.state memory.old).memory.taken third ≡ true }
    requires turned { TurnsRuns third edit.now (M.state memory.old) }
    requires room { pages_in edit.now.runs edit.now.chunk ≤ M.room memory.old }
    ensures writes { WritesPlan third edit.now.chunk 512 (planned edit.now.runs edit.now.access None)
        (M.state memory.old) (M.state memory.new) }
    ensures room { M.room memory.old ≤ M.room memory.new + pages_in edit.now.runs edit.now.chunk }
{
    if edit.turns {
        turn_runs(memory, third, edit);
    } else {
        set_runs(memory, third, edit);
    }
}

/// The same of words that may be there: each is looked at.
fn set_runs<M: TableMem>(memory: &mut M, third: TablePage, edit: &ChunkEdit)
    requires page_in { third < page_count (M.state memory.old).memory.quotas }
    requires taken { taken_of (M.state memory.old).memory.taken third ≡ true }
    requires room { pages_in edit.now.runs edit.now.chunk ≤ M.room memory.old }
    ensures writes { WritesPlan third edit.now.chunk 512 (planned edit.now.runs edit.now.access None)
        (M.state memory.old) (M.state memory.new) }
    ensures room { M.room memory.old ≤ M.room memory.new + pages_in edit.now.runs edit.now.chunk }
{
    let words = chunk_words(third, edit.chunk, &edit.access);
    memory.set_runs(words, &edit.runs);
}

/// The same of words none of which is there: they are valid exactly where these are not.
#[inline(always)]
fn turn_runs<M: TableMem>(memory: &mut M, third: TablePage, edit: &ChunkEdit)
    requires page_in { third < page_count (M.state memory.old).memory.quotas }
    requires taken { taken_of (M.state memory.old).memory.taken third ≡ true }
    requires turned { AreRunsTurned third edit.now (M.state memory.old) }
    requires room { pages_in edit.now.runs edit.now.chunk ≤ M.room memory.old }
    ensures writes { WritesPlan third edit.now.chunk 512 (planned edit.now.runs edit.now.access None)
        (M.state memory.old) (M.state memory.new) }
    ensures room { M.room memory.old ≤ M.room memory.new + pages_in edit.now.runs edit.now.chunk }
{
    let words = chunk_words(third, edit.chunk, &edit.access);
    memory.turn_runs(words, &edit.runs);
}

/// Fills a table whose words are all 0, and which hangs nowhere, for a chunk all of whose pages had one answer: those of the
/// runs get another one. The words for pages that are not to be reached are there.
#[inline(always)]
pub(crate) fn fill_table<M: TableMem>(
    memory: &mut M,
    third: TablePage,
    edit: &ChunkEdit,
    before: &Option<Access>,
)
    requires page_in { third < page_count (M.state memory.old).memory.quotas }
    requires taken { taken_of (M.state memory.old).memory.taken third ≡ true }
    requires empty { IsEmpty third (M.state memory.old) }
    requires some { (is_some before.now || is_some edit.now.access) ≡ true }
    requires room { reached_in (edited edit.now.runs edit.now.access (λ n. before.now)) edit.now.chunk
        ≤ M.room memory.old }
    ensures words { Writes third edit.now.chunk (planned edit.now.runs edit.now.access (Some before.now))
        (pages_of (M.state memory.old).memory) (pages_of (M.state memory.new).memory) }
    ensures unseen { IsUnseen third (M.state memory.old) (M.state memory.new) }
    ensures room { M.room memory.old ≤ M.room memory.new
        + reached_in (edited edit.now.runs edit.now.access (λ n. before.now)) edit.now.chunk }
{
    match (before, edit.access) {
        (None, _) => turn_runs(memory, third, edit),
        (Some(_), None) => write_gaps(memory, third, edit, before),
        (Some(_), Some(_)) => {
            turn_runs(memory, third, edit);
            write_gaps(memory, third, edit, before);
        }
    }
}

/// Writes 0 into all words of a table, whose chunk's pages are all reached alike after an edit. Where they are not reached, the
/// words beside the runs are 0; where they are, all of those have to go, and mostly no others.
#[inline(always)]
pub(crate) fn empty_table<M: TableMem>(memory: &mut M, third: TablePage, edit: &ChunkEdit)
    requires page_in { third < page_count (M.state memory.old).memory.quotas }
    requires taken { taken_of (M.state memory.old).memory.taken third ≡ true }
    requires left { OthersAnswer third edit.now.chunk edit.now.runs edit.now.access (M.state memory.old) }
    requires room { words_left third edit.now (M.state memory.old)
        ≤ M.room memory.old }
    ensures writes { WritesPlan third edit.now.chunk 512 (planned [] None (Some None))
        (M.state memory.old) (M.state memory.new) }
    ensures room { M.room memory.old ≤ M.room memory.new
        + words_left third edit.now (M.state memory.old) }
{
    let nonzero = memory.nonzero(third.number());
    if edit.access.is_none() && nonzero == edit.pieces.pages {
        turn_runs(memory, third, edit);
    } else if edit.access.is_some() && nonzero + edit.pieces.pages == CHUNK_PAGES {
        write_gaps(memory, third, edit, &None);
    } else {
        clear_words(memory, third);
    }
}

/// Writes the words for the pages of a chunk beside runs, upward. None of them is there: they are valid exactly where
/// these are not.
#[inline(always)]
fn write_gaps<M: TableMem>(
    memory: &mut M,
    third: TablePage,
    edit: &ChunkEdit,
    answer: &Option<Access>,
)
    requires page_in { third < page_count (M.state memory.old).memory.quotas }
    requires taken { taken_of (M.state memory.old).memory.taken third ≡ true }
    requires turned { AreTurned third edit.now answer.now (M.state memory.old) }
    requires room { 512 ≤ M.room memory.old + pages_in edit.now.runs edit.now.chunk }
    ensures writes { WritesPlan third edit.now.chunk 512 (gaps edit.now.runs answer.now)
        (M.state memory.old) (M.state memory.new) }
    ensures room { M.room memory.old + pages_in edit.now.runs edit.now.chunk ≤ M.room memory.new + 512 }
{
    let words = chunk_words(third, edit.chunk, answer);
    memory.set_gaps(words, &edit.runs);
}

/// Whether the word of some page of a chunk beside runs is not that of a page that is reached as theirs are after an edit.
#[inline(always)]
pub(crate) fn has_stray<M: TableMem>(memory: &M, third: TablePage, edit: &ChunkEdit) -> bool
    requires page_in { third < page_count (M.state memory.now).memory.quotas }
    requires taken { taken_of (M.state memory.now).memory.taken third ≡ true }
    ensures yes { result ≡ true → IsStray third edit.now (M.state memory.now) }
    ensures no { result ≡ false → OthersAnswer third edit.now.chunk edit.now.runs edit.now.access
        (M.state memory.now) }
{
    !memory.has_gaps(chunk_words(third, edit.chunk, &edit.access), &edit.runs)
}

/// Invalidates the runs' parts in a chunk.
pub(crate) fn invalidate_parts<M: TableMem>(
    memory: &mut M,
    p: PartitionId,
    chunk: Chunk,
    runs: &Runs,
)
    requires partition { HasRow (M.state memory.old).memory p }
    requires room { part_count chunk runs.now ≤ M.room memory.old }
    ensures memory { (M.state memory.new).memory ≡ (M.state memory.old).memory }
    ensures settles { Settles p (covers_in chunk runs.now)
        (M.state memory.old) (M.state memory.new) }
    ensures room { M.room memory.old ≡ M.room memory.new + part_count chunk runs.now }
{
    for run in runs.list() {
        if let Some(part) = part_in(*run, chunk) {
            memory.invalidate(p, part);
        }
    }
}
