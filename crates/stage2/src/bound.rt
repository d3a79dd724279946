//! Bounds of what an edit needs, which cost less than its plan.

ghost use Rattle.base.specs.Access.{View};
ghost use Rattle.base.specs.Counts.{count_below};
ghost use Rattle.base.specs.Manifest.{page_count};
ghost use Rattle.base.specs.Need.{grow};
ghost use Rattle.pool.specs.Pool.{pages_of};
ghost use Rattle.stage2.specs.Edits.{edited};
ghost use Rattle.stage2.specs.inner.Chunks.{covers_chunk};
ghost use Rattle.stage2.specs.inner.Clauses.{is_between, points_at, view_in};
ghost use Rattle.stage2.specs.inner.Gigabytes.{gigabyte_growth};
ghost use Rattle.stage2.specs.Orderly.{IsCanonical};
ghost use Rattle.stage2.specs.Room.{pages_in, row_operations};
ghost use Rattle.std.specs.Prelude.{◌≡◌, ℕ, ◌+◌, ◌-◌, ◌*◌, ◌/◌, ◌^◌, ◌<◌, ◌≤◌, ◌&&◌, Some, true, not, length, IfSome};

use crate::level2::{block_of, points_at_table, table_of};
use crate::parts::{bounds, chunk_span, gigabyte_span};
use crate::place::{Chunk, Gigabyte, Span};
use crate::plan::{entry_at, second_at};
use crate::read::read_word;
use crate::site::RowPlan;
use crate::table_page::TablePage;
use base::limits::{CHUNK_PAGES, GIGABYTE_PAGES};
use base::{Page, Runs};
use pool::TableMem;

/// How many chunks of a gigabyte, from one up to another, counted from its first, have no table.
fn count_plain<M: TableMem>(memory: &M, second: TablePage, chunks: Span) -> u32
    requires page_in { second < page_count (M.state memory.now).memory.quotas }
    requires ordered { chunks.first ≤ chunks.end }
    requires most { chunks.end ≤ 512 }
    ensures counts { count_below (λ x. is_between chunks.first chunks.end x
        && not (points_at (Some second) x (M.state memory.now))) 512 ≤ result }
    ensures few { result ≤ 512 }
{
    let mut count = 0;
    for index in chunks.first..chunks.end {
        count += u32::from(!points_at_table(read_word(memory, second, index)));
    }
    count
}

/// The same of a gigabyte that may have no level 2 table.
fn count_untabled<M: TableMem>(memory: &M, second: &Option<TablePage>, chunks: Span) -> u32
    requires page_in { (j : ℕ) → second.now ≡ Some j → j < page_count (M.state memory.now).memory.quotas }
    requires ordered { chunks.first ≤ chunks.end }
    requires most { chunks.end ≤ 512 }
    ensures counts { count_below (λ x. is_between chunks.first chunks.end x
        && not (points_at second.now x (M.state memory.now))) 512 ≤ result }
    ensures few { result ≤ 512 }
{
    match second {
        Some(second) => count_plain(memory, *second, chunks),
        None => chunks.end - chunks.first,
    }
}

/// How many tables an edit takes at most in a gigabyte.
fn most_in_gigabyte<M: TableMem>(memory: &M, edit: &RowPlan, gigabyte: Gigabyte, runs: &Runs) -> u32
    requires canonical { IsCanonical edit.now.layout.now (pages_of (M.state memory.now).memory) }
    ensures most { let before = view_in edit.now.layout.now edit.now.row (M.state memory.now) in
        gigabyte_growth before (edited runs.now edit.now.access before) gigabyte ≤ result }
    ensures few { result ≤ 513 }
{
    let second = second_at(memory, edit.layout, &edit.row, gigabyte);
    let chunks = count_untabled(memory, &second, chunk_span(runs, gigabyte));
    chunks + u32::from(second.is_none())
}

/// How many tables an edit takes at most: one for each chunk and each gigabyte without a table, from the first that the runs
/// touch to the last. It looks at no run between, and at words of level 1 and 2 alone.
pub(crate) fn most_tables<M: TableMem>(memory: &M, edit: &RowPlan, runs: &Runs) -> u32
    requires canonical { IsCanonical edit.now.layout.now (pages_of (M.state memory.now).memory) }
    ensures { let before = view_in edit.now.layout.now edit.now.row (M.state memory.now) in
        grow before (edited runs.now edit.now.access before) ≤ result }
{
    let span = gigabyte_span(runs);
    let mut most = 0;
    for number in span.first..span.end {
        most += most_in_gigabyte(memory, edit, Gigabyte::new(number), runs);
    }
    most
}

/// How many chunks there are from the first that the runs touch to the last.
fn chunks_between(pages: Span) -> u32
    requires ordered { pages.first ≤ pages.end }
    requires most { pages.end ≤ 2 ^ 27 }
    ensures { result ≡ (pages.end + 511) / 512 - pages.first / 512 }
{
    (pages.end + CHUNK_PAGES - 1) / CHUNK_PAGES - pages.first / CHUNK_PAGES
}

/// How many table pages an edit of the pages of these runs takes at most: one for each chunk and each
/// gigabyte from the first that they touch to the last. It reads no table.
pub(crate) fn most_growth(runs: &Runs) -> u32
    ensures { (before : ℕ → View) (access : View)
        → grow before (edited runs.now access before) ≤ result }
{
    let pages = bounds(runs);
    let gigabytes = (pages.end + GIGABYTE_PAGES - 1) / GIGABYTE_PAGES
        - pages.first / GIGABYTE_PAGES;
    gigabytes + chunks_between(pages)
}

/// How many operations an edit of the runs makes at most, whatever the tables are: 518 for each chunk from the first
/// that they touch to the last. It looks at no run between.
pub(crate) fn most_operations(runs: &Runs) -> usize
    ensures bound { (before : ℕ → View) (access : View)
        → row_operations runs.now access before ≤ result }
    ensures most { result ≤ 518 * 2 ^ 18 }
    ensures few { length runs.now ≤ 2 ^ 27 + 1 }
{
    518 * chunks_between(bounds(runs)) as usize
}

/// How many pages the runs have.
#[inline(always)]
fn count_pages(runs: &Runs) -> u32
    ensures { (chunk : ℕ) → pages_in runs.now chunk ≤ result }
{
    let list = runs.list();
    if let [run] = list {
        return run.count();
    }
    let mut pages: u32 = 0;
    for run in list {
        pages = pages.saturating_add(run.count());
    }
    pages
}

/// The chunk that has all pages of a span, if there are some, and such a one.
#[inline(always)]
fn only_chunk(pages: Span) -> Option<Chunk>
    requires { pages.end ≤ 2 ^ 27 }
    ensures { IfSome result (λ chunk. (chunk ≡ pages.first / 512) × (chunk < 262144)
        × (pages.end ≤ 512 * chunk + 512)) }
{
    if pages.first >= pages.end {
        return None;
    }
    let chunk = Chunk::of(Page::new(pages.first));
    if chunk.end() < pages.end {
        return None;
    }
    Some(chunk)
}

/// Whether the first of the runs has all pages of a chunk.
#[inline(always)]
fn is_filled(runs: &Runs, chunk: Chunk) -> bool
    ensures { result ≡ true → covers_chunk chunk runs.now ≡ true }
{
    match runs.list().first() {
        Some(run) => { run.first().number() <= chunk.first().number() && chunk.end() <= run.end() }
        None => false,
    }
}

/// How many operations an edit makes at most whose pages lie in one chunk, unless that was a block and is one no more: those on the words of its
/// pages, and of those beside them where the count of its table's words leaves it open whether it stays. It costs less than a plan.
#[inline(always)]
pub(crate) fn few_operations<M: TableMem>(memory: &M, edit: &RowPlan, runs: &Runs) -> Option<usize>
    requires canonical { IsCanonical edit.now.layout.now (pages_of (M.state memory.now).memory) }
    ensures bound { IfSome result (λ few. row_operations runs.now edit.now.access
        (view_in edit.now.layout.now edit.now.row (M.state memory.now)) ≤ few) }
    ensures most { IfSome result (λ few. few ≤ 2 ^ 33) }
{
    let chunk = only_chunk(bounds(runs))?;
    let pages = count_pages(runs);
    let mut words = runs.list().len() + pages as usize;
    let gigabyte = Gigabyte::of(chunk.first());
    let second = second_at(memory, edit.layout, &edit.row, gigabyte);
    let entry = entry_at(memory, edit.layout, &second, chunk);
    match table_of(&entry) {
        Some(third) => {
            let nonzero = memory.nonzero(third.number());
            if edit.access.is_some() && pages >= CHUNK_PAGES - nonzero {
                words = words.max(nonzero as usize);
            }
        }
        None => {
            if is_filled(runs, chunk) {
                return Some(5);
            }
            if block_of(&entry).is_some() {
                return None;
            }
        }
    }
    Some(5 + words)
}
