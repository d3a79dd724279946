//! The most heap that a manager takes. Sizes are those of a machine of 64 bits, rounded up. That the sum is never passed is
//! tested, and not proved (docs/LINKING.md, "Memory").

ghost use Rattle.std.specs.Prelude.{◌≡◌, ◌≢◌, ◌⊎◌, IfOk, IfErr};
ghost use Rattle.manifest.specs.Document.{IsManifestOf, IsFirstFault};
ghost use Rattle.ffaspm_c.specs.Answers as answers;
ghost use Rattle.ffaspm_c.specs.Answers.{IsFaultNumber, IsDocument};

use crate::status::DONE;
use base::Run;
use base::limits::{CHUNK_PAGES, MOST_LIVE, MOST_RANGES, PAGE_SIZE};
use manifest::{Manifest, ManifestFault, read};
use std::alloc::Global;

/// The least that two blocks of intervals side by side have together.
const PAIR: u64 = 113;

/// What a manifest has: partitions, regions and their grants, pages of the table pool and of all regions, and chunks of
/// 2 MB in which a region has a page; and how many ranges a call has at most.
#[derive(Clone, Copy)]
struct Counts {
    partitions: u64,
    regions: u64,
    grants: u64,
    tables: u64,
    pages: u64,
    chunks: u64,
    ranges: u64,
}

/// The sum, or 2^64 - 1 where it is more.
fn total(parts: &[u64]) -> u64 {
    parts
        .iter()
        .fold(0, |sum, part| u64::saturating_add(sum, *part))
}

/// So many places of so many bytes each.
fn places(count: u64, size: u64) -> u64 {
    count.saturating_mul(size)
}

/// A list that has grown to so many values: it may have twice the places.
fn list(count: u64, size: u64) -> u64 {
    places(count, size).saturating_mul(2)
}

/// In how many chunks of 2 MB a run has a page.
fn chunks_of(run: Run) -> u64 {
    let last = run.end().saturating_sub(1) / CHUNK_PAGES;
    let first = run.first().number() / CHUNK_PAGES;
    u64::from(last.saturating_sub(first)).saturating_add(1)
}

fn counts_of(manifest: &Manifest, ranges: u32) -> Counts {
    let regions = manifest.regions();
    let grants = regions.iter().map(|region| region.grants().len() as u64);
    let pages = regions
        .iter()
        .map(|region| u64::from(region.pages().count()));
    let chunks = regions.iter().map(|region| chunks_of(region.pages()));
    let add = |sum, count| u64::saturating_add(sum, count);
    Counts {
        partitions: manifest.partitions().len() as u64,
        regions: regions.len() as u64,
        grants: grants.fold(0, add),
        tables: u64::from(manifest.table_pages()),
        pages: pages.fold(0, add),
        chunks: chunks.fold(0, add),
        ranges: u64::from(ranges.min(MOST_RANGES as u32)),
    }
}

/// What stays from boot on: words, counts and marks of the table pool, the manifest's lists, and the manager.
fn kept(counts: &Counts) -> u64 {
    total(&[
        places(counts.tables, PAGE_SIZE + 4 + 2),
        places(counts.partitions, 128),
        places(counts.regions, 128),
        list(counts.grants, 16),
        16_384,
    ])
}

/// The list of operations, which has places for each word of the chunks that the ranges of a call touch, with the few that it may ask
/// for beside, for an invalidation of each part of a range, and for a clear of each range.
fn operations(counts: &Counts) -> u64 {
    let most = total(&[places(counts.chunks, 520), places(counts.ranges, 2)]);
    places(most, 24)
}

/// How many ranges are live at most: each has a page of its own.
fn live_ranges(counts: &Counts) -> u64 {
    places(counts.ranges, MOST_LIVE as u64)
        .saturating_mul(counts.partitions)
        .min(counts.pages)
}

/// Live transactions, with their ranges.
fn transactions(counts: &Counts) -> u64 {
    let live = places(counts.partitions, MOST_LIVE as u64);
    total(&[
        list(live, 16),
        places(live, 256),
        list(live_ranges(counts), 8),
    ])
}

/// A map of so many intervals: its blocks, those that an edit makes spare, three lists of them, and the lists of an edit.
fn map(counts: &Counts, intervals: u64) -> u64 {
    let blocks = total(&[list(intervals, 1) / PAIR, 1]);
    let spare = total(&[blocks, 8]).min(counts.ranges);
    let all = total(&[blocks, spare, 1]);
    total(&[
        places(all, 2048),
        places(list(all, 32), 3),
        list(counts.ranges, 8),
        list(total(&[places(counts.ranges, 2), 256]), 16),
    ])
}

/// The runs of an edit, sorted and joined, and a response.
fn answer(counts: &Counts) -> u64 {
    total(&[
        places(list(counts.ranges, 8), 4),
        places(counts.ranges, 16),
        256,
    ])
}

/// The most that is taken at once, by a document of so many bytes and the manager of its manifest. While the longest list
/// grows, which is that of operations, the old one is there too.
fn bound(counts: &Counts, length: u64) -> u64 {
    let running = total(&[
        kept(counts),
        places(operations(counts), 2),
        transactions(counts),
        map(counts, counts.pages),
        map(counts, live_ranges(counts)),
        answer(counts),
    ]);
    let reading = total(&[kept(counts), places(length, 64)]);
    running.max(reading)
}

/// The bound of the manifest in a document.
fn bound_of(alloc: Global, document: &[u8], ranges: u32) -> Result<u64, ManifestFault>
    ensures ok { IfOk result (λ bytes. IsDocument document.now) }
    ensures fault { IfErr result (IsFirstFault document.now) }
{
    let manifest = read(alloc, document)?;
    Ok(bound(&counts_of(&manifest, ranges), document.len() as u64))
}

/// The most bytes of heap that the manager of the manifest in a document ever has, from its making on, where no call has
/// more ranges than these, of which it may have 512: with a heap of so many bytes no such call is answered with `NO_MEMORY`.
/// Bytes that a heap takes for its own use are not counted. It is refused with the number of the document's first fault (11
/// is want of memory), and then writes nothing.
#[unsafe(no_mangle)]
pub extern "C" fn ffaspm_heap_bound(
    alloc: Global,
    document: &[u8],
    ranges: u32,
    bytes: &mut u64,
) -> u32
    ensures answer { (result ≡ answers.done) ⊎ IsFaultNumber document.now result }
    ensures valid { result ≡ answers.done → IsDocument document.now }
    ensures untouched { result ≢ answers.done → bytes.new ≡ bytes.old }
{
    match bound_of(alloc, document, ranges) {
        Ok(bound) => {
            *bytes = bound;
            DONE
        }
        Err(fault) => u32::from(fault.number()),
    }
}
