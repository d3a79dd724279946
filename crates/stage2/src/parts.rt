//! The parts of runs in a gigabyte, and in a chunk.

ghost use Rattle.base.specs.Pages.{are_normal, covers, in_run};
ghost use Rattle.stage2.specs.inner.Chunks.{covers_chunk};
ghost use Rattle.stage2.specs.Edits.{touches_chunk};
ghost use Rattle.stage2.specs.Parts as parts;
ghost use Rattle.stage2.specs.Parts.{part_in, part_count, end_from, lie_within};
ghost use Rattle.stage2.specs.inner.Pieces.{IsNextPiece};
ghost use Rattle.stage2.specs.Room.{pages_among, pages_in};
ghost use Rattle.std.specs.Prelude.{◌≡◌, [], ◌∷◌, ℕ, ◌+◌, ◌*◌, ◌<◌, ◌≤◌, true, false, None, take, drop, length, ◌/◌, ◌^◌, IfSome};

use crate::place::{Chunk, Gigabyte, Span, whole_chunks};
use base::limits::{CHUNK_PAGES, GIGABYTE_PAGES, TABLE_WORDS};
use base::{Page, Run, Runs};

/// How many runs are looked at one by one before they are halved: from chunk to chunk mostly one ends, or none.
const LOOKS: usize = 2;

/// How many of the runs end at or before a page: for whoever goes upward none, or few, which a look tells.
fn ended(runs: &[Run], first: u32) -> usize
    requires { are_normal runs.now ≡ true }
    ensures same { drop result runs.now ≡ parts.runs_past first runs.now }
    ensures most { result ≤ length runs.now }
{
    for index in 0..runs.len().min(LOOKS) {
        if first < runs[index].end() {
            return index;
        }
    }
    runs.partition_point(|run| run.end() <= first)
}

/// How many of the runs begin before a page.
fn begun(runs: &[Run], end: u32) -> usize
    requires { are_normal runs.now ≡ true }
    ensures same { take result runs.now ≡ parts.runs_before end runs.now }
    ensures most { result ≤ length runs.now }
{
    for index in 0..runs.len().min(LOOKS) {
        if end <= runs[index].first().number() {
            return index;
        }
    }
    runs.partition_point(|run| run.first().number() < end)
}

/// Those of the runs that end behind a page: whoever goes upward needs no others.
pub(crate) fn runs_past<'a>(runs: &Runs<'a>, first: u32) -> Runs<'a>
    ensures { result ≡ parts.runs_past first runs.now }
{
    let list = runs.list();
    Runs::of(&list[ended(list, first)..])
}

/// The same, where mostly the first of the runs ends behind the page.
#[inline(always)]
fn runs_on<'a>(runs: &Runs<'a>, first: u32) -> Runs<'a>
    ensures { result ≡ parts.runs_past first runs.now }
{
    let list = runs.list();
    match list.first() {
        Some(run) if first < run.end() => Runs::of(list),
        _ => runs_past(runs, first),
    }
}

/// Those of the runs that begin before a page.
fn runs_before<'a>(runs: &Runs<'a>, end: u32) -> Runs<'a>
    ensures { result ≡ parts.runs_before end runs.now }
{
    let list = runs.list();
    Runs::of(&list[..begun(list, end)])
}

/// Those of the runs that have a page in a chunk, of whatever runs that end behind its first page.
pub(crate) fn chunk_runs<'a>(runs: &Runs<'a>, chunk: Chunk) -> Runs<'a>
    requires past { parts.runs_past (512 * chunk) runs.now ≡ runs.now }
    ensures { result ≡ parts.chunk_runs chunk runs.now }
{
    runs_before(runs, chunk.end())
}

/// Those of the runs that have a page in a gigabyte.
pub(crate) fn gigabyte_runs<'a>(runs: &Runs<'a>, gigabyte: Gigabyte) -> Runs<'a>
    ensures { result ≡ parts.gigabyte_runs gigabyte runs.now }
{
    runs_before(&runs_past(runs, gigabyte.first().number()), gigabyte.end())
}

/// How many pages of a chunk runs have, and how many of the runs have some.
#[derive(Clone, Copy)]
pub(crate) struct Pieces {
    pub(crate) pages: u32,
    pub(crate) runs: u32,
}

/// The pages of a run in a chunk, if there are any.
#[tactic(auto, unfolding(crate::specs::Parts::part_in))]
pub(crate) fn part_in(run: Run, chunk: Chunk) -> Option<Run>
    ensures { result ≡ part_in chunk run }
{
    let first = run.first().number().max(chunk.first().number());
    let end = run.end().min(chunk.end());
    if first < end {
        Some(Run::new(Page::new(first), end - first))
    } else {
        None
    }
}

/// The piece of a run in a chunk, if there is one.
fn piece_of(run: Run, chunk: Chunk) -> Pieces
    ensures pages { result.pages ≡ pages_among (λ i. in_run run (512 * chunk + i)) }
    ensures runs { result.runs ≡ part_count chunk (run ∷ []) }
    ensures few { result.runs ≤ result.pages }
    ensures most { result.pages ≤ 512 }
{
    match part_in(run, chunk) {
        Some(part) => Pieces {
            pages: part.count(),
            runs: 1,
        },
        None => Pieces { pages: 0, runs: 0 },
    }
}

/// The pieces of runs in a chunk.
pub(crate) fn count_pieces(runs: &Runs, chunk: Chunk) -> Pieces
    ensures pages { result.pages ≡ pages_in runs.now chunk }
    ensures runs { result.runs ≡ part_count chunk runs.now }
    ensures few { result.runs ≤ result.pages }
    ensures most { result.pages ≤ 512 }
{
    let list = runs.list();
    if let [run] = list {
        return piece_of(*run, chunk);
    }
    let mut pieces = Pieces { pages: 0, runs: 0 };
    for run in list {
        let piece = piece_of(*run, chunk);
        pieces.pages += piece.pages;
        pieces.runs += piece.runs;
    }
    pieces
}

/// The same of runs that have a page, and all of theirs in the chunk: one run is not cut.
#[inline(always)]
pub(crate) fn pieces_within(runs: &Runs, chunk: Chunk) -> Pieces
    requires some { (n : ℕ) × (covers runs.now n ≡ true) }
    requires only { (n : ℕ) → covers runs.now n ≡ true → n / 512 ≡ chunk }
    ensures pages { result.pages ≡ pages_in runs.now chunk }
    ensures runs { result.runs ≡ part_count chunk runs.now }
    ensures few { result.runs ≤ result.pages }
    ensures most { result.pages ≤ 512 }
    ensures some { 0 < result.pages }
{
    if let [run] = runs.list() {
        return Pieces {
            pages: run.count(),
            runs: 1,
        };
    }
    count_pieces(runs, chunk)
}

/// The pages from the first of the first run to the last of the last one.
pub(crate) fn bounds(runs: &Runs) -> Span
    ensures ordered { result.first ≤ result.end }
    ensures most { result.end ≤ 2 ^ 27 }
    ensures within { lie_within result.first result.end runs.now ≡ true }
    ensures normal { are_normal runs.now ≡ true }
    ensures few { length runs.now ≤ result.end + 1 }
{
    match runs.list().first() {
        Some(first) => Span {
            first: first.first().number(),
            end: end_of_last(runs),
        },
        None => Span { first: 0, end: 0 },
    }
}

/// The number of the page after the last of the runs; 0 where there is none.
pub(crate) fn end_of_last(runs: &Runs) -> u32
    ensures same { result ≡ end_from 0 runs.now }
    ensures most { result ≤ 2 ^ 27 }
{
    match runs.list().last() {
        Some(last) => last.end(),
        None => 0,
    }
}

/// The gigabytes from the first that the runs touch to the last.
pub(crate) fn gigabyte_span(runs: &Runs) -> Span
    ensures ordered { result.first ≤ result.end }
    ensures most { result.end ≤ 512 }
    ensures within { (n : ℕ) → covers runs.now n ≡ true
        → (result.first ≤ n / 512 / 512) × (n / 512 / 512 < result.end) }
{
    let pages = bounds(runs);
    Span {
        first: pages.first / GIGABYTE_PAGES,
        end: (pages.end + GIGABYTE_PAGES - 1) / GIGABYTE_PAGES,
    }
}

/// The chunks of a gigabyte, counted from its first, from the first that the runs touch to the
/// last.
pub(crate) fn chunk_span(runs: &Runs, gigabyte: Gigabyte) -> Span
    ensures ordered { result.first ≤ result.end }
    ensures most { result.end ≤ 512 }
    ensures within { (x : ℕ) → x < 512 → touches_chunk (512 * gigabyte + x) runs.now ≡ true
        → (result.first ≤ x) × (x < result.end) }
    ensures in_range { gigabyte < 512 }
{
    let pages = bounds(runs);
    let chunks = gigabyte.chunks();
    let first = (pages.first / CHUNK_PAGES)
        .max(chunks.first)
        .min(chunks.end);
    let end = ((pages.end + CHUNK_PAGES - 1) / CHUNK_PAGES)
        .max(chunks.first)
        .min(chunks.end);
    Span {
        first: first - chunks.first,
        end: end - chunks.first,
    }
}

/// The first chunk of a gigabyte from this one on, counted from its first, that is not known to be filled by the first of the runs.
fn first_unfilled(runs: &Runs, gigabyte: Gigabyte, index: u32) -> u32
    requires { index < 512 }
    ensures from { index ≤ result }
    ensures most { result ≤ 512 }
    ensures filled { (x : ℕ) → index ≤ x → x < result
        → covers_chunk (512 * gigabyte + x) runs.now ≡ true }
{
    let next = gigabyte.chunk(index).first().number();
    match runs.list().first() {
        Some(run) if run.first().number() <= next && next + CHUNK_PAGES <= run.end() => {
            whole_chunks(run.end().min(gigabyte.end())) - gigabyte.chunks().first
        }
        _ => index,
    }
}

/// What comes next of a gigabyte, upward: a chunk that runs may have pages of, and chunks from it on that one run fills.
#[derive(Drop)]
pub(crate) struct Piece<'a> {
    /// The chunk, counted from the gigabyte's first.
    pub(crate) first: u32,
    /// The chunk after the last of those that are filled; none is, where it is not behind the first.
    pub(crate) filled: u32,
    /// The runs that end behind its first page.
    pub(crate) runs: Runs<'a>,
}

/// The first piece of a gigabyte from one of its chunks on. Chunks of which no run has a page are passed over without a look
/// at each.
#[inline(always)]
pub(crate) fn next_piece<'a>(runs: &Runs<'a>, gigabyte: Gigabyte, index: u32) -> Option<Piece<'a>>
    ensures some { IfSome result (IsNextPiece gigabyte index runs.now) }
    ensures none { result ≡ None → (x : ℕ) → index ≤ x → x < 512
        → touches_chunk (512 * gigabyte + x) runs.now ≡ false }
    ensures in_range { gigabyte < 512 }
{
    if index >= TABLE_WORDS {
        return None;
    }
    let start = gigabyte.chunk(index).first().number();
    let rest = runs_past(runs, start);
    let pages = bounds(&rest);
    if pages.first >= pages.end {
        return None;
    }
    let chunk = Chunk::of(Page::new(pages.first.max(start)));
    if !gigabyte.has(chunk) {
        return None;
    }
    let first = chunk.index();
    let rest = runs_on(&rest, chunk.first().number());
    Some(Piece {
        first,
        filled: first_unfilled(&rest, gigabyte, first),
        runs: rest,
    })
}
