//! What the functions of an edit are told.

ghost use Rattle.base.specs.Manifest.{row_of};
ghost use Rattle.base.specs.Pages.{are_normal, covers};
ghost use Rattle.stage2.specs.Edits.{touches_chunk};
ghost use Rattle.stage2.specs.Parts.{chunk_runs, part_count, runs_past};
ghost use Rattle.stage2.specs.Room.{pages_in};
ghost use Rattle.std.specs.Prelude.{◌≡◌, ◌≢◌, ℕ, ◌*◌, ◌/◌, ◌<◌, ◌≤◌, true, false, Some, None, length, IfSome};

use crate::layout::Layout;
use crate::parts::{Pieces, bounds, chunk_runs, count_pieces, pieces_within};
use crate::place::Chunk;
use crate::table_page::{Row, TablePage};
use base::{Access, Page, PartitionId, Runs};

/// The edit of a partition's pages: those that are edited are reached with this access, or not at all.
#[derive(Drop)]
pub(crate) struct RowEdit<'a> {
    pub(crate) layout: &'a Layout,
    pub(crate) p: PartitionId,
    pub(crate) row: Row,
    pub(crate) access: Option<Access>,
    /// Whether each page is turned: it is to be reached exactly where it is not.
    pub(crate) turns: bool,
    pub(crate) ghost own: { row_of layout.now.ids p ≡ row },
    pub(crate) ghost inside: { row < length layout.now.ids },
}

/// The same of one chunk, by runs that have pages there, and how many they have.
#[derive(Drop)]
pub(crate) struct ChunkEdit<'a, 'b> {
    pub(crate) layout: &'a Layout,
    pub(crate) chunk: Chunk,
    pub(crate) runs: Runs<'b>,
    pub(crate) pieces: Pieces,
    pub(crate) access: Option<Access>,
    pub(crate) turns: bool,
    pub(crate) ghost normal: { are_normal runs ≡ true },
    pub(crate) ghost pages: { pieces.pages ≡ pages_in runs chunk },
    pub(crate) ghost count: { pieces.runs ≡ part_count chunk runs },
    pub(crate) ghost few: { pieces.runs ≤ pieces.pages },
    pub(crate) ghost most: { pieces.pages ≤ 512 },
    pub(crate) ghost touched: { 0 < pieces.pages },
}

impl<'a, 'b> ChunkEdit<'a, 'b> {
    /// The edit of a chunk by those of the runs that have pages there, if some have. No run ends before the chunk.
    #[inline(always)]
    pub(crate) fn new(
        layout: &'a Layout,
        runs: &Runs<'b>,
        chunk: Chunk,
        access: &Option<Access>,
        turns: bool,
    ) -> Option<Self>
        requires past { runs_past (512 * chunk) runs.now ≡ runs.now }
        ensures some { IfSome result (λ edit. (edit.layout.now ≡ layout.now) × (edit.chunk ≡ chunk)
            × (edit.runs ≡ chunk_runs chunk runs.now) × (edit.access ≡ access.now) × (edit.turns ≡ turns)) }
        ensures none { result ≡ None → touches_chunk chunk runs.now ≡ false }
    {
        Self::of_own(layout, &chunk_runs(runs, chunk), chunk, access, turns)
    }

    /// The edit of the chunk that has all pages of the runs, if there is such a one. They have a page.
    #[inline(always)]
    pub(crate) fn alone(
        layout: &'a Layout,
        runs: &Runs<'b>,
        access: &Option<Access>,
        turns: bool,
    ) -> Option<Self>
        requires { (n : ℕ) × (covers runs.now n ≡ true) }
        ensures some { IfSome result (λ edit. (edit.layout.now ≡ layout.now)
            × (edit.runs ≡ runs.now) × (edit.access ≡ access.now) × (edit.turns ≡ turns)
            × ((n : ℕ) → covers runs.now n ≡ true → n / 512 ≡ edit.chunk)
            × ((c : ℕ) → c ≢ edit.chunk → touches_chunk c runs.now ≡ false)) }
    {
        let pages = bounds(runs);
        let chunk = Chunk::of(Page::new(pages.first));
        if chunk.end() < pages.end {
            return None;
        }
        Some(ChunkEdit {
            layout,
            chunk,
            runs: runs.again(),
            pieces: pieces_within(runs, chunk),
            access: *access,
            turns,
        })
    }

    /// The edit of a chunk by these runs, if they have pages there.
    #[inline(always)]
    fn of_own(
        layout: &'a Layout,
        runs: &Runs<'b>,
        chunk: Chunk,
        access: &Option<Access>,
        turns: bool,
    ) -> Option<Self>
        ensures some { IfSome result (λ edit. (edit.layout.now ≡ layout.now) × (edit.chunk ≡ chunk)
            × (edit.runs ≡ runs.now) × (edit.access ≡ access.now) × (edit.turns ≡ turns)) }
        ensures none { result ≡ None → touches_chunk chunk runs.now ≡ false }
    {
        let pieces = count_pieces(runs, chunk);
        if pieces.pages == 0 {
            return None;
        }
        Some(ChunkEdit {
            layout,
            chunk,
            runs: runs.again(),
            pieces,
            access: *access,
            turns,
        })
    }
}

/// Where a chunk's word stands: in the level 2 table of its gigabyte, which is this page, of a partition.
#[derive(Clone, Copy)]
pub(crate) struct Site {
    pub(crate) p: PartitionId,
    pub(crate) row: Row,
    pub(crate) second: TablePage,
}

/// The edit of a partition's pages that is planned, which may have no root.
#[derive(Drop)]
pub(crate) struct RowPlan<'a> {
    pub(crate) layout: &'a Layout,
    pub(crate) row: Option<Row>,
    pub(crate) access: Option<Access>,
    pub(crate) turns: bool,
    /// Whether words of tables may be looked at, to tell which of them stay: else those count that need more.
    pub(crate) looks: bool,
    pub(crate) ghost inside: { (r : ℕ) → row ≡ Some r → r < length layout.now.ids },
}
