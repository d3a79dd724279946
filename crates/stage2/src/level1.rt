//! Level 1: the word of a gigabyte, and its level 2 table.

ghost use Rattle.base.specs.Pages.{PageRun, covers};
ghost use Rattle.pool.specs.Pool.{pages_of};
ghost use Rattle.stage2.specs.inner.Clauses.{second_at, CanUnlink, Unlinks, UnlinksInStep, CanEditGigabyte, IsGigabyteEdited, CanEditRow, IsRowEdited};
ghost use Rattle.stage2.specs.inner.Gigabytes.{Touches, LieInGigabyte};
ghost use Rattle.stage2.specs.Orderly.{IsCanonical};
ghost use Rattle.stage2.specs.Parts.{gigabyte_runs};
ghost use Rattle.stage2.specs.Slot.{Layout};
ghost use Rattle.std.specs.Prelude.{◌≡◌, ℕ, ◌+◌, ◌<◌, ◌≤◌, List, length, true, false, Some, None, is_some, IfSome};

use crate::layout::Layout;
use crate::level2::{edit_chunks, table_of};
use crate::memory::{give_page, is_empty, put_word, take_page};
use crate::parts::{end_of_last, gigabyte_runs, gigabyte_span};
use crate::place::Gigabyte;
use crate::read::read_slot;
use crate::site::RowEdit;
use crate::table_page::{Level, Row, TablePage};
use base::{PartitionId, Runs};
use pool::TableMem;
use words::table_word;

/// The level 2 table of a gigabyte, if one hangs there.
#[tactic(auto, unfolding(crate::specs::Walk::table_at))]
pub(crate) fn find_table<M: TableMem>(
    memory: &M,
    layout: &Layout,
    row: Row,
    gigabyte: Gigabyte,
) -> Option<TablePage>
    requires canonical { IsCanonical layout.now (pages_of (M.state memory.now).memory) }
    requires row { row < length layout.now.ids }
    ensures { result ≡ second_at layout.now row gigabyte (M.state memory.now) }
{
    let root = row.root();
    table_of(&read_slot(memory, layout, Level::First, root, gigabyte.index()))
}

/// Takes the link of an empty level 2 table away, and gives the table back.
#[inline(always)]
fn unlink<M: TableMem>(
    memory: &mut M,
    p: PartitionId,
    row: Row,
    gigabyte: Gigabyte,
    second: TablePage,
)
    requires can { CanUnlink p row second (M.state memory.old) }
    requires room { 2 ≤ M.room memory.old }
    ensures pages { Unlinks row gigabyte second (M.state memory.old) (M.state memory.new) }
    ensures in_step { UnlinksInStep p row gigabyte (M.state memory.old) (M.state memory.new) }
    ensures room { M.room memory.old ≤ M.room memory.new + 2 }
{
    put_word(memory, row.root(), gigabyte.index(), 0);
    memory.invalidate(p, gigabyte.pages());
    give_page(memory, row, second);
}

/// Edits the pages of runs in a gigabyte: they are reached with this access, or not at all. A level 2 table that is taken is linked after
/// its last chunk, and one that becomes empty is given back.
#[inline(always)]
fn edit_gigabyte<M: TableMem>(memory: &mut M, edit: &RowEdit, gigabyte: Gigabyte, runs: &Runs)
    requires { CanEditGigabyte edit.now gigabyte runs.now (M.state memory.old) (M.room memory.old) }
    ensures { IsGigabyteEdited edit.now gigabyte runs.now
        (M.state memory.old) (M.room memory.old) (M.state memory.new) (M.room memory.new) }
{
    let found = find_table(memory, edit.layout, edit.row, gigabyte);
    let second = match found {
        Some(second) => second,
        None => {
            if edit.access.is_none() {
                return;
            }
            take_page(memory, edit.row)
        }
    };
    edit_chunks(memory, edit, second, gigabyte, runs);
    if found.is_none() {
        let link = table_word(edit.layout.address(second));
        put_word(memory, edit.row.root(), gigabyte.index(), link);
    } else if is_empty(memory, second) {
        unlink(memory, edit.p, edit.row, gigabyte, second);
    }
}

/// Whether there is a page in these runs, those of some that have one in a gigabyte.
pub(crate) fn touches(part: &Runs) -> bool
    ensures yes { result ≡ true → (gigabyte : ℕ) (runs : List PageRun) → part.now ≡ gigabyte_runs gigabyte runs
        → Touches part.now gigabyte }
    ensures no { result ≡ false → (n : ℕ) → covers part.now n ≡ false }
{
    match part.list().first() {
        Some(run) => run.count() > 0,
        None => false,
    }
}

/// The gigabyte that has all pages of the runs, if there is such a one.
#[inline(always)]
pub(crate) fn only_gigabyte(runs: &Runs) -> Option<Gigabyte>
    ensures { IfSome result (LieInGigabyte runs.now) }
{
    let run = runs.list().first()?;
    let gigabyte = Gigabyte::of(run.first());
    if end_of_last(runs) <= gigabyte.end() {
        Some(gigabyte)
    } else {
        None
    }
}

/// Edits the pages of runs gigabyte by gigabyte: they are reached with this access, or not at all.
#[inline(never)]
fn edit_each_gigabyte<M: TableMem>(memory: &mut M, edit: &RowEdit, runs: &Runs)
    requires { CanEditRow edit.now runs.now (M.state memory.old) (M.room memory.old) }
    ensures { IsRowEdited edit.now runs.now
        (M.state memory.old) (M.room memory.old) (M.state memory.new) (M.room memory.new) }
{
    let span = gigabyte_span(runs);
    for number in span.first..span.end {
        let gigabyte = Gigabyte::new(number);
        let part = gigabyte_runs(runs, gigabyte);
        if touches(&part) {
            edit_gigabyte(memory, edit, gigabyte, &part);
        }
    }
}

/// Edits the pages of runs: they are reached with this access, or not at all. Mostly one gigabyte has them all.
pub(crate) fn edit_row<M: TableMem>(memory: &mut M, edit: &RowEdit, runs: &Runs)
    requires { CanEditRow edit.now runs.now (M.state memory.old) (M.room memory.old) }
    ensures { IsRowEdited edit.now runs.now
        (M.state memory.old) (M.room memory.old) (M.state memory.new) (M.room memory.new) }
{
    match only_gigabyte(runs) {
        Some(gigabyte) => edit_gigabyte(memory, edit, gigabyte, runs),
        None => edit_each_gigabyte(memory, edit, runs),
    }
}
