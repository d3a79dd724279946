//! Makes the change of a call: the one place where tables and state change.

ghost use Rattle.std.specs.Prelude.{◌≡◌, ◌+◌, ◌≤◌, length, true, Some, None, IfOk, OnOk, OnErr};
ghost use Rattle.base.specs.Manifest.{ManifestRows, is_partition};
ghost use Rattle.base.specs.Pages.{are_normal};
ghost use Rattle.stage2.specs.Slot.{layout_of};
ghost use Rattle.stage2.specs.Tables.{AreTurnedFor, Fits, ReachSo, edit_operations, has_root};
ghost use Rattle.pool.specs.Pool.{all_lie_in};
ghost use Rattle.spm.specs.Clearing.{clears_of, AreRowsOfPartitions, ClearsInCall, ShowsOne};
ghost use Rattle.spm.specs.Granted.{replied, updated, CanUpdate, needs_room, AreOrderly, IsOrderly, wants_memory};
ghost use Rattle.spm.specs.Machine.{AreEditedBy, AreTurnedIn, ShowsEdit, fits_in};

use crate::calls::{buffers, reclaim, relinquish, retrieve, send, version};
use crate::change::{Change, Edit, Update};
use crate::spare::Spare;
use crate::state::State;
use base::{OutOfMemory, PartitionId, Runs};
use pool::TableMem;
use stage2::Tables;
use wire::Reply;

/// Whether the tables of an edit by partition `p` fit its quota: the tables that it has, and those that
/// the edit takes.
pub(crate) fn fits<M: TableMem + Drop>(
    tables: &Tables<M>,
    p: PartitionId,
    edit: &Option<Edit>,
) -> bool
    requires orderly { AreOrderly p edit.now }
    ensures { (m : ManifestRows) → tables.now.layout ≡ layout_of m → result ≡ fits_in m tables.now edit.now }
{
    match edit {
        Some(edit) => tables.fits(p, &Runs::of(&edit.runs), edit.to),
        None => true,
    }
}

/// Makes the change of a call of partition `p`, whose edit fits. It first takes the memory that is still
/// needed: where a growth of the heap is refused, the state and the tables are as before.
pub(crate) fn commit<M: TableMem + Drop>(
    state: &mut State,
    tables: &mut Tables<M>,
    spare: &mut Spare,
    p: PartitionId,
    change: Change,
) -> Result<Reply, OutOfMemory>
    requires layout { tables.old.layout ≡ layout_of state.old.manifest }
    requires rows { AreRowsOfPartitions tables.old.layout.ids }
    requires known { is_partition state.old.manifest p ≡ true }
    requires can { CanUpdate state.old p change.update }
    requires orderly { AreOrderly p change.edit }
    requires turned { AreTurnedIn tables.old change.edit }
    requires fits { fits_in state.old.manifest tables.old change.edit ≡ true }
    ensures reply { IfOk result (λ reply. reply ≡ replied change.answer) }
    ensures state { OnOk result (state.new ≡ updated state.old p change.update) }
    ensures layout { tables.new.layout ≡ tables.old.layout }
    ensures edited { OnOk result (AreEditedBy change.edit tables.old tables.new) }
    ensures shown { OnOk result (ShowsEdit change.edit tables.old tables.new) }
    ensures moves_no_page { change.edit ≡ None → tables.new.pool ≡ tables.old.pool }
    ensures err_state { OnErr result (state.new ≡ state.old) }
    ensures err_pool { OnErr result (tables.new.pool ≡ tables.old.pool) }
    ensures memory { OnErr result (wants_memory change ≡ true) }
{
    let Change {
        edit,
        update,
        answer,
    } = change;
    match edit {
        Some(edit) => {
            let clears = clear_count(&edit);
            tables.ready_to_turn(edit.who, &Runs::of(&edit.runs), edit.to, clears)?;
            apply(state, spare, p, update)?;
            edit_tables(tables, &edit);
            spare.runs = edit.runs;
        }
        None => apply(state, spare, p, update)?,
    }
    Ok(answer.into_reply())
}

/// How many runs an edit clears.
fn clear_count(edit: &Edit) -> usize
    ensures same { result ≡ length (clears_of edit.now) }
    ensures most { result ≤ length edit.now.runs }
{
    if !edit.clears {
        return 0;
    }
    edit.runs.len()
}

/// Edits the tables as the edit says, and clears its pages where it orders that: before they are
/// mapped, or when they are unmapped. There is room for the operations.
fn edit_tables<M: TableMem + Drop>(tables: &mut Tables<M>, edit: &Edit)
    requires root { has_root tables.old edit.now.who ≡ true }
    requires rows { AreRowsOfPartitions tables.old.layout.ids }
    requires normal { are_normal edit.now.runs ≡ true }
    requires turned { AreTurnedFor edit.now.who edit.now.runs edit.now.to tables.old }
    requires fits { Fits edit.now.who edit.now.runs edit.now.to tables.old }
    requires ready { edit_operations edit.now.who edit.now.runs edit.now.to tables.old
        + length (clears_of edit.now) ≤ tables.old.room }
    ensures layout { tables.new.layout ≡ tables.old.layout }
    ensures walks { ReachSo edit.now.who edit.now.runs edit.now.to tables.old tables.new }
    ensures shown { ShowsOne edit.now tables.old tables.new }
{
    let runs = Runs::of(&edit.runs);
    match edit.to {
        Some(access) => {
            clear_pages(tables, edit);
            tables.turn(edit.who, &runs, Some(access));
        }
        None => {
            tables.turn(edit.who, &runs, None);
            clear_pages(tables, edit);
        }
    }
}

/// Clears the pages of an edit that orders it, run by run upward.
fn clear_pages<M: TableMem + Drop>(tables: &mut Tables<M>, edit: &Edit)
    requires ready { length (clears_of edit.now) ≤ tables.old.room }
    ensures layout { tables.new.layout ≡ tables.old.layout }
    ensures memory { tables.new.pool.memory ≡ tables.old.pool.memory }
    ensures room { tables.old.room ≤ tables.new.room + length (clears_of edit.now) }
    ensures listed { all_lie_in tables.old.pool ≡ true → all_lie_in tables.new.pool ≡ true }
    ensures in_step { ClearsInCall edit.now tables.old tables.new }
{
    if edit.clears {
        clear_runs(tables, edit);
    }
}

/// Clears the pages of its runs.
fn clear_runs<M: TableMem + Drop>(tables: &mut Tables<M>, edit: &Edit)
    requires clears { edit.now.clears ≡ true }
    requires ready { length edit.now.runs ≤ tables.old.room }
    ensures layout { tables.new.layout ≡ tables.old.layout }
    ensures memory { tables.new.pool.memory ≡ tables.old.pool.memory }
    ensures room { tables.old.room ≤ tables.new.room + length edit.now.runs }
    ensures listed { all_lie_in tables.old.pool ≡ true → all_lie_in tables.new.pool ≡ true }
    ensures in_step { ClearsInCall edit.now tables.old tables.new }
{
    for run in &edit.runs {
        tables.clear(*run);
    }
}

/// Changes the state. Opening and retrieving a transaction take memory.
#[inline(always)]
fn apply(
    state: &mut State,
    spare: &mut Spare,
    p: PartitionId,
    update: Update,
) -> Result<(), OutOfMemory>
    requires { CanUpdate state.old p update }
    ensures ok { OnOk result (state.new ≡ updated state.old p update) }
    ensures err { OnErr result (state.new ≡ state.old) }
    ensures memory { OnErr result (needs_room update ≡ true) }
{
    match update {
        Update::Nothing => {}
        Update::SetVersion(word) => version::set_version(state, p, word),
        Update::MapBuffers(pair) => buffers::register(state, p, pair),
        Update::UnmapBuffers => buffers::unregister(state, p),
        Update::ReleaseRx => buffers::take_rx_back(state, p),
        Update::Open(transaction) => send::open(state, transaction)?,
        Update::Close(handle) => reclaim::close(state, spare, handle),
        Update::Retrieve(handle, access) => retrieve::complete(state, p, handle, access)?,
        Update::Relinquish(handle) => relinquish::give_up(state, p, handle),
    }
    Ok(())
}
