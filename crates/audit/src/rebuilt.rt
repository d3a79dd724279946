//! Tables that are made again from the manifest, what donations have left and the live transactions.

ghost use Rattle.std.specs.Prelude.{◌≡◌, IfOk};
ghost use Rattle.base.specs.Ledger as rules;
ghost use Rattle.stage2.specs.Slot.{layout_of};
ghost use Rattle.stage2.specs.Tables.{AllWalksAre, AreCanonical};
ghost use Rattle.audit.specs.Laws.{AreOfReached};

use crate::lists::Lists;
use base::OutOfMemory;
use ledger::{Donation, Live};
use manifest::Manifest;
use pool::TableMem;
use stage2::Tables;
use std::alloc::Global;

/// Tables that give each partition what the manifest, what donations have left and the live transactions
/// say, in table memory of any kind. These are the lists of a state that some list of calls leads to.
pub fn rebuild<M: TableMem + Drop>(
    alloc: Global,
    manifest: &Manifest,
    donations: &[Donation],
    live: &[Live],
) -> Result<Tables<M>, OutOfMemory>
    requires reached { AreOfReached manifest.now donations.now live.now }
    ensures layout { IfOk result (λ t. t.layout ≡ layout_of manifest.now) }
    ensures agrees { IfOk result
        (λ t. AllWalksAre t.layout (rules.view manifest.now donations.now live.now) t.pool) }
    ensures canonical { IfOk result (λ t. AreCanonical t) }
{
    let lists = Lists::new(alloc, manifest, donations, live)?;
    Tables::filled(alloc, manifest, &lists)
}
