//! Tables that are filled: at boot with what the manifest grants, and with what a state says where they are made again.
//!
//! Of each partition the pages that it reaches alike are mapped upward, run by run. So a chunk that they fill is a block and
//! never a table on the way, each table is one that the views need in the end, and no quota is passed.

ghost use Rattle.base.specs.Manifest.{row_of};
ghost use Rattle.base.specs.Need.{need};
ghost use Rattle.manifest.specs.Valid.{is_valid, quota_of};
ghost use Rattle.pool.specs.Pool.{row_quota};
ghost use Rattle.stage2.specs.inner.Filling.{CanMap, KeepsOthers, IsFilled, pending_runs};
ghost use Rattle.stage2.specs.Slot.{layout_of};
ghost use Rattle.stage2.specs.Tables.{walk_in, AreCanonical, AllWalksAre, ReachSo};
ghost use Rattle.stage2.specs.declared.walked.Walked.TheVariants.{None as Unmapped};
ghost use Rattle.std.specs.Prelude.{◌≡◌, [], ℕ, ◌<◌, ◌≤◌, ◌^◌, Some, IfOk, OnOk, IsTrue};

use crate::tables::Tables;
use crate::views::Views;
use base::{Access, OutOfMemory, Page, PartitionId, Run, Runs, Segment};
use manifest::Manifest;
use pool::TableMem;
use std::alloc::Global;

impl<M: TableMem + Drop> Tables<M> {
    /// Tables that map what partitions reach, each page to itself. The list of operations is empty, and has no
    /// memory.
    ///
    /// A level 2 table is taken before the level 3 tables of its chunks, gigabyte by gigabyte and partition by
    /// partition upward.
    pub fn filled<V: Views>(
        alloc: Global,
        manifest: &Manifest,
        views: &V,
    ) -> Result<Self, OutOfMemory>
        requires fits { IsTrue (is_valid manifest.now) → (p : ℕ) → need (V.view views.now p) ≤ quota_of manifest.now p }
        ensures layout { IfOk result (λ t. t.layout ≡ layout_of manifest.now) }
        ensures agrees { IfOk result (λ t. AllWalksAre t.layout (V.view views.now) t.pool) }
        ensures operations { IfOk result (λ t. t.pool.operations ≡ []) }
        ensures canonical { IfOk result (λ t. AreCanonical t) }
    {
        let mut tables = Self::empty(alloc, manifest)?;
        for partition in manifest.partitions() {
            tables.fill(partition.id, views)?;
        }
        tables.give_list_back();
        Ok(tables)
    }

    /// Maps what a partition reaches, of which nothing is mapped.
    fn fill<V: Views>(&mut self, p: PartitionId, views: &V) -> Result<(), OutOfMemory>
        requires fits { need (V.view views.now p) ≤ row_quota self.old.layout.quotas (row_of self.old.layout.ids p) }
        requires canonical { AreCanonical self.old }
        requires unmapped { (n : ℕ) → n < 2 ^ 27 → walk_in self.old p n ≡ Unmapped }
        ensures layout { OnOk result (self.new.layout ≡ self.old.layout) }
        ensures canonical { OnOk result (AreCanonical self.new) }
        ensures others { OnOk result (KeepsOthers p self.old self.new) }
        ensures walks { OnOk result (IsFilled (V.view views.now p) p self.new) }
    {
        let mut first = 0;
        let mut access = None;
        let mut number = 0;
        while number < Page::COUNT {
            let page = Page::new(number);
            let Segment { value: next, end } = views.view_from(p, page);
            if access != next {
                self.map_pending(p, first, number, access)?;
                first = number;
                access = next;
            }
            number = end;
        }
        self.map_pending(p, first, number, access)
    }

    /// Maps the pages from one up to another, where they are reached.
    fn map_pending(
        &mut self,
        p: PartitionId,
        first: u32,
        end: u32,
        access: Option<Access>,
    ) -> Result<(), OutOfMemory>
        requires canonical { AreCanonical self.old }
        requires fits { (a : Access) → access ≡ Some a → CanMap p first end a self.old }
        ensures layout { OnOk result (self.new.layout ≡ self.old.layout) }
        ensures canonical { OnOk result (AreCanonical self.new) }
        ensures walks { OnOk result (ReachSo p (pending_runs first end access) access self.old self.new) }
    {
        if let Some(access) = access {
            let run = [Run::new(Page::new(first), end - first)];
            let runs = Runs::of(&run);
            self.ready_to_turn(p, &runs, Some(access), 0)?;
            self.turn(p, &runs, Some(access));
            self.begin();
        }
        Ok(())
    }
}
