//! The translation tables: their words, where they lie, and what the last call did to them.

ghost use Rattle.std.specs.Prelude.{◌≡◌, ◌≤◌, ◌<◌, ◌*◌, ◌==◌, ◌⊎◌, ◌≢◌, Some, None, false, length, reverse, position, slice_get, IfSome, IfNone, IsSome};
ghost use Rattle.base.specs.Manifest as rows;
ghost use Rattle.pool.specs.Pool.{words_of};
ghost use Rattle.ffaspm_c.specs.Answers as answers;
ghost use Rattle.ffaspm_c.specs.Tables.{pool_pages, operation_out, IsOperationAt, IsRoot};

use crate::holder::Holder;
use crate::status::{DONE, NOT_MADE, NOTHING_THERE};
use base::PartitionId;
use base::limits::{PAGE_SIZE, TABLE_WORDS};
use manifest::Manifest;
use pool::{Op, row_in};
use std::alloc::Global;

/// One thing that the last call did (Arm ARM, "Break-before-make sequence"). Fields that an operation
/// does not have are 0.
#[repr(C)]
#[derive(Clone, Copy)]
pub struct OperationOut {
    /// Of an invalidation and a clear: where their first page begins, in bytes.
    pub address: u64,
    /// Of a write: the word.
    pub word: u64,
    /// 0: a word is written; 1: pages of a partition are invalidated; 2: pages are cleared.
    pub kind: u32,
    /// Of a write: the page of the table pool, from 0 on.
    pub page: u32,
    /// Of a write: the index in that page, 0 to 511.
    pub index: u32,
    /// Of an invalidation and a clear: how many pages of 4 KB.
    pub count: u32,
    /// Of an invalidation: whose translations.
    pub partition: u16,
}

fn operation_out(op: Op) -> OperationOut
    ensures { result ≡ operation_out op }
{
    match op {
        Op::Set { page, index, word } => OperationOut {
            address: 0,
            word,
            kind: 0,
            page,
            index,
            count: 0,
            partition: 0,
        },
        Op::Invalidate { who, run } => OperationOut {
            address: PAGE_SIZE * u64::from(run.first().number()),
            word: 0,
            kind: 1,
            page: 0,
            index: 0,
            count: run.count(),
            partition: who.number(),
        },
        Op::Clear { run } => OperationOut {
            address: PAGE_SIZE * u64::from(run.first().number()),
            word: 0,
            kind: 2,
            page: 0,
            index: 0,
            count: run.count(),
            partition: 0,
        },
    }
}

/// The operation of the last call at an index from 0 on, in the order in which they were made. It is
/// `NOTHING_THERE` where the call made no more; boot and a refused call leave none.
#[unsafe(no_mangle)]
pub extern "C" fn ffaspm_operation(
    alloc: Global,
    holder: &mut Holder,
    index: usize,
    operation: &mut OperationOut,
) -> u32
    ensures operation { result ≡ answers.done → IfSome holder.old.kept.manager (λ m.
        IsOperationAt (reverse m.pool.operations) index operation.new) }
    ensures nothing { result ≡ answers.nothing_there → IfSome holder.old.kept.manager (λ m.
        length m.pool.operations ≤ index) }
    ensures not_made { result ≡ answers.not_made → holder.old.kept.manager ≡ None }
    ensures some { result ≡ answers.done → IsSome holder.old.kept.manager }
    ensures untouched { result ≢ answers.done → operation.new ≡ operation.old }
    ensures same { holder.new.kept.manager ≡ holder.old.kept.manager }
    ensures status { answers.IsLookStatus result }
{
    let Some(spm) = holder.take(alloc) else {
        return NOT_MADE;
    };
    let found = match spm.last_ops().get(index) {
        Some(op) => Some(*op),
        None => None,
    };
    holder.put(spm);
    match found {
        Some(op) => {
            *operation = operation_out(op);
            DONE
        }
        None => NOTHING_THERE,
    }
}

/// Where the table pool of the manifest begins, in bytes, and how many pages of 4 KB it has: the roots
/// of the partitions, in ascending order of identifier, and their shares.
#[unsafe(no_mangle)]
pub extern "C" fn ffaspm_pool(
    alloc: Global,
    holder: &mut Holder,
    address: &mut u64,
    pages: &mut u32,
) -> u32
    ensures address { result ≡ answers.done → IfSome holder.old.kept.manager (λ m.
        address.new ≡ 4096 * m.state.manifest.pool) }
    ensures pages { result ≡ answers.done → IfSome holder.old.kept.manager (λ m.
        pages.new ≡ pool_pages m.state.manifest) }
    ensures not_made { result ≡ answers.not_made → holder.old.kept.manager ≡ None }
    ensures some { result ≡ answers.done → IsSome holder.old.kept.manager }
    ensures untouched_address { result ≢ answers.done → address.new ≡ address.old }
    ensures untouched_pages { result ≢ answers.done → pages.new ≡ pages.old }
    ensures same { holder.new.kept.manager ≡ holder.old.kept.manager }
    ensures status { (result ≡ answers.done) ⊎ (result ≡ answers.not_made) }
{
    let Some(spm) = holder.take(alloc) else {
        return NOT_MADE;
    };
    *address = PAGE_SIZE * u64::from(spm.manifest().pool().number());
    *pages = spm.manifest().table_pages();
    holder.put(spm);
    DONE
}

/// The page of the pool where a partition's root lies: as many partitions have a lower identifier.
fn root_of(manifest: &Manifest, p: PartitionId) -> Option<u32>
    ensures some { IfSome result (IsRoot manifest.now p) }
    ensures none { IfNone result (rows.is_partition manifest.now p ≡ false) }
{
    match row_in(manifest.partitions(), p) {
        Some(row) => Some(row as u32),
        None => None,
    }
}

/// The page of the table pool where the root of a partition's tables lies, which its VTTBR names.
/// `NOTHING_THERE` for a partition that the manifest does not have.
#[unsafe(no_mangle)]
pub extern "C" fn ffaspm_root(
    alloc: Global,
    holder: &mut Holder,
    partition: u16,
    page: &mut u32,
) -> u32
    ensures root { result ≡ answers.done → IfSome holder.old.kept.manager (λ m.
        IsRoot m.state.manifest partition page.new) }
    ensures nothing { result ≡ answers.nothing_there → IfSome holder.old.kept.manager (λ m.
        rows.is_partition m.state.manifest partition ≡ false) }
    ensures not_made { result ≡ answers.not_made → holder.old.kept.manager ≡ None }
    ensures some { result ≡ answers.done → IsSome holder.old.kept.manager }
    ensures untouched { result ≢ answers.done → page.new ≡ page.old }
    ensures same { holder.new.kept.manager ≡ holder.old.kept.manager }
    ensures status { answers.IsLookStatus result }
{
    let Some(spm) = holder.take(alloc) else {
        return NOT_MADE;
    };
    let found = root_of(spm.manifest(), PartitionId::new(partition));
    holder.put(spm);
    match found {
        Some(row) => {
            *page = row;
            DONE
        }
        None => NOTHING_THERE,
    }
}

/// The word at an index (0 to 511) of a page of the table pool (from 0 on), as it is now.
/// `NOTHING_THERE` outside the pool.
#[unsafe(no_mangle)]
pub extern "C" fn ffaspm_word(
    alloc: Global,
    holder: &mut Holder,
    page: u32,
    index: u32,
    word: &mut u64,
) -> u32
    ensures word { result ≡ answers.done → IfSome holder.old.kept.manager (λ m.
        word.new ≡ words_of m.pool.memory.words page index) }
    ensures nothing { result ≡ answers.nothing_there → IfSome holder.old.kept.manager (λ m.
        (pool_pages m.state.manifest ≤ page) ⊎ (512 ≤ index)) }
    ensures not_made { result ≡ answers.not_made → holder.old.kept.manager ≡ None }
    ensures some { result ≡ answers.done → IsSome holder.old.kept.manager }
    ensures untouched { result ≢ answers.done → word.new ≡ word.old }
    ensures same { holder.new.kept.manager ≡ holder.old.kept.manager }
    ensures status { answers.IsLookStatus result }
{
    let Some(spm) = holder.take(alloc) else {
        return NOT_MADE;
    };
    let status = if page < spm.manifest().table_pages() && index < TABLE_WORDS {
        *word = spm.word(page, index);
        DONE
    } else {
        NOTHING_THERE
    };
    holder.put(spm);
    status
}
