//! What the manager knows: who reaches and who owns a page, a partition's version and its buffers.

ghost use Rattle.std.specs.Prelude.{◌≡◌, ◌≤◌, ◌^◌, ◌⊎◌, ◌≢◌, Some, None, IfSome, IsSome, IsNone};
ghost use Rattle.base.specs.Buffers.{pair_of};
ghost use Rattle.base.specs.State as state;
ghost use Rattle.stage2.specs.Walk.{walked};
ghost use Rattle.spm.specs.Machine.{translated};
ghost use Rattle.ffaspm_c.specs.Answers as answers;
ghost use Rattle.ffaspm_c.specs.Answers.{page_at, bits_of, version_word, IsPairOut};

use crate::holder::Holder;
use crate::status::{DONE, NOT_MADE, NOTHING_THERE};
use base::limits::PAGE_SIZE;
use base::{Access, MemoryKind, Page, PartitionId, Rights, Version};
use std::alloc::Global;

/// The buffers of a partition: where they begin, in bytes, and how many pages of 4 KB each has.
#[repr(C)]
#[derive(Clone, Copy)]
pub struct BuffersOut {
    pub tx_address: u64,
    pub rx_address: u64,
    pub tx_pages: u32,
    pub rx_pages: u32,
}

/// The page at an address below 2^39.
fn page_of(address: u64) -> Option<Page>
    ensures some { IfSome result (λ page. page ≡ page_at address) }
    ensures none { IsNone result → 2 ^ 27 ≤ page_at address }
{
    let number = address / PAGE_SIZE;
    if number < u64::from(Page::COUNT) {
        Some(Page::new(number as u32))
    } else {
        None
    }
}

/// Read 1, write 2, execute 4, device 8; 0 where the page is not reached.
fn bits(view: Option<Access>) -> u32
    ensures { result ≡ bits_of view }
{
    let Some(access) = view else {
        return 0;
    };
    let write = match access.rights() {
        Rights::Ro => 0,
        Rights::Rw => 2,
    };
    let execute = if access.is_executable() { 4 } else { 0 };
    let device = match access.kind() {
        MemoryKind::Normal => 0,
        MemoryKind::Device => 8,
    };
    1 + write + execute + device
}

/// What a partition reaches of the page at an address in bytes, by a walk of its tables: read 1,
/// write 2, execute 4, device 8, and 0 where it is not reached. `NOTHING_THERE` where the address is
/// 2^39 or more.
#[unsafe(no_mangle)]
pub extern "C" fn ffaspm_translate(
    alloc: Global,
    holder: &mut Holder,
    partition: u16,
    address: u64,
    access: &mut u32,
) -> u32
    ensures view { result ≡ answers.done → IfSome holder.old.kept.manager (λ m.
        access.new ≡ bits_of (state.sees m.state partition (page_at address))) }
    ensures walk { result ≡ answers.done → IfSome holder.old.kept.manager (λ m.
        translated m partition (page_at address)
        ≡ walked (page_at address) (state.sees m.state partition (page_at address))) }
    ensures nothing { result ≡ answers.nothing_there → 2 ^ 27 ≤ page_at address }
    ensures not_made { result ≡ answers.not_made → holder.old.kept.manager ≡ None }
    ensures some { result ≡ answers.done → IsSome holder.old.kept.manager }
    ensures untouched { result ≢ answers.done → access.new ≡ access.old }
    ensures same { holder.new.kept.manager ≡ holder.old.kept.manager }
    ensures status { answers.IsLookStatus result }
{
    let Some(spm) = holder.take(alloc) else {
        return NOT_MADE;
    };
    let status = match page_of(address) {
        Some(page) => {
            *access = bits(spm.translate(PartitionId::new(partition), page));
            DONE
        }
        None => NOTHING_THERE,
    };
    holder.put(spm);
    status
}

/// The partition that owns the page at an address in bytes. `NOTHING_THERE` where no partition does.
#[unsafe(no_mangle)]
pub extern "C" fn ffaspm_owner(
    alloc: Global,
    holder: &mut Holder,
    address: u64,
    owner: &mut u16,
) -> u32
    ensures owner { result ≡ answers.done → IfSome holder.old.kept.manager (λ m.
        state.owner_of m.state (page_at address) ≡ Some owner.new) }
    ensures nothing { result ≡ answers.nothing_there → IfSome holder.old.kept.manager (λ m.
        (2 ^ 27 ≤ page_at address) ⊎ (state.owner_of m.state (page_at address) ≡ None)) }
    ensures not_made { result ≡ answers.not_made → holder.old.kept.manager ≡ None }
    ensures some { result ≡ answers.done → IsSome holder.old.kept.manager }
    ensures untouched { result ≢ answers.done → owner.new ≡ owner.old }
    ensures same { holder.new.kept.manager ≡ holder.old.kept.manager }
    ensures status { answers.IsLookStatus result }
{
    let Some(spm) = holder.take(alloc) else {
        return NOT_MADE;
    };
    let found = match page_of(address) {
        Some(page) => spm.owner(page),
        None => None,
    };
    holder.put(spm);
    match found {
        Some(p) => {
            *owner = p.number();
            DONE
        }
        None => NOTHING_THERE,
    }
}

/// The version of FF-A that a partition speaks (FF-A 1.1, "FFA_VERSION"): the major version in bits
/// 30:16, the minor one in bits 15:0. It is 1.1 for a partition that the manifest does not have.
#[unsafe(no_mangle)]
pub extern "C" fn ffaspm_version(
    alloc: Global,
    holder: &mut Holder,
    partition: u16,
    version: &mut u32,
) -> u32
    ensures version { result ≡ answers.done → IfSome holder.old.kept.manager (λ m.
        version.new ≡ version_word (state.version_of m.state.partitions partition)) }
    ensures not_made { result ≡ answers.not_made → holder.old.kept.manager ≡ None }
    ensures some { result ≡ answers.done → IsSome holder.old.kept.manager }
    ensures untouched { result ≢ answers.done → version.new ≡ version.old }
    ensures same { holder.new.kept.manager ≡ holder.old.kept.manager }
    ensures status { (result ≡ answers.done) ⊎ (result ≡ answers.not_made) }
{
    let Some(spm) = holder.take(alloc) else {
        return NOT_MADE;
    };
    *version = match spm.version(PartitionId::new(partition)) {
        Version::V10 => 0x1_0000,
        Version::V11 => 0x1_0001,
    };
    holder.put(spm);
    DONE
}

/// Where the buffers of a partition lie that it has registered (FF-A 1.1, "FFA_RXTX_MAP").
/// `NOTHING_THERE` where it has registered none.
#[unsafe(no_mangle)]
pub extern "C" fn ffaspm_buffers(
    alloc: Global,
    holder: &mut Holder,
    partition: u16,
    buffers: &mut BuffersOut,
) -> u32
    ensures pair { result ≡ answers.done → IfSome holder.old.kept.manager (λ m.
        IfSome (pair_of m.state.mailboxes partition) (λ pair. IsPairOut pair
        buffers.new.tx_address buffers.new.tx_pages buffers.new.rx_address buffers.new.rx_pages)) }
    ensures some_pair { result ≡ answers.done → IfSome holder.old.kept.manager (λ m.
        IsSome (pair_of m.state.mailboxes partition)) }
    ensures nothing { result ≡ answers.nothing_there → IfSome holder.old.kept.manager (λ m.
        pair_of m.state.mailboxes partition ≡ None) }
    ensures not_made { result ≡ answers.not_made → holder.old.kept.manager ≡ None }
    ensures some { result ≡ answers.done → IsSome holder.old.kept.manager }
    ensures untouched { result ≢ answers.done → buffers.new ≡ buffers.old }
    ensures same { holder.new.kept.manager ≡ holder.old.kept.manager }
    ensures status { answers.IsLookStatus result }
{
    let Some(spm) = holder.take(alloc) else {
        return NOT_MADE;
    };
    let found = spm.buffers(PartitionId::new(partition));
    holder.put(spm);
    match found {
        Some(pair) => {
            *buffers = BuffersOut {
                tx_address: PAGE_SIZE * u64::from(pair.tx.first().number()),
                rx_address: PAGE_SIZE * u64::from(pair.rx.first().number()),
                tx_pages: pair.tx.count(),
                rx_pages: pair.rx.count(),
            };
            DONE
        }
        None => NOTHING_THERE,
    }
}
