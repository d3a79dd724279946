//! Calls, as partitions make them.

use crate::fault::Fault;
use crate::house::is_old;
use base::limits::{MOST_RANGES, MOST_RECEIVERS};
use base::{Handle, Kind, MemoryAttributes, PartitionId, Permissions, Version};
use descr::Endpoint;
use descw::{
    HeaderFields, RangeFields, RelinquishFields, RetrieveFields, SendFields, write_relinquish,
    write_retrieve, write_send,
};
use spm::{Call, Reply};
use std::alloc::Global;

/// FFA_ERROR.
const ERROR: u64 = 0x8400_0060;

/// What a partition sends, and to whom.
#[derive(Drop)]
pub(crate) struct Sending {
    pub(crate) kind: Kind,
    pub(crate) sender: u16,
    pub(crate) receivers: Vec<u16>,
    pub(crate) ranges: Vec<RangeFields>,
    /// Whether the receivers may write, if it is no donation.
    pub(crate) writes: bool,
}

/// A call that reads nothing of TX.
pub(crate) fn call(alloc: Global, caller: u16, regs: [u64; 8]) -> Call {
    Call {
        caller,
        regs,
        tx: Vec::new(alloc),
    }
}

/// A call that hands over a descriptor.
fn with_descriptor(caller: u16, function: u64, tx: Vec<u8>) -> Call {
    let length = tx.len() as u64;
    Call {
        caller,
        regs: [function, length, length, 0, 0, 0, 0, 0],
        tx,
    }
}

/// Registers 2 and 3 of the reply to a call that was not refused.
pub(crate) fn granted(reply: &Reply) -> Option<u64> {
    if reply.regs[0] == ERROR {
        return None;
    }
    let high = reply.regs[3].wrapping_mul(0x1_0000_0000);
    Some(high.wrapping_add(reply.regs[2]))
}

fn version_of(id: u16) -> Version {
    if is_old(id) {
        Version::V10
    } else {
        Version::V11
    }
}

/// A borrower. Of a donation it is not specified what it may do.
fn endpoint(kind: Kind, id: u16, writes: bool) -> Endpoint {
    let permissions = match kind {
        Kind::Donate => Permissions::new(0),
        Kind::Lend | Kind::Share if writes => Permissions::read_write(),
        Kind::Lend | Kind::Share => Permissions::read_only(),
    };
    Endpoint {
        partition: PartitionId::new(id),
        permissions,
    }
}

/// The attributes that a send of a kind to so many receivers specifies.
fn attributes_of(kind: Kind, receivers: usize) -> MemoryAttributes {
    match kind {
        Kind::Donate => MemoryAttributes::not_specified(),
        Kind::Lend if receivers == 1 => MemoryAttributes::not_specified(),
        Kind::Lend | Kind::Share => MemoryAttributes::normal_write_back(),
    }
}

fn endpoints_of(alloc: Global, sending: &Sending) -> Result<Vec<Endpoint>, Fault> {
    let mut endpoints = Vec::new(alloc);
    for id in &sending.receivers {
        endpoints.push(endpoint(sending.kind, *id, sending.writes))?;
    }
    Ok(endpoints)
}

fn total_of(ranges: &[RangeFields]) -> u32 {
    let mut total = 0u32;
    for range in ranges {
        total = total.wrapping_add(range.count);
    }
    total
}

/// The bytes of a send's descriptor.
fn send_bytes(alloc: Global, sending: &Sending) -> Result<Vec<u8>, Fault> {
    let receivers = endpoints_of(alloc, sending)?;
    if receivers.len() > MOST_RECEIVERS || sending.ranges.len() > MOST_RANGES {
        return Err(Fault::Refused);
    }
    let fields = SendFields {
        header: HeaderFields {
            sender: PartitionId::new(sending.sender),
            attributes: attributes_of(sending.kind, receivers.len()),
            flags: 0,
            handle: Handle::from_bits(0),
            tag: 0,
        },
        receivers: &receivers,
        total: total_of(&sending.ranges),
        ranges: &sending.ranges,
    };
    Ok(write_send(alloc, version_of(sending.sender), &fields)?)
}

/// The call that sends it.
pub(crate) fn send(alloc: Global, sending: &Sending) -> Result<Call, Fault> {
    let function = match sending.kind {
        Kind::Donate => 0x8400_0071,
        Kind::Lend => 0x8400_0072,
        Kind::Share => 0x8400_0073,
    };
    Ok(with_descriptor(sending.sender, function, send_bytes(alloc, sending)?))
}

/// The flags of a retrieve request for a transaction of a kind, whose borrowers need not all be named.
fn retrieve_flags(kind: Kind) -> u32 {
    match kind {
        Kind::Share => 0x408,
        Kind::Lend => 0x410,
        Kind::Donate => 0x418,
    }
}

/// The call by which a receiver retrieves what was sent.
pub(crate) fn retrieve(
    alloc: Global,
    sending: &Sending,
    id: u16,
    handle: u64,
) -> Result<Call, Fault> {
    let fields = RetrieveFields {
        header: HeaderFields {
            sender: PartitionId::new(sending.sender),
            attributes: MemoryAttributes::normal_write_back(),
            flags: retrieve_flags(sending.kind),
            handle: Handle::from_bits(handle),
            tag: 0,
        },
        endpoint: endpoint(sending.kind, id, sending.writes),
    };
    let tx = write_retrieve(alloc, version_of(id), &fields)?;
    Ok(with_descriptor(id, 0x8400_0074, tx))
}

/// The call by which a receiver gives RX back.
pub(crate) fn release(alloc: Global, id: u16) -> Call {
    call(alloc, id, [0x8400_0065, 0, 0, 0, 0, 0, 0, 0])
}

/// The call by which a receiver relinquishes.
pub(crate) fn relinquish(alloc: Global, id: u16, handle: u64) -> Result<Call, Fault> {
    let fields = RelinquishFields {
        handle: Handle::from_bits(handle),
        flags: 0,
        endpoint: PartitionId::new(id),
    };
    let tx = write_relinquish(alloc, &fields)?;
    Ok(with_descriptor(id, 0x8400_0076, tx))
}

/// The call by which a sender takes a transaction back.
pub(crate) fn reclaim(alloc: Global, id: u16, handle: u64) -> Call {
    let handle = Handle::from_bits(handle);
    let (low, high) = (u64::from(handle.low()), u64::from(handle.high()));
    call(alloc, id, [0x8400_0077, low, high, 0, 0, 0, 0, 0])
}
