//! Calls for the tests, and what they are answered.

use base::{Access, OutOfMemory, Page, PartitionId};
use manifest::common_manifest;
use pool::TableMem;
use spm::{Call, Spm};
use std::alloc::Global;
use std::process::Abort;

/// Status codes as register 2 of FFA_ERROR holds them.
pub(crate) const NOT_SUPPORTED: u64 = 0xffff_ffff;

pub(crate) const INVALID_PARAMETERS: u64 = 0xffff_fffe;

pub(crate) const NO_MEMORY: u64 = 0xffff_fffd;

pub(crate) const DENIED: u64 = 0xffff_fffa;

/// FFA_MEM_DONATE, FFA_MEM_LEND and FFA_MEM_SHARE.
pub(crate) const DONATE_ID: u64 = 0x8400_0071;

pub(crate) const LEND_ID: u64 = 0x8400_0072;

pub(crate) const SHARE_ID: u64 = 0x8400_0073;

/// Why, the areas of a pair, and whether the map is granted or refused with a status.
pub(crate) type MapCase<'a> = (&'a str, [u64; 3], Result<(), u64>);

/// Why, the function, the bytes of the descriptor that are changed, each named by its offset, and the low
/// half of the handle that the send is answered or the status.
pub(crate) type SendCase<'a> = (&'a str, u64, &'a [(usize, u8)], Result<u64, u64>);

/// A page for each buffer of 0x8001, and of 0x8002.
pub(crate) const FIRST_PAIR: [u64; 3] = [0x9000_0000, 0x9000_1000, 1];

pub(crate) const SECOND_PAIR: [u64; 3] = [0xb000_0000, 0xb000_1000, 1];

/// The descriptor by which 0x8001 lends page 0x80001 to 0x8002, read-write.
pub(crate) const LEND: [u8; 96] = [
    // The sender, attributes, flags and handle; the tag, the access descriptors' size and count.
    0x01, 0x80, 0x00, 0x00, 0x00, 0x00, 0x00, 0x00, 0x00, 0x00, 0x00, 0x00, 0x00, 0x00, 0x00, 0x00,
    0x00, 0x00, 0x00, 0x00, 0x00, 0x00, 0x00, 0x00, 0x10, 0x00, 0x00, 0x00, 0x01, 0x00, 0x00, 0x00,
    // Where the access descriptors begin.
    0x30, 0x00, 0x00, 0x00, 0x00, 0x00, 0x00, 0x00, 0x00, 0x00, 0x00, 0x00, 0x00, 0x00, 0x00, 0x00,
    // The receiver, its permissions, and where the composite descriptor begins.
    0x02, 0x80, 0x02, 0x00, 0x40, 0x00, 0x00, 0x00, 0x00, 0x00, 0x00, 0x00, 0x00, 0x00, 0x00, 0x00,
    // The total of pages and the count of ranges; the range's address and page count.
    0x01, 0x00, 0x00, 0x00, 0x01, 0x00, 0x00, 0x00, 0x00, 0x00, 0x00, 0x00, 0x00, 0x00, 0x00, 0x00,
    0x00, 0x10, 0x00, 0x80, 0x00, 0x00, 0x00, 0x00, 0x01, 0x00, 0x00, 0x00, 0x00, 0x00, 0x00, 0x00,
];

/// The descriptor with some bytes changed, each named by its offset.
pub(crate) fn changed(
    rt: &impl Abort,
    alloc: Global,
    changes: &[(usize, u8)],
) -> Result<Vec<u8>, OutOfMemory> {
    let mut bytes = Vec::from_slice(alloc, &LEND)?;
    for (at, byte) in changes {
        assert!(rt; *at < bytes.len());
        bytes[*at] = *byte;
    }
    Ok(bytes)
}

/// These bytes with 16 more at an offset.
pub(crate) fn with_part(
    rt: &impl Abort,
    alloc: Global,
    bytes: &[u8],
    at: usize,
    part: [u8; 16],
) -> Result<Vec<u8>, OutOfMemory> {
    assert!(rt; at <= bytes.len());
    let mut longer = Vec::from_slice(alloc, &bytes[..at])?;
    longer.extend_from_slice(&part)?;
    longer.extend_from_slice(&bytes[at..])?;
    Ok(longer)
}

/// The same lend with its composite descriptor at an offset, and bytes of 0 before that.
pub(crate) fn with_gap(alloc: Global, composite: u16) -> Result<Vec<u8>, OutOfMemory> {
    let mut bytes = Vec::from_slice(alloc, &LEND[..52])?;
    bytes.extend_from_slice(&composite.to_le_bytes())?;
    bytes.resize(usize::from(composite), 0)?;
    bytes.extend_from_slice(&LEND[64..])?;
    Ok(bytes)
}

/// A call of FFA_RXTX_MAP with registers 1 to 3.
pub(crate) fn map(alloc: Global, caller: u16, areas: [u64; 3]) -> Call {
    let [tx, rx, count] = areas;
    Call {
        caller,
        regs: [0x8400_0066, tx, rx, count, 0, 0, 0, 0],
        tx: Vec::new(alloc),
    }
}

/// A call of FFA_MEM_LEND by 0x8001 with registers 1 to 4.
pub(crate) fn lend(words: [u64; 4], tx: Vec<u8>) -> Call {
    let [total, fragment, address, pages] = words;
    Call {
        caller: 0x8001,
        regs: [LEND_ID, total, fragment, address, pages, 0, 0, 0],
        tx,
    }
}

/// A send by 0x8001 with the descriptor, of which some bytes are changed.
pub(crate) fn send(
    rt: &impl Abort,
    alloc: Global,
    function: u64,
    changes: &[(usize, u8)],
) -> Result<Call, OutOfMemory> {
    let tx = changed(rt, alloc, changes)?;
    let mut call = lend([0x60, 0x60, 0, 0], tx);
    call.regs[0] = function;
    Ok(call)
}

/// How many transactions are live, how many operations the last call made, and how many were made.
pub(crate) fn counts<M: TableMem + Drop>(spm: &Spm<M>) -> [u64; 3] {
    let live = spm.ledger().live().len() as u64;
    let last = spm.last_ops().len() as u64;
    [live, last, spm.made()]
}

/// The registers that a call is answered. Nothing is written to an RX buffer.
pub(crate) fn registers<M: TableMem + Drop>(
    rt: &impl Abort,
    spm: &mut Spm<M>,
    call: &Call,
) -> Result<[u64; 8], OutOfMemory> {
    let reply = spm.handle(call)?;
    assert!(rt; reply.rx.is_none());
    Ok(reply.regs)
}

/// The call is answered FFA_SUCCESS with two words.
pub(crate) fn grant<M: TableMem + Drop>(
    rt: &impl Abort,
    spm: &mut Spm<M>,
    call: &Call,
    words: [u64; 2],
    why: &str,
) -> Result<(), OutOfMemory> {
    let [w2, w3] = words;
    let regs = registers(rt, spm, call)?;
    assert_eq!(rt; regs, [0x8400_0061, 0, w2, w3, 0, 0, 0, 0], "{why}");
    Ok(())
}

/// The call is answered FFA_ERROR with a status, and nothing changes.
pub(crate) fn refuse<M: TableMem + Drop>(
    rt: &impl Abort,
    spm: &mut Spm<M>,
    call: &Call,
    status: u64,
    why: &str,
) -> Result<(), OutOfMemory> {
    let [live, _, made] = counts(spm);
    let regs = registers(rt, spm, call)?;
    assert_eq!(rt; regs, [0x8400_0060, 0, status, 0, 0, 0, 0, 0], "{why}");
    assert_eq!(rt; counts(spm), [live, 0, made], "{why}");
    Ok(())
}

/// 0x8001 registers pairs in order, and each map is answered so.
pub(crate) fn answer_maps<M: TableMem + Drop>(
    rt: &impl Abort,
    alloc: Global,
    spm: &mut Spm<M>,
    maps: &[MapCase<'_>],
) -> Result<(), OutOfMemory> {
    for (why, areas, reply) in maps {
        let call = map(alloc, 0x8001, *areas);
        match *reply {
            Ok(()) => grant(rt, spm, &call, [0, 0], why)?,
            Err(status) => refuse(rt, spm, &call, status, why)?,
        }
    }
    Ok(())
}

/// 0x8001 sends in order, and each send is answered so.
pub(crate) fn answer_sends<M: TableMem + Drop>(
    rt: &impl Abort,
    alloc: Global,
    spm: &mut Spm<M>,
    sends: &[SendCase<'_>],
) -> Result<(), OutOfMemory> {
    for (why, function, changes, reply) in sends {
        let call = send(rt, alloc, *function, changes)?;
        match *reply {
            Ok(handle) => grant(rt, spm, &call, [handle, 0x8001], why)?,
            Err(status) => refuse(rt, spm, &call, status, why)?,
        }
    }
    Ok(())
}

/// The manager of the common manifest.
pub(crate) fn booted<M: TableMem + Drop>(alloc: Global) -> Result<Spm<M>, OutOfMemory> {
    Spm::boot(alloc, common_manifest(alloc)?)
}

/// The same, where 0x8001 has a pair.
pub(crate) fn with_pair<M: TableMem + Drop>(
    rt: &impl Abort,
    alloc: Global,
) -> Result<Spm<M>, OutOfMemory> {
    let mut spm = booted(alloc)?;
    grant(
        rt,
        &mut spm,
        &map(alloc, 0x8001, FIRST_PAIR),
        [0, 0],
        "a pair",
    )?;
    Ok(spm)
}

/// What 0x8001 reaches of pages 0x80000 and 0x80001, and 0x8002 of the second.
pub(crate) fn views<M: TableMem + Drop>(spm: &Spm<M>) -> [Option<Access>; 3] {
    [
        spm.translate(PartitionId::new(0x8001), Page::new(0x8_0000)),
        spm.translate(PartitionId::new(0x8001), Page::new(0x8_0001)),
        spm.translate(PartitionId::new(0x8002), Page::new(0x8_0001)),
    ]
}
