//! Writes the parts of a descriptor behind the bytes that are there (FF-A 1.1 and 1.0, "Memory
//! transaction descriptor", "Endpoint memory access descriptor", "Composite memory region descriptor",
//! "Constituent memory region descriptor"). Whoever calls has made room for the whole part.

ghost use Rattle.std.specs.Prelude.{◌≡◌, ◌+◌, ◌-◌, ◌*◌, ◌^◌, ◌<◌, ◌≤◌, ◌++◌, length, vec_len, vec_capacity};
ghost use Rattle.byteorder.specs.Endian.{little_bytes};
ghost use Rattle.base.specs.Descriptors.Send as send;
ghost use Rattle.base.specs.Descriptors.Response as response;
ghost use Rattle.base.specs.Descriptors.Encoding as texts;
ghost use Rattle.base.specs.Pages.{IsRun};
ghost use Rattle.descw.specs.Inside.{Appends, FitsHeader, AreIdentifiers, AreRuns};

use crate::fields::{HeaderFields, RangeFields};
use base::limits::PAGE_SIZE;
use base::{Kind, Run, Version};
use descr::Endpoint;

/// The size of a header of FF-A 1.0, in bytes.
const HEADER_1_0: u32 = 32;

/// The size of a header of FF-A 1.1, in bytes.
const HEADER_1_1: u32 = 48;

/// The size of an access descriptor, of a composite descriptor and of a range, in bytes.
pub(crate) const PART_SIZE: u32 = 16;

/// The size of a header in bytes.
pub(crate) fn header_size(version: Version) -> u32
    ensures { result ≡ send.header_size version }
{
    match version {
        Version::V10 => HEADER_1_0,
        Version::V11 => HEADER_1_1,
    }
}

/// Appends bytes, for which there is room.
#[inline(always)]
fn write_bytes(out: &mut Vec<u8>, bytes: &[u8])
    requires { vec_len out.old + length bytes.now ≤ vec_capacity out.old }
    ensures { Appends out.old bytes.now (length bytes.now) out.new }
{
    for byte in bytes {
        out.push_reserved(*byte);
    }
}

/// Appends a number of 2 bytes.
pub(crate) fn write_u16(out: &mut Vec<u8>, number: u16)
    requires { vec_len out.old + 2 ≤ vec_capacity out.old }
    ensures { Appends out.old (little_bytes 2 number) 2 out.new }
{
    write_bytes(out, &number.to_le_bytes());
}

/// Appends a number of 4 bytes.
pub(crate) fn write_u32(out: &mut Vec<u8>, number: u32)
    requires { vec_len out.old + 4 ≤ vec_capacity out.old }
    ensures { Appends out.old (little_bytes 4 number) 4 out.new }
{
    write_bytes(out, &number.to_le_bytes());
}

/// Appends a number of 8 bytes.
pub(crate) fn write_u64(out: &mut Vec<u8>, number: u64)
    requires { vec_len out.old + 8 ≤ vec_capacity out.old }
    ensures { Appends out.old (little_bytes 8 number) 8 out.new }
{
    write_bytes(out, &number.to_le_bytes());
}

/// Appends two numbers of 8 bytes. The parts of a descriptor are put together of such pairs.
fn write_pair(out: &mut Vec<u8>, first: u64, second: u64)
    requires { vec_len out.old + 16 ≤ vec_capacity out.old }
    ensures { Appends out.old (little_bytes 8 first ++ little_bytes 8 second) 16 out.new }
{
    write_u64(out, first);
    write_u64(out, second);
}

/// Two numbers of 4 bytes as one of 8.
fn join_words(low: u32, high: u32) -> u64
    ensures { little_bytes 8 result ≡ little_bytes 4 low ++ little_bytes 4 high }
{
    u64::from(low) + u64::from(high) * 0x1_0000_0000
}

/// Two numbers of 2 bytes as one of 4.
fn join_halves(low: u16, high: u16) -> u32
    ensures { little_bytes 4 result ≡ little_bytes 2 low ++ little_bytes 2 high }
{
    u32::from(low) + u32::from(high) * 0x1_0000
}

/// Appends the header from byte 16 on: the tag, the count of access descriptors, and in FF-A 1.1 their
/// size and offset.
fn write_header_end(out: &mut Vec<u8>, version: Version, tag: u64, count: u32)
    requires { vec_len out.old + send.header_size version ≤ vec_capacity out.old + 16 }
    ensures { Appends out.old (little_bytes 8 tag ++ texts.header_end version count)
        (send.header_size version - 16) out.new }
{
    match version {
        Version::V10 => write_pair(out, tag, join_words(0, count)),
        Version::V11 => {
            write_pair(out, tag, join_words(PART_SIZE, count));
            write_pair(out, u64::from(HEADER_1_1), 0);
        }
    }
}

/// Appends a header.
pub(crate) fn write_header(out: &mut Vec<u8>, version: Version, header: HeaderFields, count: u32)
    requires { vec_len out.old + send.header_size version ≤ vec_capacity out.old }
    ensures text { Appends out.old (texts.header_text version header count)
        (send.header_size version) out.new }
    ensures fits { FitsHeader header }
{
    let head = join_halves(header.sender.number(), header.attributes.bits());
    write_pair(out, join_words(head, header.flags), header.handle.bits());
    write_header_end(out, version, header.tag, count);
}

/// Appends an access descriptor that points at this composite descriptor.
pub(crate) fn write_access(out: &mut Vec<u8>, composite: u32, endpoint: Endpoint)
    requires { vec_len out.old + 16 ≤ vec_capacity out.old }
    ensures text { Appends out.old (texts.access_text composite endpoint) 16 out.new }
    ensures fits { endpoint.partition < 2 ^ 16 }
{
    let permissions = u16::from(endpoint.permissions.byte());
    let head = join_halves(endpoint.partition.number(), permissions);
    write_pair(out, join_words(head, composite), 0);
}

/// Appends the access descriptors of these receivers.
pub(crate) fn write_accesses(out: &mut Vec<u8>, composite: u32, receivers: &[Endpoint])
    requires { vec_len out.old + 16 * length receivers.now ≤ vec_capacity out.old }
    ensures text { Appends out.old (texts.accesses_text composite receivers.now)
        (16 * length receivers.now) out.new }
    ensures fits { AreIdentifiers receivers.now }
{
    for endpoint in receivers {
        write_access(out, composite, *endpoint);
    }
}

/// Appends a composite descriptor.
pub(crate) fn write_composite(out: &mut Vec<u8>, total: u32, count: u32)
    requires { vec_len out.old + 16 ≤ vec_capacity out.old }
    ensures { Appends out.old (texts.composite_text total count) 16 out.new }
{
    write_pair(out, join_words(total, count), 0);
}

/// Appends a range.
fn write_range(out: &mut Vec<u8>, range: RangeFields)
    requires { vec_len out.old + 16 ≤ vec_capacity out.old }
    ensures { Appends out.old (texts.range_text range) 16 out.new }
{
    write_pair(out, range.address, join_words(range.count, 0));
}

/// Appends these ranges.
pub(crate) fn write_ranges(out: &mut Vec<u8>, ranges: &[RangeFields])
    requires { vec_len out.old + 16 * length ranges.now ≤ vec_capacity out.old }
    ensures { Appends out.old (texts.ranges_text ranges.now) (16 * length ranges.now) out.new }
{
    for range in ranges {
        write_range(out, *range);
    }
}

/// The range of these pages.
fn range_of(run: Run) -> RangeFields
    ensures range { result ≡ texts.range_of run }
    ensures in_range { IsRun run }
{
    RangeFields {
        address: PAGE_SIZE * u64::from(run.first().number()),
        count: run.count(),
    }
}

/// Appends the ranges of these pages.
pub(crate) fn write_runs(out: &mut Vec<u8>, runs: &[Run])
    requires { vec_len out.old + 16 * length runs.now ≤ vec_capacity out.old }
    ensures text { Appends out.old (texts.runs_text runs.now) (16 * length runs.now) out.new }
    ensures in_range { AreRuns runs.now }
{
    for run in runs {
        write_range(out, range_of(*run));
    }
}

/// How many pages there are together.
pub(crate) fn page_count(runs: &[Run]) -> u32
    requires { send.pages_in runs.now ≤ 262144 }
    ensures { result ≡ send.pages_in runs.now }
{
    let mut sum = 0;
    for run in runs {
        sum += run.count();
    }
    sum
}

/// The flags of a response: the kind in bits 4:3.
pub(crate) fn kind_bits(kind: Kind) -> u32
    ensures { result ≡ response.kind_bits kind }
{
    match kind {
        Kind::Share => 8,
        Kind::Lend => 16,
        Kind::Donate => 24,
    }
}
