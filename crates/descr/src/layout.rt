//! Where the parts of a memory transaction descriptor lie, and the rules of its header (FF-A 1.1 and
//! 1.0, "Memory transaction descriptor").

ghost use Rattle.std.specs.Prelude.{◌≡◌, ◌^◌, ◌<◌, ◌≤◌, length, IsTrue};
ghost use Rattle.base.specs.Descriptors.Send as spec;
ghost use Rattle.descr.specs.Inside.{IsInside};

use crate::flags::are_clear_flags;
use crate::numbers::{u16_at, u32_at, u64_at};
use base::limits::{MOST_RANGES, MOST_RECEIVERS};
use base::{MemoryAttributes, Version};

/// The size of a header of FF-A 1.0, in bytes.
const HEADER_1_0: usize = 32;

/// The size of a header of FF-A 1.1, in bytes.
const HEADER_1_1: usize = 48;

/// The size of an access descriptor, of a composite descriptor and of a range, in bytes.
pub(crate) const PART_SIZE: usize = 16;

/// The size of a header in bytes.
pub(crate) fn header_size(version: Version) -> usize
    ensures { result ≡ spec.header_size version }
{
    match version {
        Version::V10 => HEADER_1_0,
        Version::V11 => HEADER_1_1,
    }
}

/// The offset of the first access descriptor.
pub(crate) fn array_at(version: Version, bytes: &[u8]) -> usize
    requires { spec.header_size version ≤ length bytes.now }
    ensures value { result ≡ spec.array_at version bytes.now }
    ensures fits { result < 2 ^ 32 }
{
    match version {
        Version::V10 => HEADER_1_0,
        Version::V11 => u32_at(bytes, 32) as usize,
    }
}

/// Whether the parts of a send stand in order, and end where the bytes do.
#[tactic(auto, unfolding(base::specs::Descriptors::Send::has_layout))]
pub(crate) fn has_layout(version: Version, bytes: &[u8]) -> bool
    ensures value { result ≡ spec.has_layout version bytes.now }
    ensures inside { IsTrue result → IsInside version bytes.now }
{
    let header = header_size(version);
    if bytes.len() < header {
        return false;
    }
    let receivers = u32_at(bytes, 28) as usize;
    let array = array_at(version, bytes);
    if receivers < 1
        || receivers > MOST_RECEIVERS
        || array < header
        || bytes.len() < array + PART_SIZE * receivers
    {
        return false;
    }
    let composite = u32_at(bytes, array + 4) as usize;
    if composite < array + PART_SIZE * receivers || bytes.len() < composite + PART_SIZE {
        return false;
    }
    let ranges = u32_at(bytes, composite + 4) as usize;
    1 <= ranges
        && ranges <= MOST_RANGES
        && bytes.len() == composite + PART_SIZE + PART_SIZE * ranges
}

/// The offset of the composite descriptor of a send.
pub(crate) fn composite_at(version: Version, bytes: &[u8]) -> u32
    requires { IsInside version bytes.now }
    ensures { result ≡ spec.composite_at version bytes.now }
{
    u32_at(bytes, array_at(version, bytes) + 4)
}

/// The memory region attributes.
pub(crate) fn attributes_of(bytes: &[u8]) -> MemoryAttributes
    requires { 4 ≤ length bytes.now }
    ensures { result ≡ spec.u16_at bytes.now 2 }
{
    MemoryAttributes::new(u16_at(bytes, 2))
}

/// Whether the header keeps its rules from byte 24 on.
pub(crate) fn is_rest_of_header(version: Version, bytes: &[u8]) -> bool
    requires { spec.header_size version ≤ length bytes.now }
    ensures { result ≡ spec.is_rest_of_header version bytes.now }
{
    match version {
        Version::V10 => u32_at(bytes, 24) == 0,
        Version::V11 => {
            u32_at(bytes, 24) == 16
                && u32_at(bytes, 32) % 16 == 0
                && u64_at(bytes, 36) == 0
                && u32_at(bytes, 44) == 0
        }
    }
}

/// Whether the header of a send keeps its rules.
#[tactic(auto, unfolding(base::specs::Descriptors::Send::is_header))]
pub(crate) fn is_header(version: Version, bytes: &[u8]) -> bool
    requires { spec.header_size version ≤ length bytes.now }
    ensures { result ≡ spec.is_header version bytes.now }
{
    attributes_of(bytes).are_legal()
        && are_clear_flags(u32_at(bytes, 4))
        && u64_at(bytes, 8) == 0
        && is_rest_of_header(version, bytes)
}
