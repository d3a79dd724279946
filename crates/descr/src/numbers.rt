//! The little-endian numbers of a descriptor.

ghost use Rattle.std.specs.Prelude.{◌≡◌, ◌+◌, ◌≤◌, length};
ghost use Rattle.base.specs.Descriptors.Send as spec;

use byteorder::{ByteOrder, LittleEndian};

/// The number of 2 bytes at an offset.
#[tactic(auto, unfolding(base::specs::Descriptors::Send::u16_at))]
pub(crate) fn u16_at(bytes: &[u8], at: usize) -> u16
    requires { at + 2 ≤ length bytes.now }
    ensures { result ≡ spec.u16_at bytes.now at }
{
    LittleEndian::read_u16(&bytes[at..])
}

/// The number of 4 bytes at an offset.
#[tactic(auto, unfolding(base::specs::Descriptors::Send::u32_at))]
pub(crate) fn u32_at(bytes: &[u8], at: usize) -> u32
    requires { at + 4 ≤ length bytes.now }
    ensures { result ≡ spec.u32_at bytes.now at }
{
    LittleEndian::read_u32(&bytes[at..])
}

/// The number of 8 bytes at an offset.
#[tactic(auto, unfolding(base::specs::Descriptors::Send::u64_at))]
pub(crate) fn u64_at(bytes: &[u8], at: usize) -> u64
    requires { at + 8 ≤ length bytes.now }
    ensures { result ≡ spec.u64_at bytes.now at }
{
    LittleEndian::read_u64(&bytes[at..])
}
