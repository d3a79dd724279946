//! Reads the memory transaction descriptor of a retrieve request.

ghost use Rattle.std.specs.Prelude.{◌≡◌, ◌+◌, ◌≤◌, false, length, IfSome, IfNone, IsTrue};
ghost use Rattle.base.specs.Descriptors.Send as send;
ghost use Rattle.base.specs.Descriptors.Retrieve as spec;
ghost use Rattle.descr.specs.Inside.{IsRetrieveInside};

use crate::access::{Endpoint, endpoint_at, is_access};
use crate::layout::{PART_SIZE, array_at, attributes_of, header_size, is_rest_of_header};
use crate::numbers::{u16_at, u32_at, u64_at};
use base::{Handle, Kind, MemoryAttributes, PartitionId, Version};
use std::marker::Model;

/// What a retrieve request says (FF-A 1.1 and 1.0, "FFA_MEM_RETRIEVE_REQ").
#[derive(Clone, Copy, Debug, PartialEq, Eq)]
pub struct RetrieveDesc {
    /// The sender of the transaction, from bytes 0 and 1.
    pub sender: PartitionId,
    /// The memory region attributes, from bytes 2 and 3: 0 or 0x2f.
    pub attributes: MemoryAttributes,
    /// The kind of transaction that is asked for, from bits 4:3 of the flags. `None` is any.
    pub kind: Option<Kind>,
    /// Whether the check that the request names every borrower is bypassed: bit 10 of the flags.
    pub bypass: bool,
    /// The handle of the transaction, from bytes 8 to 15.
    pub handle: Handle,
    /// The tag, from bytes 16 to 23.
    pub tag: u64,
    /// The one borrower that the request names.
    pub endpoint: Endpoint,
}

impl Model for RetrieveDesc {
    ghost use Rattle.base.specs.Descriptors.Retrieve.{Retrieve};

    ghost Value = { Retrieve };

    ghost view = { λ d. record {
      sender = d.sender;
      attributes = d.attributes;
      kind = d.kind;
      bypass = d.bypass;
      handle = d.handle;
      tag = d.tag;
      endpoint = d.endpoint;
    } };

    ghost inverse = { λ v. record {
      sender = v.sender;
      attributes = v.attributes;
      kind = v.kind;
      bypass = v.bypass;
      handle = v.handle;
      tag = v.tag;
      endpoint = v.endpoint;
    } };
}

/// The kind in bits 4:3 of the flags.
fn kind_in(flags: u32) -> Option<Kind>
    ensures { result ≡ spec.kind_in flags }
{
    match flags / 8 % 4 {
        0 => None,
        1 => Some(Kind::Share),
        2 => Some(Kind::Lend),
        _ => Some(Kind::Donate),
    }
}

/// Whether no flag but the kind and bit 10 is set.
#[tactic(auto, unfolding(base::specs::Descriptors::Retrieve::are_flags))]
fn are_flags(flags: u32) -> bool
    ensures { result ≡ spec.are_flags flags }
{
    flags == 8 * (flags / 8 % 4) + 1024 * (flags / 1024 % 2)
}

/// Whether the header and one access descriptor stand in order, and end where the bytes do.
#[tactic(auto, unfolding(base::specs::Descriptors::Retrieve::has_retrieve_layout))]
fn has_retrieve_layout(version: Version, bytes: &[u8]) -> bool
    ensures value { result ≡ spec.has_retrieve_layout version bytes.now }
    ensures inside { IsTrue result → IsRetrieveInside version bytes.now }
{
    let header = header_size(version);
    if bytes.len() < header {
        return false;
    }
    let array = array_at(version, bytes);
    u32_at(bytes, 28) == 1 && header <= array && bytes.len() == array + PART_SIZE
}

/// Whether the header of a retrieve request keeps its rules.
#[tactic(auto, unfolding(base::specs::Descriptors::Retrieve::is_retrieve_header))]
fn is_retrieve_header(version: Version, bytes: &[u8]) -> bool
    requires { send.header_size version ≤ length bytes.now }
    ensures { result ≡ spec.is_retrieve_header version bytes.now }
{
    attributes_of(bytes).are_legal()
        && are_flags(u32_at(bytes, 4))
        && is_rest_of_header(version, bytes)
}

/// Whether the bytes are those of a retrieve request.
#[tactic(auto, unfolding(base::specs::Descriptors::Retrieve::is_retrieve))]
fn is_retrieve(version: Version, bytes: &[u8]) -> bool
    ensures value { result ≡ spec.is_retrieve version bytes.now }
    ensures inside { IsTrue result → IsRetrieveInside version bytes.now }
{
    has_retrieve_layout(version, bytes)
        && is_retrieve_header(version, bytes)
        && is_access(bytes, 0, array_at(version, bytes))
}

/// What the bytes of a retrieve request say, in the layout of this version. `None` means that the
/// bytes are no such descriptor: a part lies outside them or bytes are left over, more borrowers than
/// one are named, or a field breaks its rule.
#[tactic(auto, unfolding(base::specs::Descriptors::Retrieve::retrieve_of))]
pub fn read_retrieve(bytes: &[u8], version: Version) -> Option<RetrieveDesc>
    // What is read is spelled so.
    ensures some { IfSome result (spec.SpellsRetrieve version bytes.now) }

    // Nothing is read only where no retrieve request is spelled.
    ensures none { IfNone result (spec.is_retrieve version bytes.now ≡ false) }
{
    if !is_retrieve(version, bytes) {
        return None;
    }
    let flags = u32_at(bytes, 4);
    Some(RetrieveDesc {
        sender: PartitionId::new(u16_at(bytes, 0)),
        attributes: attributes_of(bytes),
        kind: kind_in(flags),
        bypass: flags / 1024 % 2 == 1,
        handle: Handle::from_bits(u64_at(bytes, 8)),
        tag: u64_at(bytes, 16),
        endpoint: endpoint_at(bytes, array_at(version, bytes)),
    })
}
