//! The fields of the descriptors, as their writers take them.

use base::{Handle, Kind, MemoryAttributes, PartitionId, Run};
use descr::Endpoint;
use std::marker::Model;

/// The fields of a header that both versions have (FF-A 1.1 and 1.0, "Memory transaction
/// descriptor").
#[derive(Clone, Copy, Debug, PartialEq, Eq)]
pub struct HeaderFields {
    /// The sender of the transaction, bytes 0 and 1.
    pub sender: PartitionId,
    /// The memory region attributes, bytes 2 and 3. In 1.0 byte 3 is reserved.
    pub attributes: MemoryAttributes,
    /// The flags, bytes 4 to 7. Bit 0 of those of a send orders that the pages are cleared.
    pub flags: u32,
    /// The handle of the transaction, bytes 8 to 15.
    pub handle: Handle,
    /// The tag, bytes 16 to 23.
    pub tag: u64,
}

impl Model for HeaderFields {
    ghost use Rattle.base.specs.Descriptors.Encoding as texts;

    ghost Value = { texts.HeaderFields };

    ghost view = { λ h. record {
      sender = h.sender;
      attributes = h.attributes;
      flags = h.flags;
      handle = h.handle;
      tag = h.tag;
    } };

    ghost inverse = { λ h. record {
      sender = h.sender;
      attributes = h.attributes;
      flags = h.flags;
      handle = h.handle;
      tag = h.tag;
    } };
}

/// The fields of a range (FF-A 1.1 and 1.0, "Constituent memory region descriptor").
#[derive(Clone, Copy, Debug, PartialEq, Eq)]
pub struct RangeFields {
    /// The address of the first page in bytes, bytes 0 to 7.
    pub address: u64,
    /// The count of pages of 4 KB, bytes 8 to 11.
    pub count: u32,
}

impl Model for RangeFields {
    ghost use Rattle.base.specs.Descriptors.Encoding as texts;

    ghost Value = { texts.RangeFields };

    ghost view = { λ r. record { address = r.address; count = r.count } };

    ghost inverse = { λ r. record { address = r.address; count = r.count } };
}

/// The fields of a send (FF-A 1.1 and 1.0, "Memory transaction descriptor").
#[derive(Drop)]
pub struct SendFields<'a> {
    /// The header's.
    pub header: HeaderFields,
    /// The receivers, in the order of the access descriptors.
    pub receivers: &'a [Endpoint],
    /// The total count of pages, in the composite descriptor.
    pub total: u32,
    /// The ranges, in the order of the descriptor.
    pub ranges: &'a [RangeFields],
}

impl<'a> Model for SendFields<'a> {
    ghost use Rattle.base.specs.Descriptors.Encoding as texts;

    ghost Value = { texts.SendFields };

    ghost view = { λ f. record {
      header = f.header;
      receivers = f.receivers.now;
      total = f.total;
      ranges = f.ranges.now;
    } };
}

/// The fields of a retrieve request (FF-A 1.1 and 1.0, "FFA_MEM_RETRIEVE_REQ").
#[derive(Clone, Copy, Debug, PartialEq, Eq)]
pub struct RetrieveFields {
    /// The header's.
    pub header: HeaderFields,
    /// The one borrower that the request names.
    pub endpoint: Endpoint,
}

impl Model for RetrieveFields {
    ghost use Rattle.base.specs.Descriptors.Encoding as texts;

    ghost Value = { texts.RetrieveFields };

    ghost view = { λ f. record { header = f.header; endpoint = f.endpoint } };

    ghost inverse = { λ f. record { header = f.header; endpoint = f.endpoint } };
}

/// The fields of a relinquish (FF-A 1.1, "Descriptor to relinquish a memory region").
#[derive(Clone, Copy, Debug, PartialEq, Eq)]
pub struct RelinquishFields {
    /// The handle of the transaction, bytes 0 to 7.
    pub handle: Handle,
    /// The flags, bytes 8 to 11. Bit 0 orders that the pages are cleared.
    pub flags: u32,
    /// The one borrower that gives its access up, bytes 16 and 17.
    pub endpoint: PartitionId,
}

impl Model for RelinquishFields {
    ghost use Rattle.base.specs.Descriptors.Encoding as texts;

    ghost Value = { texts.RelinquishFields };

    ghost view = { λ f. record { handle = f.handle; flags = f.flags; endpoint = f.endpoint } };

    ghost inverse = { λ f. record { handle = f.handle; flags = f.flags; endpoint = f.endpoint } };
}

/// The fields of a retrieve response (FF-A 1.1 and 1.0, "FFA_MEM_RETRIEVE_RESP").
#[derive(Drop)]
pub struct ResponseFields<'a> {
    /// The sender of the transaction, bytes 0 and 1.
    pub sender: PartitionId,
    /// The kind of the transaction, in bits 4:3 of the flags.
    pub kind: Kind,
    /// The handle of the transaction, bytes 8 to 15.
    pub handle: Handle,
    /// The tag, bytes 16 to 23.
    pub tag: u64,
    /// The borrower, with the permissions that it is granted.
    pub endpoint: Endpoint,
    /// The pages, in the order in which they were sent.
    pub ranges: &'a [Run],
}

impl<'a> Model for ResponseFields<'a> {
    ghost use Rattle.base.specs.Descriptors.Response as response;

    ghost Value = { response.Response };

    ghost view = { λ f. record {
      sender = f.sender;
      kind = f.kind;
      handle = f.handle;
      tag = f.tag;
      endpoint = f.endpoint;
      ranges = f.ranges.now;
    } };
}
