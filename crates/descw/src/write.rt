//! Writes whole descriptors.

ghost use Rattle.std.specs.Prelude.{◌≡◌, ◌≤◌, [], IfOk, IsTrue, length, vec_len, vec_capacity};
ghost use Rattle.base.specs.Descriptors.Send as send;
ghost use Rattle.base.specs.Descriptors.Retrieve.{SpellsRetrieve};
ghost use Rattle.base.specs.Descriptors.Relinquish.{SpellsRelinquish};
ghost use Rattle.base.specs.Descriptors.Response.{SpellsResponse};
ghost use Rattle.base.specs.Descriptors.Encoding as texts;
ghost use Rattle.descw.specs.Fields.{are_send_fields, sent_by, are_retrieve_fields, asked_by, are_relinquish_fields, given_up_by, are_response_fields};

use crate::fields::{HeaderFields, RelinquishFields, ResponseFields, RetrieveFields, SendFields};
use crate::text::{
    PART_SIZE, header_size, kind_bits, page_count, write_access, write_accesses, write_composite,
    write_header, write_ranges, write_runs, write_u16, write_u32, write_u64,
};
use base::{MemoryAttributes, OutOfMemory, Version};
use std::alloc::Global;

/// The size of a relinquish of one endpoint, in bytes.
const RELINQUISH_SIZE: usize = 18;

/// The memory transaction descriptor of a send, in the layout of this version: the header, the access
/// descriptors of at most 8 receivers, the composite descriptor and its ranges, at most 512. The fields
/// are written as they are given. `Err` means that memory is wanting.
#[tactic(auto, unfolding(base::specs::Descriptors::Encoding::send_text))]
pub fn write_send(
    alloc: Global,
    version: Version,
    fields: &SendFields<'_>,
) -> Result<Vec<u8>, OutOfMemory>
    requires few_receivers { length fields.now.receivers ≤ 8 }
    requires few_ranges { length fields.now.ranges ≤ 512 }
    // The bytes are the text of the fields.
    ensures text { IfOk result (λ bytes. bytes.items ≡ texts.send_text version fields.now) }

    // Where the fields keep the rules, the bytes spell what they say.
    ensures spells { IfOk result (λ bytes.
        IsTrue (are_send_fields fields.now)
        → send.SpellsSend version bytes.items (sent_by fields.now)) }
{
    let receivers = fields.receivers.len() as u32;
    let ranges = fields.ranges.len() as u32;
    let composite = header_size(version) + PART_SIZE * receivers;
    let size = composite + PART_SIZE + PART_SIZE * ranges;
    let mut out = Vec::with_capacity(alloc, size as usize)?;
    write_header(&mut out, version, fields.header, receivers);
    write_accesses(&mut out, composite, fields.receivers);
    write_composite(&mut out, fields.total, ranges);
    write_ranges(&mut out, fields.ranges);
    Ok(out)
}

/// The memory transaction descriptor of a retrieve request, in the layout of this version: the header
/// and one access descriptor. The fields are written as they are given. `Err` means that memory is
/// wanting.
#[tactic(auto, unfolding(base::specs::Descriptors::Encoding::retrieve_text))]
pub fn write_retrieve(
    alloc: Global,
    version: Version,
    fields: &RetrieveFields,
) -> Result<Vec<u8>, OutOfMemory>
    // The bytes are the text of the fields.
    ensures text { IfOk result (λ bytes. bytes.items ≡ texts.retrieve_text version fields.now) }

    // Where the fields keep the rules, the bytes spell what they say.
    ensures spells { IfOk result (λ bytes.
        IsTrue (are_retrieve_fields fields.now)
        → SpellsRetrieve version bytes.items (asked_by fields.now)) }
{
    let size = header_size(version) + PART_SIZE;
    let mut out = Vec::with_capacity(alloc, size as usize)?;
    write_header(&mut out, version, fields.header, 1);
    write_access(&mut out, 0, fields.endpoint);
    Ok(out)
}

/// The 18 bytes of a relinquish of one endpoint. The fields are written as they are given. `Err` means
/// that memory is wanting.
#[tactic(auto, unfolding(base::specs::Descriptors::Encoding::relinquish_text))]
pub fn write_relinquish(alloc: Global, fields: &RelinquishFields) -> Result<Vec<u8>, OutOfMemory>
    // The bytes are the text of the fields.
    ensures text { IfOk result (λ bytes. bytes.items ≡ texts.relinquish_text fields.now) }

    // Where the fields keep the rules, the bytes spell what they say.
    ensures spells { IfOk result (λ bytes.
        IsTrue (are_relinquish_fields fields.now)
        → SpellsRelinquish bytes.items (given_up_by fields.now)) }
{
    let mut out = Vec::with_capacity(alloc, RELINQUISH_SIZE)?;
    write_u64(&mut out, fields.handle.bits());
    write_u32(&mut out, fields.flags);
    write_u32(&mut out, 1);
    write_u16(&mut out, fields.endpoint.number());
    Ok(out)
}

/// The memory transaction descriptor of a retrieve response, in the layout of this version: the header,
/// with the attributes of normal memory, write-back, inner shareable; one access descriptor; the
/// composite descriptor, with the total of the pages, at most 262,144 (1 GB); and the ranges, at most
/// 512. It stands in the memory that is given, where that is enough, and else in new memory. `Err` means that memory is
/// wanting.
#[tactic(auto, unfolding(base::specs::Descriptors::Encoding::response_text))]
pub fn write_response(
    room: Vec<u8>,
    version: Version,
    fields: &ResponseFields<'_>,
) -> Result<Vec<u8>, OutOfMemory>
    requires few_ranges { length fields.now.ranges ≤ 512 }
    requires few_pages { send.pages_in fields.now.ranges ≤ 262144 }
    // The bytes are the text of the fields.
    ensures text { IfOk result (λ bytes. bytes.items ≡ texts.response_text version fields.now) }

    // Where the fields keep the rules, the bytes spell what they say.
    ensures spells { IfOk result (λ bytes.
        IsTrue (are_response_fields fields.now) → SpellsResponse version bytes.items fields.now) }
{
    let header = HeaderFields {
        sender: fields.sender,
        attributes: MemoryAttributes::normal_write_back(),
        flags: kind_bits(fields.kind),
        handle: fields.handle,
        tag: fields.tag,
    };
    let ranges = fields.ranges.len() as u32;
    let composite = header_size(version) + PART_SIZE;
    let size = composite + PART_SIZE + PART_SIZE * ranges;
    let mut out = emptied(room, size as usize)?;
    write_header(&mut out, version, header, 1);
    write_access(&mut out, composite, fields.endpoint);
    write_composite(&mut out, page_count(fields.ranges), ranges);
    write_runs(&mut out, fields.ranges);
    Ok(out)
}

/// Room for so many bytes, and none of them written: this memory, where it is enough, and else new memory in its place.
fn emptied(room: Vec<u8>, size: usize) -> Result<Vec<u8>, OutOfMemory>
    ensures items { IfOk result (λ out. out.items ≡ []) }
    ensures len { IfOk result (λ out. vec_len out ≡ 0) }
    ensures capacity { IfOk result (λ out. size ≤ vec_capacity out) }
{
    let mut room = room;
    room.clear();
    if room.capacity() < size {
        let alloc = *room.allocator();
        drop(room);
        return Ok(Vec::with_capacity(alloc, size)?);
    }
    Ok(room)
}
