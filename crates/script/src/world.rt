//! The secure world that a script runs in, and what its lines do to it.

ghost use Rattle.std.specs.Prelude.{◌≡◌, ◌++◌, ◌∷◌, [], ℕ, length, if◌then◌else◌, codes, option_map, OnOk, IfOk};
ghost use Rattle.std.specs.BTreeMap.{get};
ghost use Rattle.std.specs.Ordering.{nat_cmp};
ghost use Rattle.base.specs.Handles.{low_half, high_half};
ghost use Rattle.base.specs.Descriptors.Encoding as encoding;
ghost use Rattle.base.specs.State as state;
ghost use Rattle.lines.specs.Lines.{HasParts, IsWhole};
ghost use Rattle.lines.specs.Said.{said, said_send};
ghost use Rattle.audit.specs.Texts as texts;
ghost use Rattle.rules.specs.Run as rules;
ghost use Rattle.script.specs.Script as spec;
ghost use Rattle.script.specs.Texts.{reply_text};

use crate::operations::write_operations;
use crate::replies::write_reply;
use audit::{append_audit, append_maps, append_owners, append_tables};
use base::{Handle, Kind, MemoryAttributes, OutOfMemory, PartitionId};
use descw::{
    HeaderFields, RelinquishFields, RetrieveFields, SendFields, write_relinquish, write_retrieve,
    write_send,
};
use lines::{Line, SendLine};
use manifest::Manifest;
use pool::TableMem;
use spm::{Call, Spm};
use std::alloc::Global;
use std::collections::BTreeMap;
use wire::identifiers::{
    FFA_MEM_DONATE, FFA_MEM_LEND, FFA_MEM_RECLAIM, FFA_MEM_RELINQUISH, FFA_MEM_RETRIEVE_REQ,
    FFA_MEM_SHARE,
};

/// The manager of a secure world, and for each partition with a `tx` line its last call, which holds the
/// bytes of its TX buffer.
#[derive(Drop)]
pub struct World<M: TableMem + Drop> {
    pub(crate) alloc: Global,
    spm: Spm<M>,
    kept: BTreeMap<u16, Call>,
}

impl<M: TableMem + Drop> World<M> {
    /// The manager before any call, and empty TX buffers.
    pub fn boot(alloc: Global, manifest: Manifest) -> Result<Self, OutOfMemory>
        ensures { IfOk result (λ world.
            spec.world_at world.spm.state (get nat_cmp world.kept) ≡ spec.world_of manifest) }
    {
        let spm = Spm::boot(alloc, manifest)?;
        let kept = BTreeMap::new(alloc);
        Ok(World { alloc, spm, kept })
    }

    /// The manager.
    pub fn spm(&self) -> &Spm<M>
        ensures { result.now ≡ self.now.spm }
    {
        &self.spm
    }

    /// Does what a line says, and appends what it writes. An error may leave a beginning of that.
    #[tactic(auto, using(crate::proofs::Worlds::same_world), unfolding(crate::specs::Script::IsTextOf, crate::specs::Script::after))]
    pub fn line(&mut self, line: Line, text: &mut Vec<u8>) -> Result<(), OutOfMemory>
        requires { HasParts line }
        ensures text { OnOk result (spec.AppendsText (spec.world_at self.old.spm.state (get nat_cmp self.old.kept)) (said line)
            text.old.items text.new.items) }
        ensures after { OnOk result (spec.world_at self.new.spm.state (get nat_cmp self.new.kept)
            ≡ spec.after (spec.world_at self.old.spm.state (get nat_cmp self.old.kept)) (said line)) }
    {
        match line {
            Line::Nothing => Ok(()),
            Line::Tx(id, bytes) => self.keep(id, bytes),
            Line::Call(id, regs) => self.call(id, regs, text),
            Line::Send(kind, send) => self.send(kind, &send, text),
            Line::Retrieve(fields) => self.retrieve(&fields, text),
            Line::Relinquish(fields) => self.relinquish(&fields, text),
            Line::Reclaim(reclaim) => {
                let regs = reclaim_registers(reclaim.handle, reclaim.clears);
                self.call(reclaim.caller, regs, text)
            }
            Line::Maps(id) => self.maps(id, text),
            Line::Tables(id) => self.tables(id, text),
            Line::Owners => self.owners(text),
            Line::Operations => Ok(write_operations(self.spm.last_ops(), text)?),
            Line::Audit => self.audit(text),
        }
    }

    /// Keeps bytes as those of a partition's TX buffer.
    fn keep(&mut self, id: PartitionId, bytes: Vec<u8>) -> Result<(), OutOfMemory>
        ensures state { OnOk result (self.new.spm.state ≡ self.old.spm.state) }
        ensures kept { OnOk result ((p : ℕ) → spec.kept_by (get nat_cmp self.new.kept) p
            ≡ spec.with_kept id bytes.items (spec.kept_by (get nat_cmp self.old.kept)) p) }
    {
        let caller = id.number();
        let call = Call {
            caller,
            regs: [0; 8],
            tx: bytes,
        };
        self.kept.insert(caller, call)?;
        Ok(())
    }

    /// A call with these registers and the bytes that are kept for its caller.
    fn call(
        &mut self,
        id: PartitionId,
        regs: [u64; 8],
        text: &mut Vec<u8>,
    ) -> Result<(), OutOfMemory>
        ensures text { OnOk result (text.new.items ≡ text.old.items
            ++ reply_text (rules.answer self.old.spm.state (spec.call_by (spec.kept_by (get nat_cmp self.old.kept)) id regs))) }
        ensures state { OnOk result (self.new.spm.state ≡ rules.step self.old.spm.state (spec.call_by (spec.kept_by (get nat_cmp self.old.kept)) id regs)) }
        ensures kept { OnOk result ((p : ℕ) → spec.kept_by (get nat_cmp self.new.kept) p
            ≡ spec.kept_by (get nat_cmp self.old.kept) p) }
    {
        let caller = id.number();
        match self.kept.get_mut(&caller) {
            Some(call) => {
                call.caller = caller;
                call.regs = regs;
                answer(&mut self.spm, call, text)
            }
            None => {
                let tx = Vec::new(self.alloc);
                answer(&mut self.spm, &Call { caller, regs, tx }, text)
            }
        }
    }

    /// A send whose descriptor is in the layout of the sender's version. The bytes that are kept for it
    /// stay.
    fn send(&mut self, kind: Kind, send: &SendLine, text: &mut Vec<u8>) -> Result<(), OutOfMemory>
        requires { IsWhole send.now }
        ensures text { OnOk result (text.new.items ≡ text.old.items
            ++ reply_text (rules.answer self.old.spm.state (spec.send_call self.old.spm.state kind (said_send send.now)))) }
        ensures state { OnOk result (self.new.spm.state ≡ rules.step self.old.spm.state (spec.send_call self.old.spm.state kind (said_send send.now))) }
        ensures kept { OnOk result (self.new.kept ≡ self.old.kept) }
    {
        let header = HeaderFields {
            sender: send.sender,
            attributes: attributes_of(kind, send.receivers.len()),
            flags: u32::from(send.clears),
            handle: Handle::from_bits(0),
            tag: send.tag,
        };
        let fields = SendFields {
            header,
            receivers: &send.receivers,
            total: send.total,
            ranges: &send.ranges,
        };
        let tx = write_send(self.alloc, self.spm.version(send.sender), &fields)?;
        self.hand_over(send.sender, identifier_of(kind), tx, text)
    }

    /// A retrieve request in the layout of the caller's version. The bytes that are kept for it stay.
    fn retrieve(&mut self, fields: &RetrieveFields, text: &mut Vec<u8>) -> Result<(), OutOfMemory>
        ensures text { OnOk result (text.new.items ≡ text.old.items
            ++ reply_text (rules.answer self.old.spm.state (spec.retrieve_call self.old.spm.state fields.now))) }
        ensures state { OnOk result (self.new.spm.state ≡ rules.step self.old.spm.state (spec.retrieve_call self.old.spm.state fields.now)) }
        ensures kept { OnOk result (self.new.kept ≡ self.old.kept) }
    {
        let id = fields.endpoint.partition;
        let tx = write_retrieve(self.alloc, self.spm.version(id), fields)?;
        self.hand_over(id, FFA_MEM_RETRIEVE_REQ, tx, text)
    }

    /// A call whose whole descriptor is in TX.
    fn hand_over(
        &mut self,
        id: PartitionId,
        function: u32,
        tx: Vec<u8>,
        text: &mut Vec<u8>,
    ) -> Result<(), OutOfMemory>
        ensures text { OnOk result (text.new.items ≡ text.old.items
            ++ reply_text (rules.answer self.old.spm.state (spec.handed_over id function tx.items))) }
        ensures state { OnOk result (self.new.spm.state ≡ rules.step self.old.spm.state (spec.handed_over id function tx.items)) }
        ensures kept { OnOk result (self.new.kept ≡ self.old.kept) }
    {
        let length = tx.len() as u64;
        let call = Call {
            caller: id.number(),
            regs: [u64::from(function), length, length, 0, 0, 0, 0, 0],
            tx,
        };
        answer(&mut self.spm, &call, text)
    }

    /// A relinquish, whose registers say nothing. The bytes that are kept for the caller stay.
    fn relinquish(
        &mut self,
        fields: &RelinquishFields,
        text: &mut Vec<u8>,
    ) -> Result<(), OutOfMemory>
        ensures text { OnOk result (text.new.items ≡ text.old.items
            ++ reply_text (rules.answer self.old.spm.state (spec.relinquish_call fields.now))) }
        ensures state { OnOk result (self.new.spm.state ≡ rules.step self.old.spm.state (spec.relinquish_call fields.now)) }
        ensures kept { OnOk result (self.new.kept ≡ self.old.kept) }
    {
        let tx = write_relinquish(self.alloc, fields)?;
        let call = Call {
            caller: fields.endpoint.number(),
            regs: [u64::from(FFA_MEM_RELINQUISH), 0, 0, 0, 0, 0, 0, 0],
            tx,
        };
        answer(&mut self.spm, &call, text)
    }

    /// What a partition reaches.
    fn maps(&self, id: PartitionId, text: &mut Vec<u8>) -> Result<(), OutOfMemory>
        ensures { OnOk result (text.new.items
            ≡ text.old.items ++ texts.maps_text id (state.sees self.now.spm.state id)) }
    {
        append_maps(text, self.spm.tables(), id)
    }

    /// The entries of a partition's tables.
    fn tables(&self, id: PartitionId, text: &mut Vec<u8>) -> Result<(), OutOfMemory>
        ensures { OnOk result (text.new.items
            ≡ text.old.items ++ texts.tables_text id (state.sees self.now.spm.state id)) }
    {
        append_tables(text, self.spm.tables(), id)
    }

    /// Who owns which pages.
    fn owners(&self, text: &mut Vec<u8>) -> Result<(), OutOfMemory>
        ensures { OnOk result (text.new.items
            ≡ text.old.items ++ texts.owners_text self.now.spm.state.manifest self.now.spm.state.donations) }
    {
        append_owners(text, self.spm.ledger())
    }

    /// Whether the tables are those that are made again from the ledger.
    fn audit(&self, text: &mut Vec<u8>) -> Result<(), OutOfMemory>
        ensures { OnOk result (text.new.items
            ≡ text.old.items ++ codes "equal\n") }
    {
        let manifest = self.spm.manifest();
        append_audit(
            text,
            self.alloc,
            manifest,
            self.spm.tables(),
            self.spm.ledger(),
        )?;
        Ok(())
    }
}

/// Makes a call, and writes the reply.
fn answer<M: TableMem + Drop>(
    spm: &mut Spm<M>,
    call: &Call,
    text: &mut Vec<u8>,
) -> Result<(), OutOfMemory>
    ensures text { OnOk result
        (text.new.items ≡ text.old.items ++ reply_text (rules.answer spm.old.state call.now)) }
    ensures state { OnOk result (spm.new.state ≡ rules.step spm.old.state call.now) }
{
    let reply = spm.handle(call)?;
    Ok(write_reply(&reply, text)?)
}

/// The registers of a reclaim. The flag that orders a clear is bit 0 of w3.
fn reclaim_registers(handle: Handle, clears: bool) -> [u64; 8]
    ensures { result ≡ spec.registers 0x84000077 (low_half handle) (high_half handle)
        (if clears then 1 else 0) }
{
    let (low, high) = (u64::from(handle.low()), u64::from(handle.high()));
    let flags = u64::from(clears);
    [u64::from(FFA_MEM_RECLAIM), low, high, flags, 0, 0, 0, 0]
}

/// The identifier of the 32-bit call that sends.
fn identifier_of(kind: Kind) -> u32
    ensures { result ≡ spec.identifier_of kind }
{
    match kind {
        Kind::Donate => FFA_MEM_DONATE,
        Kind::Lend => FFA_MEM_LEND,
        Kind::Share => FFA_MEM_SHARE,
    }
}

/// The memory region attributes that a send specifies: none where it has one receiver and is no share,
/// and else normal memory, write-back, inner shareable.
fn attributes_of(kind: Kind, receivers: usize) -> MemoryAttributes
    ensures { result ≡ spec.attributes_of kind receivers }
{
    match kind {
        Kind::Donate => MemoryAttributes::not_specified(),
        Kind::Lend if receivers == 1 => MemoryAttributes::not_specified(),
        Kind::Lend | Kind::Share => MemoryAttributes::normal_write_back(),
    }
}
