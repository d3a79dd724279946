//! Answering calls (FF-A 1.1, "Interface overview").

ghost use Rattle.std.specs.Prelude.{◌≡◌, ◌≤◌, ◌<◌, ◌≢◌, ◌⊎◌, Some, None, length, IfOk, IfSome, OnOk, OnErr};
ghost use Rattle.rules.specs.Calls.Retrieve.{rx_size};
ghost use Rattle.rules.specs.Run as rules;
ghost use Rattle.wire.specs.Replies.{filled};
ghost use Rattle.ffaspm_c.specs.Answers as answers;
ghost use Rattle.ffaspm_c.specs.Answers.{call_from, rx_bytes, in_front, AreBoth, IsAnswered, IsLeft, IsReply};
ghost use Rattle.spm.specs.Machine.{MayNeedMemory, unchanged};

use crate::holder::Holder;
use crate::kept::Manager;
use crate::status::{DONE, NO_MEMORY, NOT_MADE, RX_SHORT};
use base::limits::PAGE_SIZE;
use base::{OutOfMemory, PartitionId};
use spm::{LentCall, Reply};
use std::alloc::Global;

/// A call: registers 0 to 7, and the identifier of the partition that calls.
#[repr(C)]
#[derive(Clone, Copy)]
pub struct CallIn {
    pub regs: [u64; 8],
    pub caller: u16,
}

/// A reply: registers 0 to 7, how many bytes of RX were filled (0: RX is not filled), and how many
/// operations were made on the tables.
#[repr(C)]
#[derive(Clone, Copy)]
pub struct ReplyOut {
    pub regs: [u64; 8],
    pub rx_length: usize,
    pub operations: usize,
}

/// How many bytes the RX buffer of a partition has; 0 where none is registered.
fn rx_size(spm: &Manager, p: PartitionId) -> usize
    ensures { result ≡ rx_size spm.now.state p }
{
    match spm.buffers(p) {
        Some(pair) => PAGE_SIZE as usize * pair.rx.count() as usize,
        None => 0,
    }
}

/// Answers the call. No memory is taken for its TX bytes.
fn answered(spm: &mut Manager, call: &CallIn, tx: &[u8]) -> Result<Reply, OutOfMemory>
    ensures answered { OnOk result
        (IsAnswered (call_from call.now.caller call.now.regs tx.now) spm.old spm.new) }
    ensures reply { IfOk result (λ reply. reply
        ≡ rules.answer spm.old.state (call_from call.now.caller call.now.regs tx.now)) }
    ensures err { OnErr result (unchanged spm.new ≡ unchanged spm.old) }
    ensures memory_after_the_tests { OnErr result
        (MayNeedMemory spm.old.state (call_from call.now.caller call.now.regs tx.now)) }
{
    let regs = call.regs;
    let call = LentCall {
        caller: call.caller,
        regs,
        tx,
    };
    spm.handle_lent(&call)
}

/// Copies bytes to the front of a room that holds them.
fn copy(bytes: &[u8], room: &mut [u8])
    requires { length bytes.now ≤ length room.old }
    ensures { room.new ≡ in_front bytes.now room.old }
{
    let (front, _rest) = room.split_at_mut(bytes.len());
    front.copy_from_slice(bytes);
}

/// Copies what RX is filled with, and tells how many bytes that is. The manager gets their memory back.
fn fill(spm: &mut Manager, response: Option<Vec<u8>>, rx: &mut [u8]) -> usize
    requires { length (answers.bytes_of (filled response)) ≤ length rx.old }
    ensures count { result ≡ length (answers.bytes_of (filled response)) }
    ensures bytes { rx.new ≡ in_front (answers.bytes_of (filled response)) rx.old }
    ensures same { spm.new ≡ spm.old }
{
    match response {
        Some(bytes) => {
            copy(&bytes, rx);
            let length = bytes.len();
            spm.give_back(bytes);
            length
        }
        None => 0,
    }
}

/// Tells why a call was not answered. The reply counts no operations.
fn unanswered(reply: &mut ReplyOut, status: u32) -> u32
    ensures reply { reply.new ≡ record reply.old { operations = 0 } }
    ensures status { result ≡ status }
{
    reply.operations = 0;
    status
}

/// The same where there is a manager, which then lists no operations, those of an earlier call neither.
fn left(spm: &mut Manager, reply: &mut ReplyOut, status: u32) -> u32
    ensures left { IsLeft spm.old spm.new }
    ensures reply { reply.new ≡ record reply.old { operations = 0 } }
    ensures status { result ≡ status }
{
    spm.forget_ops();
    unanswered(reply, status)
}

/// Answers the call where `rx` has room for the caller's whole RX buffer.
fn serve(spm: &mut Manager, call: &CallIn, tx: &[u8], rx: &mut [u8], reply: &mut ReplyOut) -> u32
    ensures answered { result ≡ answers.done →
        IsAnswered (call_from call.now.caller call.now.regs tx.now) spm.old spm.new }
    ensures reply { result ≡ answers.done →
        IsReply (rules.answer spm.old.state (call_from call.now.caller call.now.regs tx.now))
        reply.new.regs reply.new.rx_length rx.old rx.new }
    ensures operations { result ≡ answers.done →
        reply.new.operations ≡ length spm.new.pool.operations }
    ensures left { result ≢ answers.done → IsLeft spm.old spm.new }
    ensures untouched_reply { result ≢ answers.done → reply.new ≡ record reply.old { operations = 0 } }
    ensures untouched_rx { result ≢ answers.done → rx.new ≡ rx.old }
    ensures fits { result ≡ answers.rx_short → length rx.old < rx_size spm.old.state call.now.caller }
    ensures memory_after_the_tests { result ≡ answers.no_memory →
        MayNeedMemory spm.old.state (call_from call.now.caller call.now.regs tx.now) }
    ensures status { (result ≡ answers.done)
        ⊎ ((result ≡ answers.no_memory) ⊎ (result ≡ answers.rx_short)) }
{
    if rx.len() < rx_size(spm, PartitionId::new(call.caller)) {
        return left(spm, reply, RX_SHORT);
    }
    match answered(spm, call, tx) {
        Ok(answer) => {
            let Reply { regs, rx: response } = answer;
            let rx_length = fill(spm, response, rx);
            *reply = ReplyOut {
                regs,
                rx_length,
                operations: spm.last_ops().len(),
            };
            DONE
        }
        Err(_) => left(spm, reply, NO_MEMORY),
    }
}

/// Answers a call of a partition (FF-A 1.1, "Interface overview"), by its registers and one copy of
/// its TX buffer, which nobody writes meanwhile. It gives registers 0 to 7 of the reply, and what the caller's RX buffer is to be
/// filled with.
///
/// A call that is refused by its tests takes no memory. `NO_MEMORY` and `RX_SHORT` (the room for RX is smaller than the buffer that the caller has
/// registered) change nothing, and write nothing, but that the list of operations is empty then, and their count
/// in the reply 0: those of an earlier call are not to be replayed again. `NOT_MADE` writes this count alone.
#[unsafe(no_mangle)]
pub extern "C" fn ffaspm_handle(
    alloc: Global,
    holder: &mut Holder,
    call: &CallIn,
    tx: &[u8],
    rx: &mut [u8],
    reply: &mut ReplyOut,
) -> u32
    ensures answered { result ≡ answers.done →
        AreBoth (IsAnswered (call_from call.now.caller call.now.regs tx.now))
        holder.old.kept.manager holder.new.kept.manager }
    ensures reply { result ≡ answers.done → IfSome holder.old.kept.manager (λ m.
        IsReply (rules.answer m.state (call_from call.now.caller call.now.regs tx.now))
        reply.new.regs reply.new.rx_length rx.old rx.new) }
    ensures operations { result ≡ answers.done → IfSome holder.new.kept.manager (λ m.
        reply.new.operations ≡ length m.pool.operations) }
    ensures no_memory { result ≡ answers.no_memory →
        AreBoth IsLeft holder.old.kept.manager holder.new.kept.manager }
    ensures rx_short { result ≡ answers.rx_short →
        AreBoth IsLeft holder.old.kept.manager holder.new.kept.manager }
    ensures fits { result ≡ answers.rx_short → IfSome holder.old.kept.manager (λ m.
        length rx.old < rx_size m.state call.now.caller) }
    ensures memory_after_the_tests { result ≡ answers.no_memory → IfSome holder.old.kept.manager (λ m.
        MayNeedMemory m.state (call_from call.now.caller call.now.regs tx.now)) }
    ensures not_made { result ≡ answers.not_made → holder.old.kept.manager ≡ None }
    ensures none { holder.old.kept.manager ≡ None → result ≡ answers.not_made }
    ensures still_none { holder.old.kept.manager ≡ None → holder.new.kept.manager ≡ None }
    ensures untouched_reply { result ≢ answers.done → reply.new ≡ record reply.old { operations = 0 } }
    ensures untouched_rx { result ≢ answers.done → rx.new ≡ rx.old }
    ensures status { answers.IsHandleStatus result }
{
    match holder.take(alloc) {
        Some(mut spm) => {
            let status = serve(&mut spm, call, tx, rx, reply);
            holder.put(spm);
            status
        }
        None => unanswered(reply, NOT_MADE),
    }
}
