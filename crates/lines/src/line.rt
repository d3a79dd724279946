ghost use Rattle.std.specs.Prelude.{◌≡◌, ◌<◌, ◌≤◌, length, option_map, MatchOption, IfSome, IfOk};
ghost use Rattle.lines.specs.Lines.{texts, HasParts};
ghost use Rattle.lines.specs.Said.{said};
ghost use Rattle.lines.specs.Grammar.{parted_by, registers_of, copy_of, tx_of, call_of, only_id, named, line_of};

use crate::receive::{read_relinquish, read_retrieve};
use crate::send::{ReclaimLine, SendLine, read_reclaim, read_send};
use crate::words::{first_part, read_id, read_number};
use arrayvec::ArrayVec;
use base::{Kind, OutOfMemory, PartitionId};
use descw::{RelinquishFields, RetrieveFields};
use hex::FromHexError;
use std::alloc::Global;
use std::str;

/// The most bytes of a line, its line feed apart.
const MOST_BYTES: usize = 66_000;

/// The most bytes of a copy of a TX buffer.
const MOST_TX: usize = 32_768;

/// The most words of a line: `call`, the caller and eight registers.
const MOST_WORDS: usize = 10;

/// A line of a script.
#[derive(Debug, Drop, PartialEq, Eq)]
pub enum Line {
    /// An empty line, or one that begins with `#`.
    Nothing,
    /// `tx ID HEX`, or `tx ID` for none: the bytes that ID's TX buffer holds at its next calls.
    Tx(PartitionId, Vec<u8>),
    /// `call ID NUM ..`: a call with these registers, of which 1 to 8 are named and the others are 0.
    Call(PartitionId, [u64; 8]),
    /// `share`, `lend` or `donate`, then `ID NUM RECEIVERS RANGES`, and the same with a last word `zero`: a
    /// send of this kind by ID with tag NUM. RECEIVERS are 1 to 8 of `ID:PERM` and RANGES 1 to 512 of
    /// `NUM+COUNT`, both parted by commas. `zero` orders that the pages are cleared.
    Send(Kind, SendLine),
    /// `retrieve ID NUM ID NUM TYPE PERM`, and the same with a last word `alone`: a retrieve request by the
    /// first ID of the transaction whose handle is the first NUM, with the sender, the tag, the type and
    /// the permissions. `alone` bypasses the check that all borrowers are named.
    Retrieve(RetrieveFields),
    /// `relinquish ID NUM`, and the same with a last word `zero`: ID relinquishes the transaction whose
    /// handle is NUM. `zero` orders that its pages are cleared.
    Relinquish(RelinquishFields),
    /// `reclaim ID NUM`, and the same with a last word `zero`: a reclaim by ID of the transaction whose
    /// handle is NUM. `zero` orders that its pages are cleared.
    Reclaim(ReclaimLine),
    /// `maps ID`: what ID reaches.
    Maps(PartitionId),
    /// `tables ID`: the valid entries of ID's translation tables.
    Tables(PartitionId),
    /// `owners`: who owns which pages.
    Owners,
    /// `ops`: the operations on the tables during the last call.
    Operations,
    /// `audit`: whether the tables are those that are made again from the donations and the live
    /// transactions.
    Audit,
}

/// The line that the bytes are, without their line feed; None where they are none. Words are parted by
/// one blank. ID has four digits, NUM 1 to 16 and PERM two, lower case and hexadecimal; HEX has two
/// digits for each byte, in either case. COUNT is decimal, without a leading zero, and the counts of a
/// line have a sum below 2^32.
#[tactic(auto, unfolding(crate::specs::Grammar::line_of))]
pub fn read_line(alloc: Global, bytes: &[u8]) -> Result<Option<Line>, OutOfMemory>
    // The line is the one that the bytes spell, and None exactly where they spell none.
    ensures line { IfOk result (λ line. option_map said line ≡ line_of bytes.now) }

    // A copy of a TX buffer is no longer than one, a send has its total and not too many ranges, and a
    // relinquish no flag but one that orders a clear.
    ensures parts { IfOk result (λ line. IfSome line HasParts) }
{
    if bytes.len() > MOST_BYTES {
        return Ok(None);
    }
    if bytes.is_empty() || bytes[0] == b'#' {
        return Ok(Some(Line::Nothing));
    }
    // Where bytes are no text, no memory is asked for.
    let Ok(_) = str::from_utf8(bytes) else {
        return Ok(None);
    };
    let Some(words) = words_of(bytes) else {
        return Ok(None);
    };
    match words.as_slice() {
        [name, words @ ..] => read_named(alloc, name, words),
        [] => Ok(None),
    }
}

/// The words between blanks, where they are not too many.
fn words_of(bytes: &[u8]) -> Option<ArrayVec<&[u8], MOST_WORDS>>
    ensures { MatchOption result (10 < length (parted_by 32 bytes.now))
        (λ words. texts words.items ≡ parted_by 32 bytes.now) }
{
    let mut words = ArrayVec::new();
    let mut left = Some(bytes);
    while let Some(parts) = left {
        let (word, behind) = first_part(parts, b' ');
        left = behind;
        if words.is_full() {
            return None;
        }
        words.push(word);
    }
    Some(words)
}

/// The line of this name that the words after it say.
fn read_named(alloc: Global, name: &[u8], words: &[&[u8]]) -> Result<Option<Line>, OutOfMemory>
    ensures line { IfOk result (λ line. option_map said line ≡ named name.now (texts words.now)) }
    ensures parts { IfOk result (λ line. IfSome line HasParts) }
{
    let Ok(name) = str::from_utf8(name) else {
        return Ok(None);
    };
    match name {
        "tx" => read_tx(alloc, words),
        "call" => Ok(read_call(words)),
        "share" => Ok(read_send(alloc, words)?.map(|send| Line::Send(Kind::Share, send))),
        "lend" => Ok(read_send(alloc, words)?.map(|send| Line::Send(Kind::Lend, send))),
        "donate" => Ok(read_send(alloc, words)?.map(|send| Line::Send(Kind::Donate, send))),
        "retrieve" => Ok(read_retrieve(words).map(Line::Retrieve)),
        "relinquish" => Ok(read_relinquish(words).map(Line::Relinquish)),
        "reclaim" => Ok(read_reclaim(words).map(Line::Reclaim)),
        "maps" => Ok(read_only_id(words).map(Line::Maps)),
        "tables" => Ok(read_only_id(words).map(Line::Tables)),
        "owners" => Ok(words.is_empty().then_some(Line::Owners)),
        "ops" => Ok(words.is_empty().then_some(Line::Operations)),
        "audit" => Ok(words.is_empty().then_some(Line::Audit)),
        _ => Ok(None),
    }
}

/// The identifier that is the one word.
fn read_only_id(words: &[&[u8]]) -> Option<PartitionId>
    ensures { result ≡ only_id (texts words.now) }
{
    match words {
        [id] => read_id(id),
        _ => None,
    }
}

/// The copy of a TX buffer that the words `ID HEX` say, or `ID` for none.
fn read_tx(alloc: Global, words: &[&[u8]]) -> Result<Option<Line>, OutOfMemory>
    ensures line { IfOk result (λ line. option_map said line ≡ tx_of (texts words.now)) }
    ensures parts { IfOk result (λ line. IfSome line HasParts) }
{
    match words {
        [id] => Ok(read_id(id).map(|id| Line::Tx(id, Vec::new(alloc)))),
        [id, hex] => match read_id(id) {
            Some(id) => Ok(read_copy(alloc, hex)?.map(|bytes| Line::Tx(id, bytes))),
            None => Ok(None),
        },
        _ => Ok(None),
    }
}

/// The bytes that two digits each are, where there are some and not too many.
fn read_copy(alloc: Global, hex: &[u8]) -> Result<Option<Vec<u8>>, OutOfMemory>
    ensures copy { IfOk result (λ found. option_map (λ bytes. bytes.items) found ≡ copy_of hex.now) }
    ensures few { IfOk result (λ found. IfSome found (λ bytes. length bytes.items ≤ 32768)) }
{
    if hex.is_empty() {
        return Ok(None);
    }
    match hex::decode(alloc, hex) {
        Ok(bytes) if bytes.len() <= MOST_TX => Ok(Some(bytes)),
        Ok(_) => Ok(None),
        Err(error) => match error {
            FromHexError::OutOfMemory => Err(OutOfMemory),
            _ => Ok(None),
        },
    }
}

/// The call that the words `ID NUM ..` say.
fn read_call(words: &[&[u8]]) -> Option<Line>
    ensures line { option_map said result ≡ call_of (texts words.now) }
    ensures parts { IfSome result HasParts }
{
    let [id, numbers @ ..] = words else {
        return None;
    };
    Some(Line::Call(read_id(id)?, read_registers(numbers)?))
}

/// The registers of which the first are named, at least one and at most eight; the others are 0.
fn read_registers(words: &[&[u8]]) -> Option<[u64; 8]>
    ensures { result ≡ registers_of (texts words.now) }
{
    let mut registers = [0; 8];
    if words.is_empty() || words.len() > registers.len() {
        return None;
    }
    for (i, word) in words.iter().enumerate() {
        registers[i] = read_number(word)?;
    }
    Some(registers)
}
