//! Lines of receivers.

ghost use Rattle.std.specs.Prelude.{◌≡◌, ◌≤◌, IfSome, IsTrue};
ghost use Rattle.base.specs.Descriptors.Send.{are_clear_flags};
ghost use Rattle.lines.specs.Lines.{texts};
ghost use Rattle.lines.specs.Grammar.{retrieve_of, relinquish_of, type_of};

use crate::words::{read_id, read_last_word, read_number, read_permissions};
use base::{Handle, MemoryAttributes};
use descr::Endpoint;
use descw::{HeaderFields, RelinquishFields, RetrieveFields};

/// Bit 10 of the flags of a retrieve request: the check that it names all borrowers is bypassed.
const BYPASS: u32 = 0x400;

/// Bit 0 of the flags of a relinquish: the pages are to be cleared.
const CLEAR: u32 = 1;

/// The retrieve request that the words `ID NUM ID NUM TYPE PERM` say: who asks, the handle, the sender,
/// the tag, the type and the permissions; where other borrowers are not named, with a last word `alone`.
pub(crate) fn read_retrieve(words: &[&[u8]]) -> Option<RetrieveFields>
    ensures { result ≡ retrieve_of (texts words.now) }
{
    let [id, handle, sender, tag, kind, permissions, last @ ..] = words else {
        return None;
    };
    let bypass = if read_last_word("alone", last)? {
        BYPASS
    } else {
        0
    };
    let header = HeaderFields {
        sender: read_id(sender)?,
        attributes: MemoryAttributes::normal_write_back(),
        flags: read_kind(kind)? + bypass,
        handle: Handle::from_bits(read_number(handle)?),
        tag: read_number(tag)?,
    };
    let endpoint = Endpoint {
        partition: read_id(id)?,
        permissions: read_permissions(permissions)?,
    };
    Some(RetrieveFields { header, endpoint })
}

/// The type in bits 4:3 of the flags that a digit 0 to 3 is: any, share, lend or donate.
fn read_kind(word: &[u8]) -> Option<u32>
    ensures value { result ≡ type_of word.now }
    ensures small { IfSome result (λ kind. kind ≤ 24) }
{
    match word {
        b"0" => Some(0),
        b"1" => Some(8),
        b"2" => Some(16),
        b"3" => Some(24),
        _ => None,
    }
}

/// The relinquish that the words `ID NUM` say: who gives up, and the handle; where the pages are to be
/// cleared, with a last word `zero`.
pub(crate) fn read_relinquish(words: &[&[u8]]) -> Option<RelinquishFields>
    ensures fields { result ≡ relinquish_of (texts words.now) }
    ensures flags { IfSome result (λ fields. IsTrue (are_clear_flags fields.flags)) }
{
    let [id, handle, last @ ..] = words else {
        return None;
    };
    let clears = read_last_word("zero", last)?;
    Some(RelinquishFields {
        handle: Handle::from_bits(read_number(handle)?),
        flags: if clears { CLEAR } else { 0 },
        endpoint: read_id(id)?,
    })
}
