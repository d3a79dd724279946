//! Text on its way to a writer.

ghost use Rattle.std.specs.Prelude.{◌≡◌, [], true, OnOk, IfErr, OnErr};
ghost use Rattle.std.specs.Io.KnownBytes.{Appends};
ghost use Rattle.script.specs.Output.{AppendsBeginning, IsPartWritten};

use crate::fault::RunFault;
use crate::watched::Watched;
use std::io::Write;

/// The bytes that are gathered before they are written.
const MOST_GATHERED: usize = 65_536;

/// Writes a text and empties it, once it is long.
pub(crate) fn write_if_long<W: Write>(
    text: &mut Vec<u8>,
    writer: &mut Watched<W>,
) -> Result<(), RunFault>
    ensures written { OnOk result (IsPartWritten (W.contents writer.old.inner)
        (W.contents writer.new.inner) text.old.items text.new.items) }
    // What was written is a beginning of the text.
    ensures beginning { OnErr result
        (AppendsBeginning (W.contents writer.old.inner) (W.contents writer.new.inner) text.old.items) }
    ensures unfailed { OnOk result (writer.new.failed ≡ writer.old.failed) }
    ensures failed { IfErr result (λ fault. (fault ≡ RunFault.Write) × (writer.new.failed ≡ true)) }
{
    if text.len() < MOST_GATHERED {
        return Ok(());
    }
    write_out(text, writer)
}

/// Writes a text and empties it.
pub(crate) fn write_out<W: Write>(
    text: &mut Vec<u8>,
    writer: &mut Watched<W>,
) -> Result<(), RunFault>
    ensures written { OnOk result
        (Appends (W.contents writer.old.inner) (W.contents writer.new.inner) text.old.items) }
    ensures emptied { OnOk result (text.new.items ≡ []) }
    ensures beginning { OnErr result
        (AppendsBeginning (W.contents writer.old.inner) (W.contents writer.new.inner) text.old.items) }
    ensures unfailed { OnOk result (writer.new.failed ≡ writer.old.failed) }
    ensures failed { IfErr result (λ fault. (fault ≡ RunFault.Write) × (writer.new.failed ≡ true)) }
{
    write_bytes(text, writer)?;
    text.clear();
    Ok(())
}

/// Writes bytes. No write is tried again.
fn write_bytes<W: Write>(bytes: &[u8], writer: &mut Watched<W>) -> Result<(), RunFault>
    ensures written { OnOk result
        (Appends (W.contents writer.old.inner) (W.contents writer.new.inner) bytes.now) }
    ensures beginning { OnErr result
        (AppendsBeginning (W.contents writer.old.inner) (W.contents writer.new.inner) bytes.now) }
    ensures unfailed { OnOk result (writer.new.failed ≡ writer.old.failed) }
    ensures failed { IfErr result (λ fault. (fault ≡ RunFault.Write) × (writer.new.failed ≡ true)) }
{
    let mut written = 0;
    while written < bytes.len() {
        match writer.write(&bytes[written..]) {
            Ok(0) => return Err(RunFault::Write),
            Ok(count) => written += count,
            Err(_) => return Err(RunFault::Write),
        }
    }
    Ok(())
}

/// Writes the last of a text, and flushes.
pub(crate) fn finish<W: Write>(text: &mut Vec<u8>, writer: &mut Watched<W>) -> Result<(), RunFault>
    ensures written { OnOk result
        (Appends (W.contents writer.old.inner) (W.contents writer.new.inner) text.old.items) }
    ensures emptied { OnOk result (text.new.items ≡ []) }
    // What was written is a beginning of the text.
    ensures beginning { OnErr result
        (AppendsBeginning (W.contents writer.old.inner) (W.contents writer.new.inner) text.old.items) }
    ensures unfailed { OnOk result (writer.new.failed ≡ writer.old.failed) }
    ensures failed { IfErr result (λ fault. (fault ≡ RunFault.Write) × (writer.new.failed ≡ true)) }
{
    write_out(text, writer)?;
    writer.flush().map_err(|_| RunFault::Write)
}
