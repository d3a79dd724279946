//! Scripts, as bytes.

ghost use Rattle.std.specs.Prelude.{◌≡◌, ◌≢◌, ◌<◌, ◌≤◌, ◌+◌, ℕ, List, length, IfOk, IfErr, IfSome, IsErrOf};
ghost use Rattle.std.specs.Io.KnownBytes.{Consumes};
ghost use Rattle.script.specs.Left.{IsScriptOf, TellsOfReader, most_bytes};

use crate::fault::RunFault;
use crate::watched::Watched;
use std::alloc::Global;
use std::io::Read;

/// The most bytes of a script.
const MOST_SCRIPT: usize = 16_777_216;

/// The most bytes of one read.
const PIECE: usize = 4096;

/// All bytes of a script. Of one that is too long no more than one byte too many is read.
pub(crate) fn read_script<R: Read>(
    alloc: Global,
    reader: &mut Watched<R>,
) -> Result<Vec<u8>, RunFault>
    ensures whole { IfOk result
        (λ script. IsScriptOf (R.remaining reader.old.inner) script.items) }
    ensures short { IfOk result (λ script. length script.items ≤ most_bytes) }
    ensures failed { TellsOfReader reader.old.failed reader.new.failed result }
    ensures faults { IfErr result (λ fault. (fault ≢ RunFault.Write) × ((n : ℕ) → fault ≢ RunFault.Line n)) }
    ensures too_long { IsErrOf result RunFault.TooLong
        → IfSome (R.remaining reader.old.inner) (λ all. most_bytes < length all) }
    ensures at_most { (taken : List ℕ) × (length taken ≤ most_bytes + 1)
        × Consumes (R.remaining reader.old.inner) (R.remaining reader.new.inner) taken }
{
    let mut script = Vec::new(alloc);
    let mut piece = [0; PIECE];
    while script.len() <= MOST_SCRIPT {
        let most = PIECE.min(MOST_SCRIPT + 1 - script.len());
        match reader.read(&mut piece[..most]) {
            Ok(0) => return Ok(script),
            Ok(count) => script.extend_from_slice(&piece[..count])?,
            Err(_) => return Err(RunFault::Read),
        }
    }
    Err(RunFault::TooLong)
}
