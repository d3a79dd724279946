//! Making the manager, and its end.

ghost use Rattle.std.specs.Prelude.{◌≡◌, ◌≢◌, Some, None, IsSome, IsNone, IfOk, IfErr, IfSome};
ghost use Rattle.manifest.specs.Document.{IsFirstFault};
ghost use Rattle.ffaspm_c.specs.Answers as answers;
ghost use Rattle.ffaspm_c.specs.Answers.{IsBooted, IsMakeAnswer};

use crate::holder::Holder;
use crate::kept::Manager;
use crate::status::{DONE, MADE_ALREADY, NOT_MADE};
use manifest::{ManifestFault, read};
use spm::Spm;
use std::alloc::Global;

/// The manager of the manifest in a document.
fn booted(alloc: Global, document: &[u8]) -> Result<Box<Manager>, ManifestFault>
    ensures ok { IfOk result (λ spm. IsBooted document.now spm.value) }
    ensures fault { IfErr result (IsFirstFault document.now) }
{
    let manifest = read(alloc, document)?;
    let spm = Spm::boot(alloc, manifest)?;
    Ok(Box::new(alloc, spm)?)
}

/// Makes the manager of the manifest in a document, which is TOML in UTF-8, before any call. It is
/// refused with the number of the document's first fault (11 is want of memory), or as
/// `MADE_ALREADY`, and then nothing changes.
#[unsafe(no_mangle)]
pub extern "C" fn ffaspm_make(alloc: Global, holder: &mut Holder, document: &[u8]) -> u32
    ensures answer { IsMakeAnswer document.now result }
    ensures made { result ≡ answers.done →
        IfSome holder.new.kept.manager (IsBooted document.now) }
    ensures is_made { result ≡ answers.done → IsSome holder.new.kept.manager }
    ensures in_place_of_none { result ≡ answers.done → IsNone holder.old.kept.manager }
    ensures refused { result ≢ answers.done →
        holder.new.kept.manager ≡ holder.old.kept.manager }
    ensures already { IsSome holder.old.kept.manager → result ≡ answers.made_already }
{
    if let Some(held) = holder.take(alloc) {
        holder.put(held);
        return MADE_ALREADY;
    }
    match booted(alloc, document) {
        Ok(spm) => {
            holder.put(spm);
            DONE
        }
        Err(fault) => u32::from(fault.number()),
    }
}

/// Ends the manager, and gives back all memory that it has: `NOT_MADE` where there is none.
#[unsafe(no_mangle)]
pub extern "C" fn ffaspm_end(alloc: Global, holder: &mut Holder) -> u32
    ensures ended { holder.new.kept.manager ≡ None }
    ensures none { result ≡ answers.not_made → holder.old.kept.manager ≡ None }
    ensures some { result ≡ answers.done → IsSome holder.old.kept.manager }
{
    match holder.take(alloc) {
        Some(spm) => {
            drop(spm);
            DONE
        }
        None => NOT_MADE,
    }
}
