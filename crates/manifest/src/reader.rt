//! Reads a manifest from the bytes of a TOML document.

ghost use Rattle.std.specs.Prelude.{IfOk, IfErr};
ghost use Rattle.toml.specs.View.{view};
ghost use Rattle.manifest.specs.Document.{IsDocument, IsUnread, IsManifestOf, IsFirstFault};

use crate::document;
use crate::fault::ManifestFault;
use crate::manifest::Manifest;
use std::alloc::Global;
use toml::Value;

/// The TOML document of these bytes.
fn document_of(alloc: Global, bytes: &[u8]) -> Result<Value, ManifestFault>
    ensures ok { IfOk result (λ v. IsDocument bytes.now (view v)) }
    ensures fault { IfErr result (IsUnread bytes.now) }
{
    match toml::table_from_slice(alloc, bytes) {
        Ok(table) => Ok(Value::Table(table)),
        Err(error) => {
            if error.is_memory() {
                Err(ManifestFault::OutOfMemory)
            } else {
                Err(ManifestFault::NotToml)
            }
        }
    }
}

/// Reads a manifest from the bytes of a TOML document, UTF-8.
///
/// The document has the keys `pool`, `partition` and `region`, each partition `id` and `quota`, each
/// region `base`, `pages`, `kind`, `owner` and `grants`, and each grant `id`, `data` and `exec`; all
/// of them stand there, and no others. An error is the first rule that the whole document breaks, in
/// the order of the faults' numbers, or want of memory, which may come at any point.
pub fn read(alloc: Global, bytes: &[u8]) -> Result<Manifest, ManifestFault>
    ensures ok { IfOk result (IsManifestOf bytes.now) }
    ensures fault { IfErr result (IsFirstFault bytes.now) }
{
    let document = document_of(alloc, bytes)?;
    document::check_keys(&document)?;
    let rows = document::rows_of(alloc, &document)?;
    Manifest::new(alloc, &rows.in_order())
}
