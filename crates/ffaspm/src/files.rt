//! The program's files.

use crate::fault::Fault;
use manifest::{Manifest, read};
use std::fs::File;
use std::io::{self, ErrorKind, Read};

/// The most bytes of a manifest.
const MOST_MANIFEST: usize = 1_048_576;

/// The bytes of a file; of one that has more than so many, one more than that.
fn read_at_most(rt: &HostRuntime, path: &str, most: usize) -> io::Result<Vec<u8>> {
    let mut bytes = Vec::new(rt.alloc());
    let limit = (most as u64).saturating_add(1);
    File::open(rt, path)?.take(limit).read_to_end(&mut bytes)?;
    Ok(bytes)
}

/// Want of memory, or else this fault.
fn fault_of(error: &io::Error, fault: Fault) -> Fault {
    match error.kind() {
        ErrorKind::OutOfMemory => Fault::Memory,
        _ => fault,
    }
}

/// The manifest in a file.
pub(crate) fn read_manifest(rt: &HostRuntime, path: &str) -> Result<Manifest, Fault> {
    let bytes = read_at_most(rt, path, MOST_MANIFEST).map_err(|error| fault_of(
        &error,
        Fault::ManifestFile,
    ))?;
    if bytes.len() > MOST_MANIFEST {
        return Err(Fault::ManifestFile);
    }
    Ok(read(rt.alloc(), &bytes)?)
}

/// Opens a script's file.
pub(crate) fn open_script(rt: &HostRuntime, path: &str) -> Result<File, Fault> {
    File::open(rt, path).map_err(|error| fault_of(&error, Fault::ScriptFile))
}
