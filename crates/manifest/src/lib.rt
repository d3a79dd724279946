//! The manifest: which partitions there are, which regions of memory, and what is granted to whom.
#![tactic(auto)]

mod common;
mod document;
mod draft;
mod fault;
mod lookup;
mod manifest;
mod need;
mod reader;
mod region;

pub use common::common_manifest;
pub use fault::{Key, ManifestFault, Place, Table};
pub use manifest::{Manifest, Partition};
pub use reader::read;
pub use region::{Grant, Region};
