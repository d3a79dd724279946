use base::OutOfMemory;
use manifest::ManifestFault;
use std::alloc::{AllocError, AllocFailed};

/// Why a test ended early.
#[derive(Debug, Drop)]
pub(crate) enum Fault {
    Memory,
    Manifest(ManifestFault),
    /// Two managers have different manifests.
    Manifests,
    /// A call that a test makes is refused, or is too long for a descriptor.
    Refused,
    /// Two managers have the same entries, and are to differ.
    Alike,
}

impl From<OutOfMemory> for Fault {
    fn from(_error: OutOfMemory) -> Fault {
        Fault::Memory
    }
}

impl From<AllocError> for Fault {
    fn from(_error: AllocError) -> Fault {
        Fault::Memory
    }
}

impl<T: Drop> From<AllocFailed<T>> for Fault {
    fn from(_error: AllocFailed<T>) -> Fault {
        Fault::Memory
    }
}

impl From<ManifestFault> for Fault {
    fn from(fault: ManifestFault) -> Fault {
        Fault::Manifest(fault)
    }
}
