use base::OutOfMemory;
use manifest::ManifestFault;
use script::RunFault;
use std::alloc::{AllocError, AllocFailed};
use std::{fmt, io};
use thiserror::Error;

/// Why a job ended early.
#[derive(Debug, Drop, Error)]
pub(crate) enum Fault {
    #[error("usage: jobs calls, crowd, replay, texts, start or all, and a number below 2^32")]
    Usage,
    #[error("out of memory")]
    Memory,
    #[error("{0}")]
    Manifest(ManifestFault),
    #[error("a script ended early")]
    Script,
    #[error("{0}")]
    Io(#[from] io::Error),
}

impl From<OutOfMemory> for Fault {
    fn from(_error: OutOfMemory) -> Fault {
        Fault::Memory
    }
}

impl From<AllocError> for Fault {
    fn from(_error: AllocError) -> Fault {
        Fault::Memory
    }
}

impl<T: Drop> From<AllocFailed<T>> for Fault {
    fn from(_error: AllocFailed<T>) -> Fault {
        Fault::Memory
    }
}

impl From<fmt::Error> for Fault {
    fn from(_error: fmt::Error) -> Fault {
        Fault::Memory
    }
}

impl From<ManifestFault> for Fault {
    fn from(fault: ManifestFault) -> Fault {
        Fault::Manifest(fault)
    }
}

impl From<RunFault> for Fault {
    fn from(_fault: RunFault) -> Fault {
        Fault::Script
    }
}
