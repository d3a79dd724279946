use base::OutOfMemory;
use manifest::ManifestFault;
use script::RunFault;
use std::alloc::{AllocError, AllocFailed};
use thiserror::Error;

#[cfg(test)]
mod tests;

/// Why the program ends with a status other than 0, as its line on standard error says.
#[derive(Clone, Copy, Debug, PartialEq, Eq, Error)]
pub enum Fault {
    /// The program's words are neither `run MANIFEST SCRIPT` nor `check MANIFEST`.
    #[error("usage: ffaspm run MANIFEST SCRIPT or check MANIFEST")]
    Usage,
    /// The manifest breaks a rule.
    #[error("manifest: fault {}", .0.number())]
    Manifest(ManifestFault),
    /// The line of the script with this number, from 1, is none.
    #[error("script: line {0}")]
    Line(u32),
    /// The script has too many bytes.
    #[error("script: too long")]
    TooLong,
    /// A growth of the heap was refused.
    #[error("out of memory")]
    Memory,
    /// The manifest's file could not be read, or has too many bytes.
    #[error("file: manifest")]
    ManifestFile,
    /// The script's file could not be read.
    #[error("file: script")]
    ScriptFile,
    /// The text could not be written.
    #[error("file: output")]
    Output,
}

impl Fault {
    /// The exit status of the program.
    pub fn status(&self) -> u8 {
        match self {
            Fault::Manifest(ManifestFault::OutOfMemory) | Fault::Memory => 4,
            Fault::Manifest(_) => 1,
            Fault::Usage => 2,
            Fault::TooLong | Fault::Line(_) => 3,
            Fault::ManifestFile | Fault::ScriptFile | Fault::Output => 5,
        }
    }
}

impl From<OutOfMemory> for Fault {
    fn from(_error: OutOfMemory) -> Fault {
        Fault::Memory
    }
}

impl From<AllocError> for Fault {
    fn from(_error: AllocError) -> Fault {
        Fault::Memory
    }
}

impl<T: Drop> From<AllocFailed<T>> for Fault {
    fn from(_error: AllocFailed<T>) -> Fault {
        Fault::Memory
    }
}

impl From<ManifestFault> for Fault {
    fn from(fault: ManifestFault) -> Fault {
        match fault {
            ManifestFault::OutOfMemory => Fault::Memory,
            _ => Fault::Manifest(fault),
        }
    }
}

impl From<RunFault> for Fault {
    fn from(fault: RunFault) -> Fault {
        match fault {
            RunFault::Line(number) => Fault::Line(number),
            RunFault::TooLong => Fault::TooLong,
            RunFault::Memory => Fault::Memory,
            RunFault::Read => Fault::ScriptFile,
            RunFault::Write => Fault::Output,
        }
    }
}
