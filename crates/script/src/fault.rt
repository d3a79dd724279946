ghost use Rattle.std.specs.Prelude.{◌≡◌};
ghost use Rattle.script.specs.declared.fault.RunFault.TheVariants.{Memory};

use base::OutOfMemory;
use std::alloc::{AllocError, AllocFailed};

/// Why the run of a script ended early.
#[derive(Clone, Copy, Debug, PartialEq, Eq)]
pub enum RunFault {
    /// The line with this number, from 1, is none. The text of the lines before it was written.
    Line(u32),
    /// The script has too many bytes. Nothing was written.
    TooLong,
    /// A growth of the heap was refused. A beginning of the text was written.
    Memory,
    /// The reader failed. Nothing was written.
    Read,
    /// The writer failed. A beginning of the text was written.
    Write,
}

impl From<OutOfMemory> for RunFault {
    ghost from_gives = { λ _ fault. fault ≡ Memory };

    fn from(_error: OutOfMemory) -> RunFault {
        RunFault::Memory
    }
}

impl From<AllocError> for RunFault {
    ghost from_gives = { λ _ fault. fault ≡ Memory };

    fn from(_error: AllocError) -> RunFault {
        RunFault::Memory
    }
}

impl<T: Drop> From<AllocFailed<T>> for RunFault {
    ghost from_gives = { λ _ fault. fault ≡ Memory };

    fn from(_error: AllocFailed<T>) -> RunFault {
        RunFault::Memory
    }
}
