use std::alloc::{AllocError, AllocFailed};

/// The status codes that FFA_ERROR carries (FF-A 1.1, "Status codes").
#[derive(Clone, Copy, Debug, PartialEq, Eq)]
pub enum Status {
    /// NOT_SUPPORTED, -1.
    NotSupported,
    /// INVALID_PARAMETERS, -2.
    InvalidParameters,
    /// NO_MEMORY, -3.
    NoMemory,
    /// BUSY, -4.
    Busy,
    /// DENIED, -6.
    Denied,
}

/// A growth of the heap was refused. Nothing has changed.
#[derive(Clone, Copy, Debug, PartialEq, Eq)]
pub struct OutOfMemory;

impl From<AllocError> for OutOfMemory {
    fn from(_error: AllocError) -> OutOfMemory {
        OutOfMemory
    }
}

impl<T: Drop> From<AllocFailed<T>> for OutOfMemory {
    fn from(_error: AllocFailed<T>) -> OutOfMemory {
        OutOfMemory
    }
}
