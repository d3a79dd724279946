//! What the exports answer. 1 to 11 are the faults of a manifest, of which 11 is want of memory.

/// It was done.
pub(crate) const DONE: u32 = 0;

/// The heap had no room. Nothing was changed.
pub(crate) const NO_MEMORY: u32 = 11;

/// There is no manager.
pub(crate) const NOT_MADE: u32 = 12;

/// There is a manager already.
pub(crate) const MADE_ALREADY: u32 = 13;

/// The room for RX is smaller than the caller's RX buffer. Nothing was changed.
pub(crate) const RX_SHORT: u32 = 14;

/// There is no such operation, partition, owner, buffer or page.
pub(crate) const NOTHING_THERE: u32 = 15;
