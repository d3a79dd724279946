use base::{PartitionId, Run};

/// One thing that was done, as the walkers of other processors see it.
#[derive(Clone, Copy, Debug, PartialEq, Eq)]
pub enum Op {
    /// A word was written.
    Set { page: u32, index: u32, word: u64 },
    /// The translations of a partition's pages were invalidated.
    Invalidate { who: PartitionId, run: Run },
    /// The contents of these pages were cleared.
    Clear { run: Run },
}
