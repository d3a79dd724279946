ghost use Rattle.std.specs.Prelude.{◌≡◌};
ghost use Rattle.pool.specs.Writing.{log_of};

use crate::operation::Op;
use std::mem::replace;

/// The list of operations while words of a page are written, and how many words of that page are not 0. The list is
/// owned meanwhile, so that its length can stay in a register.
pub(crate) struct Log {
    pub(crate) operations: Vec<Op>,
    pub(crate) nonzero: u32,
}

impl Log {
    /// Takes a list: an empty one stands in its place meanwhile.
    #[inline(always)]
    pub(crate) fn take(operations: &mut Vec<Op>, nonzero: u32) -> Self
        ensures { result ≡ log_of operations.old nonzero }
    {
        let alloc = *operations.allocator();
        Log {
            operations: replace(operations, Vec::new(alloc)),
            nonzero,
        }
    }
}
