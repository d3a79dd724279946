ghost use Rattle.std.specs.Prelude.{◌≡◌};
ghost use Rattle.pool.specs.Address.{address_of, AreTakenWritten};

use crate::block::Block;
use crate::table_pool::TablePool;

/// Table memory in one block of raw memory: the word of page j at index i stands at place
/// `512 * j + i` from `address` on, as a processor reads it that walks the tables. The pages of roots are
/// written when the memory is made, and a page of a share when it is first taken: until then no table names it,
/// its words are 0, and what lies at its place is not touched. So memory that is asked for and not needed costs
/// no time.
///
/// The block has 4,096 bytes for each page, and is asked for in one piece, aligned to 8 bytes. Where
/// a processor is to walk the tables, the allocator below `Global` has to align a block of whole pages
/// to 4,096: `Global` refuses a wish for more than 16.
pub type RawPool = TablePool<Block>;

impl TablePool<Block> {
    /// Where the word of page 0 at index 0 lies. The pointer is good as long as the memory is, and
    /// gives no right to read or write there. Each root and each page that is taken is written there; a page
    /// that was never taken holds what was there before.
    ///
    /// No processor walks the block while a call changes the memory. What is proved of walkers is said of the
    /// list of operations, done one by one; here words that follow one another are written together once all
    /// their operations are recorded, in any order, and not by one store of 64 bits each. Tables that are walked
    /// meanwhile are others, on which the operations are replayed.
    pub fn address(&self) -> *const u64
        ensures place { result ≡ address_of self.now }
        ensures written { AreTakenWritten self.now }
    {
        self.store.address()
    }
}
