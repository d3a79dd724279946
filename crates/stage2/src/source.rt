//! Words of tables that are read: those of a table memory, or of a copy.

ghost use Rattle.std.specs.Prelude.{◌≡◌, ℕ, ◌<◌, ◌≤◌, List};
ghost use Rattle.base.specs.Manifest.{page_count};
ghost use Rattle.pool.specs.Pool.{words_of, nonzero_in};

use base::limits::TABLE_WORDS;
use pool::{Image, TableMem};

/// Words of pages of table memory, 512 to a page.
pub trait WordSource {
    /// The words of all pages, one page behind another.
    ghost words: { Self → List ℕ };

    /// How many pages there are.
    ghost pages: { Self → ℕ };

    /// The word at an index of a page.
    fn word(&self, page: u32, index: u32) -> u64
        requires page_in { page < pages self.now }
        requires index_in { index < 512 }
        ensures { result ≡ words_of (words self.now) page index };

    /// How many words of a page are not 0 at most.
    fn most_words(&self, page: u32) -> u32
        requires { page < pages self.now }
        ensures { nonzero_in (words_of (words self.now)) page ≤ result };
}

/// The words of a table memory, which counts those of a page that are not 0.
#[derive(Drop)]
pub struct MemoryWords<'a, M: TableMem>(pub(crate) &'a M);

impl<'a, M: TableMem> WordSource for MemoryWords<'a, M> {
    ghost words = { λ m. (M.state m.0.now).memory.words };

    ghost pages = { λ m. page_count (M.state m.0.now).memory.quotas };

    fn word(&self, page: u32, index: u32) -> u64 {
        self.0.word(page, index)
    }

    fn most_words(&self, page: u32) -> u32 {
        self.0.nonzero(page)
    }
}

/// The words of a copy.
#[derive(Drop)]
pub struct ImageWords<'a>(pub(crate) &'a Image);

impl<'a> WordSource for ImageWords<'a> {
    ghost words = { λ m. m.0.now.words };

    ghost pages = { λ m. m.0.now.pages };

    fn word(&self, page: u32, index: u32) -> u64 {
        self.0.word(page, index)
    }

    fn most_words(&self, _page: u32) -> u32 {
        TABLE_WORDS
    }
}
