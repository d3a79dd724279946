ghost use Rattle.std.specs.Prelude.{◌≡◌, ◌*◌, ◌<◌, length};
ghost use Rattle.pool.specs.Pool as copies;
ghost use Rattle.pool.specs.Pool.{words_of, IsInImage, applied};

use crate::operation::Op;
use base::limits::TABLE_WORDS;
use std::marker::Model;

/// A copy of the words of all table pages, to which operations are applied one by one.
#[derive(Drop)]
pub struct Image {
    pages: usize,
    words: Vec<u64>,
}

impl Model for Image {
    ghost use Rattle.std.specs.Prelude.{◌≡◌, ◌*◌, length};
    ghost use Rattle.pool.specs.Pool.{ImageWords};

    ghost Value = { ImageWords };

    ghost view = { λ a. record { pages = a.pages; words = a.words.items } };

    ghost invariant = { λ a. length a.words.items ≡ 512 * a.pages };
}

impl Image {
    /// A copy of the words of this many pages, from these words.
    pub(crate) fn new(pages: usize, words: Vec<u64>) -> Self
        requires { length words.items ≡ 512 * pages }
        ensures { result ≡ record { pages = pages; words = words.items } }
    {
        Image { pages, words }
    }

    /// How many table pages it has.
    pub fn pages(&self) -> usize
        ensures { result ≡ self.now.pages }
    {
        self.pages
    }

    /// The word at an index of a page.
    pub fn word(&self, page: u32, index: u32) -> u64
        requires page_in { page < self.now.pages }
        requires index_in { index < 512 }
        ensures { result ≡ words_of self.now.words page index }
    {
        self.words[TABLE_WORDS as usize * page as usize + index as usize]
    }

    /// Applies one operation: a write changes its word, and an invalidation and a clear change none.
    pub fn apply(&mut self, operation: &Op)
        requires { IsInImage operation.now self.old }
        ensures pages { self.new.pages ≡ self.old.pages }
        ensures words { words_of self.new.words ≡ applied operation.now (words_of self.old.words) }
    {
        if let Op::Set { page, index, word } = operation {
            self.words[TABLE_WORDS as usize * *page as usize + *index as usize] = *word;
        }
    }
}
