//! Single words of tables, and pages of tables that are taken and given back.

ghost use Rattle.base.specs.Manifest.{page_count};
ghost use Rattle.pool.specs.Pool.{pages_of, words_of, taken_of, after_take, after_give, InShare, IsLowestFree};
ghost use Rattle.pool.specs.declared.operation.Op.TheVariants.{Set};
ghost use Rattle.stage2.specs.inner.Clauses.{Puts, IsEmpty, HasFree, HasWord};
ghost use Rattle.stage2.specs.inner.History.{Made};
ghost use Rattle.stage2.specs.Moments.{IsLogged};
ghost use Rattle.std.specs.Prelude.{◌≡◌, ℕ, ◌+◌, ◌-◌, ◌<◌, true, false, [], ◌∷◌};

use crate::table_page::{Row, TablePage};
use pool::TableMem;

/// Writes a word of a root or of a page that is taken.
pub(crate) fn put_word<M: TableMem>(memory: &mut M, table: TablePage, index: u32, word: u64)
    requires page_in { table < page_count (M.state memory.old).memory.quotas }
    requires index_in { index < 512 }
    requires taken { taken_of (M.state memory.old).memory.taken table ≡ true }
    requires room { 0 < M.room memory.old }
    ensures pages { Puts table index word (M.state memory.old) (M.state memory.new) }
    ensures history { Made (Set table index word ∷ []) (M.state memory.old) (M.state memory.new) }
    ensures logged { IsLogged (Set table index word) (M.state memory.old) (M.state memory.new) }
    ensures room { M.room memory.new + 1 ≡ M.room memory.old }
{
    memory.set_word(table.number(), index, word);
}

/// Takes the free page of a partition's share with the lowest number.
pub(crate) fn take_page<M: TableMem>(memory: &mut M, row: Row) -> TablePage
    requires free { HasFree row (M.state memory.old) }
    ensures lowest { IsLowestFree (pages_of (M.state memory.old).memory) row result }
    ensures state { M.state memory.new ≡ after_take result (M.state memory.old) }
    ensures room { M.room memory.new ≡ M.room memory.old }
{
    TablePage::new(memory.take_page(row.number()))
}

/// Gives back a page of a partition's share, all of whose words are 0.
pub(crate) fn give_page<M: TableMem>(memory: &mut M, row: Row, table: TablePage)
    requires inside { InShare (M.state memory.old).memory.quotas row table }
    requires taken { taken_of (M.state memory.old).memory.taken table ≡ true }
    requires empty { (i : ℕ) → i < 512 → words_of (M.state memory.old).memory.words table i ≡ 0 }
    ensures state { M.state memory.new ≡ after_give table (M.state memory.old) }
    ensures room { M.room memory.new ≡ M.room memory.old }
{
    memory.give_page(row.number(), table.number());
}

/// Whether all words of a table are 0, which their count tells.
pub(crate) fn is_empty<M: TableMem>(memory: &M, table: TablePage) -> bool
    requires { table < page_count (M.state memory.now).memory.quotas }
    ensures yes { result ≡ true → IsEmpty table (M.state memory.now) }
    ensures no { result ≡ false → HasWord table (M.state memory.now) }
{
    memory.nonzero(table.number()) == 0
}
