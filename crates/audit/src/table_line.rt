//! The lines of the entries of tables.

ghost use Rattle.std.specs.Prelude.{◌≡◌, ◌<◌, ◌≤◌, ◌++◌, ◌^◌, OnOk};
ghost use Rattle.stage2.specs.Level.{number_of};
ghost use Rattle.audit.specs.TableLines as spec;
ghost use Rattle.audit.specs.TableLines.{leaf_line};

use base::OutOfMemory;
use digits::fill_digits;
use stage2::Level;
use std::ops::Range;

/// How many bytes the line of a block or a page has.
const LINE: usize = 31;

/// Where a line has the number of its page, in front of three zeros.
const PAGE: Range<usize> = 3..10;

/// Where the line of a block or a page has its word.
const WORD: Range<usize> = 14..30;

/// Where it has the last three digits of its page.
const LAST_OF_PAGE: Range<usize> = 7..10;

/// Where it has those of the page that its word names.
const LAST_IN_WORD: Range<usize> = 24..27;

/// Appends the line of a table that begins at a page. An address ends in three zeros.
pub(crate) fn append_table(text: &mut Vec<u8>, level: Level, first: u32) -> Result<(), OutOfMemory>
    requires in_range { first < 2 ^ 27 }
    ensures { OnOk result (text.new.items ≡ text.old.items ++ spec.table_line (number_of level) first) }
{
    let mut line = *b"L0 0000000000 table\n";
    line[1] = b'0' + level.number();
    fill_digits(u64::from(first), &mut line[PAGE]);
    Ok(text.extend_from_slice(&line)?)
}

/// Appends the line of the block or page that begins at a page, by its word.
pub(crate) fn append_leaf(
    text: &mut Vec<u8>,
    level: Level,
    first: u32,
    word: u64,
) -> Result<(), OutOfMemory>
    requires in_range { first < 2 ^ 27 }
    ensures { OnOk result (text.new.items ≡ text.old.items ++ leaf_line (number_of level) first word) }
{
    let mut line = [b' '; LINE];
    fill_leaf(level, first, word, &mut line);
    Ok(text.extend_from_slice(&line)?)
}

/// Writes the line of the block or page that begins at a page, by its word. As a call it keeps the line in
/// memory: inlined, each byte is carried from page to page by itself.
#[inline(never)]
fn fill_leaf(level: Level, first: u32, word: u64, line: &mut [u8; LINE])
    requires in_range { first < 2 ^ 27 }
    ensures { line.new ≡ leaf_line (number_of level) first word }
{
    *line = *b"L0 0000000000 0000000000000000\n";
    line[1] = b'0' + level.number();
    fill_digits(u64::from(first), &mut line[PAGE]);
    fill_digits(word, &mut line[WORD]);
}

/// The line of a page.
#[derive(Drop)]
pub(crate) struct PageLine {
    bytes: [u8; LINE],
    first: u32,
    word: u64,
    ghost in_range: { first < 2 ^ 27 },
    ghost spelled: { bytes ≡ leaf_line 3 first word },
}

impl PageLine {
    /// The line of the first page, whose word is 0.
    pub(crate) fn new() -> Self {
        let mut bytes = [b' '; LINE];
        fill_leaf(Level::Third, 0, 0, &mut bytes);
        PageLine {
            bytes,
            first: 0,
            word: 0,
        }
    }

    /// Makes it the line of another page.
    pub(crate) fn set(&mut self, first: u32, word: u64) -> &[u8]
        requires { first < 2 ^ 27 }
        ensures { result.now ≡ leaf_line 3 first word }
    {
        set_page_line(self.first, self.word, first, word, &mut self.bytes);
        self.first = first;
        self.word = word;
        &self.bytes
    }
}

/// Makes the line of a page that of another one, by their words. Where pages are reached alike these differ in
/// the page alone, so the lines differ in six digits alone.
fn set_page_line(last: u32, last_word: u64, first: u32, word: u64, line: &mut [u8; LINE])
    requires last_in_range { last < 2 ^ 27 }
    requires in_range { first < 2 ^ 27 }
    requires spelled { line.old ≡ leaf_line 3 last last_word }
    ensures { line.new ≡ leaf_line 3 first word }
{
    if first / 4096 == last / 4096
        && word >> 24 == last_word >> 24
        && word % 4096 == last_word % 4096
    {
        fill_digits(u64::from(first) % 4096, &mut line[LAST_OF_PAGE]);
        fill_digits((word >> 12) % 4096, &mut line[LAST_IN_WORD]);
    } else {
        fill_leaf(Level::Third, first, word, line);
    }
}
