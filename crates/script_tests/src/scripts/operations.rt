//! The operations of calls, in order.

use super::documents::sparse_document;
use super::{expect_after_pairs, expect_text, expect_text_from};
use std::alloc::Global;
use std::test::Fail;

const FIRST: &str =
    "reply 84000061 00000000 00000001 00008001 00000000 00000000 00000000 00000000\n";

const SECOND: &str =
    "reply 84000061 00000000 00000002 00008001 00000000 00000000 00000000 00000000\n";

const DENIED: &str =
    "reply 84000060 00000000 fffffffa 00000000 00000000 00000000 00000000 00000000\n";

/// Boot leaves no operation, and neither does a call that moves no page.
#[test]
fn has_none_where_no_table_changes(rt: HostRuntime) -> Result<(), Fail> {
    let alloc = rt.alloc();
    expect_text(
        &rt,
        alloc,
        "ops\nmaps 8004\nops\n",
        None,
        "ops 0\nmaps 8004 0\nops 0\n",
    )?;
    let lines = "ops\n\
        share 8001 5 8002:01 80000000+1\n\
        ops\n\
        lend 8001 0 8002:02 80200000+512\n\
        ops\n\
        lend 8001 0 8002:02 80200000+1\n\
        ops\n";
    let wanted = format!(in alloc;
        "ops 0\n\
        {FIRST}\
        ops 0\n\
        {SECOND}\
        ops 2\n\
        set 5 1 0000000000000000\n\
        inv 8001 0080200000 512\n\
        {DENIED}\
        ops 0\n"
    )?;
    expect_after_pairs(&rt, alloc, &lines, &wanted)
}

/// A whole chunk: the block's word is made invalid, and then its translations.
#[test]
fn invalidates_a_block(rt: HostRuntime) -> Result<(), Fail> {
    let alloc = rt.alloc();
    let lines = "lend 8001 0 8002:02 80000000+512\nops\n";
    let wanted = format!(in alloc;
        "{FIRST}\
        ops 2\n\
        set 5 0 0000000000000000\n\
        inv 8001 0080000000 512\n"
    )?;
    expect_after_pairs(&rt, alloc, lines, &wanted)
}

/// The split of a block that begins at an address, at an index of the level 2 table in a pool page: the
/// words of the new table without one of them, and then the block's word, in two steps.
pub(super) fn push_split(
    text: &mut String,
    second: u32,
    table: u32,
    index: u32,
    begin: u32,
    without: u64,
) -> Result<(), Fail> {
    for page in 0..512u64 {
        if page != without {
            let word = u64::from(begin) + 0x1000 * page + 0x7ff;
            writeln!(text, "set {table} {page} {word:016x}")?;
        }
    }
    writeln!(text, "set {second} {index} 0000000000000000")?;
    writeln!(text, "inv 8001 {begin:010x} 512")?;
    let word = 0x4000_0000 + 0x1000 * u64::from(table) + 3;
    writeln!(text, "set {second} {index} {word:016x}")?;
    Ok(())
}

#[test]
fn splits_a_block(rt: HostRuntime) -> Result<(), Fail> {
    let alloc = rt.alloc();
    let mut wanted = String::new(alloc);
    write!(&mut wanted, "{FIRST}ops 514\n")?;
    push_split(&mut wanted, 5, 9, 0, 0x8000_0000, 1)?;
    let lines = "lend 8001 0 8002:02 80001000+1\nops\n";
    expect_after_pairs(&rt, alloc, lines, &wanted)
}

#[test]
fn splits_two_blocks(rt: HostRuntime) -> Result<(), Fail> {
    let alloc = rt.alloc();
    let mut wanted = String::new(alloc);
    write!(&mut wanted, "{FIRST}ops 1028\n")?;
    push_split(&mut wanted, 5, 9, 0, 0x8000_0000, 511)?;
    push_split(&mut wanted, 5, 10, 1, 0x8020_0000, 0)?;
    let lines = "lend 8001 0 8002:02 801ff000+2\nops\n";
    expect_after_pairs(&rt, alloc, lines, &wanted)
}

/// Pages of a table: first all words upward, and then each range.
#[test]
fn invalidates_pages(rt: HostRuntime) -> Result<(), Fail> {
    let alloc = rt.alloc();
    let lines = "lend 8001 0 8002:02 80001000+1\n\
        lend 8001 0 8002:02 80003000+2,80006000+1\n\
        ops\n";
    let wanted = format!(in alloc;
        "{FIRST}{SECOND}\
        ops 5\n\
        set 9 3 0000000000000000\n\
        set 9 4 0000000000000000\n\
        set 9 6 0000000000000000\n\
        inv 8001 0080003000 2\n\
        inv 8001 0080006000 1\n"
    )?;
    expect_after_pairs(&rt, alloc, lines, &wanted)
}

/// The last pages of a chunk: its table is unlinked before its own words are made 0.
#[test]
fn unlinks_a_table(rt: HostRuntime) -> Result<(), Fail> {
    let alloc = rt.alloc();
    let lines = "lend 8001 0 8002:02 80000000+256\n\
        lend 8001 0 8002:02 80100000+256\n\
        ops\n";
    let mut wanted = String::new(alloc);
    write!(&mut wanted, "{FIRST}{SECOND}ops 258\n")?;
    wanted.push_str("set 5 0 0000000000000000\ninv 8001 0080000000 512\n")?;
    for page in 256..512u64 {
        writeln!(&mut wanted, "set 9 {page} 0000000000000000")?;
    }
    expect_after_pairs(&rt, alloc, lines, &wanted)
}

/// Ranges of so many pages each, of which each begins so many pages behind the one before it, in the two blocks
/// of 2 MB from 0x80000000 on.
#[derive(Clone, Copy)]
struct Ranges {
    first: u32,
    count: u32,
    step: u32,
    pages: u32,
}

impl Ranges {
    fn has(self, page: u32) -> bool {
        let Some(behind) = page.checked_sub(self.first) else {
            return false;
        };
        let place = behind.checked_div(self.step).unwrap_or(0);
        place < self.count && behind.wrapping_sub(place.wrapping_mul(self.step)) < self.pages
    }

    /// The pages up to an end that are in the ranges, or those that are not, as a line lends them.
    fn lent(self, alloc: Global, end: u32, are_in: bool) -> Result<String, Fail> {
        let mut text = String::from_str(alloc, "lend 8001 0 8002:02 ")?;
        let mut comma = "";
        let mut count = 0_u32;
        for page in 0..end {
            if self.has(page) == are_in {
                count = count.wrapping_add(1);
            }
            let is_last = page.wrapping_add(1) == end || self.has(page.wrapping_add(1)) != are_in;
            if is_last && 0 < count {
                let first = 0x8_0000_u32
                    .wrapping_add(page)
                    .wrapping_sub(count)
                    .wrapping_add(1);
                write!(&mut text, "{comma}{first:05x}000+{count}")?;
                comma = ",";
                count = 0;
            }
        }
        text.push_str("\n")?;
        Ok(text)
    }
}

/// The operations by which pages of ranges leave a block: the words of its other pages in a new table, upward, and
/// then the block's word in two steps, or in one where no page stays. It answers how many there are.
fn push_left(text: &mut String, ranges: Ranges, chunk: u32, table: u32) -> Result<u32, Fail> {
    let mut count = 0_u32;
    for index in 0..512_u32 {
        let page = chunk.wrapping_mul(512).wrapping_add(index);
        if !ranges.has(page) {
            let word = 0x8000_07ff_u64.wrapping_add(0x1000_u64.wrapping_mul(u64::from(page)));
            writeln!(text, "set {table} {index} {word:016x}")?;
            count = count.wrapping_add(1);
        }
    }
    let begin = 0x8_0000_u32.wrapping_add(chunk.wrapping_mul(512));
    writeln!(text, "set 5 {chunk} 0000000000000000")?;
    writeln!(text, "inv 8001 00{begin:05x}000 512")?;
    if count == 0 {
        return Ok(2);
    }
    let word = 0x4000_0003_u64.wrapping_add(0x1000_u64.wrapping_mul(u64::from(table)));
    writeln!(text, "set 5 {chunk} {word:016x}")?;
    Ok(count.wrapping_add(3))
}

/// One run, two and more in a chunk, such as go over from one into the next, and chunks of which no page stays.
#[test]
fn splits_blocks_beside_many_ranges(rt: HostRuntime) -> Result<(), Fail> {
    let alloc = rt.alloc();
    for (first, count, step, pages) in [
        (7, 1, 3, 3),
        (0, 2, 511, 1),
        (1, 3, 200, 64),
        (500, 2, 20, 15),
        (3, 120, 8, 5),
        (0, 200, 2, 1),
        (1, 66, 15, 14),
        (0, 1, 600, 600),
        (300, 1, 724, 724),
    ] {
        let ranges = Ranges {
            first,
            count,
            step,
            pages,
        };
        let mut sets = String::new(alloc);
        let mut made = 0_u32;
        let mut table = 9_u32;
        for chunk in 0..2_u32 {
            if (0..512).any(|index: u32| ranges.has(chunk.wrapping_mul(512).wrapping_add(index))) {
                let more = push_left(&mut sets, ranges, chunk, table)?;
                made = made.wrapping_add(more);
                table = table.wrapping_add(u32::from(2 < more));
            }
        }
        let lent = ranges.lent(alloc, 1_024, true)?;
        let lines = format!(in alloc; "{lent}ops\n")?;
        let wanted = format!(in alloc; "{FIRST}ops {made}\n{sets}")?;
        expect_after_pairs(&rt, alloc, &lines, &wanted)?;
    }
    Ok(())
}

/// The rest of a chunk of which many ranges have gone: of its table the words that are not 0 are cleared, upward.
#[test]
fn clears_what_many_ranges_left(rt: HostRuntime) -> Result<(), Fail> {
    let alloc = rt.alloc();
    for (first, count, step, pages) in [
        (0, 1, 511, 511),
        (1, 1, 511, 511),
        (0, 8, 64, 63),
        (1, 8, 64, 63),
        (0, 7, 64, 64),
        (32, 4, 128, 64),
        (0, 200, 2, 1),
        (5, 30, 16, 11),
    ] {
        let ranges = Ranges {
            first,
            count,
            step,
            pages,
        };
        let mut sets = String::new(alloc);
        let mut made = 2_u32;
        for index in 0..512_u32 {
            if !ranges.has(index) {
                writeln!(&mut sets, "set 9 {index} 0000000000000000")?;
                made = made.wrapping_add(1);
            }
        }
        let lent = ranges.lent(alloc, 512, true)?;
        let rest = ranges.lent(alloc, 512, false)?;
        let lines = format!(in alloc; "{lent}{rest}ops\n")?;
        let wanted = format!(in alloc;
            "{FIRST}{SECOND}ops {made}\nset 5 0 0000000000000000\ninv 8001 0080000000 512\n{sets}"
        )?;
        expect_after_pairs(&rt, alloc, &lines, &wanted)?;
    }
    Ok(())
}

/// A lend of all pages of a gigabyte, and of one page of a block behind it.
pub(super) const GIVEN_BACK: &str = "call 8001 84000066 90000000 90001000 1\n\
    lend 8001 0 8002:02 8000000+2,80001000+1\n";

/// The level 2 table of the gigabyte is unlinked and given back, and its page is the lowest free one
/// when the block is split: in one call it is a level 2 table first, and then a level 3 table.
#[test]
fn splits_into_a_page_given_back(rt: HostRuntime) -> Result<(), Fail> {
    let alloc = rt.alloc();
    let document = sparse_document(alloc)?;
    let script = format!(in alloc; "{GIVEN_BACK}ops\n")?;
    let mut wanted = String::new(alloc);
    wanted.push_str(
        "reply 84000061 00000000 00000000 00000000 00000000 00000000 00000000 00000000\n",
    )?;
    write!(&mut wanted, "{FIRST}ops 520\n")?;
    wanted.push_str(
        "set 2 64 0000000000000000\n\
        inv 8001 0008000000 512\n\
        set 3 0 0000000000000000\n\
        set 3 1 0000000000000000\n\
        set 0 0 0000000000000000\n\
        inv 8001 0000000000 262144\n",
    )?;
    push_split(&mut wanted, 4, 2, 0, 0x8000_0000, 1)?;
    expect_text_from(&rt, alloc, &document, &script, None, &wanted)
}
