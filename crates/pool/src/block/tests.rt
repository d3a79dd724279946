use super::Block;
use crate::raw_pool::RawPool;
use crate::table_mem::TableMem;
use crate::word_store::WordStore;
use manifest::read;
use std::fs::File;
use std::io::{self, Read};
use std::process::Abort;
use std::test::Fail;

/// Two partitions with 1,026 table pages, which take 4,202,496 bytes.
const LARGE: &str = "pool = 0x40000000\n\
    [[partition]]\n\
    id = 0x8001\n\
    quota = 512\n\
    [[partition]]\n\
    id = 0x8002\n\
    quota = 512\n\
    [[region]]\n\
    base = 0x80000000\n\
    pages = 1\n\
    kind = \"normal\"\n\
    owner = 0x8001\n\
    grants = [ { id = 0x8001, data = \"rw\", exec = false } ]\n";

/// What a row of the process's status says of its memory, in KB.
fn memory_in(rt: &HostRuntime, name: &str) -> io::Result<u64> {
    let mut text = String::new(rt.alloc());
    File::open(rt, "/proc/self/status")?
        .take(65_536)
        .read_to_string(&mut text)?;
    let row = text.lines().find(|line| line.starts_with(name));
    let number = row.and_then(|row| row.split_whitespace().nth(1));
    Ok(number.and_then(|number| number.parse().ok()).unwrap_or(0))
}

/// How much memory the process holds, in KB.
fn resident(rt: &HostRuntime) -> io::Result<u64> {
    memory_in(rt, "VmRSS:")
}

/// Takes all pages of a partition's share, which are written then.
fn take_all(rt: &impl Abort, memory: &mut RawPool, row: u32) {
    for _ in 0..512 {
        assert!(rt; memory.free(row) > 0);
        let _page = memory.take_page(row);
    }
}

/// A hundred memories that are ended hold less than a hundred take, which is 410,400 KB.
#[test]
fn gives_its_block_back(rt: HostRuntime) -> Result<(), Fail> {
    let manifest = read(rt.alloc(), LARGE.as_bytes())?;
    let before = resident(&rt)?;
    assert!(rt; before > 0);
    for _ in 0..100 {
        let mut memory = RawPool::make(rt.alloc(), &manifest)?;
        assert_eq!(rt; memory.free(0), 512);
        take_all(&rt, &mut memory, 0);
        take_all(&rt, &mut memory, 1);
        let _start = memory.address();
    }
    assert!(rt; resident(&rt)? < before.saturating_add(350_000));
    Ok(())
}

#[test]
fn holds_no_words(rt: HostRuntime) -> Result<(), Fail> {
    let block = Block::zeroed(rt.alloc(), 0)?;
    assert!(rt; block.copy(rt.alloc())?.is_empty());
    Ok(())
}

/// A block of 512 GB, which few machines have, is refused before its marks are written, which are 131,072 KB.
#[test]
fn is_refused_before_its_marks(rt: HostRuntime) -> Result<(), Fail> {
    let before = memory_in(&rt, "VmHWM:")?;
    assert!(rt; before > 0);
    if Block::zeroed(rt.alloc(), 512 << 27).is_err() {
        assert!(rt; memory_in(&rt, "VmHWM:")? < before.saturating_add(50_000));
    }
    Ok(())
}

/// A memory of which no page was taken holds less than it takes, which is 4,104 KB a memory.
#[test]
fn touches_no_page_that_is_free(rt: HostRuntime) -> Result<(), Fail> {
    let manifest = read(rt.alloc(), LARGE.as_bytes())?;
    let mut memories = Vec::new(rt.alloc());
    let before = resident(&rt)?;
    assert!(rt; before > 0);
    for _ in 0..50 {
        memories.push(RawPool::make(rt.alloc(), &manifest)?)?;
    }
    assert!(rt; resident(&rt)? < before.saturating_add(50_000));
    Ok(())
}
