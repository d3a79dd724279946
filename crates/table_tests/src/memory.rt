use crate::fixture::LARGE;
use manifest::read;
use pool::{RawPool, TableMem};
use std::fs::File;
use std::io::{self, Read};
use std::process::Abort;
use std::test::Fail;

/// How much memory the process holds, in KB.
fn resident(rt: &HostRuntime) -> io::Result<u64> {
    let mut text = String::new(rt.alloc());
    File::open(rt, "/proc/self/status")?
        .take(65_536)
        .read_to_string(&mut text)?;
    let row = text.lines().find(|line| line.starts_with("VmRSS:"));
    let number = row.and_then(|row| row.split_whitespace().nth(1));
    Ok(number.and_then(|number| number.parse().ok()).unwrap_or(0))
}

fn take_all(rt: &impl Abort, memory: &mut RawPool) {
    for _ in 0..1_024 {
        assert!(rt; memory.free(0) > 0);
        let _page = memory.take_page(0);
    }
}

/// What a processor reads in a page that a table may name was written, also where each word is 0.
#[test]
fn pages_that_are_taken_are_written(rt: HostRuntime) -> Result<(), Fail> {
    let manifest = read(rt.alloc(), LARGE.as_bytes())?;
    let mut memory = RawPool::make(rt.alloc(), &manifest)?;
    let before = resident(&rt)?;
    assert!(&rt; before > 0);
    take_all(&rt, &mut memory);
    assert!(&rt; before.saturating_add(3_500) < resident(&rt)?);
    Ok(())
}
