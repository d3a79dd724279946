//! Manifests for the tests.

use std::alloc::Global;
use std::test::Fail;

/// A partition that is granted a region, the data access, and whether the pages are executable.
type Grant = (u16, &'static str, bool);

/// A region: its address, pages and kind, and its grants, of which the first is the owner's.
type Row<'a> = (u64, u32, &'a str, &'a [Grant]);

/// The regions of the common manifest.
const COMMON: [Row<'static>; 7] = [
    (0x8000_0000, 1024, "normal", &[(0x8001, "rw", true)]),
    (0x9000_0000, 2, "normal", &[(0x8001, "rw", false)]),
    (0xa000_0000, 512, "normal", &[(0x8002, "rw", false)]),
    (0xb000_0000, 2, "normal", &[(0x8002, "rw", false)]),
    (0xc000_0000, 2, "normal", &[(0x8003, "rw", false)]),
    (
        0xd000_0000,
        1,
        "normal",
        &[(0x8001, "rw", false), (0x8002, "ro", false)],
    ),
    (0x0900_0000, 1, "device", &[(0x8001, "rw", false)]),
];

fn push_row(text: &mut String, row: &Row<'_>) -> Result<(), Fail> {
    let (base, pages, kind, grants) = row;
    writeln!(
        text,
        "[[region]]\nbase = {base}\npages = {pages}\nkind = \"{kind}\""
    )?;
    if let Some((owner, _, _)) = grants.first() {
        writeln!(text, "owner = {owner}\ngrants = [")?;
    }
    for (id, data, exec) in *grants {
        writeln!(text, "{{ id = {id}, data = \"{data}\", exec = {exec} }},")?;
    }
    writeln!(text, "]")?;
    Ok(())
}

/// A manifest whose pool begins at address 0x40000000, and whose partitions have these quotas.
fn document(alloc: Global, quotas: &[(u16, u32)], rows: &[Row<'_>]) -> Result<String, Fail> {
    let mut text = String::new(alloc);
    writeln!(&mut text, "pool = 0x40000000")?;
    for (id, quota) in quotas {
        writeln!(&mut text, "[[partition]]\nid = {id}\nquota = {quota}")?;
    }
    for row in rows {
        push_row(&mut text, row)?;
    }
    Ok(text)
}

/// The common manifest with these quotas of its first two partitions.
pub(super) fn common_document(alloc: Global, first: u32, second: u32) -> Result<String, Fail> {
    document(
        alloc,
        &[(0x8001, first), (0x8002, second), (0x8003, 16)],
        &COMMON,
    )
}

/// Two partitions, of which the first has two pages in the first gigabyte, and a block and buffers in
/// the third.
pub(super) fn sparse_document(alloc: Global) -> Result<String, Fail> {
    let rows = [
        (0x0800_0000, 2, "normal", &[(0x8001, "rw", true)][..]),
        (0x8000_0000, 512, "normal", &[(0x8001, "rw", true)][..]),
        (0x9000_0000, 2, "normal", &[(0x8001, "rw", false)][..]),
    ];
    document(alloc, &[(0x8001, 16), (0x8002, 16)], &rows)
}

/// As many partitions as there may be, each with a page of its own in a chunk of its own.
pub(super) fn many_document(alloc: Global) -> Result<String, Fail> {
    let mut text = String::new(alloc);
    writeln!(&mut text, "pool = 0x40000000")?;
    for i in 0..64u16 {
        let id = 0x8001 + i;
        let base = 0x8000_0000 + 0x20_0000 * u64::from(i);
        writeln!(&mut text, "[[partition]]\nid = {id}\nquota = 2")?;
        push_row(&mut text, &(base, 1, "normal", &[(id, "rw", false)]))?;
    }
    Ok(text)
}
