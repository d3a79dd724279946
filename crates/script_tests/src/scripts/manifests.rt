//! Scripts from manifests other than the common one.

use super::documents::many_document;
use super::expect_text_from;
use std::test::Fail;

/// The first and the last of 64 partitions reach their pages.
#[test]
fn boots_64_partitions(rt: HostRuntime) -> Result<(), Fail> {
    let alloc = rt.alloc();
    let document = many_document(alloc)?;
    let script = "maps 8001\ntables 8040\n";
    let wanted = "maps 8001 1\n\
        0080000000 1 rw- normal\n\
        tables 8040 2\n\
        L1 0080000000 table\n\
        L2 0087e00000 table\n\
        L3 0087e00000 0040000087e007ff\n";
    expect_text_from(&rt, alloc, &document, script, None, wanted)
}
