//! Tables and states of which the one is a call before the other.

use crate::fault::Fault;
use crate::two::{Two, sending};
use base::Kind;
use std::alloc::Global;
use std::process::Abort;
use std::test::Fail;

/// Pages that the second partition has in both managers, those that it has in the one alone, counted from two chunks
/// before the border, and the level and the first page of the entry that differs.
#[derive(Clone, Copy)]
struct Case {
    both: [u32; 2],
    more: [u32; 2],
    at: [u32; 2],
}

/// The first page of a chunk, the last one, and one in the midst; a block, the last block of a gigabyte and the first
/// one; the first page of a gigabyte; the last page that makes a block, and the first one.
const CASES: [Case; 9] = [
    Case {
        both: [517, 1],
        more: [512, 1],
        at: [3, 512],
    },
    Case {
        both: [517, 1],
        more: [1_023, 1],
        at: [3, 1_023],
    },
    Case {
        both: [517, 1],
        more: [700, 1],
        at: [3, 700],
    },
    Case {
        both: [517, 1],
        more: [0, 512],
        at: [2, 0],
    },
    Case {
        both: [5, 1],
        more: [512, 512],
        at: [2, 512],
    },
    Case {
        both: [1_600, 1],
        more: [1_024, 512],
        at: [2, 1_024],
    },
    Case {
        both: [5, 1],
        more: [1_024, 1],
        at: [1, 1_024],
    },
    Case {
        both: [512, 511],
        more: [1_023, 1],
        at: [2, 512],
    },
    Case {
        both: [513, 511],
        more: [512, 1],
        at: [2, 512],
    },
];

/// The second partition has retrieved some pages in both, and more in the one.
fn retrieve_one_more(
    rt: &impl Abort,
    two: &mut Two,
    alloc: Global,
    kind: Kind,
    case: Case,
) -> Result<(), Fault> {
    two.pass_in_both(&sending(alloc, kind, case.both, true)?)?;
    let more = sending(alloc, kind, case.more, true)?;
    let handle = two.send_in_both(&more)?;
    two.audit(rt, "equal\n")?;
    two.retrieve_in_ours(&more, handle)?;
    two.audit(rt, "differs\n")
}

fn look_at_case(rt: &impl Abort, alloc: Global, kind: Kind, case: Case) -> Result<(), Fault> {
    let mut two = Two::new(alloc)?;
    retrieve_one_more(rt, &mut two, alloc, kind, case)?;
    let at = two.first_apart()?;
    assert_eq!(rt; at, case.at);
    Ok(())
}

#[test]
fn an_audit_finds_the_one_entry_that_differs(rt: HostRuntime) -> Result<(), Fail> {
    for case in &CASES {
        look_at_case(&rt, rt.alloc(), Kind::Lend, *case)?;
        look_at_case(&rt, rt.alloc(), Kind::Donate, *case)?;
    }
    Ok(())
}

/// A page beside another is retrieved to be read in the one, and to be written in the other.
fn retrieve_otherwise(rt: &impl Abort, two: &mut Two, alloc: Global) -> Result<(), Fault> {
    two.pass_in_both(&sending(alloc, Kind::Lend, [517, 1], true)?)?;
    let reads = sending(alloc, Kind::Lend, [518, 1], false)?;
    let writes = sending(alloc, Kind::Lend, [518, 1], true)?;
    two.pass_otherwise(&reads, &writes)?;
    let at = two.first_apart()?;
    assert_eq!(rt; at, [3, 518]);
    two.audit(rt, "differs\n")
}

#[test]
fn an_audit_finds_another_access(rt: HostRuntime) -> Result<(), Fail> {
    let mut two = Two::new(rt.alloc())?;
    retrieve_otherwise(&rt, &mut two, rt.alloc())?;
    Ok(())
}

/// Pages of two chunks are retrieved upward in the one, and downward in the other.
fn retrieve_in_another_order(rt: &impl Abort, two: &mut Two, alloc: Global) -> Result<(), Fault> {
    let low = sending(alloc, Kind::Lend, [5, 1], true)?;
    let high = sending(alloc, Kind::Lend, [517, 1], true)?;
    let (first, second) = (two.send_in_both(&low)?, two.send_in_both(&high)?);
    two.retrieve_in_ours(&low, first)?;
    two.retrieve_in_ours(&high, second)?;
    two.retrieve_in_theirs(&high, second)?;
    two.retrieve_in_theirs(&low, first)?;
    let same = two.have_same_words()?;
    assert!(rt; !same);
    two.audit(rt, "equal\n")
}

/// Tables lie at other pages of the pool, and say the same.
#[test]
fn an_audit_passes_over_where_tables_lie(rt: HostRuntime) -> Result<(), Fail> {
    let mut two = Two::new(rt.alloc())?;
    retrieve_in_another_order(&rt, &mut two, rt.alloc())?;
    Ok(())
}

/// The second partition is given a page. In between, the audits find where the tables differ.
fn give_page(rt: &impl Abort, two: &mut Two, alloc: Global, page: u32) -> Result<(), Fault> {
    let gift = sending(alloc, Kind::Donate, [page, 1], true)?;
    let handle = two.send_in_both(&gift)?;
    two.retrieve_in_ours(&gift, handle)?;
    two.audit(rt, "differs\n")?;
    two.retrieve_in_theirs(&gift, handle)?;
    two.audit(rt, "equal\n")
}

/// The second partition is given all pages of a chunk one by one.
#[test]
fn an_audit_finds_each_page_of_a_chunk(rt: HostRuntime) -> Result<(), Fail> {
    let mut two = Two::new(rt.alloc())?;
    for page in 0..512u32 {
        give_page(&rt, &mut two, rt.alloc(), page)?;
    }
    Ok(())
}
