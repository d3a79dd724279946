use base::{Page, PartitionId};
use manifest::{ManifestFault, read};
use std::alloc::Global;
use std::process::Abort;
use std::test::Fail;

/// The parts of the common document that the tests change.
#[derive(Clone, Copy)]
struct Parts {
    top: &'static str,
    pool: &'static str,
    quota: &'static str,
    third: &'static str,
    kind: &'static str,
    owner: &'static str,
    first: &'static str,
    pages: &'static str,
    shared: &'static str,
    device: &'static str,
}

fn first_grant() -> &'static str {
    "{ id = 0x8001, data = \"rw\", exec = true }"
}

fn second_grant() -> &'static str {
    "{ id = 0x8002, data = \"ro\", exec = false }"
}

fn shared_grants() -> &'static str {
    "{ id = 0x8001, data = \"rw\", exec = false }, { id = 0x8002, data = \"ro\", exec = false }"
}

fn doubled_grants() -> &'static str {
    "{ id = 0x8001, data = \"rw\", exec = false }, { id = 0x8001, data = \"ro\", exec = false }"
}

fn data_grant() -> &'static str {
    "{ id = 0x8001, data = \"rw\", exec = false }"
}

fn common() -> Parts {
    Parts {
        top: "",
        pool: "0x40000000",
        quota: "16",
        third: "0x8003",
        kind: "\"normal\"",
        owner: "0x8001",
        first: first_grant(),
        pages: "2",
        shared: shared_grants(),
        device: data_grant(),
    }
}

fn partitions_text(alloc: Global, parts: &Parts) -> Result<String, Fail> {
    let Parts { quota, third, .. } = *parts;
    let first = format!(in alloc; "[[partition]]\nid = 0x8001\nquota = {quota}\n")?;
    let others = format!(in alloc;
        "[[partition]]\nid = 0x8002\nquota = 16\n[[partition]]\nid = {third}\nquota = 16\n"
    )?;
    Ok(format!(in alloc; "{first}{others}")?)
}

fn region_text(
    alloc: Global,
    base: &str,
    pages: &str,
    kind: &str,
    owner: &str,
    grants: &str,
) -> Result<String, Fail> {
    let head = format!(in alloc; "[[region]]\nbase = {base}\npages = {pages}\nkind = {kind}\n")?;
    Ok(format!(in alloc; "{head}owner = {owner}\ngrants = [ {grants} ]\n")?)
}

fn private_text(alloc: Global, base: &str, pages: &str, owner: &str) -> Result<String, Fail> {
    let grant = format!(in alloc; "{{ id = {owner}, data = \"rw\", exec = false }}")?;
    region_text(alloc, base, pages, "\"normal\"", owner, grant.as_str())
}

fn regions_text(alloc: Global, parts: &Parts) -> Result<String, Fail> {
    let code = region_text(
        alloc,
        "0x80000000",
        "1024",
        parts.kind,
        parts.owner,
        parts.first,
    )?;
    let buffers = private_text(alloc, "0x90000000", parts.pages, "0x8001")?;
    let second = private_text(alloc, "0xa0000000", "512", "0x8002")?;
    let others = private_text(alloc, "0xb0000000", "2", "0x8002")?;
    let third = private_text(alloc, "0xc0000000", "2", "0x8003")?;
    let shared = region_text(
        alloc,
        "0xd0000000",
        "1",
        "\"normal\"",
        "0x8001",
        parts.shared,
    )?;
    let device = region_text(
        alloc,
        "0x09000000",
        "1",
        "\"device\"",
        "0x8001",
        parts.device,
    )?;
    let low = format!(in alloc; "{code}{buffers}{second}{others}")?;
    Ok(format!(in alloc; "{low}{third}{shared}{device}")?)
}

fn document(alloc: Global, parts: &Parts) -> Result<String, Fail> {
    let Parts { top, pool, .. } = *parts;
    let partitions = partitions_text(alloc, parts)?;
    let regions = regions_text(alloc, parts)?;
    Ok(format!(in alloc; "{top}pool = {pool}\n{partitions}{regions}")?)
}

/// The number of the fault of some bytes; 0 where they are accepted.
fn fault_number(alloc: Global, bytes: &[u8]) -> Result<u8, Fail> {
    match read(alloc, bytes) {
        Ok(_) => Ok(0),
        Err(ManifestFault::OutOfMemory) => Err("out of memory".into()),
        Err(fault) => Ok(fault.number()),
    }
}

fn expect_fault(rt: &impl Abort, alloc: Global, parts: &Parts, number: u8) -> Result<(), Fail> {
    let text = document(alloc, parts)?;
    assert_eq!(rt; fault_number(alloc, text.as_bytes())?, number);
    Ok(())
}

/// What the common document is answered with after one change.
fn expect_text(rt: &impl Abort, alloc: Global, parts: &Parts, wanted: &str) -> Result<(), Fail> {
    let text = document(alloc, parts)?;
    let fault = read(alloc, text.as_bytes()).err().ok_or("accepted")?;
    let found = format!(in alloc; "{fault}")?;
    assert_eq!(rt; found.as_str(), wanted);
    Ok(())
}

#[test]
fn common_document_is_accepted(rt: HostRuntime) -> Result<(), Fail> {
    let alloc = rt.alloc();
    let text = document(alloc, &common())?;
    let manifest = read(alloc, text.as_bytes())?;
    assert_eq!(rt; manifest.pool(), Page::new(0x4_0000));
    assert_eq!(rt; manifest.regions().len(), 7);
    assert_eq!(rt;
        manifest.owner(Page::new(0x9000)),
        Some(PartitionId::new(0x8001))
    );
    for (id, tables) in [(0x8001, 6), (0x8002, 4), (0x8003, 2)] {
        assert_eq!(rt; manifest.need(PartitionId::new(id)), tables);
        assert_eq!(rt; manifest.quota(PartitionId::new(id)), 16);
    }
    Ok(())
}

#[test]
fn text_that_is_no_document_is_fault_1(rt: HostRuntime) -> Result<(), Fail> {
    let alloc = rt.alloc();
    for text in [
        "pool = ",
        "pool = 1\npool = 2\n",
        "[[partition]]\n[partition]\n",
        "pool = 9223372036854775808",
    ] {
        assert_eq!(rt; fault_number(alloc, text.as_bytes())?, 1);
    }
    assert_eq!(rt; fault_number(alloc, &[0xff, 0xfe])?, 1);
    Ok(())
}

#[test]
fn keys_are_fault_2(rt: HostRuntime) -> Result<(), Fail> {
    let alloc = rt.alloc();
    assert_eq!(rt; fault_number(alloc, b"")?, 2);
    let more = Parts {
        top: "version = 1\n",
        quota: "\"16\"",
        ..common()
    };
    expect_fault(&rt, alloc, &more, 2)?;
    let no_exec = Parts {
        device: "{ id = 0x8001, data = \"rw\" }",
        ..common()
    };
    expect_fault(&rt, alloc, &no_exec, 2)
}

#[test]
fn values_of_another_kind_are_fault_3(rt: HostRuntime) -> Result<(), Fail> {
    let alloc = rt.alloc();
    let quota = Parts {
        quota: "\"16\"",
        third: "0x8002",
        ..common()
    };
    expect_fault(&rt, alloc, &quota, 3)?;
    let kind = Parts {
        kind: "\"io\"",
        ..common()
    };
    expect_fault(&rt, alloc, &kind, 3)?;
    let text = "pool = 0\npartition.id = 0x8001\nregion = [ 1 ]\n";
    assert_eq!(rt; fault_number(alloc, text.as_bytes())?, 3);
    Ok(())
}

#[test]
fn limits_are_fault_4(rt: HostRuntime) -> Result<(), Fail> {
    let alloc = rt.alloc();
    for quota in ["0", "-1", "1025", "9223372036854775807"] {
        expect_fault(&rt, alloc, &Parts { quota, ..common() }, 4)?;
    }
    for pool in ["0x80000800", "0x7ffffce000", "-4096"] {
        expect_fault(&rt, alloc, &Parts { pool, ..common() }, 4)?;
    }
    for pages in ["0", "-1", "4294967296"] {
        expect_fault(&rt, alloc, &Parts { pages, ..common() }, 4)?;
    }
    for third in ["0x8000", "0xffff", "0x18003", "-1"] {
        expect_fault(&rt, alloc, &Parts { third, ..common() }, 4)?;
    }
    let empty = "pool = 0\npartition = []\nregion = []\n";
    assert_eq!(rt; fault_number(alloc, empty.as_bytes())?, 4);
    let pool = "0x7ffffcd000";
    expect_fault(&rt, alloc, &Parts { pool, ..common() }, 0)
}

#[test]
fn identifiers_are_fault_5(rt: HostRuntime) -> Result<(), Fail> {
    let alloc = rt.alloc();
    let third = "0x8002";
    expect_fault(&rt, alloc, &Parts { third, ..common() }, 5)?;
    for owner in ["0x8004", "0x18001", "-1", "0"] {
        expect_fault(&rt, alloc, &Parts { owner, ..common() }, 5)?;
    }
    Ok(())
}

#[test]
fn pages_in_two_places_are_fault_6(rt: HostRuntime) -> Result<(), Fail> {
    let alloc = rt.alloc();
    let pool = "0x80000000";
    expect_fault(&rt, alloc, &Parts { pool, ..common() }, 6)?;
    let touching = "0x803cd000";
    expect_fault(
        &rt,
        alloc,
        &Parts {
            pool: touching,
            ..common()
        },
        6,
    )?;
    let after = "0x80400000";
    expect_fault(
        &rt,
        alloc,
        &Parts {
            pool: after,
            ..common()
        },
        0,
    )?;
    let pages = "65536";
    expect_fault(&rt, alloc, &Parts { pages, ..common() }, 0)?;
    let pages = "65537";
    expect_fault(&rt, alloc, &Parts { pages, ..common() }, 6)
}

#[test]
fn rules_of_grants_are_faults_7_to_9(rt: HostRuntime) -> Result<(), Fail> {
    let alloc = rt.alloc();
    let first = second_grant();
    expect_fault(&rt, alloc, &Parts { first, ..common() }, 7)?;
    let shared = doubled_grants();
    expect_fault(&rt, alloc, &Parts { shared, ..common() }, 8)?;
    let device = first_grant();
    expect_fault(&rt, alloc, &Parts { device, ..common() }, 9)
}

#[test]
fn quota_below_the_need_is_fault_10(rt: HostRuntime) -> Result<(), Fail> {
    let alloc = rt.alloc();
    expect_fault(
        &rt,
        alloc,
        &Parts {
            quota: "5",
            ..common()
        },
        10,
    )?;
    expect_fault(
        &rt,
        alloc,
        &Parts {
            quota: "6",
            ..common()
        },
        0,
    )
}

/// The common document with the faults from one number on, for 10 to 7.
fn with_faults_of_rows(number: u8) -> Parts {
    let quota = Parts {
        quota: "5",
        ..common()
    };
    let device = Parts {
        device: first_grant(),
        ..quota
    };
    let shared = Parts {
        shared: doubled_grants(),
        ..device
    };
    let first = Parts {
        first: second_grant(),
        ..shared
    };
    match number {
        10 => quota,
        9 => device,
        8 => shared,
        _ => first,
    }
}

/// The common document with the faults from one number on.
fn with_faults(number: u8) -> Parts {
    let first = with_faults_of_rows(number);
    let pool = Parts {
        pool: "0x80000000",
        ..first
    };
    let third = Parts {
        third: "0x8002",
        ..pool
    };
    let pages = Parts {
        pages: "0",
        ..third
    };
    let kind = Parts {
        kind: "\"io\"",
        ..pages
    };
    let top = Parts {
        top: "version = 1\n",
        ..kind
    };
    match number {
        2 => top,
        3 => kind,
        4 => pages,
        5 => third,
        6 => pool,
        _ => first,
    }
}

#[test]
fn first_of_many_faults_is_answered(rt: HostRuntime) -> Result<(), Fail> {
    let alloc = rt.alloc();
    for from in 2..11 {
        expect_fault(&rt, alloc, &with_faults(from), from)?;
    }
    let text = document(alloc, &with_faults(2))?;
    let broken = format!(in alloc; "{text}pool = ")?;
    assert_eq!(rt; fault_number(alloc, broken.as_bytes())?, 1);
    Ok(())
}

/// A manifest of so many partitions, each with a region of one page.
fn many(alloc: Global, count: u32) -> Result<String, Fail> {
    let mut text = String::from_str(alloc, "pool = 0x40000000\n")?;
    for i in 0..count.min(65) {
        let id = 0x8001 + i;
        let base = 0x8000_0000 + 0x20_0000 * i as u64;
        let partition = format!(in alloc; "[[partition]]\nid = {id}\nquota = 2\n")?;
        let head = format!(in alloc; "[[region]]\nbase = {base}\npages = 1\nkind = \"normal\"\n")?;
        let grant = format!(in alloc; "{{ id = {id}, data = \"rw\", exec = false }}")?;
        let tail = format!(in alloc; "owner = {id}\ngrants = [ {grant} ]\n")?;
        text = format!(in alloc; "{text}{partition}{head}{tail}")?;
    }
    Ok(text)
}

#[test]
fn limit_of_partitions_is_64(rt: HostRuntime) -> Result<(), Fail> {
    let alloc = rt.alloc();
    let manifest = read(alloc, many(alloc, 64)?.as_bytes())?;
    assert_eq!(rt; manifest.partitions().len(), 64);
    assert_eq!(rt; manifest.need(PartitionId::new(0x8040)), 2);
    assert_eq!(rt; fault_number(alloc, many(alloc, 65)?.as_bytes())?, 4);
    Ok(())
}

#[test]
fn other_spellings_are_the_same_document(rt: HostRuntime) -> Result<(), Fail> {
    let alloc = rt.alloc();
    let partition =
        "\u{feff}pool = 1_073_741_824\npartition = [ { id = 0o100001, \"quota\" = +2 } ]\n";
    let region = "region = [ { base = 0x80000000, pages = 1, kind = 'normal', owner = 0x8001,";
    let grants = "grants = [ { id = 0x8001, data = \"rw\", exec = false } ] } ]\n";
    let text = format!(in alloc; "{partition}{region} {grants}")?;
    assert_eq!(rt; fault_number(alloc, text.as_bytes())?, 0);
    Ok(())
}

#[test]
fn deep_and_long_input_is_fault_1(rt: HostRuntime) -> Result<(), Fail> {
    let alloc = rt.alloc();
    let mut deep = Vec::with_capacity(alloc, 0x10_0000)?;
    for _ in 0..0x10_0000 {
        deep.push(b'[')?;
    }
    assert_eq!(rt; fault_number(alloc, &deep)?, 1);
    let mut long = Vec::with_capacity(alloc, 500)?;
    long.extend_from_slice(b"pool = ")?;
    for _ in 0..400 {
        long.push(b'9')?;
    }
    assert_eq!(rt; fault_number(alloc, &long)?, 1);
    Ok(())
}

#[test]
fn faults_say_where(rt: HostRuntime) -> Result<(), Fail> {
    let alloc = rt.alloc();
    let device = first_grant();
    let text = "region 7, grant 1: only normal memory is executable";
    expect_text(&rt, alloc, &Parts { device, ..common() }, text)?;
    let shared = doubled_grants();
    let text = "region 6, grant 2: a second grant of one partition";
    expect_text(&rt, alloc, &Parts { shared, ..common() }, text)?;
    let text = "partition 1, quota: fewer table pages than the grants need";
    expect_text(
        &rt,
        alloc,
        &Parts {
            quota: "5",
            ..common()
        },
        text,
    )?;
    let text = "partition 1, quota: a value of another kind";
    expect_text(
        &rt,
        alloc,
        &Parts {
            quota: "true",
            ..common()
        },
        text,
    )?;
    let text = "region 2, pages: outside its limits";
    expect_text(
        &rt,
        alloc,
        &Parts {
            pages: "0",
            ..common()
        },
        text,
    )?;
    let text = "region 1, owner: an identifier that stands twice or names no partition";
    expect_text(
        &rt,
        alloc,
        &Parts {
            owner: "9",
            ..common()
        },
        text,
    )?;
    let device = "{ id = 0x8001, exec = true }";
    let text = "region 7, grant 1, data: an unknown or a missing key";
    expect_text(&rt, alloc, &Parts { device, ..common() }, text)?;
    let top = "version = 1\n";
    let text = "document: an unknown or a missing key";
    expect_text(&rt, alloc, &Parts { top, ..common() }, text)
}
