use documents::common_document;
use manifest::read;
use pool::{ListPool, RawPool, TableMem};
use script::{RunFault, Watched, run_script};
use std::alloc::Global;
use std::process::Abort;
use std::str;
use std::test::Fail;

mod clears;
mod documents;
mod failures;
mod manifests;
mod operations;
mod quotas;
mod reclaims;
mod retrieves;
mod rows;
mod tables;
mod walkers;

/// What a script writes, from the common manifest on, and the fault that ends it.
fn expect_text(
    rt: &impl Abort,
    alloc: Global,
    script: &str,
    fault: Option<RunFault>,
    wanted: &str,
) -> Result<(), Fail> {
    let document = common_document(alloc, 16, 16)?;
    expect_text_from(rt, alloc, &document, script, fault, wanted)
}

/// What a script writes, from a manifest on, and the fault that ends it, over either table memory.
fn expect_text_from(
    rt: &impl Abort,
    alloc: Global,
    document: &str,
    script: &str,
    fault: Option<RunFault>,
    wanted: &str,
) -> Result<(), Fail> {
    expect_text_over::<ListPool>(rt, alloc, document, script, fault, wanted)?;
    expect_text_over::<RawPool>(rt, alloc, document, script, fault, wanted)
}

fn expect_text_over<M: TableMem + Drop>(
    rt: &impl Abort,
    alloc: Global,
    document: &str,
    script: &str,
    fault: Option<RunFault>,
    wanted: &str,
) -> Result<(), Fail> {
    let manifest = read(alloc, document.as_bytes())?;
    let mut text = Vec::new(alloc);
    let mut reader = Watched::new(script.as_bytes());
    let mut writer = Watched::new(&mut text);
    let outcome = run_script::<M, _, _>(alloc, manifest, &mut reader, &mut writer);
    if outcome == Err(RunFault::Memory) {
        return Err(Fail::from(RunFault::Memory));
    }
    assert_eq!(rt; outcome.err(), fault, "{script}");
    assert_eq!(rt; str::from_utf8(&text), Ok(wanted), "{script}");
    Ok(())
}

const MAPS: &str = "maps 8001 4\n\
    0009000000 1 rw- device\n\
    0080000000 1024 rwx normal\n\
    0090000000 2 rw- normal\n\
    00d0000000 1 rw- normal\n";

#[test]
fn writes_what_is_reached(rt: HostRuntime) -> Result<(), Fail> {
    let alloc = rt.alloc();
    let others = "maps 8003 1\n00c0000000 2 rw- normal\nmaps 8004 0\nmaps 00ff 0\n";
    expect_text(&rt, alloc, "maps 8001", None, MAPS)?;
    let script = "maps 8003\n# no row\n\nmaps 8004\nmaps 00ff\n";
    expect_text(&rt, alloc, script, None, others)?;
    expect_text(&rt, alloc, "", None, "")?;
    Ok(())
}

const UNKNOWN: &str =
    "reply 84000060 00000000 ffffffff 00000000 00000000 00000000 00000000 00000000\n";

const DENIED: &str =
    "reply 84000060 00000000 fffffffa 00000000 00000000 00000000 00000000 00000000\n";

#[test]
fn ends_at_a_bad_line(rt: HostRuntime) -> Result<(), Fail> {
    let alloc = rt.alloc();
    let fault = Some(RunFault::Line(3));
    expect_text(
        &rt,
        alloc,
        "#\ncall 8001 1\nmap 8001\nmaps 8001\n",
        fault,
        UNKNOWN,
    )?;
    let fault = Some(RunFault::Line(1));
    expect_text(&rt, alloc, "maps 8001 ", fault, "")?;
    expect_text(&rt, alloc, "call 8004 84000066\n", None, DENIED)?;
    Ok(())
}

/// A lend of the page at 0x80001000 by 0x8001 to 0x8002, which may read and write.
const LEND: &str = "0180000000000000000000000000000000000000000000001000000001000000\
    3000000000000000000000000000000002800200400000000000000000000000\
    0100000001000000000000000000000000100080000000000100000000000000";

const REPLIES: &str =
    "reply 84000061 00000000 00000000 00000000 00000000 00000000 00000000 00000000\n\
    reply 84000060 00000000 fffffffe 00000000 00000000 00000000 00000000 00000000\n\
    reply 84000061 00000000 00000001 00008001 00000000 00000000 00000000 00000000\n\
    reply 84000060 00000000 fffffffa 00000000 00000000 00000000 00000000 00000000\n\
    reply 84000060 00000000 fffffffe 00000000 00000000 00000000 00000000 00000000\n\
    maps 8001 5\n\
    0009000000 1 rw- device\n\
    0080000000 1 rwx normal\n\
    0080002000 1022 rwx normal\n\
    0090000000 2 rw- normal\n\
    00d0000000 1 rw- normal\n";

/// A call carries the bytes that its caller's last `tx` line kept: first none, then the lend twice, then
/// none again.
#[test]
fn keeps_bytes(rt: HostRuntime) -> Result<(), Fail> {
    let alloc = rt.alloc();
    let script = format!(in alloc;
        "call 8001 84000066 90000000 90001000 1\n\
        tx 8002 {LEND}\n\
        call 8001 84000072 60 60\n\
        tx 8001 {LEND}\n\
        call 8001 84000072 60 60\n\
        call 8001 84000072 60 60\n\
        tx 8001\n\
        call 8001 84000072 60 60\n\
        maps 8001\n"
    )?;
    expect_text(&rt, alloc, &script, None, REPLIES)
}

const SUCCESS: &str = "84000061 00000000 00000000 00000000";

const NOT_SUPPORTED: &str = "84000060 00000000 ffffffff 00000000";

const INVALID: &str = "84000060 00000000 fffffffe 00000000";

const REFUSED: &str = "84000060 00000000 fffffffa 00000000";

/// Each line is a call, and is answered by these registers 0 to 3; the others are 0.
fn expect_replies(rt: &impl Abort, alloc: Global, calls: &[(&str, &str)]) -> Result<(), Fail> {
    let mut script = String::new(alloc);
    let mut wanted = String::new(alloc);
    for (line, registers) in calls {
        writeln!(&mut script, "{line}")?;
        writeln!(
            &mut wanted,
            "reply {registers} 00000000 00000000 00000000 00000000"
        )?;
    }
    expect_text(rt, alloc, &script, None, &wanted)
}

/// The calls that move no page, in one script.
#[test]
fn answers_calls_that_move_no_page(rt: HostRuntime) -> Result<(), Fail> {
    let calls = [
        ("call 8001 84000070", NOT_SUPPORTED),
        (
            "call 8001 84000063 80000000",
            "ffffffff 00000000 00000000 00000000",
        ),
        (
            "call 8001 84000063 10000",
            "00010001 00000000 00000000 00000000",
        ),
        ("call 9000 84000069", REFUSED),
        ("call 8002 84000069", "84000061 00000000 00008002 00000000"),
        ("call 8001 84000065", REFUSED),
        ("call 8001 c4000065", NOT_SUPPORTED),
        (
            "call 8001 ffffffff84000069",
            "84000061 00000000 00008001 00000000",
        ),
        ("call 8001 84000064 84000075", SUCCESS),
        ("call 8001 84000064 c4000076", NOT_SUPPORTED),
        ("call 8001 84000066 90000000 90001000 0", INVALID),
        ("call 8001 84000066 90000000 90001000 9", INVALID),
        ("call 8001 84000066 90000800 90001000 1", INVALID),
        ("call 8001 84000066 90000000 90000000 1", INVALID),
        ("call 8001 c4000066 8000000000 90001000 1", INVALID),
        ("call 8001 84000066 8000000000 90001000 1", REFUSED),
        ("call 8001 84000066 d0000000 90001000 1", REFUSED),
        ("call 8001 84000066 80000000 80008000 100000008", SUCCESS),
        ("call 8001 84000066 80000000 80008000 100000008", REFUSED),
        ("call 8001 84000067 1", INVALID),
        ("call 8001 84000067", SUCCESS),
        ("call 8001 84000067", INVALID),
    ];
    expect_replies(&rt, rt.alloc(), &calls)
}

/// The same lend in the layout of version 1.0.
const LEND_1_0: &str = "0180000000000000000000000000000000000000000000000000000001000000\
    0280020030000000000000000000000001000000010000000000000000000000\
    00100080000000000100000000000000";

/// A partition's version decides the layout of its descriptors; a refused one leaves it.
#[test]
fn reads_the_layout_of_the_version(rt: HostRuntime) -> Result<(), Fail> {
    let alloc = rt.alloc();
    let script = format!(in alloc;
        "call 8001 84000066 90000000 90001000 1\n\
        tx 8001 {LEND_1_0}\n\
        call 8001 84000072 50 50\n\
        call 8001 84000063 10000\n\
        call 8001 84000063 20000\n\
        tx 8001 {LEND}\n\
        call 8001 84000072 60 60\n\
        tx 8001 {LEND_1_0}\n\
        call 8001 84000072 50 50\n\
        call 8001 84000063 10005\n\
        call 8001 84000072 50 50\n"
    )?;
    let wanted = "reply 84000061 00000000 00000000 00000000 00000000 00000000 00000000 00000000\n\
        reply 84000060 00000000 fffffffe 00000000 00000000 00000000 00000000 00000000\n\
        reply 00010001 00000000 00000000 00000000 00000000 00000000 00000000 00000000\n\
        reply ffffffff 00000000 00000000 00000000 00000000 00000000 00000000 00000000\n\
        reply 84000060 00000000 fffffffe 00000000 00000000 00000000 00000000 00000000\n\
        reply 84000061 00000000 00000001 00008001 00000000 00000000 00000000 00000000\n\
        reply 00010001 00000000 00000000 00000000 00000000 00000000 00000000 00000000\n\
        reply 84000060 00000000 fffffffe 00000000 00000000 00000000 00000000 00000000\n";
    expect_text(&rt, alloc, &script, None, wanted)
}

/// A buffer pair for each partition.
const PAIRS: &str = "call 8001 84000066 90000000 90001000 1\n\
    call 8002 84000066 b0000000 b0001000 1\n\
    call 8003 84000066 c0000000 c0001000 1\n";

/// What a script writes after the buffer pairs are there.
fn expect_after_pairs(
    rt: &impl Abort,
    alloc: Global,
    lines: &str,
    wanted: &str,
) -> Result<(), Fail> {
    let pair = "reply 84000061 00000000 00000000 00000000 00000000 00000000 00000000 00000000\n";
    let script = format!(in alloc; "{PAIRS}{lines}")?;
    let wanted = format!(in alloc; "{pair}{pair}{pair}{wanted}")?;
    expect_text(rt, alloc, &script, None, &wanted)
}

/// Pages across two chunks, a whole chunk, ranges that touch, and two receivers.
#[test]
fn lends_ranges(rt: HostRuntime) -> Result<(), Fail> {
    let lines = "lend 8001 0 8002:02 801ff000+2\n\
        maps 8001\n\
        lend 8001 0 8002:02,8003:01 80300000+1\n\
        lend 8001 7 8002:01 80000000+256,80100000+255\n\
        lend 8002 0 8003:02 a0000000+512\n\
        maps 8001\n\
        maps 8002\n";
    let wanted = "reply 84000061 00000000 00000001 00008001 00000000 00000000 00000000 00000000\n\
        maps 8001 5\n\
        0009000000 1 rw- device\n\
        0080000000 511 rwx normal\n\
        0080201000 511 rwx normal\n\
        0090000000 2 rw- normal\n\
        00d0000000 1 rw- normal\n\
        reply 84000061 00000000 00000002 00008001 00000000 00000000 00000000 00000000\n\
        reply 84000061 00000000 00000003 00008001 00000000 00000000 00000000 00000000\n\
        reply 84000061 00000000 00000001 00008002 00000000 00000000 00000000 00000000\n\
        maps 8001 5\n\
        0009000000 1 rw- device\n\
        0080201000 255 rwx normal\n\
        0080301000 255 rwx normal\n\
        0090000000 2 rw- normal\n\
        00d0000000 1 rw- normal\n\
        maps 8002 2\n\
        00b0000000 2 rw- normal\n\
        00d0000000 1 r-- normal\n";
    expect_after_pairs(&rt, rt.alloc(), lines, wanted)
}

/// A share leaves its sender the pages. A page with two grants and a TX buffer cannot be shared, and
/// nothing without a buffer pair.
#[test]
fn shares_pages(rt: HostRuntime) -> Result<(), Fail> {
    let alloc = rt.alloc();
    let lines = "share 8001 0 8002:01 d0000000+1\n\
        share 8001 0 8002:01 90000000+1\n\
        share 8001 5 8002:01 80000000+1\n\
        maps 8001\n\
        call 8001 84000067\n\
        share 8001 0 8002:01 90000000+1\n";
    let wanted = format!(in alloc;
        "{DENIED}{DENIED}\
        reply 84000061 00000000 00000001 00008001 00000000 00000000 00000000 00000000\n\
        {MAPS}\
        reply {SUCCESS} 00000000 00000000 00000000 00000000\n\
        reply {INVALID} 00000000 00000000 00000000 00000000\n"
    )?;
    expect_after_pairs(&rt, alloc, lines, &wanted)
}

/// An address near 2^64, one page more than a transaction may have, as many pages as it may have, of
/// which not all are free, and device memory; then a whole chunk.
#[test]
fn refuses_lends(rt: HostRuntime) -> Result<(), Fail> {
    let lines = "lend 8001 0 8002:02 fffffffffffff000+2\n\
        lend 8001 0 8002:02 80000000+262145\n\
        lend 8001 0 8002:02 80000000+262144\n\
        lend 8001 0 8002:02 9000000+1\n\
        lend 8001 0 8002:02 80000000+2,80001000+1\n\
        lend 8001 0 8002:02,8002:02 80000000+1\n\
        lend 8001 0 8002:02 80000000+512\n\
        maps 8001\n";
    let wanted = "reply 84000060 00000000 fffffffe 00000000 00000000 00000000 00000000 00000000\n\
        reply 84000060 00000000 fffffffe 00000000 00000000 00000000 00000000 00000000\n\
        reply 84000060 00000000 fffffffa 00000000 00000000 00000000 00000000 00000000\n\
        reply 84000060 00000000 fffffffa 00000000 00000000 00000000 00000000 00000000\n\
        reply 84000060 00000000 fffffffe 00000000 00000000 00000000 00000000 00000000\n\
        reply 84000060 00000000 fffffffe 00000000 00000000 00000000 00000000 00000000\n\
        reply 84000061 00000000 00000001 00008001 00000000 00000000 00000000 00000000\n\
        maps 8001 4\n\
        0009000000 1 rw- device\n\
        0080200000 512 rwx normal\n\
        0090000000 2 rw- normal\n\
        00d0000000 1 rw- normal\n";
    expect_after_pairs(&rt, rt.alloc(), lines, wanted)
}

/// Lengths that are not the descriptor's use no number.
#[test]
fn refuses_lengths(rt: HostRuntime) -> Result<(), Fail> {
    let alloc = rt.alloc();
    let lines = format!(in alloc;
        "tx 8001 {LEND}\n\
        call 8001 84000072 2f 2f\n\
        call 8001 84000072 5f 5f\n\
        call 8001 84000072 60 5f\n\
        call 8001 84000072 60 60\n"
    )?;
    let wanted = "reply 84000060 00000000 fffffffe 00000000 00000000 00000000 00000000 00000000\n\
        reply 84000060 00000000 fffffffe 00000000 00000000 00000000 00000000 00000000\n\
        reply 84000060 00000000 fffffffe 00000000 00000000 00000000 00000000 00000000\n\
        reply 84000061 00000000 00000001 00008001 00000000 00000000 00000000 00000000\n";
    expect_after_pairs(&rt, alloc, &lines, wanted)
}

/// A lend of each second page, from TX buffers of three pages.
#[test]
fn lends_many_ranges(rt: HostRuntime) -> Result<(), Fail> {
    let alloc = rt.alloc();
    let mut script = String::new(alloc);
    writeln!(&mut script, "call 8001 84000066 80000000 80008000 3")?;
    write!(&mut script, "lend 8001 0 8002:02 80010000+1")?;
    for i in 1..500u64 {
        write!(&mut script, ",{:x}+1", 0x8001_0000 + i * 0x2000)?;
    }
    writeln!(&mut script)?;
    let wanted = "reply 84000061 00000000 00000000 00000000 00000000 00000000 00000000 00000000\n\
        reply 84000061 00000000 00000001 00008001 00000000 00000000 00000000 00000000\n";
    expect_text(&rt, alloc, &script, None, wanted)
}
