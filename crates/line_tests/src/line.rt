use arrayvec::ArrayVec;
use base::{Handle, Kind, OutOfMemory, PartitionId, Permissions};
use descr::Endpoint;
use descw::{RangeFields, RelinquishFields};
use lines::{Line, ReclaimLine, SendLine, read_line};
use std::alloc::Global;
use std::process::Abort;
use std::test::Fail;

fn expect_line(
    rt: &impl Abort,
    alloc: Global,
    text: &str,
    wanted: Option<Line>,
) -> Result<(), OutOfMemory> {
    let line = read_line(alloc, text.as_bytes())?;
    assert!(rt; line == wanted, "{text}");
    Ok(())
}

#[test]
fn reads_lines(rt: HostRuntime) -> Result<(), Fail> {
    let alloc = rt.alloc();
    let id = PartitionId::new(0x80af);
    expect_line(&rt, alloc, "", Some(Line::Nothing))?;
    expect_line(&rt, alloc, "#  any\r", Some(Line::Nothing))?;
    expect_line(&rt, alloc, "tx 80af", Some(Line::Tx(id, Vec::new(alloc))))?;
    let bytes = vec![in alloc; 0x0a, 0xbc]?;
    expect_line(&rt, alloc, "tx 80af 0AbC", Some(Line::Tx(id, bytes)))?;
    let call = Line::Call(id, [0x84000066, 0, 0, 0, 0, 0, 0, 0]);
    expect_line(&rt, alloc, "call 80af 84000066", Some(call))?;
    let call = Line::Call(id, [1, 2, 3, 4, 5, 6, 7, u64::MAX]);
    let text = "call 80af 1 02 3 4 5 6 0000000000000007 ffffffffffffffff";
    expect_line(&rt, alloc, text, Some(call))?;
    expect_line(&rt, alloc, "maps 80af", Some(Line::Maps(id)))?;
    expect_line(&rt, alloc, "tables 80af", Some(Line::Tables(id)))?;
    expect_line(&rt, alloc, "ops", Some(Line::Operations))?;
    Ok(())
}

#[test]
fn reads_relinquishes_and_reclaims(rt: HostRuntime) -> Result<(), Fail> {
    let alloc = rt.alloc();
    let id = PartitionId::new(0x80af);
    let handle = Handle::from_bits(0x8001_0000_0001);
    for (last, clears) in [("", false), (" zero", true)] {
        let relinquish = RelinquishFields {
            handle,
            flags: u32::from(clears),
            endpoint: id,
        };
        let text = format!(in alloc; "relinquish 80af 800100000001{last}")?;
        expect_line(&rt, alloc, &text, Some(Line::Relinquish(relinquish)))?;
        let reclaim = ReclaimLine {
            caller: id,
            handle,
            clears,
        };
        let text = format!(in alloc; "reclaim 80af 800100000001{last}")?;
        expect_line(&rt, alloc, &text, Some(Line::Reclaim(reclaim)))?;
    }
    Ok(())
}

/// A send by 0x8001 with tag 5 of two ranges to these receivers.
fn send_line(
    alloc: Global,
    kind: Kind,
    clears: bool,
    receivers: ArrayVec<Endpoint, 8>,
) -> Result<Line, OutOfMemory> {
    let ranges = vec![in alloc;
        RangeFields {
            address: 0x8000_0000,
            count: 256
        },
        RangeFields {
            address: u64::MAX,
            count: 0
        },
    ]?;
    let send = SendLine {
        sender: PartitionId::new(0x8001),
        clears,
        tag: 5,
        receivers,
        ranges,
        total: 256,
    };
    Ok(Line::Send(kind, send))
}

#[test]
fn reads_sends(rt: HostRuntime) -> Result<(), Fail> {
    let alloc = rt.alloc();
    for (word, kind, last, clears) in [
        ("share", Kind::Share, "", false),
        ("lend", Kind::Lend, "", false),
        ("donate", Kind::Donate, "", false),
        ("share", Kind::Share, " zero", true),
        ("lend", Kind::Lend, " zero", true),
        ("donate", Kind::Donate, " zero", true),
    ] {
        let mut receivers = ArrayVec::new();
        receivers.push(Endpoint {
            partition: PartitionId::new(0x8002),
            permissions: Permissions::new(2),
        });
        receivers.push(Endpoint {
            partition: PartitionId::new(0x8003),
            permissions: Permissions::new(0x1f),
        });
        let text = format!(in alloc;
            "{word} 8001 5 8002:02,8003:1f 80000000+256,ffffffffffffffff+0{last}"
        )?;
        let wanted = send_line(alloc, kind, clears, receivers)?;
        expect_line(&rt, alloc, &text, Some(wanted))?;
    }
    Ok(())
}

#[test]
fn refuses_other_sends(rt: HostRuntime) -> Result<(), Fail> {
    let alloc = rt.alloc();
    for text in [
        "share",
        "reclaim 8001",
        "reclaim 8001 1 2",
        "reclaim 801 1",
        "donate 8001 5",
        "share 8001 5 8002:02",
        "give 8001 5 8002:02 80000000+1",
        "lends 8001 5 8002:02 80000000+1",
        "donate 8001 5 8002:02 80000000+1 ",
        "lend 8001 5 8002:02",
        "lend 8001 5 8002:2 80000000+1",
        "lend 8001 5 8002 80000000+1",
        "lend 8001 5 8002:02, 80000000+1",
        "lend 8001 5 8002:02 80000000+01",
        "lend 8001 5 8002:02 80000000+",
        "lend 8001 5 8002:02 80000000+a",
        "lend 8001 5 8002:02 80000000+4294967296",
        "lend 8001 5 8002:02 0+4294967295,0+1",
        "lend 8001 5 0001:00,0002:00,0003:00,0004:00,0005:00,0006:00,0007:00,0008:00,0009:00 0+1",
        "lend 8001 5 8002:02 0+1 0+1",
    ] {
        expect_line(&rt, alloc, text, None)?;
    }
    Ok(())
}

/// The word `zero` stands once, at the end, and on these lines alone.
#[test]
fn refuses_other_last_words(rt: HostRuntime) -> Result<(), Fail> {
    let alloc = rt.alloc();
    for text in [
        "share zero",
        "share 8001 5 8002:02 0+1 zero zero",
        "share zero 8001 5 8002:02 0+1",
        "lend 8001 5 8002:02 zero",
        "lend 8001 5 8002:02 0+1 alone",
        "lend 8001 5 8002:02 0+1 Zero",
        "lend 8001 5 8002:02 0+1 zeros",
        "lend 8001 5 8002:02 0+1 zer",
        "lend 8001 5 8002:02 0+1 zero ",
        "donate 8001 5 8002:02 0+1  zero",
        "relinquish zero",
        "relinquish 8002 zero",
        "relinquish 8002 1 one",
        "relinquish 8002 1 zero zero",
        "reclaim zero",
        "reclaim 8001 zero",
        "reclaim 8001 1 zer0",
        "reclaim 8001 1 zero zero",
        "retrieve 8002 1 8001 0 2 02 zero",
        "retrieve 8002 1 8001 0 2 02 zero alone",
        "maps 8001 zero",
        "tx 8001 00 zero",
        "call 8001 1 zero",
        "ops zero",
    ] {
        expect_line(&rt, alloc, text, None)?;
    }
    Ok(())
}

#[test]
fn refuses_other_lines(rt: HostRuntime) -> Result<(), Fail> {
    let alloc = rt.alloc();
    let others = [
        " ",
        " #",
        "\r",
        "reset",
        "MAPS 8001",
        "maps",
        "maps 801",
        "maps 08001",
        "maps 800A",
        "maps +801",
        "maps  8001",
        "maps 8001 ",
        "maps 8001\r",
        "maps 8001 8002",
        "tables",
        "tables 801",
        "tables 8001 ",
        "table 8001",
        "ops ",
        "ops 8001",
        "ops 1",
        "tx",
        "tx 8001 ",
        "tx 8001 0",
        "tx 8001 0g",
        "tx 8001 00 00",
        "call 8001",
        "call 8001 ",
        "call 8001 A",
        "call 8001 -1",
        "call 8001 00000000000000001",
        "call 8001 1 2 3 4 5 6 7 8 9",
    ];
    for text in others {
        expect_line(&rt, alloc, text, None)?;
    }
    let not_text = read_line(alloc, &[0xff])?;
    assert!(rt; not_text.is_none());
    Ok(())
}

#[test]
fn bounds_lengths(rt: HostRuntime) -> Result<(), Fail> {
    let alloc = rt.alloc();
    for (count, is_line) in [(66_000, true), (66_001, false)] {
        let comment = vec![in alloc; b'#'; count]?;
        let line = read_line(alloc, &comment)?;
        assert_eq!(rt; line.is_some(), is_line);
    }
    for (count, is_line) in [(32_768, true), (32_769, false)] {
        let mut text = String::new(alloc);
        text.push_str("tx 8001 ")?;
        for _ in 0..count {
            text.push_str("0f")?;
        }
        let line = read_line(alloc, text.as_bytes())?;
        assert_eq!(rt; line.is_some(), is_line);
    }
    Ok(())
}
