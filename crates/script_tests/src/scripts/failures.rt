//! Readers and writers that fail, and those that take one byte at a time.

use super::documents::common_document;
use super::retrieves::whole_life;
use manifest::read;
use pool::RawPool;
use script::{RunFault, Watched, run_script};
use std::alloc::Global;
use std::io::{self, Error, ErrorKind, Read, Write};
use std::process::Abort;
use std::test::Fail;

/// Gives a script byte by byte, and fails after so many reads.
#[derive(Drop)]
struct Slow<'a> {
    script: &'a [u8],
    reads: usize,
    kind: ErrorKind,
}

impl<'a> Read for Slow<'a> {
    fn read(&mut self, buf: &mut [u8]) -> io::Result<usize> {
        if self.reads == 0 {
            return Err(Error::from(self.kind));
        }
        self.reads -= 1;
        match self.script.split_first() {
            Some((byte, script)) if !buf.is_empty() => {
                buf[0] = *byte;
                self.script = script;
                Ok(1)
            }
            _ => Ok(0),
        }
    }
}

/// How a writer fails.
#[derive(Clone, Copy)]
enum Failing {
    Error(ErrorKind),
    TakesNothing,
}

/// Takes no more than so many bytes at a time, and fails after so many writes.
#[derive(Drop)]
struct Narrow<'a> {
    taken: &'a mut Vec<u8>,
    most: usize,
    writes: usize,
    failing: Failing,
    flushes: bool,
}

impl<'a> Write for Narrow<'a> {
    fn write(&mut self, buf: &[u8]) -> io::Result<usize> {
        if self.writes == 0 {
            return match self.failing {
                Failing::Error(kind) => Err(Error::from(kind)),
                Failing::TakesNothing => Ok(0),
            };
        }
        self.writes -= 1;
        let count = buf.len().min(self.most);
        self.taken.extend_from_slice(&buf[..count])?;
        Ok(count)
    }

    fn flush(&mut self) -> io::Result<()> {
        if self.flushes {
            Ok(())
        } else {
            Err(Error::from(ErrorKind::Other))
        }
    }
}

/// What a run gave, what was written, and whether the reader and the writer failed.
#[derive(Drop)]
struct Ended {
    outcome: Result<(), RunFault>,
    reader_failed: bool,
    writer_failed: bool,
}

/// Runs a script with a reader that fails after so many reads.
fn read_with(
    alloc: Global,
    script: &str,
    reads: usize,
    kind: ErrorKind,
    text: &mut Vec<u8>,
) -> Result<Ended, Fail> {
    let document = common_document(alloc, 16, 16)?;
    let manifest = read(alloc, document.as_bytes())?;
    let mut reader = Watched::new(Slow {
        script: script.as_bytes(),
        reads,
        kind,
    });
    let mut writer = Watched::new(text);
    let outcome = run_script::<RawPool, _, _>(alloc, manifest, &mut reader, &mut writer);
    Ok(Ended {
        outcome,
        reader_failed: reader.failed(),
        writer_failed: writer.failed(),
    })
}

/// Runs a script with a writer.
fn write_with(alloc: Global, script: &str, narrow: Narrow<'_>) -> Result<Ended, Fail> {
    let document = common_document(alloc, 16, 16)?;
    let manifest = read(alloc, document.as_bytes())?;
    let mut reader = Watched::new(script.as_bytes());
    let mut writer = Watched::new(narrow);
    let outcome = run_script::<RawPool, _, _>(alloc, manifest, &mut reader, &mut writer);
    Ok(Ended {
        outcome,
        reader_failed: reader.failed(),
        writer_failed: writer.failed(),
    })
}

fn expect_ended(
    rt: &impl Abort,
    ended: &Ended,
    fault: Option<RunFault>,
    reader_failed: bool,
    writer_failed: bool,
) -> Result<(), Fail> {
    if ended.outcome == Err(RunFault::Memory) {
        return Err(Fail::from(RunFault::Memory));
    }
    assert_eq!(rt; ended.outcome.err(), fault);
    assert_eq!(rt; ended.reader_failed, reader_failed);
    assert_eq!(rt; ended.writer_failed, writer_failed);
    Ok(())
}

/// A reader that fails before any byte of a script, or at its end, ends the run with nothing written. An
/// interrupted read is not tried again.
#[test]
fn writes_nothing_where_the_reader_fails(rt: HostRuntime) -> Result<(), Fail> {
    let alloc = rt.alloc();
    let (script, _) = whole_life(alloc)?;
    for reads in 0..=script.len() {
        for kind in [ErrorKind::Other, ErrorKind::Interrupted] {
            let mut text = Vec::new(alloc);
            let ended = read_with(alloc, &script, reads, kind, &mut text)?;
            expect_ended(&rt, &ended, Some(RunFault::Read), true, false)?;
            assert!(rt; text.is_empty(), "after {reads} reads");
        }
    }
    Ok(())
}

/// A script that comes byte by byte is the same script.
#[test]
fn reads_byte_by_byte(rt: HostRuntime) -> Result<(), Fail> {
    let alloc = rt.alloc();
    let (script, wanted) = whole_life(alloc)?;
    let mut text = Vec::new(alloc);
    let ended = read_with(alloc, &script, usize::MAX, ErrorKind::Other, &mut text)?;
    expect_ended(&rt, &ended, None, false, false)?;
    assert!(rt; text.as_slice() == wanted.as_bytes());
    Ok(())
}

/// A writer that fails at any write ends the run with the bytes before it written.
#[test]
fn writes_a_beginning_where_the_writer_fails(rt: HostRuntime) -> Result<(), Fail> {
    let alloc = rt.alloc();
    let (script, wanted) = whole_life(alloc)?;
    let failings = [
        Failing::Error(ErrorKind::Other),
        Failing::Error(ErrorKind::Interrupted),
        Failing::TakesNothing,
    ];
    let most = 50;
    for writes in 0..wanted.len() / most {
        let mut text = Vec::new(alloc);
        let narrow = Narrow {
            taken: &mut text,
            most,
            writes,
            failing: failings[writes % 3],
            flushes: true,
        };
        let ended = write_with(alloc, &script, narrow)?;
        expect_ended(&rt, &ended, Some(RunFault::Write), false, true)?;
        let written = &wanted.as_bytes()[..most * writes];
        assert!(rt; text.as_slice() == written, "after {writes} writes");
    }
    Ok(())
}

/// A writer that takes one byte at a time gets the whole text. One that cannot flush has failed.
#[test]
fn writes_byte_by_byte(rt: HostRuntime) -> Result<(), Fail> {
    let alloc = rt.alloc();
    let (script, wanted) = whole_life(alloc)?;
    for (flushes, fault) in [(true, None), (false, Some(RunFault::Write))] {
        let mut text = Vec::new(alloc);
        let narrow = Narrow {
            taken: &mut text,
            most: 1,
            writes: wanted.len(),
            failing: Failing::TakesNothing,
            flushes,
        };
        let ended = write_with(alloc, &script, narrow)?;
        expect_ended(&rt, &ended, fault, false, !flushes)?;
        assert!(rt; text.as_slice() == wanted.as_bytes());
    }
    Ok(())
}

/// The lines before a bad one are written, unless the writer fails.
#[test]
fn writes_the_lines_before_a_bad_one(rt: HostRuntime) -> Result<(), Fail> {
    let alloc = rt.alloc();
    let script = "maps 8003\n\nmap\nmaps 8001\n";
    let wanted = "maps 8003 1\n00c0000000 2 rw- normal\n";
    for (writes, fault) in [(2, RunFault::Line(3)), (1, RunFault::Write)] {
        let mut text = Vec::new(alloc);
        let narrow = Narrow {
            taken: &mut text,
            most: 20,
            writes,
            failing: Failing::TakesNothing,
            flushes: true,
        };
        let ended = write_with(alloc, script, narrow)?;
        expect_ended(&rt, &ended, Some(fault), false, fault == RunFault::Write)?;
        let written = wanted.len().min(20 * writes);
        assert!(rt; text.as_slice() == &wanted.as_bytes()[..written]);
    }
    Ok(())
}

/// A script of so many line feeds.
#[derive(Drop)]
struct Feeds {
    left: usize,
}

impl Read for Feeds {
    fn read(&mut self, buf: &mut [u8]) -> io::Result<usize> {
        let count = buf.len().min(self.left);
        buf[..count].fill(b'\n');
        self.left -= count;
        Ok(count)
    }
}

/// A script has at most 16,777,216 bytes, and of a longer one no more than one byte too many is read.
#[test]
fn reads_no_more_than_a_script(rt: HostRuntime) -> Result<(), Fail> {
    let alloc = rt.alloc();
    let most = 16_777_216;
    let too_long = Some(RunFault::TooLong);
    for (feeds, fault, left) in [
        (most, None, 0),
        (most + 1, too_long, 0),
        (most + 3, too_long, 2),
    ] {
        let document = common_document(alloc, 16, 16)?;
        let manifest = read(alloc, document.as_bytes())?;
        let mut script = Feeds { left: feeds };
        let mut text = Vec::new(alloc);
        let mut reader = Watched::new(&mut script);
        let mut writer = Watched::new(&mut text);
        let outcome = run_script::<RawPool, _, _>(alloc, manifest, &mut reader, &mut writer);
        assert_eq!(rt; outcome.err(), fault);
        assert!(rt; text.is_empty());
        assert_eq!(rt; script.left, left);
    }
    Ok(())
}
