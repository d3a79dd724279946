use super::{Arguments, Task, read_arguments, words_of};
use crate::fault::Fault;
use std::alloc::Global;
use std::env::{Env, FillError};
use std::process::Abort;
use std::test::Fail;

/// What the program's words ask for, which are those of the line.
fn expect(
    rt: &impl Abort,
    alloc: Global,
    line: &str,
    wanted: Result<Arguments<'_>, Fault>,
) -> Result<(), Fail> {
    let mut words = Vec::new(alloc);
    for word in line.split(' ') {
        words.push(word.to_string(alloc)?)?;
    }
    let arguments = read_arguments(alloc, &words);
    if arguments == Err(Fault::Memory) {
        return Err(Fail::from(Fault::Memory));
    }
    assert_eq!(rt; arguments, wanted, "{line}");
    Ok(())
}

#[test]
fn reads_the_words(rt: HostRuntime) -> Result<(), Fail> {
    let alloc = rt.alloc();
    let run = Task::Run {
        manifest: "a.toml",
        script: "b",
    };
    let check = Task::Check { manifest: "a.toml" };
    let wanted = [
        ("ffaspm run a.toml b", run, false),
        ("ffaspm run --explain a.toml b", run, true),
        ("ffaspm run a.toml b --explain", run, true),
        ("ffaspm check a.toml", check, false),
        ("ffaspm check --explain a.toml", check, true),
    ];
    for (line, task, explains) in wanted {
        expect(&rt, alloc, line, Ok(Arguments { task, explains }))?;
    }
    Ok(())
}

#[test]
fn refuses_other_words(rt: HostRuntime) -> Result<(), Fail> {
    let others = [
        "ffaspm",
        "ffaspm run",
        "ffaspm run a",
        "ffaspm run a b c",
        "ffaspm a b",
        "ffaspm check",
        "ffaspm check a b",
        "ffaspm --explain check a",
        "ffaspm run -1 b",
        "ffaspm --help",
        "ffaspm run --help",
        "ffaspm help",
        "ffaspm --version",
    ];
    for line in others {
        expect(&rt, rt.alloc(), line, Err(Fault::Usage))?;
    }
    Ok(())
}

/// A system that passes these words.
#[derive(Drop)]
struct Passed<'a> {
    words: &'a [&'a [u8]],
}

impl Env for Passed<'_> {
    fn arg(&self, i: usize, buf: &mut [u8]) -> Result<usize, FillError> {
        let word = self.words.get(i).ok_or(FillError::NotPresent)?;
        match buf.get_mut(..word.len()) {
            Some(front) => {
                front.copy_from_slice(word);
                Ok(word.len())
            }
            None => Err(FillError::TooLong),
        }
    }

    fn var(&self, _name: &str, _buf: &mut [u8]) -> Result<usize, FillError> {
        Err(FillError::NotPresent)
    }

    fn var_at(&self, _i: usize, _buf: &mut [u8]) -> Result<usize, FillError> {
        Err(FillError::NotPresent)
    }
}

/// A word that is not UTF-8 gets a zero byte, which no path has.
#[test]
fn takes_words_of_any_bytes(rt: HostRuntime) -> Result<(), Fail> {
    let alloc = rt.alloc();
    let words: [&[u8]; 4] = [b"ffaspm", b"", b"\xc3\xa9", b"a\xff"];
    let taken = match words_of(alloc, &Passed { words: &words }) {
        Ok(taken) => taken,
        Err(_) => return Err(Fail::from(Fault::Memory)),
    };
    assert_eq!(rt; taken.len(), 4);
    assert_eq!(rt; taken[1].as_str(), "");
    assert_eq!(rt; taken[2].as_str(), "\u{e9}");
    assert_eq!(rt; taken[3].as_str(), "a\u{fffd}\0");
    Ok(())
}
