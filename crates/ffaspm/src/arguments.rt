//! The program's words.

use crate::fault::Fault;
use clap::error::ErrorKind;
use clap::{Arg, ArgAction, ArgMatches, Command, Error};
use std::alloc::{AllocError, Global};
use std::env::{Env, FillError};
use std::str;

#[cfg(test)]
mod tests;

/// More bytes than the system passes in one word.
const MOST_BYTES: usize = 262_144;

/// What the program is to do, with the paths of its files.
#[derive(Clone, Copy, Debug, PartialEq, Eq)]
pub(crate) enum Task<'a> {
    /// `run MANIFEST SCRIPT`: run a script.
    Run { manifest: &'a str, script: &'a str },
    /// `check MANIFEST`: write what each partition's grants need.
    Check { manifest: &'a str },
}

/// The task, and whether a fault of the manifest is to be explained (`--explain`).
#[derive(Clone, Copy, Debug, PartialEq, Eq)]
pub(crate) struct Arguments<'a> {
    pub(crate) task: Task<'a>,
    pub(crate) explains: bool,
}

/// The program's words. One that is not UTF-8 ends in a zero byte, so that it names no file.
pub(crate) fn words_of(alloc: Global, env: &impl Env) -> Result<Vec<String>, Fault> {
    let mut buffer = Vec::new(alloc);
    buffer.resize(MOST_BYTES, 0)?;
    let mut words = Vec::new(alloc);
    for i in 0..usize::MAX {
        match env.arg(i, &mut buffer) {
            Ok(length) => words.push(word_of(alloc, &buffer[..length])?)?,
            Err(FillError::NotPresent) => break,
            Err(FillError::TooLong) => return Err(Fault::Usage),
        }
    }
    Ok(words)
}

fn word_of(alloc: Global, bytes: &[u8]) -> Result<String, AllocError> {
    let mut word = String::from_utf8_lossy(alloc, bytes)?;
    if str::from_utf8(bytes).is_err() {
        word.push('\0')?;
    }
    Ok(word)
}

/// What the program's words ask for.
pub(crate) fn read_arguments<'a>(
    alloc: Global,
    words: &'a [String],
) -> Result<Arguments<'a>, Fault> {
    match parsed(alloc, words) {
        Ok(matches) => arguments_of(&matches).ok_or(Fault::Usage),
        Err(error) => match error.kind() {
            ErrorKind::OutOfMemory => Err(Fault::Memory),
            _ => Err(Fault::Usage),
        },
    }
}

fn parsed<'a>(alloc: Global, words: &'a [String]) -> Result<ArgMatches<'a>, Error> {
    let run = Command::new(alloc, "run")
        .arg(explain(alloc))?
        .arg(path(alloc, "MANIFEST"))?
        .arg(path(alloc, "SCRIPT"))?;
    let check = Command::new(alloc, "check")
        .arg(explain(alloc))?
        .arg(path(alloc, "MANIFEST"))?;
    let command = Command::new(alloc, "ffaspm")
        .subcommand(run)?
        .subcommand(check)?;
    command.try_get_matches_from(words)
}

fn explain<'a>(alloc: Global) -> Arg<'a> {
    Arg::new(alloc, "explain")
        .long("explain")
        .action(ArgAction::SetTrue)
}

fn path<'a>(alloc: Global, name: &'a str) -> Arg<'a> {
    Arg::new(alloc, name).required(true)
}

fn arguments_of<'a>(matches: &ArgMatches<'a>) -> Option<Arguments<'a>> {
    let (name, found) = matches.subcommand()?;
    let manifest = found.get_str("MANIFEST")?;
    let task = match name {
        "run" => Task::Run {
            manifest,
            script: found.get_str("SCRIPT")?,
        },
        _ => Task::Check { manifest },
    };
    Some(Arguments {
        task,
        explains: found.get_flag("explain"),
    })
}
