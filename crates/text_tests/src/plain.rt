//! The plain forms of the texts.

use crate::fault::Fault;
use crate::table_words::{Attributes, Entry};
use base::{Access, MemoryKind, Page, PartitionId, Rights, Run};
use ledger::Ledger;
use manifest::Manifest;
use std::alloc::Global;

/// Pages that follow one another and are alike.
#[derive(Clone, Copy)]
struct Stretch<T> {
    first: u32,
    count: u32,
    value: T,
}

/// Adds pages to the last stretch, if they follow it and are like it, and else as a stretch of their own.
fn push_joined<T: Copy + PartialEq + Drop>(
    stretches: &mut Vec<Stretch<T>>,
    next: Stretch<T>,
) -> Result<(), Fault> {
    if let Some(last) = stretches.last_mut() {
        if last.first.wrapping_add(last.count) == next.first && last.value == next.value {
            last.count = last.count.wrapping_add(next.count);
            return Ok(());
        }
    }
    stretches.push(next)?;
    Ok(())
}

/// The address of a page.
fn address(page: u32) -> u64 {
    u64::from(page).wrapping_mul(4096)
}

/// `tables ID USED`, and a line for each entry.
pub(crate) fn tables_text(alloc: Global, id: u16, entries: &[Entry]) -> Result<String, Fault> {
    let used = entries.iter().filter(|entry| entry.is_table()).count();
    let mut text = format!(in alloc; "tables {id:04x} {used}\n")?;
    for entry in entries {
        let (level, address, word) = (entry.level, address(entry.first), entry.word);
        if entry.is_table() {
            writeln!(&mut text, "L{level} {address:010x} table")?;
        } else {
            writeln!(&mut text, "L{level} {address:010x} {word:016x}")?;
        }
    }
    Ok(text)
}

/// The pages of the blocks and pages among the entries, joined.
fn reached(alloc: Global, entries: &[Entry]) -> Result<Vec<Stretch<Attributes>>, Fault> {
    let mut stretches = Vec::new(alloc);
    for entry in entries {
        if !entry.is_table() {
            let next = Stretch {
                first: entry.first,
                count: entry.pages(),
                value: entry.attributes(),
            };
            push_joined(&mut stretches, next)?;
        }
    }
    Ok(stretches)
}

/// `maps ID N`, and a line for each stretch of pages that are reached alike.
pub(crate) fn maps_text(alloc: Global, id: u16, entries: &[Entry]) -> Result<String, Fault> {
    let stretches = reached(alloc, entries)?;
    let lines = stretches.len();
    let mut text = format!(in alloc; "maps {id:04x} {lines}\n")?;
    for stretch in &stretches {
        let (address, count) = (address(stretch.first), stretch.count);
        let (access, kind) = (stretch.value.access(), stretch.value.kind());
        writeln!(&mut text, "{address:010x} {count} {access} {kind}")?;
    }
    Ok(text)
}

/// What an access is written as.
fn access_words(access: Access) -> (&'static str, &'static str) {
    let rights = match (access.rights(), access.is_executable()) {
        (Rights::Ro, false) => "r--",
        (Rights::Ro, true) => "r-x",
        (Rights::Rw, false) => "rw-",
        (Rights::Rw, true) => "rwx",
    };
    let kind = match access.kind() {
        MemoryKind::Normal => "normal",
        MemoryKind::Device => "device",
    };
    (rights, kind)
}

/// Asks of each of these pages who owns it, and what it is to its owner.
fn push_owned(
    stretches: &mut Vec<Stretch<(PartitionId, Access)>>,
    ledger: &Ledger,
    pages: Run,
) -> Result<(), Fault> {
    for number in pages.first().number()..pages.end() {
        if number < Page::COUNT {
            let page = Page::new(number);
            if let (Some(owner), Some(home)) = (ledger.owner(page), ledger.home(page)) {
                let next = Stretch {
                    first: number,
                    count: 1,
                    value: (owner, home),
                };
                push_joined(stretches, next)?;
            }
        }
    }
    Ok(())
}

/// `owners N`, and a line for each stretch of pages with one owner and one home. All pages that are donated lie
/// in regions, as those that a manager lets through do.
pub(crate) fn owners_text(
    alloc: Global,
    manifest: &Manifest,
    ledger: &Ledger,
) -> Result<String, Fault> {
    let mut stretches = Vec::new(alloc);
    for region in manifest.regions() {
        push_owned(&mut stretches, ledger, region.pages())?;
    }
    let lines = stretches.len();
    let mut text = format!(in alloc; "owners {lines}\n")?;
    for stretch in &stretches {
        push_owner_line(&mut text, stretch)?;
    }
    Ok(text)
}

fn push_owner_line(
    text: &mut String,
    stretch: &Stretch<(PartitionId, Access)>,
) -> Result<(), Fault> {
    let (address, count) = (address(stretch.first), stretch.count);
    let (owner, home) = stretch.value;
    let owner = owner.number();
    let (access, kind) = access_words(home);
    writeln!(text, "{address:010x} {count} {owner:04x} {access} {kind}")?;
    Ok(())
}

/// Whether two entries say the same: that a table is there, or what may be done with which pages.
fn say_the_same(ours: Entry, theirs: Entry) -> bool {
    let leaf = ours.address() == theirs.address() && ours.attributes() == theirs.attributes();
    ours.level == theirs.level
        && ours.first == theirs.first
        && ours.is_table() == theirs.is_table()
        && (ours.is_table() || leaf)
}

/// Whether the entries of a partition say the same in both.
pub(crate) fn are_alike(ours: &[Entry], theirs: &[Entry]) -> bool {
    ours.len() == theirs.len()
        && ours
            .iter()
            .zip(theirs)
            .all(|(ours, theirs)| say_the_same(*ours, *theirs))
}

/// The first entry that the other has not at the same place.
pub(crate) fn first_apart(ours: &[Entry], theirs: &[Entry]) -> Option<Entry> {
    for (place, entry) in ours.iter().enumerate() {
        match theirs.get(place) {
            Some(other) if say_the_same(*entry, *other) => {}
            _ => return Some(*entry),
        }
    }
    None
}
