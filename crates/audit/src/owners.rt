//! The text of who owns which pages.

ghost use Rattle.std.specs.Prelude.{◌≡◌, ◌+◌, ◌≤◌, ◌++◌, length, IfOk, OnOk, string_bytes};
ghost use Rattle.std.specs.List.{flat_map};
ghost use Rattle.audit.specs.Runs as runs;
ghost use Rattle.audit.specs.Runs.{ownership_of};
ghost use Rattle.audit.specs.Texts as spec;

use crate::run_lines::{Common, RunLines, Valued};
use crate::text::{append_access, bring_forward, text_of};
use base::{Access, OutOfMemory, Page, PartitionId, Run};
use digits::{append_decimal, fill_digits};
use ledger::Ledger;
use manifest::Manifest;
use std::alloc::Global;
use std::marker::Model;

/// The owner of pages, and what they are to it.
#[derive(Clone, Copy, Debug, PartialEq, Eq)]
struct Ownership {
    owner: PartitionId,
    home: Access,
}

impl Model for Ownership {
    ghost use Rattle.audit.specs.Runs as runs;

    ghost Value = { runs.Ownership };

    ghost view = { λ o. record { owner = o.owner; home = o.home } };

    ghost inverse = { λ o. record { owner = o.owner; home = o.home } };
}

/// An owner and a home, where there are both.
fn with_home(owner: Option<PartitionId>, home: Option<Access>) -> Option<Ownership>
    ensures { result ≡ ownership_of owner home }
{
    Some(Ownership {
        owner: owner?,
        home: home?,
    })
}

impl Common for Ownership {
    ghost use Rattle.audit.specs.Runs.{is_same_ownership};
    ghost use Rattle.audit.specs.Texts.{ownership_end};

    ghost same = { is_same_ownership };

    ghost rest = { ownership_end };

    fn is_same(self, other: Self) -> bool {
        self.owner == other.owner && self.home.is_same(other.home)
    }

    fn append(self, text: &mut Vec<u8>) -> Result<(), OutOfMemory> {
        let mut owner = *b" 0000";
        fill_digits(u64::from(self.owner.number()), &mut owner[1..5]);
        text.extend_from_slice(&owner)?;
        append_access(text, self.home)
    }
}

/// `owners N`, and then the N maximal runs of pages with one owner and one home, upward, as
/// `ADDRESS COUNT OWNER ACCESS KIND`. The manifest is that of the ledger.
pub fn owners_text(
    alloc: Global,
    manifest: &Manifest,
    ledger: &Ledger,
) -> Result<String, OutOfMemory>
    requires manifest { ledger.now.manifest ≡ manifest.now }
    ensures { IfOk result
        (λ text. string_bytes text ≡ spec.owners_text manifest.now ledger.now.donations) }
{
    let _manifest = manifest;
    let mut text = Vec::new(alloc);
    append_owners(&mut text, ledger)?;
    Ok(text_of(text))
}

/// Appends the text that `owners_text` makes. Without memory the bytes may end in a part of it.
#[tactic(auto, unfolding(crate::specs::Texts::owners_text))]
pub fn append_owners(text: &mut Vec<u8>, ledger: &Ledger) -> Result<(), OutOfMemory>
    ensures { OnOk result (text.new.items
        ≡ text.old.items ++ spec.owners_text ledger.now.manifest ledger.now.donations) }
{
    let start = text.len();
    let count = append_lines(text, ledger)?;
    let end = text.len();
    append_header(text, count)?;
    bring_forward(text, start, end);
    Ok(())
}

/// Appends the lines of all runs, and says how many they are.
fn append_lines(text: &mut Vec<u8>, ledger: &Ledger) -> Result<usize, OutOfMemory>
    ensures count { IfOk result
        (λ count. count ≡ length (runs.owned_runs ledger.now.manifest ledger.now.donations)) }
    ensures lines { OnOk result (text.new.items ≡ text.old.items
        ++ flat_map spec.owners_line (runs.owned_runs ledger.now.manifest ledger.now.donations)) }
{
    let mut lines = RunLines::new();
    let mut number = 0;
    while number < Page::COUNT {
        let page = Page::new(number);
        let owned = ledger.owned(page);
        if let Some(value) = with_home(owned.value.owner, owned.value.home) {
            let run = Run::new(page, owned.end - number);
            lines.push(text, Valued { run, value })?;
        }
        number = owned.end;
    }
    lines.finish(text)
}

fn append_header(text: &mut Vec<u8>, count: usize) -> Result<(), OutOfMemory>
    ensures text { OnOk result (text.new.items ≡ text.old.items ++ spec.owners_header count) }
    ensures short { OnOk result (length text.new.items ≤ length text.old.items + 32) }
{
    text.extend_from_slice(b"owners ")?;
    append_decimal(text, count as u64)?;
    Ok(text.extend_from_slice(b"\n")?)
}
