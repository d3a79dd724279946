//! Scripts of calls.

ghost use Rattle.std.specs.Prelude.{◌≡◌, ◌≢◌, ◌⊎◌, ◌<◌, ◌≤◌, ◌+◌, ◌∷◌, [], ℕ, List, None, length, position, ◌==◌, IfErr, IfSome, IsErrOf, IsFalse, IsTrue, OnOk, OnErr, Err};
ghost use Rattle.std.specs.Io.KnownBytes.{Consumes};
ghost use Rattle.std.specs.Option.{option_map_or};
ghost use Rattle.std.specs.BTreeMap.{get};
ghost use Rattle.std.specs.Ordering.{nat_cmp};
ghost use Rattle.lines.specs.Grammar.{line_of};
ghost use Rattle.script.specs.Left.{IsScriptOf, Left, TellsOfReader, TellsOfWriter, Waits, most_bytes};
ghost use Rattle.script.specs.Script as spec;

use crate::fault::RunFault;
use crate::input::read_script;
use crate::output::{finish, write_if_long};
use crate::watched::Watched;
use crate::world::World;
use lines::read_line;
use manifest::Manifest;
use memchr::memchr;
use pool::TableMem;
use std::alloc::Global;
use std::io::{Read, Write};

/// Reads a script whole, and then runs its lines in order, from the manifest on, and writes the text of
/// each. Where a line is none, the text of the lines before it was written; where memory was wanting, or
/// the writer failed, a beginning of the text; and else, where there was an error, nothing. Of a script
/// that is too long no more than one byte too many is read.
pub fn run_script<M: TableMem + Drop, R: Read, W: Write>(
    alloc: Global,
    manifest: Manifest,
    reader: &mut Watched<R>,
    writer: &mut Watched<W>,
) -> Result<(), RunFault>
    ensures left { (script : List ℕ) × IsScriptOf (R.remaining reader.old.inner) script
        × Left (W.contents writer.old.inner) (W.contents writer.new.inner) (spec.world_of manifest)
        script result }
    ensures too_long { IsErrOf result RunFault.TooLong
        → IfSome (R.remaining reader.old.inner) (λ all. most_bytes < length all) }
    ensures at_most { (taken : List ℕ) × (length taken ≤ most_bytes + 1)
        × Consumes (R.remaining reader.old.inner) (R.remaining reader.new.inner) taken }
    ensures reader { TellsOfReader reader.old.failed reader.new.failed result }
    ensures writer { TellsOfWriter writer.old.failed writer.new.failed result }
{
    let script = read_script(alloc, reader)?;
    let mut world: World<M> = World::boot(alloc, manifest)?;
    let mut text = Vec::new(alloc);
    let outcome = run_lines(&mut world, &script, &mut text, writer);
    if has_failed_to_write(&outcome) {
        return outcome;
    }
    finish(&mut text, writer)?;
    outcome
}

/// Whether it was the writer that ended a run.
fn has_failed_to_write(outcome: &Result<(), RunFault>) -> bool
    ensures yes { IsTrue result → outcome.now ≡ Err RunFault.Write }
    ensures no { IsFalse result → outcome.now ≢ Err RunFault.Write }
{
    matches!(outcome, Err(RunFault::Write))
}

/// Runs the lines of a script in order. Text that was not written yet is left in `text`.
fn run_lines<M: TableMem + Drop, W: Write>(
    world: &mut World<M>,
    script: &[u8],
    text: &mut Vec<u8>,
    writer: &mut Watched<W>,
) -> Result<(), RunFault>
    requires short { length script.now ≤ most_bytes }
    requires empty { text.old.items ≡ [] }
    ensures waits { Waits (W.contents writer.old.inner) (W.contents writer.new.inner) text.new.items
        (spec.world_at world.old.spm.state (get nat_cmp world.old.kept)) (spec.lines_in script.now)
        result }
    ensures writer { TellsOfWriter writer.old.failed writer.new.failed result }
{
    let mut line_text = Vec::new(world.alloc);
    let mut number = 0u32;
    let mut left = Some(script);
    while let Some(lines) = left {
        let (line, behind) = first_line(lines);
        number += 1;
        run_line(world, line, number, &mut line_text, text)?;
        write_if_long(text, writer)?;
        left = behind;
    }
    Ok(())
}

/// The first of the lines that line feeds part, and what stands behind its line feed, if it has one.
fn first_line(lines: &[u8]) -> (&[u8], Option<&[u8]>)
    ensures parts { spec.lines_in lines.now
        ≡ result.0.now ∷ option_map_or (λ behind. spec.lines_in behind.now) result.1 [] }
    ensures shorter { IfSome result.1 (λ behind. length behind.now < length lines.now) }
{
    match line_feed(lines) {
        Some(end) => (&lines[..end], Some(&lines[end + 1..])),
        None => (lines, None),
    }
}

/// Where the first line feed is.
fn line_feed(bytes: &[u8]) -> Option<usize>
    ensures { result ≡ position (λ b. b == 10) bytes.now }
{
    memchr(b'\n', bytes)
}

/// Does what a line says, and appends what it writes, which is gathered in `line_text`. An error leaves
/// the text as it was.
fn run_line<M: TableMem + Drop>(
    world: &mut World<M>,
    bytes: &[u8],
    number: u32,
    line_text: &mut Vec<u8>,
    text: &mut Vec<u8>,
) -> Result<(), RunFault>
    ensures ok { OnOk result (spec.RunsLine
        (spec.world_at world.old.spm.state (get nat_cmp world.old.kept))
        (spec.world_at world.new.spm.state (get nat_cmp world.new.kept))
        bytes.now text.old.items text.new.items) }
    ensures same { OnErr result (text.new.items ≡ text.old.items) }
    ensures faults { IfErr result (λ fault. (fault ≡ RunFault.Memory)
        ⊎ ((fault ≡ RunFault.Line number) × (line_of bytes.now ≡ None))) }
{
    let Some(line) = read_line(world.alloc, bytes)? else {
        return Err(RunFault::Line(number));
    };
    line_text.clear();
    world.line(line, line_text)?;
    Ok(text.extend_from_slice(line_text)?)
}
