//! Gives the pages of runs a number: the intervals go into another list, part by part, and the runs between them.

ghost use Rattle.std.specs.Prelude.{◌≡◌, ◌+◌, ◌*◌, ◌++◌, ◌∷◌, [], ◌^◌, ◌<◌, ◌≤◌, Some, true, length, vec_len, vec_capacity};
ghost use Rattle.base.specs.Pages.{rise};
ghost use Rattle.spans.specs.Spans as spec;
ghost use Rattle.spans.specs.Spans.{are_joined};
ghost use Rattle.spans.specs.Edits.{all_before, all_from, IsMerged, IsPlaceOf, IsSame};

use crate::find::place_near_end;
use crate::span::Span;
use base::{Page, Run};

/// Puts an interval behind the others, as one with the last of them where the two touch and have one number.
fn push(out: &mut Vec<Span>, span: Span)
    requires { vec_len out.old < vec_capacity out.old }
    ensures same { IsSame (out.old.items ++ span ∷ []) out.new.items }
    ensures joined { (ys : _) → are_joined out.old.items ≡ true → are_joined (span ∷ ys) ≡ true
        → are_joined (out.new.items ++ ys) ≡ true }
    ensures capacity { vec_capacity out.new ≡ vec_capacity out.old }
{
    if out.is_empty() {
        out.push_reserved(span);
        return;
    }
    let end = out.len() - 1;
    let last = out[end];
    match last.joined(span) {
        Some(whole) => out[end] = whole,
        None => out.push_reserved(span),
    }
}

/// Puts what intervals have before a page behind the others.
fn extend_before(out: &mut Vec<Span>, spans: &[Span], page: u32)
    requires page { page ≤ 2 ^ 27 }
    requires ascending { spec.ascend 0 spans.now ≡ true }
    requires room { vec_len out.old + length spans.now ≤ vec_capacity out.old }
    ensures items { out.new.items ≡ out.old.items ++ all_before page spans.now }
    ensures capacity { vec_capacity out.old ≤ vec_capacity out.new }
{
    let place = place_near_end(spans, page);
    let _ = out.extend_from_slice(&spans[..place]);
    if place < spans.len() {
        let span = spans[place];
        if let Some(part) = span.before(page) {
            out.push_reserved(part);
        }
    }
}

/// Puts what intervals have from one page on, and before another, behind the others, as one with the last of those where
/// they touch and have one number. It answers the place of the first interval that ends behind the first page.
pub(crate) fn append(out: &mut Vec<Span>, spans: &[Span], from: u32, to: u32) -> usize
    requires page { to ≤ 2 ^ 27 }
    requires ascending { spec.ascend 0 spans.now ≡ true }
    requires room { vec_len out.old + length (all_from from spans.now) ≤ vec_capacity out.old }
    ensures same { IsSame (out.old.items ++ all_before to (all_from from spans.now)) out.new.items }
    ensures joined { are_joined out.old.items ≡ true → are_joined spans.now ≡ true → are_joined out.new.items ≡ true }
    ensures place { IsPlaceOf spans.now from result }
    ensures in_range { spec.end_from 0 spans.now ≤ 2 ^ 27 }
    ensures capacity { vec_capacity out.old ≤ vec_capacity out.new }
{
    let place = place_near_end(spans, from);
    if place < spans.len() {
        let span = spans[place];
        if let Some(part) = span.within(from, to) {
            push(out, part);
            extend_before(out, &spans[place + 1..], to);
        }
    }
    place
}

/// Fills a list with the intervals, but the pages of the runs have this number.
pub(crate) fn merge(out: &mut Vec<Span>, spans: &[Span], runs: &[Run], value: u64)
    requires ascending { spec.ascend 0 spans.now ≡ true }
    requires rise { rise 0 runs.now ≡ true }
    requires room { length spans.now + 2 * length runs.now ≤ vec_capacity out.old }
    ensures merged { IsMerged runs.now (Some value) spans.now out.new.items }
    ensures capacity { vec_capacity out.old ≤ vec_capacity out.new }
{
    out.clear();
    let mut at = 0;
    let mut from = 0;
    for run in runs {
        at += append(out, &spans[at..], from, run.first().number());
        push(out, Span { run: *run, value });
        from = run.end();
    }
    append(out, &spans[at..], from, Page::COUNT);
}
