use crate::compared::{audit_across, compare, entries_in, plain_audit};
use crate::fault::Fault;
use crate::house::{House, booted};
use crate::states::{Drawn, Managers};
use crate::table_words::Entry;
use crate::two::{pass_pages, sending};
use base::Kind;
use std::alloc::Global;
use std::process::Abort;
use std::test::Fail;

/// How many managers are drawn, how many states of each are looked at, and how many calls lead there at most.
const MANAGERS: u64 = 20;

const STATES: u32 = 500;

const MOST_CALLS: u32 = 4_000;

/// The tables of a state are audited by the state before, and those of that by this one.
fn audit_before(
    rt: &impl Abort,
    alloc: Global,
    managers: &Managers,
    entries: &[Vec<Entry>],
) -> Result<(), Fault> {
    let wanted = plain_audit(entries, &entries_in(alloc, managers.before())?);
    let text = audit_across(alloc, managers.spm(), managers.before())?;
    assert_eq!(rt; text.as_str(), wanted);
    let text = audit_across(alloc, managers.before(), managers.spm())?;
    assert_eq!(rt; text.as_str(), wanted);
    Ok(())
}

/// The texts of a state are the plain ones. Each tenth is audited by the state before, too.
fn look(rt: &impl Abort, alloc: Global, managers: &Managers) -> Result<(), Fault> {
    let entries = entries_in(alloc, managers.spm())?;
    compare(rt, alloc, managers.spm(), &entries)?;
    if managers.served() % 10 == 0 {
        audit_before(rt, alloc, managers, &entries)?;
    }
    Ok(())
}

/// Makes the next call, if not all states were looked at, and looks at the state that it leads to.
fn look_at_next(rt: &impl Abort, alloc: Global, drawn: &mut Drawn) -> Result<(), Fault> {
    if drawn.managers().served() < STATES && drawn.step()? {
        look(rt, alloc, drawn.managers())?;
    }
    Ok(())
}

/// All states were looked at, and more than half of the calls led to one.
fn count_states(rt: &impl Abort, managers: &Managers, seed: u64) {
    let (calls, served) = (managers.calls(), managers.served());
    assert_eq!(rt; served, STATES, "states of the seed {seed}");
    assert!(rt; calls / 2 < served, "half of {calls} calls");
}

/// Looks at the states of a manager that is drawn from a seed.
fn look_at_states(rt: &impl Abort, alloc: Global, seed: u64) -> Result<(), Fault> {
    let mut drawn = Drawn::new(alloc, seed)?;
    for _ in 0..MOST_CALLS {
        look_at_next(rt, alloc, &mut drawn)?;
    }
    count_states(rt, drawn.managers(), seed);
    Ok(())
}

/// Ten thousand states, which calls lead to that were drawn. A wrong text ends the test.
#[test]
fn ten_thousand_drawn_states_have_the_texts_of_the_plain_forms(
    rt: HostRuntime,
) -> Result<(), Fail> {
    for seed in 0..MANAGERS {
        look_at_states(&rt, rt.alloc(), seed)?;
    }
    Ok(())
}

/// Lands of more than a gigabyte, all of which is blocks in a row.
const LARGE: House = House {
    partitions: 2,
    before: 266_000,
    behind: 2_500,
    quota: 24,
};

/// What is lent of them, one after another: a page, blocks on both sides of the border, and pages of three chunks.
const LENT: [[u32; 2]; 3] = [[5, 1], [512, 1_024], [2_000, 600]];

fn look_at_large_states(rt: &impl Abort, alloc: Global) -> Result<(), Fault> {
    let mut spm = booted(alloc, LARGE)?;
    compare(rt, alloc, &spm, &entries_in(alloc, &spm)?)?;
    for pages in LENT {
        let lend = sending(alloc, Kind::Lend, pages, true)?;
        pass_pages(alloc, &mut spm, &lend)?;
        compare(rt, alloc, &spm, &entries_in(alloc, &spm)?)?;
    }
    Ok(())
}

#[test]
fn lands_of_gigabytes_have_the_texts_of_the_plain_forms(rt: HostRuntime) -> Result<(), Fail> {
    look_at_large_states(&rt, rt.alloc())?;
    Ok(())
}
