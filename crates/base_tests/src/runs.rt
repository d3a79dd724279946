use base::{Page, Run, normal};
use std::test::Fail;

#[test]
fn no_run_gives_none(rt: HostRuntime) -> Result<(), Fail> {
    let found = normal(rt.alloc(), &mut Vec::new(rt.alloc()), &[])?;
    assert_eq!(rt; found.len(), 0);
    Ok(())
}

#[test]
fn runs_that_touch_become_one(rt: HostRuntime) -> Result<(), Fail> {
    let runs = [Run::new(Page::new(7), 2), Run::new(Page::new(4), 3)];
    let found = normal(rt.alloc(), &mut Vec::new(rt.alloc()), &runs)?;
    assert_eq!(rt; found.as_slice(), [Run::new(Page::new(4), 5)].as_slice());
    Ok(())
}

#[test]
fn gaps_stay(rt: HostRuntime) -> Result<(), Fail> {
    let runs = [
        Run::new(Page::new(20), 1),
        Run::new(Page::new(0), 8),
        Run::new(Page::new(9), 11),
    ];
    let found = normal(rt.alloc(), &mut Vec::new(rt.alloc()), &runs)?;
    let want = [Run::new(Page::new(0), 8), Run::new(Page::new(9), 12)];
    assert_eq!(rt; found.as_slice(), want.as_slice());
    Ok(())
}

#[test]
fn three_runs_apart_stay_three(rt: HostRuntime) -> Result<(), Fail> {
    let low = Run::new(Page::new(1), 1);
    let middle = Run::new(Page::new(3), 2);
    let high = Run::new(Page::new(6), 1);
    let found = normal(rt.alloc(), &mut Vec::new(rt.alloc()), &[high, low, middle])?;
    assert_eq!(rt; found.as_slice(), [low, middle, high].as_slice());
    Ok(())
}

#[test]
fn the_last_page_is_reached(rt: HostRuntime) -> Result<(), Fail> {
    let top = Page::COUNT - 1;
    let runs = [Run::new(Page::new(top), 1), Run::new(Page::new(0), top)];
    let found = normal(rt.alloc(), &mut Vec::new(rt.alloc()), &runs)?;
    assert_eq!(rt;
        found.as_slice(),
        [Run::new(Page::new(0), Page::COUNT)].as_slice()
    );
    Ok(())
}

#[test]
fn runs_that_fall_are_turned(rt: HostRuntime) -> Result<(), Fail> {
    let low = Run::new(Page::new(1), 1);
    let middle = Run::new(Page::new(3), 2);
    let high = Run::new(Page::new(6), 1);
    let found = normal(rt.alloc(), &mut Vec::new(rt.alloc()), &[high, middle, low])?;
    assert_eq!(rt; found.as_slice(), [low, middle, high].as_slice());
    Ok(())
}
