ghost use Rattle.std.specs.Prelude.{◌≡◌, length};

use marks::Marks;
use std::process::Abort;
use std::test::Fail;

/// How many numbers there are: a share of 1,024 from 3 on, and one of 16 behind it.
const COUNT: u32 = 1_043;

/// The lowest number of the shares that has no mark is the wanted one, which gets a mark.
fn take(rt: &impl Abort, marks: &mut Marks, wanted: u32)
    ensures { length marks.new ≡ length marks.old }
{
    assert_eq!(rt; marks.first_unmarked_from(3), Some(wanted));
    marks.mark(wanted);
}

/// A number loses its mark, and then this one is the lowest without.
fn give(rt: &impl Abort, marks: &mut Marks, given: u32, lowest: u32)
    requires { length marks.old ≡ COUNT }
    ensures { length marks.new ≡ COUNT }
{
    assert!(rt; given < COUNT);
    assert!(rt; marks.is_marked(given));
    marks.unmark(given);
    assert!(rt; !marks.is_marked(given));
    assert_eq!(rt; marks.first_unmarked_from(3), Some(lowest));
}

#[test]
fn the_lowest_number_is_taken(rt: HostRuntime) -> Result<(), Fail> {
    let mut marks = Marks::new(rt.alloc(), 3, 1_040)?;
    assert_eq!(rt; marks.first_unmarked_from(0), Some(3));
    for n in 3..1_027 {
        take(&rt, &mut marks, n);
    }
    for (given, lowest) in [
        (1_026, 1_026),
        (515, 515),
        (700, 515),
        (66, 66),
        (67, 66),
        (3, 3),
    ] {
        give(&rt, &mut marks, given, lowest);
    }
    for n in [3, 66, 67, 515, 700] {
        take(&rt, &mut marks, n);
    }
    for n in 1_026..COUNT {
        take(&rt, &mut marks, n);
    }
    assert_eq!(rt; marks.first_unmarked_from(3), None);
    Ok(())
}
