//! How far the pages behind a page are like it: up to where a run begins or ends.

ghost use Rattle.std.specs.Prelude.{◌<◌};
ghost use Rattle.base.specs.Alike.{IsAlikeUntil};
ghost use Rattle.base.specs.Pages.{in_run};

use crate::page::{Page, Run};

/// The number of the first page behind this one, up to a limit, that is in the run where this one is
/// not, or the other way round.
pub fn run_until(run: Run, page: Page, limit: u32) -> u32
    requires { page < limit }
    ensures { IsAlikeUntil (in_run run) page limit result }
{
    if page.number() < run.first().number() {
        limit.min(run.first().number())
    } else if page.number() < run.end() {
        limit.min(run.end())
    } else {
        limit
    }
}
