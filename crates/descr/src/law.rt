ghost use Rattle.descr.specs.Laws.{AreSendsApart, AreRetrievesApart};

/// No bytes, of any length and values, are a send in both the layout of FF-A 1.0 and that of 1.1.
pub fn layouts_are_apart()
    ensures { AreSendsApart }
{}

/// The same of retrieve requests.
pub fn retrieve_layouts_are_apart()
    ensures { AreRetrievesApart }
{}
