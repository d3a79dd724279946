ghost use Rattle.descw.specs.Laws.{HaveResponsesOneText};

/// Bytes that are a response, each below 256, are the text of what they say. So no others say the same
/// in the layout of the same version.
pub fn responses_have_one_text()
    ensures { HaveResponsesOneText }
{}
