/// Words of a page from one index up to another: each is a step more than the one before.
#[derive(Clone, Copy)]
pub struct WordRange {
    /// The page.
    pub page: u32,
    /// The index of the first.
    pub first: u32,
    /// The index after the last.
    pub end: u32,
    /// The first word.
    pub word: u64,
    /// How much more each other one is than the one before.
    pub step: u64,
}
