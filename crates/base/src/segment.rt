//! Pages that follow one another.

/// The pages from the one that was asked for up to an end, and what is said of each of them.
#[derive(Clone, Copy, Debug, PartialEq, Eq)]
pub struct Segment<T> {
    /// What is said of each of them.
    pub value: T,
    /// The number of the page after the last of them.
    pub end: u32,
}
