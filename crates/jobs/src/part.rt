//! How much of a job is made.

/// One part of so many: all of a job, or a small run of it.
#[derive(Clone, Copy)]
pub(crate) struct Part {
    parts: u32,
}

impl Part {
    pub(crate) fn new(parts: u32) -> Self {
        Part { parts }
    }

    /// This part of a number.
    pub(crate) fn of(self, number: u32) -> u32 {
        number.checked_div(self.parts).unwrap_or(number)
    }
}
