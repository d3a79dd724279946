use spm::Call;

/// A call that was answered, and the number of the seat that made it.
#[derive(Drop)]
pub struct Entry {
    pub seat: u8,
    pub call: Call,
}
