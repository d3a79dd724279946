/// The kind of a memory transaction (FF-A 1.1, "Memory management").
#[derive(Clone, Copy, Debug, PartialEq, Eq)]
pub enum Kind {
    /// FFA_MEM_SHARE: the sender keeps its access and its ownership.
    Share,
    /// FFA_MEM_LEND: the sender keeps its ownership alone.
    Lend,
    /// FFA_MEM_DONATE: the receiver becomes the owner.
    Donate,
}
