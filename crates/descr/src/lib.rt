//! Readers of the descriptors of memory transactions, in the layouts of FF-A 1.0 and 1.1. What is
//! read borrows the bytes, and nothing is put on the heap.
#![tactic(auto)]

mod access;
mod apart;
mod flags;
mod law;
mod layout;
mod numbers;
mod ranges;
mod relinquish;
mod retrieve;
mod send;

pub use access::Endpoint;
pub use flags::{are_clear_flags, orders_clear};
pub use law::{layouts_are_apart, retrieve_layouts_are_apart};
pub use ranges::Ranges;
pub use relinquish::{RelinquishDesc, read_relinquish};
pub use retrieve::{RetrieveDesc, read_retrieve};
pub use send::{SendDesc, read_send};
