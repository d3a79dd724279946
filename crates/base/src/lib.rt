//! The vocabulary of the memory-sharing core: pages, partitions, access, kinds of transaction and
//! statuses. Its `specs/` define who owns a page, what each partition reaches, and what the bytes of
//! a send spell.
#![tactic(auto)]

mod access;
mod alike;
mod attributes;
mod handle;
pub mod limits;
mod order;
mod page;
mod partition;
mod permissions;
mod runs;
mod segment;
mod status;
mod transaction;

pub use access::{Access, MemoryKind, Rights};
pub use alike::run_until;
pub use attributes::MemoryAttributes;
pub use handle::Handle;
pub use order::gather;
pub use page::{Page, Run};
pub use partition::{PartitionId, Version};
pub use permissions::{DataAccess, InstructionAccess, Permissions};
pub use runs::{Runs, normal};
pub use segment::Segment;
pub use status::{OutOfMemory, Status};
pub use transaction::Kind;
