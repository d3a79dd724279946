//! The ledger: who owns each page, what it is to its owner, and which transactions are live (FF-A 1.1,
//! "Memory management").
#![tactic(auto)]

mod donation;
mod free;
mod gift;
mod ledger;
mod live;

pub use donation::Donation;
pub use free::{Owned, Standing};
pub use ledger::Ledger;
pub use live::{Live, Receiver, Terms};
