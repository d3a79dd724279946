//! The RX/TX buffer pairs of partitions (FF-A 1.1, "RX/TX buffers"): which are registered, who holds
//! RX, and the tests of the calls that change them.
#![tactic(auto)]

mod pair;
mod pairs;

pub use pair::Pair;
pub use pairs::Pairs;
