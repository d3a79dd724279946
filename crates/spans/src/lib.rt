//! A map from pages to numbers, kept as intervals in blocks and searched by halving.
#![tactic(auto)]

mod block;
mod blocks;
mod edit;
mod find;
mod merge;
mod page_map;
mod place;
mod probes;
mod span;
mod taking;

pub use page_map::PageMap;
pub use probes::Probes;
