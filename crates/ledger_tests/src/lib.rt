//! Tests of the map of pages and of the ledger, through the public functions of `spans` and `ledger`. They stand apart
//! from them, since a crate is proved once more with its tests.
#![tactic(auto)]

#[cfg(test)]
mod ownership;
#[cfg(test)]
mod page_map;
