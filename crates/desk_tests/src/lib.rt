//! Tests of a desk, by threads that share one, through the public functions of `desk`. They stand apart from it, since a
//! crate is proved once more with its tests.
#![tactic(auto)]

#[cfg(test)]
mod threads;
