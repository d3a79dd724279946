//! Tests of the vocabulary, through the public functions of `base`. They stand apart from it, since a crate is proved
//! once more with its tests.
#![tactic(auto)]

#[cfg(test)]
mod runs;
