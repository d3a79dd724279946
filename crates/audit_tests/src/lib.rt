//! Tests of the texts, through the public functions of `audit`. They stand apart from it, since a crate is
//! proved once more with its tests.
#![tactic(auto)]

#[cfg(test)]
mod texts;
