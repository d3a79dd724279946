//! Tests of the manifest, through the public functions of `manifest`. They stand apart from it, since a
//! crate is proved once more with its tests.
#![tactic(auto)]

#[cfg(test)]
mod common;
#[cfg(test)]
mod documents;
