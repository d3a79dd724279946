//! Tests of scripts, through the public functions of `script`. They stand apart from it, since a crate is
//! proved once more with its tests.
#![tactic(auto)]

#[cfg(test)]
mod scripts;
