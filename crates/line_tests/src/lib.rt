//! Tests of the lines of scripts, through the public functions of `lines`. They stand apart from it, since a crate is
//! proved once more with its tests.
#![tactic(auto)]

#[cfg(test)]
mod line;
