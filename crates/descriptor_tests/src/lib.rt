//! Tests of the readers and the writers of descriptors, through the public functions of `descr` and `descw`. They stand
//! apart from them, since a crate is proved once more with its tests.
#![tactic(auto)]

#[cfg(test)]
mod relinquish;
#[cfg(test)]
mod retrieve;
#[cfg(test)]
mod send;
#[cfg(test)]
mod write;
