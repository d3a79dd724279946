//! Tests of the calls, through the public functions of `spm`, and of the buffer pairs, through those of `mailbox`. They
//! stand apart from them, since a crate is proved once more with its tests.
#![tactic(auto)]

#[cfg(test)]
mod buffers;
#[cfg(test)]
mod manager;
#[cfg(test)]
mod pairs;
#[cfg(test)]
mod reclaim;
#[cfg(test)]
mod send;
#[cfg(test)]
mod testing;
