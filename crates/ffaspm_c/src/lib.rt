//! The core for C. C holds one `struct ffaspm`, and gives it to one call at a time.
#![tactic(auto)]

mod bound;
mod call;
mod holder;
mod kept;
mod look;
mod make;
mod status;
mod tables;
