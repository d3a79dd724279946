//! Tests of the translation tables, through the public functions of `stage2`, of their memory, and of the marks of its
//! pages. They stand apart from what they test, since a crate is proved once more with its tests.
#![tactic(auto)]

#[cfg(test)]
mod fixture;
#[cfg(test)]
mod gaps;
#[cfg(test)]
mod lone_page;
#[cfg(test)]
mod memory;
#[cfg(test)]
mod numbers;
#[cfg(test)]
mod passed_on;
#[cfg(test)]
mod share;
#[cfg(test)]
mod tables;
