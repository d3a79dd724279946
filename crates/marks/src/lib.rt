//! Marks of numbers, among which the lowest number without a mark is found by a look at a few words.
#![tactic(auto)]

mod marks;
mod tree;
mod word;

pub use marks::Marks;
