//! The words of translation tables: Arm VMSAv8-64 stage 2 descriptors with the 4 KB granule, written
//! and read. Its `specs/` define the word of each descriptor, and what a word is at each level.
#![tactic(auto)]

mod word;

pub use word::{Entry, known_entry, leaf_word, read_entry, table_word};
