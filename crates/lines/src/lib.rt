//! The lines of scripts of calls.
#![tactic(auto)]

mod line;
mod receive;
mod send;
mod words;

pub use line::{Line, read_line};
pub use send::{ReclaimLine, SendLine};
