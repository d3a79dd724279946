//! Numbers as texts show them: digits, addresses of pages, and pages that follow one another.
#![tactic(auto)]

mod extent;
mod hex;

pub use extent::{append_decimal, append_extent};
pub use hex::{append_hex, append_wide_hex, fill_digits};
