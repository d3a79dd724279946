//! The registers of calls and replies (FF-A 1.1, "Interface overview").
#![tactic(auto)]

mod function;
pub mod identifiers;
mod reply;
mod request;

pub use function::{Function, function_of, is_feature};
pub use reply::Reply;
pub use request::{Request, Transfer, decode};
