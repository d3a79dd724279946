//! Writers of the descriptors of memory transactions, in the layouts of FF-A 1.0 and 1.1. Each part
//! follows the one before it without a gap.
#![tactic(auto)]

mod fields;
mod law;
mod text;
mod write;

pub use fields::{
    HeaderFields, RangeFields, RelinquishFields, ResponseFields, RetrieveFields, SendFields,
};
pub use law::responses_have_one_text;
pub use write::{write_relinquish, write_response, write_retrieve, write_send};
