//! The definition of the manager: the table of tests of each call, its reply, the state after it, and
//! what holds in every state that calls reach. `specs/` has the definitions, `proofs/` the laws.
#![tactic(auto)]

mod law;

pub use law::{
    buffers_are_apart, cleared_pages_are_unreached, edits_the_view, handles_are_used_once,
    last_donation_decides, others_leave_a_partition, pages_have_one_owner, partitions_are_isolated,
    writers_are_allowed,
};
