//! A desk: one book under a lock, and eight seats, from which threads make calls. Each call is
//! answered as one thread would answer all of them, in the order in which they stand in the book,
//! and its seat has a receipt for it.
#![tactic(auto)]

mod book;
mod desk;
mod entry;
mod naming;
mod pass;
mod receipt;
mod seat;

pub use book::Book;
pub use desk::{Desk, Opened};
pub use entry::Entry;
pub use naming::Naming;
pub use receipt::Receipt;
pub use seat::Seat;
