//! Table memory: pages of 512 table words, and the record of what is done to them.
#![tactic(auto)]

mod block;
mod cells;
mod identifiers;
mod image;
mod list_pool;
mod log;
mod looks;
mod operation;
mod places;
mod raw_pool;
mod replace;
mod runs;
mod stretch;
mod table_mem;
mod table_pool;
mod word_range;
mod word_store;

pub use identifiers::Identifiers;
pub use image::Image;
pub use list_pool::ListPool;
pub use operation::Op;
pub use places::{address_of, page_at, quotas_of, row_in, row_of};
pub use raw_pool::RawPool;
pub use runs::TableWords;
pub use table_mem::TableMem;
pub use word_range::WordRange;
