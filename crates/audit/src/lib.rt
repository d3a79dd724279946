//! The audit: the texts that show a state to a person, and tables that are made again from the ledger.
//!
//! Each text is a function of the manifest, the views and the owners alone; its `specs/` define it.
#![tactic(auto)]

mod audited;
mod check;
mod law;
mod lists;
mod maps;
mod owners;
mod rebuilt;
mod run_lines;
mod table_line;
mod tables;
mod text;

pub use audited::{append_audit, audit_text};
pub use check::{append_check, check_text};
pub use law::{owned_runs_are_maximal, reached_runs_are_maximal};
pub use maps::{append_maps, maps_text};
pub use owners::{append_owners, owners_text};
pub use rebuilt::rebuild;
pub use tables::{append_tables, tables_text};
