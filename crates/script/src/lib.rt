//! Scripts of calls: what their lines do to a secure world, and the text that they write.
#![tactic(auto)]

mod fault;
mod input;
mod operations;
mod output;
mod replies;
mod script;
mod watched;
mod world;

pub use fault::RunFault;
pub use script::run_script;
pub use watched::Watched;
pub use world::World;
