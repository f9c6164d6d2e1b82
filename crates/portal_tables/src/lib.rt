//! The product's tables in a database: opening it, attaching the tables, reading records and committing
//! commands.
#![tactic(auto)]

mod attach_steps;
pub mod attaching;
mod batches;
pub mod errors;
pub mod laws;
mod lists;
mod migration;
pub mod opening;
mod prices;
pub mod questions;
mod records;
mod redemptions;
pub mod tables;

pub use attaching::Refused;
pub use errors::{OpenFault, StoreFault};
pub use opening::{Unopened, open_files, open_in_memory, open_path, reopen};
pub use tables::Tables;
