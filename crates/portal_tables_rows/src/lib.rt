//! The tables as rows: reading and writing them, the schema, and the transactions of commands and of
//! migrations. `HoldsIn` in specs/Holds.antt says when a database holds given rows in the tables of a
//! schema version.
#![tactic(auto)]

pub mod answers;
pub mod audits;
pub mod column_values;
pub mod commands;
pub mod copies;
pub mod counted_rows;
pub mod creation;
pub mod entangled;
pub mod finds;
pub mod from_row;
pub mod from_versions;
pub mod grants;
pub mod inserts;
mod joins;
mod keys;
pub mod lists;
pub mod migrations;
pub mod pages;
pub mod queries;
pub mod requests;
pub mod rows;
pub mod schema_versions;
pub mod stored_requests;
pub mod sums;
pub mod updates;
pub mod whole;
