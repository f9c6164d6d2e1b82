//! A desk over a database. It knows neither HTTP nor SQL.
#![tactic(auto)]

mod acting;
mod attaching;
mod batches;
mod captives;
mod desks;
mod details;
mod heads;
mod judging;
mod keeping;
mod lists;
mod open_sessions;
mod reading;
mod redemptions;
mod session_changes;
pub mod session_laws;
mod takings;

pub use desks::StoreDesk;
pub use portal_tables::{OpenFault, Refused};
