//! The records of the desk and the commands that change them; days, and the takings of each day.
#![tactic(auto)]

pub mod batches;
pub mod calendar;
pub mod captive;
pub mod change;
pub mod code_start;
pub mod command;
pub mod details;
pub mod lists;
mod memory;
pub mod moment;
pub mod name;
pub mod plan;
pub mod proof;
pub mod record;
pub mod redemptions;
pub mod refusal;
pub mod takings;
pub mod test_vectors;
