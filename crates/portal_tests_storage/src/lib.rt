//! Tests of the tables over real databases in memory; and SQL beside them, with the tables of older schema
//! versions.
#![tactic(auto)]

#[cfg(test)]
mod attaching;
#[cfg(test)]
mod sales;
pub mod sql;
pub mod versions;
