//! What is below the rows: the SQL texts and what they mean, running a write, testing whether a connection still
//! answers, and testing whether new tables can be added to a schema.
#![tactic(auto)]

pub mod copied_tables;
pub mod our_indexes;
pub mod our_tables;
pub mod query;
pub mod room;
pub mod statements;
