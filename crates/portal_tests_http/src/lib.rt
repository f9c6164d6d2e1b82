//! Tests of requests in pieces, of exchanges that are cut off, and of many requests in one run. Whole responses
//! to whole requests are tested in `tests/cases`.
#![tactic(auto)]

#[cfg(test)]
mod counted;
#[cfg(test)]
mod pieces;
#[cfg(test)]
mod runs;
