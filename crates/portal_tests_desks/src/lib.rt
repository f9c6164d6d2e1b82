//! Desks over new databases in memory, requests to them, and clients that send and take in pieces: what the
//! tests of several layers share.
#![tactic(auto)]

pub mod day;
pub mod desks;
pub mod exchanges;
pub mod requests;
