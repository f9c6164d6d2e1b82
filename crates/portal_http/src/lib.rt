//! The server over HTTP: the bytes of requests in, the bytes of responses out (RFC 8908, RFC 9110, RFC
//! 9112).
#![tactic(auto)]

mod arrivals;
pub mod exchanges;
mod executions;
mod reply;
mod responses;
mod runs;
mod serving;
mod spares;

pub use arrivals::Arrival;
pub use exchanges::{Cause, Cut, Done, exchange, status_in, status_is_in_response};
pub use executions::{
    acknowledged_is_unique, response_is_unique, retry_is_safe, sessions_are_kept, sessions_follow,
};
pub use runs::run;
pub use spares::Spare;
