//! Checks requests before the desk is called (RFC 9110, RFC 9112): the operation that a request asks of the
//! desk, or the rejection.
#![tactic(auto)]

mod bodies;
mod callers;
mod checks;
mod codes;
mod issue;
mod laws;
mod operation;
mod queries;
mod rejection;
mod routed;
mod routes;

pub use checks::check_request;
pub use laws::checks_are_exact;
pub use operation::Operation;
pub use rejection::Rejection;
