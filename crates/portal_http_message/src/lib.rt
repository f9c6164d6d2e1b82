//! HTTP/1.1 messages (RFC 9112): parses requests and writes responses.
//!
//! `parse_request` parses a whole request, as far as a route needs it. `read_request` reads one from a
//! connection in pieces and stops once its response is decided, which `is_decided` tests. `write_response`
//! writes a response in pieces, and returns how many bytes it wrote if a write fails.
#![tactic(auto)]

mod decided;
mod errors;
mod fields;
mod head;
mod hosts;
mod laws;
mod lengths;
mod limits;
mod lines;
mod reading;
mod received;
mod responses;
mod writing;

pub use crate::decided::is_decided;
pub use crate::errors::HeadError;
pub use crate::head::{ParsedRequest, parse_request};
pub use crate::laws::{decision_is_final, one_head_at_most};
pub use crate::limits::{BODY_LIMIT, FIELD_LIMIT, HEAD_LIMIT, LINE_LIMIT, PIECE_LIMIT};
pub use crate::reading::read_request;
pub use crate::received::{ReadError, Received};
pub use crate::responses::{ContentType, response, response_is_fixed};
pub use crate::writing::{WriteError, write_response};
