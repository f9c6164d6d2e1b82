//! The errors in the syntax of a request.

/// The error in the syntax of a request.
#[derive(Clone, Copy, Debug, PartialEq, Eq)]
pub enum HeadError {
    /// There is no complete head, Host is wrong, Content-Length is not a number, or the body is cut off.
    BadRequest,
    /// The declared body is longer than `BODY_LIMIT` bytes.
    TooLarge,
    /// The body has a transfer coding.
    NotSupported,
}
