//! The limits of a request.

/// The greatest length of a head in bytes, with the empty line at its end.
pub const HEAD_LIMIT: usize = 8192;

/// The greatest number of fields in a head.
pub const FIELD_LIMIT: usize = 32;

/// The greatest length of a body in bytes.
pub const BODY_LIMIT: usize = 65_536;

/// A number of lines that only a head with more than `FIELD_LIMIT` fields reaches: the request line, and
/// one field more than the limit.
pub const LINE_LIMIT: usize = FIELD_LIMIT + 2;

/// The greatest number of bytes that one read asks for.
pub const PIECE_LIMIT: usize = 4096;
