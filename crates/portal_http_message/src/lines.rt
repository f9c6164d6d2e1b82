//! Counts the lines of a head that is not complete yet.
ghost use Rattle.std.specs.Prelude.{◌≡◌, ◌||◌, ◌==◌, ◌↔◌, IsTrue, count_by};
ghost use Rattle.portal_http_message.specs.Lines.{HasTooManyLines, from_start};

use crate::limits::LINE_LIMIT;

/// Whether a byte is a carriage return or a line feed.
fn is_line_end(byte: u8) -> bool
    ensures { result ≡ (byte == 13 || byte == 10) }
{
    byte == b'\r' || byte == b'\n'
}

/// Skips the carriage returns and line feeds before the request line (RFC 9112, section 2.2).
fn skip_line_ends(bytes: &[u8]) -> &[u8]
    ensures { result.now ≡ from_start bytes.now }
{
    for at in 0..bytes.len() {
        if !is_line_end(bytes[at]) {
            let (_, rest) = bytes.split_at(at);
            return rest;
        }
    }
    let (_, rest) = bytes.split_at(bytes.len());
    rest
}

/// Counts the line feeds.
fn count_line_feeds(bytes: &[u8]) -> usize
    ensures { result ≡ count_by (λ b. b == 10) bytes.now }
{
    bytes.iter().filter(|byte| **byte == b'\n').count()
}

/// Whether so many lines have ended that the head has more than `FIELD_LIMIT` fields.
pub fn has_too_many_lines(bytes: &[u8]) -> bool
    ensures { IsTrue result ↔ HasTooManyLines bytes.now }
{
    count_line_feeds(skip_line_ends(bytes)) >= LINE_LIMIT
}
