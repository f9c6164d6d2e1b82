//! Writes a response in pieces.
ghost use Rattle.std.specs.Prelude.{◌≡◌, ◌<◌, length, take, MatchResult};
ghost use Rattle.std.specs.Io.KnownBytes.{Appends};

use std::io::Write;

/// A response was written in part: a write failed, or took no bytes.
#[derive(Clone, Copy, Debug, PartialEq, Eq)]
pub struct WriteError {
    /// The number of bytes that were written before.
    pub written: usize,
}

/// Writes all the bytes of a response. Each write is offered all the bytes that are left.
///
/// Error: a `WriteError` if a write fails, an interrupted one too, or takes no bytes.
pub fn write_response<W: Write>(writer: &mut W, bytes: &[u8]) -> Result<(), WriteError>
    ensures { MatchResult result
        (λ _. Appends (W.contents writer.old) (W.contents writer.new) bytes.now)
        (λ error. (error.written < length bytes.now)
        × Appends (W.contents writer.old) (W.contents writer.new) (take error.written bytes.now)) }
{
    let mut written = 0;
    while written < bytes.len() {
        let (_, rest) = bytes.split_at(written);
        match writer.write(rest) {
            Ok(0) | Err(_) => return Err(WriteError { written }),
            Ok(count) => written += count,
        }
    }
    Ok(())
}
