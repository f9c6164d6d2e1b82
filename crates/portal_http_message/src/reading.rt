//! Reads a request in pieces.
ghost use Rattle.std.specs.Prelude.{MatchResult};
ghost use Rattle.portal_http_message.specs.Reading.{ReadsRequestBytes, BreaksOff};

use crate::received::{ReadError, Received};
use std::alloc::Global;
use std::io::Read;

/// Reads a request in pieces, until its response is decided or the input ends.
///
/// Each read asks for at most `PIECE_LIMIT` bytes, and none follows once the response is decided. After
/// each read the head is parsed again, until it is complete; after that bytes are only counted. So at most
/// `HEAD_LIMIT` and `BODY_LIMIT` bytes and one piece are read.
///
/// Errors, after which the bytes that were read are lost: `Read` if a read fails, an interrupted one too;
/// `NoMemory` if there is no memory for the bytes.
pub fn read_request<R: Read>(alloc: Global, reader: &mut R) -> Result<Received, ReadError>
    ensures { MatchResult result (ReadsRequestBytes (R.remaining reader.old) (R.remaining reader.new))
        (BreaksOff (R.remaining reader.old) (R.remaining reader.new)) }
{
    let mut received = Received::new(Vec::new(alloc));
    loop {
        if received.receive(reader)? == 0 {
            return Ok(received);
        }
        if received.is_decided() {
            return Ok(received);
        }
    }
}
