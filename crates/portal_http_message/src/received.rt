//! The bytes that were received of a request, one read after another.
ghost use Rattle.std.specs.Prelude.{◌≡◌};
ghost use Rattle.std.specs.Bool.{MatchBool};
ghost use Rattle.portal_http_message.specs.Decided.{IsDecided, IsIncomplete};
ghost use Rattle.portal_http_message.specs.Message.{ParsesTo};
ghost use Rattle.portal_http_message.specs.Steps.{Receives};

use crate::decided::is_decided_by_finding;
use crate::errors::HeadError;
use crate::head::{Finding, ParsedRequest, parse_head, request_of_finding, update_finding};
use crate::limits::PIECE_LIMIT;
use std::io::Read;
use std::marker::Model;

/// Why a request was not read.
#[derive(Clone, Copy, Debug, PartialEq, Eq)]
pub enum ReadError {
    /// A read failed.
    Read,
    /// Out of memory for the bytes that were read.
    NoMemory,
}

/// The bytes that were received, how many of them the last read gave, and the head that was found in them.
/// Only `receive` adds to the bytes.
#[derive(Drop)]
pub struct Received {
    bytes: Vec<u8>,
    last: usize,
    found: Finding,
}

impl Model for Received {
    ghost use Rattle.portal_http_message.specs.Received.{Incoming};
    ghost use Rattle.portal_http_message.specs.Steps.{IsFinding};

    ghost Value = { Incoming };

    ghost view = { λ received. record { bytes = received.bytes.items; last = received.last } };

    ghost invariant = { λ received. IsFinding received.bytes.items received.found };
}

impl Received {
    /// Takes bytes that did not come from a read, and parses their head.
    pub fn new(bytes: Vec<u8>) -> Received
        ensures { result ≡ record { bytes = bytes.items; last = 0 } }
    {
        let found = parse_head(bytes.as_slice());
        Received {
            bytes,
            last: 0,
            found,
        }
    }

    /// Calls `read` once, adds the bytes, and returns how many they are: 0 at the end of the input.
    ///
    /// The read asks for at most `PIECE_LIMIT` bytes. No other function reads from the connection. Errors:
    /// `Read` if the read fails; `NoMemory` if there is no memory for the bytes.
    pub(crate) fn receive<R: Read>(&mut self, reader: &mut R) -> Result<usize, ReadError>
        ensures { Receives (R.remaining reader.old) (R.remaining reader.new) self.old self.new result }
    {
        let mut buffer = [0u8; PIECE_LIMIT];
        let Ok(count) = reader.read(&mut buffer) else {
            return Err(ReadError::Read);
        };
        if count == 0 {
            self.last = 0;
            return Ok(0);
        }
        let (piece, _) = buffer.split_at(count);
        let Ok(()) = self.bytes.extend_from_slice(piece) else {
            return Err(ReadError::NoMemory);
        };
        self.last = count;
        self.found = update_finding(self.found, self.bytes.as_slice());
        Ok(count)
    }

    /// Whether the bytes decide the response, as `is_decided` of this crate says.
    pub fn is_decided(&self) -> bool
        ensures { MatchBool result (IsDecided self.now.bytes) (IsIncomplete self.now.bytes) }
    {
        is_decided_by_finding(&self.found, self.bytes.as_slice())
    }

    /// Parses the request, as `parse_request` does, with the head that was found already.
    ///
    /// Errors: those of `parse_request`.
    pub fn request(&self) -> Result<ParsedRequest<'_>, HeadError>
        ensures { ParsesTo self.now.bytes result }
    {
        request_of_finding(&self.found, self.bytes.as_slice())
    }

    /// Returns the bytes that were received.
    pub fn bytes(&self) -> &[u8]
        ensures { result.now ≡ self.now.bytes }
    {
        self.bytes.as_slice()
    }

    /// Returns how many bytes the last read gave.
    pub fn last(&self) -> usize
        ensures { result ≡ self.now.last }
    {
        self.last
    }
}
