//! What the server needs of the machine on which it runs.
ghost use Rattle.std.specs.Prelude.{ℕ, List, Option, Result, IfErr};
ghost use Rattle.portal_server.specs.declared.error.ProgramError.{ProgramError as Failure};
ghost use Rattle.portal_server.specs.Serving.{IsHostError};

use crate::error::ProgramError;
use portal_model::moment::Moment;
use std::io::{Read, Write};

/// The connections of peers, the clock, a source of seeds, and a pause. The ghosts name what they returned,
/// with the host before and after the call; no contract says more about a host.
pub trait Host {
    /// The bytes that a peer sends.
    type Reader: Read + Drop;

    /// The bytes that are sent to a peer.
    type Writer: Write + Drop;

    /// A connection was accepted, with its reader and its writer, or accepting failed.
    ghost accepts: { Self → Option (Self.Reader × Self.Writer) → Self → Type 0 };

    /// The clock gave a time and a seed was drawn, or one of them failed.
    ghost stamps: { Self → Result (ℕ × List ℕ) Failure → Self → Type 0 };

    /// A connection was closed.
    ghost closes: { Self → Self.Reader → Self.Writer → Self → Type 0 };

    /// A second was waited.
    ghost pauses: { Self → Self → Type 0 };

    /// Waits for the next connection. `None` if accepting failed: no connection was accepted, or one was
    /// accepted and closed again without a reader and a writer.
    fn accept(&mut self) -> Option<(Self::Reader, Self::Writer)>
        ensures { accepts self.old result self.new };

    /// Reads the clock and draws a fresh seed. Errors: `File`; `NoMemory`.
    fn moment_and_seed(&mut self) -> Result<(Moment, [u8; 32]), ProgramError>
        ensures why { IfErr result IsHostError }
        ensures stamp { stamps self.old result self.new };

    /// Closes a client's connection, whose one exchange is over.
    fn close(&mut self, reader: Self::Reader, writer: Self::Writer)
        ensures { closes self.old reader writer self.new };

    /// Waits a second.
    fn pause(&mut self)
        ensures { pauses self.old self.new };
}
