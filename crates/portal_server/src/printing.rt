//! Texts that are printed.
ghost use Rattle.std.specs.Prelude.{◌≡◌, MatchResult};
ghost use Rattle.std.specs.Io.KnownBytes.{Appends};
ghost use Rattle.portal_server.specs.Streams.{IsCutOff, Prints};

use crate::error::ProgramError;
use portal_http_message::write_response;
use std::io::Write;

/// Prints a text. Error: `Cut`, if not all of it can be written.
pub fn print_text<W: Write>(text: &[u8], writer: &mut W) -> Result<(), ProgramError>
    ensures { MatchResult result
        (λ _. Appends (W.contents writer.old) (W.contents writer.new) text.now)
        (λ error. (error ≡ ProgramError.Cut)
        × IsCutOff (W.contents writer.old) (W.contents writer.new) text.now) }
{
    write_response(writer, text).map_err(|_| ProgramError::Cut)
}

/// Prints a text as far as it can be written, and ignores a failed write.
pub fn print_best_effort<W: Write>(text: &[u8], writer: &mut W)
    ensures { Prints (W.contents writer.old) (W.contents writer.new) text.now }
{
    let _cut = print_text(text, writer);
}
