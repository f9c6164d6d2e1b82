//! The end of a subcommand: its output or its error is printed, and the exit code follows.
ghost use Rattle.portal_server.specs.Ends.{EndsPrinting, EndsWith};
ghost use Rattle.portal_server.specs.Streams.{outlets};

use crate::error::ProgramError;
use crate::printing::print_text;
use std::io::Write;

/// The output of a subcommand that was carried out.
#[derive(Debug, Drop)]
pub enum Output {
    /// A text, printed as it is.
    Text(Vec<u8>),
    /// The counters of the database agree with its rows: `ok`.
    Agrees,
    /// The counters of the database do not agree with its rows: `differs`.
    Differs,
}

/// Prints a text on `output` and returns the exit code `good`. If not all of it can be written, prints the
/// line `portal: cut` on `errors` and returns 3.
pub fn print_for_exit_code<W: Write, E: Write>(
    text: &[u8],
    good: u8,
    output: &mut W,
    errors: &mut E,
) -> u8
    ensures { EndsPrinting text.now good
        (outlets W.Write E.Write output.old output.new errors.old errors.new) result }
{
    match print_text(text, output) {
        Ok(()) => good,
        Err(cut) => cut.report(errors),
    }
}

/// Prints the output of a subcommand on `output`, or the line of its error on `errors`, and returns the exit
/// code: 0 for a text and for counters that agree, 1 for counters that differ, and after an error the exit
/// code of the error.
pub fn print_result<W: Write, E: Write>(
    outcome: &Result<Output, ProgramError>,
    output: &mut W,
    errors: &mut E,
) -> u8
    ensures { EndsWith outcome.now
        (outlets W.Write E.Write output.old output.new errors.old errors.new) result }
{
    match outcome {
        Ok(Output::Text(text)) => print_for_exit_code(text.as_slice(), 0, output, errors),
        Ok(Output::Agrees) => print_for_exit_code(b"ok\n".as_slice(), 0, output, errors),
        Ok(Output::Differs) => print_for_exit_code(b"differs\n".as_slice(), 1, output, errors),
        Err(error) => error.report(errors),
    }
}
