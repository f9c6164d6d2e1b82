//! The errors of the program, with their words and exit codes.
//!
//! Exit code 0: done. 1: the desk refused the command, or the counters of the database differ from its rows.
//! 2: the command line is invalid. 3: an error of a file, the clock, the network or the output, out of memory
//! outside of the desk, or a desk that has stopped.
ghost use Rattle.std.specs.Prelude.{◌≡◌};
ghost use Rattle.portal_server.specs.declared.error.ProgramError.TheVariants.{NoMemory};
ghost use Rattle.portal_server.specs.Errors.{line_of, line_with, exit_code_of, error_word_of};
ghost use Rattle.portal_server.specs.Streams.{Prints};

use crate::printing::print_text;
use portal_model::refusal::Refusal;
use std::alloc::AllocError;
use std::io::Write;

/// Why the program did not do what it was asked to do.
#[derive(Clone, Copy, Debug, PartialEq, Eq)]
pub enum ProgramError {
    /// A value on the command line is out of its range.
    Usage,
    /// The settings file is invalid.
    Settings,
    /// The database holds tables of another program with the names of ours.
    NotOurs,
    /// A later version of the program wrote the database.
    Newer,
    /// A file cannot be read or opened, or the disk, the clock or the random numbers of the machine failed.
    File,
    /// The port cannot be bound, or a connection cannot be accepted.
    Network,
    /// The input or the output broke off.
    Cut,
    /// Out of memory in the program, outside of a command of the desk.
    NoMemory,
    /// The desk refused the command.
    Refused(Refusal),
}

impl ProgramError {
    /// Returns the word of the error, which is printed after `portal: `. That of a refusal is the refusal's
    /// own word.
    pub fn word(self) -> &'static str
        ensures { result.now ≡ error_word_of self }
    {
        match self {
            ProgramError::Usage => "usage",
            ProgramError::Settings => "settings",
            ProgramError::NotOurs => "not_ours",
            ProgramError::Newer => "newer",
            ProgramError::File => "file",
            ProgramError::Network => "network",
            ProgramError::Cut => "cut",
            ProgramError::NoMemory => "no_memory",
            ProgramError::Refused(refusal) => refusal.word(),
        }
    }

    /// Returns the exit code of the error: 2 for `Usage`; 1 for a refusal, also for `no_memory` of the desk;
    /// 3 for each other error and for a desk that has stopped.
    pub fn exit_code(self) -> u8
        ensures { result ≡ exit_code_of self }
    {
        match self {
            ProgramError::Usage => 2,
            ProgramError::Refused(Refusal::Stopped) => 3,
            ProgramError::Refused(_) => 1,
            _ => 3,
        }
    }

    /// Prints the line of the error, `portal: ` and its word, as far as it can be written, and returns the
    /// exit code.
    pub fn report<E: Write>(self, errors: &mut E) -> u8
        ensures status { result ≡ exit_code_of self }
        ensures prints { Prints (E.contents errors.old) (E.contents errors.new) (line_of self) }
    {
        let _cut = print_error_line(errors, self.word());
        self.exit_code()
    }
}

impl From<AllocError> for ProgramError {
    ghost from_gives = { λ _ error. error ≡ NoMemory };

    fn from(_error: AllocError) -> ProgramError {
        ProgramError::NoMemory
    }
}

/// Prints `portal: `, a word and a line feed, as far as they can be written. Error: `Cut`, if a part cannot
/// be written.
fn print_error_line<E: Write>(errors: &mut E, word: &str) -> Result<(), ProgramError>
    ensures { Prints (E.contents errors.old) (E.contents errors.new) (line_with word.now) }
{
    print_text(b"portal: ".as_slice(), errors)?;
    print_text(word.as_bytes(), errors)?;
    print_text(b"\n".as_slice(), errors)
}
