//! Why the program did not do what it was asked to do, and what is printed about it.
ghost use Rattle.std.specs.Prelude.{◌≡◌, None, IsTrue, IfOk, IfSome, MatchOption, string_bytes};
ghost use Rattle.std.specs.Io.KnownBytes.{Keeps};
ghost use Rattle.portal_server.specs.declared.error.ProgramError.TheVariants.{File, Settings};
ghost use Rattle.portal_server.specs.Errors.{exit_code_of};
ghost use Rattle.portal_server.specs.Streams.{Prints};
ghost use Rattle.portal_files.specs.SettingsFault.{IsSettingsFault};
ghost use Rattle.portal_files.specs.declared.settings_fault.SettingsFault.{SettingsFault as Fault};
ghost use Rattle.portal_commands.specs.Causes.{port_text, settings_text};
ghost use Rattle.portal_commands.specs.Troubles.{
  second_line,
  IsOneLine,
  NamesPath,
  TellsFault,
  IsUnbound,
  IsOutOfRange,
  Reports,
};

use crate::causes::{UsageFault, port_text, settings_text};
use portal_files::find_settings_fault;
use portal_server::{ProgramError, print_best_effort};
use std::alloc::{AllocError, Global};
use std::io::Write;

/// Why the program did not do what it was asked to do.
#[derive(Debug, Drop)]
pub struct Trouble {
    /// The error.
    pub error: ProgramError,
    /// The line that is printed after that of the error: two spaces, what it is about, and the cause. None if
    /// the cause is not known, or if there is no memory for the line.
    pub line: Option<String>,
}

impl Trouble {
    /// Makes a trouble without a second line.
    pub fn plain(error: ProgramError) -> Trouble
        ensures error { result.error ≡ error }
        ensures line { result.line ≡ None }
    {
        Trouble { error, line: None }
    }

    /// Makes the trouble `file`, with the system's message about the file at a path. The second line is left
    /// out if the path or the message has a line feed.
    pub fn of_file(alloc: Global, path: &str, text: &str) -> Trouble
        ensures error { result.error ≡ File }
        ensures at { NamesPath path.now result }
    {
        Trouble {
            error: ProgramError::File,
            line: line_about(alloc, path, text),
        }
    }

    /// Makes the trouble `settings` of a settings file at a path, whose bytes were refused. The second line
    /// says what is wrong with them, in words that have no value of the file. It is left out if the path has
    /// a line feed.
    pub fn of_settings(alloc: Global, path: &str, bytes: &[u8]) -> Trouble
        ensures error { result.error ≡ Settings }
        ensures at { TellsFault path.now bytes.now result }
    {
        Trouble {
            error: ProgramError::Settings,
            line: settings_line(alloc, path, bytes),
        }
    }

    /// Makes the trouble `network`, with the system's message about a port that cannot be bound. The second
    /// line is left out if the message has a line feed.
    pub fn of_port(alloc: Global, port: u16, text: &str) -> Trouble
        ensures { IsUnbound port result }
    {
        Trouble {
            error: ProgramError::Network,
            line: port_line(alloc, port, text),
        }
    }

    /// Makes the trouble `usage`, with the option whose value is out of its range, and the range.
    pub fn of_usage(alloc: Global, fault: UsageFault) -> Trouble
        ensures { IsOutOfRange fault result }
    {
        Trouble {
            error: ProgramError::Usage,
            line: second_line(alloc, fault.option(), fault.range()).ok(),
        }
    }

    /// Prints the line of the error, and the second line if there is one, as far as they can be written, and
    /// returns the exit code.
    pub fn report<E: Write>(self, errors: &mut E) -> u8
        ensures status { result ≡ exit_code_of self.error }
        ensures prints { Reports self (E.contents errors.old) (E.contents errors.new) }
    {
        let status = self.error.report(errors);
        print_second_line(&self.line, errors);
        status
    }
}

/// Checks that a text has no line feed.
fn is_one_line(text: &str) -> bool
    ensures { IsTrue result → IsOneLine text.now }
{
    text.as_bytes().iter().all(|&byte| byte != 10)
}

/// Makes the line that is printed after that of an error: two spaces, what it is about, and the cause.
fn second_line(alloc: Global, subject: &str, text: &str) -> Result<String, AllocError>
    ensures { IfOk result (λ line. string_bytes line ≡ second_line subject.now text.now) }
{
    format!(in alloc; "  {subject}: {text}\n")
}

/// Makes the second line about a subject, unless the subject or the cause has a line feed. None also if out
/// of memory.
fn line_about(alloc: Global, subject: &str, text: &str) -> Option<String>
    ensures { IfSome result (λ line. IsOneLine subject.now × IsOneLine text.now
        × (string_bytes line ≡ second_line subject.now text.now)) }
{
    if !is_one_line(subject) || !is_one_line(text) {
        return None;
    }
    second_line(alloc, subject, text).ok()
}

/// Makes the second line about a settings file whose bytes were refused, unless the path has a line feed.
/// None also if out of memory.
fn settings_line(alloc: Global, path: &str, bytes: &[u8]) -> Option<String>
    ensures { IfSome result (λ line. (fault : Fault) × IsSettingsFault bytes.now fault
        × IsOneLine path.now × (string_bytes line ≡ second_line path.now (settings_text fault))) }
{
    if !is_one_line(path) {
        return None;
    }
    let fault = find_settings_fault(alloc, bytes).ok()??;
    let text = settings_text(alloc, fault).ok()?;
    second_line(alloc, path, text.as_str()).ok()
}

/// Makes the second line about a port, unless the cause has a line feed. None also if out of memory.
fn port_line(alloc: Global, port: u16, text: &str) -> Option<String>
    ensures { IfSome result (λ line. IsOneLine text.now
        × (string_bytes line ≡ second_line (port_text port) text.now)) }
{
    if !is_one_line(text) {
        return None;
    }
    let subject = port_text(alloc, port).ok()?;
    second_line(alloc, subject.as_str(), text).ok()
}

/// Prints the second line, if there is one, as far as it can be written.
fn print_second_line<E: Write>(line: &Option<String>, errors: &mut E)
    ensures { MatchOption line.now (Keeps (E.contents errors.old) (E.contents errors.new))
        (λ line. Prints (E.contents errors.old) (E.contents errors.new) (string_bytes line)) }
{
    match line {
        Some(line) => print_best_effort(line.as_bytes(), errors),
        None => {}
    }
}
