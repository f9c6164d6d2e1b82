//! The program's error for each error of a file or of a database.
ghost use Rattle.std.specs.Prelude.{◌≡◌};
ghost use Rattle.portal_os.specs.Errors.{error_of_file, error_of_open, error_of_path, error_of_store};

use portal_server::ProgramError;
use portal_tables::errors::OpenFault;
use sqlite::{Error, ErrorCode};
use sqlite_std_file::OpenError;
use std::io::ErrorKind;

/// Converts the error of a file that could not be read: `no_memory` if out of memory, else `file`.
pub fn error_of_file(kind: ErrorKind) -> ProgramError
    ensures { result ≡ error_of_file kind }
{
    match kind {
        ErrorKind::OutOfMemory => ProgramError::NoMemory,
        _ => ProgramError::File,
    }
}

/// Converts the error of a database file that could not be opened: `no_memory` if out of memory, else `file`,
/// also if another process has locked it.
pub fn error_of_store(error: &Error) -> ProgramError
    ensures { result ≡ error_of_store error.now }
{
    match error {
        Error::SqliteFailure(ErrorCode::OutOfMemory) => ProgramError::NoMemory,
        _ => ProgramError::File,
    }
}

/// Converts the error of a database file and its log that could not be opened or locked: `no_memory` if out
/// of memory, else `file`.
pub fn error_of_path(error: &OpenError) -> ProgramError
    ensures { result ≡ error_of_path error.now }
{
    match error {
        OpenError::OutOfMemory => ProgramError::NoMemory,
        OpenError::Io(error) => error_of_file(error.kind()),
        _ => ProgramError::File,
    }
}

/// Converts the error of a database that could not be attached: `not_ours`, `newer`, `no_memory` or `file`.
pub fn error_of_open(fault: OpenFault) -> ProgramError
    ensures { result ≡ error_of_open fault }
{
    match fault {
        OpenFault::NotOurs => ProgramError::NotOurs,
        OpenFault::Newer => ProgramError::Newer,
        OpenFault::Memory => ProgramError::NoMemory,
        OpenFault::Store => ProgramError::File,
    }
}
