//! Why a database file was not opened.
ghost use Rattle.std.specs.Prelude.{◌≡◌};
ghost use Rattle.portal_os.specs.Errors.{program_error_of};

use crate::errors::{error_of_path, error_of_store};
use portal_server::ProgramError;
use sqlite::{Error, ErrorCode};
use sqlite_std_file::OpenError;
use std::{fmt, io};

/// Why a database file was not opened.
#[derive(Clone, Copy, Debug)]
pub enum OpeningError {
    /// The file and its log could not be opened or locked.
    Path(OpenError),
    /// The database in them could not be opened.
    Store(Error),
    /// The file is empty or missing, but its log holds commits.
    Lost,
    /// There is no database, and none is made.
    NoDatabase,
}

impl OpeningError {
    /// Converts an error of the operating system.
    pub fn of_io(error: io::Error) -> OpeningError {
        OpeningError::Path(OpenError::Io(error))
    }

    /// Converts an error of reading the log.
    pub fn of_log(error: sqlite_wal::Error) -> OpeningError {
        match error {
            sqlite_wal::Error::Io(error) => OpeningError::of_io(error),
            sqlite_wal::Error::OutOfMemory => OpeningError::Path(OpenError::OutOfMemory),
            sqlite_wal::Error::Full => OpeningError::Store(Error::SqliteFailure(
                ErrorCode::DiskFull,
            )),
            _ => OpeningError::Store(Error::SqliteFailure(ErrorCode::NotADatabase)),
        }
    }

    /// Converts it into the program's error: `no_memory` if out of memory, else `file`.
    pub fn program_error(&self) -> ProgramError
        ensures { result ≡ program_error_of self.now }
    {
        match self {
            OpeningError::Path(error) => error_of_path(error),
            OpeningError::Store(error) => error_of_store(error),
            OpeningError::Lost => ProgramError::File,
            OpeningError::NoDatabase => ProgramError::File,
        }
    }
}

impl fmt::Display for OpeningError {
    fn fmt<W: fmt::Write>(&self, f: &mut fmt::Formatter<W>) -> fmt::Result {
        match self {
            OpeningError::Path(error) => write!(f, "{error}"),
            OpeningError::Store(error) => write!(f, "{error}"),
            OpeningError::Lost => f.write_str(
                "the database is empty or missing, and its log holds commits",
            ),
            OpeningError::NoDatabase => f.write_str(
                "there is no database here: only serve and answer create one",
            ),
        }
    }
}
