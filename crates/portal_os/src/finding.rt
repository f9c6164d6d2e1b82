//! Finds the database at a path before its files are opened, since an opening makes those that are missing.
//! Nothing is made, written or locked.
ghost use Rattle.std.specs.Prelude.{◌≡◌, OnErr};

use crate::looking::check_database;
use crate::opening_error::OpeningError;
use portal_commands::place::Purpose;
use sqlite_disk::{Disk, Files, Memory};
use sqlite_std_file::OpenError;
use std::alloc::Global;
use std::fs;
use std::io::ErrorKind;

/// Checks that the files at a path may be opened for a purpose, by their names and lengths alone. Errors, to
/// ask: `NoDatabase`, if there is no file, or an empty one without a log; `Lost`, if there is no file, but
/// its log holds commits. Whatever else is there is judged once it is locked.
pub fn find_database(host: &HostRuntime, path: &str, purpose: Purpose) -> Result<(), OpeningError>
    ensures { OnErr result (purpose ≡ Purpose.Ask) }
{
    match purpose {
        Purpose::Ask => find_file(host, path),
        Purpose::Serve | Purpose::Answer => Ok(()),
    }
}

/// Checks that there is a file at a path, and that it is not empty without a log.
fn find_file(host: &HostRuntime, path: &str) -> Result<(), OpeningError> {
    match fs::canonicalize(host, path) {
        Ok(real) => {
            let found = fs::metadata(host, real.as_str()).map_err(OpeningError::of_io)?;
            if found.is_file() && found.len() == 0 {
                find_log(host, real.as_str())
            } else {
                Ok(())
            }
        }
        Err(error) if error.kind() == ErrorKind::NotFound => refuse_missing(host, path),
        Err(error) => Err(OpeningError::of_io(error)),
    }
}

/// Checks that the empty file at a path has a log.
fn find_log(host: &HostRuntime, path: &str) -> Result<(), OpeningError> {
    let log = log_path(host.alloc(), path)?;
    match fs::symlink_metadata(host, log.as_str()) {
        Ok(_) => Ok(()),
        Err(error) if error.kind() == ErrorKind::NotFound => Err(OpeningError::NoDatabase),
        Err(error) => Err(OpeningError::of_io(error)),
    }
}

/// Refuses a path without a file: `Lost`, if its log holds commits, else `NoDatabase`.
fn refuse_missing(host: &HostRuntime, path: &str) -> Result<(), OpeningError> {
    let log = log_path(host.alloc(), path)?;
    match fs::symlink_metadata(host, log.as_str()) {
        Ok(found) if found.is_file() => {
            let bytes = fs::read(host, log.as_str()).map_err(OpeningError::of_io)?;
            refuse_without_file(host.alloc(), bytes.as_slice())
        }
        _ => Err(OpeningError::NoDatabase),
    }
}

/// Refuses an empty database with this log, as if both were opened.
fn refuse_without_file(alloc: Global, log: &[u8]) -> Result<(), OpeningError> {
    let mut files = Files {
        log: Memory::new(alloc),
        db: Memory::new(alloc),
    };
    files.log.write_at(0, log).map_err(OpeningError::of_io)?;
    check_database(alloc, &mut files, Purpose::Ask)
}

/// Makes the path of the log of the database file at a path.
fn log_path(alloc: Global, path: &str) -> Result<String, OpeningError> {
    match format!(in alloc; "{path}-wal") {
        Ok(log) => Ok(log),
        Err(_) => Err(OpeningError::Path(OpenError::OutOfMemory)),
    }
}
