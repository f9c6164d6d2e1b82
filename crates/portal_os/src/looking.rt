//! Inspects a database file and its log before they are opened. Nothing is written.
ghost use Rattle.std.specs.Prelude.{◌≡◌, ◌↔◌, false, length, IsTrue, IfOk, OnOk};
ghost use Rattle.sqlite_wal.specs.Reads.{AreClean, IsClean, OnlyReads};
ghost use Rattle.sqlite.specs.Files.{image_of};
ghost use Rattle.sqlite_wal.specs.PageSize.{bytes_of};
ghost use Rattle.portal_os.specs.Opening.{AreCommitted, HoldsCommits, IsFoundFor, IsFoundNew};

use crate::opening_error::OpeningError;
use portal_commands::place::Purpose;
use sqlite_disk::{Disk, Files};
use sqlite_wal::{Error, PageSize, probe_frames, probe_page_size};
use std::alloc::Global;
use std::io;

/// Checks whether a file is empty.
fn is_empty<D: Disk>(file: &mut D) -> io::Result<bool>
    requires { IsTrue (D.Disk.is_usable file.old) }
    ensures value { IfOk result (λ empty.
        IsClean D.Disk file.new → (IsTrue empty ↔ (length (D.Disk.seen file.old) ≡ 0))) }
    ensures same { OnlyReads D.Disk file.old file.new }
{
    let len = file.len()?;
    Ok(len == 0)
}

/// Checks whether a log has frames that recovery would take, for pages of this size.
fn has_valid_frames<D: Disk>(alloc: Global, log: &mut D, size: PageSize) -> Result<bool, Error>
    requires { IsTrue (D.Disk.is_usable log.old) }
    ensures value { IfOk result (λ takes.
        IsClean D.Disk log.new → AreCommitted (bytes_of size) (D.Disk.seen log.old) → IsTrue takes) }
    ensures same { OnlyReads D.Disk log.old log.new }
{
    let frames = probe_frames(alloc, log, size)?;
    Ok(!frames.is_empty())
}

/// Checks whether the log of a database file holds commits.
fn holds_commits<D: Disk>(alloc: Global, files: &mut Files<D>) -> Result<bool, Error>
    requires log { IsTrue (D.Disk.is_usable files.old.log) }
    requires db { IsTrue (D.Disk.is_usable files.old.db) }
    ensures value { IfOk result (λ holds.
        AreClean D.Disk files.new.log files.new.db
        → HoldsCommits (D.Disk.seen files.old.log) → IsTrue holds) }
    ensures log { OnlyReads D.Disk files.old.log files.new.log }
    ensures db { OnlyReads D.Disk files.old.db files.new.db }
{
    match probe_page_size(files) {
        Ok(found) => match found {
            Some(size) => has_valid_frames(alloc, &mut files.log, size),
            None => Ok(false),
        },
        Err(error) => Err(Error::Io(error)),
    }
}

/// Checks whether the database has yet to be made: its file is empty. Error: `Lost`, if the file is empty but
/// its log holds commits.
fn is_database_new<D: Disk>(alloc: Global, files: &mut Files<D>) -> Result<bool, OpeningError>
    requires log { IsTrue (D.Disk.is_usable files.old.log) }
    requires db { IsTrue (D.Disk.is_usable files.old.db) }
    ensures found { IfOk result (λ is_new.
        AreClean D.Disk files.new.log files.new.db → IsFoundNew (image_of D.Disk files.old) is_new) }
    ensures log { OnlyReads D.Disk files.old.log files.new.log }
    ensures db { OnlyReads D.Disk files.old.db files.new.db }
{
    match is_empty(&mut files.db) {
        Ok(false) => Ok(false),
        Ok(true) => match holds_commits(alloc, files) {
            Ok(false) => Ok(true),
            Ok(true) => Err(OpeningError::Lost),
            Err(error) => Err(OpeningError::of_log(error)),
        },
        Err(error) => Err(OpeningError::of_io(error)),
    }
}

/// Checks that a database may be opened for a purpose. Errors: `Lost`, if its file is empty but its log holds
/// commits; `NoDatabase`, to ask of a database that has yet to be made.
pub fn check_database<D: Disk>(
    alloc: Global,
    files: &mut Files<D>,
    purpose: Purpose,
) -> Result<(), OpeningError>
    requires log { IsTrue (D.Disk.is_usable files.old.log) }
    requires db { IsTrue (D.Disk.is_usable files.old.db) }
    ensures found { OnOk result (
        AreClean D.Disk files.new.log files.new.db → IsFoundFor (image_of D.Disk files.old) purpose) }
    ensures log { OnlyReads D.Disk files.old.log files.new.log }
    ensures db { OnlyReads D.Disk files.old.db files.new.db }
{
    match is_database_new(alloc, files) {
        Ok(is_new) => check_made(is_new, purpose),
        Err(error) => Err(error),
    }
}

/// Checks that a database was made before one is asked.
fn check_made(is_new: bool, purpose: Purpose) -> Result<(), OpeningError>
    ensures { OnOk result (purpose ≡ Purpose.Ask → is_new ≡ false) }
{
    match purpose {
        Purpose::Ask => {
            if is_new {
                Err(OpeningError::NoDatabase)
            } else {
                Ok(())
            }
        }
        Purpose::Serve | Purpose::Answer => Ok(()),
    }
}
