//! Whether a database file holds its database alone, so that its log has nothing to copy.
ghost use Rattle.std.specs.Prelude.{◌≡◌, ℕ, List, false, slice_index, IsTrue, IfOk, OnOk};
ghost use Rattle.sqlite_disk.specs.Disk.{Only};
ghost use Rattle.sqlite_wal.specs.Reads.{AreClean, IsClean, OnlyReads};
ghost use Rattle.sqlite.specs.Files.{image_of};
ghost use Rattle.portal_os.specs.Copying.{LeavesNoMore};
ghost use Rattle.portal_os.specs.Opening.{IsAlone, IsSettledAlone};

use crate::opening_error::OpeningError;
use sqlite_disk::{Disk, Files};
use sqlite_wal::probe_page_size;
use std::io;

/// The length of a log with one frame that has no page: a shorter one holds no commits.
pub const LOG_WITH_FRAME: usize = 56;

/// Checks whether a file begins with the first byte of a database.
fn begins_database<D: Disk>(db: &mut D) -> io::Result<bool>
    requires { IsTrue (D.Disk.is_usable db.old) }
    ensures value { IfOk result (λ begins.
        IsClean D.Disk db.new → IsTrue begins → slice_index (D.Disk.seen db.old) 0 ≡ 83) }
    ensures same { OnlyReads D.Disk db.old db.new }
{
    let mut first = [0u8; 1];
    db.read_at(0, &mut first)?;
    Ok(first[0] == b'S')
}

/// Checks whether a database file holds its database alone: its log is too short for a commit, and the file
/// begins as a database.
fn is_alone<D: Disk>(files: &mut Files<D>) -> io::Result<bool>
    requires log { IsTrue (D.Disk.is_usable files.old.log) }
    requires db { IsTrue (D.Disk.is_usable files.old.db) }
    ensures value { IfOk result (λ alone.
        AreClean D.Disk files.new.log files.new.db → IsTrue alone → IsAlone (image_of D.Disk files.old)) }
    ensures log { OnlyReads D.Disk files.old.log files.new.log }
    ensures db { OnlyReads D.Disk files.old.db files.new.db }
{
    if files.log.len()? >= LOG_WITH_FRAME {
        return Ok(false);
    }
    match probe_page_size(files)? {
        Some(_) => begins_database(&mut files.db),
        None => Ok(false),
    }
}

/// Syncs a file, so that a crash leaves what is read of it. If that fails, a crash leaves nothing that it did
/// not leave before.
fn settle<D: Disk>(file: &mut D) -> Result<(), OpeningError>
    requires { IsTrue (D.Disk.is_usable file.old) }
    ensures same { OnOk result (OnlyReads D.Disk file.old file.new) }
    ensures only { OnOk result (Only (D.Disk.seen file.old) (D.Disk.may_leave file.new)) }
    ensures seen { D.Disk.seen file.new ≡ D.Disk.seen file.old }
    ensures crash { (left : List ℕ) → D.Disk.may_leave file.new left → D.Disk.may_leave file.old left }
{
    file.sync().map_err(OpeningError::of_io)
}

/// Checks whether the log of a database file is to be copied: if `copies` is true, and the file does not hold
/// its database alone. If it does, both files are synced, so that a crash leaves it so. Also after an error a
/// crash leaves nothing of the files that it did not leave before.
pub fn needs_copy<D: Disk>(files: &mut Files<D>, copies: bool) -> Result<bool, OpeningError>
    requires log { IsTrue (D.Disk.is_usable files.old.log) }
    requires db { IsTrue (D.Disk.is_usable files.old.db) }
    ensures value { IfOk result (λ needs.
        AreClean D.Disk files.new.log files.new.db
        → IsTrue copies → needs ≡ false → IsSettledAlone D.Disk files.new) }
    ensures log { OnOk result (OnlyReads D.Disk files.old.log files.new.log) }
    ensures db { OnOk result (OnlyReads D.Disk files.old.db files.new.db) }
    ensures seen { image_of D.Disk files.new ≡ image_of D.Disk files.old }
    ensures crash { LeavesNoMore D.Disk files.old files.new }
{
    if !copies {
        return Ok(false);
    }
    match is_alone(files) {
        Ok(true) => {
            settle(&mut files.log)?;
            settle(&mut files.db)?;
            Ok(false)
        }
        Ok(false) => Ok(true),
        Err(error) => Err(OpeningError::of_io(error)),
    }
}
