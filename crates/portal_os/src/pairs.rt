//! Opens a database file and its log, which make a pair.
ghost use Rattle.std.specs.Prelude.{◌≡◌, true, false, IsTrue, IfOk};
ghost use Rattle.sqlite_wal.specs.Recovery.{Image};
ghost use Rattle.sqlite_wal.specs.Files.{image_at};
ghost use Rattle.sqlite.specs.Files.{image_of};
ghost use Rattle.sqlite_std_file.specs.File.{file_is_usable, IsFresh};
ghost use Rattle.portal_os.specs.Copying.{LeavesImage};

use crate::finding::find_database;
use crate::opening_error::OpeningError;
use portal_commands::place::Purpose;
use sqlite::{Error, ErrorCode, FileFrom, Start};
use sqlite_disk::{Disk, Files};

/// A database file and its log, which can be opened once. The ghost names what they are assumed to hold then.
pub trait FilePair: Drop {
    /// A file on its disk.
    type File: Disk + Drop;

    /// What the two files hold when they are opened, and a crash leaves then.
    ghost image: { Image };

    /// Opens and locks the database file at a path and its log. To serve or to answer, makes them if they are
    /// missing; to ask, makes no database. They stay locked until they are released.
    fn open_files(
        self,
        host: &HostRuntime,
        path: &str,
        purpose: Purpose,
    ) -> Result<Files<Self::File>, OpeningError>
        ensures log { IfOk result (λ files. IsTrue (Self.File.is_usable files.log)) }
        ensures db { IfOk result (λ files. IsTrue (Self.File.is_usable files.db)) }
        ensures holds { IfOk result (λ files. image_of Self.File.Disk files ≡ image) }
        ensures only { IfOk result (λ files. LeavesImage Self.File.Disk image files) };
}

/// Opens and locks the database file at a path and its log, as `FilePair::open_files` does.
fn open_file_pair<S: Start>(
    host: &HostRuntime,
    path: &str,
    start: S,
    purpose: Purpose,
) -> Result<Files<FileFrom<S>>, OpeningError>
    ensures log { IfOk result (λ files. IsTrue (file_is_usable S.Start files.log)) }
    ensures db { IfOk result (λ files. IsTrue (file_is_usable S.Start files.db)) }
    ensures fresh { IfOk result (λ files. IsFresh true files.log × IsFresh false files.db) }
{
    // names that SQLite reads as no path
    if path == ":memory:" || path.starts_with("file:") {
        return Err(OpeningError::Store(Error::SqliteFailure(ErrorCode::CannotOpen)));
    }
    find_database(host, path, purpose)?;
    match sqlite_std_file::open(host, path, start) {
        Ok(files) => Ok(files),
        Err(error) => Err(OpeningError::Path(error)),
    }
}

/// An assumption about the disk stands for the two files at the path that is opened.
impl<S: Start> FilePair for S {
    type File = FileFrom<S>;

    ghost image = { image_at S.Start };

    fn open_files(
        self,
        host: &HostRuntime,
        path: &str,
        purpose: Purpose,
    ) -> Result<Files<FileFrom<S>>, OpeningError>
        ensures log { IfOk result (λ files. IsTrue (file_is_usable S.Start files.log)) }
        ensures db { IfOk result (λ files. IsTrue (file_is_usable S.Start files.db)) }
        ensures holds { IfOk result (λ files. image_of ⟦<FileFrom<S> as Disk>⟧ files ≡ image_at S.Start) }
        ensures only { IfOk result (λ files. LeavesImage ⟦<FileFrom<S> as Disk>⟧ (image_at S.Start) files) }
    {
        open_file_pair(host, path, self, purpose)
    }
}
