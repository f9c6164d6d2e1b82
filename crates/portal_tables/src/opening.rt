//! Opens a database, and opens it again.

ghost use Rattle.std.specs.Prelude.{[], IfErr, IfOk, IfSome, IsTrue};
ghost use Rattle.sqlite_wal.specs.Files.{image_at};
ghost use Rattle.sqlite.specs.Files.{Finds, IsCleanLeft, IsOpened, image_of, file_state, over_files};
ghost use Rattle.sqlite.specs.State.{HasCleanDisk};
ghost use Rattle.sqlite.specs.Steps.{over_memory};
ghost use Rattle.portal_ledger.specs.Ledger.{Ledger};
ghost use Rattle.portal_tables.specs.Images.{FilesRepresent, ImageHoldsLedger, IsReopened, LeftoverHolds, UnopenedHolds};
ghost use Rattle.portal_tables.specs.TablesRepresent.{ConnRepresents};

use sqlite::{Connection, Error, FileFrom, FileStore, Leftover, MemStore, Options, Start};
use sqlite_disk::{Disk, Files};
use std::alloc::{AllocError, Global};

/// Opens a new, empty database in memory. The only error is out of memory.
pub fn open_in_memory(alloc: Global) -> Result<Connection<MemStore>, AllocError>
    ensures { IfOk result (λ conn. ConnRepresents over_memory conn []) }
{
    Connection::open_in_memory(alloc)
}

/// Opens a database in two files: the database file and its log.
///
/// If the files hold a ledger, as after a crash, the connection represents that ledger. Files with no
/// database yet hold the empty ledger. The connection is open and sound, and has all tables that the files
/// hold, the product's and others. If the files are not opened, their crash states still hold the ledger.
pub fn open_files<D: Disk + Drop>(
    alloc: Global,
    files: Files<D>,
    options: Options,
) -> Result<Connection<FileStore<D>>, (Error, Leftover<D>)>
    requires log { IsTrue (D.Disk.is_usable files.log) }
    requires db { IsTrue (D.Disk.is_usable files.db) }
    ensures opened { (L : Ledger) → ImageHoldsLedger (image_of D.Disk files) L
        → IfOk result (λ conn. HasCleanDisk (file_state conn) → ConnRepresents over_files conn L) }
    ensures found { IfOk result (λ conn. HasCleanDisk (file_state conn) → Finds files conn) }
    ensures live { IfOk result (λ conn. HasCleanDisk (file_state conn) → IsTrue (file_state conn).is_open) }
    ensures sound { IfOk result (λ conn. HasCleanDisk (file_state conn) → IsOpened conn) }
    ensures fails_to_open { (L : Ledger) → FilesRepresent D.Disk files L
        → IfErr result (λ e. IsCleanLeft e.1 → LeftoverHolds (image_of D.Disk files) e.1 L) }
{
    Connection::open_files(alloc, files, options)
}

/// Opens the database file at `path` and its log, and creates them if they are missing. Both are locked
/// until the connection is released.
///
/// No contract says what a file holds, or ties a path to a file: `S` gives what the two files held when
/// they were opened. If that holds a ledger, the connection represents it, and the crash states of files
/// that were locked but not opened still hold it. The error has no leftover if the files were not
/// locked, or if no random number could be drawn.
pub fn open_path<S: Start>(
    host: &HostRuntime,
    path: &str,
    start: S,
) -> Result<Connection<FileStore<FileFrom<S>>>, (Error, Option<Leftover<FileFrom<S>>>)>
    ensures opened { (L : Ledger) → ImageHoldsLedger (image_at S.Start) L
        → IfOk result (λ conn. HasCleanDisk (file_state conn) → ConnRepresents over_files conn L) }
    ensures fails_to_open { (L : Ledger) → ImageHoldsLedger (image_at S.Start) L
        → IfErr result (λ e. IfSome e.1
        (λ left. IsCleanLeft left → LeftoverHolds (image_at S.Start) left L)) }
{
    Connection::open_from(host, path, false, start)
}

/// What is left of a database that was not closed, or not opened again, and the error.
pub enum Unopened<D: Disk> {
    /// The files were not closed: the store that still has them.
    Unclosed(Error, FileStore<D>),
    /// The files were closed and not opened again: what is left of them.
    Refused(Error, Leftover<D>),
}

/// Closes the files of a connection, so that the log is copied into the database file, and opens them again.
/// The new connection is open, represents the same ledger, and finds all tables that the old one had
/// committed. If the files are not closed, or not opened again, their crash states still hold that ledger.
pub fn reopen<D: Disk + Drop>(
    alloc: Global,
    conn: Connection<FileStore<D>>,
    options: Options,
) -> Result<Connection<FileStore<D>>, Unopened<D>>
    ensures opened { (L : Ledger) → ConnRepresents over_files conn L
        → IfOk result (λ again. HasCleanDisk (file_state again) → ConnRepresents over_files again L) }
    ensures reopened { IfOk result (λ again. HasCleanDisk (file_state again) → IsReopened conn again) }
    ensures live { IfOk result
        (λ again. HasCleanDisk (file_state again) → IsTrue (file_state again).is_open) }
    ensures fails_to_open { (L : Ledger) → ConnRepresents over_files conn L
        → IfErr result (λ e. UnopenedHolds e L) }
{
    match conn.close_files() {
        Ok(files) => match Connection::open_files(alloc, files, options) {
            Ok(again) => Ok(again),
            Err((error, left)) => Err(Unopened::Refused(error, left)),
        },
        Err((error, store)) => Err(Unopened::Unclosed(error, store)),
    }
}
