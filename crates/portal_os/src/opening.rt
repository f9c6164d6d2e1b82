//! Opens database files, and attaches desks to them.
ghost use Rattle.std.specs.Prelude.{◌≡◌, ◌≢◌, [], IsTrue, IfErr, IfOk};
ghost use Rattle.sqlite_wal.specs.Reads.{AreClean};
ghost use Rattle.sqlite.specs.Files.{file_state, image_of, over_files};
ghost use Rattle.sqlite.specs.State.{HasCleanDisk};
ghost use Rattle.sqlite.specs.Steps.{over_memory};
ghost use Rattle.portal_ledger.specs.Ledger.{Ledger};
ghost use Rattle.portal_ledger.specs.States.{running};
ghost use Rattle.portal_commands.specs.Places.{IsFileError, IsDatabaseError};
ghost use Rattle.portal_desk_store.specs.Attaching.{IsAsItWas, IsConnOpen, IsSpared, MayBeAttached};
ghost use Rattle.portal_desk_store.specs.DeskRepresents.{DeskRepresents, DeskIsFaultFree, settings_of};
ghost use Rattle.portal_tables.specs.Attaching.{AttachesOthers};
ghost use Rattle.portal_tables.specs.Images.{FilesRepresent, ImageHoldsLedger};
ghost use Rattle.portal_tables.specs.TablesRepresent.{
  ConnRepresents,
  ConnIsFaultFree,
  CrashStatesOfConnHold,
};
ghost use Rattle.portal_os.specs.Left.{LeavesUntouched, RemainsHold, StillHolds, WhileClean};
ghost use Rattle.portal_os.specs.Opening.{
  ComesFrom,
  IsFoundFor,
  OpensAgain,
  OpensFiles,
  RefusesStore,
  RefusesToOpen,
  copies_for,
};

use crate::alone::needs_copy;
use crate::cache::with_kept_pages;
use crate::copying::copy_unopened;
use crate::errors::error_of_open;
use crate::looking::check_database;
use crate::opening_error::OpeningError;
use crate::pairs::FilePair;
use crate::remains::Remains;
use portal_commands::place::Purpose;
use portal_desk_store::StoreDesk;
use portal_files::Settings;
use portal_server::ProgramError;
use portal_tables::opening::{self, open_files, open_in_memory, reopen};
use sqlite::{Alter, Connection, FileStore, Leftover, MemStore, Options};
use sqlite_disk::{Disk, Files};
use std::alloc::Global;
use std::hash::{BuildHasher, RandomState};

/// Attaches the database of a connection and returns the desk over it, which represents the same ledger.
///
/// Errors, with the connection: `NotOurs`, `Newer`, `NoMemory`, `File`. A database that is not to be attached
/// gets no crash state. After all but `File` the database is unchanged; after each, its crash states still
/// hold the ledger.
pub fn attach_store<S: Alter + Drop>(
    conn: Connection<S>,
    settings: Settings,
) -> Result<StoreDesk<S>, (ProgramError, Connection<S>)>
    ensures why { IfErr result (λ e. IsDatabaseError e.0) }
    ensures same_settings { IfOk result (λ desk. settings_of desk ≡ settings) }
    ensures fault_free { IfOk result (λ desk. DeskIsFaultFree S.Store desk → ConnIsFaultFree S.Store conn) }
    ensures attaches { (L : Ledger) → ConnRepresents S.Store conn L
        → IfOk result (λ desk. DeskIsFaultFree S.Store desk → DeskRepresents S.Store desk (running L)) }
    ensures others { (L : Ledger) → ConnRepresents S.Store conn L
        → IfOk result (λ desk. DeskIsFaultFree S.Store desk → AttachesOthers S.Store conn desk.tables) }
    ensures fails { IfErr result (λ e. RefusesStore S.Store conn e.1 e.0) }
    ensures kept { IfErr result (λ e. ConnIsFaultFree S.Store e.1
        → IsConnOpen S.Store conn → e.0 ≢ ProgramError.File → IsAsItWas S.Store conn e.1) }
    ensures spares { IfErr result (λ e. ¬ MayBeAttached S.Store conn → IsSpared S.Store conn e.1) }
    ensures holds { (L : Ledger) → ConnRepresents S.Store conn L
        → IfErr result (λ e. ConnIsFaultFree S.Store e.1 → CrashStatesOfConnHold S.Store e.1 L) }
{
    match StoreDesk::adopt(conn, settings) {
        Ok(desk) => Ok(desk),
        Err(refused) => Err((error_of_open(refused.fault), refused.connection)),
    }
}

/// Attaches a new database in memory and returns the desk over it, with an empty ledger. Errors: `NoMemory`;
/// `File`, if the database failed.
pub fn attach_memory(
    conn: Connection<MemStore>,
    settings: Settings,
) -> Result<StoreDesk<MemStore>, ProgramError>
    requires { ConnRepresents over_memory conn [] }
    ensures why { IfErr result IsFileError }
    ensures same_settings { IfOk result (λ desk. settings_of desk ≡ settings) }
    ensures attaches { IfOk result (λ desk. DeskRepresents over_memory desk (running [])) }
{
    match StoreDesk::adopt(conn, settings) {
        Ok(desk) => Ok(desk),
        Err(refused) => Err(error_of_open(refused.fault)),
    }
}

/// Opens a desk over an empty database in memory. Errors: those of `attach_memory`.
pub fn open_memory_desk(
    alloc: Global,
    settings: Settings,
) -> Result<StoreDesk<MemStore>, ProgramError>
    ensures why { IfErr result IsFileError }
    ensures same_settings { IfOk result (λ desk. settings_of desk ≡ settings) }
    ensures attaches { IfOk result (λ desk. DeskRepresents over_memory desk (running [])) }
{
    match open_in_memory(alloc) {
        Ok(conn) => attach_memory(conn, settings),
        Err(_) => Err(ProgramError::NoMemory),
    }
}

/// If `copies` is true, closes the files of a connection and opens them again, so that the log is copied into
/// the database file. Else returns the connection as it is. Err: what is left of the files still holds the
/// ledger.
fn copy_log<D: Disk + Drop>(
    alloc: Global,
    conn: Connection<FileStore<D>>,
    options: Options,
    copies: bool,
) -> Result<Connection<FileStore<D>>, (OpeningError, Leftover<D>)>
    ensures opens { OpensAgain conn copies result }
    ensures kept { (L : Ledger) → (HasCleanDisk (file_state conn) → ConnRepresents over_files conn L)
        → IfErr result (λ e. StillHolds e.1 L) }
{
    if !copies {
        return Ok(conn);
    }
    match reopen(alloc, conn, options) {
        Ok(again) => Ok(again),
        Err(opening::Unopened::Unclosed(error, store)) => {
            Err((OpeningError::Store(error), Leftover::Store(store)))
        }
        Err(opening::Unopened::Refused(error, left)) => Err((OpeningError::Store(error), left)),
    }
}

/// Returns whether the log is copied into the database file for this purpose.
fn copies_for(purpose: Purpose) -> bool
    ensures { result ≡ copies_for purpose }
{
    match purpose {
        Purpose::Serve => true,
        Purpose::Answer | Purpose::Ask => false,
    }
}

/// Opens a connection to a database file and its log; to serve, the log is copied into the file. Errors
/// among others: `Lost`, if the file is empty but its log holds commits: it is never taken for a new
/// database; `NoDatabase`, to ask of a database that has yet to be made. After these two the files are as they
/// were; after each error, what is left of the files still holds the ledger that they held, after a crash too.
///
/// The connection keeps as many pages in memory as the database file has, within limits (`kept_pages`).
pub fn open_database_files<D: Disk + Drop>(
    alloc: Global,
    mut files: Files<D>,
    options: Options,
    purpose: Purpose,
) -> Result<Connection<FileStore<D>>, (OpeningError, Leftover<D>)>
    requires log { IsTrue (D.Disk.is_usable files.log) }
    requires db { IsTrue (D.Disk.is_usable files.db) }
    ensures opens { OpensFiles (image_of D.Disk files) purpose result }
    ensures kept { (L : Ledger) → FilesRepresent D.Disk files L → IfErr result (λ e. StillHolds e.1 L) }
    ensures untouched { ¬ IsFoundFor (image_of D.Disk files) purpose
        → IfErr result (λ e. WhileClean D.Disk (LeavesUntouched files e.1)) }
{
    let copies = copies_for(purpose);
    match check_database(alloc, &mut files, purpose) {
        Ok(()) => {}
        Err(refusal) => return Err((refusal, Leftover::Files(files))),
    }
    match copy_unopened(alloc, files, options.seed, copies) {
        Ok(mut copied) => match with_kept_pages(&mut copied, options) {
            Ok(options) => open_connection(alloc, copied, options, copies),
            Err(error) => Err((error, Leftover::Files(copied))),
        },
        Err((error, left)) => Err((error, Leftover::Files(left))),
    }
}

/// Opens a connection to a database file and its log, and copies the log into the file if `copies` is true. A
/// file that holds its database alone is opened once: its log has nothing to copy. Err: what is left of the
/// files still holds the ledger.
fn open_connection<D: Disk + Drop>(
    alloc: Global,
    mut files: Files<D>,
    options: Options,
    copies: bool,
) -> Result<Connection<FileStore<D>>, (OpeningError, Leftover<D>)>
    requires log { IsTrue (D.Disk.is_usable files.log) }
    requires db { IsTrue (D.Disk.is_usable files.db) }
    ensures fault_free { IfOk result (λ conn.
        HasCleanDisk (file_state conn) → AreClean D.Disk files.log files.db) }
    ensures opened { (L : Ledger) → ImageHoldsLedger (image_of D.Disk files) L
        → IfOk result (λ conn. HasCleanDisk (file_state conn) → ConnRepresents over_files conn L) }
    ensures from { IfOk result (λ conn.
        HasCleanDisk (file_state conn) → ComesFrom (image_of D.Disk files) copies conn) }
    ensures live { IfOk result (λ conn. HasCleanDisk (file_state conn) → IsTrue (file_state conn).is_open) }
    ensures kept { (L : Ledger) → FilesRepresent D.Disk files L → IfErr result (λ e. StillHolds e.1 L) }
{
    let copies_now = match needs_copy(&mut files, copies) {
        Ok(needs) => needs,
        Err(error) => return Err((error, Leftover::Files(files))),
    };
    match open_files(alloc, files, options) {
        Ok(conn) => copy_log(alloc, conn, options, copies_now),
        Err((error, left)) => Err((OpeningError::Store(error), left)),
    }
}

/// Makes the options of a connection, with a random number for the log.
fn random_options(host: &HostRuntime) -> Result<Options, OpeningError> {
    let state = RandomState::new(host).map_err(OpeningError::of_io)?;
    Ok(Options::new(state.hash_one(&0u8)))
}

/// Opens a connection to two files, with the machine's clock, as `open_database_files` does.
fn open_with_clock<D: Disk + Drop>(
    host: &HostRuntime,
    files: Files<D>,
    purpose: Purpose,
) -> Result<Connection<FileStore<D>>, (OpeningError, Leftover<D>)>
    requires log { IsTrue (D.Disk.is_usable files.log) }
    requires db { IsTrue (D.Disk.is_usable files.db) }
    ensures opens { OpensFiles (image_of D.Disk files) purpose result }
    ensures kept { (L : Ledger) → FilesRepresent D.Disk files L → IfErr result (λ e. StillHolds e.1 L) }
    ensures untouched { ¬ IsFoundFor (image_of D.Disk files) purpose
        → IfErr result (λ e. WhileClean D.Disk (LeavesUntouched files e.1)) }
{
    match random_options(host) {
        Ok(options) => match open_database_files(host.alloc(), files, options, purpose) {
            Ok(mut conn) => {
                conn.set_clock(host);
                Ok(conn)
            }
            Err(failed) => Err(failed),
        },
        Err(error) => Err((error, Leftover::Files(files))),
    }
}

/// Opens a connection to the database file at a path. To serve or to answer, the file is made if it is
/// missing. To serve, the log has been copied into the file before: ahead of the opening or, where that
/// cannot be, by a first opening and its close. The connection finds all tables that the file and its log
/// held, ours and those of others, and holds the file's lock until it is released.
///
/// No contract ties a path to what its file holds: `pair` stands for that. If it holds a ledger, the
/// connection represents it; or, with an error, what is left of the files still holds it, after a crash too.
/// Errors among others: `Lost`, if the file is empty but its log holds commits; `NoDatabase`, to ask where no
/// database was made. After these two a crash leaves the files as they were found.
pub fn open_store<P: FilePair>(
    host: &HostRuntime,
    path: &str,
    pair: P,
    purpose: Purpose,
) -> Result<Connection<FileStore<P::File>>, (OpeningError, Remains<P::File>)>
    ensures opens { OpensFiles P.image purpose result }
    ensures kept { (L : Ledger) → ImageHoldsLedger P.image L → IfErr result (λ e. RemainsHold e.1 L) }
    ensures refuses { IfErr result (λ e. RefusesToOpen P.image purpose e.1) }
{
    match pair.open_files(host, path, purpose) {
        Ok(files) => match open_with_clock(host, files, purpose) {
            Ok(conn) => Ok(conn),
            Err((error, left)) => Err((error, Remains::Unopened(left.into_files()))),
        },
        Err(error) => Err((error, Remains::Nothing)),
    }
}
