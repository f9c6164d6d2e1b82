//! Closes the desk over a database file.
ghost use Rattle.std.specs.Prelude.{IfErr, IfOk};
ghost use Rattle.sqlite_wal.specs.Reads.{AreClean};
ghost use Rattle.sqlite.specs.Files.{over_files};
ghost use Rattle.portal_ledger.specs.Ledger.{Ledger};
ghost use Rattle.portal_ledger.specs.States.{running};
ghost use Rattle.portal_desk_store.specs.DeskRepresents.{DeskRepresents, IsCrashStateOfDesk};
ghost use Rattle.portal_tables.specs.Images.{IsCrashStateOfStore};
ghost use Rattle.portal_tables.specs.TablesRepresent.{Files as Tables, FilesHold};
ghost use Rattle.portal_os.specs.Opening.{AreCopied, AreWhole};

use portal_desk_store::StoreDesk;
use sqlite::{Error, FileStore};
use sqlite_disk::{Disk, Files};

/// Closes a desk and its files: the log is copied into the database file. Then all tables of the database,
/// ours and those of others, are in the two files as they were committed, and in the database file alone.
/// Err: the close failed, and the crash states of the files are crash states of the desk.
pub fn close_desk<D: Disk + Drop>(
    desk: StoreDesk<FileStore<D>>,
) -> Result<Files<D>, (Error, FileStore<D>)>
    ensures copied { IfOk result (λ files. AreClean D.Disk files.log files.db → AreCopied desk files) }
    ensures whole { IfOk result (λ files. AreClean D.Disk files.log files.db
        → (L : Ledger) → DeskRepresents over_files desk (running L) → AreWhole D.Disk files L) }
    ensures unclosed { (L : Ledger) → DeskRepresents over_files desk (running L)
        → IfErr result (λ e. (tables : Tables) → IsCrashStateOfStore e.1 tables → FilesHold tables L) }
    ensures left { IfErr result (λ e.
        (tables : Tables) → IsCrashStateOfStore e.1 tables → IsCrashStateOfDesk over_files desk tables) }
{
    let conn = desk.release();
    conn.close_files()
}
