//! What a crash leaves of the two files of a connection and of a desk: the laws of the kit's store, passed on
//! to the tables of a desk. A crash is modelled as a release of the files without a further write. The
//! program does not call these functions.
ghost use Rattle.sqlite_wal.specs.Reads.{AreClean};
ghost use Rattle.sqlite.specs.Files.{over_files};
ghost use Rattle.portal_ledger.specs.States.{State};
ghost use Rattle.portal_tables.specs.TablesRepresent.{ConnIsFaultFree, IsCrashStateOfConn};
ghost use Rattle.portal_desk_store.specs.DeskRepresents.{
  DeskRepresents,
  DeskIsFaultFree,
  IsCrashStateOfDesk,
};
ghost use Rattle.portal_os.specs.CrashImages.{EachImage, HoldsOneOf, HoldsAllowedLedger};

use portal_desk_store::StoreDesk;
use sqlite::{Connection, FileStore};
use sqlite_disk::{Disk, Files};

/// Releases the two files of a connection, with no further write. Each crash state of the files holds tables
/// of a crash state of the connection.
pub fn release_conn_files<D: Disk + Drop>(conn: Connection<FileStore<D>>) -> Files<D>
    ensures fault_free { AreClean D.Disk result.log result.db → ConnIsFaultFree over_files conn }
    ensures left { AreClean D.Disk result.log result.db
        → EachImage D.Disk result (HoldsOneOf (IsCrashStateOfConn over_files conn)) }
{
    let store = conn.into_store();
    store.close()
}

/// Releases the two files of a desk, with no further write. Each crash state of the files holds tables, ours
/// and those of others, of a crash state of the desk, and holds a ledger that the desk's state allows.
pub fn release_desk_files<D: Disk + Drop>(desk: StoreDesk<FileStore<D>>) -> Files<D>
    ensures fault_free { AreClean D.Disk result.log result.db → DeskIsFaultFree over_files desk }
    ensures kept { AreClean D.Disk result.log result.db
        → EachImage D.Disk result (HoldsOneOf (IsCrashStateOfDesk over_files desk)) }
    ensures left { AreClean D.Disk result.log result.db
        → (s : State) → DeskRepresents over_files desk s → EachImage D.Disk result (HoldsAllowedLedger s) }
{
    release_conn_files(desk.release())
}
