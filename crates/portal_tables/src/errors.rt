//! The errors of the tables.

ghost use Rattle.std.specs.Prelude.{◌≡◌, ◌⊎◌, IsTrue};
ghost use Rattle.sqlite.specs.Held.{state};
ghost use Rattle.sqlite.specs.State.{HasCleanDisk, IsUnchanged, Survives};
ghost use Rattle.portal_tables.specs.declared.errors.OpenFault.TheVariants.{Memory, Store};
ghost use Rattle.portal_tables.specs.Faults.{refusal_of};

use portal_model::refusal::Refusal;
use portal_tables_rows::rows::RowError;
use portal_tables_sql::query::is_answering;
use sqlite::{Alter, Connection, Error, ErrorCode};

/// Why a call on the tables failed.
#[derive(Clone, Copy, Debug, PartialEq, Eq)]
pub enum StoreFault {
    /// Out of memory. Nothing changed, and the call may be repeated.
    Memory,
    /// The tables have stopped: from now on each call but `is_stopped` and `release` fails with it. Open
    /// the files again.
    Stopped,
}

impl From<StoreFault> for Refusal {
    ghost from_gives = { λ fault refusal. refusal ≡ refusal_of fault };

    /// Converts an error of the tables into an error of the desk.
    fn from(fault: StoreFault) -> Refusal {
        match fault {
            StoreFault::Memory => Refusal::NoMemory,
            StoreFault::Stopped => Refusal::Stopped,
        }
    }
}

/// Why the tables were not attached.
#[derive(Clone, Copy, Debug, PartialEq, Eq)]
pub enum OpenFault {
    /// A table or a view has one of the product's names, and the head is not one row with a schema
    /// version from 1 on. Nothing changed.
    NotOurs,
    /// The schema version is newer than this one. Nothing changed.
    Newer,
    /// Out of memory. Nothing changed, and the same connection may be attached again.
    Memory,
    /// The database failed, or this version cannot work with it. Open the files again.
    Store,
}

/// Whether an error is out of memory and the connection still answers. If so, nothing has changed.
pub(crate) fn is_memory<S: Alter>(conn: &mut Connection<S>, fault: &RowError) -> bool
    ensures same { HasCleanDisk (state S.Store conn.new) → IsTrue result
        → IsUnchanged (state S.Store conn.old) (state S.Store conn.new) }
    ensures survives { Survives (state S.Store conn.old) (state S.Store conn.new) (λ _. ⊥) }
{
    matches!(
        fault,
        RowError::Sql(Error::SqliteFailure(ErrorCode::OutOfMemory))
    ) && is_answering(conn)
}

/// Maps an error of the rows to an `OpenFault`. It is `Memory` only if the connection still answers;
/// then nothing has changed.
pub(crate) fn open_fault_of<S: Alter>(conn: &mut Connection<S>, fault: &RowError) -> OpenFault
    ensures gives_fault { (result ≡ Memory) ⊎ (result ≡ Store) }
    ensures same { HasCleanDisk (state S.Store conn.new) → result ≡ Memory
        → IsUnchanged (state S.Store conn.old) (state S.Store conn.new) }
    ensures survives { Survives (state S.Store conn.old) (state S.Store conn.new) (λ _. ⊥) }
{
    if is_memory(conn, fault) {
        OpenFault::Memory
    } else {
        OpenFault::Store
    }
}
