//! Runs writes, and tests whether a connection still answers.

ghost use Rattle.std.specs.Prelude.{IsTrue};
ghost use Rattle.sqlite.specs.Held.{state};
ghost use Rattle.sqlite.specs.State.{HasCleanDisk, Survives, IsUnchanged};
ghost use Rattle.sqlite.specs.Values.{bound};
ghost use Rattle.portal_tables_sql.specs.Inside.{Inside, Runs};

use sqlite::types::ValueRef;
use sqlite::{Alter, Connection, Error, Transaction};

/// Executes a statement that writes, inside a transaction. It does not commit.
pub fn write<S: Alter>(
    tx: &mut Transaction<'_, S>,
    sql: &str,
    params: &[ValueRef<'_>],
) -> Result<(), Error>
    ensures { Inside S.Store (Runs sql.now (bound params.now)) tx.old tx.new result }
{
    tx.execute(sql, params)?;
    Ok(())
}

/// Whether the connection is open and can still prepare a statement. It changes nothing if so.
pub fn is_answering<S: Alter>(conn: &mut Connection<S>) -> bool
    ensures same { HasCleanDisk (state S.Store conn.new) → IsTrue result
        → IsUnchanged (state S.Store conn.old) (state S.Store conn.new) }
    ensures crash { Survives (state S.Store conn.old) (state S.Store conn.new) (λ _. ⊥) }
{
    conn.prepare("SELECT 1").is_ok()
}
