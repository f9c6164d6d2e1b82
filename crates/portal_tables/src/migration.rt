//! Migrates a database of an older schema version, and maps the errors.

ghost use Rattle.std.specs.Prelude.{◌≡◌, ◌⊎◌, false, IsTrue, OnOk, IfErr};
ghost use Rattle.sqlite.specs.Tree.{Trees};
ghost use Rattle.sqlite.specs.Held.{state};
ghost use Rattle.sqlite.specs.State.{HasCleanDisk, IsUnchanged, Survives};
ghost use Rattle.portal_ledger.specs.Ledger.{Ledger};
ghost use Rattle.portal_tables_sql.specs.States.{IsAsBefore};
ghost use Rattle.portal_tables_sql.specs.Represents.{Represents};
ghost use Rattle.portal_tables_rows.specs.Migrations.{HasMigrated, MayMigrate, version_number};
ghost use Rattle.portal_tables.specs.Older.{HoldsLedgerIn, CrashStateHoldsEither};
ghost use Rattle.portal_tables.specs.HoldsLedger.{HoldsLedger};
ghost use Rattle.portal_tables.specs.declared.errors.OpenFault.TheVariants.{Memory, Store};

use crate::errors::{OpenFault, open_fault_of};
use portal_tables_rows::from_versions;
use portal_tables_rows::schema_versions::OldSchema;
use sqlite::{Alter, Connection};

/// Migrates a database of an older schema version to this version, with its indexes, in one transaction. After `Memory` the database is as it was. After `Store` the files hold the same
/// ledger, in the old schema version or in this one.
pub(crate) fn migrate_database<S: Alter>(
    conn: &mut Connection<S>,
    from: OldSchema,
) -> Result<(), OpenFault>
    ensures done { HasCleanDisk (state S.Store conn.new) → IsTrue (state S.Store conn.old).is_open
        → OnOk result (HasMigrated from (state S.Store conn.old) (state S.Store conn.new)) }
    ensures faults { IfErr result (λ fault. (fault ≡ Memory) ⊎ (fault ≡ Store)) }
    ensures memory { HasCleanDisk (state S.Store conn.new) → IsTrue (state S.Store conn.old).is_open
        → (state S.Store conn.old).in_transaction ≡ false
        → (state S.Store conn.old).now ≡ (state S.Store conn.old).committed
        → IfErr result (λ fault. fault ≡ Memory
        → IsAsBefore (state S.Store conn.old) (state S.Store conn.new)) }
    ensures crash { Survives (state S.Store conn.old) (state S.Store conn.new)
        (MayMigrate from (state S.Store conn.old)) }
    ensures represents { HasCleanDisk (state S.Store conn.new) → (L : Ledger)
        → Represents (HoldsLedgerIn (version_number from) L) (state S.Store conn.old)
        → OnOk result (Represents (HoldsLedger L) (state S.Store conn.new)) }
    ensures stays { HasCleanDisk (state S.Store conn.new) → (L : Ledger)
        → Represents (HoldsLedgerIn (version_number from) L) (state S.Store conn.old)
        → IfErr result (λ fault. fault ≡ Memory
        → Represents (HoldsLedgerIn (version_number from) L) (state S.Store conn.new)) }
    ensures left { HasCleanDisk (state S.Store conn.new) → (L : Ledger)
        → Represents (HoldsLedgerIn (version_number from) L) (state S.Store conn.old) → (trees : Trees)
        → (state S.Store conn.new).may_leave trees → CrashStateHoldsEither from L trees }
{
    match from_versions::migrate_schema(conn, from) {
        Ok(()) => Ok(()),
        Err(fault) => Err(open_fault_of(conn, &fault)),
    }
}
