//! The steps that make the product's tables ready in a database: create them, check them or migrate
//! them.

ghost use Rattle.std.specs.Prelude.{◌≡◌, ◌≢◌, ◌⊎◌, ◌<◌, ℕ, false, IsTrue, Some, None, IfOk, IfErr, OnOk};
ghost use Rattle.std.specs.Prelude.{MatchResult};
ghost use Rattle.sqlite.specs.Held.{state};
ghost use Rattle.sqlite.specs.State.{HasCleanDisk, IsUnchanged, Survives};
ghost use Rattle.portal_tables_sql.specs.States.{IsAsBefore};
ghost use Rattle.portal_tables_rows.specs.Creation.{IsCommitted, new_store};
ghost use Rattle.portal_tables_rows.specs.Holds.{Holds, CrashStateHoldsRows, this_schema_version};
ghost use Rattle.portal_tables_rows.specs.Others.{KeepsOthers, CrashStateHasOthers};
ghost use Rattle.portal_tables_rows.specs.SchemaVersions.{GivesSchemaVersion, is_entangled};
ghost use Rattle.portal_tables_rows.specs.Migrations.{HasMigrated};
ghost use Rattle.portal_tables_rows.specs.declared.schema_versions.OldSchema.TheVariants.{Sixth};
ghost use Rattle.portal_tables.specs.Attaching.{IsCarried, IsCompleted, IsKnown, AreTablesReady, IsCauseIn};
ghost use Rattle.portal_tables.specs.Attaching.{
  CrashStateCarries,
  MayAttach,
  MayBeMigrated,
  HasNoActionOnOurs,
};
ghost use Rattle.portal_tables.specs.Attaching.{GivesKnownVersion, GivesNewerVersion, MayBeCarried};
ghost use Rattle.portal_tables.specs.declared.errors.OpenFault.TheVariants.{NotOurs, Newer, Memory, Store};

use crate::errors::{OpenFault, open_fault_of};
use crate::migration::migrate_database;
use portal_tables_rows::creation::{can_add_tables, create_schema};
use portal_tables_rows::entangled::{find_table_on_ours, is_entangled};
use portal_tables_rows::rows::RowError;
use portal_tables_rows::schema_versions::{
    OldSchema, has_no_action_on_ours, is_any_name_taken, is_indexed, is_usable_schema,
    schema_version_in, select_schema_version,
};
use sqlite::{Alter, Connection, Error};

/// Reads the schema version from the head row. It is `None` if the head is not one row with a version
/// from 1 on.
fn read_schema_version<S: Alter>(conn: &mut Connection<S>) -> Result<Option<u64>, OpenFault>
    ensures gives_version { HasCleanDisk (state S.Store conn.new)
        → IfOk result (λ schema_version. GivesSchemaVersion (state S.Store conn.old).now schema_version
        × IsUnchanged (state S.Store conn.old) (state S.Store conn.new)) }
    ensures mode { (state S.Store conn.old).in_transaction ≡ false
        → OnOk result ((state S.Store conn.new).in_transaction ≡ false) }
    ensures faults { IfErr result (λ fault. (fault ≡ Memory) ⊎ (fault ≡ Store)) }
    ensures memory { HasCleanDisk (state S.Store conn.new) → (state S.Store conn.old).in_transaction ≡ false
        → (state S.Store conn.old).now ≡ (state S.Store conn.old).committed
        → IfErr result (λ fault. fault ≡ Memory
        → IsAsBefore (state S.Store conn.old) (state S.Store conn.new)) }
    ensures survives { Survives (state S.Store conn.old) (state S.Store conn.new) (λ _. ⊥) }
{
    match select_schema_version(conn) {
        Ok(rows) => Ok(schema_version_in(rows.as_slice())),
        Err(Error::SqlInputError(_)) => Ok(None),
        Err(error) => Err(open_fault_of(conn, &RowError::Sql(error))),
    }
}

/// Creates the product's tables in a database that has none of them. Fails with `Store` if a foreign key
/// acts on one of their names.
fn create_tables<S: Alter>(conn: &mut Connection<S>) -> Result<(), OpenFault>
    requires { conn.old.in_transaction ≡ false }
    ensures made { HasCleanDisk (state S.Store conn.new)
        → OnOk result (Holds (state S.Store conn.new).now new_store
        × KeepsOthers (state S.Store conn.old).now (state S.Store conn.new).now
        × IsCommitted (state S.Store conn.new)) }
    ensures spares { OnOk result (HasNoActionOnOurs (state S.Store conn.old).now.schema) }
    ensures faults { IfErr result (λ fault. (fault ≡ Memory) ⊎ (fault ≡ Store)) }
    ensures memory { HasCleanDisk (state S.Store conn.new)
        → IfErr result (λ fault. fault ≡ Memory
        → IsAsBefore (state S.Store conn.old) (state S.Store conn.new)) }
    ensures crash { Survives (state S.Store conn.old) (state S.Store conn.new)
        (λ trees. HasNoActionOnOurs (state S.Store conn.old).now.schema × CrashStateHoldsRows trees new_store
        × CrashStateHasOthers (state S.Store conn.old).now trees) }
{
    if !can_add_tables(conn.schema()) {
        return Err(OpenFault::Store);
    }
    match create_schema(conn) {
        Ok(()) => Ok(()),
        Err(error) => Err(open_fault_of(conn, &RowError::Sql(error))),
    }
}

/// Migrates the database from an older schema version. If a foreign key acts on one of the product's
/// table names, if a table of others refers to one of the tables, or if an index of others is on one, it
/// fails with `Store` and writes nothing: these would not outlive that the tables are made anew. So it does if
/// the counters are not those of the vouchers and the sessions, in their order.
fn check_and_migrate<S: Alter>(conn: &mut Connection<S>, from: OldSchema) -> Result<(), OpenFault>
    requires { conn.old.in_transaction ≡ false }
    ensures done { HasCleanDisk (state S.Store conn.new) → IsTrue (state S.Store conn.old).is_open
        → OnOk result (HasMigrated from (state S.Store conn.old) (state S.Store conn.new)) }
    ensures spares { OnOk result (HasNoActionOnOurs (state S.Store conn.old).now.schema
        × (is_entangled (state S.Store conn.old).now.schema ≡ false)) }
    ensures faults { IfErr result (λ fault. (fault ≡ Memory) ⊎ (fault ≡ Store)) }
    ensures memory { HasCleanDisk (state S.Store conn.new) → IsTrue (state S.Store conn.old).is_open
        → (state S.Store conn.old).now ≡ (state S.Store conn.old).committed
        → IfErr result (λ fault. fault ≡ Memory
        → IsAsBefore (state S.Store conn.old) (state S.Store conn.new)) }
    ensures crash { Survives (state S.Store conn.old) (state S.Store conn.new)
        (MayBeMigrated from (state S.Store conn.old)) }
{
    if !has_no_action_on_ours(conn.schema()) || is_entangled(conn.schema()) {
        return Err(OpenFault::Store);
    }
    migrate_database(conn, from)?;
    Ok(())
}

/// Makes the tables of this schema version anew if one of their indexes is missing. Fails with `Store` if a
/// table is missing or a foreign key acts on one, or if what of others hangs on them would be lost.
fn complete_indexes<S: Alter>(conn: &mut Connection<S>) -> Result<(), OpenFault>
    requires { conn.old.in_transaction ≡ false }
    ensures done { HasCleanDisk (state S.Store conn.new) → IsTrue (state S.Store conn.old).is_open
        → (state S.Store conn.old).now ≡ (state S.Store conn.old).committed
        → OnOk result (IsCompleted (state S.Store conn.old) (state S.Store conn.new)) }
    ensures spares { OnOk result (HasNoActionOnOurs (state S.Store conn.old).now.schema
        × MayBeCarried (state S.Store conn.old).now.schema this_schema_version) }
    ensures faults { IfErr result (λ fault. (fault ≡ Memory) ⊎ (fault ≡ Store)) }
    ensures memory { HasCleanDisk (state S.Store conn.new) → IsTrue (state S.Store conn.old).is_open
        → (state S.Store conn.old).now ≡ (state S.Store conn.old).committed
        → IfErr result (λ fault. fault ≡ Memory
        → IsAsBefore (state S.Store conn.old) (state S.Store conn.new)) }
    ensures crash { Survives (state S.Store conn.old) (state S.Store conn.new)
        (MayBeMigrated Sixth (state S.Store conn.old)) }
{
    if !is_usable_schema(conn.schema()) {
        return Err(OpenFault::Store);
    }
    if is_indexed(conn.schema()) {
        return Ok(());
    }
    if is_entangled(conn.schema()) {
        return Err(OpenFault::Store);
    }
    migrate_database(conn, OldSchema::Sixth)?;
    Ok(())
}

/// Checks the tables that the database has, by their schema version, and migrates them if they are
/// older. Fails with `NotOurs` if the head gives no schema version, and with `Newer` if the version is
/// newer than this one.
fn migrate_existing<S: Alter>(conn: &mut Connection<S>) -> Result<(), OpenFault>
    requires { conn.old.in_transaction ≡ false }
    ensures why { HasCleanDisk (state S.Store conn.new)
        → MatchResult result (λ _. HasNoActionOnOurs (state S.Store conn.old).now.schema
        × GivesKnownVersion (state S.Store conn.old).now)
        (λ fault. (fault ≡ NotOurs → GivesSchemaVersion (state S.Store conn.old).now None)
        × (fault ≡ Newer → GivesNewerVersion (state S.Store conn.old).now)) }
    ensures done { HasCleanDisk (state S.Store conn.new)
        → (state S.Store conn.old).now ≡ (state S.Store conn.old).committed
        → OnOk result (IsCarried (state S.Store conn.old) (state S.Store conn.new)) }
    ensures kept { HasCleanDisk (state S.Store conn.new)
        → (state S.Store conn.old).now ≡ (state S.Store conn.old).committed
        → IfErr result (λ fault. fault ≢ Store
        → IsAsBefore (state S.Store conn.old) (state S.Store conn.new)) }
    ensures crash { Survives (state S.Store conn.old) (state S.Store conn.new)
        (λ trees. HasNoActionOnOurs (state S.Store conn.old).now.schema
        × CrashStateCarries (state S.Store conn.old).now trees) }
{
    match read_schema_version(conn)? {
        None => Err(OpenFault::NotOurs),
        Some(1) => {
            check_and_migrate(conn, OldSchema::First)?;
            Ok(())
        }
        Some(2) => {
            check_and_migrate(conn, OldSchema::Second)?;
            Ok(())
        }
        Some(3) => {
            check_and_migrate(conn, OldSchema::Third)?;
            Ok(())
        }
        Some(4) => {
            check_and_migrate(conn, OldSchema::Fourth)?;
            Ok(())
        }
        Some(5) => {
            check_and_migrate(conn, OldSchema::Fifth)?;
            Ok(())
        }
        Some(6) => {
            complete_indexes(conn)?;
            Ok(())
        }
        Some(_) => Err(OpenFault::Newer),
    }
}

/// Makes the tables ready: creates them if the database has none of them, or else checks and migrates
/// those that it has. Fails with `Store` inside a transaction, and if a table of others refers to one of
/// them: SQLite would carry out no change of the rows that it refers to.
pub(crate) fn create_or_migrate<S: Alter>(conn: &mut Connection<S>) -> Result<(), OpenFault>
    ensures why { HasCleanDisk (state S.Store conn.new)
        → MatchResult result (λ _. IsKnown (state S.Store conn.old).now)
        (λ fault. IsCauseIn fault (state S.Store conn.old).now) }
    ensures ready { HasCleanDisk (state S.Store conn.new) → IsTrue (state S.Store conn.old).is_open
        → OnOk result (AreTablesReady (state S.Store conn.old) (state S.Store conn.new)) }
    ensures kept { HasCleanDisk (state S.Store conn.new) → IsTrue (state S.Store conn.old).is_open
        → IfErr result (λ fault. fault ≢ Store
        → IsAsBefore (state S.Store conn.old) (state S.Store conn.new)
        × ((state S.Store conn.old).now ≡ (state S.Store conn.old).committed)) }
    ensures crash { Survives (state S.Store conn.old) (state S.Store conn.new)
        (MayAttach (state S.Store conn.old).now) }
{
    if !conn.is_autocommit() || find_table_on_ours(conn.schema()).is_some() {
        return Err(OpenFault::Store);
    }
    if is_any_name_taken(conn.schema()) {
        migrate_existing(conn)?;
    } else {
        create_tables(conn)?;
    }
    Ok(())
}
