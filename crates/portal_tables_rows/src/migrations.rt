//! The transaction that takes the tables of an older schema version to those of this version. SQLite as we
//! have it alters no table and renames none, so all of them are made anew.

ghost use Rattle.std.specs.Prelude.{◌≡◌, false, map};
ghost use Rattle.portal_tables_sql.specs.Commits.{Commits};
ghost use Rattle.portal_tables_sql.specs.Inside.{Inside};
ghost use Rattle.portal_tables_sql.specs.States.{IsUndone};
ghost use Rattle.portal_tables_rows.specs.Creation.{AreNamesFree};
ghost use Rattle.portal_tables_rows.specs.Read.{whole_session_read, whole_voucher_read};
ghost use Rattle.portal_tables_rows.specs.Steps.{Writes};
ghost use Rattle.portal_tables_rows.specs.Migrations.{
  CommitsFrom,
  IsReadFree,
  MayCommitFrom,
  Rebuilds,
  after_migration,
  copied_tables,
  tables_of,
};
ghost use Rattle.portal_tables_rows.specs.Migrations.{
  with_copied,
  with_whole,
  with_whole_sessions,
  with_whole_vouchers,
};

use crate::copies::{WholeTable, insert_tables};
use crate::creation::{create_empty_tables, drop_tables};
use crate::inserts::{insert_whole_session, insert_whole_voucher};
use crate::rows::{SessionValue, VoucherValue};
use crate::schema_versions::OldSchema;
use crate::updates::set_schema_version;
use portal_tables_sql::copied_tables::CopiedTable;
use portal_tables_sql::our_tables::OurTable;
use sqlite::{Alter, Connection, Error, Transaction};

/// The tables of schema version 1, each before those that it refers to.
const FIRST_TABLES: [OurTable; 6] = [
    OurTable::Grants,
    OurTable::Sessions,
    OurTable::Vouchers,
    OurTable::Batches,
    OurTable::Plans,
    OurTable::Head,
];

/// Those of schema version 2.
const SECOND_TABLES: [OurTable; 8] = [
    OurTable::Totals,
    OurTable::Counts,
    OurTable::Grants,
    OurTable::Sessions,
    OurTable::Vouchers,
    OurTable::Batches,
    OurTable::Plans,
    OurTable::Head,
];

/// Those of the schema versions 3 to 5.
const THIRD_TABLES: [OurTable; 9] = [
    OurTable::Requests,
    OurTable::Totals,
    OurTable::Counts,
    OurTable::Grants,
    OurTable::Sessions,
    OurTable::Vouchers,
    OurTable::Batches,
    OurTable::Plans,
    OurTable::Head,
];

/// Those of this schema version.
const SIXTH_TABLES: [OurTable; 7] = [
    OurTable::Requests,
    OurTable::Grants,
    OurTable::Sessions,
    OurTable::Vouchers,
    OurTable::Batches,
    OurTable::Plans,
    OurTable::Head,
];

/// The tables of the schema versions 1 and 2 whose rows are copied.
const FIRST_COPIED: [CopiedTable; 4] = [
    CopiedTable::Grants,
    CopiedTable::Batches,
    CopiedTable::Plans,
    CopiedTable::Head,
];

/// Those of the schema versions from 3 on.
const THIRD_COPIED: [CopiedTable; 5] = [
    CopiedTable::Requests,
    CopiedTable::Grants,
    CopiedTable::Batches,
    CopiedTable::Plans,
    CopiedTable::Head,
];

/// The tables of a schema version, each before those that it refers to.
pub fn tables_of(from: OldSchema) -> &'static [OurTable]
    ensures { result.now ≡ tables_of from }
{
    match from {
        OldSchema::First => &FIRST_TABLES,
        OldSchema::Second => &SECOND_TABLES,
        OldSchema::Third | OldSchema::Fourth | OldSchema::Fifth => &THIRD_TABLES,
        OldSchema::Sixth => &SIXTH_TABLES,
    }
}

/// The tables of a schema version whose rows are copied as they are.
pub fn copied_tables(from: OldSchema) -> &'static [CopiedTable]
    ensures { result.now ≡ copied_tables from }
{
    match from {
        OldSchema::First | OldSchema::Second => &FIRST_COPIED,
        OldSchema::Third | OldSchema::Fourth | OldSchema::Fifth | OldSchema::Sixth => &THIRD_COPIED,
    }
}

/// Drops the tables of the schema version `from`, creates those of this version, and inserts the rows
/// that were read to be copied. It does not commit.
fn rebuild_tables<S: Alter>(
    tx: &mut Transaction<'_, S>,
    from: OldSchema,
    read: &[WholeTable],
) -> Result<(), Error>
    ensures { Inside S.Store (λ old new. AreNamesFree old.now.schema
        → Rebuilds from read.now (with_copied from) old new)
        tx.old tx.new result }
{
    drop_tables(tx, tables_of(from))?;
    create_empty_tables(tx)?;
    insert_tables(tx, read)?;
    Ok(())
}

/// Inserts these vouchers with their counts, in this order.
fn insert_whole_vouchers<S: Alter>(
    tx: &mut Transaction<'_, S>,
    vouchers: &[VoucherValue],
) -> Result<(), Error>
    ensures { Writes S.Store (with_whole_vouchers (map whole_voucher_read vouchers.now))
        tx.old tx.new result }
{
    for voucher in vouchers {
        insert_whole_voucher(tx, voucher)?;
    }
    Ok(())
}

/// Inserts these sessions with their totals, in this order.
fn insert_whole_sessions<S: Alter>(
    tx: &mut Transaction<'_, S>,
    sessions: &[SessionValue],
) -> Result<(), Error>
    ensures { Writes S.Store (with_whole_sessions (map whole_session_read sessions.now))
        tx.old tx.new result }
{
    for session in sessions {
        insert_whole_session(tx, session)?;
    }
    Ok(())
}

/// Inserts these vouchers and these sessions.
fn insert_whole_rows<S: Alter>(
    tx: &mut Transaction<'_, S>,
    vouchers: &[VoucherValue],
    sessions: &[SessionValue],
) -> Result<(), Error>
    ensures { Writes S.Store (with_whole vouchers.now sessions.now) tx.old tx.new result }
{
    insert_whole_vouchers(tx, vouchers)?;
    insert_whole_sessions(tx, sessions)?;
    Ok(())
}

/// Makes the tables anew with the rows that were read, inserts the vouchers and the sessions, and sets the
/// schema version, inside a transaction. It does not commit.
fn migrate_inside<S: Alter>(
    tx: &mut Transaction<'_, S>,
    from: OldSchema,
    read: &[WholeTable],
    vouchers: &[VoucherValue],
    sessions: &[SessionValue],
) -> Result<(), Error>
    ensures { Inside S.Store (λ old new. AreNamesFree old.now.schema
        → Rebuilds from read.now (after_migration from vouchers.now sessions.now) old new)
        tx.old tx.new result }
{
    rebuild_tables(tx, from, read)?;
    insert_whole_rows(tx, vouchers, sessions)?;
    set_schema_version(tx, 6)?;
    Ok(())
}

/// Migrates to this schema version in one transaction: it makes the tables anew with the rows that were
/// read of those of the version `from`, inserts these vouchers and these sessions in this order, and sets the
/// schema version. On an error the database is as it was while the connection is open; a crash state may have
/// the whole change.
pub fn commit_migration<S: Alter>(
    conn: &mut Connection<S>,
    from: OldSchema,
    read: &[WholeTable],
    vouchers: &[VoucherValue],
    sessions: &[SessionValue],
) -> Result<(), Error>
    requires { conn.old.in_transaction ≡ false }
    ensures { Commits S.Store
        (CommitsFrom from (IsReadFree from read.now) (after_migration from vouchers.now sessions.now))
        (λ old new. AreNamesFree old.now.schema → IsUndone old new)
        (MayCommitFrom from (IsReadFree from read.now) (after_migration from vouchers.now sessions.now))
        conn.old conn.new result }
{
    let mut tx = conn.transaction();
    migrate_inside(&mut tx, from, read, vouchers, sessions)?;
    tx.commit()?;
    Ok(())
}
