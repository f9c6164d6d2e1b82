//! Migrates a database of an older schema version to this version. Counters that it does not have are computed
//! from its rows.

ghost use Rattle.std.specs.Prelude.{◌≡◌, OnOk, OnErr, IsTrue, [], true, false, map};
ghost use Rattle.sqlite.specs.Held.{state};
ghost use Rattle.sqlite.specs.State.{HasCleanDisk, Survives};
ghost use Rattle.portal_model.specs.Rows.{VoucherRow, SessionRow, CountRow, TotalRow};
ghost use Rattle.portal_tables_sql.specs.States.{IsUndone};
ghost use Rattle.portal_tables_sql.specs.Asks.{Anything};
ghost use Rattle.portal_tables_rows.specs.Contents.{Contents};
ghost use Rattle.portal_tables_rows.specs.Creation.{are_names_free};
ghost use Rattle.portal_tables_rows.specs.First.{HoldsApart};
ghost use Rattle.portal_tables_rows.specs.Foreign.{
  AreOwn,
  AreOwnRows,
  IsOwnCount,
  IsOwnSession,
  IsOwnTotal,
  IsOwnVoucher,
  NotForeign,
};
ghost use Rattle.portal_tables_rows.specs.Holds.{HoldsIn};
ghost use Rattle.portal_tables_rows.specs.Migrations.{
  AreCountedOf,
  AreInOrder,
  AreTotaledOf,
  CanMigrate,
  CommitsFrom,
  HasMigrated,
  MayCommitFrom,
  MayMigrate,
};
ghost use Rattle.portal_tables_rows.specs.Migrations.{
  after_migration,
  counts_summed,
  totals_summed,
  version_number,
};
ghost use Rattle.portal_tables_rows.specs.Read.{
  session_read,
  session_total,
  voucher_count,
  voucher_read,
};
ghost use Rattle.portal_tables_rows.specs.Selects.{ReadsOpen};
ghost use Rattle.portal_tables_rows.specs.Sums.{SumsFit};

use crate::copies::read_tables;
use crate::creation::can_add_tables;
use crate::joins::{join_counts, join_totals};
use crate::migrations::{commit_migration, copied_tables};
use crate::rows::{RowError, SessionValue, VoucherValue};
use crate::schema_versions::OldSchema;
use crate::sums::{sum_counts, sum_totals};
use crate::whole::{
    read_all_grants, read_all_plans, read_all_sessions, read_all_vouchers, read_old_counts,
    read_old_sessions, read_old_totals, read_old_vouchers,
};
use sqlite::{Alter, Connection, Error, ErrorCode};

/// Reads the vouchers of a database of schema version 1, and counts the redemptions of each.
fn read_vouchers_counted<S: Alter>(conn: &mut Connection<S>) -> Result<Vec<VoucherValue>, RowError>
    ensures { ReadsOpen S.Store Anything (HoldsApart 1) conn.old conn.new result
        (λ t vouchers. (map voucher_read vouchers.items ≡ t.vouchers)
        × (map voucher_count vouchers.items ≡ counts_summed t))
        AreOwnRows }
{
    let vouchers = read_old_vouchers(conn)?;
    let grants = read_all_grants(conn)?;
    let alloc = *vouchers.allocator();
    let counts = sum_counts(alloc, &vouchers, &grants)?;
    join_counts(alloc, &vouchers, &counts)
}

/// Reads the vouchers of a database of a schema version from 2 to 5, each with its count. Fails with
/// `ForeignRow` if the counts are not those of the vouchers, in their order.
fn read_vouchers_apart<S: Alter>(conn: &mut Connection<S>) -> Result<Vec<VoucherValue>, RowError>
    ensures { ReadsOpen S.Store Anything (HoldsApart 2) conn.old conn.new result
        (λ t vouchers. (map voucher_read vouchers.items ≡ t.vouchers)
        × (map voucher_count vouchers.items ≡ t.counts))
        (λ t. AreOwnRows t × AreInOrder t) }
{
    let vouchers = read_old_vouchers(conn)?;
    let counts = read_old_counts(conn)?;
    join_counts(*vouchers.allocator(), &vouchers, &counts)
}

/// Reads the sessions of a database of schema version 1, and computes the end of each and its remaining
/// allowance from its redemptions. Fails with `ForeignRow` if a sum does not fit in a column.
fn read_sessions_summed<S: Alter>(conn: &mut Connection<S>) -> Result<Vec<SessionValue>, RowError>
    ensures { ReadsOpen S.Store Anything (HoldsApart 1) conn.old conn.new result
        (λ t sessions. (map session_read sessions.items ≡ t.sessions)
        × (map session_total sessions.items ≡ totals_summed t))
        (λ t. AreOwnRows t × SumsFit t.plans t.sessions t.grants) }
{
    let sessions = read_old_sessions(conn)?;
    let plans = read_all_plans(conn)?;
    let grants = read_all_grants(conn)?;
    let alloc = *sessions.allocator();
    let totals = sum_totals(alloc, &plans, &sessions, &grants)?;
    join_totals(alloc, &sessions, &totals)
}

/// Reads the sessions of a database of a schema version from 2 to 5, each with its total. Fails with
/// `ForeignRow` if the totals are not those of the sessions, in their order.
fn read_sessions_apart<S: Alter>(conn: &mut Connection<S>) -> Result<Vec<SessionValue>, RowError>
    ensures { ReadsOpen S.Store Anything (HoldsApart 2) conn.old conn.new result
        (λ t sessions. (map session_read sessions.items ≡ t.sessions)
        × (map session_total sessions.items ≡ t.totals))
        (λ t. AreOwnRows t × AreInOrder t) }
{
    let sessions = read_old_sessions(conn)?;
    let totals = read_old_totals(conn)?;
    join_totals(*sessions.allocator(), &sessions, &totals)
}

/// Reads the vouchers of a schema version, each with its count.
fn read_vouchers_of<S: Alter>(
    conn: &mut Connection<S>,
    from: OldSchema,
) -> Result<Vec<VoucherValue>, RowError>
    ensures { ReadsOpen S.Store Anything (HoldsIn (version_number from) []) conn.old conn.new result
        (λ t vouchers. AreCountedOf from t vouchers.items) (CanMigrate from) }
{
    match from {
        OldSchema::First => read_vouchers_counted(conn),
        OldSchema::Second => read_vouchers_apart(conn),
        OldSchema::Third => read_vouchers_apart(conn),
        OldSchema::Fourth => read_vouchers_apart(conn),
        OldSchema::Fifth => read_vouchers_apart(conn),
        OldSchema::Sixth => read_all_vouchers(conn),
    }
}

/// Reads the sessions of a schema version, each with its total.
fn read_sessions_of<S: Alter>(
    conn: &mut Connection<S>,
    from: OldSchema,
) -> Result<Vec<SessionValue>, RowError>
    ensures { ReadsOpen S.Store Anything (HoldsIn (version_number from) []) conn.old conn.new result
        (λ t sessions. AreTotaledOf from t sessions.items) (CanMigrate from) }
{
    match from {
        OldSchema::First => read_sessions_summed(conn),
        OldSchema::Second => read_sessions_apart(conn),
        OldSchema::Third => read_sessions_apart(conn),
        OldSchema::Fourth => read_sessions_apart(conn),
        OldSchema::Fifth => read_sessions_apart(conn),
        OldSchema::Sixth => read_all_sessions(conn),
    }
}

/// Migrates the database to this schema version with these vouchers and sessions, in one transaction. Fails with
/// `ForeignRow` if a foreign key of another table acts on a name of the tables.
fn migrate_with_rows<S: Alter>(
    conn: &mut Connection<S>,
    from: OldSchema,
    vouchers: &[VoucherValue],
    sessions: &[SessionValue],
) -> Result<(), RowError>
    ensures done { HasCleanDisk (state S.Store conn.new)
        → IsTrue (state S.Store conn.old).is_open
        → OnOk result (CommitsFrom from (λ _ _. Unit {0}) (after_migration from vouchers.now sessions.now)
        (state S.Store conn.old) (state S.Store conn.new)) }
    ensures undone { HasCleanDisk (state S.Store conn.new) → IsTrue (state S.Store conn.old).is_open
        → (state S.Store conn.old).in_transaction ≡ false
        → (state S.Store conn.old).now ≡ (state S.Store conn.old).committed
        → OnErr result (IsUndone (state S.Store conn.old) (state S.Store conn.new)) }
    ensures crash { Survives (state S.Store conn.old) (state S.Store conn.new)
        (λ trees. IsTrue (state S.Store conn.old).is_open
        → MayCommitFrom from (λ _ _. Unit {0}) (after_migration from vouchers.now sessions.now)
        (state S.Store conn.old) trees) }
    ensures foreign { are_names_free (state S.Store conn.old).now.schema ≡ true → NotForeign result }
{
    if !can_add_tables(conn.schema()) {
        return Err(RowError::ForeignRow);
    }
    let read = read_tables(conn, copied_tables(from))?;
    if !conn.is_autocommit() {
        return Err(RowError::Sql(Error::SqliteFailure(ErrorCode::TransactionState)));
    }
    commit_migration(conn, from, read.as_slice(), vouchers, sessions)?;
    Ok(())
}

/// Migrates a database of an older schema version to this version, with its indexes, in one transaction: all
/// of it or nothing. It makes the tables anew, with the rows that they have: those of the vouchers and of the
/// sessions are read into memory with their counters, and written together with them. Fails with `ForeignRow`,
/// and writes nothing, if one of these rows is not one that this product writes, or if the counters are not
/// those of the vouchers and the sessions, in their order.
pub fn migrate_schema<S: Alter>(conn: &mut Connection<S>, from: OldSchema) -> Result<(), RowError>
    ensures done { HasCleanDisk (state S.Store conn.new) → IsTrue (state S.Store conn.old).is_open
        → OnOk result (HasMigrated from (state S.Store conn.old) (state S.Store conn.new)) }
    ensures undone { HasCleanDisk (state S.Store conn.new) → IsTrue (state S.Store conn.old).is_open
        → (state S.Store conn.old).in_transaction ≡ false
        → (state S.Store conn.old).now ≡ (state S.Store conn.old).committed
        → OnErr result (IsUndone (state S.Store conn.old) (state S.Store conn.new)) }
    ensures crash { Survives (state S.Store conn.old) (state S.Store conn.new)
        (MayMigrate from (state S.Store conn.old)) }
    ensures foreign { HasCleanDisk (state S.Store conn.new) → IsTrue (state S.Store conn.old).is_open
        → are_names_free (state S.Store conn.old).now.schema ≡ true → (t : Contents)
        → HoldsIn (version_number from) [] (state S.Store conn.old).now t → CanMigrate from t
        → NotForeign result }
{
    let vouchers = read_vouchers_of(conn, from)?;
    let sessions = read_sessions_of(conn, from)?;
    migrate_with_rows(conn, from, vouchers.as_slice(), sessions.as_slice())?;
    Ok(())
}
