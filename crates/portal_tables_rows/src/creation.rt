//! Creates the product's tables, their indexes and the head row, and drops tables.

ghost use Rattle.std.specs.Prelude.{◌≡◌, ℕ, Bool, true, false};
ghost use Rattle.portal_tables_sql.specs.Commits.{Commits};
ghost use Rattle.portal_tables_sql.specs.Inside.{Inside};
ghost use Rattle.portal_tables_sql.specs.States.{IsUndone};
ghost use Rattle.portal_tables_rows.specs.Creation.{
  AreNamesFree,
  Builds,
  CreatesEmpty,
  DropsTables,
  Indexes,
  IsCreated,
  Makes,
  MayBuild,
  are_names_free,
};

use crate::inserts::insert_head;
use crate::schema_versions::has_no_action_on_ours;
use portal_tables_sql::our_indexes::{OUR_INDEXES, OurIndex};
use portal_tables_sql::our_tables::{CURRENT_TABLES, OurTable};
use portal_tables_sql::query::write;
use portal_tables_sql::room::{has_autoincrement, has_sequence};
use sqlite::{Alter, Connection, Error, Transaction};
use sqlite_schema::schema::Schema;

/// Creates these tables, in this order, inside a transaction. It does not commit.
pub(crate) fn create_tables<S: Alter>(
    tx: &mut Transaction<'_, S>,
    tables: &[OurTable],
) -> Result<(), Error>
    ensures { Inside S.Store (Makes tables.now) tx.old tx.new result }
{
    for table in tables {
        write(tx, table.create_statement(), &[])?;
    }
    Ok(())
}

/// Creates these indexes, in this order, inside a transaction. It does not commit.
fn create_indexes<S: Alter>(tx: &mut Transaction<'_, S>, indexes: &[OurIndex]) -> Result<(), Error>
    ensures { Inside S.Store (Indexes indexes.now) tx.old tx.new result }
{
    for index in indexes {
        write(tx, index.create_statement(), &[])?;
    }
    Ok(())
}

/// Creates all tables and indexes, without rows, inside a transaction. It does not commit.
pub(crate) fn create_empty_tables<S: Alter>(tx: &mut Transaction<'_, S>) -> Result<(), Error>
    ensures { Inside S.Store CreatesEmpty tx.old tx.new result }
{
    create_tables(tx, &CURRENT_TABLES)?;
    create_indexes(tx, &OUR_INDEXES)?;
    Ok(())
}

/// Creates all tables, the indexes and the head row, inside a transaction. It does not commit.
fn create_schema_inside<S: Alter>(tx: &mut Transaction<'_, S>) -> Result<(), Error>
    ensures { Inside S.Store (λ old new. AreNamesFree old.now.schema → Builds old new) tx.old tx.new result }
{
    create_empty_tables(tx)?;
    insert_head(tx, 6)?;
    Ok(())
}

/// Creates the tables of this schema version, the indexes and the head row, in one transaction. On an
/// error the database is as it was while the connection is open; a crash state may have the whole
/// change.
pub fn create_schema<S: Alter>(conn: &mut Connection<S>) -> Result<(), Error>
    requires { conn.old.in_transaction ≡ false }
    ensures { Commits S.Store IsCreated (λ old new. AreNamesFree old.now.schema → IsUndone old new) MayBuild
        conn.old conn.new result }
{
    let mut tx = conn.transaction();
    create_schema_inside(&mut tx)?;
    tx.commit()?;
    Ok(())
}

/// Whether the product's tables can be added: no foreign key acts on a table of their names, and a
/// schema that uses AUTOINCREMENT has `sqlite_sequence`.
pub fn can_add_tables(schema: &Schema) -> bool
    ensures { result ≡ are_names_free schema.now }
{
    (!has_autoincrement(schema) || has_sequence(schema)) && has_no_action_on_ours(schema)
}

/// Drops these tables, which are all different, with their indexes, inside a transaction. It does not commit. A
/// table comes before those that it refers to.
pub(crate) fn drop_tables<S: Alter>(
    tx: &mut Transaction<'_, S>,
    tables: &[OurTable],
) -> Result<(), Error>
    ensures { Inside S.Store (DropsTables tables.now) tx.old tx.new result }
{
    for table in tables {
        write(tx, table.drop_statement(), &[])?;
    }
    Ok(())
}
