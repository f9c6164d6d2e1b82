//! Copies the tables whose columns are the same in each schema version: reads all columns of all their rows,
//! and inserts such rows into new tables. A row is not parsed: what it holds is kept, whoever wrote it.

ghost use Rattle.std.specs.Prelude.{◌≡◌, ◌≤◌, ℕ, List, map, IfOk, IsTrue};
ghost use Rattle.sqlite.specs.Held.{state};
ghost use Rattle.sqlite.specs.State.{HasCleanDisk};
ghost use Rattle.sqlite_rules.specs.Lists.{Has};
ghost use Rattle.portal_tables_sql.specs.Asks.{Anything};
ghost use Rattle.portal_tables_sql.specs.Inside.{Inside};
ghost use Rattle.portal_tables_sql.specs.Looks.{Looks};
ghost use Rattle.portal_tables_sql.specs.Copies.{table_copied};
ghost use Rattle.portal_tables_sql.specs.Tables.{Layout, since};
ghost use Rattle.portal_tables_sql.specs.declared.our_indexes.OurIndex.{OurIndex};
ghost use Rattle.portal_tables_sql.specs.declared.copied_tables.CopiedTable.{CopiedTable as Table};
ghost use Rattle.portal_tables_rows.specs.Contents.{Contents};
ghost use Rattle.portal_tables_rows.specs.Copying.{
  Adds,
  AddsRow,
  AddsRows,
  AddsTables,
  AreRead,
  cells_of,
  table_read,
};
ghost use Rattle.portal_tables_rows.specs.Holds.{HoldsTables};

use portal_tables_sql::copied_tables::CopiedTable;
use portal_tables_sql::query::write;
use sqlite::{Alter, Connection, Error, Row, Transaction};
use std::alloc::Global;

/// A table with the columns of all of its rows, in the order of the rowids.
#[derive(Drop)]
pub struct WholeTable {
    pub table: CopiedTable,
    pub rows: Vec<Row>,
}

/// Reads all columns of all rows of a table.
fn read_whole<S: Alter>(conn: &mut Connection<S>, table: CopiedTable) -> Result<Vec<Row>, Error>
    ensures rows { HasCleanDisk (state S.Store conn.new)
        → (layout : Layout) (schema_version : ℕ) (indexes : List OurIndex) (t : Contents)
        → HoldsTables layout schema_version indexes (state S.Store conn.old).now t
        → since (table_copied table) ≤ schema_version
        → IfOk result (λ rows. rows.items ≡ cells_of table t) }
    ensures looks { Looks Anything result (state S.Store conn.old) (state S.Store conn.new) }
{
    conn.query_all(table.select_statement(), &[])
}

/// Reads all columns of all rows of these tables.
pub fn read_tables<S: Alter>(
    conn: &mut Connection<S>,
    tables: &[CopiedTable],
) -> Result<Vec<WholeTable>, Error>
    ensures read { HasCleanDisk (state S.Store conn.new) → IsTrue (state S.Store conn.old).is_open
        → (layout : Layout) (schema_version : ℕ) (indexes : List OurIndex) (t : Contents)
        → HoldsTables layout schema_version indexes (state S.Store conn.old).now t
        → ((x : Table) → Has tables.now x → since (table_copied x) ≤ schema_version)
        → IfOk result (λ read. AreRead read.items tables.now t) }
    ensures looks { Looks Anything result (state S.Store conn.old) (state S.Store conn.new) }
{
    // The result of a query has the allocator of the connection.
    let heads = read_whole(conn, CopiedTable::Head)?;
    let mut read = Vec::new(*heads.allocator());
    for table in tables {
        let rows = read_whole(conn, *table)?;
        read.push(WholeTable {
            table: *table,
            rows,
        })?;
    }
    Ok(read)
}

/// Inserts a row with these columns.
fn insert_row<S: Alter>(
    alloc: Global,
    tx: &mut Transaction<'_, S>,
    table: CopiedTable,
    row: &Row,
) -> Result<(), Error>
    ensures { Inside S.Store (Adds (AddsRow table row.now)) tx.old tx.new result }
{
    let mut params = Vec::new(alloc);
    for at in 0..row.column_count() {
        params.push(row.get_ref(at)?)?;
    }
    write(tx, table.insert_statement(), params.as_slice())
}

/// Inserts these rows, in this order.
fn insert_rows<S: Alter>(
    alloc: Global,
    tx: &mut Transaction<'_, S>,
    table: CopiedTable,
    rows: &[Row],
) -> Result<(), Error>
    ensures { Inside S.Store (Adds (AddsRows table rows.now)) tx.old tx.new result }
{
    for row in rows {
        insert_row(alloc, tx, table, row)?;
    }
    Ok(())
}

/// Inserts the rows of these tables into the tables of this schema version.
pub fn insert_tables<S: Alter>(
    tx: &mut Transaction<'_, S>,
    read: &[WholeTable],
) -> Result<(), Error>
    ensures { Inside S.Store (Adds (AddsTables (map table_read read.now))) tx.old tx.new result }
{
    for whole in read {
        insert_rows(
            *whole.rows.allocator(),
            tx,
            whole.table,
            whole.rows.as_slice(),
        )?;
    }
    Ok(())
}
