//! Runs a query and reads the rows of its result as values: the first row, each row as it comes, or all
//! rows of a table at once.

ghost use Rattle.std.specs.Prelude.{[], All, IfOk};
ghost use Rattle.sqlite.specs.Values.{bound};
ghost use Rattle.portal_tables_rows.specs.Selects.{ReadsMany, ReadsOne};

use crate::from_row::FromRow;
use crate::rows::RowError;
use portal_model::proof::witness;
use sqlite::types::ValueRef;
use sqlite::{Alter, Connection, Error, ErrorCode};
use std::alloc::Global;

/// Runs a query and reads the first row of its result as a value, or returns `None` if there are no rows.
/// Fails with `ForeignRow` if the row is not one that this product writes.
pub(crate) fn read_one<S: Alter, T: FromRow>(
    conn: &mut Connection<S>,
    sql: &str,
    params: &[ValueRef<'_>],
) -> Result<Option<T>, RowError>
    ensures { ReadsOne S.Store T.cells T.width T.proper T.own sql.now (bound params.now)
        conn.old conn.new result }
{
    let rows = conn.query_all(sql, params)?;
    match rows.first() {
        Some(row) => Ok(Some(T::from_row(row)?)),
        None => Ok(None),
    }
}

/// Runs a query and reads each row of its result as a value, one row at a time. Fails with `ForeignRow`
/// if a row is not one that this product writes.
pub fn read_many<S: Alter, T: FromRow + Drop>(
    alloc: Global,
    conn: &mut Connection<S>,
    sql: &str,
    params: &[ValueRef<'_>],
) -> Result<Vec<T>, RowError>
    ensures proper { IfOk result (λ values. All T.proper values.items) }
    ensures reads { ReadsMany S.Store T.cells T.width T.own sql.now (bound params.now)
        conn.old conn.new result }
{
    let mut values = Vec::new(alloc);
    let mut rows = conn.query(sql, params)?;
    'rows: for _ in 0..1u128 << 64 {
        let Some(row) = rows.next()? else {
            return Ok(values);
        };
        values.push(T::from_row(row)?)?;
    }
    // A vector has fewer than 2^64 values, so this is not reached.
    witness(values.len());
    Err(RowError::Sql(Error::SqliteFailure(ErrorCode::TooBig)))
}

/// Runs a query without parameters and reads each row of its result as a value, all rows at once. It takes
/// no allocator: the values are in the memory of the rows. Fails with `ForeignRow` if a row is not one that
/// this product writes.
pub fn read_table<S: Alter, T: FromRow + Drop>(
    conn: &mut Connection<S>,
    sql: &str,
) -> Result<Vec<T>, RowError>
    ensures { ReadsMany S.Store T.cells T.width T.own sql.now [] conn.old conn.new result }
{
    let rows = conn.query_all(sql, &[])?;
    let mut values = Vec::new(*rows.allocator());
    for row in rows.as_slice() {
        values.push(T::from_row(row)?)?;
    }
    Ok(values)
}
