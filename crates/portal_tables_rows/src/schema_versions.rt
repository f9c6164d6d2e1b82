//! Finds which of the product's tables a schema has, and reads the schema version from the head row.

ghost use Rattle.std.specs.Prelude.{◌≡◌, ℕ, [], false, true, IsTrue, OnErr, IfOk, IfErr, IfSome, IfNone};
ghost use Rattle.std.specs.List.{list_any};
ghost use Rattle.sqlite.specs.Held.{state};
ghost use Rattle.sqlite.specs.State.{HasCleanDisk, IsUnchanged, Survives};
ghost use Rattle.sqlite.specs.declared.error.Error.TheVariants.{SqlInputError};
ghost use Rattle.sqlite_resolve.specs.declared.error.CompileError.{CompileError};
ghost use Rattle.portal_tables_sql.specs.States.{IsUndone};
ghost use Rattle.portal_tables_sql.specs.Indexes.{our_indexes};
ghost use Rattle.portal_tables_sql.specs.Tables.{Together};
ghost use Rattle.portal_tables_rows.specs.Holds.{TablePlaces, TablesExist, this_schema_version};
ghost use Rattle.portal_tables_rows.specs.SchemaVersions.{
  is_name_taken,
  is_any_name_taken,
  has_our_tables,
  has_no_action_on_ours,
};
ghost use Rattle.portal_tables_rows.specs.SchemaVersions.{
  is_usable_schema,
  is_indexed,
  is_our_index,
  has_our_index,
  IsNoQuery,
  QueryAnswers,
};
ghost use Rattle.portal_tables_rows.specs.SchemaVersions.{IsOneRow};

use portal_tables_sql::our_indexes::{OUR_INDEXES, OurIndex};
use portal_tables_sql::our_tables::{CURRENT_TABLES, OUR_TABLES};
use portal_tables_sql::room::{has_no_action_on, has_table};
use portal_tables_sql::statements::SELECT_SCHEMA_VERSION;
use sqlite::types::ValueRef;
use sqlite::{Alter, Connection, Error, Row};
use sqlite_schema::names::same_name;
use sqlite_schema::schema::{Index, Schema};

/// A schema version from which a database is migrated. `Sixth` is this version, where one of its indexes
/// is missing.
#[derive(Clone, Copy, Debug, PartialEq, Eq)]
pub enum OldSchema {
    First,
    Second,
    Third,
    Fourth,
    Fifth,
    Sixth,
}

/// Whether a table or a view has this name.
fn is_name_taken(schema: &Schema, name: &[u8]) -> bool
    ensures { result ≡ is_name_taken schema.now name.now }
{
    schema.table_named(name).is_some() || schema.view_named(name).is_some()
}

/// Whether a table or a view has one of the product's table names.
pub fn is_any_name_taken(schema: &Schema) -> bool
    ensures { result ≡ is_any_name_taken schema.now }
{
    OUR_TABLES
        .iter()
        .any(|table| is_name_taken(schema, table.name()))
}

/// Whether no foreign key acts on one of the product's table names, whether that table exists or not.
pub fn has_no_action_on_ours(schema: &Schema) -> bool
    ensures { result ≡ has_no_action_on_ours schema.now }
{
    OUR_TABLES
        .iter()
        .all(|table| has_no_action_on(schema, table.name()))
}

/// Whether each table of this schema version exists.
fn has_our_tables(schema: &Schema) -> bool
    ensures { result ≡ has_our_tables schema.now }
{
    CURRENT_TABLES
        .iter()
        .all(|table| has_table(schema, table.name()))
}

/// Whether each table of this schema version exists, and no foreign key acts on one of the product's table
/// names.
pub fn is_usable_schema(schema: &Schema) -> bool
    ensures { result ≡ is_usable_schema schema.now }
{
    has_our_tables(schema) && has_no_action_on_ours(schema)
}

/// Whether `index` is this index: it has its name, and its columns of the table with this tree.
fn is_our_index(ours: OurIndex, index: &Index, tree: u32) -> bool
    ensures { result ≡ is_our_index ours tree index.now }
{
    same_name(index.name.as_slice(), ours.name())
        && index.table == tree
        && index.columns.as_slice() == ours.columns()
}

/// Whether one of these indexes is this index of the table with this tree.
fn is_any_our_index(ours: OurIndex, indexes: &[Index], tree: u32) -> bool
    ensures { result ≡ list_any (is_our_index ours tree) indexes.now }
{
    indexes.iter().any(|index| is_our_index(ours, index, tree))
}

/// Whether the schema has this index on the product's table.
fn has_our_index(schema: &Schema, ours: OurIndex) -> bool
    ensures { result ≡ has_our_index schema.now ours }
{
    let Some(at) = schema.table_named(ours.table().name()) else {
        return false;
    };
    match schema.tables.as_slice().get(at) {
        Some(table) => is_any_our_index(ours, schema.indexes.as_slice(), table.tree),
        None => false,
    }
}

/// Whether the schema has each index of this schema version.
fn has_our_indexes(schema: &Schema) -> bool
    ensures { result ≡ is_indexed schema.now }
{
    OUR_INDEXES.iter().all(|ours| has_our_index(schema, *ours))
}

/// Whether the indexes of this schema version exist.
pub fn is_indexed(schema: &Schema) -> bool
    ensures test { result ≡ is_indexed schema.now }
    ensures index { IsTrue result → (places : TablePlaces)
        → TablesExist Together this_schema_version [] schema.now places
        → TablesExist Together this_schema_version our_indexes schema.now places }
{
    let are_made = has_our_indexes(schema);
    are_made
}

/// Runs the SELECT of the schema version in `portal_head`, whatever has this name. Fails with
/// `SqlInputError` only if the query does not compile under the schema; then nothing changed.
pub fn select_schema_version<S: Alter>(conn: &mut Connection<S>) -> Result<Vec<Row>, Error>
    ensures answers { HasCleanDisk (state S.Store conn.new)
        → IfOk result (λ rows. QueryAnswers (state S.Store conn.old).now rows.items
        × IsUnchanged (state S.Store conn.old) (state S.Store conn.new)) }
    ensures is_no_query { HasCleanDisk (state S.Store conn.new)
        → IfErr result (λ e. (fault : CompileError) → e ≡ SqlInputError fault
        → IsNoQuery (state S.Store conn.old).now.schema
        × IsUnchanged (state S.Store conn.old) (state S.Store conn.new)) }
    ensures mode { (state S.Store conn.old).in_transaction ≡ false
        → (state S.Store conn.new).in_transaction ≡ false }
    ensures undone { HasCleanDisk (state S.Store conn.new) → (state S.Store conn.old).in_transaction ≡ false
        → (state S.Store conn.old).now ≡ (state S.Store conn.old).committed
        → OnErr result (IsUndone (state S.Store conn.old) (state S.Store conn.new)) }
    ensures crash { Survives (state S.Store conn.old) (state S.Store conn.new) (λ _. ⊥) }
{
    conn.query_all(SELECT_SCHEMA_VERSION, &[])
}

/// Returns the schema version in these rows: the integer from 1 on in the first column, if there is
/// exactly one row, or `None`.
pub fn schema_version_in(rows: &[Row]) -> Option<u64>
    ensures one { IfSome result (IsOneRow rows.now) }
    ensures none { IfNone result ((schema_version : ℕ) → ¬ IsOneRow rows.now schema_version) }
{
    let [row] = rows else {
        return None;
    };
    match row.get_ref(0) {
        Ok(ValueRef::Int(schema_version)) if schema_version >= 1 => Some(schema_version as u64),
        _ => None,
    }
}
