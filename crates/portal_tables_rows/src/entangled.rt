//! What of others hangs on the product's tables, so that these cannot be made anew: a table that refers to one
//! of them, or an index on one of them, which would go with it.

ghost use Rattle.std.specs.Prelude.{◌≡◌, find, option_map};
ghost use Rattle.std.specs.List.{list_any};
ghost use Rattle.portal_tables_rows.specs.SchemaVersions.{
  hangs_on_ours,
  is_entangled,
  is_on_ours,
  is_others_index,
  is_own_index,
  names_current_index,
  names_our_index,
  names_ours,
};
ghost use Rattle.portal_tables_rows.specs.SchemaVersions.{refers_to_ours};

use portal_tables_sql::our_indexes::{OLD_INDEX_NAME, OUR_INDEXES};
use portal_tables_sql::our_tables::OUR_TABLES;
use sqlite_schema::names::same_name;
use sqlite_schema::schema::{Index, Schema, Table};

/// Whether one of the product's tables has this name.
fn names_ours(name: &[u8]) -> bool
    ensures { result ≡ names_ours name.now }
{
    OUR_TABLES.iter().any(|table| same_name(name, table.name()))
}

/// Whether one of the table's foreign keys refers to a table of the product's names.
fn refers_to_ours(table: &Table) -> bool
    ensures { result ≡ refers_to_ours table.now }
{
    table
        .references
        .as_slice()
        .iter()
        .any(|reference| names_ours(reference.parent.as_slice()))
}

/// Whether the table is another's, and refers to one of the product's.
pub fn hangs_on_ours(table: &Table) -> bool
    ensures { result ≡ hangs_on_ours table.now }
{
    !names_ours(table.name.as_slice()) && refers_to_ours(table)
}

/// Whether one of the product's indexes, of this schema version, has this name.
fn names_current_index(name: &[u8]) -> bool
    ensures { result ≡ names_current_index name.now }
{
    OUR_INDEXES.iter().any(|ours| same_name(name, ours.name()))
}

/// Whether one of the product's indexes, of all schema versions, has this name.
fn names_our_index(name: &[u8]) -> bool
    ensures { result ≡ names_our_index name.now }
{
    names_current_index(name) || same_name(name, OLD_INDEX_NAME)
}

/// Whether the index is one of the product's, or was made by a clause.
fn is_own_index(index: &Index) -> bool
    ensures { result ≡ is_own_index index.now }
{
    let name = index.name.as_slice();
    names_our_index(name) || name.starts_with(b"sqlite_".as_slice())
}

/// Whether the index is on a table of the product's names.
fn is_on_ours(schema: &Schema, index: &Index) -> bool
    ensures { result ≡ is_on_ours schema.now index.now }
{
    schema.tables.as_slice().iter().any(|table| table.tree == index.table
        && names_ours(table.name.as_slice()))
}

/// Whether the index is another's, and on one of the product's tables.
pub fn is_others_index(schema: &Schema, index: &Index) -> bool
    ensures { result ≡ is_others_index schema.now index.now }
{
    !is_own_index(index) && is_on_ours(schema, index)
}

/// Whether a table of others hangs on one of the product's.
fn has_table_on_ours(schema: &Schema) -> bool
    ensures { result ≡ list_any hangs_on_ours schema.now.tables }
{
    schema
        .tables
        .as_slice()
        .iter()
        .any(|table| hangs_on_ours(table))
}

/// Whether an index of others is on one of the product's tables.
fn has_index_on_ours(schema: &Schema) -> bool
    ensures { result ≡ list_any (is_others_index schema.now) schema.now.indexes }
{
    schema
        .indexes
        .as_slice()
        .iter()
        .any(|index| is_others_index(schema, index))
}

/// Whether a table of others hangs on one of the product's, or an index of others is on one.
pub fn is_entangled(schema: &Schema) -> bool
    ensures { result ≡ is_entangled schema.now }
{
    has_table_on_ours(schema) || has_index_on_ours(schema)
}

/// Finds a table of others that hangs on one of the product's.
pub fn find_table_on_ours(schema: &Schema) -> Option<&Table>
    ensures { option_map (λ t. t.now) result ≡ find hangs_on_ours schema.now.tables }
{
    schema
        .tables
        .as_slice()
        .iter()
        .find(|table| hangs_on_ours(table))
}

/// Finds an index of others on one of the product's tables.
pub fn find_index_on_ours(schema: &Schema) -> Option<&Index>
    ensures { option_map (λ i. i.now) result ≡ find (is_others_index schema.now) schema.now.indexes }
{
    schema
        .indexes
        .as_slice()
        .iter()
        .find(|index| is_others_index(schema, index))
}
