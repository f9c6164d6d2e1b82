//! Tests of a schema before tables are added to it: the actions of its foreign keys, AUTOINCREMENT, and
//! the names of its tables.

ghost use Rattle.std.specs.Prelude.{◌≡◌, is_some};
ghost use Rattle.std.specs.List.{list_all};
ghost use Rattle.sqlite_schema.specs.Names.{table_named};
ghost use Rattle.sqlite.specs.Rows.{sequence};
ghost use Rattle.portal_tables_sql.specs.Harmless.{
  has_no_action,
  is_harmless,
  are_harmless,
  any_autoincrement,
};

use sqlite_schema::names::same_name;
use sqlite_schema::schema::{Action, Reference, Schema, Table};

/// Whether a foreign key's action is NO ACTION.
fn is_no_action(action: Action) -> bool
    ensures { result ≡ has_no_action action }
{
    match action {
        Action::NoAction => true,
        Action::Restrict => false,
        Action::Cascade => false,
        Action::SetNull => false,
        Action::SetDefault => false,
    }
}

/// Whether a foreign key does nothing to a table of this name: both its actions are NO ACTION, or it
/// refers to another table.
fn is_harmless_to(reference: &Reference, name: &[u8]) -> bool
    ensures { result ≡ is_harmless name.now reference.now }
{
    (is_no_action(reference.on_delete) && is_no_action(reference.on_update))
        || !same_name(name, reference.parent.as_slice())
}

/// Whether every foreign key of `table` does nothing to a table of this name.
fn are_keys_harmless_to(table: &Table, name: &[u8]) -> bool
    ensures { result ≡ list_all (is_harmless name.now) table.now.references }
{
    table
        .references
        .as_slice()
        .iter()
        .all(|reference| is_harmless_to(reference, name))
}

/// Whether no foreign key of the schema acts on a table of this name (ON DELETE or ON UPDATE).
pub fn has_no_action_on(schema: &Schema, name: &[u8]) -> bool
    ensures { result ≡ are_harmless name.now schema.now }
{
    schema
        .tables
        .as_slice()
        .iter()
        .all(|table| are_keys_harmless_to(table, name))
}

/// Whether a table of the schema has an AUTOINCREMENT key.
pub fn has_autoincrement(schema: &Schema) -> bool
    ensures { result ≡ any_autoincrement schema.now }
{
    schema
        .tables
        .as_slice()
        .iter()
        .any(|table| table.is_counted)
}

/// Whether the schema has the table `sqlite_sequence`, in which SQLite keeps the last AUTOINCREMENT
/// keys.
pub fn has_sequence(schema: &Schema) -> bool
    ensures { result ≡ is_some (sequence schema.now) }
{
    match schema.table_named(b"sqlite_sequence") {
        Some(at) => schema.tables.as_slice().get(at).is_some(),
        None => false,
    }
}

/// Whether the schema has a table of this name.
pub fn has_table(schema: &Schema, name: &[u8]) -> bool
    ensures { result ≡ is_some (table_named schema.now name.now) }
{
    schema.table_named(name).is_some()
}
