//! Words for what of others keeps a database from being attached.

ghost use Rattle.std.specs.Prelude.{◌≡◌};
ghost use Rattle.portal_commands.specs.Troubles.{NamesPath};

use portal_commands::trouble::Trouble;
use portal_server::ProgramError;
use portal_tables_rows::entangled::{find_index_on_ours, find_table_on_ours};
use sqlite_schema::schema::Schema;
use std::alloc::{AllocError, Global};

/// Says what the thing of this name does. None if the name is no UTF-8.
fn text_about(
    alloc: Global,
    what: &str,
    name: &[u8],
    does: &str,
) -> Result<Option<String>, AllocError> {
    match str::from_utf8(name) {
        Ok(name) => Ok(Some(format!(in alloc; "{what} {name} {does}")?)),
        Err(_) => Ok(None),
    }
}

/// Names the table of others that refers to a table of the product, or the index of others that is on one.
/// None if there is neither.
fn obstacle_text(alloc: Global, schema: &Schema) -> Result<Option<String>, AllocError> {
    if let Some(table) = find_table_on_ours(schema) {
        return text_about(
            alloc,
            "the table",
            table.name.as_slice(),
            "refers to a table of portal",
        );
    }
    match find_index_on_ours(schema) {
        Some(index) => text_about(
            alloc,
            "the index",
            index.name.as_slice(),
            "is on a table of portal",
        ),
        None => Ok(None),
    }
}

/// Makes the trouble of the database at a path that was not attached. For `file`, the second line names what of
/// others hangs on the product's tables, if something does.
pub fn unattached(alloc: Global, path: &str, error: ProgramError, schema: &Schema) -> Trouble
    ensures error { result.error ≡ error }
    ensures at { NamesPath path.now result }
{
    match error {
        ProgramError::File => match obstacle_text(alloc, schema) {
            Ok(Some(text)) => Trouble::of_file(alloc, path, text.as_str()),
            Ok(None) | Err(_) => Trouble::plain(ProgramError::File),
        },
        other => Trouble::plain(other),
    }
}
