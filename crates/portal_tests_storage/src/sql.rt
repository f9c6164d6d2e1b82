//! SQL beside the desk, and all that a database holds.
use sqlite::{Alter, Connection};
use std::alloc::Global;
use std::test::Fail;

/// Executes the statements of each text.
pub fn execute_all<S: Alter>(conn: &mut Connection<S>, texts: &[&str]) -> Result<(), Fail> {
    for text in texts {
        conn.execute_batch(text)?;
    }
    Ok(())
}

/// Appends each row of the query's result to the text.
fn write_rows<S: Alter>(conn: &mut Connection<S>, sql: &str, whole: &mut String) -> Option<()> {
    for row in conn.query_all(sql, &[]).ok()? {
        writeln!(whole, "{row:?}").ok()?;
    }
    Some(())
}

/// Returns the names of the tables of a database, in order.
fn table_names<S: Alter>(alloc: Global, conn: &mut Connection<S>) -> Option<Vec<String>> {
    let mut names = Vec::new(alloc);
    let sql = "SELECT name FROM sqlite_master WHERE type = 'table' ORDER BY name";
    for row in conn.query_all(sql, &[]).ok()? {
        names.push(row.get(0).ok()?).ok()?;
    }
    Some(names)
}

/// Returns all that a database holds: the statements that made its tables, indexes and views, and each row of
/// each table. None if it cannot be read, or if out of memory.
pub fn dump_database<S: Alter>(alloc: Global, conn: &mut Connection<S>) -> Option<String> {
    let mut whole = String::new(alloc);
    write_rows(
        conn,
        "SELECT type, name, sql FROM sqlite_master ORDER BY name",
        &mut whole,
    )?;
    for table in table_names(alloc, conn)? {
        let sql = format!(in alloc; "SELECT * FROM {table} ORDER BY 1").ok()?;
        writeln!(whole, "{table}").ok()?;
        write_rows(conn, sql.as_str(), &mut whole)?;
    }
    Some(whole)
}
