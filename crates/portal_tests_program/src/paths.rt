//! A database file of the machine, by its path.
use portal_commands::place::Purpose;
use portal_os::{OpeningError, open_store};
use portal_tables::opening::open_path;
use sqlite::Unknown;
use std::fs;
use std::test::Fail;

/// A path that this test alone uses, and that of the log beside it.
const PATH: &str = "file_at_the_path.db";

const LOG: &str = "file_at_the_path.db-wal";

/// A path in a folder that does not exist.
const NOWHERE: &str = "no_folder/file_at_the_path.db";

/// Opens the file at a path, creates a table there, and closes the file. Returns whether that succeeded.
fn can_create_table(rt: &HostRuntime, path: &str) -> bool {
    match open_path(rt, path, Unknown) {
        Ok(opened) => {
            let mut conn = opened;
            let is_made = conn.execute_batch("CREATE TABLE t (a INTEGER)").is_ok();
            conn.close().is_ok() && is_made
        }
        Err((_, left)) => {
            drop(left);
            false
        }
    }
}

/// The file that is opened is the one at the path, which is made if it is missing.
#[test]
fn opens_file_at_path(rt: HostRuntime) -> Result<(), Fail> {
    let is_made_nowhere = can_create_table(&rt, NOWHERE);
    let is_made_there = can_create_table(&rt, PATH);
    let bytes = fs::read(&rt, PATH);
    let _ = fs::remove_file(&rt, PATH);
    let _ = fs::remove_file(&rt, LOG);
    assert!(rt; !is_made_nowhere && is_made_there);
    assert!(rt; bytes?.as_slice().starts_with(b"SQLite format 3\0"));
    Ok(())
}

/// Paths that the second test alone uses, and those of the logs beside them.
const MISSING: &str = "asked_where_nothing_is.db";

const MISSING_LOG: &str = "asked_where_nothing_is.db-wal";

const EMPTY: &str = "asked_of_an_empty_file.db";

const EMPTY_LOG: &str = "asked_of_an_empty_file.db-wal";

/// Opens the database at a path to ask, and returns whether it was refused since there is none.
fn has_no_database(rt: &HostRuntime, path: &str) -> bool {
    match open_store(rt, path, Unknown, Purpose::Ask) {
        Err((error, _)) => matches!(error, OpeningError::NoDatabase),
        Ok(conn) => {
            drop(conn);
            false
        }
    }
}

/// To ask, nothing is made at a path where there is no file, an empty file, or an empty file and an empty
/// log.
#[test]
fn asking_makes_nothing(rt: HostRuntime) -> Result<(), Fail> {
    let is_refused = has_no_database(&rt, MISSING) && has_no_database(&rt, NOWHERE);
    assert!(rt; is_refused && !fs::exists(&rt, MISSING)? && !fs::exists(&rt, MISSING_LOG)?);
    fs::write(&rt, EMPTY, b"".as_slice())?;
    let is_refused = has_no_database(&rt, EMPTY);
    let has_log = fs::exists(&rt, EMPTY_LOG)?;
    fs::write(&rt, EMPTY_LOG, b"".as_slice())?;
    let is_refused_again = has_no_database(&rt, EMPTY);
    let (db, log) = (
        fs::metadata(&rt, EMPTY)?.len(),
        fs::metadata(&rt, EMPTY_LOG)?.len(),
    );
    fs::remove_file(&rt, EMPTY)?;
    fs::remove_file(&rt, EMPTY_LOG)?;
    assert!(rt; is_refused && !has_log);
    assert!(rt; is_refused_again && db == 0 && log == 0);
    Ok(())
}
