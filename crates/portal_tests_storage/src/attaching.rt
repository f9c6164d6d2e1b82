//! A connection that cannot be attached, and one that is attached after attempts that ran out of memory.
use crate::sql::dump_database;
use crate::versions::{FIRST, ROWS};
use portal_tables::attaching::Refused;
use portal_tables::errors::OpenFault;
use portal_tables::tables::Tables;
use sqlite::{Alter, Connection, MemStore};
use std::alloc::Global;
use std::test::Fail;

/// Returns why a connection cannot be attached, and the connection. Fails if it is attached.
fn expect_refusal<S: Alter + Drop>(
    conn: Connection<S>,
) -> Result<(OpenFault, Connection<S>), Fail> {
    match Tables::adopt(conn) {
        Ok(tables) => {
            drop(tables.release());
            Err("adopted".into())
        }
        Err(Refused { fault, connection }) => Ok((fault, connection)),
    }
}

/// A connection inside a transaction is handed back as it is.
#[test]
fn connection_inside_transaction(rt: HostRuntime) -> Result<(), Fail> {
    let mut conn = Connection::open_in_memory(rt.alloc())?;
    conn.execute_batch("BEGIN")?;
    let (fault, conn) = expect_refusal(conn)?;
    assert!(rt; fault == OpenFault::Store && !conn.is_autocommit());
    drop(conn);
    Ok(())
}

/// How often a call is tried that may run out of memory.
const TRIES: usize = 4;

/// Attaches a connection, again after each attempt that ran out of memory. Returns the connection, and how
/// often it was handed back before.
fn attach_with_retries<S: Alter + Drop>(
    conn: Connection<S>,
) -> Result<(Connection<S>, usize), OpenFault> {
    let mut conn = conn;
    for count in 0..TRIES {
        match Tables::adopt(conn) {
            Ok(tables) => return Ok((tables.release(), count)),
            Err(Refused { fault, connection }) => {
                if fault != OpenFault::Memory {
                    drop(connection);
                    return Err(fault);
                }
                conn = connection;
            }
        }
    }
    drop(conn);
    Err(OpenFault::Memory)
}

/// Makes a new database of schema version 1 in memory. None if out of memory.
fn new_first_version(alloc: Global) -> Option<Connection<MemStore>> {
    let mut conn = Connection::open_in_memory(alloc).ok()?;
    conn.execute_batch(FIRST).ok()?;
    conn.execute_batch(ROWS).ok()?;
    Some(conn)
}

/// Attaches such a database. Returns how often it was handed back before, and all that is in it then.
fn attach_first_version(alloc: Global) -> Option<(usize, String)> {
    let (mut conn, count) = attach_with_retries(new_first_version(alloc)?).ok()?;
    let whole = dump_database(alloc, &mut conn)?;
    drop(conn);
    Some((count, whole))
}

/// Attaches such databases until one succeeds. Returns how often that one was handed back, how many were
/// given up before, and all that is in it.
fn attach_until_done(alloc: Global) -> Option<(usize, usize, String)> {
    for given_up in 0..TRIES {
        if let Some((count, whole)) = attach_first_version(alloc) {
            return Some((count, given_up, whole));
        }
    }
    None
}

/// A connection that is handed back after an attempt that ran out of memory is attached at a later one, and
/// the database is then the same as without such an attempt. tests/memory/adopting.py makes allocations of
/// one attempt and of the next fail; it reads the line that is printed.
#[test]
fn attached_after_out_of_memory(rt: HostRuntime) -> Result<(), Fail> {
    let (count, given_up, whole) = attach_until_done(rt.alloc()).ok_or("none is adopted")?;
    println!(rt; "handed back {count}, given up {given_up}")?;
    let (_, _, right) = attach_until_done(rt.alloc()).ok_or("none is adopted")?;
    assert_eq!(rt; whole.as_str(), right.as_str());
    Ok(())
}
