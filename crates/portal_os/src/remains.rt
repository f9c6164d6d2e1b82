//! What is left of a database file and its log.
use sqlite::{Connection, FileStore};
use sqlite_disk::{Disk, Files};

/// What is left of a database file and its log that were not opened as a desk's, or whose desk was closed. It
/// is handed on to be let go, so what a contract says of it holds until then.
#[derive(Drop)]
pub enum Remains<D: Disk + Drop> {
    /// They could not be opened or locked: nothing is left.
    Nothing,
    /// They were not opened as a database.
    Unopened(Files<D>),
    /// Their database was not attached: the connection to it.
    Refused(Connection<FileStore<D>>),
    /// They were closed.
    Closed(Files<D>),
    /// They could not be closed: the store that still has them.
    Unclosed(FileStore<D>),
}
