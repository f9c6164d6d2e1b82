//! How many pages of a database file are kept in memory.
ghost use Rattle.std.specs.Prelude.{◌≡◌, length, IsTrue, IfOk};
ghost use Rattle.sqlite_wal.specs.Reads.{AreClean, IsClean, OnlyReads};
ghost use Rattle.portal_os.specs.Opening.{kept_pages};

use crate::opening_error::OpeningError;
use sqlite::Options;
use sqlite_disk::{Disk, Files};
use std::io;

/// The length of a page of a new database file.
const PAGE_LEN: usize = 4096;

/// The least number of pages that a connection keeps in memory: 1 MiB.
const LEAST_KEPT_PAGES: usize = 256;

/// The greatest number of pages that a connection keeps in memory: 16 MiB.
const MOST_KEPT_PAGES: usize = 4096;

/// Counts the pages of a database file that are kept in memory: as many as it has, or the least or the greatest
/// number of them. Each takes 4 KiB as long as the connection is open.
fn count_kept_pages<D: Disk>(db: &mut D) -> io::Result<usize>
    requires { IsTrue (D.Disk.is_usable db.old) }
    ensures value { IfOk result (λ pages.
        IsClean D.Disk db.new → pages ≡ kept_pages (length (D.Disk.seen db.old))) }
    ensures same { OnlyReads D.Disk db.old db.new }
{
    let len = db.len()?;
    Ok((len / PAGE_LEN).max(LEAST_KEPT_PAGES).min(MOST_KEPT_PAGES))
}

/// Sets the number of pages that a connection to a database file keeps in memory, by the file's length.
pub fn with_kept_pages<D: Disk>(
    files: &mut Files<D>,
    options: Options,
) -> Result<Options, OpeningError>
    requires log { IsTrue (D.Disk.is_usable files.old.log) }
    requires db { IsTrue (D.Disk.is_usable files.old.db) }
    ensures value { IfOk result (λ sized. AreClean D.Disk files.new.log files.new.db
        → sized.cache_pages ≡ kept_pages (length (D.Disk.seen files.old.db))) }
    ensures log { OnlyReads D.Disk files.old.log files.new.log }
    ensures db { OnlyReads D.Disk files.old.db files.new.db }
{
    match count_kept_pages(&mut files.db) {
        Ok(cache_pages) => Ok(Options {
            cache_pages,
            ..options
        }),
        Err(error) => Err(OpeningError::of_io(error)),
    }
}
