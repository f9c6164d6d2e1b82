//! Copies the log of a database file into it before the two are opened, so that they are opened once.
ghost use Rattle.std.specs.Prelude.{
  ◌≡◌,
  ◌⊎◌,
  ◌≤◌,
  length,
  IsSome,
  IsTrue,
  IfErr,
  IfOk,
  IfSome,
  OnOk,
  Some,
};
ghost use Rattle.sqlite_wal.specs.Files.{outcomes};
ghost use Rattle.sqlite_wal.specs.Format.{be32};
ghost use Rattle.sqlite_wal.specs.Log.{AreUsable, SameParts, StaysOpen, image, logged, state};
ghost use Rattle.sqlite_wal.specs.PageSize.{bytes_of, size_in_file};
ghost use Rattle.sqlite_wal.specs.Reads.{AreClean, OnlyReads};
ghost use Rattle.sqlite_wal.specs.Recovery.{Image, IsUnreadable, KeepsImage};
ghost use Rattle.sqlite.specs.Files.{image_of};
ghost use Rattle.portal_os.specs.Copying.{BeginsPlain, IsNamedPlain, KeepsDatabase, StandsFor};

use crate::alone::LOG_WITH_FRAME;
use crate::opening_error::OpeningError;
use sqlite::ErrorCode;
use sqlite_disk::{Disk, Files};
use sqlite_wal::{Error, Log, PageSize, probe_first_page, probe_page_size};
use std::alloc::Global;

/// Bytes 20 to 23 of a database file whose pages end in no checksums.
const NO_SUMS: u32 = 0x0040_2020;

/// Finds the page size of a database file whose log is to be copied before the two are opened: the log is
/// long enough for a commit, and the first page begins a database whose pages end in no checksums. What
/// cannot be read is left to the opening.
fn size_to_copy<D: Disk>(alloc: Global, files: &mut Files<D>) -> Option<PageSize>
    requires log { IsTrue (D.Disk.is_usable files.old.log) }
    requires db { IsTrue (D.Disk.is_usable files.old.db) }
    ensures named { IfSome result (λ size. AreClean D.Disk files.new.log files.new.db
        → IsNamedPlain (bytes_of size) (image_of D.Disk files.old)) }
    ensures log { OnlyReads D.Disk files.old.log files.new.log }
    ensures db { OnlyReads D.Disk files.old.db files.new.db }
{
    let Ok(len) = files.log.len() else {
        return None;
    };
    if len < LOG_WITH_FRAME {
        return None;
    }
    let Ok(Some(size)) = probe_page_size(files) else {
        return None;
    };
    match probe_first_page(alloc, files, size) {
        Ok((first, word)) => {
            if first == b'S' && word == NO_SUMS {
                Some(size)
            } else {
                None
            }
        }
        Err(_) => None,
    }
}

/// Returns the size of pages that the first page of a database names.
fn named_size(page: &[u8]) -> usize
    requires { 512 ≤ length page.now }
    ensures { result ≡ size_in_file page.now }
{
    let named = page[16] as usize * 256 + page[17] as usize;
    if named == 1 { 65536 } else { named }
}

/// Checks whether the first page of a database says that its pages end in no checksums.
#[tactic(auto, unfolding(sqlite_wal::specs::Format::be32))]
fn has_no_sums(page: &[u8]) -> bool
    requires { 512 ≤ length page.now }
    ensures { IsTrue result → be32 page.now 20 ≡ 0x0040_2020 }
{
    page[20] == 0x00 && page[21] == 0x40 && page[22] == 0x20 && page[23] == 0x20
}

/// Checks whether a page is the first of a database with pages of its length that end in no checksums.
fn begins_plain(page: &[u8]) -> bool
    requires { 512 ≤ length page.now }
    ensures { IsTrue result → BeginsPlain (length page.now) page.now }
{
    page[0] == b'S' && named_size(page) == page.len() && has_no_sums(page)
}

/// Reads the first page, and checks that it begins a database whose pages have its length and end in no
/// checksums.
fn read_first_page<D: Disk>(log: &mut Log<D>, page: &mut [u8]) -> Result<(), Error>
    requires ready { IsTrue (state log.old).is_ready }
    requires some { IsTrue (state log.old).is_clean → IsSome (logged log.old 1) }
    requires page { length page.old ≡ (state log.old).page_size }
    ensures read { OnOk result (IsTrue (state log.new).is_clean → logged log.old 1 ≡ Some page.new) }
    ensures begins { OnOk result (BeginsPlain (state log.old).page_size page.new) }
    ensures parts { SameParts log.old log.new }
    ensures same { StaysOpen log.old log.new }
{
    if log.page_count() == 0 {
        return Err(Error::Corrupt);
    }
    log.read(1, page)?;
    if begins_plain(page) {
        Ok(())
    } else {
        Err(Error::Corrupt)
    }
}

/// Recovers a log and copies it into its database file, so that the two stand for what they stood for, as
/// they are and after a crash. A crash on the way, or after an error, leaves what it left before or what
/// stands for the same pages; and what it left before, if the two stood for no pages.
fn recover_and_copy<D: Disk>(log: &mut Log<D>, page: &mut [u8]) -> Result<(), Error>
    requires usable { AreUsable log.old }
    requires page { length page.old ≡ (state log.old).page_size }
    ensures ready { OnOk result (IsTrue (state log.new).is_ready) }
    ensures seen { OnOk result (IsTrue (state log.new).is_clean → StandsFor (image log.old) (image log.new)) }
    ensures left { OnOk result (
        (left : Image) → (state log.new).may_leave left → StandsFor (image log.old) left) }
    ensures honest { IsTrue (state log.new).is_clean → IsTrue (state log.old).is_clean }
    ensures kept { KeepsImage (state log.old).page_size (image log.old) (state log.old).may_leave
        (state log.new).may_leave }
    ensures still { IsUnreadable (state log.old).page_size (image log.old)
        → (left : Image) → (state log.new).may_leave left → (state log.old).may_leave left }
{
    log.recover()?;
    read_first_page(log, page)?;
    log.finish()?;
    Ok(())
}

/// Copies the log of two files with pages of this size, as `copy_unopened` does.
fn copy_with_size<D: Disk + Drop>(
    alloc: Global,
    files: Files<D>,
    size: PageSize,
    seed: u64,
) -> Result<Files<D>, (Error, Files<D>)>
    requires log { IsTrue (D.Disk.is_usable files.log) }
    requires db { IsTrue (D.Disk.is_usable files.db) }
    requires named { AreClean D.Disk files.log files.db
        → IsNamedPlain (bytes_of size) (image_of D.Disk files) }
    ensures log { IfOk result (λ copied. IsTrue (D.Disk.is_usable copied.log)) }
    ensures db { IfOk result (λ copied. IsTrue (D.Disk.is_usable copied.db)) }
    ensures clean { IfOk result (λ copied.
        AreClean D.Disk copied.log copied.db → AreClean D.Disk files.log files.db) }
    ensures seen { IfOk result (λ copied.
        AreClean D.Disk copied.log copied.db → StandsFor (image_of D.Disk files) (image_of D.Disk copied)) }
    ensures left { IfOk result (λ copied.
        AreClean D.Disk copied.log copied.db → (left : Image) → outcomes D.Disk copied.log copied.db left
        → StandsFor (image_of D.Disk files) left) }
    ensures kept { IfErr result (λ e.
        AreClean D.Disk e.1.log e.1.db → KeepsDatabase D.Disk files e.1) }
{
    let Ok(mut page) = vec![in alloc; 0; size.bytes()] else {
        return Err((Error::OutOfMemory, files));
    };
    match Log::new(alloc, files, size, seed) {
        Ok(mut log) => match recover_and_copy(&mut log, &mut page) {
            Ok(()) => Ok(log.into_files()),
            Err(error) => Err((error, log.into_files())),
        },
        Err(failed) => Err((Error::OutOfMemory, failed.value)),
    }
}

/// Converts an error of a log that is recovered or copied.
fn error_of_copy(error: Error) -> OpeningError {
    match error {
        Error::Corrupt => OpeningError::Store(sqlite::Error::SqliteFailure(
            ErrorCode::DatabaseCorrupt,
        )),
        other => OpeningError::of_log(other),
    }
}

/// If `copies` is true, copies the log of a database file into it, where that can be done before the two are
/// opened: the log may hold a commit, and the database's pages end in no checksums. Then the files stand for
/// what they stood for, as they are and after a crash. Else they are as they were.
///
/// Errors, with the files: they could not be read or written, or out of memory. A crash then leaves what it
/// left before, or what holds the database that the files held; if they held none yet, what it left before.
pub fn copy_unopened<D: Disk + Drop>(
    alloc: Global,
    mut files: Files<D>,
    seed: u64,
    copies: bool,
) -> Result<Files<D>, (OpeningError, Files<D>)>
    requires log { IsTrue (D.Disk.is_usable files.log) }
    requires db { IsTrue (D.Disk.is_usable files.db) }
    ensures log { IfOk result (λ copied. IsTrue (D.Disk.is_usable copied.log)) }
    ensures db { IfOk result (λ copied. IsTrue (D.Disk.is_usable copied.db)) }
    ensures clean { IfOk result (λ copied.
        AreClean D.Disk copied.log copied.db → AreClean D.Disk files.log files.db) }
    ensures seen { IfOk result (λ copied.
        AreClean D.Disk copied.log copied.db → StandsFor (image_of D.Disk files) (image_of D.Disk copied)) }
    ensures left { IfOk result (λ copied.
        AreClean D.Disk copied.log copied.db → (left : Image) → outcomes D.Disk copied.log copied.db left
        → outcomes D.Disk files.log files.db left ⊎ StandsFor (image_of D.Disk files) left) }
    ensures kept { IfErr result (λ e.
        AreClean D.Disk e.1.log e.1.db → KeepsDatabase D.Disk files e.1) }
{
    if !copies {
        return Ok(files);
    }
    match size_to_copy(alloc, &mut files) {
        Some(size) => match copy_with_size(alloc, files, size, seed) {
            Ok(copied) => Ok(copied),
            Err((error, left)) => Err((error_of_copy(error), left)),
        },
        None => Ok(files),
    }
}
