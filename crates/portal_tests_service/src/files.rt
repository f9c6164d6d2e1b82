//! The two files of a database, in memory: their bytes, and where they crash.
use sqlite::Files;
use sqlite_disk::{Crash, Disk, Fuse, Memory};
use std::alloc::Global;
use std::test::Fail;

/// Which of the two files crashes.
#[derive(Clone, Copy, Debug)]
pub enum Part {
    Log,
    Database,
}

/// A crash: the file answers so many calls, and none after them.
#[derive(Clone, Copy, Debug)]
pub struct CrashPoint {
    pub part: Part,
    pub calls: u64,
}

/// The process ends after all calls: the commands are in the log alone.
pub const AT_END: CrashPoint = CrashPoint {
    part: Part::Log,
    calls: u64::MAX,
};

/// A file in memory that may crash after a number of calls.
pub type FileDisk = Fuse<Memory>;

/// The bytes of both files.
#[derive(Drop)]
pub struct Image {
    log: Vec<u8>,
    db: Vec<u8>,
}

/// Makes a file in memory with these bytes, all of them synced, which crashes after so many calls.
fn new_file(alloc: Global, bytes: &[u8], calls: u64) -> Result<FileDisk, Fail> {
    let mut file = Memory::new(alloc);
    file.write_at(0, bytes)?;
    file.sync()?;
    Ok(Fuse::new(file, calls))
}

impl Image {
    /// Makes the image of two empty files.
    pub fn new(alloc: Global) -> Image {
        Image {
            log: Vec::new(alloc),
            db: Vec::new(alloc),
        }
    }

    /// Returns the image of these files.
    pub fn of(alloc: Global, files: &Files<FileDisk>) -> Result<Image, Fail> {
        Ok(Image {
            log: Vec::from_slice(alloc, files.log.inner().bytes())?,
            db: Vec::from_slice(alloc, files.db.inner().bytes())?,
        })
    }

    /// Compares the bytes of both files.
    pub fn is(&self, other: &Image) -> bool {
        self.log.as_slice() == other.log.as_slice() && self.db.as_slice() == other.db.as_slice()
    }

    /// Copies the image.
    pub fn copy(&self) -> Result<Image, Fail> {
        Ok(Image {
            log: self.log.clone()?,
            db: self.db.clone()?,
        })
    }

    /// Returns the image of the same database file with an empty log.
    pub fn without_log(&self, alloc: Global) -> Result<Image, Fail> {
        Ok(Image {
            log: Vec::new(alloc),
            db: self.db.clone()?,
        })
    }

    /// Makes files with these bytes, which never crash.
    pub fn files(&self, alloc: Global) -> Result<Files<FileDisk>, Fail> {
        self.files_up_to(alloc, u64::MAX, u64::MAX)
    }

    /// Makes files with these bytes, which crash at this point.
    pub fn crashing_files(
        &self,
        alloc: Global,
        limit: CrashPoint,
    ) -> Result<Files<FileDisk>, Fail> {
        match limit.part {
            Part::Log => self.files_up_to(alloc, limit.calls, u64::MAX),
            Part::Database => self.files_up_to(alloc, u64::MAX, limit.calls),
        }
    }

    /// Makes files with these bytes, each of which crashes after so many calls.
    fn files_up_to(&self, alloc: Global, log: u64, db: u64) -> Result<Files<FileDisk>, Fail> {
        Ok(Files {
            log: new_file(alloc, &self.log, log)?,
            db: new_file(alloc, &self.db, db)?,
        })
    }
}

/// Checks whether the files answer a further call. After a call that failed they do not.
pub fn answer(files: &mut Files<FileDisk>) -> bool {
    files.may_be_used() && files.log.len().is_ok() && files.db.len().is_ok()
}

/// Returns what is left of files if the process ends, and if the power fails: then writes that were not
/// synced are lost.
pub fn crash_images(alloc: Global, files: Files<FileDisk>) -> Result<(Image, Image), Fail> {
    let ended = Image::of(alloc, &files)?;
    let Files { mut log, mut db } = files;
    log.crash();
    db.crash();
    let failed = Image::of(alloc, &Files { log, db })?;
    Ok((ended, failed))
}
