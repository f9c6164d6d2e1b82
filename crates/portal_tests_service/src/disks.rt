//! A database in files in memory, which are closed after each job, or which crash.
//!
//! They are opened as the program opens them. Only the functions of this file name a connection over files.
use crate::files::{CrashPoint, Image, answer, crash_images};
use crate::jobs::{Job, JobResult, run};
use portal_os::open_database_files;
use sqlite::{Files, Options};
use sqlite_disk::Disk;
use std::alloc::Global;
use std::test::Fail;

/// What is left of files that crashed: the result of the job, whether the files were closed, whether they
/// still answer, and their bytes if the process ends and if the power fails. If the power fails, writes that
/// were not synced are lost.
#[derive(Drop)]
pub struct CrashResult {
    pub told: JobResult,
    pub is_closed: bool,
    pub answers: bool,
    pub ended: Image,
    pub failed: Image,
}

/// A database in files in memory.
#[derive(Drop)]
pub struct InFiles {
    alloc: Global,
    image: Image,
}

/// Opens the database for the job's purpose, runs the job and closes the database. Returns the result of the job, whether the
/// database was closed, and the files.
fn open<D: Disk + Drop>(
    alloc: Global,
    files: Files<D>,
    job: Job<'_>,
) -> Result<(JobResult, bool, Files<D>), Fail> {
    if !files.may_be_used() {
        return Err("the files may not be used".into());
    }
    match open_database_files(alloc, files, Options::new(1), job.purpose()) {
        Ok(conn) => match run(alloc, conn, job)? {
            (told, Ok(files)) => Ok((told, true, files)),
            (told, Err((_, store))) => Ok((told, false, store.close())),
        },
        Err((_, left)) => Ok((JobResult::Unopened, false, left.into_files())),
    }
}

impl InFiles {
    /// Makes two empty files.
    pub fn new(alloc: Global) -> InFiles {
        InFiles {
            alloc,
            image: Image::new(alloc),
        }
    }

    /// Makes files with these bytes.
    pub fn of(alloc: Global, image: &Image) -> Result<InFiles, Fail> {
        Ok(InFiles {
            alloc,
            image: image.copy()?,
        })
    }

    /// Returns the bytes of the files.
    pub fn image(&self) -> Result<Image, Fail> {
        self.image.copy()
    }

    /// Runs the job on the database, and keeps the files. Fails if they cannot be closed.
    pub fn run_job(&mut self, job: Job<'_>) -> Result<JobResult, Fail> {
        let files = self.image.files(self.alloc)?;
        let (told, is_closed, files) = open(self.alloc, files, job)?;
        if !is_closed {
            return Err("the files are not closed".into());
        }
        self.image = Image::of(self.alloc, &files)?;
        Ok(told)
    }

    /// Runs the job on a copy of the files that crashes at this point. These files stay as they are.
    pub fn run_and_crash(&self, job: Job<'_>, limit: CrashPoint) -> Result<CrashResult, Fail> {
        let files = self.image.crashing_files(self.alloc, limit)?;
        let (told, is_closed, mut files) = open(self.alloc, files, job)?;
        let answers = answer(&mut files);
        let (ended, failed) = crash_images(self.alloc, files)?;
        Ok(CrashResult {
            told,
            is_closed,
            answers,
            ended,
            failed,
        })
    }
}
