//! Crashes at each call of the files: during a day at the counter, and during the opening of databases of
//! each schema version, from the opening of the files, which is the program's, to their closing. The files are
//! opened again, also with a further crash, and the day goes on: they hold the requests that were accepted, or
//! one more, whole. If the files were closed, the database file alone holds that.
use crate::disks::{CrashResult, InFiles};
use crate::files::{AT_END, CrashPoint, Image, Part};
use crate::jobs::{Job, JobResult};
use portal_tables::errors::OpenFault;
use portal_tests_desks::day::{COMMANDS, SentRequest, build_questions, build_requests};
use portal_tests_storage::versions::{
    COUNTERS, FIFTH, FIRST, FOURTH, REQUEST, ROWS, SECOND, THIRD,
};
use std::alloc::Global;
use std::process::Abort;
use std::test::Fail;

/// Returns all that the database in these files holds.
fn contents_of_image(alloc: Global, image: &Image) -> Result<String, Fail> {
    let mut files = InFiles::of(alloc, image)?;
    match files.run_job(Job::Whole)? {
        JobResult::Whole(left) => Ok(left),
        _ => Err("the files are not opened again".into()),
    }
}

/// Sends the requests to the desk over the files, and checks that all are accepted. The files are kept.
fn expect_all_accepted(
    rt: &impl Abort,
    files: &mut InFiles,
    requests: &[SentRequest],
) -> Result<(), Fail> {
    let count = match files.run_job(Job::Send(requests))? {
        JobResult::Accepted(count, false) | JobResult::Otherwise(count) => count,
        _ => return Err("the day does not go on".into()),
    };
    assert_eq!(rt; count, requests.len());
    Ok(())
}

/// What is crashed: an opening of the files, and requests to the desk over them.
#[derive(Drop)]
struct Trial<'a> {
    alloc: Global,
    /// Requests up to the last of those during which crashes happen.
    day: &'a [SentRequest],
    /// How many of them the files hold before.
    from: usize,
    /// Whether the requests have idempotency keys.
    has_keys: bool,
    /// The files at the start.
    start: Image,
    /// All that the database holds before the files are opened, once they are, and after each request.
    states: Vec<String>,
    /// Files that crashes left, and the last of the states that is in them.
    known: Vec<(Image, usize)>,
    /// How many crashes happened in the closing of the files, after all requests were accepted.
    unclosed: usize,
}

/// Makes a trial: runs it once without a crash, and keeps what the database holds after each step.
fn prepare_trial<'a>(
    alloc: Global,
    rt: &impl Abort,
    start: Image,
    day: &'a [SentRequest],
    from: usize,
    has_keys: bool,
) -> Result<Trial<'a>, Fail> {
    let mut states = Vec::new(alloc);
    states.push(contents_of_image(alloc, &start)?)?;
    let mut files = InFiles::of(alloc, &start)?;
    expect_all_accepted(rt, &mut files, &[])?;
    states.push(contents_of_image(alloc, &files.image()?)?)?;
    let requests = day.get(from..).ok_or("past the day")?;
    for request in requests.chunks(1) {
        expect_all_accepted(rt, &mut files, request)?;
        states.push(contents_of_image(alloc, &files.image()?)?)?;
    }
    Ok(Trial {
        alloc,
        day,
        from,
        has_keys,
        start,
        states,
        known: Vec::new(alloc),
        unclosed: 0,
    })
}

/// More calls than a trial makes of a file.
const MANY: u64 = 1024;

/// Further crashes are so many calls apart.
const STRIDE: usize = 8;

impl Trial<'_> {
    /// Returns the index of the last state that these files hold. Fails if they hold none of the states.
    fn state_in(&self, image: &Image) -> Result<usize, Fail> {
        let left = contents_of_image(self.alloc, image)?;
        let mut found = None;
        for (place, state) in self.states.iter().enumerate() {
            if state.as_str() == left.as_str() {
                found = Some(place);
            }
        }
        Ok(found.ok_or("what is left is no part of the day")?)
    }

    /// Checks whether the trial changes what the files hold. If not, the log was copied as they were opened,
    /// and there is nothing to copy as they are closed.
    fn changes_contents(&self) -> bool {
        match self.states.as_slice() {
            [before, .., after] => before.as_str() != after.as_str(),
            _ => false,
        }
    }

    /// Returns the index of the last state that is like the first.
    fn first(&self) -> usize {
        match self.states.as_slice() {
            [before, opened, ..] if before.as_str() == opened.as_str() => 1,
            _ => 0,
        }
    }

    /// Returns the requests during which crashes happen.
    fn requests(&self) -> Result<&[SentRequest], Fail> {
        Ok(self.day.get(self.from..).ok_or("past the day")?)
    }

    /// Sends the rest of the day to files of that state, and checks the end. Requests with idempotency keys
    /// are all sent again.
    fn send_rest(&self, rt: &impl Abort, image: &Image, state: usize) -> Result<(), Fail> {
        let done = if self.has_keys {
            0
        } else {
            self.from.saturating_add(state.saturating_sub(1))
        };
        let rest = self.day.get(done..).ok_or("past the day")?;
        let mut files = InFiles::of(self.alloc, image)?;
        expect_all_accepted(rt, &mut files, rest)?;
        let last = self.states.len().saturating_sub(1);
        assert_eq!(rt; self.state_in(&files.image()?)?, last);
        Ok(())
    }

    /// Crashes an opening of files of that state at this point, opens them again, and checks that they hold
    /// the same. Returns whether the crash happened.
    fn crash_opening(
        &self,
        rt: &impl Abort,
        image: &Image,
        state: usize,
        limit: CrashPoint,
    ) -> Result<bool, Fail> {
        let files = InFiles::of(self.alloc, image)?;
        let CrashResult {
            is_closed,
            ended,
            failed,
            ..
        } = files.run_and_crash(Job::Send(&[]), limit)?;
        for left in [ended, failed] {
            if !left.is(image) {
                let found = self.state_in(&left)?;
                assert_eq!(rt; found, state, "{limit:?}");
            }
        }
        Ok(!is_closed)
    }

    /// Crashes openings of the files at this call of the file, and at each call a stride further, until the
    /// opening ends without a crash.
    fn crash_openings(
        &self,
        rt: &impl Abort,
        image: &Image,
        state: usize,
        first: CrashPoint,
    ) -> Result<(), Fail> {
        for calls in (first.calls..MANY).step_by(STRIDE) {
            if !self.crash_opening(rt, image, state, CrashPoint { calls, ..first })? {
                return Ok(());
            }
        }
        Err("it was never opened".into())
    }

    /// Returns the state of the files, and sends the rest of the day to them. On a day the files are also
    /// opened with a further crash of each file, at every eighth call, beginning at another call for each
    /// image. Images with the same bytes are checked once.
    fn check_image(&mut self, rt: &impl Abort, image: Image) -> Result<usize, Fail> {
        for (seen, state) in &self.known {
            if seen.is(&image) {
                return Ok(*state);
            }
        }
        let state = self.state_in(&image)?;
        self.send_rest(rt, &image, state)?;
        let calls = (self.known.len() % STRIDE) as u64;
        if !self.day.is_empty() {
            for part in [Part::Log, Part::Database] {
                self.crash_openings(rt, &image, state, CrashPoint { part, calls })?;
            }
        }
        self.known.push((image, state))?;
        Ok(state)
    }

    /// Checks that the database file alone holds that state.
    fn is_same_without_log(&self, image: &Image, state: usize) -> Result<bool, Fail> {
        let alone = image.without_log(self.alloc)?;
        Ok(self.state_in(&alone)? == state)
    }

    /// Runs the trial with a crash at this point, and checks what the files then hold. Returns whether the
    /// trial ended without a crash.
    fn crash_at(&mut self, rt: &impl Abort, limit: CrashPoint) -> Result<bool, Fail> {
        let files = InFiles::of(self.alloc, &self.start)?;
        let CrashResult {
            told,
            is_closed,
            answers,
            ended,
            failed,
        } = files.run_and_crash(Job::Send(self.requests()?), limit)?;
        let (least, most, is_done) = match told {
            JobResult::Unopened => (self.first(), self.first(), false),
            JobResult::Unattached(OpenFault::Store) => (self.first(), 1, false),
            JobResult::Accepted(count, is_stopped) => (
                count.saturating_add(1),
                count.saturating_add(if is_stopped { 2 } else { 1 }),
                !is_stopped,
            ),
            _ => return Err("neither stopped nor accepted".into()),
        };
        if is_done && !is_closed {
            self.unclosed = self.unclosed.saturating_add(1);
        }
        for image in [ended, failed] {
            if is_done && is_closed {
                assert!(rt; self.is_same_without_log(&image, most)?, "{limit:?}");
            }
            let state = self.check_image(rt, image)?;
            assert!(rt;
                least <= state && state <= most,
                "{limit:?} {least} {state}"
            );
        }
        assert!(rt; (is_done && is_closed) || !answers, "{limit:?}");
        Ok(answers)
    }

    /// Runs the trial with a crash at each call of the file, from the first on, until it ends without a
    /// crash.
    fn crash_at_each_call(&mut self, rt: &impl Abort, part: Part) -> Result<(), Fail> {
        for calls in 0..MANY {
            if self.crash_at(rt, CrashPoint { part, calls })? {
                let unclosed = self.unclosed;
                let is_stopped_enough = calls > 2 && (unclosed > 2 || !self.changes_contents());
                assert!(rt; is_stopped_enough, "{part:?} {calls} {unclosed}");
                return Ok(());
            }
        }
        Err("it was never done".into())
    }
}

/// The number of requests in one trial.
const GROUP: usize = 5;

/// Builds the commands of the day.
fn build_commands(alloc: Global, has_keys: bool) -> Result<Vec<SentRequest>, Fail> {
    Ok(build_requests(alloc, COMMANDS, has_keys).ok_or("no day")?)
}

/// Crashes a group of the day's commands, after so many commands, at each call of the file. After the whole
/// day the questions are answered as after a day without a crash.
fn crash_group(
    alloc: Global,
    rt: &impl Abort,
    from: usize,
    has_keys: bool,
    part: Part,
) -> Result<(), Fail> {
    let day = build_commands(alloc, has_keys)?;
    let before = day.get(..from).ok_or("past the day")?;
    let group = day.get(..from.saturating_add(GROUP)).ok_or("past the day")?;
    let mut files = InFiles::new(alloc);
    expect_all_accepted(rt, &mut files, before)?;
    let mut trial = prepare_trial(alloc, rt, files.image()?, group, from, has_keys)?;
    trial.crash_at_each_call(rt, part)?;
    expect_all_accepted(rt, &mut files, trial.requests()?)?;
    if group.len() == day.len() {
        let questions = build_questions(alloc).ok_or("no questions")?;
        expect_all_accepted(rt, &mut files, questions.as_slice())?;
    }
    Ok(())
}

/// The first commands of the day, with a crash at each call of the log.
#[test]
fn morning_with_log_crashes(rt: HostRuntime) -> Result<(), Fail> {
    crash_group(rt.alloc(), &rt, 0, false, Part::Log)
}

/// The last commands of the day, with a crash at each call of the log.
#[test]
fn evening_with_log_crashes(rt: HostRuntime) -> Result<(), Fail> {
    crash_group(rt.alloc(), &rt, GROUP, false, Part::Log)
}

/// The first commands of the day, with a crash at each call of the database file.
#[test]
fn morning_with_database_crashes(rt: HostRuntime) -> Result<(), Fail> {
    crash_group(rt.alloc(), &rt, 0, false, Part::Database)
}

/// The last commands of the day, with a crash at each call of the database file.
#[test]
fn evening_with_database_crashes(rt: HostRuntime) -> Result<(), Fail> {
    crash_group(rt.alloc(), &rt, GROUP, false, Part::Database)
}

/// The first commands of the day, with idempotency keys and a crash at each call of the log.
#[test]
fn idempotent_morning_with_log_crashes(rt: HostRuntime) -> Result<(), Fail> {
    crash_group(rt.alloc(), &rt, 0, true, Part::Log)
}

/// The last commands of the day, with idempotency keys and a crash at each call of the log.
#[test]
fn idempotent_evening_with_log_crashes(rt: HostRuntime) -> Result<(), Fail> {
    crash_group(rt.alloc(), &rt, GROUP, true, Part::Log)
}

/// The first commands of the day, with idempotency keys and a crash at each call of the database file.
#[test]
fn idempotent_morning_with_database_crashes(rt: HostRuntime) -> Result<(), Fail> {
    crash_group(rt.alloc(), &rt, 0, true, Part::Database)
}

/// The last commands of the day, with idempotency keys and a crash at each call of the database file.
#[test]
fn idempotent_evening_with_database_crashes(rt: HostRuntime) -> Result<(), Fail> {
    crash_group(rt.alloc(), &rt, GROUP, true, Part::Database)
}

/// Crashes an opening of the files at each call of one of them.
fn crash_opening_of(
    alloc: Global,
    rt: &impl Abort,
    files: &InFiles,
    part: Part,
) -> Result<(), Fail> {
    let mut trial = prepare_trial(alloc, rt, files.image()?, &[], 0, false)?;
    trial.crash_at_each_call(rt, part)
}

/// Crashes an opening of the database that these SQL texts make, at each call of one file.
fn crash_store_opening(
    alloc: Global,
    rt: &impl Abort,
    texts: &[&str],
    part: Part,
) -> Result<(), Fail> {
    let mut files = InFiles::new(alloc);
    drop(files.run_job(Job::Sql(texts))?);
    crash_opening_of(alloc, rt, &files, part)
}

/// The creation of the tables, with a crash at each call of the log.
#[test]
fn new_tables_with_log_crashes(rt: HostRuntime) -> Result<(), Fail> {
    crash_store_opening(rt.alloc(), &rt, &[], Part::Log)
}

/// The creation of the tables, with a crash at each call of the database file.
#[test]
fn new_tables_with_database_crashes(rt: HostRuntime) -> Result<(), Fail> {
    crash_store_opening(rt.alloc(), &rt, &[], Part::Database)
}

const FIRST_STORE: &[&str] = &["BEGIN", FIRST, ROWS, "COMMIT"];

/// The migration of schema version 1, with a crash at each call of the log.
#[test]
fn first_version_with_log_crashes(rt: HostRuntime) -> Result<(), Fail> {
    crash_store_opening(rt.alloc(), &rt, FIRST_STORE, Part::Log)
}

/// The migration of schema version 1, with a crash at each call of the database file.
#[test]
fn first_version_with_database_crashes(rt: HostRuntime) -> Result<(), Fail> {
    crash_store_opening(rt.alloc(), &rt, FIRST_STORE, Part::Database)
}

const SECOND_STORE: &[&str] = &["BEGIN", FIRST, ROWS, SECOND, COUNTERS, "COMMIT"];

/// The migration of schema version 2, with a crash at each call of the log.
#[test]
fn second_version_with_log_crashes(rt: HostRuntime) -> Result<(), Fail> {
    crash_store_opening(rt.alloc(), &rt, SECOND_STORE, Part::Log)
}

/// The migration of schema version 2, with a crash at each call of the database file.
#[test]
fn second_version_with_database_crashes(rt: HostRuntime) -> Result<(), Fail> {
    crash_store_opening(rt.alloc(), &rt, SECOND_STORE, Part::Database)
}

const THIRD_STORE: &[&str] = &[
    "BEGIN", FIRST, ROWS, SECOND, COUNTERS, THIRD, REQUEST, "COMMIT",
];

/// The migration of schema version 3, with a crash at each call of the log.
#[test]
fn third_version_with_log_crashes(rt: HostRuntime) -> Result<(), Fail> {
    crash_store_opening(rt.alloc(), &rt, THIRD_STORE, Part::Log)
}

/// The migration of schema version 3, with a crash at each call of the database file.
#[test]
fn third_version_with_database_crashes(rt: HostRuntime) -> Result<(), Fail> {
    crash_store_opening(rt.alloc(), &rt, THIRD_STORE, Part::Database)
}

const FOURTH_STORE: &[&str] = &[
    "BEGIN", FIRST, ROWS, SECOND, COUNTERS, THIRD, REQUEST, FOURTH, "COMMIT",
];

/// The migration of schema version 4, with a crash at each call of the log.
#[test]
fn fourth_version_with_log_crashes(rt: HostRuntime) -> Result<(), Fail> {
    crash_store_opening(rt.alloc(), &rt, FOURTH_STORE, Part::Log)
}

/// The migration of schema version 4, with a crash at each call of the database file.
#[test]
fn fourth_version_with_database_crashes(rt: HostRuntime) -> Result<(), Fail> {
    crash_store_opening(rt.alloc(), &rt, FOURTH_STORE, Part::Database)
}

const FIFTH_STORE: &[&str] = &["BEGIN", FIFTH, ROWS, COUNTERS, REQUEST, "COMMIT"];

/// The migration of schema version 5, with a crash at each call of the log.
#[test]
fn fifth_version_with_log_crashes(rt: HostRuntime) -> Result<(), Fail> {
    crash_store_opening(rt.alloc(), &rt, FIFTH_STORE, Part::Log)
}

/// The migration of schema version 5, with a crash at each call of the database file.
#[test]
fn fifth_version_with_database_crashes(rt: HostRuntime) -> Result<(), Fail> {
    crash_store_opening(rt.alloc(), &rt, FIFTH_STORE, Part::Database)
}

/// Crashes an opening of a database of this schema version that lacks an index.
fn crash_without_index(alloc: Global, rt: &impl Abort, part: Part) -> Result<(), Fail> {
    let day = build_commands(alloc, false)?;
    let mut files = InFiles::new(alloc);
    expect_all_accepted(rt, &mut files, day.as_slice())?;
    drop(files.run_job(Job::Sql(&["DROP INDEX portal_grants_by_code"]))?);
    crash_opening_of(alloc, rt, &files, part)
}

/// An index that is made again, with a crash at each call of the log.
#[test]
fn index_made_again_with_log_crashes(rt: HostRuntime) -> Result<(), Fail> {
    crash_without_index(rt.alloc(), &rt, Part::Log)
}

/// An index that is made again, with a crash at each call of the database file.
#[test]
fn index_made_again_with_database_crashes(rt: HostRuntime) -> Result<(), Fail> {
    crash_without_index(rt.alloc(), &rt, Part::Database)
}

/// Returns files whose commands are in the log alone, since the process ended before the log was copied.
fn build_full_log(alloc: Global, rt: &impl Abort) -> Result<Image, Fail> {
    let day = build_commands(alloc, false)?;
    let files = InFiles::new(alloc);
    let CrashResult { ended, .. } = files.run_and_crash(Job::SendAndEnd(day.as_slice()), AT_END)?;
    let without = contents_of_image(alloc, &ended.without_log(alloc)?)?;
    assert!(rt; without.as_str() != contents_of_image(alloc, &ended)?.as_str());
    Ok(ended)
}

/// Crashes an opening of files whose commands are in the log alone.
fn crash_log_reading(alloc: Global, rt: &impl Abort, part: Part) -> Result<(), Fail> {
    let image = build_full_log(alloc, rt)?;
    crash_opening_of(alloc, rt, &InFiles::of(alloc, &image)?, part)
}

/// Crashes an opening of such files to ask, at each call of the file. What is left holds the same.
fn crash_asking(alloc: Global, rt: &impl Abort, part: Part) -> Result<(), Fail> {
    let image = build_full_log(alloc, rt)?;
    let held = contents_of_image(alloc, &image)?;
    for calls in 0..MANY {
        let CrashResult {
            is_closed,
            ended,
            failed,
            ..
        } = InFiles::of(alloc, &image)?.run_and_crash(Job::Ask, CrashPoint { part, calls })?;
        for left in [ended, failed] {
            let found = contents_of_image(alloc, &left)?;
            assert_eq!(rt; found.as_str(), held.as_str(), "{part:?} {calls}");
        }
        if is_closed {
            return Ok(());
        }
    }
    Err("it was never asked".into())
}

/// The opening of files whose commands are in the log alone, with a crash at each call of the log.
#[test]
fn log_reading_with_log_crashes(rt: HostRuntime) -> Result<(), Fail> {
    crash_log_reading(rt.alloc(), &rt, Part::Log)
}

/// The opening of files whose commands are in the log alone, with a crash at each call of the database file.
#[test]
fn log_reading_with_database_crashes(rt: HostRuntime) -> Result<(), Fail> {
    crash_log_reading(rt.alloc(), &rt, Part::Database)
}

/// The opening of such files to ask, with a crash at each call of the log.
#[test]
fn full_log_asked_with_log_crashes(rt: HostRuntime) -> Result<(), Fail> {
    crash_asking(rt.alloc(), &rt, Part::Log)
}

/// The opening of such files to ask, with a crash at each call of the database file.
#[test]
fn full_log_asked_with_database_crashes(rt: HostRuntime) -> Result<(), Fail> {
    crash_asking(rt.alloc(), &rt, Part::Database)
}
