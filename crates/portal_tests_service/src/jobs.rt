//! Jobs on a database in files, which is closed after each. A desk is closed as the program closes it.
use portal_commands::place::Purpose;
use portal_desk::Desk;
use portal_desk_store::StoreDesk;
use portal_files::{Settings, sample_settings};
use portal_http::exchanges::status_in;
use portal_http_routes::Routes;
use portal_model::refusal::Refusal;
use portal_os::{close_desk, release_desk_files};
use portal_tables::attaching::Refused;
use portal_tables::errors::OpenFault;
use portal_tests_desks::day::SentRequest;
use portal_tests_desks::desks::is_refused_by_stopped;
use portal_tests_desks::exchanges::{exchange_with_peer, whole_peer};
use portal_tests_storage::sql::{dump_database, execute_all};
use sqlite::{Connection, Error, FileStore, Files};
use sqlite_disk::Disk;
use std::alloc::Global;
use std::test::Fail;

/// A job on a database.
#[derive(Clone, Copy)]
pub enum Job<'a> {
    /// SQL beside the desk.
    Sql(&'a [&'a str]),
    /// The requests are sent to a desk over the database until it stops. Each has to be answered as it says,
    /// and in the end the counters have to agree with the rows.
    Send(&'a [SentRequest]),
    /// The same, and the process ends before the desk is closed, so the log is not copied.
    SendAndEnd(&'a [SentRequest]),
    /// Nothing.
    Ask,
    /// Everything in the database is read.
    Whole,
}

impl Job<'_> {
    /// Returns what the program would open the database for.
    pub fn purpose(&self) -> Purpose {
        match self {
            Job::Send(_) | Job::SendAndEnd(_) => Purpose::Serve,
            Job::Sql(_) | Job::Whole => Purpose::Answer,
            Job::Ask => Purpose::Ask,
        }
    }
}

/// The result of a job.
#[derive(Drop)]
pub enum JobResult {
    Nothing,
    /// The files crashed before the database was open.
    Unopened,
    /// The database was not attached.
    Unattached(OpenFault),
    /// The number of requests that were accepted, and whether the desk stopped then.
    Accepted(usize, bool),
    /// The index of the request that was answered otherwise than it says; one more than the number of
    /// requests means the counters.
    Otherwise(usize),
    Whole(String),
}

/// The result of sending requests: how many were accepted, and whether the desk stopped then; or the index of
/// the one that was answered otherwise than it says. One more than the number of requests means the counters.
type Outcome = Result<(usize, bool), usize>;

/// Sends the requests in order until the desk stops, and then compares the counters with the rows. A desk
/// that has stopped has to answer `stopped` to everything.
fn send_to<D: Desk>(
    alloc: Global,
    desk: &mut D,
    routes: &Routes,
    requests: &[SentRequest],
) -> Option<Outcome> {
    for (place, sent) in requests.iter().enumerate() {
        let peer = whole_peer(sent.at, sent.bytes.as_slice(), 80_000);
        let met = exchange_with_peer(alloc, desk, routes, &peer)?;
        if status_in(met.taken.as_slice()) == 503 {
            let is_right = is_refused_by_stopped(alloc, desk, routes, &peer)?;
            return Some(if is_right {
                Ok((place, true))
            } else {
                Err(place)
            });
        }
        if !met.taken.as_slice().ends_with(sent.answer.as_bytes()) {
            return Some(Err(place));
        }
    }
    Some(match desk.audit(alloc) {
        Ok(true) => Ok((requests.len(), false)),
        Err(Refusal::Stopped) => Ok((requests.len(), true)),
        _ => Err(requests.len().saturating_add(1)),
    })
}

/// Sends the requests to the desk, with all routes.
fn send<D: Desk>(alloc: Global, desk: &mut D, requests: &[SentRequest]) -> Option<Outcome> {
    let routes = Routes::new(alloc).ok()?;
    send_to(alloc, desk, &routes, requests)
}

/// Converts the result of sending requests into that of the job.
fn result_of_outcome(outcome: Option<Outcome>) -> JobResult {
    match outcome {
        Some(Ok((count, is_stopped))) => JobResult::Accepted(count, is_stopped),
        Some(Err(place)) => JobResult::Otherwise(place),
        None => JobResult::Nothing,
    }
}

/// The files of a database that was closed, or the database that was not.
pub type Closed<D> = Result<Files<D>, (Error, FileStore<D>)>;

/// Attaches the database, sends the requests to the desk over it, and closes it, or lets its files go.
fn send_with_settings<D: Disk + Drop>(
    alloc: Global,
    conn: Connection<FileStore<D>>,
    settings: Settings,
    requests: &[SentRequest],
    closes: bool,
) -> (JobResult, Closed<D>) {
    match StoreDesk::adopt(conn, settings) {
        Ok(adopted) => {
            let mut desk = adopted;
            let outcome = send(alloc, &mut desk, requests);
            let closed = if closes {
                close_desk(desk)
            } else {
                Ok(release_desk_files(desk))
            };
            (result_of_outcome(outcome), closed)
        }
        Err(Refused { fault, connection }) => (
            JobResult::Unattached(fault),
            connection.close_files(),
        ),
    }
}

/// Does the same with the sample settings.
fn send_with_sample_settings<D: Disk + Drop>(
    alloc: Global,
    conn: Connection<FileStore<D>>,
    requests: &[SentRequest],
    closes: bool,
) -> Result<(JobResult, Closed<D>), Fail> {
    match sample_settings(alloc) {
        Ok(settings) => Ok(send_with_settings(alloc, conn, settings, requests, closes)),
        Err(fault) => {
            drop(conn);
            Err(fault.into())
        }
    }
}

/// Runs the job, and closes the database.
pub fn run<D: Disk + Drop>(
    alloc: Global,
    conn: Connection<FileStore<D>>,
    job: Job<'_>,
) -> Result<(JobResult, Closed<D>), Fail> {
    let mut conn = conn;
    match job {
        Job::Sql(texts) => {
            execute_all(&mut conn, texts)?;
            Ok((JobResult::Nothing, conn.close_files()))
        }
        Job::Send(requests) => send_with_sample_settings(alloc, conn, requests, true),
        Job::SendAndEnd(requests) => send_with_sample_settings(alloc, conn, requests, false),
        Job::Ask => Ok((JobResult::Nothing, conn.close_files())),
        Job::Whole => {
            let whole = dump_database(alloc, &mut conn).ok_or("the store is not read")?;
            Ok((JobResult::Whole(whole), conn.close_files()))
        }
    }
}
