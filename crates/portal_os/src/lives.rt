//! The life of two files: they are opened, serve, are cut off at any call, and are opened again, as often as
//! there are rounds. A process of the program has one round and ends with it, so the program does not call
//! these functions; they call those by which it opens its files, serves, and releases them.
ghost use Rattle.std.specs.Prelude.{◌≡◌, List, [], ◌∷◌, ◌++◌, IfOk, IsTrue};
ghost use Rattle.sqlite.specs.Files.{over_files};
ghost use Rattle.sqlite_wal.specs.Reads.{AreClean};
ghost use Rattle.portal_ledger.specs.Ledger.{Ledger};
ghost use Rattle.portal_ledger.specs.States.{running};
ghost use Rattle.portal_desk_store.specs.DeskRepresents.{DeskIsFaultFree, DeskRepresents, settings_of};
ghost use Rattle.portal_tables.specs.Images.{FilesRepresent};
ghost use Rattle.portal_os.specs.CrashImages.{EachImage};
ghost use Rattle.portal_os.specs.Lives.{
  HoldsAfter,
  HoldsKept,
  HoldsServed,
  IsSession,
  Lives,
  ServesRound,
  are_files,
};
ghost use Rattle.portal_http.specs.Executions.{ServerSession};
ghost use Rattle.portal_os.specs.Copying.{LeavesNoMore};

use crate::images::{release_conn_files, release_desk_files};
use crate::opening::{attach_store, open_database_files};
use portal_commands::place::Purpose;
use portal_desk_store::StoreDesk;
use portal_files::read_settings;
use portal_http::{Arrival, run, sessions_follow};
use portal_http_routes::Routes;
use portal_model::proof::witness;
use sqlite::{FileStore, Leftover, Options};
use sqlite_disk::{Crash, Disk, Files};
use std::alloc::Global;

/// One round of a life: the bytes of the settings file, and the requests that arrive.
#[derive(Drop)]
pub struct Round {
    pub settings: Vec<u8>,
    pub arrivals: Vec<Arrival>,
}

/// Serves the requests at a desk, and releases its files with no further write. Returns the responses, as
/// far as there was memory for them.
fn serve_desk<D: Disk + Drop>(
    alloc: Global,
    desk: StoreDesk<FileStore<D>>,
    routes: &Routes,
    arrivals: &[Arrival],
) -> (Vec<Vec<u8>>, Files<D>)
    ensures { (L : Ledger) → (DeskIsFaultFree over_files desk → DeskRepresents over_files desk (running L))
        → AreClean D.Disk result.1.log result.1.db
        → EachImage D.Disk result.1 (HoldsServed L (settings_of desk) arrivals.now result.0.items) }
{
    let mut desk = desk;
    let mut responses = Vec::new(alloc);
    let _ = run(alloc, &mut desk, routes, arrivals, &mut responses);
    (responses, release_desk_files(desk))
}

/// Whether what an opening left is the files.
fn are_files<D: Disk>(left: &Leftover<D>) -> bool
    ensures { result ≡ are_files left.now }
{
    match left {
        Leftover::Files(_) => true,
        Leftover::Unopened(_) | Leftover::Store(_) => false,
    }
}

/// Opens two files as the program does to serve, and serves the requests of a round. Returns the responses,
/// if a desk was opened, and the files. Err: the opening failed once the store had the files, with what it
/// left.
fn serve_round<D: Disk + Drop>(
    alloc: Global,
    files: Files<D>,
    options: Options,
    routes: &Routes,
    round: &Round,
) -> (Option<Vec<Vec<u8>>>, Result<Files<D>, Leftover<D>>)
    requires log { IsTrue (D.Disk.is_usable files.log) }
    requires db { IsTrue (D.Disk.is_usable files.db) }
    ensures { ServesRound files round.now result.0 result.1 }
{
    let Ok(settings) = read_settings(alloc, round.settings.as_slice()) else {
        return (None, Ok(files));
    };
    match open_database_files(alloc, files, options, Purpose::Serve) {
        Ok(conn) => match attach_store(conn, settings) {
            Ok(desk) => {
                let (responses, files) = serve_desk(alloc, desk, routes, round.arrivals.as_slice());
                (Some(responses), Ok(files))
            }
            Err((_, conn)) => (None, Ok(release_conn_files(conn))),
        },
        Err((_, left)) => {
            if are_files(&left) {
                (None, Ok(left.into_files()))
            } else {
                (None, Err(left))
            }
        }
    }
}

/// Crashes the disk of both files.
fn crash_files<D: Crash>(mut files: Files<D>) -> Files<D>
    ensures log { IsTrue (D.Disk.is_usable result.log) }
    ensures db { IsTrue (D.Disk.is_usable result.db) }
    ensures left { LeavesNoMore D.Disk files result }
{
    files.log.crash();
    files.db.crash();
    files
}

/// One round of a life: the disk settles what a crash left (a sync), the files are opened and serve, and the
/// disk is cut off. Returns the responses, if a desk was opened, and the files. Err: as `serve_round`.
fn live_round<D: Crash + Drop>(
    alloc: Global,
    files: Files<D>,
    options: Options,
    routes: &Routes,
    round: &Round,
) -> (Option<Vec<Vec<u8>>>, Result<Files<D>, Leftover<D>>)
    requires log { IsTrue (D.Disk.is_usable files.log) }
    requires db { IsTrue (D.Disk.is_usable files.db) }
    requires honest { (file : D) → IsTrue (D.Disk.is_clean file) }
    ensures log { IfOk result.1 (λ files. IsTrue (D.Disk.is_usable files.log)) }
    ensures db { IfOk result.1 (λ files. IsTrue (D.Disk.is_usable files.db)) }
    ensures lives { (L : Ledger) (sessions : List ServerSession)
        → EachImage D.Disk files (HoldsKept L sessions)
        → (session : ServerSession) × IsSession round.now result.0 session
        × HoldsAfter L (sessions ++ session ∷ []) result.1 }
{
    witness(sessions_follow());
    let mut files = files;
    if files.log.sync().is_err() || files.db.sync().is_err() {
        return (None, Ok(crash_files(files)));
    }
    let (session, left) = serve_round(alloc, files, options, routes, round);
    match left {
        Ok(files) => (session, Ok(crash_files(files))),
        Err(left) => (session, Err(left)),
    }
}

/// Lives the rounds, one after another, and returns what came of each, and the files: of each round the
/// responses, if it opened a desk.
///
/// Of a disk that returns what was written to it, though it may fail at any call and be cut off at any: each
/// crash state of the files that are left holds the ledger of before, then for each round in order the
/// commands that were answered 200, and at most one command more, which was answered `stopped`; and nothing
/// else. The life ends early when memory runs out. Err: it ended with an opening that failed once the store
/// had the files, and what is left of them holds as much.
pub fn live<D: Crash + Drop>(
    alloc: Global,
    files: Files<D>,
    options: Options,
    routes: &Routes,
    rounds: &[Round],
) -> (Vec<Option<Vec<Vec<u8>>>>, Result<Files<D>, Leftover<D>>)
    requires log { IsTrue (D.Disk.is_usable files.log) }
    requires db { IsTrue (D.Disk.is_usable files.db) }
    requires honest { (file : D) → IsTrue (D.Disk.is_clean file) }
    ensures { (L : Ledger) → FilesRepresent D.Disk files L → Lives rounds.now L result.0.items result.1 }
{
    let mut lived = Vec::new(alloc);
    let mut files = files;
    for round in rounds {
        if lived.reserve(1).is_err() {
            return (lived, Ok(files));
        }
        let (session, left) = live_round(alloc, files, options, routes, round);
        let Ok(()) = lived.push(session) else {
            unreachable!()
        };
        match left {
            Ok(now) => files = now,
            Err(left) => return (lived, Err(left)),
        }
    }
    (lived, Ok(files))
}
