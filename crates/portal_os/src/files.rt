//! The machine's files.
ghost use Rattle.std.specs.Prelude.{◌≡◌, [], IfErr, IfOk, ⊤};
ghost use Rattle.portal_server.specs.declared.error.ProgramError.{ProgramError as Failure};
ghost use Rattle.portal_os.specs.Laws.{memory_desk_is_fault_free};
ghost use Rattle.portal_os.specs.Left.{RemainsHold};
ghost use Rattle.portal_os.specs.Opening.{IsClosed, IsFoundFor, IsUnclosed, OpensTo, RefusesFiles};
ghost use Rattle.sqlite.specs.Files.{over_files};
ghost use Rattle.sqlite.specs.Steps.{over_memory};
ghost use Rattle.portal_ledger.specs.Ledger.{Ledger};
ghost use Rattle.portal_ledger.specs.States.{running};
ghost use Rattle.portal_commands.specs.Places.{IsFileError, IsDatabaseError};
ghost use Rattle.portal_commands.specs.Troubles.{NamesPath};
ghost use Rattle.portal_desk_store.specs.DeskRepresents.{DeskRepresents, DeskIsFaultFree, settings_of};
ghost use Rattle.portal_tables.specs.Images.{ImageHoldsLedger};

use crate::closing::close_desk;
use crate::errors::{error_of_file, error_of_store};
use crate::machine::Machine;
use crate::obstacles::unattached;
use crate::opening::{attach_store, open_memory_desk, open_store};
use crate::pairs::FilePair;
use crate::remains::Remains;
use portal_commands::place::{Place, Purpose};
use portal_commands::trouble::Trouble;
use portal_desk_store::StoreDesk;
use portal_files::Settings;
use portal_server::ProgramError;
use sqlite::{FileStore, MemStore};
use std::alloc::Global;
use std::fmt::Display;
use std::fs;

/// The files of the machine: those of settings, and a database file with its log.
#[derive(Drop)]
pub struct HostFiles<M: Machine, P: FilePair> {
    pub machine: M,
    pub pair: P,
}

/// Makes the trouble of the file at a path: the error, and for `file` the system's message.
fn trouble_at<T: Display>(alloc: Global, path: &str, error: ProgramError, why: &T) -> Trouble
    ensures error { result.error ≡ error }
    ensures at { NamesPath path.now result }
{
    match error {
        ProgramError::File => match format!(in alloc; "{why}") {
            Ok(text) => Trouble::of_file(alloc, path, text.as_str()),
            Err(_) => Trouble::plain(ProgramError::File),
        },
        other => Trouble::plain(other),
    }
}

/// Opens a desk over the database file at a path and its log, as `Place::open` does.
fn open_pair<P: FilePair>(
    alloc: Global,
    host: &HostRuntime,
    path: &str,
    pair: P,
    settings: Settings,
    purpose: Purpose,
) -> Result<StoreDesk<FileStore<P::File>>, (Trouble, Remains<P::File>)>
    ensures why { IfErr result (λ e. IsDatabaseError e.0.error × NamesPath path.now e.0) }
    ensures fails { IfErr result (λ e. RefusesFiles P.image purpose e.1 e.0.error) }
    ensures kept { (L : Ledger) → ImageHoldsLedger P.image L → IfErr result (λ e. RemainsHold e.1 L) }
    ensures same_settings { IfOk result (λ desk. settings_of desk ≡ settings) }
    ensures represents { (L : Ledger) → ImageHoldsLedger P.image L
        → IfOk result
        (λ desk. DeskIsFaultFree over_files desk → DeskRepresents over_files desk (running L)) }
    ensures found { IfOk result (λ desk.
        DeskIsFaultFree over_files desk → IsFoundFor P.image purpose) }
    ensures opened { IfOk result (λ desk. OpensTo P.image purpose desk) }
{
    match open_store(host, path, pair, purpose) {
        Ok(conn) => match attach_store(conn, settings) {
            Ok(desk) => Ok(desk),
            Err((error, left)) => {
                let trouble = unattached(alloc, path, error, left.schema());
                Err((trouble, Remains::Refused(left)))
            }
        },
        Err((error, left)) => Err((trouble_at(alloc, path, error.program_error(), &error), left)),
    }
}

impl<M: Machine, P: FilePair> Place for HostFiles<M, P> {
    type Stored = StoreDesk<FileStore<P::File>>;

    type Fresh = StoreDesk<MemStore>;

    type Left = Remains<P::File>;

    ghost reads = { λ _ _ _. ⊤ };

    ghost holds_ledger = { λ place path L. ImageHoldsLedger P.image L };

    ghost finds = { λ place path purpose. IsFoundFor P.image purpose };

    ghost opens = { λ place path purpose desk. OpensTo P.image purpose desk };

    ghost closes = { λ desk left. IsClosed desk left };

    ghost fails_to_read = { λ _ _ _. ⊤ };

    ghost refuses = { λ place left path purpose trouble.
        RefusesFiles P.image purpose left trouble.error };

    ghost still_holds = { λ place left path L. RemainsHold left L };

    ghost fails_to_close = { λ desk left path trouble. IsUnclosed desk left };

    ghost fails_to_make = { λ error. IsFileError error };

    ghost is_fresh_fault_free = { λ desk. memory_desk_is_fault_free desk };

    fn read(&self, alloc: Global, path: &str) -> Result<Vec<u8>, Trouble> {
        match fs::read(self.machine.runtime(), path) {
            Ok(bytes) => Ok(bytes),
            Err(io_error) => Err(trouble_at(
                alloc,
                path,
                error_of_file(io_error.kind()),
                &io_error,
            )),
        }
    }

    fn open(
        self,
        alloc: Global,
        path: &str,
        settings: Settings,
        purpose: Purpose,
    ) -> Result<StoreDesk<FileStore<P::File>>, (Trouble, Remains<P::File>)> {
        let HostFiles { machine, pair } = self;
        open_pair(alloc, machine.runtime(), path, pair, settings, purpose)
    }

    fn close(
        alloc: Global,
        path: &str,
        desk: StoreDesk<FileStore<P::File>>,
    ) -> Result<Remains<P::File>, (Trouble, Remains<P::File>)> {
        match close_desk(desk) {
            Ok(files) => Ok(Remains::Closed(files)),
            Err((io_error, store)) => Err((
                trouble_at(alloc, path, error_of_store(&io_error), &io_error),
                Remains::Unclosed(store),
            )),
        }
    }

    fn open_desk_in_memory(
        alloc: Global,
        settings: Settings,
    ) -> Result<StoreDesk<MemStore>, ProgramError> {
        open_memory_desk(alloc, settings)
    }

    fn close_desk_in_memory(desk: StoreDesk<MemStore>) {
        let _conn = desk.release();
    }
}
