//! The desk over a database.
ghost use Rattle.std.specs.Prelude.{◌≡◌};
ghost use Rattle.portal_tables.specs.TablesRepresent.{
  Files,
  FilesHold,
  IsFaultFree,
  IsCrashState,
  TablesRepresent,
};
ghost use Rattle.portal_desk_store.specs.Counters.{CountersAre};
ghost use Rattle.portal_desk_store.specs.Laws.{crash_state_is_allowed, found_is_sound};
ghost use Rattle.portal_desk_store.specs.KeepsHead.{KeepsHead};
ghost use Rattle.portal_desk_store.specs.KeepsOpenSessions.{KeepsOpenSessions};

use crate::heads::update_head;
use crate::keeping::update_open_sessions;
use crate::open_sessions::OpenSessions;
use portal_codes::Code;
use portal_desk::Desk;
use portal_desk::prepared::{Marked, Prepared};
use portal_files::{BatchSheet, Settings};
use portal_ledger::marked::MarkedChanges;
use portal_ledger::request::{RequestMark, fingerprint_is_typed};
use portal_model::batches::BatchState;
use portal_model::calendar::DayRange;
use portal_model::captive::{Captive, OpenSession};
use portal_model::code_start::CodeStart;
use portal_model::command::Command;
use portal_model::details::{SessionDetails, SessionKey};
use portal_model::lists::Codes;
use portal_model::moment::Moment;
use portal_model::name::{Device, Id};
use portal_model::proof::witness;
use portal_model::record::{Batch, Head, Voucher};
use portal_model::redemptions::Redemption;
use portal_model::refusal::Refusal;
use portal_model::takings::DayTakings;
use portal_tables::questions::{BatchOf, CodesOf, PlanOf, VoucherOf, VouchersLike};
use portal_tables::tables::Tables;
use sqlite::Alter;
use std::alloc::Global;

/// A desk over the tables of a database.
///
/// Beside the tables it keeps the settings, and the sessions that are open at the time of the last command,
/// so that listing them reads no table. It reads these from the tables when they are first listed, and
/// again after it ran out of memory while updating them. It keeps the head row too: it reads it from the
/// tables when it first needs it, and updates it after each command.
pub struct StoreDesk<S: Alter> {
    pub(crate) tables: Tables<S>,
    pub(crate) settings: Settings,
    pub(crate) open: Option<OpenSessions>,
    pub(crate) head: Option<Head>,
}

impl<S: Alter> Desk for StoreDesk<S> {
    ghost Files = { Files };

    ghost has_stopped = { λ d. d.tables.is_stopped };

    ghost is_fault_free = { λ d. IsFaultFree S.Store d.tables };

    ghost is_crash_state = { λ d files. IsCrashState S.Store d.tables files };

    ghost holds_ledger = { FilesHold };

    ghost audits = { λ d agrees. CountersAre S.Store d.tables agrees };

    ghost leaves = { λ d s represents files may. crash_state_is_allowed _ d.tables s represents.0 files may };

    ghost sound = { found_is_sound };

    ghost represents = { λ d s.
        TablesRepresent S.Store d.tables s × KeepsOpenSessions d.open s × KeepsHead d.head s };

    ghost settings = { λ d. d.settings };

    fn settings(&self) -> &Settings {
        &self.settings
    }

    fn is_stopped(&self) -> bool {
        self.tables.is_stopped()
    }

    fn state(&mut self, moment: Moment, device: Device) -> Result<Captive, Refusal> {
        match self.captive_if_kept(moment, &device)? {
            Some(captive) => Ok(captive),
            None => self.read_captive(moment, &device),
        }
    }

    fn voucher(&mut self, code: &Code) -> Result<Voucher, Refusal> {
        self.tables
            .read(VoucherOf { code })?
            .ok_or(Refusal::UnknownCode)
    }

    fn batch(&mut self, alloc: Global, id: &Id) -> Result<BatchSheet, Refusal> {
        let batch = self
            .tables
            .read(BatchOf { id })?
            .ok_or(Refusal::UnknownBatch)?;
        // The plan of a batch always exists.
        let plan = self
            .tables
            .read(PlanOf { id: &batch.plan })?
            .ok_or(Refusal::UnknownBatch)?;
        let codes = self.tables.read(CodesOf { alloc, batch: id })?;
        let codes = Codes::from_slice(alloc, codes.as_slice())?;
        Ok(BatchSheet { batch, plan, codes })
    }

    fn batch_vouchers(&mut self, alloc: Global, id: &Id) -> Result<(Batch, Vec<Voucher>), Refusal> {
        self.read_batch_vouchers(alloc, id)
    }

    fn batches(
        &mut self,
        alloc: Global,
        before: Option<&Id>,
        limit: usize,
    ) -> Result<(Vec<BatchState>, bool), Refusal> {
        self.list_batches(alloc, before, limit)
    }

    fn vouchers_like(
        &mut self,
        alloc: Global,
        start: &CodeStart,
    ) -> Result<(Vec<Voucher>, bool), Refusal> {
        Ok(self.tables.read(VouchersLike { alloc, start })?)
    }

    fn open_now(&mut self, alloc: Global, moment: Moment) -> Result<Vec<OpenSession>, Refusal> {
        let list = self.take_open_sessions(alloc)?;
        let listing = list.sessions_at(alloc, moment);
        self.open = Some(list);
        Ok(listing?)
    }

    fn open_details(
        &mut self,
        alloc: Global,
        moment: Moment,
    ) -> Result<Vec<SessionDetails>, Refusal> {
        let list = self.take_open_sessions(alloc)?;
        let listing = list.details_at(alloc, moment);
        self.open = Some(list);
        Ok(listing?)
    }

    fn session(&mut self, moment: Moment, key: SessionKey) -> Result<SessionDetails, Refusal> {
        match key {
            SessionKey::Number(number) => self.read_details(moment, number),
            SessionKey::Last(device) => self.read_last_details(moment, &device),
        }
    }

    fn redemptions(
        &mut self,
        alloc: Global,
        moment: Moment,
        code: &Code,
    ) -> Result<(Vec<Redemption>, bool), Refusal> {
        self.read_redemptions(alloc, moment, code)
    }

    fn takings(&mut self, alloc: Global, range: DayRange) -> Result<Vec<DayTakings>, Refusal> {
        self.sum_takings(alloc, range)
    }

    fn audit(&mut self, _alloc: Global) -> Result<bool, Refusal> {
        self.check_counters()
    }

    fn prepare(
        &mut self,
        alloc: Global,
        moment: Moment,
        command: Command,
    ) -> Result<Prepared, Refusal> {
        let changes = self.decide(alloc, moment, &command)?;
        Ok(Prepared::new(MarkedChanges::unmarked(changes)))
    }

    fn prepare_marked(
        &mut self,
        alloc: Global,
        moment: Moment,
        command: Command,
        mark: &RequestMark,
    ) -> Result<Marked, Refusal> {
        witness(fingerprint_is_typed(mark));
        if let Some(answer) = self.find_repeat(alloc, mark)? {
            return Ok(Marked::Kept(answer));
        }
        let changes = self.decide(alloc, moment, &command)?;
        let marked = MarkedChanges::with_mark(alloc, changes, mark)?;
        Ok(Marked::Fresh(Prepared::new(marked)))
    }

    fn finish(&mut self, prepared: Prepared) -> Result<(), Refusal> {
        let marked = prepared.into_changes();
        match self.tables.commit(&marked) {
            Ok(()) => {
                self.open = update_open_sessions(self.open.take(), &marked.changes);
                self.head = update_head(self.head, &marked.changes);
                Ok(())
            }
            Err(fault) => Err(Refusal::from(fault)),
        }
    }
}
