//! Deciding on each command, over the records that it needs. Besides the error of the verdict, each call
//! may fail with `NoMemory` or `Stopped` while reading.
ghost use Rattle.std.specs.Prelude.{◌≡◌, ◌++◌, IfOk, IfErr};
ghost use Rattle.std.specs.Option.{option_to_list};
ghost use Rattle.portal_model.specs.declared.command.Command.TheVariants.{
  Load,
  Issue,
  Sell,
  Redeem,
  Report,
  Refund,
  Close,
};
ghost use Rattle.portal_model.specs.History.{head_of};
ghost use Rattle.portal_model.specs.Rows.{plans_of};
ghost use Rattle.portal_model.specs.Verdict.{any_held, IsWellFormed};
ghost use Rattle.portal_model_laws.specs.FromRows.{held_among};
ghost use Rattle.portal_ledger.specs.Ledger.{history_of};
ghost use Rattle.portal_ledger.specs.States.{running};
ghost use Rattle.portal_desk.specs.Calls.{Returns};
ghost use Rattle.portal_desk_store.specs.Judging.{Decides, Judges};
ghost use Rattle.portal_desk_store.specs.DeskRepresents.{MovesDesk};
ghost use Rattle.portal_desk_store.specs.Steps.{MovesFromLedger};

use crate::desks::StoreDesk;
use portal_codes::Code;
use portal_core::{
    decide_close, decide_issue, decide_plans, decide_redeem, decide_refund, decide_report,
    decide_sell, effective,
};
use portal_model::change::Changes;
use portal_model::command::{Command, command_is_typed};
use portal_model::moment::Moment;
use portal_model::name::{Device, Id};
use portal_model::plan::Plan;
use portal_model::proof::witness;
use portal_model::record::Head;
use portal_model::refusal::Refusal;
use portal_tables::questions::{BatchOf, IsHeld, LastSessionOf, PlanOf, SessionOf, VoucherOf};
use sqlite::Alter;
use std::alloc::Global;

/// Adds a plan to the list, if one was found.
///
/// Error: `NoMemory` when out of memory.
fn add_plan_if_found(held: &mut Vec<Plan>, found: Option<Plan>) -> Result<(), Refusal>
    ensures ok { IfOk result (λ _. held.new.items ≡ held.old.items ++ option_to_list found) }
    ensures err { IfErr result (λ r. r ≡ Refusal.NoMemory) }
{
    let Some(plan) = found else {
        return Ok(());
    };
    held.push(plan).map_err(|_| Refusal::NoMemory)
}

impl<S: Alter> StoreDesk<S> {
    /// Decides on a command at a time: takes the head row, reads the records that the command needs, and
    /// returns the changes.
    ///
    /// Errors: `NoMemory`, `Stopped`; else the verdict on the command.
    pub(crate) fn decide(
        &mut self,
        alloc: Global,
        moment: Moment,
        command: &Command,
    ) -> Result<Changes, Refusal>
        requires { IsWellFormed command.now }
        ensures { MovesDesk S.Store self.old self.new result
            (λ old new. Decides result command.now moment old new) }
    {
        witness(command_is_typed(command));
        let head = self.head()?;
        self.judge_by_head(alloc, &head, command, effective(moment, head.last))
    }

    /// Decides on a command at `t`, by the head row and the records that it reads.
    fn judge_by_head(
        &mut self,
        alloc: Global,
        head: &Head,
        command: &Command,
        t: Moment,
    ) -> Result<Changes, Refusal>
        ensures { MovesFromLedger S.Store self.old self.new result
            (λ L new. head.now ≡ head_of (history_of L) → Judges result command.now t L new) }
    {
        match command {
            Command::Load { plans } => self.judge_load(alloc, plans.as_slice(), t),
            Command::Issue { batch, plan, codes } => {
                self.judge_issue(alloc, batch, plan, codes.as_slice(), t)
            }
            Command::Sell { code } => self.judge_sell(code, t),
            Command::Redeem { device, code } => self.judge_redeem(head, device, code, t),
            Command::Report { session, bytes } => self.judge_report(*session, *bytes, t),
            Command::Refund { code } => self.judge_refund(code, t),
            Command::Close { session } => self.judge_close(*session, t),
        }
    }

    /// Reads the voucher, and decides on selling it.
    fn judge_sell(&mut self, code: &Code, t: Moment) -> Result<Changes, Refusal>
        ensures { MovesFromLedger S.Store self.old self.new result
            (λ L new. Judges result (Sell code.now) t L new) }
    {
        let found = self.tables.read(VoucherOf { code })?;
        decide_sell(found, t)
    }

    /// Reads the session, and decides on a report for it.
    fn judge_report(&mut self, session: u64, bytes: u64, t: Moment) -> Result<Changes, Refusal>
        ensures { MovesFromLedger S.Store self.old self.new result
            (λ L new. Judges result (Report session bytes) t L new) }
    {
        let found = self.tables.read(SessionOf { number: session })?;
        decide_report(found, bytes, t)
    }

    /// Reads the voucher, and decides on refunding it.
    fn judge_refund(&mut self, code: &Code, t: Moment) -> Result<Changes, Refusal>
        ensures { MovesFromLedger S.Store self.old self.new result
            (λ L new. Judges result (Refund code.now) t L new) }
    {
        let found = self.tables.read(VoucherOf { code })?;
        decide_refund(found, t)
    }

    /// Reads the session, and decides on closing it.
    fn judge_close(&mut self, session: u64, t: Moment) -> Result<Changes, Refusal>
        ensures { MovesFromLedger S.Store self.old self.new result
            (λ L new. Judges result (Close session) t L new) }
    {
        let found = self.tables.read(SessionOf { number: session })?;
        decide_close(found, t)
    }

    /// Reads the voucher and the device's last session, and decides on redeeming the voucher.
    fn judge_redeem(
        &mut self,
        head: &Head,
        device: &Device,
        code: &Code,
        t: Moment,
    ) -> Result<Changes, Refusal>
        ensures { MovesFromLedger S.Store self.old self.new result
            (λ L new. head.now ≡ head_of (history_of L)
            → Judges result (Redeem device.now code.now) t L new) }
    {
        let voucher = self.tables.read(VoucherOf { code })?;
        let last = self.tables.read(LastSessionOf { device })?;
        decide_redeem(head, voucher, last, *device, t)
    }

    /// Reads the loaded plans with the listed ids, and decides on loading the list.
    fn judge_load(&mut self, alloc: Global, plans: &[Plan], t: Moment) -> Result<Changes, Refusal>
        ensures { MovesFromLedger S.Store self.old self.new result
            (λ L new. Judges result (Load plans.now) t L new) }
    {
        let mut held = Vec::new(alloc);
        self.add_held_plans(plans, &mut held)?;
        decide_plans(alloc, held.as_slice(), plans, t)
    }

    /// Reads the plan, the batch and the codes, and decides on issuing the batch.
    fn judge_issue(
        &mut self,
        alloc: Global,
        batch: &Id,
        plan: &Id,
        codes: &[Code],
        t: Moment,
    ) -> Result<Changes, Refusal>
        ensures { MovesFromLedger S.Store self.old self.new result
            (λ L new. Judges result (Issue batch.now plan.now codes.now) t L new) }
    {
        let found = self.tables.read(PlanOf { id: plan })?;
        let held = self.tables.read(BatchOf { id: batch })?;
        let taken = self.is_any_code_held(codes)?;
        decide_issue(alloc, found, held, taken, *batch, codes, t)
    }

    /// Adds the loaded plans with the listed ids to the list `held`.
    fn add_held_plans(&mut self, listed: &[Plan], held: &mut Vec<Plan>) -> Result<(), Refusal>
        ensures { MovesFromLedger S.Store self.old self.new result (λ L new. Returns result
            (λ _ H. held.new.items ≡ held.old.items ++ held_among (plans_of H) listed.now) (running L) new) }
    {
        for plan in listed {
            let found = self.tables.read(PlanOf { id: &plan.id })?;
            add_plan_if_found(held, found)?;
        }
        Ok(())
    }

    /// Returns whether one of the codes was issued.
    fn is_any_code_held(&mut self, codes: &[Code]) -> Result<bool, Refusal>
        ensures { MovesFromLedger S.Store self.old self.new result (λ L new. Returns result
            (λ taken H. taken ≡ any_held H codes.now) (running L) new) }
    {
        for code in codes {
            if self.tables.read(IsHeld { code })? {
                return Ok(true);
            }
        }
        Ok(false)
    }
}
