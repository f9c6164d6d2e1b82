//! A command, prepared and committed in one call.
ghost use Rattle.std.specs.Prelude.{◌≡◌, Some, None, MatchResult};
ghost use Rattle.portal_model.specs.Change.{answer_of};
ghost use Rattle.portal_model.specs.Verdict.{IsWellFormed};
ghost use Rattle.portal_ledger.specs.Calls.{Fits, Keeps};
ghost use Rattle.portal_ledger.specs.Ledger.{Accepted};
ghost use Rattle.portal_ledger.specs.States.{State};
ghost use Rattle.portal_desk.specs.Calls.{CannotKeep, KeepsStop};
ghost use Rattle.portal_desk_store.specs.Acting.{EndsExecution};
ghost use Rattle.portal_desk_store.specs.DeskRepresents.{
  DeskRepresents,
  DeskIsFaultFree,
  MovesDesk,
  settings_of,
  stop_flag,
};

use crate::desks::StoreDesk;
use portal_desk::Desk;
use portal_desk::prepared::{Marked, Prepared};
use portal_ledger::request::RequestMark;
use portal_model::change::Answer;
use portal_model::command::Command;
use portal_model::moment::Moment;
use portal_model::refusal::Refusal;
use sqlite::Alter;
use std::alloc::Global;

impl<S: Alter> StoreDesk<S> {
    /// Carries out a command without an idempotency key: prepares it, commits it, and returns its answer.
    ///
    /// Errors: those of `prepare` and of `finish`. After `Stopped` the command may or may not be in the
    /// database; after any other error nothing has changed.
    pub fn act(
        &mut self,
        alloc: Global,
        moment: Moment,
        command: Command,
    ) -> Result<Answer, Refusal>
        requires { IsWellFormed command }
        ensures { MovesDesk S.Store self.old self.new result (EndsExecution result command moment None) }
    {
        let prepared = self.prepare(alloc, moment, command)?;
        self.finish_with_answer(prepared)
    }

    /// Executes and commits a command under the idempotency key in `mark`. A repetition gets the first
    /// answer, and changes nothing.
    ///
    /// Errors: `IdReused` if its idempotency key was used for another request, then those of `act`.
    pub fn act_marked(
        &mut self,
        alloc: Global,
        moment: Moment,
        command: Command,
        mark: &RequestMark,
    ) -> Result<Answer, Refusal>
        requires { IsWellFormed command }
        ensures { MovesDesk S.Store self.old self.new result
            (EndsExecution result command moment (Some mark.now)) }
    {
        match self.prepare_marked(alloc, moment, command, mark)? {
            Marked::Fresh(fresh) => self.finish_with_answer(fresh),
            Marked::Kept(answer) => Ok(answer),
        }
    }

    /// Commits prepared changes, and returns the answer to their command.
    ///
    /// Errors: those of `finish`.
    fn finish_with_answer(&mut self, prepared: Prepared) -> Result<Answer, Refusal>
        ensures same_settings { settings_of self.new ≡ settings_of self.old }
        ensures fault_free { DeskIsFaultFree S.Store self.new → DeskIsFaultFree S.Store self.old }
        ensures stops { KeepsStop (stop_flag self.old) (stop_flag self.new) result }
        ensures keep { DeskIsFaultFree S.Store self.new → (old : State) → DeskRepresents S.Store self.old old
            → (a : Accepted) → Fits old prepared a → (new : State) × DeskRepresents S.Store self.new new
            × MatchResult result (λ answer. (answer ≡ answer_of prepared.changes) × Keeps old a new)
            (λ r. CannotKeep old a r new) }
    {
        let answer = prepared.answer();
        self.finish(prepared)?;
        Ok(answer)
    }
}
