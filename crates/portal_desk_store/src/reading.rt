//! Reading records from the tables, with the errors of a desk: `NoMemory` and `Stopped`.
ghost use Rattle.std.specs.Prelude.{◌≡◌, ◌⊎◌, Ok, Err, Some, is_some, MatchResult};
ghost use Rattle.portal_model.specs.History.{
  issued_of,
  voucher_of,
  session_of,
  last_session_of,
};
ghost use Rattle.portal_ledger.specs.Ledger.{repeat_in};
ghost use Rattle.portal_ledger.specs.Calls.{ReadsOf};
ghost use Rattle.portal_desk.specs.Calls.{CannotAnswer};
ghost use Rattle.portal_tables.specs.declared.errors.StoreFault.TheVariants.{Memory, Stopped};
ghost use Rattle.portal_desk_store.specs.Steps.{MovesTables, Reads};

use crate::desks::StoreDesk;
use portal_codes::Code;
use portal_ledger::repeat::decide_repeat;
use portal_ledger::request::RequestMark;
use portal_model::change::Answer;
use portal_model::name::Device;
use portal_model::record::{Session, Voucher};
use portal_model::refusal::Refusal;
use portal_tables::questions::RequestOf;
use sqlite::Alter;
use std::alloc::Global;

impl<S: Alter> StoreDesk<S> {
    /// Returns the kept answer if the request is a repetition, and `None` if no request with its key is
    /// kept.
    ///
    /// Errors: `NoMemory`, `Stopped`; `IdReused` if its idempotency key was used for another request.
    pub(crate) fn find_repeat(
        &mut self,
        alloc: Global,
        mark: &RequestMark,
    ) -> Result<Option<Answer>, Refusal>
        ensures { MovesTables S.Store self.old self.new result (λ old new. MatchResult result
            (λ found. ReadsOf old (λ L. repeat_in L (Some mark.now) ≡ Ok found) new)
            (λ r. ReadsOf old (λ L. repeat_in L (Some mark.now) ≡ Err r) new ⊎ CannotAnswer old r new)) }
    {
        let kept = self.tables.read(RequestOf {
            alloc,
            caller: &mark.caller,
            number: &mark.number,
        })?;
        decide_repeat(kept.as_ref(), mark)
    }
}
