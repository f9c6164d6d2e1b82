//! The redemptions of a voucher, from the tables.
ghost use Rattle.std.specs.Prelude.{◌≡◌, option_map};
ghost use Rattle.portal_model.specs.History.{grants_of, issued_of};
ghost use Rattle.portal_model.specs.Redemptions.{
  first_redemptions,
  last_redemptions_of,
  redemptions_among,
};
ghost use Rattle.portal_desk.specs.Calls.{FindsThat};
ghost use Rattle.portal_desk_store.specs.DeskRepresents.{MovesDesk};
ghost use Rattle.portal_desk_store.specs.Steps.{MovesTables, Reads};

use crate::desks::StoreDesk;
use portal_codes::Code;
use portal_core::effective;
use portal_model::moment::Moment;
use portal_model::redemptions::Redemption;
use portal_model::refusal::Refusal;
use portal_tables::questions::{IsHeld, LastRedemptions};
use sqlite::Alter;
use std::alloc::Global;

impl<S: Alter> StoreDesk<S> {
    /// Reads the last redemptions with a code, as they are at the effective time `at`, and whether there are
    /// more.
    ///
    /// Errors: `NoMemory`, `Stopped`.
    fn list_redemptions(
        &mut self,
        alloc: Global,
        at: Moment,
        code: &Code,
    ) -> Result<(Vec<Redemption>, bool), Refusal>
        ensures { Reads S.Store self.old self.new result (λ found H. (found.0.items, found.1)
            ≡ first_redemptions (redemptions_among H at code.now (grants_of H))) }
    {
        Ok(
            self.tables.read(LastRedemptions {
                alloc,
                code,
                at: &at,
            })?,
        )
    }

    /// Reads the last redemptions of the voucher of a code, as they are at the effective time `at`.
    ///
    /// Errors: `NoMemory`, `Stopped`; `UnknownCode` if the code was never issued.
    fn read_redemptions_at(
        &mut self,
        alloc: Global,
        at: Moment,
        code: &Code,
    ) -> Result<(Vec<Redemption>, bool), Refusal>
        ensures { MovesTables S.Store self.old self.new result (FindsThat Refusal.UnknownCode
            (λ H. option_map first_redemptions
            (option_map (λ v. redemptions_among H at code.now (grants_of H)) (issued_of H code.now)))
            (λ found listed _. (found.0.items, found.1) ≡ listed) result) }
    {
        let is_held = self.tables.read(IsHeld { code })?;
        if !is_held {
            return Err(Refusal::UnknownCode);
        }
        self.list_redemptions(alloc, at, code)
    }

    /// Reads the last redemptions of the voucher of a code, as they are at a time, and whether there are
    /// more.
    ///
    /// Errors: `NoMemory`, `Stopped`; `UnknownCode` if the code was never issued.
    pub(crate) fn read_redemptions(
        &mut self,
        alloc: Global,
        moment: Moment,
        code: &Code,
    ) -> Result<(Vec<Redemption>, bool), Refusal>
        ensures { MovesDesk S.Store self.old self.new result
            (FindsThat Refusal.UnknownCode (λ H. last_redemptions_of H code.now moment)
            (λ found listed _. (found.0.items, found.1) ≡ listed) result) }
    {
        let head = self.head()?;
        self.read_redemptions_at(alloc, effective(moment, head.last), code)
    }
}
