//! Reading lists from the tables, with the errors of a desk: `NoMemory` and `Stopped`.
ghost use Rattle.std.specs.Prelude.{◌≡◌, ◌++◌, ◌≤◌, true, IfOk, filter, map};
ghost use Rattle.portal_model.specs.Captive.{all_sessions};
ghost use Rattle.portal_model.specs.History.{codes_of, is_open_at};
ghost use Rattle.portal_tables.specs.PaymentLists.{AreSales, AreRefunds};
ghost use Rattle.portal_tables.specs.TablesRepresent.{IsFaultFree};
ghost use Rattle.portal_desk_store.specs.Counters.{CountersAre};
ghost use Rattle.portal_desk_store.specs.Paid.{paid_days};
ghost use Rattle.portal_desk_store.specs.Steps.{Reads};

use crate::desks::StoreDesk;
use portal_codes::Code;
use portal_files::{Settings, local_day};
use portal_model::calendar::{Day, DayRange};
use portal_model::moment::Moment;
use portal_model::name::Id;
use portal_model::record::Session;
use portal_model::refusal::Refusal;
use sqlite::Alter;
use std::alloc::{AllocError, Global};

/// A payment: its time, and its amount in hundredths.
pub(crate) type Paid = (Moment, u64);

impl<S: Alter> StoreDesk<S> {
    /// Audits the tables: returns whether the counters agree exactly with the rows that they count.
    pub(crate) fn check_counters(&mut self) -> Result<bool, Refusal>
        ensures reads { Reads S.Store self.old self.new result (λ agrees H. agrees ≡ true) }
        ensures exact { IsFaultFree S.Store self.new.tables
            → IfOk result (CountersAre S.Store self.old.tables) }
    {
        Ok(self.tables.audit()?)
    }
}

/// Pairs each payment's amount with its civil day in the settings' time zone.
///
/// Error: `AllocError` when out of memory.
pub(crate) fn payments_with_days(
    alloc: Global,
    settings: &Settings,
    payments: &[Paid],
) -> Result<Vec<(Day, u64)>, AllocError>
    ensures { IfOk result (λ pairs. pairs.items ≡ paid_days settings.now.zone payments.now) }
{
    let mut pairs = Vec::new(alloc);
    for &(at, amount) in payments {
        pairs.push((local_day(settings, at).unwrap(), amount))?;
    }
    Ok(pairs)
}
