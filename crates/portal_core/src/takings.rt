//! The takings of days, with the desk's error.
ghost use Rattle.std.specs.Prelude.{◌≡◌, IfOk, IfErr, map};
ghost use Rattle.portal_model.specs.Span.{days_of};
ghost use Rattle.portal_model.specs.Takings.{takings_on, TotalsFit};

use portal_model::calendar::{Day, DayRange};
use portal_model::refusal::Refusal;
use portal_model::takings::DayTakings;
use std::alloc::Global;

/// Computes the takings of each day of the range, in order, from sales and refunds that each have a day and
/// an amount in hundredths.
///
/// Pairs of days outside of the range are ignored. The totals over the days fit `u64` and `u128`.
///
/// Error: `NoMemory` when out of memory.
pub fn add_takings(
    alloc: Global,
    range: DayRange,
    sales: &[(Day, u64)],
    refunds: &[(Day, u64)],
) -> Result<Vec<DayTakings>, Refusal>
    ensures days { IfOk result (λ v. v.items ≡ map (takings_on sales.now refunds.now) (days_of range)) }
    ensures totals { IfOk result (λ v. TotalsFit v.items) }
    ensures memory { IfErr result (λ r. r ≡ Refusal.NoMemory) }
{
    Ok(portal_model::takings::add_day_takings(alloc, range, sales, refunds)?)
}
