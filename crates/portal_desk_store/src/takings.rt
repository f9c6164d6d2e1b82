//! The takings of days, from the payments in the tables.
ghost use Rattle.std.specs.Prelude.{◌≡◌, ◌<◌, ◌≤◌, ℕ, ◌+ℤ◌, ◌≤ℤ◌, IfErr, IfOk, map, pos};
ghost use Rattle.jiff_tz.specs.declared.timezone.TimeZone.{TimeZone as Zone};
ghost use Rattle.portal_model.specs.Span.{day_count, days_of};
ghost use Rattle.portal_model.specs.Takings.{takings_on, TotalsFit};
ghost use Rattle.portal_desk.specs.Sheets.{takings_over};
ghost use Rattle.portal_files.specs.LocalDay.{local_day_of};
ghost use Rattle.portal_model.specs.Verdict.{greatest_moment};
ghost use Rattle.portal_desk_store.specs.Paid.{paid_days};
ghost use Rattle.portal_desk_store.specs.Steps.{Reads};

use crate::desks::StoreDesk;
use crate::lists::{Paid, payments_with_days};
use portal_core::add_takings;
use portal_files::Settings;
use portal_model::calendar::{Day, DayRange};
use portal_model::moment::Moment;
use portal_model::refusal::Refusal;
use portal_model::takings::DayTakings;
use portal_tables::questions::{Refunds, SalesAsIssued};
use sqlite::Alter;
use std::alloc::Global;

/// The seconds of a day.
const SECONDS_PER_DAY: i64 = 86_400;

/// The last second of the year 9998.
const GREATEST: i64 = 253_370_764_799;

/// Returns the time of that second since 1970, or the nearest time within the limits.
fn nearest_moment(second: i64) -> Moment
    ensures early { (t : ℕ) → second ≤ℤ pos t → result ≤ t }
    ensures late { (t : ℕ) → t ≤ greatest_moment → pos t ≤ℤ second → t ≤ result }
{
    let seconds = if second < 0 {
        0
    } else if second > GREATEST {
        GREATEST as u64
    } else {
        second as u64
    };
    Moment::new(seconds).unwrap()
}

/// Returns a time before which the civil day, in any time zone, is earlier than this day. Local time
/// differs from UTC by less than two days.
fn earliest_moment(day: Day) -> Moment
    ensures { (zone : Zone) (t : ℕ) → day ≤ℤ local_day_of zone t → result ≤ t }
{
    nearest_moment((i64::from(day.get()) - 2) * SECONDS_PER_DAY)
}

/// Returns a time after which the civil day, in any time zone, is later than this day.
fn latest_moment(day: Day) -> Moment
    ensures { (zone : Zone) (t : ℕ) → t ≤ greatest_moment → local_day_of zone t ≤ℤ day → t ≤ result }
{
    nearest_moment((i64::from(day.get()) + 3) * SECONDS_PER_DAY)
}

/// Returns two times between which lies every time whose civil day, in any time zone, is in the range.
fn moments_of_range(range: DayRange) -> (Moment, Moment)
    ensures { (zone : Zone) (t k : ℕ) → t ≤ greatest_moment → k < day_count range
        → local_day_of zone t ≡ range.first +ℤ pos k → (result.0 ≤ t) × (t ≤ result.1) }
{
    let (first, last) = (range.first(), range.last());
    (
        earliest_moment(first),
        latest_moment(first).max(latest_moment(last)),
    )
}

/// Computes the takings of each day of the range, in order, from payments with their times and amounts in
/// hundredths.
///
/// Error: `NoMemory` when out of memory.
fn add_payments(
    alloc: Global,
    settings: &Settings,
    range: DayRange,
    sales: &[Paid],
    refunds: &[Paid],
) -> Result<Vec<DayTakings>, Refusal>
    ensures days { IfOk result (λ days. days.items ≡ map (takings_on
        (paid_days settings.now.zone sales.now) (paid_days settings.now.zone refunds.now)) (days_of range)) }
    ensures totals { IfOk result (λ days. TotalsFit days.items) }
    ensures memory { IfErr result (λ r. r ≡ Refusal.NoMemory) }
{
    let sold = payments_with_days(alloc, settings, sales)?;
    let refunded = payments_with_days(alloc, settings, refunds)?;
    add_takings(alloc, range, sold.as_slice(), refunded.as_slice())
}

impl<S: Alter> StoreDesk<S> {
    /// Reads the payments around the range, and computes the takings of each of its days, in order, by the
    /// civil days of the settings' time zone.
    ///
    /// Errors: `NoMemory`, `Stopped`.
    pub(crate) fn sum_takings(
        &mut self,
        alloc: Global,
        range: DayRange,
    ) -> Result<Vec<DayTakings>, Refusal>
        ensures totals { IfOk result (λ days. TotalsFit days.items) }
        ensures reads { Reads S.Store self.old self.new result
            (λ days H. days.items ≡ takings_over self.old.settings.zone H range) }
    {
        let (from, to) = moments_of_range(range);
        let sales = self.tables.read(SalesAsIssued { alloc, from, to })?;
        let refunds = self.tables.read(Refunds { alloc, from, to })?;
        add_payments(
            alloc,
            &self.settings,
            range,
            sales.as_slice(),
            refunds.as_slice(),
        )
    }
}
