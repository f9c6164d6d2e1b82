//! The takings of each day of a range, from sales and refunds.
ghost use Rattle.std.specs.Prelude.{◌≡◌, ◌^◌, ◌<◌, ◌+ℤ◌, ℕ, pos, IfOk, OnOk, length, map, slice_index_or};
ghost use Rattle.portal_model.specs.Span.{day_count, days_of};
ghost use Rattle.portal_model.specs.Takings.{takings_on, AreAmounts, TotalsFit};
ghost use Rattle.portal_model.specs.Private.DaySums.{day_sum, zero_sum, with_pair, CanAddPair};

use crate::calendar::{Day, DayRange};
use std::alloc::{AllocError, Global};

/// The takings of a day: the numbers of sales and refunds, and their sums in hundredths.
#[derive(Clone, Copy, Debug, PartialEq, Eq)]
pub struct DayTakings {
    /// The day.
    pub day: Day,
    /// The number of vouchers sold.
    pub sold: u64,
    /// The sum of their prices, in hundredths.
    pub sales: u128,
    /// The number of vouchers refunded.
    pub refunded: u64,
    /// The sum of the refunds, in hundredths.
    pub refunds: u128,
}

/// The number of pairs of a day, and the sum of their amounts.
#[derive(Clone, Copy)]
struct DaySum {
    count: u64,
    amount: u128,
}

/// Adds a pair of a day and an amount to the sum of its day. A pair of a day outside of the range is
/// ignored.
fn add_pair(sums: &mut [DaySum], range: DayRange, day: Day, amount: u64)
    requires days { length sums.old ≡ day_count range }
    requires can_add { (k : ℕ) → k < day_count range → CanAddPair (slice_index_or sums.old k zero_sum) }
    ensures days { length sums.new ≡ day_count range }
    ensures small { amount < 2 ^ 64 }
    ensures added { (k : ℕ) → k < day_count range → slice_index_or sums.new k zero_sum
        ≡ with_pair (range.first +ℤ pos k) (day, amount) (slice_index_or sums.old k zero_sum) }
{
    if let Some(place) = range.index_of(day) {
        let sum = &mut sums[place as usize];
        sum.count += 1;
        sum.amount += u128::from(amount);
    }
}

/// Sums the pairs of each day of the range, in order, in one pass over the pairs.
///
/// Error: `AllocError` when out of memory.
fn sums_by_day(
    alloc: Global,
    range: DayRange,
    pairs: &[(Day, u64)],
) -> Result<Vec<DaySum>, AllocError>
    ensures sums { IfOk result (λ v. v.items ≡ map (day_sum pairs.now) (days_of range)) }
    ensures pairs { OnOk result (AreAmounts pairs.now) }
{
    let none = DaySum {
        count: 0,
        amount: 0,
    };
    let mut sums = vec![in alloc; none; range.count() as usize]?;
    for &(day, amount) in pairs {
        add_pair(&mut sums, range, day, amount);
    }
    Ok(sums)
}

/// Computes the takings of each day of the range, in order, from sales and refunds that each have a day and
/// an amount in hundredths.
///
/// Pairs of days outside of the range are ignored. The totals over the days fit `u64` and `u128`.
///
/// Error: `AllocError` when out of memory.
pub fn add_day_takings(
    alloc: Global,
    range: DayRange,
    sales: &[(Day, u64)],
    refunds: &[(Day, u64)],
) -> Result<Vec<DayTakings>, AllocError>
    ensures days { IfOk result (λ v. v.items ≡ map (takings_on sales.now refunds.now) (days_of range)) }
    ensures totals { IfOk result (λ v. TotalsFit v.items) }
{
    let sold = sums_by_day(alloc, range, sales)?;
    let refunded = sums_by_day(alloc, range, refunds)?;
    let mut all = Vec::new(alloc);
    for after in 0..range.count() {
        let (sales, refunds) = (sold[after as usize], refunded[after as usize]);
        all.push(DayTakings {
            day: range.day(after),
            sold: sales.count,
            sales: sales.amount,
            refunded: refunds.count,
            refunds: refunds.amount,
        })?;
    }
    Ok(all)
}
