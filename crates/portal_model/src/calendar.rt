//! Civil days by their number, and ranges of days.
ghost use Rattle.std.specs.Prelude.{◌≡◌, ◌↔◌, ◌<◌, ℕ, pos, ◌+ℤ◌, IsSome, IfSome, IfNone, false};
ghost use Rattle.std.specs.Ordering.{int_eq};
ghost use Rattle.portal_model.specs.Span.{Span, IsSpan, day_count};

use std::marker::Model;

/// A civil day, by the number of days since 1970-01-01: from 1969-01-01 (-365) to 9999-12-31 (2,932,896).
#[derive(Clone, Copy, Debug, PartialEq, Eq)]
pub struct Day {
    number: i32,
}

impl Model for Day {
    ghost use Rattle.std.specs.Prelude.{ℤ};
    ghost use Rattle.portal_model.specs.Span.{IsDay};

    ghost Value = { ℤ };

    ghost view = { λ d. d.number };

    ghost invariant = { λ d. IsDay d.number };

    ghost inverse = { λ z. record { number = z } };
}

impl Day {
    ghost use Rattle.portal_model.specs.Span.{IsDay};

    /// Makes the day with that number, or `None` outside of -365 to 2,932,896.
    pub fn new(number: i32) -> Option<Day>
        ensures accepts { IsSome result ↔ IsDay number }
        ensures value { IfSome result (λ day. day ≡ number) }
    {
        if number < -365 || number > 2_932_896 {
            return None;
        }
        Some(Day { number })
    }

    /// Returns the number of days from 1970-01-01 to this day.
    pub fn get(&self) -> i32
        ensures value { result ≡ self.now }
        ensures range { IsDay result }
    {
        self.number
    }
}

/// A range of consecutive days: at least one, at most 366.
#[derive(Clone, Copy, Debug, PartialEq, Eq)]
pub struct DayRange {
    first: Day,
    last: Day,
}

impl Model for DayRange {
    ghost use Rattle.portal_model.specs.Span.{Span, IsRange};

    ghost Value = { Span };

    ghost view = { λ r. record { first = r.first; last = r.last } };

    ghost invariant = { λ r. IsRange r.first r.last };

    ghost inverse = { λ s. record { first = s.first; last = s.last } };
}

impl DayRange {
    /// Makes the range from one day to another, both included.
    ///
    /// `None` if the second day is before the first, or if there are more than 366 days.
    pub fn new(from: Day, to: Day) -> Option<DayRange>
        ensures accepts { IsSome result ↔ IsSpan from to }
        ensures value { IfSome result (λ range. range ≡ record { first = from; last = to }) }
    {
        if to.get() < from.get() || to.get() - from.get() > 365 {
            return None;
        }
        Some(DayRange {
            first: from,
            last: to,
        })
    }

    /// Returns the first day of the range.
    pub fn first(&self) -> Day
        ensures { result ≡ self.now.first }
    {
        self.first
    }

    /// Returns the last day of the range.
    pub fn last(&self) -> Day
        ensures { result ≡ self.now.last }
    {
        self.last
    }

    /// Returns the number of days in the range.
    pub(crate) fn count(&self) -> u32
        ensures { result ≡ day_count self.now }
    {
        (self.last.get() - self.first.get() + 1) as u32
    }

    /// Returns how many days after the first day of the range a day is, or `None` for a day outside of the
    /// range.
    pub(crate) fn index_of(&self, day: Day) -> Option<u32>
        ensures within { IfSome result (λ k. k < day_count self.now) }
        ensures day { IfSome result (λ k. self.now.first +ℤ pos k ≡ day) }
        ensures outside { IfNone result
            ((k : ℕ) → k < day_count self.now → int_eq day (self.now.first +ℤ pos k) ≡ false) }
    {
        if day.get() < self.first.get() || day.get() > self.last.get() {
            return None;
        }
        Some((day.get() - self.first.get()) as u32)
    }

    /// Returns the day that is so many days after the first.
    pub(crate) fn day(&self, after: u32) -> Day
        requires { after < day_count self.now }
        ensures { result ≡ self.now.first +ℤ pos after }
    {
        Day {
            number: self.first.get() + after as i32,
        }
    }
}
