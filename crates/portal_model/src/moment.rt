//! Times in whole seconds.

ghost use Rattle.std.specs.Prelude.{◌≡◌, ◌≤◌, ◌↔◌, IsSome, IfSome};

use std::marker::Model;

/// A time: whole seconds UTC since 1970, up to the end of the year 9998.
#[derive(Clone, Copy, Debug, PartialEq, Eq, PartialOrd, Ord)]
pub struct Moment {
    seconds: u64,
}

impl Model for Moment {
    ghost use Rattle.std.specs.Prelude.{ℕ, ◌≤◌};

    ghost Value = { ℕ };

    ghost view = { λ m. m.seconds };

    ghost invariant = { λ m. m.seconds ≤ 253370764799 };

    ghost inverse = { λ n. record { seconds = n } };
}

impl Moment {
    /// The last second of the year 9998.
    pub const GREATEST: u64 = 253_370_764_799;

    /// Returns the time that many seconds after 1970-01-01 00:00 UTC, or `None` past the end of the year
    /// 9998.
    pub fn new(seconds: u64) -> Option<Moment>
        ensures reads { IsSome result ↔ (seconds ≤ 253370764799) }
        ensures value { IfSome result (λ m. m ≡ seconds) }
    {
        if seconds <= Self::GREATEST {
            Some(Moment { seconds })
        } else {
            None
        }
    }

    /// Returns the seconds since 1970-01-01 00:00 UTC.
    pub fn get(&self) -> u64
        ensures value { result ≡ self.now }
        ensures limit { result ≤ 253370764799 }
    {
        self.seconds
    }
}
