//! Local dates and times in the zone of the settings, and dates as text.

ghost use Rattle.std.specs.Prelude.{
  ◌≡◌,
  ◌≤◌,
  ℕ,
  ℤ,
  pos,
  ◌*ℤ◌,
  length,
  IsOk,
  IfOk,
  IfSome,
  None,
  string_bytes,
};
ghost use Rattle.jiff.specs.Words.{civil_seconds};
ghost use Rattle.jiff_core.specs.declared.civil.date.Date.{Date as PlainDate};
ghost use Rattle.portal_files.specs.DayText.{IsDayText, IsDateText, IsPair};
ghost use Rattle.portal_files.specs.LocalDay.{local_seconds, local_day_of};

use crate::fault::FileFault;
use crate::settings::Settings;
use jiff::Timestamp;
use jiff::civil::{Date, DateTime};
use jiff_core::civil;
use portal_model::calendar::Day;
use portal_model::moment::Moment;
use std::alloc::{AllocError, Global};

/// Converts a time to a timestamp of the library `jiff`.
fn timestamp_of(t: Moment) -> Timestamp
    ensures at { result.nanosecond ≡ pos t *ℤ pos 1000000000 }
    ensures limit { t ≤ 253370764799 }
{
    Timestamp::from_second(t.get() as i64).unwrap()
}

/// Returns the local date and time of a moment in the zone of the settings.
pub fn local_time(settings: &Settings, t: Moment) -> DateTime
    ensures time { civil_seconds result ≡ local_seconds settings.now.zone t }
    ensures limit { t ≤ 253370764799 }
{
    settings.zone().to_datetime(timestamp_of(t))
}

/// Returns the local date of a moment in the zone of the settings. It allocates nothing and never fails.
pub fn local_day(settings: &Settings, t: Moment) -> Result<Day, FileFault>
    ensures ok { IsOk result }
    ensures day { IfOk result (λ day. day ≡ local_day_of settings.now.zone t) }
{
    let shown = local_time(settings, t);
    let number = shown.date().to_plain().to_unix_epoch_day();
    Ok(Day::new(number).unwrap())
}

/// Writes a day as `YYYY-MM-DD` (RFC 3339, section 5.6, full-date), as `read_day` reads it.
///
/// The only error is out of memory.
pub fn day_text(alloc: Global, day: Day) -> Result<String, AllocError>
    ensures { IfOk result (λ text. IsDayText (string_bytes text) day) }
{
    let plain = civil::Date::from_unix_epoch_day(i64::from(day.get())).unwrap();
    Date::from_plain(plain).to_string(alloc)
}

/// Returns the number of two ASCII digits, 0 to 99; none if a byte is not a digit.
fn two_digits(digits: &[u8]) -> Option<u8>
    requires { length digits.now ≡ 2 }
    ensures some { IfSome result (IsPair digits.now) }
    ensures none { result ≡ None → (n : ℕ) → IsPair digits.now n → ⊥ }
{
    let (tens, ones) = (digits[0], digits[1]);
    if !tens.is_ascii_digit() || !ones.is_ascii_digit() {
        return None;
    }
    Some((tens - b'0') * 10 + (ones - b'0'))
}

/// Reads a date as `YYYY-MM-DD`; none for any other text.
fn read_date(text: &[u8]) -> Option<Date>
    ensures some { IfSome result (IsDateText text.now) }
    ensures none { result ≡ None → (date : PlainDate) → IsDateText text.now date → ⊥ }
{
    if text.len() != 10 {
        return None;
    }
    if text[4] != b'-' || text[7] != b'-' {
        return None;
    }
    let century = two_digits(&text[..2])?;
    let year = two_digits(&text[2..4])?;
    let month = two_digits(&text[5..7])?;
    let day = two_digits(&text[8..10])?;
    Date::new(
        i16::from(century) * 100 + i16::from(year),
        month as i8,
        day as i8,
    )
    .ok()
}

/// Reads a day as `YYYY-MM-DD` (RFC 3339, section 5.6, full-date), of the years 1969 to 9999.
///
/// None for any other text.
pub fn read_day(text: &str) -> Option<Day>
    ensures some { IfSome result (IsDayText text.now) }
    ensures none { result ≡ None → (day : ℤ) → IsDayText text.now day → ⊥ }
{
    let date = read_date(text.as_bytes())?;
    Day::new(date.to_plain().to_unix_epoch_day())
}
