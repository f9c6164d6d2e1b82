//! Reads the values in a path and in a query.
ghost use Rattle.std.specs.Prelude.{◌≡◌, ℕ, ℤ, List, None, IfOk, IfErr, IfSome, codes, option_map};
ghost use Rattle.std.specs.Option.{option_to_list};
ghost use Rattle.portal_model.specs.Span.{Span};
ghost use Rattle.portal_http_request.specs.Queries.{
  NamesBatch,
  NamesCode,
  IsSessionNumber,
  IsDayAt,
  AreDays,
  IsDeviceAt,
  IsRepeated,
  LimitAmong,
  values_at,
};

use portal_codes::Code;
use portal_files::read_day;
use portal_http_routes::{has_key, only_value};
use portal_model::calendar::{Day, DayRange};
use portal_model::name::{Device, Id};
use portal_model::refusal::Refusal;
use std::str;

/// The most batches that are listed at once.
const MOST_BATCHES: usize = 20;

/// The greatest number of a session.
const GREATEST: u64 = 9_223_372_036_854_775_807;

/// Reads the id of a batch, if the text is one.
pub fn batch_id_of_text(text: &[u8]) -> Option<Id>
    ensures some { IfSome result (NamesBatch text.now) }
    ensures none { result ≡ None → (id : List ℕ) → ¬ (NamesBatch text.now id) }
{
    Id::read(str::from_utf8(text).ok()?)
}

/// Reads a code, if the text spells one.
pub fn code_of_text(text: &[u8]) -> Option<Code>
    ensures some { IfSome result (NamesCode text.now) }
    ensures none { result ≡ None → (code : List ℕ) → ¬ (NamesCode text.now code) }
{
    Code::read(str::from_utf8(text).ok()?).ok()
}

/// Reads the number of a session, if the text is one: decimal digits alone, with a value of at most
/// `GREATEST`.
pub fn number_of_text(text: &[u8]) -> Option<u64>
    ensures some { IfSome result (IsSessionNumber text.now) }
    ensures none { result ≡ None → (n : ℕ) → ¬ (IsSessionNumber text.now n) }
{
    if text.first() == Some(&b'+') {
        return None;
    }
    let number = str::from_utf8(text).ok()?.parse::<u64>().ok()?;
    if number <= GREATEST {
        Some(number)
    } else {
        None
    }
}

/// Reads the day under a key of a query as `YYYY-MM-DD`, if the key is in the query exactly once.
fn day_at(query: Option<&[u8]>, key: &[u8]) -> Option<Day>
    ensures some { IfSome result (IsDayAt key.now (option_map (λ q. q.now) query.entry)) }
    ensures none { result ≡ None → (day : ℤ) → ¬ (IsDayAt key.now (option_map (λ q. q.now) query.entry) day) }
{
    match str::from_utf8(only_value(query?, key)?) {
        Ok(text) => read_day(text),
        Err(_) => None,
    }
}

/// Reads the range of days from `from` to `to` in a query.
///
/// None unless each key is in the query exactly once, as `YYYY-MM-DD`, and the days are in order and at
/// most 366.
pub fn days_of_query(query: Option<&[u8]>) -> Option<DayRange>
    ensures some { IfSome result (AreDays (option_map (λ q. q.now) query.entry)) }
    ensures none { result ≡ None → (range : Span) → ¬ (AreDays (option_map (λ q. q.now) query.entry) range) }
{
    let from = day_at(query, b"from")?;
    let to = day_at(query, b"to")?;
    DayRange::new(from, to)
}

/// Returns the value under a key of a query, or `None` if the key is not in it.
///
/// Refusal: `BadRequest` if the key is in it more than once.
pub fn value_if_any<'q>(query: Option<&'q [u8]>, key: &[u8]) -> Result<Option<&'q [u8]>, Refusal>
    ensures ok { IfOk result (λ value. values_at key.now (option_map (λ q. q.now) query.entry)
        ≡ option_to_list (option_map (λ v. v.now) value)) }
    ensures err { IfErr result (λ r. (r ≡ Refusal.BadRequest)
        × IsRepeated (values_at key.now (option_map (λ q. q.now) query.entry))) }
{
    let Some(query) = query else {
        return Ok(None);
    };
    match only_value(query, key) {
        Some(value) => Ok(Some(value)),
        None if has_key(query, key) => Err(Refusal::BadRequest),
        None => Ok(None),
    }
}

/// Reads under `limit` in a query how many batches are listed at most: 20, if the key is not in it.
///
/// None if the key is in it more than once, or its value is not a number from 1 to 20 in decimal digits.
pub fn limit_of_query(query: Option<&[u8]>) -> Option<usize>
    ensures { LimitAmong (values_at (codes "limit") (option_map (λ q. q.now) query.entry)) result }
{
    let value = value_if_any(query, b"limit").ok()?;
    let Some(text) = value else {
        return Some(MOST_BATCHES);
    };
    let number = number_of_text(text)?;
    if number >= 1 && number <= MOST_BATCHES as u64 {
        Some(number as usize)
    } else {
        None
    }
}

/// Reads the device under `device` in a query, if the key is in the query exactly once.
pub fn device_of_query(query: Option<&[u8]>) -> Option<Device>
    ensures some { IfSome result (IsDeviceAt (option_map (λ q. q.now) query.entry)) }
    ensures none { result ≡ None → (device : List ℕ)
        → ¬ (IsDeviceAt (option_map (λ q. q.now) query.entry) device) }
{
    match str::from_utf8(only_value(query?, b"device")?) {
        Ok(text) => Device::read(text).ok(),
        Err(_) => None,
    }
}
