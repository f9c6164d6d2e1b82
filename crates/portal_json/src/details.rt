//! Writes the details of sessions as JSON.
ghost use Rattle.std.specs.Prelude.{◌≡◌, IfOk, IfErr, option_map, string_bytes};
ghost use Rattle.serde_json.specs.Data.{object, no_members};
ghost use Rattle.serde_json.specs.View.{view};
ghost use Rattle.portal_json.specs.Objects.{put_all};
ghost use Rattle.portal_json.specs.Bodies.{
  word_of_end,
  end_or_null,
  details_keys,
  details_body,
  own_details_body,
  open_details_data,
  open_details_body,
};

use crate::listed::{Entry, Listed, put_integer, put_text, sessions_list};
use crate::objects::{as_text, integer_if_some, put_some, seconds_of_moment, text, text_of_value};
use portal_model::details::{End, SessionDetails};
use portal_model::refusal::Refusal;
use serde_json::{Map, Value};
use std::alloc::{AllocError, Global};

/// Returns the word for the reason for which a session has ended.
fn word_of_end(end: End) -> &'static str
    ensures { result.now ≡ word_of_end end }
{
    match end {
        End::Closed => "closed",
        End::Time => "time",
        End::Bytes => "bytes",
    }
}

/// Makes a JSON string of that word, or null while the session is open. The only error is out of memory.
fn end_or_null(alloc: Global, ended: Option<End>) -> Result<Value, AllocError>
    ensures { IfOk result (λ v. view v ≡ end_or_null ended) }
{
    match ended {
        None => Ok(Value::Null),
        Some(end) => Ok(Value::String(String::from_str(alloc, word_of_end(end))?)),
    }
}

/// Makes the JSON object of a session's details, with the device that is shown, if one is. The only error is
/// out of memory.
fn details_value(
    alloc: Global,
    details: &SessionDetails,
    device: Option<&str>,
) -> Result<Value, AllocError>
    ensures { IfOk result (λ v. view v ≡ object (put_all (details_keys
        (option_map (λ d. d.now) device.entry) details.now) no_members)) }
{
    let device = text(alloc, device)?;
    let ended = end_or_null(alloc, details.ended)?;
    let plan = text(alloc, Some(details.plan.text()))?;
    let at = integer_if_some(seconds_of_moment(details.at));
    let opened = integer_if_some(Some(details.opened.get()));
    let bytes = integer_if_some(details.bytes);
    let seconds = integer_if_some(details.seconds);
    let number = integer_if_some(Some(details.number));
    let used = integer_if_some(Some(details.used));
    let mut members = Map::new(alloc);
    put_some(alloc, &mut members, "at", at)?;
    put_some(alloc, &mut members, "bytes-remaining", bytes)?;
    put_some(alloc, &mut members, "device", device)?;
    put_some(alloc, &mut members, "ended", Some(ended))?;
    put_some(alloc, &mut members, "opened", opened)?;
    put_some(alloc, &mut members, "plan", plan)?;
    put_some(alloc, &mut members, "seconds-remaining", seconds)?;
    put_some(alloc, &mut members, "session", number)?;
    put_some(alloc, &mut members, "used", used)?;
    Ok(Value::Object(members))
}

/// Writes the body with the details of a session.
///
/// It has: the time and the reason of its end, or null for the reason while it is open; the seconds and the
/// bytes that remain, if it is so limited; its device; the time at which it was opened, and the plan that
/// opened it; its number; and the bytes that it used. Times are UTC seconds since 1970. Refusal: `NoMemory`,
/// if there is no memory for the text.
pub fn details_text(alloc: Global, details: &SessionDetails) -> Result<String, Refusal>
    ensures ok { IfOk result (λ text. string_bytes text ≡ details_body details.now) }
    ensures err { IfErr result (λ refusal. refusal ≡ Refusal.NoMemory) }
{
    let device = details.device.text();
    let value = details_value(alloc, details, Some(as_text(&device)))?;
    text_of_value(alloc, &value)
}

/// Writes the body with the details of a session for its own device: as `details_text`, without the device.
pub fn own_details_text(alloc: Global, details: &SessionDetails) -> Result<String, Refusal>
    ensures ok { IfOk result (λ text. string_bytes text ≡ own_details_body details.now) }
    ensures err { IfErr result (λ refusal. refusal ≡ Refusal.NoMemory) }
{
    let value = details_value(alloc, details, None)?;
    text_of_value(alloc, &value)
}

impl Entry<Listed> for SessionDetails {
    ghost shown = { open_details_data };

    fn put(&self, text: &mut String) -> Result<(), AllocError> {
        let device = self.device.text();
        text.push_str("{")?;
        put_integer(text, "\"bytes-remaining\":", self.bytes, ",")?;
        put_text(text, "\"device\":\"", as_text(&device), "\"")?;
        put_integer(text, ",\"opened\":", Some(self.opened.get()), "")?;
        put_text(text, ",\"plan\":\"", self.plan.text(), "\"")?;
        put_integer(text, ",\"seconds-remaining\":", self.seconds, "")?;
        put_integer(text, ",\"session\":", Some(self.number), "}")
    }
}

/// Writes the body with the details of open sessions, in the order given.
///
/// Each has its number, its device, the time at which it was opened, the plan that opened it, and the seconds
/// and the bytes that remain, if it is so limited. Refusal: `NoMemory`, if there is no memory for the text.
pub fn open_details_text(alloc: Global, sessions: &[SessionDetails]) -> Result<String, Refusal>
    ensures ok { IfOk result (λ text. string_bytes text ≡ open_details_body sessions.now) }
    ensures err { IfErr result (λ refusal. refusal ≡ Refusal.NoMemory) }
{
    sessions_list(alloc, sessions)
}
