//! Makes JSON objects key by key, and writes values as text.
ghost use Rattle.std.specs.Prelude.{◌≡◌, false, IfOk, IfErr, OnOk, IsAscii, option_map, string_bytes};
ghost use Rattle.serde_json.specs.Data.{boolean, string};
ghost use Rattle.serde_json.specs.View.{view, members_view};
ghost use Rattle.serde_json.specs.Written.{compact_text, has_float};
ghost use Rattle.portal_json.specs.Objects.{integer, integer_or_null, put_some};

use portal_model::moment::Moment;
use portal_model::refusal::Refusal;
use serde_json::{Map, Value};
use std::alloc::{AllocError, Global};
use std::str;

/// Puts a value under a key of an object, if there is a value. The only error is out of memory.
pub fn put_some(
    alloc: Global,
    members: &mut Map<String, Value>,
    key: &str,
    value: Option<Value>,
) -> Result<(), AllocError>
    ensures { OnOk result (members_view members.new.entries
        ≡ put_some key.now (option_map view value) (members_view members.old.entries)) }
{
    match value {
        None => Ok(()),
        Some(value) => serde_json::put(members, alloc, key, value),
    }
}

/// Makes a JSON number of an integer, if there is one.
pub fn integer_if_some(value: Option<u64>) -> Option<Value>
    ensures { option_map view result ≡ option_map integer value }
{
    value.map(|number| Value::from(number))
}

/// Returns the seconds of a moment since 1970, if there is a moment.
pub fn seconds_of_moment(moment: Option<Moment>) -> Option<u64>
    ensures { result ≡ moment }
{
    moment.map(|moment| moment.get())
}

/// Makes a JSON boolean, if there is one.
pub fn boolean_if_some(value: Option<bool>) -> Option<Value>
    ensures { option_map view result ≡ option_map boolean value }
{
    value.map(|flag| Value::Bool(flag))
}

/// Makes a JSON string of a text, if there is one. The only error is out of memory.
pub fn text(alloc: Global, value: Option<&str>) -> Result<Option<Value>, AllocError>
    ensures { IfOk result (λ v. option_map view v ≡ option_map string (option_map (λ s. s.now) value.entry)) }
{
    match value {
        None => Ok(None),
        Some(text) => Ok(Some(Value::String(String::from_str(alloc, text)?))),
    }
}

/// Makes a JSON number of an integer, or null if there is none.
pub fn integer_or_null(value: Option<u64>) -> Value
    ensures { view result ≡ integer_or_null value }
{
    value.map_or(Value::Null, |number| Value::from(number))
}

/// Returns ASCII bytes as text.
pub fn as_text(bytes: &[u8]) -> &str
    requires { IsAscii bytes.now }
    ensures { result.now ≡ bytes.now }
{
    str::from_utf8(bytes).unwrap()
}

/// Writes a JSON value as text, with no spaces between its tokens.
///
/// Refusal: `NoMemory`, if there is no memory for the text.
pub fn text_of_value(alloc: Global, value: &Value) -> Result<String, Refusal>
    requires { has_float (view value.now) ≡ false }
    ensures ok { IfOk result (λ text. string_bytes text ≡ compact_text (view value.now)) }
    ensures err { IfErr result (λ refusal. refusal ≡ Refusal.NoMemory) }
{
    Ok(value.to_string(alloc)?)
}
