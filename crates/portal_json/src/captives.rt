//! Writes a captive state as JSON (RFC 8908, section 5).
ghost use Rattle.std.specs.Prelude.{◌≡◌, IfOk, IfErr, option_map, string_bytes};
ghost use Rattle.serde_json.specs.View.{view};
ghost use Rattle.serde_json.specs.Data.{object, no_members};
ghost use Rattle.portal_json.specs.Objects.{put_all};
ghost use Rattle.portal_json.specs.Bodies.{captive_keys, captive_body};

use crate::objects::{boolean_if_some, integer_if_some, put_some, text, text_of_value};
use portal_model::captive::Captive;
use portal_model::refusal::Refusal;
use serde_json::{Map, Value};
use std::alloc::{AllocError, Global};

/// Returns the JSON object of a captive state. The only error is out of memory.
fn captive_value(
    alloc: Global,
    state: &Captive,
    portal_url: &str,
    venue_url: Option<&str>,
) -> Result<Value, AllocError>
    ensures { IfOk result (λ v. view v ≡ object (put_all (captive_keys state.now portal_url.now
        (option_map (λ url. url.now) venue_url.entry)) no_members)) }
{
    let portal_url = text(alloc, Some(portal_url))?;
    let venue_url = text(alloc, venue_url)?;
    let mut members = Map::new(alloc);
    put_some(
        alloc,
        &mut members,
        "bytes-remaining",
        integer_if_some(state.bytes),
    )?;
    put_some(
        alloc,
        &mut members,
        "can-extend-session",
        boolean_if_some(state.extend),
    )?;
    put_some(
        alloc,
        &mut members,
        "captive",
        boolean_if_some(Some(state.captive)),
    )?;
    put_some(
        alloc,
        &mut members,
        "seconds-remaining",
        integer_if_some(state.seconds),
    )?;
    put_some(alloc, &mut members, "user-portal-url", portal_url)?;
    put_some(alloc, &mut members, "venue-info-url", venue_url)?;
    Ok(Value::Object(members))
}

/// Writes the body with the captive state of a device (RFC 8908, section 5).
///
/// It has: whether the device is captive; the seconds and the bytes that remain and whether the session can
/// be extended, each if the state has it; the URL of the portal; and the URL of the venue, if there is one.
/// Refusal: `NoMemory`, if there is no memory for the text.
pub fn captive_text(
    alloc: Global,
    state: &Captive,
    portal_url: &str,
    venue_url: Option<&str>,
) -> Result<String, Refusal>
    ensures ok { IfOk result (λ text. string_bytes text
        ≡ captive_body state.now portal_url.now (option_map (λ url. url.now) venue_url.entry)) }
    ensures err { IfErr result (λ refusal. refusal ≡ Refusal.NoMemory) }
{
    let value = captive_value(alloc, state, portal_url, venue_url)?;
    text_of_value(alloc, &value)
}
