//! Identifies the caller of a request, and reads the idempotency key.
ghost use Rattle.std.specs.Prelude.{◌≡◌, IfOk, IfErr, option_map};
ghost use Rattle.portal_http_message.specs.Message.{value_in};
ghost use Rattle.portal_http_request.specs.Callers.{IsGuest, holds_token, ReadsKey, fingerprint_of};

use crate::routed::RoutedRequest;
use portal_http_message::HeadError;
use portal_ledger::caller::Caller;
use portal_ledger::request::{RequestMark, RequestNumber};
use portal_model::name::Device;
use portal_model::refusal::Refusal;
use std::alloc::Global;
use std::str;

/// Reads the device of a guest, from the one field that names it.
///
/// None if there is no such field or more than one, or if its value is not a device.
pub fn guest_device(field: Option<&[u8]>) -> Option<Device>
    ensures { IsGuest (option_map (λ v. v.now) field.entry) result }
{
    Device::read(str::from_utf8(field?).ok()?).ok()
}

/// Whether the one field for a token has that token as its value.
pub fn holds_token(token: &str, field: Option<&[u8]>) -> bool
    ensures { result ≡ holds_token token.now (option_map (λ v. v.now) field.entry) }
{
    match field {
        None => false,
        Some(bytes) => bytes == token.as_bytes(),
    }
}

/// Reads the idempotency key, from the one field for it. None if there is no such field.
///
/// Refusal: `BadRequest` if there is more than one such field, or its value is not 1 to 36 letters, digits
/// and hyphens.
pub fn read_key(field: Result<Option<&[u8]>, HeadError>) -> Result<Option<RequestNumber>, Refusal>
    ensures { ReadsKey (value_in field.entry) result }
{
    let Some(value) = field.map_err(|_| Refusal::BadRequest)? else {
        return Ok(None);
    };
    let text = str::from_utf8(value).map_err(|_| Refusal::BadRequest)?;
    let number = RequestNumber::read(text).ok_or(Refusal::BadRequest)?;
    Ok(Some(number))
}

/// Makes the fingerprint of a request of that caller, if the request has an idempotency key.
///
/// Refusal: `NoMemory`.
pub fn fingerprint_of(
    alloc: Global,
    asked: &RoutedRequest<'_>,
    caller: Caller,
    number: Option<RequestNumber>,
) -> Result<Option<RequestMark>, Refusal>
    ensures ok { IfOk result (λ mark. mark ≡ fingerprint_of asked.now caller number) }
    ensures err { IfErr result (λ r. r ≡ Refusal.NoMemory) }
{
    let Some(number) = number else {
        return Ok(None);
    };
    let mark = RequestMark::new(
        alloc,
        caller,
        number,
        asked.method(),
        asked.path(),
        asked.body(),
    )?;
    Ok(Some(mark))
}
