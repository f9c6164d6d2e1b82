//! The length of a body, as the fields of the head declare it.
ghost use Rattle.std.specs.Prelude.{◌≡◌, ◌+◌, ◌≤◌, codes, true, false, min, MatchOption, IfOk};
ghost use Rattle.std.specs.List.{list_all};
ghost use Rattle.std.specs.Char.{is_ascii_digit};
ghost use Rattle.std.specs.Str.Parse.{digits_value};
ghost use Rattle.portal_http_message.specs.Limits.{body_limit};
ghost use Rattle.portal_http_message.specs.Fields.{values_of};
ghost use Rattle.portal_http_message.specs.Lengths.{length_in, content_length, has_any, declared_length};

use crate::errors::HeadError;
use crate::fields::{Fields, Occurrence};
use crate::hosts::is_host_count_valid;
use crate::limits::BODY_LIMIT;

/// Returns the number that digits write, but at most `BODY_LIMIT + 1`. None if a byte is not a digit.
fn capped_number(digits: &[u8]) -> Option<usize>
    ensures { MatchOption result (list_all is_ascii_digit digits.now ≡ false)
        (λ n. (list_all is_ascii_digit digits.now ≡ true)
        × (n ≡ min (digits_value 10 digits.now) (body_limit + 1))) }
{
    let mut number = 0usize;
    for digit in digits {
        if !digit.is_ascii_digit() {
            return None;
        }
        number = (10 * number + usize::from(*digit - b'0')).min(BODY_LIMIT + 1);
    }
    Some(number)
}

/// Parses the value of Content-Length: one or more digits (RFC 9110, section 8.6).
///
/// Errors: `BadRequest` if the value is empty or has another byte; `TooLarge` if it is above `BODY_LIMIT`.
fn read_length(value: &[u8]) -> Result<usize, HeadError>
    ensures value { result ≡ length_in value.now }
    ensures limit { IfOk result (λ length. length ≤ body_limit) }
{
    if value.is_empty() {
        return Err(HeadError::BadRequest);
    }
    match capped_number(value) {
        None => Err(HeadError::BadRequest),
        Some(length) if length > BODY_LIMIT => Err(HeadError::TooLarge),
        Some(length) => Ok(length),
    }
}

/// Returns the length that the Content-Length fields declare, 0 if there is none.
///
/// Errors: those of `read_length`; `BadRequest` if there is more than one field, even with equal values
/// (RFC 9112, section 6.3).
fn content_length(fields: &Fields) -> Result<usize, HeadError>
    ensures value { result ≡ content_length (values_of (codes "content-length") fields.now) }
    ensures limit { IfOk result (λ length. length ≤ body_limit) }
{
    match fields.occurrence(b"content-length") {
        Occurrence::Absent => Ok(0),
        Occurrence::Once(value) => read_length(value),
        Occurrence::Repeated => Err(HeadError::BadRequest),
    }
}

/// Whether the head has a Transfer-Encoding field (RFC 9112, section 6.1).
fn has_transfer_coding(fields: &Fields) -> bool
    ensures { result ≡ has_any (values_of (codes "transfer-encoding") fields.now) }
{
    match fields.occurrence(b"transfer-encoding") {
        Occurrence::Absent => false,
        _ => true,
    }
}

/// Returns the length of the body that the fields declare, in bytes (RFC 9112, section 6).
///
/// `minor` is the minor version. Errors, the first that applies: `BadRequest` for the number of Host
/// fields; `NotSupported` for a Transfer-Encoding; `BadRequest` for Content-Length; `TooLarge` for a length
/// above `BODY_LIMIT`.
pub fn declared_length(fields: &Fields, minor: u8) -> Result<usize, HeadError>
    ensures value { result ≡ declared_length minor fields.now }
    ensures limit { IfOk result (λ length. length ≤ body_limit) }
{
    if !is_host_count_valid(fields, minor) {
        return Err(HeadError::BadRequest);
    }
    if has_transfer_coding(fields) {
        return Err(HeadError::NotSupported);
    }
    content_length(fields)
}
