//! Encodes a response.
//!
//! Every response is HTTP/1.1, has a date, forbids storing, and closes its connection (RFC 9110, sections
//! 6.6.1 and 15; RFC 9111, section 5.2.2.5; RFC 9112, sections 4 and 9.6).
ghost use Rattle.std.specs.Prelude.{◌≡◌, ◌<◌, IfOk, option_map, string_bytes};
ghost use Rattle.httpdate.specs.Date.{date_text};
ghost use Rattle.portal_http_message.specs.Bytes.{
  phrase_of,
  media_type_of,
  last_lines,
  head_bytes,
  IsResponse,
  ResponseIsFixed,
};

use http::StatusCode;
use httpdate::HttpDate;
use std::alloc::{AllocError, Global};

/// The format of a body.
#[derive(Clone, Copy, Debug, PartialEq, Eq)]
pub enum ContentType {
    /// A captive state, `application/captive+json` (RFC 8908, section 5).
    CaptiveJson,
    /// Any other JSON text, `application/json`.
    Json,
    /// A print file, `text/csv; charset=utf-8`.
    Csv,
    /// A takings report, `text/plain; charset=utf-8`.
    PlainText,
}

impl ContentType {
    /// Returns the media type for `Content-Type` (RFC 9110, section 8.3).
    pub fn media_type(&self) -> &'static str
        ensures { result.now ≡ media_type_of self.now }
    {
        match self {
            ContentType::CaptiveJson => "application/captive+json",
            ContentType::Json => "application/json",
            ContentType::Csv => "text/csv; charset=utf-8",
            ContentType::PlainText => "text/plain; charset=utf-8",
        }
    }
}

/// Returns the reason phrase for a status that the server sends, else an empty one.
///
/// RFC 9112, section 4 allows an empty phrase.
fn phrase(status: u16) -> &'static str
    ensures { result.now ≡ phrase_of status }
{
    match status {
        200 => "OK",
        400 => "Bad Request",
        403 => "Forbidden",
        404 => "Not Found",
        405 => "Method Not Allowed",
        409 => "Conflict",
        410 => "Gone",
        413 => "Payload Too Large",
        501 => "Not Implemented",
        503 => "Service Unavailable",
        _ => "",
    }
}

/// Returns the last lines of a head: `Allow` if methods are given, `Connection: close`, and the empty line.
///
/// The only error is out of memory.
fn last_head_lines(alloc: Global, allow: Option<&str>) -> Result<String, AllocError>
    ensures { IfOk result (λ s. string_bytes s
        ≡ last_lines (option_map (λ methods. methods.now) allow.entry)) }
{
    match allow {
        None => String::from_str(alloc, "Connection: close\r\n\r\n"),
        Some(methods) => format!(in alloc; "Allow: {methods}\r\nConnection: close\r\n\r\n"),
    }
}

/// Returns the head of a response, with the empty line at its end. The only error is out of memory.
fn head(
    alloc: Global,
    status: u16,
    phrase: &str,
    date: HttpDate,
    media_type: &str,
    size: usize,
    last: &str,
) -> Result<String, AllocError>
    ensures { IfOk result (λ s. string_bytes s
        ≡ head_bytes status phrase.now (date_text date) media_type.now size last.now) }
{
    format!(in alloc;
        "HTTP/1.1 {status} {phrase}\r\nDate: {date}\r\nContent-Type: {media_type}\r\n\
        Content-Length: {size}\r\nCache-Control: no-store\r\n{last}"
    )
}

/// Encodes a response: status line, fields and body.
///
/// `moment` is the time of `Date`, in whole UTC seconds since 1970 (RFC 9110, section 6.6.1). It is before
/// the year 10000, as a date has four digits for the year. `allow` has the methods that `Allow` lists, which
/// a response of status 405 must have (RFC 9110, section 15.5.6). The only error is out of memory.
pub fn response(
    alloc: Global,
    status: StatusCode,
    moment: u64,
    content_type: ContentType,
    allow: Option<&str>,
    body: &[u8],
) -> Result<Vec<u8>, AllocError>
    requires { moment < 253_402_300_800 }
    ensures { IfOk result (λ bytes. IsResponse status moment content_type
        (option_map (λ methods. methods.now) allow.entry) body.now bytes.items) }
{
    let Ok(date) = HttpDate::from_unix_secs(moment) else {
        unreachable!()
    };
    let status = status.as_u16();
    let phrase = phrase(status);
    let media_type = content_type.media_type();
    let last = last_head_lines(alloc, allow)?;
    let head = head(
        alloc,
        status,
        phrase,
        date,
        media_type,
        body.len(),
        last.as_str(),
    )?;
    let mut bytes = head.into_bytes();
    bytes.extend_from_slice(body)?;
    Ok(bytes)
}

/// Law: status, time, content type, allowed methods and body determine every byte of a response.
pub fn response_is_fixed()
    ensures { ResponseIsFixed }
{}
