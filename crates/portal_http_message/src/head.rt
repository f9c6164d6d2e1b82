//! Parses a request: its head, the fields that a route needs, and its body.
ghost use Rattle.std.specs.Prelude.{◌≡◌, ◌++◌, ℕ, List, take};
ghost use Rattle.httparse.specs.Grammar.{RequestHead};
ghost use Rattle.portal_http_message.specs.Limits.{head_limit};
ghost use Rattle.portal_http_message.specs.Steps.{IsFinding, IsHeadAt};
ghost use Rattle.portal_http_message.specs.Message.{ParsesTo, body_after, bytes_of};

use crate::errors::HeadError;
use crate::fields::Fields;
use crate::lengths::declared_length;
use crate::limits::{FIELD_LIMIT, HEAD_LIMIT};
use httparse::Status;
use httparse::spans::{self, EMPTY_HEADER_SPAN, HeaderSpan, RequestSpans};

/// A request whose syntax is correct. The values of fields come without the spaces and tabs around them.
#[derive(Clone, Copy)]
pub struct ParsedRequest<'b> {
    /// The method (RFC 9112, section 3.1).
    pub method: &'b [u8],
    /// The request target as it was sent, with its query (RFC 9112, section 3.2).
    pub target: &'b [u8],
    /// The value of Portal-Token, if there is exactly one such field.
    pub token: Option<&'b [u8]>,
    /// The value of Portal-Device, if there is exactly one such field.
    pub device: Option<&'b [u8]>,
    /// The value of Portal-Request, the idempotency key, or none. More than one such field is a
    /// `BadRequest`, which is returned only on routes that read the key.
    pub number: Result<Option<&'b [u8]>, HeadError>,
    /// The body, of as many bytes as Content-Length declares.
    pub body: &'b [u8],
}

/// Returns the first `HEAD_LIMIT` bytes, or all if there are fewer: a head has to end within them.
pub fn front(bytes: &[u8]) -> &[u8]
    ensures { result.now ≡ take head_limit bytes.now }
{
    if bytes.len() <= HEAD_LIMIT {
        bytes
    } else {
        &bytes[..HEAD_LIMIT]
    }
}

/// A complete head: the places of its parts in the bytes, and the declared length of the body.
#[derive(Clone, Copy)]
pub struct FoundHead {
    /// The places of the method and of the target, the minor version, the number of fields, and the length
    /// of the head in bytes.
    pub spans: RequestSpans,
    /// The places of its fields. The first ones are in use, as many as `spans` counts.
    pub headers: [HeaderSpan; FIELD_LIMIT],
    /// The declared length of the body in bytes, or the error in the fields.
    pub declared: Result<usize, HeadError>,
}

/// What parsing found in the first bytes of a request, for heads of at most `FIELD_LIMIT` fields.
#[derive(Clone, Copy)]
pub enum Finding {
    /// A complete head.
    Whole(FoundHead),
    /// No complete head yet, but further bytes may complete it.
    Unfinished,
    /// No head, and no further bytes can make one.
    Invalid,
}

/// Parses the head at the start of the bytes, within the first `HEAD_LIMIT` bytes.
pub fn parse_head(bytes: &[u8]) -> Finding
    ensures { IsFinding bytes.now result }
{
    let mut headers = [EMPTY_HEADER_SPAN; FIELD_LIMIT];
    let front = front(bytes);
    match spans::parse_request(front, &mut headers) {
        Ok(Status::Complete(spans)) => {
            let (used, _) = headers.split_at(spans.headers);
            let declared = declared_length(&Fields::new(front, used), spans.version);
            Finding::Whole(FoundHead {
                spans,
                headers,
                declared,
            })
        }
        Ok(Status::Partial) => Finding::Unfinished,
        Err(_) => Finding::Invalid,
    }
}

/// Parses the head again, unless a complete head was found in the first of these bytes.
pub fn update_finding(found: Finding, bytes: &[u8]) -> Finding
    requires { (front more : List ℕ) × (bytes.now ≡ front ++ more) × IsFinding front found }
    ensures { IsFinding bytes.now result }
{
    match found {
        Finding::Whole(_) => found,
        Finding::Unfinished | Finding::Invalid => parse_head(bytes),
    }
}

/// Takes the body: as many bytes after the head as are declared.
///
/// Errors: the error in `declared`; `BadRequest` if there are fewer bytes.
fn take_body(after: &[u8], declared: Result<usize, HeadError>) -> Result<&[u8], HeadError>
    ensures { bytes_of result ≡ body_after declared after.now }
{
    let length = declared?;
    if length > after.len() {
        return Err(HeadError::BadRequest);
    }
    Ok(&after[..length])
}

/// Reads the request from the bytes, which have that complete head.
///
/// Errors: those of `parse_request`, but for a head that is not complete.
fn request_with_head<'b>(head: &FoundHead, bytes: &'b [u8]) -> Result<ParsedRequest<'b>, HeadError>
    requires { (is : RequestHead) × IsHeadAt bytes.now head.now is }
    ensures { ParsesTo bytes.now result }
{
    let (used, _) = head.headers.split_at(head.spans.headers);
    let (_, after) = bytes.split_at(head.spans.len);
    let fields = Fields::new(bytes, used);
    let token = fields.only_value(b"portal-token");
    let device = fields.only_value(b"portal-device");
    let number = fields.at_most_one_value(b"portal-request");
    let body = take_body(after, head.declared)?;
    Ok(ParsedRequest {
        method: head.spans.method.of(bytes),
        target: head.spans.path.of(bytes),
        token,
        device,
        number,
        body,
    })
}

/// Reads the request from the bytes, by the head that was found in them.
///
/// Errors: those of `parse_request`.
pub fn request_of_finding<'b>(
    found: &Finding,
    bytes: &'b [u8],
) -> Result<ParsedRequest<'b>, HeadError>
    requires { IsFinding bytes.now found.now }
    ensures { ParsesTo bytes.now result }
{
    match found {
        Finding::Whole(head) => request_with_head(head, bytes),
        Finding::Unfinished | Finding::Invalid => Err(HeadError::BadRequest),
    }
}

/// Parses a request from its bytes (RFC 9112, sections 2 to 6).
///
/// Bytes after the body are ignored. Errors, the first that applies:
/// - `BadRequest`: no complete head in the first `HEAD_LIMIT` bytes, or more than `FIELD_LIMIT` fields;
/// - `BadRequest`: no Host in HTTP/1.1, or more than one Host;
/// - `NotSupported`: a Transfer-Encoding;
/// - `BadRequest`: two Content-Length fields, or one that is not one or more digits;
/// - `TooLarge`: a Content-Length above `BODY_LIMIT`;
/// - `BadRequest`: fewer bytes after the head than Content-Length declares.
pub fn parse_request(bytes: &[u8]) -> Result<ParsedRequest<'_>, HeadError>
    ensures { ParsesTo bytes.now result }
{
    request_of_finding(&parse_head(bytes), bytes)
}
