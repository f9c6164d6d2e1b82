//! Whether the bytes that were read of a request already decide its response.
ghost use Rattle.std.specs.Prelude.{◌↔◌, IsTrue};
ghost use Rattle.std.specs.Bool.{MatchBool};
ghost use Rattle.portal_http_message.specs.Decided.{IsDecided, IsIncomplete, ExceedsHeadLimits};
ghost use Rattle.portal_http_message.specs.Steps.{IsFinding};

use crate::head::{Finding, parse_head};
use crate::limits::HEAD_LIMIT;
use crate::lines::has_too_many_lines;

/// Whether a head that is not complete by now exceeds `HEAD_LIMIT` bytes or `FIELD_LIMIT` fields.
fn exceeds_head_limits(bytes: &[u8]) -> bool
    ensures { IsTrue result ↔ ExceedsHeadLimits bytes.now }
{
    bytes.len() >= HEAD_LIMIT || has_too_many_lines(bytes)
}

/// Whether the bytes decide the response, by the head that was found in them.
///
/// This is `is_decided` for a caller that has parsed the head already.
pub fn is_decided_by_finding(found: &Finding, bytes: &[u8]) -> bool
    requires { IsFinding bytes.now found.now }
    ensures { MatchBool result (IsDecided bytes.now) (IsIncomplete bytes.now) }
{
    match found {
        Finding::Whole(head) => match head.declared {
            Ok(length) => head.spans.len + length <= bytes.len(),
            Err(_) => true,
        },
        Finding::Unfinished => exceeds_head_limits(bytes),
        Finding::Invalid => true,
    }
}

/// Whether the first bytes of a request decide its response, so that no further read is needed.
///
/// A complete head within the first `HEAD_LIMIT` bytes, of at most `FIELD_LIMIT` fields, decides it if its
/// fields are in error, or if the whole declared body is there. Without a complete head, it is decided by
/// `HEAD_LIMIT` bytes, by `LINE_LIMIT` line feeds after the empty lines at the start, or by bytes that no
/// further bytes can make a head.
///
/// The UTF-8 of a target is tested at the end of the target only: an incomplete target that is not UTF-8
/// decides nothing.
pub fn is_decided(bytes: &[u8]) -> bool
    ensures { MatchBool result (IsDecided bytes.now) (IsIncomplete bytes.now) }
{
    is_decided_by_finding(&parse_head(bytes), bytes)
}
