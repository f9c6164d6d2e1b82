//! The test of the Host field.
ghost use Rattle.std.specs.Prelude.{◌≡◌, codes};
ghost use Rattle.portal_http_message.specs.Fields.{values_of};
ghost use Rattle.portal_http_message.specs.Lengths.{is_host_count_valid};

use crate::fields::{Fields, Occurrence};

/// Whether the number of Host fields is right for the version of HTTP (RFC 9112, section 3.2).
///
/// HTTP/1.1 requires exactly one, and HTTP/1.0 at most one. `minor` is the minor version.
pub fn is_host_count_valid(fields: &Fields, minor: u8) -> bool
    ensures { result ≡ is_host_count_valid minor (values_of (codes "host") fields.now) }
{
    match fields.occurrence(b"host") {
        Occurrence::Absent => minor == 0,
        Occurrence::Once(_) => true,
        Occurrence::Repeated => false,
    }
}
