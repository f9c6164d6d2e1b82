//! Parses the query of a target, field by field.
ghost use Rattle.std.specs.Prelude.{◌≡◌, option_map};
ghost use Rattle.portal_http_routes.specs.Queries.{is_any, only_of, values_of};

use crate::targets::split_at_byte;

/// Returns the value of a key in a query, if the key is in it exactly once.
///
/// A query is split at each `&`, and a key ends at its first `=`. The value is empty if no `=` follows the
/// key. Keys are compared byte by byte, and nothing is percent-decoded.
pub fn only_value<'q>(query: &'q [u8], key: &[u8]) -> Option<&'q [u8]>
    ensures { option_map (λ value. value.now) result ≡ only_of (values_of key.now query.now) }
{
    let mut found: Option<&[u8]> = None;
    let mut left = Some(query);
    while let Some(fields) = left {
        let (field, more) = split_at_byte(fields, b'&');
        let (name, value) = split_at_byte(field, b'=');
        if name == key {
            if found.is_some() {
                return None;
            }
            found = Some(value.unwrap_or(b""));
        }
        left = more;
    }
    found
}

/// Returns whether a key is in a query, once or more often.
pub fn has_key(query: &[u8], key: &[u8]) -> bool
    ensures { result ≡ is_any (values_of key.now query.now) }
{
    let mut left = Some(query);
    while let Some(fields) = left {
        let (field, others) = split_at_byte(fields, b'&');
        let (name, _) = split_at_byte(field, b'=');
        if name == key {
            return true;
        }
        left = others;
    }
    false
}
