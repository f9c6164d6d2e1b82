//! Splits a request's target into its parts (RFC 9112, section 3.2.1; RFC 3986, sections 3.3 and 3.4).
ghost use Rattle.std.specs.Prelude.{◌≡◌, option_map};
ghost use Rattle.portal_http_routes.specs.Targets.{
  before,
  after,
  path_of,
  query_of,
  has_no_empty_segment,
  is_path,
  parameter_of,
};

/// Splits bytes at the first byte that is `separator`, which is in neither part.
///
/// Without such a byte, the parts are all the bytes and none.
pub fn split_at_byte(bytes: &[u8], separator: u8) -> (&[u8], Option<&[u8]>)
    ensures front { result.0.now ≡ before separator bytes.now }
    ensures back { option_map (λ rest. rest.now) result.1 ≡ after separator bytes.now }
{
    for at in 0..bytes.len() {
        if bytes[at] == separator {
            let (front, _) = bytes.split_at(at);
            let (_, back) = bytes.split_at(at + 1);
            return (front, Some(back));
        }
    }
    (bytes, None)
}

/// Splits a target at its first `?` into the path, and the query if it has one.
pub fn split_target(target: &[u8]) -> (&[u8], Option<&[u8]>)
    ensures path { result.0.now ≡ path_of target.now }
    ensures query { option_map (λ query. query.now) result.1 ≡ query_of target.now }
{
    split_at_byte(target, b'?')
}

/// Returns the parameter of a path: its third segment, in the place of `{id}`, `{code}` or `{number}`.
///
/// Nothing is percent-decoded. The parameter is empty if the path has no third segment.
pub fn path_parameter(path: &[u8]) -> &[u8]
    ensures { result.now ≡ parameter_of path.now }
{
    let (_, Some(first)) = split_at_byte(path, b'/') else {
        return b"";
    };
    let (_, Some(second)) = split_at_byte(first, b'/') else {
        return b"";
    };
    let (_, Some(third)) = split_at_byte(second, b'/') else {
        return b"";
    };
    split_at_byte(third, b'/').0
}

/// Whether no segment in these bytes is empty. `behind_slash` says that a slash is just before them.
fn has_no_empty_segment(bytes: &[u8], mut behind_slash: bool) -> bool
    ensures { result ≡ has_no_empty_segment behind_slash bytes.now }
{
    for byte in bytes {
        if *byte == b'/' {
            if behind_slash {
                return false;
            }
            behind_slash = true;
        } else {
            behind_slash = false;
        }
    }
    !behind_slash
}

/// Whether the bytes begin with a slash and have no empty segment.
pub fn is_path(bytes: &[u8]) -> bool
    ensures { result ≡ is_path bytes.now }
{
    match bytes {
        [] => false,
        [first, rest @ ..] => *first == b'/' && has_no_empty_segment(rest, true),
    }
}
