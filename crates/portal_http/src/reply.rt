//! The type of a response.
ghost use Rattle.std.specs.Prelude.{◌≡◌};
ghost use Rattle.portal_http.specs.Status.{status_in};

/// A response: its bytes, and the status in them (RFC 9112, section 4).
#[derive(Drop)]
pub struct Response {
    /// The HTTP status.
    pub status: u16,
    /// The whole response.
    pub bytes: Vec<u8>,
    ghost shown: { status ≡ status_in bytes.items },
}
