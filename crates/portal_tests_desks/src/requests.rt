//! Requests, and whole responses to them.
use std::alloc::Global;

/// The time of the whole responses: 2020-03-02 05:08:13 UTC.
pub const MOMENT: u64 = 1_583_125_693;

/// The request of a guest's device: 70 bytes.
pub const REQUEST: &[u8] =
    b"GET /captive HTTP/1.1\r\nHost: api\r\nPortal-Device: 02:00:00:00:00:01\r\n\r\n";

/// The whole response to a guest whose device has no session.
pub const CAPTIVE: &str = "HTTP/1.1 200 OK\r\n\
    Date: Mon, 02 Mar 2020 05:08:13 GMT\r\n\
    Content-Type: application/captive+json\r\n\
    Content-Length: 64\r\n\
    Cache-Control: no-store\r\n\
    Connection: close\r\n\
    \r\n\
    {\"captive\":true,\"user-portal-url\":\"https://wifi.example/portal\"}";

/// The whole response to bytes that are no valid request.
pub const BAD_REQUEST: &str = "HTTP/1.1 400 Bad Request\r\n\
    Date: Mon, 02 Mar 2020 05:08:13 GMT\r\n\
    Content-Type: application/json\r\n\
    Content-Length: 23\r\n\
    Cache-Control: no-store\r\n\
    Connection: close\r\n\
    \r\n\
    {\"error\":\"bad_request\"}";

/// The whole response of a desk that has stopped.
pub const STOPPED: &str = "HTTP/1.1 503 Service Unavailable\r\n\
    Date: Mon, 02 Mar 2020 05:08:13 GMT\r\n\
    Content-Type: application/json\r\n\
    Content-Length: 19\r\n\
    Cache-Control: no-store\r\n\
    Connection: close\r\n\
    \r\n\
    {\"error\":\"stopped\"}";

/// A request that reaches no desk: its path is unknown.
pub const UNROUTED: &[u8] = b"GET /desk//x HTTP/1.1\r\nHost: api\r\n\r\n";

/// The whole response to it.
pub const NO_ROUTE: &str = "HTTP/1.1 404 Not Found\r\n\
    Date: Mon, 02 Mar 2020 05:08:13 GMT\r\n\
    Content-Type: application/json\r\n\
    Content-Length: 20\r\n\
    Cache-Control: no-store\r\n\
    Connection: close\r\n\
    \r\n\
    {\"error\":\"no_route\"}";

/// The fields of the three callers.
pub const GUEST: &str = "Portal-Device: 02:00:00:00:00:01\r\n";

pub const DESK: &str = "Portal-Token: desk-token\r\n";

pub const GATE: &str = "Portal-Token: gate-token\r\n";

/// Builds a request with that body, from its request line and its fields.
pub fn request(alloc: Global, line: &str, fields: &str, body: &[u8]) -> Option<Vec<u8>> {
    let size = body.len();
    let head = format!(in alloc;
        "{line} HTTP/1.1\r\nHost: api\r\n{fields}Content-Length: {size}\r\n\r\n"
    ).ok()?;
    let mut request = head.into_bytes();
    request.extend_from_slice(body).ok()?;
    Some(request)
}
