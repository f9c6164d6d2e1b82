//! The captive portal state of a device, and the open sessions as the gateway lists them.

use crate::name::Device;

/// The captive portal state of a guest's device (RFC 8908 section 5). A captive device gets no other value.
#[derive(Clone, Copy, Debug, PartialEq, Eq)]
pub struct Captive {
    /// Whether the device is captive: it has no open session.
    pub captive: bool,
    /// The seconds until the session ends, if it is limited in time.
    pub seconds: Option<u64>,
    /// The bytes left of the session's allowance, if it is limited in bytes.
    pub bytes: Option<u64>,
    /// Whether the session may be extended.
    pub extend: Option<bool>,
}

/// An open session, as the gateway lists it.
#[derive(Clone, Copy, Debug, PartialEq, Eq)]
pub struct OpenSession {
    pub bytes: Option<u64>,
    /// The device of the session.
    pub device: Device,
    pub seconds: Option<u64>,
    /// The number of the session.
    pub number: u64,
}
