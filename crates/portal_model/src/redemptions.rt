//! The redemptions of a voucher, as the counter sees them.

use crate::moment::Moment;
use crate::name::Device;

/// A redemption of a voucher.
#[derive(Clone, Copy, Debug, PartialEq, Eq)]
pub struct Redemption {
    pub at: Moment,
    /// The device that redeemed the voucher.
    pub device: Device,
    /// Whether the session of the device was open already, and was extended.
    pub extended: bool,
    /// Whether that session is open.
    pub is_open: bool,
    /// The number of that session.
    pub session: u64,
}
