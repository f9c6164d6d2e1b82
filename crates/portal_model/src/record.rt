//! The records of the desk: batches, vouchers, sessions and the head row.

ghost use Rattle.std.specs.Prelude.{◌≡◌};
ghost use Rattle.portal_model.specs.History.{is_open_at};

use crate::moment::Moment;
use crate::name::{Device, Id};
use crate::plan::Plan;
use portal_codes::Code;

/// A batch of vouchers of one plan, issued together.
#[derive(Clone, Copy, Debug, PartialEq, Eq)]
pub struct Batch {
    pub id: Id,
    pub plan: Id,
    /// The time of its issue.
    pub issued: Moment,
    /// The time from which on its vouchers have expired.
    pub expires: Moment,
    /// The number of its vouchers.
    pub size: u64,
}

/// A voucher with its plan, its sale, its refund and its redemptions so far.
#[derive(Clone, Copy, Debug, PartialEq, Eq)]
pub struct Voucher {
    pub code: Code,
    pub batch: Id,
    pub plan: Plan,
    pub expires: Moment,
    /// The time of its sale, if it was sold.
    pub sold: Option<Moment>,
    /// The amount of its refund in hundredths, if it was refunded.
    pub refund: Option<u64>,
    /// How often it was redeemed.
    pub redeemed: u64,
}

/// A session of a device, with its limits and its use so far.
#[derive(Clone, Copy, Debug, PartialEq, Eq)]
pub struct Session {
    pub number: u64,
    pub device: Device,
    /// The plan of the voucher that opened it.
    pub plan: Id,
    /// Whether it may be extended. The plan that opened it decides this.
    pub extend: bool,
    /// The time of the redemption that opened it.
    pub opened: Moment,
    /// The time at which it ends, if it is limited in time.
    pub ends: Option<Moment>,
    /// The bytes that all its redemptions grant together, if it is limited in bytes.
    pub allowance: Option<u64>,
    /// The greatest number of bytes that the gateway reported: those of the IP layer, sent and received,
    /// headers included (RFC 8908 section 5).
    pub used: u64,
    /// The time at which it was closed, if it was closed.
    pub closed: Option<Moment>,
}

/// The head row: the time of the last accepted command, and the numbers of redemptions and of sessions.
#[derive(Clone, Copy, Debug, PartialEq, Eq)]
pub struct Head {
    /// The time of the last accepted command, or 0.
    pub last: Moment,
    /// The number of redemptions.
    pub grants: u64,
    /// The number of sessions.
    pub sessions: u64,
}

/// Returns whether a session is open at `t`: not closed, before its end, and below its allowance.
pub fn is_open(session: &Session, t: Moment) -> bool
    ensures { result ≡ is_open_at t session.now }
{
    session.closed.is_none()
        && session.ends.is_none_or(|ends| t < ends)
        && session
            .allowance
            .is_none_or(|allowance| session.used < allowance)
}
