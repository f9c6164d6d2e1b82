//! What an accepted command changes, and the answer to it.

ghost use Rattle.std.specs.Prelude.{◌≡◌};
ghost use Rattle.portal_model.specs.Change.{answer_of};

use crate::lists::{Codes, Plans};
use crate::moment::Moment;
use crate::name::Id;
use crate::record::{Batch, Head, Session, Voucher, is_open};
use portal_codes::Code;

/// The changes of an accepted command: its time, and the records that it was decided by.
#[derive(Drop)]
pub enum Changes {
    LoadChange(LoadChange),
    IssueChange(IssueChange),
    SellChange(SellChange),
    RedeemChange(RedeemChange),
    ReportChange(ReportChange),
    RefundChange(RefundChange),
    CloseChange(CloseChange),
}

/// The listed plans that were not loaded before.
#[derive(Drop)]
pub struct LoadChange {
    pub at: Moment,
    /// The number of plans in the list.
    pub listed: u64,
    /// The listed plans that are new.
    pub added: Plans,
}

/// A new batch, with its codes.
#[derive(Drop)]
pub struct IssueChange {
    pub at: Moment,
    pub batch: Batch,
    pub codes: Codes,
}

/// The sale of a voucher that was not sold.
#[derive(Clone, Copy, Debug, PartialEq, Eq)]
pub struct SellChange {
    pub at: Moment,
    pub voucher: Voucher,
}

/// A redemption: the head row and the voucher before it, the open session that it extends if there is one,
/// and the session after it.
#[derive(Clone, Copy, Debug, PartialEq, Eq)]
pub struct RedeemChange {
    pub at: Moment,
    pub head: Head,
    pub voucher: Voucher,
    /// The open session that it extends, if there is one.
    pub running: Option<Session>,
    pub session: Session,
}

/// A report of bytes for a session, with the session as it was before.
#[derive(Clone, Copy, Debug, PartialEq, Eq)]
pub struct ReportChange {
    pub at: Moment,
    pub session: Session,
    pub bytes: u64,
}

/// The refund of a voucher that was not refunded.
#[derive(Clone, Copy, Debug, PartialEq, Eq)]
pub struct RefundChange {
    pub at: Moment,
    pub voucher: Voucher,
    pub amount: u64,
}

/// The close of a session that was not closed.
#[derive(Clone, Copy, Debug, PartialEq, Eq)]
pub struct CloseChange {
    pub at: Moment,
    pub session: Session,
}

/// The answer to an accepted command. Prices and amounts are in hundredths of the currency.
#[derive(Clone, Copy, Debug, PartialEq, Eq)]
pub enum Answer {
    /// The number of plans in the list.
    LoadAnswer {
        plans: u64,
    },
    /// The batch, the number of its codes, and its expiry.
    IssueAnswer {
        batch: Id,
        count: u64,
        expires: Moment,
    },
    /// The code, and the price of the voucher.
    SellAnswer {
        code: Code,
        price: u64,
    },
    /// Whether an open session was extended, the number of the session, and the uses that are left.
    RedeemAnswer {
        extended: bool,
        session: u64,
        uses_left: u64,
    },
    /// Whether the session is still open, its number, and its used bytes.
    ReportAnswer {
        still_open: bool,
        session: u64,
        used: u64,
    },
    /// The amount of the refund, and the code.
    RefundAnswer {
        amount: u64,
        code: Code,
    },
    /// The number of the session.
    CloseAnswer {
        session: u64,
    },
}

impl Changes {
    /// Returns the answer to the command whose changes these are. It is valid once they are committed.
    pub fn answer(&self) -> Answer
        ensures { result ≡ answer_of self.now }
    {
        match self {
            Changes::LoadChange(c) => Answer::LoadAnswer { plans: c.listed },
            Changes::IssueChange(c) => Answer::IssueAnswer {
                batch: c.batch.id,
                count: c.batch.size,
                expires: c.batch.expires,
            },
            Changes::SellChange(c) => Answer::SellAnswer {
                code: c.voucher.code,
                price: u64::from(c.voucher.plan.price),
            },
            Changes::RedeemChange(c) => Answer::RedeemAnswer {
                extended: c.running.is_some(),
                session: c.session.number,
                uses_left: u64::from(c.voucher.plan.uses)
                    .saturating_sub(c.voucher.redeemed)
                    .saturating_sub(1),
            },
            Changes::ReportChange(c) => {
                let after = c.after();
                Answer::ReportAnswer {
                    still_open: is_open(&after, c.at),
                    session: after.number,
                    used: after.used,
                }
            }
            Changes::RefundChange(c) => Answer::RefundAnswer {
                amount: c.amount,
                code: c.voucher.code,
            },
            Changes::CloseChange(c) => Answer::CloseAnswer {
                session: c.session.number,
            },
        }
    }
}

impl ReportChange {
    ghost use Rattle.portal_model.specs.Change.{with_report};

    /// Returns the session after the report: its used bytes are the greater of both numbers.
    pub fn after(&self) -> Session
        ensures { result ≡ with_report self.now.bytes self.now.session }
    {
        Session {
            used: self.bytes.max(self.session.used),
            ..self.session
        }
    }
}
