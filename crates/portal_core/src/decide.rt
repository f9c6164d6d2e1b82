//! The decisions on commands: whether a command is accepted, and what it changes. Each decision returns the
//! first error that applies, in the order of its verdict. One that allocates may return `NoMemory` instead.
ghost use Rattle.std.specs.Prelude.{◌≡◌, ◌≤◌};
ghost use Rattle.portal_core.specs.Decision.{IsDecision};
ghost use Rattle.portal_model.specs.History.{amount_left};
ghost use Rattle.portal_model.specs.Verdict.{sell_verdict, report_verdict, refund_verdict, close_verdict};
ghost use Rattle.portal_model.specs.Change.{sell_change, report_change, refund_change, close_change};

mod issue;
mod plans;
mod redeem;

pub use issue::decide_issue;
pub use plans::decide_plans;
use portal_model::change::{Changes, CloseChange, RefundChange, ReportChange, SellChange};
use portal_model::moment::Moment;
use portal_model::plan::Plan;
use portal_model::record::{Session, Voucher};
use portal_model::refusal::Refusal;
pub use redeem::decide_redeem;

/// Decides whether a voucher may be sold at `t`. A refunded voucher stays sold.
///
/// Errors, the first that applies: `UnknownCode` without a voucher, `SoldAlready`, `Expired` from its
/// expiry on.
pub fn decide_sell(voucher: Option<Voucher>, t: Moment) -> Result<Changes, Refusal>
    ensures { IsDecision result (sell_verdict voucher t) (sell_change voucher t) }
{
    let Some(voucher) = voucher else {
        return Err(Refusal::UnknownCode);
    };
    if voucher.sold.is_some() {
        return Err(Refusal::SoldAlready);
    }
    if t >= voucher.expires {
        return Err(Refusal::Expired);
    }
    Ok(Changes::SellChange(SellChange { at: t, voucher }))
}

/// Decides on a report of bytes for a session. A closed session and one that has ended accept reports too.
///
/// Error: `UnknownSession` without a session.
pub fn decide_report(session: Option<Session>, bytes: u64, t: Moment) -> Result<Changes, Refusal>
    ensures { IsDecision result (report_verdict session) (report_change session bytes t) }
{
    let Some(session) = session else {
        return Err(Refusal::UnknownSession);
    };
    Ok(Changes::ReportChange(ReportChange {
        at: t,
        session,
        bytes,
    }))
}

/// Returns the price of the uses of a voucher that are left, rounded down to hundredths.
fn amount_left(plan: Plan, redeemed: u64) -> u64
    requires { redeemed ≤ plan.uses }
    ensures { result ≡ amount_left plan redeemed }
{
    u64::from(plan.price) * (u64::from(plan.uses) - redeemed) / u64::from(plan.uses)
}

/// Decides whether the unused uses of a voucher may be refunded at `t`. An expired voucher may be refunded.
///
/// Errors, the first that applies: `UnknownCode` without a voucher, `NotSold`, `Refunded`, `NothingLeft` if
/// no use is left.
pub fn decide_refund(voucher: Option<Voucher>, t: Moment) -> Result<Changes, Refusal>
    ensures { IsDecision result (refund_verdict voucher) (refund_change voucher t) }
{
    let Some(voucher) = voucher else {
        return Err(Refusal::UnknownCode);
    };
    if voucher.sold.is_none() {
        return Err(Refusal::NotSold);
    }
    if voucher.refund.is_some() {
        return Err(Refusal::Refunded);
    }
    if voucher.redeemed >= u64::from(voucher.plan.uses) {
        return Err(Refusal::NothingLeft);
    }
    Ok(Changes::RefundChange(RefundChange {
        at: t,
        voucher,
        amount: amount_left(voucher.plan, voucher.redeemed),
    }))
}

/// Decides whether a session may be closed at `t`.
///
/// Errors, the first that applies: `UnknownSession` without a session, `ClosedAlready`.
pub fn decide_close(session: Option<Session>, t: Moment) -> Result<Changes, Refusal>
    ensures { IsDecision result (close_verdict session) (close_change session t) }
{
    let Some(session) = session else {
        return Err(Refusal::UnknownSession);
    };
    if session.closed.is_some() {
        return Err(Refusal::ClosedAlready);
    }
    Ok(Changes::CloseChange(CloseChange { at: t, session }))
}
