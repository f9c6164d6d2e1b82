//! The decision on redeeming a voucher.
ghost use Rattle.std.specs.Prelude.{◌≡◌, ◌≢◌, ◌≤◌, IfOk, IfErr, Some, None, true, false};
ghost use Rattle.portal_model.specs.History.{is_open_at, kept_if};
ghost use Rattle.portal_model.specs.Verdict.{
  redeem_verdict,
  voucher_verdict,
  voucher_refusal,
  place_verdict,
  same_limits,
  is_past,
};
ghost use Rattle.portal_model.specs.Change.{session_after, raised_by, redemption, redeem_change};

use portal_model::change::{Changes, RedeemChange};
use portal_model::moment::Moment;
use portal_model::name::Device;
use portal_model::plan::Plan;
use portal_model::record::{Head, Session, Voucher, is_open};
use portal_model::refusal::Refusal;

/// The most bytes that one session may be granted in all.
const GREATEST_ALLOWANCE: u64 = 9_000_000_000_000_000;

/// The most redemptions that there may be in all.
const GREATEST_COUNT: u64 = 9_007_199_254_740_991;

/// Decides whether a voucher may be redeemed at `t` for a device whose last session is `last`. If that
/// session is open, it is extended by the plan's seconds and bytes; else a new session opens with the next
/// number.
///
/// Errors, the first that applies. Of the voucher: `UnknownCode` without a voucher, `NotSold`, `Refunded`,
/// `Expired` from its expiry on, `UsedUp`. Of an open session: `NoExtend` if the plan that opened it does
/// not allow extending, `ShapeDiffers` if it limits other quantities than the plan, `AllowanceFull` past
/// 9,000,000,000,000,000 bytes, `MomentRange` if it would end past the maximum time, `NumbersFull` after
/// 9,007,199,254,740,991 redemptions. Of a new session: `MomentRange` and `NumbersFull`.
///
/// The changes are as specified if the head row has no more sessions than redemptions, as in every legal
/// history.
pub fn decide_redeem(
    head: &Head,
    voucher: Option<Voucher>,
    last: Option<Session>,
    device: Device,
    t: Moment,
) -> Result<Changes, Refusal>
    ensures accepts { IfOk result (λ _. redeem_verdict head.now voucher last t ≡ None) }
    ensures refuses { IfErr result (λ r. redeem_verdict head.now voucher last t ≡ Some r) }
    ensures own { IfErr result (λ r. r ≢ Refusal.Stopped) }
    ensures change { head.now.sessions ≤ head.now.grants
        → IfOk result (λ change. redeem_change head.now voucher last device t ≡ Some change) }
{
    let voucher = redeemable_voucher(voucher, t)?;
    let running = session_if_open(last, t);
    redeem_voucher(head, &voucher, &running, device, t)
}

/// Checks whether the voucher may be redeemed at `t`, and returns it.
///
/// Errors: those of the voucher in `decide_redeem`.
fn redeemable_voucher(voucher: Option<Voucher>, t: Moment) -> Result<Voucher, Refusal>
    ensures ok { IfOk result (λ v. (voucher ≡ Some v) × (voucher_refusal v t ≡ None)) }
    ensures err { IfErr result (λ r. voucher_verdict voucher t ≡ Some r) }
    ensures own { IfErr result (λ r. r ≢ Refusal.Stopped) }
{
    let Some(voucher) = voucher else {
        return Err(Refusal::UnknownCode);
    };
    if voucher.sold.is_none() {
        return Err(Refusal::NotSold);
    }
    if voucher.refund.is_some() {
        return Err(Refusal::Refunded);
    }
    if t >= voucher.expires {
        return Err(Refusal::Expired);
    }
    if voucher.redeemed >= u64::from(voucher.plan.uses) {
        return Err(Refusal::UsedUp);
    }
    Ok(voucher)
}

/// Returns the device's last session if it is open at `t`.
fn session_if_open(last: Option<Session>, t: Moment) -> Option<Session>
    ensures { result ≡ kept_if (is_open_at t) last }
{
    last.filter(|session| is_open(session, t))
}

/// Makes the changes of a redemption, in the open session `running` of the device or in a new one.
///
/// Errors: those of the session in `decide_redeem`.
fn redeem_voucher(
    head: &Head,
    voucher: &Voucher,
    running: &Option<Session>,
    device: Device,
    t: Moment,
) -> Result<Changes, Refusal>
    ensures accepts { IfOk result (λ _. place_verdict head.now voucher.now.plan t running.now ≡ None) }
    ensures refuses { IfErr result (λ r. place_verdict head.now voucher.now.plan t running.now ≡ Some r) }
    ensures own { IfErr result (λ r. r ≢ Refusal.Stopped) }
    ensures change { head.now.sessions ≤ head.now.grants
        → IfOk result (λ change. change ≡ redemption head.now running.now device t voucher.now) }
{
    let session = place_in_session(head, *running, voucher.plan, device, t)?;
    Ok(Changes::RedeemChange(RedeemChange {
        at: t,
        head: *head,
        voucher: *voucher,
        running: *running,
        session,
    }))
}

/// Returns the session after the redemption: the open one extended, or a new one.
///
/// Errors: those of the session in `decide_redeem`.
fn place_in_session(
    head: &Head,
    running: Option<Session>,
    plan: Plan,
    device: Device,
    t: Moment,
) -> Result<Session, Refusal>
    ensures ok { IfOk result (λ _. place_verdict head.now plan t running ≡ None) }
    ensures err { IfErr result (λ r. place_verdict head.now plan t running ≡ Some r) }
    ensures own { IfErr result (λ r. r ≢ Refusal.Stopped) }
    ensures after { head.now.sessions ≤ head.now.grants
        → IfOk result (λ after. after ≡ session_after head.now plan running device t) }
{
    match running {
        Some(session) => extend_session(head, session, plan, device, t),
        None => new_session(head, plan, device, t),
    }
}

/// Extends the open session by the seconds and bytes of the plan.
///
/// Errors: those of an open session in `decide_redeem`.
fn extend_session(
    head: &Head,
    session: Session,
    plan: Plan,
    device: Device,
    t: Moment,
) -> Result<Session, Refusal>
    ensures ok { IfOk result (λ after. (place_verdict head.now plan t (Some session) ≡ None)
        × (after ≡ session_after head.now plan (Some session) device t)) }
    ensures err { IfErr result (λ r. place_verdict head.now plan t (Some session) ≡ Some r) }
    ensures own { IfErr result (λ r. r ≢ Refusal.Stopped) }
{
    if !session.extend {
        return Err(Refusal::NoExtend);
    }
    if !has_same_limits(&session, &plan) {
        return Err(Refusal::ShapeDiffers);
    }
    let allowance = raise_allowance(session.allowance, plan.bytes)?;
    let ends = raise_end(session.ends, plan.seconds)?;
    if head.grants >= GREATEST_COUNT {
        return Err(Refusal::NumbersFull);
    }
    Ok(Session {
        ends,
        allowance,
        ..session
    })
}

/// Returns whether the session and the plan limit the same quantities.
fn has_same_limits(session: &Session, plan: &Plan) -> bool
    ensures { result ≡ same_limits session.now plan.now }
{
    session.ends.is_some() == (plan.seconds > 0) && session.allowance.is_some() == (plan.bytes > 0)
}

/// Adds bytes to the allowance of a session, if it has one.
///
/// Error: `AllowanceFull` past 9,000,000,000,000,000 bytes.
fn raise_allowance(allowance: Option<u64>, bytes: u64) -> Result<Option<u64>, Refusal>
    ensures ok { IfOk result (λ more. (is_past 9000000000000000 allowance bytes ≡ false)
        × (more ≡ raised_by allowance bytes)) }
    ensures err { IfErr result (λ r. (is_past 9000000000000000 allowance bytes ≡ true)
        × (r ≡ Refusal.AllowanceFull)) }
{
    let Some(had) = allowance else {
        return Ok(None);
    };
    match had.checked_add(bytes) {
        Some(sum) if sum <= GREATEST_ALLOWANCE => Ok(Some(sum)),
        _ => Err(Refusal::AllowanceFull),
    }
}

/// Adds seconds to the end of a session, if it has one.
///
/// Error: `MomentRange` past the maximum time.
fn raise_end(ends: Option<Moment>, seconds: u32) -> Result<Option<Moment>, Refusal>
    ensures ok { IfOk result (λ more. (is_past 253370764799 ends seconds ≡ false)
        × (more ≡ raised_by ends seconds)) }
    ensures err { IfErr result (λ r. (is_past 253370764799 ends seconds ≡ true) × (r ≡ Refusal.MomentRange)) }
{
    let Some(had) = ends else {
        return Ok(None);
    };
    match Moment::new(had.get() + u64::from(seconds)) {
        Some(end) => Ok(Some(end)),
        None => Err(Refusal::MomentRange),
    }
}

/// Makes a new session of the device at `t`, with the limits of the plan.
///
/// Errors: `MomentRange` if it would end past the maximum time, `NumbersFull` after 9,007,199,254,740,991
/// redemptions.
fn new_session(head: &Head, plan: Plan, device: Device, t: Moment) -> Result<Session, Refusal>
    ensures ok { IfOk result (λ _. place_verdict head.now plan t None ≡ None) }
    ensures err { IfErr result (λ r. place_verdict head.now plan t None ≡ Some r) }
    ensures own { IfErr result (λ r. r ≢ Refusal.Stopped) }
    ensures after { head.now.sessions ≤ head.now.grants
        → IfOk result (λ after. after ≡ session_after head.now plan None device t) }
{
    let Some(end) = Moment::new(t.get() + u64::from(plan.seconds)) else {
        return Err(Refusal::MomentRange);
    };
    if head.grants >= GREATEST_COUNT {
        return Err(Refusal::NumbersFull);
    }
    Ok(Session {
        number: head.sessions.saturating_add(1),
        device,
        plan: plan.id,
        extend: plan.extend,
        opened: t,
        ends: if plan.seconds == 0 { None } else { Some(end) },
        allowance: if plan.bytes == 0 {
            None
        } else {
            Some(plan.bytes)
        },
        used: 0,
        closed: None,
    })
}
