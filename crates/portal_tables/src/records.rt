//! Reads the records of a history, each from several tables.

ghost use Rattle.std.specs.Prelude.{◌≡◌, All, Some, IfOk, is_some, map};
ghost use Rattle.portal_model.specs.History.{History, plan_of, batch_of, issued_of, voucher_of, session_of};
ghost use Rattle.portal_model.specs.History.{last_session_of};
ghost use Rattle.portal_model.specs.Device.{IsDevice};
ghost use Rattle.portal_model.specs.Rows.{allowance_from, plans_of};
ghost use Rattle.portal_model.specs.Verdict.{IsLegal};
ghost use Rattle.portal_tables.specs.HoldsLedger.{IsRowOf, ReadsHistory};

use portal_codes::Code;
use portal_model::name::{Device, Id};
use portal_model::plan::Plan;
use portal_model::record::{Batch, Session, Voucher};
use portal_tables_rows::finds::{
    read_batch_row, read_last_session_row, read_plan_row, read_session_row, read_voucher_row,
};
use portal_tables_rows::rows::{RowError, SessionValue};
use portal_tables_rows::sums::first_plan_with;
use sqlite::{Alter, Connection};
use std::alloc::Global;

/// Reads a batch and its plan. Fails with `ForeignRow` if one is missing.
pub(crate) fn read_batch_and_plan<S: Alter>(
    conn: &mut Connection<S>,
    id: &Id,
) -> Result<(Batch, Plan), RowError>
    ensures { ReadsHistory S.Store conn.old conn.new result
        (λ h terms. (batch_of h id.now ≡ Some terms.0) × (plan_of h terms.0.plan ≡ Some terms.1)) }
{
    let Some(batch) = read_batch_row(conn, id)? else {
        return Err(RowError::ForeignRow);
    };
    match read_plan_row(conn, &batch.plan)? {
        Some(plan) => Ok((batch, plan)),
        None => Err(RowError::ForeignRow),
    }
}

/// Reads the voucher with this code, with its plan, its expiry and how often it was redeemed, or `None`.
pub(crate) fn read_voucher<S: Alter>(
    conn: &mut Connection<S>,
    code: &Code,
) -> Result<Option<Voucher>, RowError>
    ensures { ReadsHistory S.Store conn.old conn.new result (λ h found. found ≡ voucher_of h code.now) }
{
    let Some(row) = read_voucher_row(conn, code)? else {
        return Ok(None);
    };
    let (batch, plan) = read_batch_and_plan(conn, &row.batch)?;
    Ok(Some(Voucher {
        code: *code,
        batch: row.batch,
        plan,
        expires: batch.expires,
        sold: row.sold,
        refund: row.amount,
        redeemed: row.redeemed,
    }))
}

/// Whether a voucher with this code was issued.
pub(crate) fn read_is_held<S: Alter>(
    conn: &mut Connection<S>,
    code: &Code,
) -> Result<bool, RowError>
    ensures { ReadsHistory S.Store conn.old conn.new result
        (λ h held. held ≡ is_some (issued_of h code.now)) }
{
    let found = read_voucher_row(conn, code)?;
    Ok(found.is_some())
}

/// Computes the allowance of a session: the sum of what remains and what was used. It is `None` if there
/// is no limit. Fails with `ForeignRow` if the sum is below 0 or does not fit.
fn allowance_of(remaining: Option<i64>, used: u64) -> Result<Option<u64>, RowError>
    ensures { IfOk result (λ allowance. allowance ≡ allowance_from remaining used) }
{
    let Some(left) = remaining else {
        return Ok(None);
    };
    let Ok(used) = i64::try_from(used) else {
        return Err(RowError::ForeignRow);
    };
    let Some(sum) = left.checked_add(used) else {
        return Err(RowError::ForeignRow);
    };
    match u64::try_from(sum) {
        Ok(allowance) => Ok(Some(allowance)),
        Err(_) => Err(RowError::ForeignRow),
    }
}

/// 2^63: an INTEGER column holds the numbers below it.
pub(crate) const LIMIT: u64 = 1 << 63;

/// Makes a session from its row and its plan, with its end, its allowance and whether the plan extends
/// sessions.
fn session_of_plan(plan: &Plan, row: &SessionValue) -> Result<Session, RowError>
    requires { IsDevice row.now.device }
    ensures { IfOk result (λ session. (h : History) → IsLegal h → plan_of h row.now.plan ≡ Some plan.now
        → IsRowOf h row.now → Some session ≡ session_of h row.now.number) }
{
    let allowance = allowance_of(row.remaining, row.used)?;
    Ok(Session {
        number: row.number,
        device: row.device,
        plan: row.plan,
        extend: plan.extend,
        opened: row.opened,
        ends: row.ends,
        allowance,
        used: row.used,
        closed: row.closed,
    })
}

/// Makes a session from its row. Fails with `ForeignRow` if its plan is not among these.
fn session_among(plans: &[Plan], row: &SessionValue) -> Result<Session, RowError>
    requires { IsDevice row.now.device }
    ensures { IfOk result (λ session. (h : History) → IsLegal h → plans.now ≡ plans_of h
        → IsRowOf h row.now → Some session ≡ session_of h row.now.number) }
{
    match first_plan_with(plans, &row.plan) {
        Some(plan) => session_of_plan(plan, row),
        None => Err(RowError::ForeignRow),
    }
}

/// Makes the sessions of these rows, in this order. Fails with `ForeignRow` if a plan is not among these.
pub(crate) fn sessions_among(
    alloc: Global,
    plans: &[Plan],
    rows: &[SessionValue],
) -> Result<Vec<Session>, RowError>
    requires { All (λ row. IsDevice row.device) rows.now }
    ensures { IfOk result (λ sessions. (h : History) → IsLegal h → plans.now ≡ plans_of h
        → All (IsRowOf h) rows.now
        → map Some sessions.items ≡ map (λ row. session_of h row.number) rows.now) }
{
    let mut sessions = Vec::new(alloc);
    for row in rows {
        sessions.push(session_among(plans, row)?)?;
    }
    Ok(sessions)
}

/// Makes a session from its row, and looks its plan up. Fails with `ForeignRow` if the plan is missing.
fn session_of_row<S: Alter>(
    conn: &mut Connection<S>,
    row: &SessionValue,
) -> Result<Session, RowError>
    requires { IsDevice row.now.device }
    ensures { ReadsHistory S.Store conn.old conn.new result
        (λ h session. IsRowOf h row.now → Some session ≡ session_of h row.now.number) }
{
    let Some(plan) = read_plan_row(conn, &row.plan)? else {
        return Err(RowError::ForeignRow);
    };
    Ok(session_of_plan(&plan, row)?)
}

/// Reads the session with this number, or `None`.
pub(crate) fn read_session<S: Alter>(
    conn: &mut Connection<S>,
    number: u64,
) -> Result<Option<Session>, RowError>
    ensures { ReadsHistory S.Store conn.old conn.new result (λ h found. found ≡ session_of h number) }
{
    if number >= LIMIT {
        return Ok(None);
    }
    match read_session_row(conn, number)? {
        Some(row) => Ok(Some(session_of_row(conn, &row)?)),
        None => Ok(None),
    }
}

/// Reads the device's last session, the one with the greatest number, or `None`.
pub(crate) fn read_last_session<S: Alter>(
    conn: &mut Connection<S>,
    device: &Device,
) -> Result<Option<Session>, RowError>
    ensures { ReadsHistory S.Store conn.old conn.new result
        (λ h found. found ≡ last_session_of h device.now) }
{
    match read_last_session_row(conn, device)? {
        Some(row) => Ok(Some(session_of_row(conn, &row)?)),
        None => Ok(None),
    }
}
