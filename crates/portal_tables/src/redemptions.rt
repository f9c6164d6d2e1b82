//! Reads the last redemptions of a voucher.

ghost use Rattle.std.specs.Prelude.{◌≡◌, ◌↔◌, ◌<◌, ◌≤◌, ◌^◌, true, Some, IfOk, map};
ghost use Rattle.std.specs.List.{filter_map};
ghost use Rattle.portal_model.specs.Device.{IsDevice};
ghost use Rattle.portal_model.specs.History.{History, grants_of, is_open_at, session_of};
ghost use Rattle.portal_model.specs.Redemptions.{
  first_redemptions,
  is_in_session,
  redemptions_among,
};
ghost use Rattle.portal_model.specs.declared.record.Session.{Session};
ghost use Rattle.portal_tables.specs.HoldsLedger.{IsRowOf, ReadsHistory};
ghost use Rattle.portal_tables.specs.RedemptionLists.{
  AreGrantsOf,
  GivesAll,
  IsGrantOf,
  IsOpenedAt,
  grants_below,
  redemption_numbered,
};

use crate::records::LIMIT;
use portal_codes::Code;
use portal_model::moment::Moment;
use portal_model::redemptions::Redemption;
use portal_tables_rows::finds::read_session_row;
use portal_tables_rows::grants::GrantValue;
use portal_tables_rows::pages::{list_last_grants, read_grant_row};
use portal_tables_rows::rows::{RowError, SessionValue};
use sqlite::{Alter, Connection};
use std::alloc::Global;

/// Reads the redemption with this number. Fails with `ForeignRow` if it is missing.
fn read_grant<S: Alter>(conn: &mut Connection<S>, number: u64) -> Result<GrantValue, RowError>
    requires { number < 2 ^ 63 }
    ensures { ReadsHistory S.Store conn.old conn.new result
        (λ h grant. IsGrantOf h grant × (grant.number ≡ number)) }
{
    match read_grant_row(conn, number)? {
        Some(grant) => Ok(grant),
        None => Err(RowError::ForeignRow),
    }
}

/// Reads whether a session, opened at this time, has a redemption with a number below `number`. It reads the
/// redemptions before that number, and stops at the first one before that time.
fn is_in_older<S: Alter>(
    conn: &mut Connection<S>,
    session: u64,
    opened: Moment,
    number: u64,
) -> Result<bool, RowError>
    requires { number ≤ 2 ^ 63 }
    ensures { ReadsHistory S.Store conn.old conn.new result (λ h found. IsOpenedAt h session opened
        → found ≡ is_in_session session (grants_below (grants_of h) number)) }
{
    let mut next = number;
    while next > 1 {
        next -= 1;
        let older = read_grant(conn, next)?;
        if older.session == session {
            return Ok(true);
        }
        if older.moment < opened {
            return Ok(false);
        }
    }
    Ok(false)
}

/// Returns whether a redemption gave its session all of its seconds or all of its bytes, by the session's row.
fn has_given_all(grant: &GrantValue, session: &SessionValue) -> bool
    ensures { result ≡ true ↔ GivesAll grant.now session.now }
{
    session.ends.is_some_and(|ends| {
        u128::from(ends.get()) == u128::from(session.opened.get()) + u128::from(grant.seconds)
    }) || session.remaining.is_some_and(|left| {
        i128::from(left) + i128::from(session.used) == i128::from(grant.bytes)
    })
}

/// Reads whether a redemption extended its session: whether an older one is in the session. Of a redemption
/// after the time at which the session was opened, the one that opened it is older. A redemption that gave all
/// seconds or all bytes has no older one: the redemption that opened the session gave more than 0 of what the
/// session limits, so with it the sum would be greater. Only for the others the redemptions before are read.
fn has_extended<S: Alter>(
    conn: &mut Connection<S>,
    grant: &GrantValue,
    session: &SessionValue,
) -> Result<bool, RowError>
    ensures { ReadsHistory S.Store conn.old conn.new result (λ h extended. IsGrantOf h grant.now
        → IsRowOf h session.now → session.now.number ≡ grant.now.session
        → extended ≡ is_in_session grant.now.session (grants_below (grants_of h) grant.now.number)) }
{
    if grant.number >= LIMIT {
        return Err(RowError::ForeignRow);
    }
    if grant.moment > session.opened {
        return Ok(true);
    }
    if has_given_all(grant, session) {
        Ok(false)
    } else {
        is_in_older(conn, grant.session, session.opened, grant.number)
    }
}

/// Reads the row of the session with this number. Fails with `ForeignRow` if it is missing.
fn read_row_of_session<S: Alter>(
    conn: &mut Connection<S>,
    number: u64,
) -> Result<SessionValue, RowError>
    ensures device { IfOk result (λ row. IsDevice row.device) }
    ensures reads { ReadsHistory S.Store conn.old conn.new result
        (λ h row. IsRowOf h row × (row.number ≡ number)) }
{
    if number >= LIMIT {
        return Err(RowError::ForeignRow);
    }
    match read_session_row(conn, number)? {
        Some(row) => Ok(row),
        None => Err(RowError::ForeignRow),
    }
}

/// Returns whether a session is open at the time `t`, by its row alone: it is not closed, has not ended, and
/// something remains of its allowance.
fn is_open_row(row: &SessionValue, t: Moment) -> bool
    ensures { (h : History) (s : Session) → IsRowOf h row.now → Some s ≡ session_of h row.now.number
        → result ≡ is_open_at t s }
{
    row.closed.is_none()
        && row.ends.is_none_or(|ends| t < ends)
        && row.remaining.is_none_or(|left| left > 0)
}

/// Makes a redemption, as it is at the time `t`, from its row. Fails with `ForeignRow` if its session is
/// missing.
fn redemption_of_row<S: Alter>(
    conn: &mut Connection<S>,
    t: Moment,
    grant: &GrantValue,
) -> Result<Redemption, RowError>
    ensures { ReadsHistory S.Store conn.old conn.new result (λ h redemption. IsGrantOf h grant.now
        → Some redemption ≡ redemption_numbered h t grant.now.number) }
{
    let session = read_row_of_session(conn, grant.session)?;
    let extended = has_extended(conn, grant, &session)?;
    Ok(Redemption {
        at: grant.moment,
        device: session.device,
        extended,
        is_open: is_open_row(&session, t),
        session: grant.session,
    })
}

/// Makes the redemptions of rows, in this order, as they are at the time `t`. Fails with `ForeignRow` if a
/// row is missing.
fn redemptions_of_rows<S: Alter>(
    alloc: Global,
    conn: &mut Connection<S>,
    t: Moment,
    rows: &[GrantValue],
) -> Result<Vec<Redemption>, RowError>
    ensures { ReadsHistory S.Store conn.old conn.new result (λ h redemptions. AreGrantsOf h rows.now
        → redemptions.items ≡ filter_map (redemption_numbered h t) (map (λ row. row.number) rows.now)) }
{
    let mut redemptions = Vec::new(alloc);
    for row in rows {
        let redemption = redemption_of_row(conn, t, row)?;
        redemptions.push(redemption)?;
    }
    Ok(redemptions)
}

/// The most redemptions that are listed at once.
const MOST_LISTED: usize = 100;

/// Reads the last redemptions with this code, the newest first, as they are at the time `t`, and whether
/// there are more.
pub(crate) fn read_last_redemptions<S: Alter>(
    alloc: Global,
    conn: &mut Connection<S>,
    t: Moment,
    code: &Code,
) -> Result<(Vec<Redemption>, bool), RowError>
    ensures { ReadsHistory S.Store conn.old conn.new result (λ h found. (found.0.items, found.1)
        ≡ first_redemptions (redemptions_among h t code.now (grants_of h))) }
{
    let listed = list_last_grants(alloc, conn, code)?;
    let rows = listed.as_slice();
    let shown = rows.len().min(MOST_LISTED);
    let redemptions = redemptions_of_rows(alloc, conn, t, &rows[..shown])?;
    Ok((redemptions, rows.len() > MOST_LISTED))
}
