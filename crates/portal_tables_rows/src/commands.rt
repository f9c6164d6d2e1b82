//! Writes the changes of a command to the tables, in one transaction.

ghost use Rattle.std.specs.Prelude.{◌≡◌, map, false, IfOk};
ghost use Rattle.portal_codes.specs.Code.{text_of};
ghost use Rattle.portal_model.specs.Change.{sessions_after};
ghost use Rattle.portal_model.specs.Rows.{new_vouchers, new_counts, remaining_of, total_row};
ghost use Rattle.portal_tables_sql.specs.Commits.{Commits};
ghost use Rattle.portal_tables_sql.specs.States.{IsUndone};
ghost use Rattle.portal_tables_rows.specs.Steps.{
  Writes,
  CommitsRows,
  MayCommitRows,
  with_plans,
  with_vouchers,
  with_counts,
};
ghost use Rattle.portal_tables_rows.specs.Steps.{ends_row};
ghost use Rattle.portal_tables_rows.specs.Commands.{
  after_load,
  after_issue,
  after_sell,
  after_placing,
  after_grant,
  after_redeem,
  after_remainder,
};
ghost use Rattle.portal_tables_rows.specs.Commands.{after_report, after_refund, after_close, after_changes};
ghost use Rattle.portal_tables_rows.specs.Commands.{after_command_with, with_kept_request};

use crate::column_values::{Total, integer, next};
use crate::inserts::{insert_batch, insert_grant, insert_plan, insert_session, insert_voucher};
use crate::requests::insert_request;
use crate::updates::{
    set_closed, set_head_numbers, set_last_moment, set_redeemed, set_refunded, set_session_total,
    set_sold, set_used,
};
use portal_codes::Code;
use portal_ledger::marked::MarkedChanges;
use portal_ledger::request::RequestMark;
use portal_model::change::{
    Answer, Changes, CloseChange, IssueChange, LoadChange, RedeemChange, RefundChange,
    ReportChange, SellChange,
};
use portal_model::name::Id;
use portal_model::plan::Plan;
use portal_model::record::Session;
use sqlite::{Alter, Connection, Error, Transaction};

/// Returns what remains of a session's allowance, below 0 if more was used. Fails with
/// `IntegralValueOutOfRange` if a number does not fit in an INTEGER column.
fn remaining_of(session: &Session) -> Result<Option<i64>, Error>
    ensures { IfOk result (λ left. left ≡ remaining_of session.now.used session.now.allowance) }
{
    let Some(allowance) = session.allowance else {
        return Ok(None);
    };
    Ok(Some(integer(allowance)? - integer(session.used)?))
}

/// Returns the end of a session and its remaining allowance. Fails with `IntegralValueOutOfRange` if a number
/// does not fit in an INTEGER column.
fn total_of(session: &Session) -> Result<Total, Error>
    ensures { IfOk result (λ total. ends_row total ≡ total_row session.now) }
{
    Ok(Total {
        number: session.number,
        ends: session.ends,
        remaining: remaining_of(session)?,
    })
}

/// Inserts these plans, in this order.
fn insert_plans<S: Alter>(tx: &mut Transaction<'_, S>, plans: &[Plan]) -> Result<(), Error>
    ensures { Writes S.Store (with_plans plans.now) tx.old tx.new result }
{
    for plan in plans {
        insert_plan(tx, plan)?;
    }
    Ok(())
}

/// Inserts the vouchers of a batch, in this order. None was redeemed.
fn insert_vouchers<S: Alter>(
    tx: &mut Transaction<'_, S>,
    batch: &Id,
    codes: &[Code],
) -> Result<(), Error>
    ensures { Writes S.Store (λ t. with_counts (new_counts (map text_of codes.now))
        (with_vouchers (new_vouchers batch.now 0 (map text_of codes.now)) t))
        tx.old tx.new result }
{
    for (place, code) in codes.iter().enumerate() {
        insert_voucher(tx, code, batch, place)?;
    }
    Ok(())
}

/// Writes a load: inserts the new plans and sets the time of the last command.
fn apply_load<S: Alter>(tx: &mut Transaction<'_, S>, c: &LoadChange) -> Result<(), Error>
    ensures { Writes S.Store (after_load c.now) tx.old tx.new result }
{
    insert_plans(tx, c.added.as_slice())?;
    set_last_moment(tx, c.at)
}

/// Writes an issue: inserts the batch and its vouchers, and sets the time of the last command.
fn apply_issue<S: Alter>(tx: &mut Transaction<'_, S>, c: &IssueChange) -> Result<(), Error>
    ensures { Writes S.Store (after_issue c.now) tx.old tx.new result }
{
    insert_batch(tx, &c.batch)?;
    insert_vouchers(tx, &c.batch.id, c.codes.as_slice())?;
    set_last_moment(tx, c.at)
}

/// Writes a sale: sets when the voucher was sold, and the time of the last command.
fn apply_sell<S: Alter>(tx: &mut Transaction<'_, S>, c: &SellChange) -> Result<(), Error>
    ensures { Writes S.Store (after_sell c.now) tx.old tx.new result }
{
    set_sold(tx, &c.voucher.code, c.at)?;
    set_last_moment(tx, c.at)
}

/// Writes the session of a redemption: sets the end of the running session, or inserts a new session.
fn extend_or_insert_session<S: Alter>(
    tx: &mut Transaction<'_, S>,
    c: &RedeemChange,
) -> Result<(), Error>
    ensures { Writes S.Store (after_placing c.now.running c.now.session c.now.voucher.plan)
        tx.old tx.new result }
{
    let total = total_of(&c.session)?;
    match c.running {
        Some(_) => set_session_total(tx, &total),
        None => insert_session(tx, &c.session, &c.voucher.plan.id, total.remaining),
    }
}

/// Writes the session of a redemption, and inserts the redemption.
fn apply_grant<S: Alter>(tx: &mut Transaction<'_, S>, c: &RedeemChange) -> Result<(), Error>
    ensures { Writes S.Store (after_grant c.now) tx.old tx.new result }
{
    extend_or_insert_session(tx, c)?;
    insert_grant(
        tx,
        next(c.head.grants)?,
        &c.voucher.code,
        c.session.number,
        c.at,
        &c.voucher.plan,
    )
}

/// Returns the number of sessions after a redemption: one more if it opens a session. Fails with
/// `IntegralValueOutOfRange` if an INTEGER column does not hold that.
fn sessions_after(c: &RedeemChange) -> Result<u64, Error>
    ensures { IfOk result (λ n. n ≡ sessions_after c.now.head.sessions c.now.running) }
{
    match c.running {
        Some(_) => Ok(c.head.sessions),
        None => next(c.head.sessions),
    }
}

/// Writes a redemption: its session, its row, the count of its voucher, and the numbers in the head row.
fn apply_redeem<S: Alter>(tx: &mut Transaction<'_, S>, c: &RedeemChange) -> Result<(), Error>
    ensures { Writes S.Store (after_redeem c.now) tx.old tx.new result }
{
    apply_grant(tx, c)?;
    set_redeemed(tx, &c.voucher.code, next(c.voucher.redeemed)?)?;
    set_head_numbers(tx, c.at, next(c.head.grants)?, sessions_after(c)?)
}

/// Sets the session's remaining allowance. It runs no statement for a session without an allowance.
fn set_remaining<S: Alter>(tx: &mut Transaction<'_, S>, session: &Session) -> Result<(), Error>
    ensures { Writes S.Store (after_remainder session.now.allowance (total_row session.now))
        tx.old tx.new result }
{
    match session.allowance {
        Some(_) => set_session_total(tx, &total_of(session)?),
        None => Ok(()),
    }
}

/// Writes a usage report: the bytes used, the remaining allowance, and the time of the last command.
fn apply_report<S: Alter>(tx: &mut Transaction<'_, S>, c: &ReportChange) -> Result<(), Error>
    ensures { Writes S.Store (after_report c.now) tx.old tx.new result }
{
    let after = c.after();
    set_used(tx, after.number, after.used)?;
    set_remaining(tx, &after)?;
    set_last_moment(tx, c.at)
}

/// Writes a refund: sets when the voucher was refunded and the amount, and the time of the last command.
fn apply_refund<S: Alter>(tx: &mut Transaction<'_, S>, c: &RefundChange) -> Result<(), Error>
    ensures { Writes S.Store (after_refund c.now) tx.old tx.new result }
{
    set_refunded(tx, &c.voucher.code, c.at, c.amount)?;
    set_last_moment(tx, c.at)
}

/// Writes a close: sets when the session was closed, and the time of the last command.
fn apply_close<S: Alter>(tx: &mut Transaction<'_, S>, c: &CloseChange) -> Result<(), Error>
    ensures { Writes S.Store (after_close c.now) tx.old tx.new result }
{
    set_closed(tx, c.session.number, c.at)?;
    set_last_moment(tx, c.at)
}

/// Writes the changes of a command, inside a transaction. It does not commit.
fn apply_changes<S: Alter>(tx: &mut Transaction<'_, S>, changes: &Changes) -> Result<(), Error>
    ensures { Writes S.Store (after_changes changes.now) tx.old tx.new result }
{
    match changes {
        Changes::LoadChange(c) => apply_load(tx, c),
        Changes::IssueChange(c) => apply_issue(tx, c),
        Changes::SellChange(c) => apply_sell(tx, c),
        Changes::RedeemChange(c) => apply_redeem(tx, c),
        Changes::ReportChange(c) => apply_report(tx, c),
        Changes::RefundChange(c) => apply_refund(tx, c),
        Changes::CloseChange(c) => apply_close(tx, c),
    }
}

/// Inserts the request of a command with its answer, if the request has an idempotency key.
fn insert_request_if_keyed<S: Alter>(
    tx: &mut Transaction<'_, S>,
    mark: &Option<RequestMark>,
    answer: &Answer,
) -> Result<(), Error>
    ensures { Writes S.Store (with_kept_request mark.now answer.now) tx.old tx.new result }
{
    match mark {
        Some(mark) => insert_request(tx, mark, answer),
        None => Ok(()),
    }
}

/// Writes the changes of a command, and its request with the answer if it has an idempotency key, inside
/// a transaction. It does not commit.
fn apply_with_fingerprint<S: Alter>(
    tx: &mut Transaction<'_, S>,
    marked: &MarkedChanges,
    answer: &Answer,
) -> Result<(), Error>
    ensures { Writes S.Store (after_command_with marked.now answer.now) tx.old tx.new result }
{
    apply_changes(tx, &marked.changes)?;
    insert_request_if_keyed(tx, &marked.mark, answer)
}

/// Commits a command in one transaction: its changes, and its request with the answer if it has an
/// idempotency key. Fails with `IntegralValueOutOfRange` if a number does not fit in an INTEGER column.
/// On an error the database is as it was while the connection is open; a crash state may have the whole
/// change.
pub fn commit_command<S: Alter>(
    conn: &mut Connection<S>,
    marked: &MarkedChanges,
    answer: &Answer,
) -> Result<(), Error>
    requires { conn.old.in_transaction ≡ false }
    ensures { Commits S.Store (CommitsRows (after_command_with marked.now answer.now)) IsUndone
        (MayCommitRows (after_command_with marked.now answer.now)) conn.old conn.new result }
{
    let mut tx = conn.transaction();
    apply_with_fingerprint(&mut tx, marked, answer)?;
    tx.commit()?;
    Ok(())
}
