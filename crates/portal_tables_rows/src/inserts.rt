//! The INSERT statements, one for each table but `portal_requests`. Each fails with
//! `IntegralValueOutOfRange`, and writes nothing, if a number does not fit in an INTEGER column.

ghost use Rattle.portal_codes.specs.Code.{text_of};
ghost use Rattle.portal_tables_rows.specs.Read.{whole_voucher_read, whole_session_read};
ghost use Rattle.portal_tables_rows.specs.Steps.{
  Writes,
  first_head,
  granted_row,
  new_whole_voucher,
  opened_whole,
};
ghost use Rattle.portal_tables_rows.specs.Steps.{with_batch, with_grant, with_head, with_plan};
ghost use Rattle.portal_tables_rows.specs.Steps.{with_whole_voucher, with_whole_session};

use crate::column_values::{PrintedText, integer, integer_or_null, seconds_or_null};
use crate::rows::{SessionValue, VoucherValue};
use portal_codes::Code;
use portal_model::moment::Moment;
use portal_model::name::Id;
use portal_model::plan::Plan;
use portal_model::record::{Batch, Session};
use portal_tables_sql::query::write;
use portal_tables_sql::statements::{
    INSERT_BATCH, INSERT_GRANT, INSERT_HEAD, INSERT_PLAN, INSERT_SESSION, INSERT_VOUCHER,
    INSERT_WHOLE_SESSION, INSERT_WHOLE_VOUCHER,
};
use sqlite::{Alter, Error, Transaction, params};

/// Inserts a plan.
pub(crate) fn insert_plan<S: Alter>(tx: &mut Transaction<'_, S>, plan: &Plan) -> Result<(), Error>
    ensures { Writes S.Store (with_plan plan.now) tx.old tx.new result }
{
    write(
        tx,
        INSERT_PLAN,
        params![
            plan.id.text(),
            plan.price,
            plan.uses,
            plan.seconds,
            plan.bytes as i64,
            plan.shelf_days,
            plan.extend
        ],
    )
}

/// Inserts a batch.
pub(crate) fn insert_batch<S: Alter>(
    tx: &mut Transaction<'_, S>,
    batch: &Batch,
) -> Result<(), Error>
    ensures { Writes S.Store (with_batch batch.now) tx.old tx.new result }
{
    write(
        tx,
        INSERT_BATCH,
        params![
            batch.id.text(),
            batch.plan.text(),
            batch.issued.get() as i64,
            batch.expires.get() as i64,
            integer(batch.size)?
        ],
    )
}

/// Inserts a voucher at its place in the batch, which was not redeemed.
pub(crate) fn insert_voucher<S: Alter>(
    tx: &mut Transaction<'_, S>,
    code: &Code,
    batch: &Id,
    place: usize,
) -> Result<(), Error>
    ensures { Writes S.Store (with_whole_voucher (new_whole_voucher batch.now place (text_of code.now)))
        tx.old tx.new result }
{
    let text = code.text();
    write(
        tx,
        INSERT_VOUCHER,
        params![
            PrintedText {
                bytes: text.as_bytes()
            },
            batch.text(),
            integer(place as u64)?
        ],
    )
}

/// Inserts a voucher with all its columns.
pub(crate) fn insert_whole_voucher<S: Alter>(
    tx: &mut Transaction<'_, S>,
    voucher: &VoucherValue,
) -> Result<(), Error>
    ensures { Writes S.Store (with_whole_voucher (whole_voucher_read voucher.now)) tx.old tx.new result }
{
    let text = voucher.code.text();
    write(
        tx,
        INSERT_WHOLE_VOUCHER,
        params![
            PrintedText {
                bytes: text.as_bytes()
            },
            voucher.batch.text(),
            integer(voucher.place)?,
            seconds_or_null(voucher.sold),
            seconds_or_null(voucher.refunded),
            integer_or_null(voucher.amount)?,
            integer(voucher.redeemed)?
        ],
    )
}

/// Inserts a session that is opened on this plan, with its end and this remaining allowance.
pub(crate) fn insert_session<S: Alter>(
    tx: &mut Transaction<'_, S>,
    session: &Session,
    plan: &Id,
    remaining: Option<i64>,
) -> Result<(), Error>
    ensures { Writes S.Store (with_whole_session (opened_whole session.now plan.now remaining))
        tx.old tx.new result }
{
    let text = session.device.text();
    write(
        tx,
        INSERT_SESSION,
        params![
            integer(session.number)?,
            PrintedText { bytes: &text },
            plan.text(),
            session.opened.get() as i64,
            seconds_or_null(session.ends),
            remaining
        ],
    )
}

/// Inserts a session with all its columns.
pub(crate) fn insert_whole_session<S: Alter>(
    tx: &mut Transaction<'_, S>,
    session: &SessionValue,
) -> Result<(), Error>
    ensures { Writes S.Store (with_whole_session (whole_session_read session.now)) tx.old tx.new result }
{
    let text = session.device.text();
    write(
        tx,
        INSERT_WHOLE_SESSION,
        params![
            integer(session.number)?,
            PrintedText { bytes: &text },
            session.plan.text(),
            session.opened.get() as i64,
            integer(session.used)?,
            seconds_or_null(session.closed),
            seconds_or_null(session.ends),
            session.remaining
        ],
    )
}

/// Inserts a redemption of the code in this session, with the seconds and bytes of the plan.
pub(crate) fn insert_grant<S: Alter>(
    tx: &mut Transaction<'_, S>,
    number: u64,
    code: &Code,
    session: u64,
    at: Moment,
    plan: &Plan,
) -> Result<(), Error>
    ensures { Writes S.Store (with_grant (granted_row number (text_of code.now) session at plan.now))
        tx.old tx.new result }
{
    let text = code.text();
    write(
        tx,
        INSERT_GRANT,
        params![
            integer(number)?,
            PrintedText {
                bytes: text.as_bytes()
            },
            integer(session)?,
            at.get() as i64,
            plan.seconds,
            plan.bytes as i64
        ],
    )
}

/// Inserts the head row of an empty database, with this schema version.
pub fn insert_head<S: Alter>(tx: &mut Transaction<'_, S>, schema_version: u64) -> Result<(), Error>
    ensures { Writes S.Store (with_head (first_head schema_version)) tx.old tx.new result }
{
    write(tx, INSERT_HEAD, params![integer(schema_version)?])
}
