//! The UPDATE statements, one for each function. Each fails with `IntegralValueOutOfRange`, and writes
//! nothing, if a number does not fit in an INTEGER column.

ghost use Rattle.portal_codes.specs.Code.{text_of};
ghost use Rattle.portal_tables_rows.specs.Steps.{
  Writes,
  ends_row,
  with_close,
  with_ends,
  with_schema_version,
  with_moment,
};
ghost use Rattle.portal_tables_rows.specs.Steps.{
  with_numbers,
  with_redeemed,
  with_refund,
  with_sale,
  with_use,
};

use crate::column_values::{PrintedText, Total, integer, seconds_or_null};
use portal_codes::Code;
use portal_model::moment::Moment;
use portal_tables_sql::query::write;
use portal_tables_sql::statements::{
    SET_CLOSED, SET_HEAD_NUMBERS, SET_LAST_MOMENT, SET_REDEEMED, SET_REFUNDED, SET_SCHEMA_VERSION,
    SET_SESSION_TOTAL, SET_SOLD, SET_USED,
};
use sqlite::{Alter, Error, Transaction, params};

/// Sets when the voucher was sold.
pub(crate) fn set_sold<S: Alter>(
    tx: &mut Transaction<'_, S>,
    code: &Code,
    at: Moment,
) -> Result<(), Error>
    ensures { Writes S.Store (with_sale (text_of code.now) at) tx.old tx.new result }
{
    let text = code.text();
    write(
        tx,
        SET_SOLD,
        params![
            PrintedText {
                bytes: text.as_bytes()
            },
            at.get() as i64
        ],
    )
}

/// Sets when the voucher was refunded, and the amount in hundredths.
pub(crate) fn set_refunded<S: Alter>(
    tx: &mut Transaction<'_, S>,
    code: &Code,
    at: Moment,
    amount: u64,
) -> Result<(), Error>
    ensures { Writes S.Store (with_refund (text_of code.now) at amount) tx.old tx.new result }
{
    let text = code.text();
    write(
        tx,
        SET_REFUNDED,
        params![
            PrintedText {
                bytes: text.as_bytes()
            },
            at.get() as i64,
            integer(amount)?
        ],
    )
}

/// Sets the time of the last command in the head row.
pub(crate) fn set_last_moment<S: Alter>(
    tx: &mut Transaction<'_, S>,
    at: Moment,
) -> Result<(), Error>
    ensures { Writes S.Store (with_moment at) tx.old tx.new result }
{
    write(tx, SET_LAST_MOMENT, params![at.get() as i64])
}

/// Sets the time of the last command and the numbers of redemptions and sessions in the head row.
pub(crate) fn set_head_numbers<S: Alter>(
    tx: &mut Transaction<'_, S>,
    at: Moment,
    grants: u64,
    sessions: u64,
) -> Result<(), Error>
    ensures { Writes S.Store (with_numbers at grants sessions) tx.old tx.new result }
{
    write(
        tx,
        SET_HEAD_NUMBERS,
        params![at.get() as i64, integer(grants)?, integer(sessions)?],
    )
}

/// Sets the schema version in the head row.
pub fn set_schema_version<S: Alter>(
    tx: &mut Transaction<'_, S>,
    schema_version: u64,
) -> Result<(), Error>
    ensures { Writes S.Store (with_schema_version schema_version) tx.old tx.new result }
{
    write(tx, SET_SCHEMA_VERSION, params![integer(schema_version)?])
}

/// Sets how many bytes the session has used.
pub(crate) fn set_used<S: Alter>(
    tx: &mut Transaction<'_, S>,
    number: u64,
    used: u64,
) -> Result<(), Error>
    ensures { Writes S.Store (with_use number used) tx.old tx.new result }
{
    write(tx, SET_USED, params![integer(number)?, integer(used)?])
}

/// Sets when the session was closed.
pub(crate) fn set_closed<S: Alter>(
    tx: &mut Transaction<'_, S>,
    number: u64,
    at: Moment,
) -> Result<(), Error>
    ensures { Writes S.Store (with_close number at) tx.old tx.new result }
{
    write(tx, SET_CLOSED, params![integer(number)?, at.get() as i64])
}

/// Sets how often the voucher was redeemed.
pub(crate) fn set_redeemed<S: Alter>(
    tx: &mut Transaction<'_, S>,
    code: &Code,
    redeemed: u64,
) -> Result<(), Error>
    ensures { Writes S.Store (with_redeemed (text_of code.now) redeemed) tx.old tx.new result }
{
    let text = code.text();
    write(
        tx,
        SET_REDEEMED,
        params![
            PrintedText {
                bytes: text.as_bytes()
            },
            integer(redeemed)?
        ],
    )
}

/// Sets the end of the session and its remaining allowance.
pub(crate) fn set_session_total<S: Alter>(
    tx: &mut Transaction<'_, S>,
    total: &Total,
) -> Result<(), Error>
    ensures { Writes S.Store (with_ends (ends_row total.now)) tx.old tx.new result }
{
    let ends = seconds_or_null(total.ends);
    write(
        tx,
        SET_SESSION_TOTAL,
        params![integer(total.number)?, ends, total.remaining],
    )
}
