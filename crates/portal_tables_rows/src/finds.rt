//! Reads the row of a key as a value. Each function returns `None` if there is no such row, and fails
//! with `ForeignRow` if the row is not one that this product writes.

ghost use Rattle.std.specs.Prelude.{◌<◌, ◌^◌, IfOk, IfSome, option_map};
ghost use Rattle.portal_codes.specs.Code.{IsCode, text_of};
ghost use Rattle.portal_model.specs.Device.{IsDevice, text_of_device};
ghost use Rattle.sqlite_rules.specs.Lists.{Has};
ghost use Rattle.portal_model.specs.Rows.{VoucherRow, SessionRow};
ghost use Rattle.portal_tables_sql.specs.Finds.{Finds, FindsLast};
ghost use Rattle.portal_tables_rows.specs.Contents.{HeadRow};
ghost use Rattle.portal_tables_rows.specs.Foreign.{AreOwn, IsOwnBatch, IsOwnHead, IsOwnPlan};
ghost use Rattle.portal_tables_rows.specs.Foreign.{IsOwnSession, IsOwnTotal, IsOwnVoucher};
ghost use Rattle.portal_tables_rows.specs.Read.{
  head_read,
  voucher_read,
  voucher_count,
  session_read,
  session_total,
};
ghost use Rattle.portal_tables_rows.specs.Selects.{ReadsRow};

use crate::column_values::PrintedText;
use crate::queries::read_one;
use crate::rows::{HeadValue, RowError, SessionValue, VoucherValue};
use portal_codes::Code;
use portal_model::name::{Device, Id};
use portal_model::plan::Plan;
use portal_model::record::Batch;
use portal_tables_sql::statements::{
    SELECT_BATCH, SELECT_HEAD, SELECT_LAST_SESSION, SELECT_PLAN, SELECT_SESSION, SELECT_VOUCHER,
};
use sqlite::{Alter, Connection, params};

/// Reads the head row: the schema version, the time of the last command, and the numbers of redemptions
/// and sessions.
pub fn read_head_row<S: Alter>(conn: &mut Connection<S>) -> Result<Option<HeadValue>, RowError>
    ensures { ReadsRow S.Store conn.old conn.new result
        (λ t found. Finds (λ (x : HeadRow). x.id) 1 t.heads (option_map head_read found))
        (λ t. AreOwn IsOwnHead t.heads) }
{
    read_one(conn, SELECT_HEAD, &[])
}

/// Reads the plan with this id.
pub fn read_plan_row<S: Alter>(conn: &mut Connection<S>, id: &Id) -> Result<Option<Plan>, RowError>
    ensures { ReadsRow S.Store conn.old conn.new result
        (λ t found. Finds (λ (x : Plan). x.id) id.now t.plans found)
        (λ t. AreOwn IsOwnPlan t.plans) }
{
    read_one(conn, SELECT_PLAN, params![id.text()])
}

/// Reads the batch with this id.
pub fn read_batch_row<S: Alter>(
    conn: &mut Connection<S>,
    id: &Id,
) -> Result<Option<Batch>, RowError>
    ensures { ReadsRow S.Store conn.old conn.new result
        (λ t found. Finds (λ (x : Batch). x.id) id.now t.batches found)
        (λ t. AreOwn IsOwnBatch t.batches) }
{
    read_one(conn, SELECT_BATCH, params![id.text()])
}

/// Reads the row of the voucher with this code, with how often it was redeemed.
pub fn read_voucher_row<S: Alter>(
    conn: &mut Connection<S>,
    code: &Code,
) -> Result<Option<VoucherValue>, RowError>
    ensures code { IsCode code.now }
    ensures reads { ReadsRow S.Store conn.old conn.new result
        (λ t found. Finds (λ (x : VoucherRow). x.code) (text_of code.now) t.vouchers
        (option_map voucher_read found) × IfSome found (λ row. Has t.counts (voucher_count row)))
        (λ t. AreOwn IsOwnVoucher t.vouchers) }
{
    let text = code.text();
    read_one(
        conn,
        SELECT_VOUCHER,
        params![PrintedText {
            bytes: text.as_bytes()
        }],
    )
}

/// Reads the row of the session with this number, with its end and its remaining allowance.
pub fn read_session_row<S: Alter>(
    conn: &mut Connection<S>,
    number: u64,
) -> Result<Option<SessionValue>, RowError>
    requires { number < 2 ^ 63 }
    ensures of_row { IfOk result (λ found. IfSome found (λ row. IsDevice row.device)) }
    ensures reads { ReadsRow S.Store conn.old conn.new result
        (λ t found. Finds (λ (x : SessionRow). x.number) number t.sessions (option_map session_read found)
        × IfSome found (λ row. Has t.totals (session_total row)))
        (λ t. AreOwn IsOwnSession t.sessions × AreOwn IsOwnTotal t.totals) }
{
    read_one(conn, SELECT_SESSION, params![number as i64])
}

/// Reads the row of the device's last session, the one with the greatest number, with its end and its
/// remaining allowance.
pub fn read_last_session_row<S: Alter>(
    conn: &mut Connection<S>,
    device: &Device,
) -> Result<Option<SessionValue>, RowError>
    ensures device { IsDevice device.now }
    ensures of_row { IfOk result (λ found. IfSome found (λ row. IsDevice row.device)) }
    ensures reads { ReadsRow S.Store conn.old conn.new result
        (λ t found. FindsLast (λ (x : SessionRow). x.device) (text_of_device device.now)
        (λ (x : SessionRow). x.number) t.sessions (option_map session_read found)
        × IfSome found (λ row. Has t.totals (session_total row)))
        (λ t. AreOwn IsOwnSession t.sessions × AreOwn IsOwnTotal t.totals) }
{
    let text = device.text();
    read_one(
        conn,
        SELECT_LAST_SESSION,
        params![PrintedText { bytes: &text }],
    )
}
