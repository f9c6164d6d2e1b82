//! Filtered and ordered lists: the codes of a batch, the open sessions, and the sales and refunds between
//! two times.

ghost use Rattle.std.specs.Prelude.{◌≡◌, IfOk, IsSome, List, map, filter, true, bytes_eq, All};
ghost use Rattle.portal_codes.specs.Code.{IsCode, text_of};
ghost use Rattle.portal_model.specs.Device.{IsDevice};
ghost use Rattle.portal_model.specs.Rows.{VoucherRow};
ghost use Rattle.portal_tables_rows.specs.Foreign.{AreOwn, IsOwnRefund, IsOwnTotal, IsOwnVoucher, OnlyMemory};
ghost use Rattle.portal_tables_rows.specs.Foreign.{IsOfOwn, IsOwnSession};
ghost use Rattle.portal_tables_rows.specs.Selects.{ReadsRow};
ghost use Rattle.portal_tables_rows.specs.Lists.{Lists, ListsAs, ListsOpen, is_within};
ghost use Rattle.portal_tables_rows.specs.Lists.{IsOwnSale, sale_cells};
ghost use Rattle.portal_tables_rows.specs.Lists.{
  by_place,
  by_refund,
  by_sale,
  sale_columns,
  sale_read,
};
ghost use Rattle.portal_tables_rows.specs.Lists.{refund_columns, refund_read};
ghost use Rattle.portal_tables_rows.specs.Audit.{AreAmong};
ghost use Rattle.portal_tables_rows.specs.Read.{voucher_read, voucher_count, whole_session_read};

use crate::from_row::FromRow;
use crate::queries::read_many;
use crate::rows::{RowError, SessionValue, VoucherValue, id_in, moment_in};
use portal_codes::Code;
use portal_model::moment::Moment;
use portal_model::name::Id;
use portal_model::proof::witness;
use portal_tables_sql::statements::{
    SELECT_BATCH_VOUCHERS, SELECT_OPEN_SESSIONS, SELECT_REFUNDED_VOUCHERS, SELECT_SALES_AS_ISSUED,
    SELECT_SOLD_VOUCHERS,
};
use sqlite::{Alter, Connection, Row, params};
use std::alloc::Global;

/// A sale of a voucher: the voucher's batch, and the time.
#[derive(Clone, Copy, Debug, PartialEq, Eq)]
pub struct SaleValue {
    pub batch: Id,
    pub at: Moment,
}

impl FromRow for SaleValue {
    ghost cells = { λ sale. sale_cells (sale_read sale) };

    ghost width = { 2 };

    ghost proper = { λ _. Unit {0} };

    ghost own = { IsOfOwn sale_cells IsOwnSale };

    /// Reads the batch and the time of a sale from two columns.
    fn from_row(row: &Row) -> Result<SaleValue, RowError> {
        Ok(SaleValue {
            batch: id_in(row, 0)?,
            at: moment_in(row, 1)?,
        })
    }
}

/// Returns the codes of these vouchers, in this order. The only error is out of memory.
pub(crate) fn codes_of_vouchers(
    alloc: Global,
    vouchers: &[VoucherValue],
) -> Result<Vec<Code>, RowError>
    ensures read { IfOk result
        (λ codes. map text_of codes.items ≡ map (λ v. (voucher_read v).code) vouchers.now) }
    ensures codes { IfOk result (λ codes. All IsCode codes.items) }
    ensures memory { OnlyMemory result }
{
    let mut codes = Vec::new(alloc);
    for voucher in vouchers {
        // The contract of `text` says that this is a code.
        witness(voucher.code.text());
        codes.push(voucher.code)?;
    }
    Ok(codes)
}

/// Returns the sale of a voucher. Fails with `ForeignRow` if the voucher was not sold.
fn sale_of(voucher: &VoucherValue) -> Result<SaleValue, RowError>
    ensures read { IfOk result (λ sale. sale_read sale ≡ sale_columns (voucher_read voucher.now)) }
    ensures own { IsSome (voucher_read voucher.now).sold → OnlyMemory result }
{
    match voucher.sold {
        Some(at) => Ok(SaleValue {
            batch: voucher.batch,
            at,
        }),
        None => Err(RowError::ForeignRow),
    }
}

/// Returns the sales of these vouchers, in this order. Fails with `ForeignRow` if one was not sold.
fn sales_of_vouchers(alloc: Global, vouchers: &[VoucherValue]) -> Result<Vec<SaleValue>, RowError>
    ensures read { IfOk result
        (λ sales. map sale_read sales.items ≡ map (λ v. sale_columns (voucher_read v)) vouchers.now) }
    ensures own { AreOwn (λ v. IsSome v.sold) (map voucher_read vouchers.now) → OnlyMemory result }
{
    let mut sales = Vec::new(alloc);
    for voucher in vouchers {
        sales.push(sale_of(voucher)?)?;
    }
    Ok(sales)
}

/// Returns the refund of a voucher: the time, and the amount in hundredths. Fails with `ForeignRow` if
/// the voucher was not refunded.
fn refund_of(voucher: &VoucherValue) -> Result<(Moment, u64), RowError>
    ensures read { IfOk result (λ refund. refund_read refund ≡ refund_columns (voucher_read voucher.now)) }
    ensures own { IsOwnRefund (voucher_read voucher.now) → OnlyMemory result }
{
    match (voucher.refunded, voucher.amount) {
        (Some(at), Some(amount)) => Ok((at, amount)),
        _ => Err(RowError::ForeignRow),
    }
}

/// Returns the refunds of these vouchers, in this order. Fails with `ForeignRow` if one was not
/// refunded.
fn refunds_of_vouchers(
    alloc: Global,
    vouchers: &[VoucherValue],
) -> Result<Vec<(Moment, u64)>, RowError>
    ensures read { IfOk result
        (λ refunds. map refund_read refunds.items ≡ map (λ v. refund_columns (voucher_read v)) vouchers.now) }
    ensures own { AreOwn IsOwnRefund (map voucher_read vouchers.now) → OnlyMemory result }
{
    let mut refunds = Vec::new(alloc);
    for voucher in vouchers {
        refunds.push(refund_of(voucher)?)?;
    }
    Ok(refunds)
}

/// Lists the vouchers of a batch, ordered by place, each with how often it was redeemed.
pub fn list_batch_vouchers<S: Alter>(
    alloc: Global,
    conn: &mut Connection<S>,
    batch: &Id,
) -> Result<Vec<VoucherValue>, RowError>
    ensures { ReadsRow S.Store conn.old conn.new result
        (λ t vouchers. Lists (λ v. bytes_eq batch.now v.batch) by_place t.vouchers
        (map voucher_read vouchers.items) × AreAmong (map voucher_count vouchers.items) t.counts)
        (λ t. AreOwn IsOwnVoucher t.vouchers) }
{
    read_many(alloc, conn, SELECT_BATCH_VOUCHERS, params![batch.text()])
}

/// Lists the codes of a batch, ordered by place.
pub fn list_batch_codes<S: Alter>(
    alloc: Global,
    conn: &mut Connection<S>,
    batch: &Id,
) -> Result<Vec<Code>, RowError>
    ensures codes { IfOk result (λ codes. All IsCode codes.items) }
    ensures reads { ReadsRow S.Store conn.old conn.new result
        (λ t codes. ListsAs (λ v. v.code) (λ v. bytes_eq batch.now v.batch) by_place t.vouchers
        (map text_of codes.items))
        (λ t. AreOwn IsOwnVoucher t.vouchers) }
{
    let vouchers = list_batch_vouchers(alloc, conn, batch)?;
    Ok(codes_of_vouchers(alloc, &vouchers)?)
}

/// Lists the rows of the sessions that are open at the time `at`, ordered by number, each with its end and
/// its remaining allowance.
pub fn list_open_sessions<S: Alter>(
    alloc: Global,
    conn: &mut Connection<S>,
    at: Moment,
) -> Result<Vec<SessionValue>, RowError>
    ensures of_rows { IfOk result (λ sessions. All (λ row. IsDevice row.device) sessions.items) }
    ensures reads { ReadsRow S.Store conn.old conn.new result
        (λ t sessions. ListsOpen at t.sessions t.totals (map whole_session_read sessions.items))
        (λ t. AreOwn IsOwnSession t.sessions × AreOwn IsOwnTotal t.totals) }
{
    read_many(alloc, conn, SELECT_OPEN_SESSIONS, params![at.get() as i64])
}

/// Lists the sales between two times, both included, in the order in which their vouchers were issued.
pub fn list_sales_as_issued<S: Alter>(
    alloc: Global,
    conn: &mut Connection<S>,
    from: Moment,
    to: Moment,
) -> Result<Vec<SaleValue>, RowError>
    ensures { ReadsRow S.Store conn.old conn.new result
        (λ t sales. map sale_read sales.items
        ≡ map sale_columns (filter (λ v. is_within from to v.sold) t.vouchers))
        (λ t. AreOwn IsOwnVoucher t.vouchers) }
{
    read_many(
        alloc,
        conn,
        SELECT_SALES_AS_ISSUED,
        params![from.get() as i64, to.get() as i64],
    )
}

/// Lists the sales between two times, both included, ordered by time and then by the voucher's printed
/// code.
pub fn list_sales_by_moment<S: Alter>(
    alloc: Global,
    conn: &mut Connection<S>,
    from: Moment,
    to: Moment,
) -> Result<Vec<SaleValue>, RowError>
    ensures { ReadsRow S.Store conn.old conn.new result
        (λ t sales. ListsAs sale_columns (λ v. is_within from to v.sold) by_sale t.vouchers
        (map sale_read sales.items))
        (λ t. AreOwn IsOwnVoucher t.vouchers) }
{
    let vouchers: Vec<VoucherValue> = read_many(
        alloc,
        conn,
        SELECT_SOLD_VOUCHERS,
        params![from.get() as i64, to.get() as i64],
    )?;
    Ok(sales_of_vouchers(alloc, &vouchers)?)
}

/// Lists the refunds between two times, both included, each as its time and its amount in hundredths.
/// They are ordered by time and then by the voucher's printed code.
pub fn list_refunds<S: Alter>(
    alloc: Global,
    conn: &mut Connection<S>,
    from: Moment,
    to: Moment,
) -> Result<Vec<(Moment, u64)>, RowError>
    ensures { ReadsRow S.Store conn.old conn.new result
        (λ t refunds. ListsAs refund_columns (λ v. is_within from to v.refunded) by_refund t.vouchers
        (map refund_read refunds.items))
        (λ t. AreOwn IsOwnVoucher t.vouchers) }
{
    let vouchers: Vec<VoucherValue> = read_many(
        alloc,
        conn,
        SELECT_REFUNDED_VOUCHERS,
        params![from.get() as i64, to.get() as i64],
    )?;
    Ok(refunds_of_vouchers(alloc, &vouchers)?)
}
