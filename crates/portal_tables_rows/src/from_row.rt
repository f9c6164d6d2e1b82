//! Reads a row of each table as a value, by the trait `FromRow`.

ghost use Rattle.std.specs.Prelude.{◌≡◌, ◌≤◌, ℕ, length, IfOk};
ghost use Rattle.sqlite.specs.Order.{Row as Cells};
ghost use Rattle.portal_model.specs.Device.{IsDevice};
ghost use Rattle.portal_tables_sql.specs.Finds.{columns};
ghost use Rattle.portal_tables_rows.specs.Contents.{head_cells, plan_cells, batch_cells, voucher_cells};
ghost use Rattle.portal_tables_rows.specs.Contents.{session_cells, count_cells, total_cells};
ghost use Rattle.portal_tables_rows.specs.Contents.{whole_voucher_cells, whole_session_cells};
ghost use Rattle.portal_tables_rows.specs.Foreign.{IsOfOwn, IsOwnBatch, IsOwnCount, IsOwnHead, IsOwnPlan};
ghost use Rattle.portal_tables_rows.specs.Foreign.{IsOwnSession, IsOwnTotal, IsOwnVoucher, OnlyMemory};
ghost use Rattle.portal_tables_rows.specs.Foreign.{IsOwnWholeSession, IsOwnWholeVoucher};
ghost use Rattle.portal_tables_rows.specs.Read.{
  head_read,
  whole_voucher_read,
  old_voucher_read,
  whole_session_read,
  old_session_read,
  count_read,
};
ghost use Rattle.portal_tables_rows.specs.Steps.{ends_row};

use crate::column_values::Total;
use crate::rows::{
    CountValue, HeadValue, OldSession, OldVoucher, RowError, SessionValue, VoucherValue, code_in,
    device_in, flag_in, id_in, moment_in, moment_or_null_in, number_in, number_or_null_in,
    signed_or_null_in,
};
use portal_model::plan::Plan;
use portal_model::record::Batch;
use sqlite::Row;

/// A value that is read from one row of a table.
pub trait FromRow: Sized {
    // The cells of the value, and how many columns of a row they take.
    ghost cells: { Self → Cells };

    ghost width: { ℕ };

    // What holds of each value that is read.
    ghost proper: { Self → Type 0 };

    // Which cells are those of a row that this product writes.
    ghost own: { Cells → Type 0 };

    /// Reads a row as a value. Fails with `ForeignRow` if the row is not one that this product writes.
    fn from_row(row: &Row) -> Result<Self, RowError>
        ensures cells { IfOk result (λ x. cells x ≡ columns width row.now) }
        ensures proper { IfOk result proper }
        ensures own { own (columns width row.now) → width ≤ length row.now → OnlyMemory result };
}

impl FromRow for HeadValue {
    ghost cells = { λ head. head_cells (head_read head) };

    ghost width = { 5 };

    ghost proper = { λ _. Unit {0} };

    ghost own = { IsOfOwn head_cells IsOwnHead };

    /// Reads the row of `portal_head`. Fails with `ForeignRow` if its id is not 1.
    fn from_row(row: &Row) -> Result<HeadValue, RowError> {
        let id = number_in(row, 0)?;
        if id != 1 {
            return Err(RowError::ForeignRow);
        }
        Ok(HeadValue {
            schema_version: number_in(row, 1)?,
            last: moment_in(row, 2)?,
            grants: number_in(row, 3)?,
            sessions: number_in(row, 4)?,
        })
    }
}

impl FromRow for Plan {
    ghost cells = { plan_cells };

    ghost width = { 7 };

    ghost proper = { λ _. Unit {0} };

    ghost own = { IsOfOwn plan_cells IsOwnPlan };

    /// Reads a row of `portal_plans`. Fails with `ForeignRow` if the plan is not within the limits.
    fn from_row(row: &Row) -> Result<Plan, RowError> {
        let id = id_in(row, 0)?;
        let price = number_in(row, 1)?;
        let uses = number_in(row, 2)?;
        let seconds = number_in(row, 3)?;
        let bytes = number_in(row, 4)?;
        let shelf_days = number_in(row, 5)?;
        let extend = flag_in(row, 6)?;
        let plan = Plan::new(id, price, uses, seconds, bytes, shelf_days, extend);
        plan.map_err(|_| RowError::ForeignRow)
    }
}

impl FromRow for Batch {
    ghost cells = { batch_cells };

    ghost width = { 5 };

    ghost proper = { λ _. Unit {0} };

    ghost own = { IsOfOwn batch_cells IsOwnBatch };

    /// Reads a row of `portal_batches`.
    fn from_row(row: &Row) -> Result<Batch, RowError> {
        Ok(Batch {
            id: id_in(row, 0)?,
            plan: id_in(row, 1)?,
            issued: moment_in(row, 2)?,
            expires: moment_in(row, 3)?,
            size: number_in(row, 4)?,
        })
    }
}

impl FromRow for VoucherValue {
    ghost cells = { λ voucher. whole_voucher_cells (whole_voucher_read voucher) };

    ghost width = { 7 };

    ghost proper = { λ _. Unit {0} };

    ghost own = { IsOfOwn whole_voucher_cells IsOwnWholeVoucher };

    /// Reads a row of `portal_vouchers`.
    fn from_row(row: &Row) -> Result<VoucherValue, RowError> {
        Ok(VoucherValue {
            code: code_in(row, 0)?,
            batch: id_in(row, 1)?,
            place: number_in(row, 2)?,
            sold: moment_or_null_in(row, 3)?,
            refunded: moment_or_null_in(row, 4)?,
            amount: number_or_null_in(row, 5)?,
            redeemed: number_in(row, 6)?,
        })
    }
}

impl FromRow for OldVoucher {
    ghost cells = { λ voucher. voucher_cells (old_voucher_read voucher) };

    ghost width = { 6 };

    ghost proper = { λ _. Unit {0} };

    ghost own = { IsOfOwn voucher_cells IsOwnVoucher };

    /// Reads a row of `portal_vouchers` without its count.
    fn from_row(row: &Row) -> Result<OldVoucher, RowError> {
        Ok(OldVoucher {
            code: code_in(row, 0)?,
            batch: id_in(row, 1)?,
            place: number_in(row, 2)?,
            sold: moment_or_null_in(row, 3)?,
            refunded: moment_or_null_in(row, 4)?,
            amount: number_or_null_in(row, 5)?,
        })
    }
}

impl FromRow for SessionValue {
    ghost cells = { λ session. whole_session_cells (whole_session_read session) };

    ghost width = { 8 };

    ghost proper = { λ session. IsDevice session.device };

    ghost own = { IsOfOwn whole_session_cells IsOwnWholeSession };

    /// Reads a row of `portal_sessions`.
    fn from_row(row: &Row) -> Result<SessionValue, RowError> {
        Ok(SessionValue {
            number: number_in(row, 0)?,
            device: device_in(row, 1)?,
            plan: id_in(row, 2)?,
            opened: moment_in(row, 3)?,
            used: number_in(row, 4)?,
            closed: moment_or_null_in(row, 5)?,
            ends: moment_or_null_in(row, 6)?,
            remaining: signed_or_null_in(row, 7)?,
        })
    }
}

impl FromRow for OldSession {
    ghost cells = { λ session. session_cells (old_session_read session) };

    ghost width = { 6 };

    ghost proper = { λ session. IsDevice session.device };

    ghost own = { IsOfOwn session_cells IsOwnSession };

    /// Reads a row of `portal_sessions` without its total.
    fn from_row(row: &Row) -> Result<OldSession, RowError> {
        Ok(OldSession {
            number: number_in(row, 0)?,
            device: device_in(row, 1)?,
            plan: id_in(row, 2)?,
            opened: moment_in(row, 3)?,
            used: number_in(row, 4)?,
            closed: moment_or_null_in(row, 5)?,
        })
    }
}

impl FromRow for CountValue {
    ghost cells = { λ count. count_cells (count_read count) };

    ghost width = { 2 };

    ghost proper = { λ _. Unit {0} };

    ghost own = { IsOfOwn count_cells IsOwnCount };

    /// Reads a row of `portal_counts`.
    fn from_row(row: &Row) -> Result<CountValue, RowError> {
        Ok(CountValue {
            code: code_in(row, 0)?,
            redeemed: number_in(row, 1)?,
        })
    }
}

impl FromRow for Total {
    ghost cells = { λ total. total_cells (ends_row total) };

    ghost width = { 3 };

    ghost proper = { λ _. Unit {0} };

    ghost own = { IsOfOwn total_cells IsOwnTotal };

    /// Reads the end and the remaining allowance of a session.
    fn from_row(row: &Row) -> Result<Total, RowError> {
        Ok(Total {
            number: number_in(row, 0)?,
            ends: moment_or_null_in(row, 1)?,
            remaining: signed_or_null_in(row, 2)?,
        })
    }
}
