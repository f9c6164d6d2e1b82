//! Lists whose entries are read from several tables: open sessions, and sales with their prices.

ghost use Rattle.std.specs.Prelude.{◌≡◌, filter};
ghost use Rattle.portal_model.specs.Captive.{all_sessions};
ghost use Rattle.portal_model.specs.History.{is_open_at};
ghost use Rattle.portal_model.specs.Rows.{batches_of, plans_of};
ghost use Rattle.portal_tables.specs.PaymentLists.{AreOrderedSales, AreSales};
ghost use Rattle.portal_tables.specs.HoldsLedger.{ReadsHistory};

use crate::prices::{price_sales, prices_by_batch};
use crate::records::sessions_among;
use portal_model::moment::Moment;
use portal_model::plan::Plan;
use portal_model::record::{Batch, Session};
use portal_tables_rows::lists::{list_open_sessions, list_sales_as_issued, list_sales_by_moment};
use portal_tables_rows::rows::RowError;
use portal_tables_rows::whole::{read_all_batches, read_all_plans};
use sqlite::{Alter, Connection};
use std::alloc::Global;

/// Reads the sessions that are open at the time `t`, ordered by number. It reads all plans once, and looks
/// no session up by its number.
pub(crate) fn read_open_sessions<S: Alter>(
    alloc: Global,
    conn: &mut Connection<S>,
    t: Moment,
) -> Result<Vec<Session>, RowError>
    ensures { ReadsHistory S.Store conn.old conn.new result
        (λ h sessions. sessions.items ≡ filter (is_open_at t) (all_sessions h)) }
{
    let plans = read_all_plans(conn)?;
    let rows = list_open_sessions(alloc, conn, t)?;
    Ok(sessions_among(alloc, &plans, &rows)?)
}

/// Reads all plans and all batches.
fn read_plans_and_batches<S: Alter>(
    conn: &mut Connection<S>,
) -> Result<(Vec<Plan>, Vec<Batch>), RowError>
    ensures { ReadsHistory S.Store conn.old conn.new result
        (λ h both. (both.0.items ≡ plans_of h) × (both.1.items ≡ batches_of h)) }
{
    let plans = read_all_plans(conn)?;
    let batches = read_all_batches(conn)?;
    Ok((plans, batches))
}

/// Reads the sales between two times, both included, each as its time and its price in hundredths. They
/// are in the order in which their vouchers were issued. It reads the plans and the batches once.
pub(crate) fn read_sales_as_issued<S: Alter>(
    alloc: Global,
    conn: &mut Connection<S>,
    from: Moment,
    to: Moment,
) -> Result<Vec<(Moment, u64)>, RowError>
    ensures { ReadsHistory S.Store conn.old conn.new result
        (λ h payments. AreSales h from to payments.items) }
{
    let (plans, batches) = read_plans_and_batches(conn)?;
    let prices = prices_by_batch(alloc, &plans, &batches)?;
    let sales = list_sales_as_issued(alloc, conn, from, to)?;
    Ok(price_sales(alloc, &prices, &sales)?)
}

/// Reads the sales between two times, both included, each as its time and its price in hundredths. They
/// are ordered by time and then by the voucher's printed code. It reads the plans and the batches once.
pub(crate) fn read_sales_by_moment<S: Alter>(
    alloc: Global,
    conn: &mut Connection<S>,
    from: Moment,
    to: Moment,
) -> Result<Vec<(Moment, u64)>, RowError>
    ensures { ReadsHistory S.Store conn.old conn.new result
        (λ h payments. AreOrderedSales h from to payments.items) }
{
    let (plans, batches) = read_plans_and_batches(conn)?;
    let prices = prices_by_batch(alloc, &plans, &batches)?;
    let sales = list_sales_by_moment(alloc, conn, from, to)?;
    Ok(price_sales(alloc, &prices, &sales)?)
}
