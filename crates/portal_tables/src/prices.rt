//! The prices of sales, from the plans and the batches in memory.

ghost use Rattle.std.specs.Prelude.{◌≡◌, IfOk, Some, bytes_eq, map};
ghost use Rattle.std.specs.HashMap.{get_by};
ghost use Rattle.portal_tables_rows.specs.Lists.{sale_read};
ghost use Rattle.portal_model.specs.Change.{plan_among};
ghost use Rattle.portal_tables.specs.PaymentLists.{payment_of};
ghost use Rattle.portal_tables.specs.Prices.{ArePrices, payment_at};

use portal_model::moment::Moment;
use portal_model::plan::Plan;
use portal_model::record::Batch;
use portal_tables_rows::lists::SaleValue;
use portal_tables_rows::rows::RowError;
use portal_tables_rows::sums::first_plan_with;
use std::alloc::Global;
use std::collections::HashMap;

/// Finds the price of a batch, in hundredths: the price of its plan. Fails with `ForeignRow` if the plan
/// is missing.
fn price_of_batch(plans: &[Plan], batch: &Batch) -> Result<u64, RowError>
    ensures { IfOk result
        (λ price. (plan : Plan) × (plan_among plans.now batch.now.plan ≡ Some plan) × (price ≡ plan.price)) }
{
    match first_plan_with(plans, &batch.plan) {
        Some(plan) => Ok(u64::from(plan.price)),
        None => Err(RowError::ForeignRow),
    }
}

/// Returns a map from batch ids to prices in hundredths. If two batches have one id, the first counts.
/// Fails with `ForeignRow` if the plan of a batch is missing.
pub(crate) fn prices_by_batch<'a>(
    alloc: Global,
    plans: &[Plan],
    batches: &'a [Batch],
) -> Result<HashMap<&'a str, u64>, RowError>
    ensures { IfOk result
        (λ prices. ArePrices plans.now batches.now (λ id. get_by (λ k. bytes_eq id k.now) prices)) }
{
    let mut prices = HashMap::new(alloc);
    for batch in batches {
        let price = price_of_batch(plans, batch)?;
        let id = batch.id.text();
        if !prices.contains_key(id) {
            prices.insert(id, price)?;
        }
    }
    Ok(prices)
}

/// Returns the time and the price of a sale. Fails with `ForeignRow` if the sale's batch is not in the
/// map.
fn price_of_sale(prices: &HashMap<&str, u64>, sale: &SaleValue) -> Result<(Moment, u64), RowError>
    ensures { IfOk result
        (λ payment. payment_at (get_by (λ k. bytes_eq sale.now.batch k.now) prices.now)
        (sale_read sale.now) ≡ Some (payment_of payment)) }
{
    match prices.get(sale.batch.text()) {
        Some(price) => Ok((sale.at, *price)),
        None => Err(RowError::ForeignRow),
    }
}

/// Returns the time and the price of each of these sales, in this order.
pub(crate) fn price_sales(
    alloc: Global,
    prices: &HashMap<&str, u64>,
    sales: &[SaleValue],
) -> Result<Vec<(Moment, u64)>, RowError>
    ensures { IfOk result
        (λ payments. map (λ s. payment_at (get_by (λ k. bytes_eq s.batch k.now) prices.now)
        (sale_read s)) sales.now ≡ map (λ p. Some (payment_of p)) payments.items) }
{
    let mut payments = Vec::new(alloc);
    for sale in sales {
        payments.push(price_of_sale(prices, sale)?)?;
    }
    Ok(payments)
}
