//! Reads vouchers with their batches: those of a batch, those whose codes begin with a text, and the list of
//! batches.

ghost use Rattle.std.specs.Prelude.{◌≡◌, ◌<◌, Some, IfOk, All, map, length, option_map};
ghost use Rattle.std.specs.List.{filter_map};
ghost use Rattle.portal_codes.specs.Code.{IsCode};
ghost use Rattle.portal_model.specs.Batches.{vouchers_in, AreVouchersLike};
ghost use Rattle.portal_model.specs.History.{History, plan_of, batch_of, voucher_of};
ghost use Rattle.portal_model.specs.Verdict.{IsLegal};
ghost use Rattle.portal_tables.specs.BatchLists.{
  AreFirstAfter,
  AreTerms,
  AreVouchersOf,
  IsVoucherOf,
  text_above,
};
ghost use Rattle.portal_tables.specs.HoldsLedger.{ReadsHistory};

use crate::records::read_batch_and_plan;
use portal_model::name::Id;
use portal_model::plan::Plan;
use portal_model::proof::witness;
use portal_model::record::{Batch, Voucher};
use portal_tables_rows::lists::list_batch_vouchers;
use portal_tables_rows::pages::{list_batches_behind, list_vouchers_between};
use portal_tables_rows::rows::{RowError, VoucherValue};
use sqlite::{Alter, Connection};
use std::alloc::{AllocError, Global};

/// A batch with its plan, and the id by which it was found.
#[derive(Clone, Copy, Debug, PartialEq, Eq)]
pub(crate) struct Terms {
    pub id: Id,
    pub batch: Batch,
    pub plan: Plan,
}

/// Reads the batch with this id and its plan, unless they are those that were read before. Fails with
/// `ForeignRow` if one is missing.
fn read_terms<S: Alter>(
    conn: &mut Connection<S>,
    id: &Id,
    before: Option<Terms>,
) -> Result<Terms, RowError>
    ensures id { IfOk result (λ terms. terms.id ≡ id.now) }
    ensures reads { ReadsHistory S.Store conn.old conn.new result
        (λ h terms. AreTerms h before → AreTerms h (Some terms)) }
{
    match before {
        Some(terms) if terms.id.is(id) => Ok(terms),
        _ => {
            let (batch, plan) = read_batch_and_plan(conn, id)?;
            Ok(Terms {
                id: *id,
                batch,
                plan,
            })
        }
    }
}

/// Makes a voucher from its row and its terms.
fn voucher_of_row(row: &VoucherValue, terms: &Terms) -> Voucher
    requires { terms.now.id ≡ row.now.batch }
    ensures code { IsCode row.now.code }
    ensures voucher { (h : History) → IsLegal h → IsVoucherOf h row.now → AreTerms h (Some terms.now)
        → Some result ≡ voucher_of h row.now.code }
{
    // The contract of `text` gives that the value is a code.
    witness(row.code.text());
    Voucher {
        code: row.code,
        batch: row.batch,
        plan: terms.plan,
        expires: terms.batch.expires,
        sold: row.sold,
        refund: row.amount,
        redeemed: row.redeemed,
    }
}

/// Makes the vouchers of rows, in this order. The batch and the plan of rows that follow one another are read
/// once. Fails with `ForeignRow` if one is missing.
pub(crate) fn vouchers_of_rows<S: Alter>(
    alloc: Global,
    conn: &mut Connection<S>,
    rows: &[VoucherValue],
) -> Result<Vec<Voucher>, RowError>
    ensures codes { IfOk result (λ _. All (λ row. IsCode row.code) rows.now) }
    ensures reads { ReadsHistory S.Store conn.old conn.new result
        (λ h vouchers. AreVouchersOf h rows.now
        → vouchers.items ≡ filter_map (voucher_of h) (map (λ row. row.code) rows.now)) }
{
    let mut vouchers = Vec::new(alloc);
    let mut before: Option<Terms> = None;
    for row in rows {
        let terms = read_terms(conn, &row.batch, before)?;
        vouchers.push(voucher_of_row(row, &terms))?;
        before = Some(terms);
    }
    Ok(vouchers)
}

/// Reads the vouchers of a batch, in order of issue. The list is empty if there is no such batch.
pub(crate) fn read_vouchers_in<S: Alter>(
    alloc: Global,
    conn: &mut Connection<S>,
    batch: &Id,
) -> Result<Vec<Voucher>, RowError>
    ensures { ReadsHistory S.Store conn.old conn.new result
        (λ h vouchers. vouchers.items ≡ vouchers_in h batch.now) }
{
    let rows = list_batch_vouchers(alloc, conn, batch)?;
    let vouchers = vouchers_of_rows(alloc, conn, &rows)?;
    Ok(vouchers)
}

/// The most vouchers that are found at once by the first characters of their codes.
const MOST_FOUND: usize = 50;

/// Makes the least text that is above each one that begins with this text. The only error is out of memory.
fn text_above(alloc: Global, text: &[u8]) -> Result<Vec<u8>, AllocError>
    requires { All (λ b. b < 128) text.now }
    ensures { IfOk result (λ above. above.items ≡ text_above text.now) }
{
    let mut above = Vec::new(alloc);
    let Some((last, front)) = text.split_last() else {
        return Ok(above);
    };
    above.extend_from_slice(front)?;
    above.push(*last + 1)?;
    Ok(above)
}

/// Reads the first vouchers, by their printed codes, of those that begin with a text, and whether there are
/// more.
pub(crate) fn read_vouchers_like<S: Alter>(
    alloc: Global,
    conn: &mut Connection<S>,
    text: &[u8],
) -> Result<(Vec<Voucher>, bool), RowError>
    requires some { 0 < length text.now }
    requires ascii { All (λ b. b < 128) text.now }
    ensures { ReadsHistory S.Store conn.old conn.new result
        (λ h found. AreVouchersLike h text.now found.0.items found.1) }
{
    let above = text_above(alloc, text)?;
    let listed = list_vouchers_between(alloc, conn, text, &above)?;
    let rows = listed.as_slice();
    let shown = rows.len().min(MOST_FOUND);
    let vouchers = vouchers_of_rows(alloc, conn, &rows[..shown])?;
    Ok((vouchers, rows.len() > MOST_FOUND))
}

/// Reads the first batches of their list, newest first, or of what comes after a batch in it.
pub(crate) fn read_batches_after<S: Alter>(
    alloc: Global,
    conn: &mut Connection<S>,
    before: Option<&Batch>,
) -> Result<Vec<Batch>, RowError>
    ensures { ReadsHistory S.Store conn.old conn.new result
        (λ h batches. AreFirstAfter h (option_map (λ b. b.now) before.entry) batches.items) }
{
    match before {
        Some(batch) => { list_batches_behind(alloc, conn, batch.issued.get(), batch.id.text()) }
        None => list_batches_behind(alloc, conn, i64::MAX as u64, ""),
    }
}
