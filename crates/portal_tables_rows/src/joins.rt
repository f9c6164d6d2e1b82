//! Puts the vouchers and the sessions of a database whose counters are in tables of their own together with
//! these counters. Both have to be in the same order.

ghost use Rattle.std.specs.Prelude.{◌≡◌, ◌↔◌, IfOk, IsTrue, map};
ghost use Rattle.portal_codes.specs.Code.{text_of};
ghost use Rattle.portal_tables_rows.specs.Foreign.{NotForeign};
ghost use Rattle.portal_tables_rows.specs.Read.{
  count_read,
  old_session_read,
  old_voucher_read,
  session_read,
  session_total,
  voucher_count,
  voucher_read,
};
ghost use Rattle.portal_tables_rows.specs.Steps.{ends_row};

use crate::column_values::Total;
use crate::rows::{CountValue, OldSession, OldVoucher, RowError, SessionValue, VoucherValue};
use portal_codes::Code;
use portal_model::proof::witness;
use std::alloc::Global;

/// Whether two codes are the same.
fn is_same_code(a: &Code, b: &Code) -> bool
    ensures { IsTrue result ↔ (text_of a.now ≡ text_of b.now) }
{
    // Their signs tell that they are codes.
    witness(a.signs());
    witness(b.signs());
    a == b
}

/// Joins a voucher with its count. Fails with `ForeignRow` if the count is that of another voucher.
fn join_count(voucher: &OldVoucher, count: &CountValue) -> Result<VoucherValue, RowError>
    ensures voucher { IfOk result (λ joined. voucher_read joined ≡ old_voucher_read voucher.now) }
    ensures count { IfOk result (λ joined. voucher_count joined ≡ count_read count.now) }
    ensures own { (count_read count.now).code ≡ (old_voucher_read voucher.now).code → NotForeign result }
{
    if !is_same_code(&count.code, &voucher.code) {
        return Err(RowError::ForeignRow);
    }
    Ok(VoucherValue {
        code: voucher.code,
        batch: voucher.batch,
        place: voucher.place,
        sold: voucher.sold,
        refunded: voucher.refunded,
        amount: voucher.amount,
        redeemed: count.redeemed,
    })
}

/// Joins the vouchers with their counts. Fails with `ForeignRow` if these are not the counts of the vouchers,
/// in their order.
pub(crate) fn join_counts(
    alloc: Global,
    vouchers: &[OldVoucher],
    counts: &[CountValue],
) -> Result<Vec<VoucherValue>, RowError>
    ensures vouchers { IfOk result
        (λ joined. map voucher_read joined.items ≡ map old_voucher_read vouchers.now) }
    ensures counts { IfOk result (λ joined. map voucher_count joined.items ≡ map count_read counts.now) }
    ensures own { map (λ k. (count_read k).code) counts.now ≡ map (λ v. (old_voucher_read v).code)
        vouchers.now
        → NotForeign result }
{
    if vouchers.len() != counts.len() {
        return Err(RowError::ForeignRow);
    }
    let mut joined = Vec::new(alloc);
    for (at, voucher) in vouchers.iter().enumerate() {
        joined.push(join_count(voucher, &counts[at])?)?;
    }
    Ok(joined)
}

/// Joins a session with its total. Fails with `ForeignRow` if the total is that of another session.
fn join_total(session: &OldSession, total: &Total) -> Result<SessionValue, RowError>
    ensures session { IfOk result (λ joined. session_read joined ≡ old_session_read session.now) }
    ensures total { IfOk result (λ joined. session_total joined ≡ ends_row total.now) }
    ensures own { total.now.number ≡ session.now.number → NotForeign result }
{
    if total.number != session.number {
        return Err(RowError::ForeignRow);
    }
    Ok(SessionValue {
        number: session.number,
        device: session.device,
        plan: session.plan,
        opened: session.opened,
        used: session.used,
        closed: session.closed,
        ends: total.ends,
        remaining: total.remaining,
    })
}

/// Joins the sessions with their totals. Fails with `ForeignRow` if these are not the totals of the sessions,
/// in their order.
pub(crate) fn join_totals(
    alloc: Global,
    sessions: &[OldSession],
    totals: &[Total],
) -> Result<Vec<SessionValue>, RowError>
    ensures sessions { IfOk result
        (λ joined. map session_read joined.items ≡ map old_session_read sessions.now) }
    ensures totals { IfOk result (λ joined. map session_total joined.items ≡ map ends_row totals.now) }
    ensures own { map (λ m. m.number) totals.now ≡ map (λ s. s.number) sessions.now → NotForeign result }
{
    if sessions.len() != totals.len() {
        return Err(RowError::ForeignRow);
    }
    let mut joined = Vec::new(alloc);
    for (at, session) in sessions.iter().enumerate() {
        joined.push(join_total(session, &totals[at])?)?;
    }
    Ok(joined)
}
