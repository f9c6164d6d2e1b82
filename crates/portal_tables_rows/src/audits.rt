//! The audit: whether the rows of a database agree with each other.

ghost use Rattle.std.specs.Prelude.{◌≡◌, ◌↔◌, List, map, length, IfOk, IsTrue};
ghost use Rattle.std.specs.List.{list_all};
ghost use Rattle.portal_model.specs.Rows.{CountRow, GrantRow};
ghost use Rattle.portal_tables_rows.specs.Contents.{Contents};
ghost use Rattle.portal_tables_rows.specs.Foreign.{AreOwnRows, NotForeign};
ghost use Rattle.portal_tables_rows.specs.Holds.{HasTables, Holds};
ghost use Rattle.portal_tables_rows.specs.Steps.{ends_row};
ghost use Rattle.portal_tables_rows.specs.Read.{head_read, voucher_read, count_read};
ghost use Rattle.portal_tables_rows.specs.Sums.{AreUses, SumsFit, grant_read};
ghost use Rattle.portal_tables_rows.specs.Audit.{Agrees, AreCounted, AreReadRows, HasDistinctKeys};
ghost use Rattle.portal_tables_rows.specs.Audit.{HasReferences, IsAudited, has_count, is_counted};
ghost use Rattle.portal_tables_rows.specs.Requests.{key_of, key_read};
ghost use Rattle.portal_tables_rows.specs.Selects.{ReadsOpen};

use crate::column_values::Total;
use crate::counted_rows::{
    CountedRows, counts_of_vouchers, read_counted_rows, sessions_without_totals, totals_of_sessions,
};
use crate::finds::read_head_row;
use crate::grants::GrantValue;
use crate::keys::{are_keys_distinct, are_references_there};
use crate::rows::{CountValue, HeadValue, RowError, VoucherValue};
use crate::stored_requests::RequestKey;
use crate::sums::{count_uses_by_code, sum_totals, uses_of_code};
use crate::whole::{read_all_batches, read_all_request_keys};
use portal_codes::Code;
use portal_model::proof::witness;
use portal_model::record::Batch;
use sqlite::{Alter, Connection};
use std::alloc::Global;
use std::collections::{HashMap, HashSet};

/// Whether a count is the number of redemptions of its code.
fn is_count_right(uses: &HashMap<Code, u64>, count: &CountValue) -> bool
    ensures { (grants : List GrantRow) → AreUses uses.now grants
        → result ≡ is_counted grants (count_read count.now) }
{
    count.redeemed == uses_of_code(uses, &count.code)
}

/// Whether each count is the number of redemptions of its code.
fn are_counts_right(uses: &HashMap<Code, u64>, counts: &[CountValue]) -> bool
    ensures { (grants : List GrantRow) → AreUses uses.now grants
        → result ≡ list_all (is_counted grants) (map count_read counts.now) }
{
    counts.iter().all(|count| is_count_right(uses, count))
}

/// Whether each count is the number of redemptions with its code. The only error is out of memory.
fn counts_agree(
    alloc: Global,
    grants: &[GrantValue],
    counts: &[CountValue],
) -> Result<bool, RowError>
    ensures agree { IfOk result
        (λ agree. agree ≡ list_all (is_counted (map grant_read grants.now)) (map count_read counts.now)) }
    ensures memory { NotForeign result }
{
    let uses = count_uses_by_code(alloc, grants)?;
    Ok(are_counts_right(&uses, counts))
}

/// Returns the set of the codes that have a count. The only error is out of memory.
fn counted_codes(alloc: Global, counts: &[CountValue]) -> Result<HashSet<Code>, RowError>
    ensures codes { IfOk result (λ codes. AreCounted codes (map count_read counts.now)) }
    ensures memory { NotForeign result }
{
    let mut codes = HashSet::new(alloc);
    for count in counts {
        // Its signs tell that it is a code.
        witness(count.code.signs());
        codes.insert(count.code)?;
    }
    Ok(codes)
}

/// Whether the voucher's code is in this set.
fn is_code_among(codes: &HashSet<Code>, voucher: &VoucherValue) -> bool
    ensures { (counts : List CountRow) → AreCounted codes.now counts
        → result ≡ has_count counts (voucher_read voucher.now) }
{
    // Its signs tell that it is a code.
    witness(voucher.code.signs());
    codes.contains(&voucher.code)
}

/// Whether the code of each voucher is in this set.
fn are_codes_among(codes: &HashSet<Code>, vouchers: &[VoucherValue]) -> bool
    ensures { (counts : List CountRow) → AreCounted codes.now counts
        → result ≡ list_all (has_count counts) (map voucher_read vouchers.now) }
{
    vouchers.iter().all(|voucher| is_code_among(codes, voucher))
}

/// Whether each voucher has a count. The only error is out of memory.
fn vouchers_agree(
    alloc: Global,
    vouchers: &[VoucherValue],
    counts: &[CountValue],
) -> Result<bool, RowError>
    ensures agree { IfOk result
        (λ agree. agree ≡ list_all (has_count (map count_read counts.now)) (map voucher_read vouchers.now)) }
    ensures memory { NotForeign result }
{
    let codes = counted_codes(alloc, counts)?;
    Ok(are_codes_among(&codes, vouchers))
}

/// Whether the stored totals are the computed ones, in the same order.
fn are_totals_equal(totals: &[Total], sums: &[Total]) -> bool
    ensures { IsTrue result ↔ (totals.now ≡ sums.now) }
{
    totals == sums
}

/// Whether the head row has the numbers of redemptions and of sessions that the tables have.
fn head_agrees(head: &HeadValue, rows: &CountedRows) -> bool
    ensures { IsTrue result ↔
        ((head.now.grants ≡ length rows.now.grants.items)
        × (head.now.sessions ≡ length rows.now.sessions.items)) }
{
    head.grants == rows.grants.len() as u64 && head.sessions == rows.sessions.len() as u64
}

/// Whether the head row, the counts and the totals agree with these rows.
fn counters_agree(
    head: &HeadValue,
    rows: &CountedRows,
    counts: &[CountValue],
    totals: &[Total],
) -> Result<bool, RowError>
    ensures agree { IfOk result
        (λ agree. (t : Contents) → AreReadRows rows.now t → map count_read counts.now ≡ t.counts
        → map ends_row totals.now ≡ t.totals → IsTrue agree ↔ Agrees (head_read head.now) t) }
    ensures kept { (t : Contents) → AreReadRows rows.now t → SumsFit t.plans t.sessions t.grants
        → NotForeign result }
{
    let alloc = *rows.grants.allocator();
    if !head_agrees(head, rows) {
        return Ok(false);
    }
    if !counts_agree(alloc, &rows.grants, counts)? {
        return Ok(false);
    }
    if !vouchers_agree(alloc, &rows.vouchers, counts)? {
        return Ok(false);
    }
    let sessions = sessions_without_totals(alloc, &rows.sessions)?;
    let sums = sum_totals(alloc, &rows.plans, &sessions, &rows.grants)?;
    Ok(are_totals_equal(totals, &sums))
}

/// Whether each of these rows has a key of its own, each row that another refers to is among them, and
/// the counters agree with them.
fn rows_agree(
    head: &HeadValue,
    rows: &CountedRows,
    batches: &[Batch],
    counts: &[CountValue],
    totals: &[Total],
    requests: Vec<RequestKey>,
) -> Result<bool, RowError>
    ensures agree { IfOk result
        (λ agree. (t : Contents) → AreReadRows rows.now t → batches.now ≡ t.batches
        → map count_read counts.now ≡ t.counts → map ends_row totals.now ≡ t.totals
        → map key_read requests.items ≡ map key_of t.requests
        → IsTrue agree ↔ (HasDistinctKeys t × HasReferences t × Agrees (head_read head.now) t)) }
    ensures kept { (t : Contents) → AreReadRows rows.now t → SumsFit t.plans t.sessions t.grants
        → NotForeign result }
{
    if !are_keys_distinct(rows, batches, counts, requests)? {
        return Ok(false);
    }
    if !are_references_there(rows, batches, counts)? {
        return Ok(false);
    }
    counters_agree(head, rows, counts, totals)
}

/// Whether the rows of the database agree with each other. No two rows of a table have the same key, and
/// each row that another refers to is there. Each count is the number of redemptions with its code, each
/// total is the sum over the redemptions of its session, each voucher has its count and each session its
/// total, and the head row has the numbers of redemptions and of sessions. Fails with `ForeignRow` if a row
/// is not one that this product writes, or if a sum does not fit in a column.
pub fn audit<S: Alter>(conn: &mut Connection<S>) -> Result<bool, RowError>
    ensures { ReadsOpen S.Store HasTables Holds conn.old conn.new result
        (λ t audited. IsTrue audited ↔ IsAudited t)
        (λ t. AreOwnRows t × SumsFit t.plans t.sessions t.grants) }
{
    let Some(head) = read_head_row(conn)? else {
        return Ok(false);
    };
    let rows = read_counted_rows(conn)?;
    let batches = read_all_batches(conn)?;
    let requests = read_all_request_keys(conn)?;
    let counts = counts_of_vouchers(*batches.allocator(), &rows.vouchers)?;
    let totals = totals_of_sessions(*batches.allocator(), &rows.sessions)?;
    rows_agree(&head, &rows, &batches, &counts, &totals, requests)
}
