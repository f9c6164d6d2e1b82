//! Reads whole tables as values, in the order of the rowids, which are the numbers of sessions and
//! redemptions.

ghost use Rattle.std.specs.Prelude.{◌≡◌, map};
ghost use Rattle.portal_tables_rows.specs.Foreign.{AreOwn, IsOwnBatch, IsOwnCount, IsOwnGrant, IsOwnPlan};
ghost use Rattle.portal_tables_rows.specs.Foreign.{IsOwnRequest, IsOwnSession};
ghost use Rattle.portal_tables_rows.specs.Foreign.{IsOwnTotal, IsOwnVoucher};
ghost use Rattle.portal_tables_rows.specs.Selects.{ReadsRow};
ghost use Rattle.portal_tables_rows.specs.Steps.{ends_row};
ghost use Rattle.portal_tables_rows.specs.Read.{voucher_read, voucher_count, old_voucher_read};
ghost use Rattle.portal_tables_rows.specs.Read.{session_read, session_total, old_session_read, count_read};
ghost use Rattle.portal_tables_rows.specs.Requests.{key_of, key_read};
ghost use Rattle.portal_tables_rows.specs.Selects.{ReadsApart, ReadsBare, ReadsFirst};
ghost use Rattle.portal_tables_rows.specs.Sums.{grant_read};

use crate::column_values::Total;
use crate::grants::GrantValue;
use crate::queries::read_table;
use crate::rows::{CountValue, OldSession, OldVoucher, RowError, SessionValue, VoucherValue};
use crate::stored_requests::RequestKey;
use portal_model::plan::Plan;
use portal_model::record::Batch;
use portal_tables_sql::statements::{
    SELECT_ALL_BATCHES, SELECT_ALL_GRANTS, SELECT_ALL_PLANS, SELECT_ALL_REQUEST_KEYS,
    SELECT_ALL_SESSIONS, SELECT_ALL_VOUCHERS, SELECT_OLD_COUNTS, SELECT_OLD_SESSIONS,
    SELECT_OLD_TOTALS, SELECT_OLD_VOUCHERS,
};
use sqlite::{Alter, Connection};

/// Reads all plans.
pub fn read_all_plans<S: Alter>(conn: &mut Connection<S>) -> Result<Vec<Plan>, RowError>
    ensures { ReadsFirst S.Store conn.old conn.new result
        (λ t plans. plans.items ≡ t.plans)
        (λ t. AreOwn IsOwnPlan t.plans) }
{
    read_table(conn, SELECT_ALL_PLANS)
}

/// Reads all batches.
pub fn read_all_batches<S: Alter>(conn: &mut Connection<S>) -> Result<Vec<Batch>, RowError>
    ensures { ReadsRow S.Store conn.old conn.new result
        (λ t batches. batches.items ≡ t.batches)
        (λ t. AreOwn IsOwnBatch t.batches) }
{
    read_table(conn, SELECT_ALL_BATCHES)
}

/// Reads the rows of all vouchers.
pub fn read_all_vouchers<S: Alter>(conn: &mut Connection<S>) -> Result<Vec<VoucherValue>, RowError>
    ensures { ReadsBare S.Store conn.old conn.new result
        (λ t vouchers. (map voucher_read vouchers.items ≡ t.vouchers)
        × (map voucher_count vouchers.items ≡ t.counts))
        (λ t. AreOwn IsOwnVoucher t.vouchers) }
{
    read_table(conn, SELECT_ALL_VOUCHERS)
}

/// Reads the rows of all sessions.
pub fn read_all_sessions<S: Alter>(conn: &mut Connection<S>) -> Result<Vec<SessionValue>, RowError>
    ensures { ReadsBare S.Store conn.old conn.new result
        (λ t sessions. (map session_read sessions.items ≡ t.sessions)
        × (map session_total sessions.items ≡ t.totals))
        (λ t. AreOwn IsOwnSession t.sessions × AreOwn IsOwnTotal t.totals) }
{
    read_table(conn, SELECT_ALL_SESSIONS)
}

/// Reads the rows of all vouchers of a schema version up to 5.
pub fn read_old_vouchers<S: Alter>(conn: &mut Connection<S>) -> Result<Vec<OldVoucher>, RowError>
    ensures { ReadsApart S.Store 1 conn.old conn.new result
        (λ t vouchers. map old_voucher_read vouchers.items ≡ t.vouchers)
        (λ t. AreOwn IsOwnVoucher t.vouchers) }
{
    read_table(conn, SELECT_OLD_VOUCHERS)
}

/// Reads the rows of all sessions of a schema version up to 5.
pub fn read_old_sessions<S: Alter>(conn: &mut Connection<S>) -> Result<Vec<OldSession>, RowError>
    ensures { ReadsApart S.Store 1 conn.old conn.new result
        (λ t sessions. map old_session_read sessions.items ≡ t.sessions)
        (λ t. AreOwn IsOwnSession t.sessions) }
{
    read_table(conn, SELECT_OLD_SESSIONS)
}

/// Reads how often each voucher was redeemed, in a schema version from 2 to 5.
pub fn read_old_counts<S: Alter>(conn: &mut Connection<S>) -> Result<Vec<CountValue>, RowError>
    ensures { ReadsApart S.Store 2 conn.old conn.new result
        (λ t counts. map count_read counts.items ≡ t.counts)
        (λ t. AreOwn IsOwnCount t.counts) }
{
    read_table(conn, SELECT_OLD_COUNTS)
}

/// Reads the end of each session and its remaining allowance, in a schema version from 2 to 5.
pub fn read_old_totals<S: Alter>(conn: &mut Connection<S>) -> Result<Vec<Total>, RowError>
    ensures { ReadsApart S.Store 2 conn.old conn.new result
        (λ t totals. map ends_row totals.items ≡ t.totals)
        (λ t. AreOwn IsOwnTotal t.totals) }
{
    read_table(conn, SELECT_OLD_TOTALS)
}

/// Reads the rows of all redemptions.
pub fn read_all_grants<S: Alter>(conn: &mut Connection<S>) -> Result<Vec<GrantValue>, RowError>
    ensures { ReadsFirst S.Store conn.old conn.new result
        (λ t grants. map grant_read grants.items ≡ t.grants)
        (λ t. AreOwn IsOwnGrant t.grants) }
{
    read_table(conn, SELECT_ALL_GRANTS)
}

/// Reads the keys of all requests, and nothing else of them.
pub fn read_all_request_keys<S: Alter>(
    conn: &mut Connection<S>,
) -> Result<Vec<RequestKey>, RowError>
    ensures { ReadsRow S.Store conn.old conn.new result
        (λ t keys. map key_read keys.items ≡ map key_of t.requests)
        (λ t. AreOwn IsOwnRequest t.requests) }
{
    read_table(conn, SELECT_ALL_REQUEST_KEYS)
}
