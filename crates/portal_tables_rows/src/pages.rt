//! The first rows of long lists: batches by the time of issue, vouchers by code, and the last redemptions of
//! a voucher.

ghost use Rattle.std.specs.Prelude.{◌<◌, ◌^◌, map, bytes_eq, option_map};
ghost use Rattle.portal_codes.specs.Code.{IsCode, text_of};
ghost use Rattle.portal_model.specs.Batches.{by_issue};
ghost use Rattle.portal_model.specs.Rows.{GrantRow};
ghost use Rattle.portal_tables_sql.specs.Finds.{Finds};
ghost use Rattle.portal_tables_rows.specs.Foreign.{AreOwn, IsOwnBatch, IsOwnGrant, IsOwnVoucher};
ghost use Rattle.portal_tables_rows.specs.Lists.{ListsFirst, by_code, by_newest, is_behind, is_between};
ghost use Rattle.portal_tables_rows.specs.Audit.{AreAmong};
ghost use Rattle.portal_tables_rows.specs.Read.{voucher_read, voucher_count};
ghost use Rattle.portal_tables_rows.specs.Selects.{ReadsRow};
ghost use Rattle.portal_tables_rows.specs.Sums.{grant_read};

use crate::column_values::PrintedText;
use crate::grants::GrantValue;
use crate::queries::{read_many, read_one};
use crate::rows::{RowError, VoucherValue};
use portal_codes::Code;
use portal_model::record::Batch;
use portal_tables_sql::statements::{
    SELECT_BATCHES_BEHIND, SELECT_GRANT, SELECT_LAST_GRANTS, SELECT_VOUCHERS_BETWEEN,
};
use sqlite::{Alter, Connection, params};
use std::alloc::Global;

/// Lists the first 51 vouchers, by code, whose printed codes are `from` or after it, and before `below`, each
/// with how often it was redeemed.
pub fn list_vouchers_between<S: Alter>(
    alloc: Global,
    conn: &mut Connection<S>,
    from: &[u8],
    below: &[u8],
) -> Result<Vec<VoucherValue>, RowError>
    ensures { ReadsRow S.Store conn.old conn.new result
        (λ t vouchers. ListsFirst 51 (λ v. is_between from.now below.now v.code) by_code t.vouchers
        (map voucher_read vouchers.items) × AreAmong (map voucher_count vouchers.items) t.counts)
        (λ t. AreOwn IsOwnVoucher t.vouchers) }
{
    read_many(
        alloc,
        conn,
        SELECT_VOUCHERS_BETWEEN,
        params![PrintedText { bytes: from }, PrintedText { bytes: below }],
    )
}

/// Lists the first 21 batches, the later issue first and of two at one time the greater id, that
/// were issued before the time `issued`, or then and have an id below `id`.
pub fn list_batches_behind<S: Alter>(
    alloc: Global,
    conn: &mut Connection<S>,
    issued: u64,
    id: &str,
) -> Result<Vec<Batch>, RowError>
    requires { issued < 2 ^ 63 }
    ensures { ReadsRow S.Store conn.old conn.new result
        (λ t batches. ListsFirst 21 (is_behind issued id.now) by_issue t.batches batches.items)
        (λ t. AreOwn IsOwnBatch t.batches) }
{
    read_many(
        alloc,
        conn,
        SELECT_BATCHES_BEHIND,
        params![issued as i64, id],
    )
}

/// Lists the last 101 redemptions of the voucher with this code, the newest first.
pub fn list_last_grants<S: Alter>(
    alloc: Global,
    conn: &mut Connection<S>,
    code: &Code,
) -> Result<Vec<GrantValue>, RowError>
    ensures code { IsCode code.now }
    ensures reads { ReadsRow S.Store conn.old conn.new result
        (λ t grants. ListsFirst 101 (λ g. bytes_eq (text_of code.now) g.code) by_newest t.grants
        (map grant_read grants.items))
        (λ t. AreOwn IsOwnGrant t.grants) }
{
    let text = code.text();
    read_many(
        alloc,
        conn,
        SELECT_LAST_GRANTS,
        params![PrintedText {
            bytes: text.as_bytes()
        }],
    )
}

/// Reads the redemption with this number.
pub fn read_grant_row<S: Alter>(
    conn: &mut Connection<S>,
    number: u64,
) -> Result<Option<GrantValue>, RowError>
    requires { number < 2 ^ 63 }
    ensures { ReadsRow S.Store conn.old conn.new result
        (λ t found. Finds (λ (x : GrantRow). x.number) number t.grants (option_map grant_read found))
        (λ t. AreOwn IsOwnGrant t.grants) }
{
    read_one(conn, SELECT_GRANT, params![number as i64])
}
