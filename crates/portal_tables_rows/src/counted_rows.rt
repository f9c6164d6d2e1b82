//! The rows over which the counters are summed.

ghost use Rattle.std.specs.Prelude.{◌≡◌, IfOk, map};
ghost use Rattle.portal_tables_rows.specs.Audit.{AreReadRows};
ghost use Rattle.portal_tables_rows.specs.Selects.{ReadsOpen};
ghost use Rattle.portal_tables_rows.specs.Foreign.{AreOwnRows, NotForeign};
ghost use Rattle.portal_tables_rows.specs.Holds.{HasTables, Holds};
ghost use Rattle.portal_tables_rows.specs.Read.{count_part, session_part, total_part};

use crate::column_values::Total;
use crate::grants::GrantValue;
use crate::rows::{CountValue, OldSession, RowError, SessionValue, VoucherValue};
use crate::whole::{read_all_grants, read_all_plans, read_all_sessions, read_all_vouchers};
use portal_model::plan::Plan;
use sqlite::{Alter, Connection};
use std::alloc::Global;

/// The rows of `portal_plans`, `portal_vouchers`, `portal_sessions` and `portal_grants`, each in the
/// order of the rowids.
#[derive(Drop)]
pub struct CountedRows {
    pub plans: Vec<Plan>,
    pub vouchers: Vec<VoucherValue>,
    pub sessions: Vec<SessionValue>,
    pub grants: Vec<GrantValue>,
}

/// Reads all plans, vouchers, sessions and redemptions.
pub fn read_counted_rows<S: Alter>(conn: &mut Connection<S>) -> Result<CountedRows, RowError>
    ensures { ReadsOpen S.Store HasTables Holds conn.old conn.new result
        (λ t rows. AreReadRows rows t) AreOwnRows }
{
    Ok(CountedRows {
        plans: read_all_plans(conn)?,
        vouchers: read_all_vouchers(conn)?,
        sessions: read_all_sessions(conn)?,
        grants: read_all_grants(conn)?,
    })
}

/// Returns the counts of these vouchers, in this order. The only error is out of memory.
pub(crate) fn counts_of_vouchers(
    alloc: Global,
    vouchers: &[VoucherValue],
) -> Result<Vec<CountValue>, RowError>
    ensures counts { IfOk result (λ counts. counts.items ≡ map count_part vouchers.now) }
    ensures memory { NotForeign result }
{
    let counts: Vec<CountValue> = vouchers
        .iter()
        .map(|voucher| CountValue {
            code: voucher.code,
            redeemed: voucher.redeemed,
        })
        .collect(alloc)?;
    Ok(counts)
}

/// Returns the totals of these sessions, in this order. The only error is out of memory.
pub(crate) fn totals_of_sessions(
    alloc: Global,
    sessions: &[SessionValue],
) -> Result<Vec<Total>, RowError>
    ensures totals { IfOk result (λ totals. totals.items ≡ map total_part sessions.now) }
    ensures memory { NotForeign result }
{
    let totals: Vec<Total> = sessions
        .iter()
        .map(|session| Total {
            number: session.number,
            ends: session.ends,
            remaining: session.remaining,
        })
        .collect(alloc)?;
    Ok(totals)
}

/// Returns these sessions without their totals, in this order. The only error is out of memory.
pub(crate) fn sessions_without_totals(
    alloc: Global,
    sessions: &[SessionValue],
) -> Result<Vec<OldSession>, RowError>
    ensures sessions { IfOk result (λ bare. bare.items ≡ map session_part sessions.now) }
    ensures memory { NotForeign result }
{
    let bare: Vec<OldSession> = sessions
        .iter()
        .map(|session| OldSession {
            number: session.number,
            device: session.device,
            plan: session.plan,
            opened: session.opened,
            used: session.used,
            closed: session.closed,
        })
        .collect(alloc)?;
    Ok(bare)
}
