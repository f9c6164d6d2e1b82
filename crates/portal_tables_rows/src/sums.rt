//! Computes the counters from the other rows: how often each voucher was redeemed, and the end and the
//! remaining allowance of each session.

ghost use Rattle.std.specs.Prelude.{◌≡◌, ◌+◌, ◌<◌, ◌^◌, ℕ, List, nat_eq, bytes_eq, map, IfOk, option_map};
ghost use Rattle.std.specs.Prelude.{unwrap_or};
ghost use Rattle.std.specs.HashMap.{get};
ghost use Rattle.portal_model.specs.Change.{plan_among};
ghost use Rattle.portal_model.specs.History.{limit_or_none};
ghost use Rattle.portal_model.specs.Rows.{count_from, remaining_of, total_from};
ghost use Rattle.portal_tables_rows.specs.Foreign.{IsMomentIfSome, NotForeign};
ghost use Rattle.portal_tables_rows.specs.Read.{old_voucher_read, old_session_read, count_read};
ghost use Rattle.portal_tables_rows.specs.Steps.{ends_row};
ghost use Rattle.portal_codes.specs.Code.{IsCode};
ghost use Rattle.portal_tables_rows.specs.Sums.{
  AreUses,
  IsKeptSum,
  SumsFit,
  grant_read,
  rows_for_sums,
  given_to,
};
ghost use Rattle.portal_tables_rows.specs.Sums.{nothing_given};

use crate::column_values::Total;
use crate::grants::GrantValue;
use crate::rows::{CountValue, OldSession, OldVoucher, RowError};
use portal_codes::Code;
use portal_model::moment::Moment;
use portal_model::name::Id;
use portal_model::plan::Plan;
use portal_model::proof::witness;
use std::alloc::Global;
use std::collections::HashMap;

/// What the redemptions of a session gave it in total, in seconds and bytes.
#[derive(Clone, Copy, Debug)]
struct Given {
    seconds: u64,
    bytes: u64,
}

/// Counts the redemptions of each code. The only error is out of memory.
pub(crate) fn count_uses_by_code(
    alloc: Global,
    grants: &[GrantValue],
) -> Result<HashMap<Code, u64>, RowError>
    ensures uses { IfOk result (λ uses. AreUses uses (map grant_read grants.now)) }
    ensures memory { NotForeign result }
{
    let mut uses = HashMap::new(alloc);
    for grant in grants {
        let before = uses_of_code(&uses, &grant.code);
        uses.insert(grant.code, before + 1)?;
    }
    Ok(uses)
}

/// Returns how often the code was redeemed: 0 if it is not in the map.
pub(crate) fn uses_of_code(uses: &HashMap<Code, u64>, code: &Code) -> u64
    ensures found { result ≡ unwrap_or (get bytes_eq uses.now code.now) 0 }
    ensures code { IsCode code.now }
{
    // Its signs tell that it is a code.
    witness(code.signs());
    uses.get(code).copied().unwrap_or(0)
}

/// Computes how often each voucher was redeemed, in the order of the vouchers. The only error is out of
/// memory.
pub fn sum_counts(
    alloc: Global,
    vouchers: &[OldVoucher],
    grants: &[GrantValue],
) -> Result<Vec<CountValue>, RowError>
    ensures sums { IfOk result
        (λ counts. map count_read counts.items ≡ map (count_from (map grant_read grants.now))
        (map old_voucher_read vouchers.now)) }
    ensures memory { NotForeign result }
{
    let uses = count_uses_by_code(alloc, grants)?;
    let mut counts = Vec::new(alloc);
    for voucher in vouchers {
        let count = CountValue {
            code: voucher.code,
            redeemed: uses_of_code(&uses, &voucher.code),
        };
        counts.push(count)?;
    }
    Ok(counts)
}

/// Adds the seconds and bytes of one redemption. Fails with `ForeignRow` if a sum exceeds 64 bits.
fn add_grant(given: Given, grant: &GrantValue) -> Result<Given, RowError>
    ensures sum { IfOk result
        (λ sum. sum
        ≡ record { seconds = given.seconds + grant.now.seconds; bytes = given.bytes + grant.now.bytes }) }
    ensures kept { given.seconds + grant.now.seconds < 2 ^ 63 → given.bytes + grant.now.bytes < 2 ^ 63
        → NotForeign result }
{
    let Some(seconds) = given.seconds.checked_add(grant.seconds) else {
        return Err(RowError::ForeignRow);
    };
    let Some(bytes) = given.bytes.checked_add(grant.bytes) else {
        return Err(RowError::ForeignRow);
    };
    Ok(Given { seconds, bytes })
}

/// Sums the seconds and bytes that each session was given, by the session's number. Fails with
/// `ForeignRow` if a sum exceeds 64 bits.
fn sum_given_by_session(
    alloc: Global,
    grants: &[GrantValue],
) -> Result<HashMap<u64, Given>, RowError>
    ensures given { IfOk result
        (λ given. (number : ℕ)
        → unwrap_or (get nat_eq given number) nothing_given ≡ given_to (map grant_read grants.now) number) }
    ensures kept { ((number : ℕ) → IsKeptSum (given_to (map grant_read grants.now) number))
        → NotForeign result }
{
    let mut given = HashMap::new(alloc);
    for grant in grants {
        let before = given_to_session(&given, grant.session);
        let sum = add_grant(before, grant)?;
        given.insert(grant.session, sum)?;
    }
    Ok(given)
}

/// Returns what the session was given: nothing if it is not in the map.
fn given_to_session(given: &HashMap<u64, Given>, session: u64) -> Given
    ensures { result ≡ unwrap_or (get nat_eq given.now session) nothing_given }
{
    match given.get(&session) {
        Some(sum) => *sum,
        None => Given {
            seconds: 0,
            bytes: 0,
        },
    }
}

/// Finds the first plan with this id.
pub fn first_plan_with<'a>(plans: &'a [Plan], id: &Id) -> Option<&'a Plan>
    ensures { option_map (λ p. p.now) result ≡ plan_among plans.now id.now }
{
    plans.iter().find(|plan| plan.id.is(id))
}

/// Computes the end of a session from its start and the seconds that it was given. It is `None` if the
/// plan sets no time limit. Fails with `ForeignRow` if the end is past the greatest time.
fn end_of_session(plan: &Plan, opened: Moment, seconds: u64) -> Result<Option<Moment>, RowError>
    ensures end { IfOk result (λ ends. ends ≡ limit_or_none plan.now.seconds (opened + seconds)) }
    ensures kept { IsMomentIfSome (limit_or_none plan.now.seconds (opened + seconds)) → NotForeign result }
{
    if plan.seconds == 0 {
        return Ok(None);
    }
    let Some(end) = opened.get().checked_add(seconds) else {
        return Err(RowError::ForeignRow);
    };
    match Moment::new(end) {
        Some(end) => Ok(Some(end)),
        None => Err(RowError::ForeignRow),
    }
}

/// Computes how many bytes remain of what a session was given. It is `None` if the plan sets no limit of
/// bytes. Fails with `ForeignRow` if a number does not fit in an INTEGER column.
fn remainder_of(plan: &Plan, used: u64, bytes: u64) -> Result<Option<i64>, RowError>
    ensures rest { IfOk result
        (λ remaining. remaining ≡ remaining_of used (limit_or_none plan.now.bytes bytes)) }
    ensures kept { bytes < 2 ^ 63 → used < 2 ^ 63 → NotForeign result }
{
    if plan.bytes == 0 {
        return Ok(None);
    }
    let Ok(bytes) = i64::try_from(bytes) else {
        return Err(RowError::ForeignRow);
    };
    let Ok(used) = i64::try_from(used) else {
        return Err(RowError::ForeignRow);
    };
    Ok(Some(bytes - used))
}

/// Computes the end of a session and its remaining allowance, from its plan and what it was given. There
/// are no limits if no plan has the session's plan id.
fn total_of_session(plans: &[Plan], session: &OldSession, given: Given) -> Result<Total, RowError>
    ensures total { IfOk result
        (λ total. (grants : List _) → given ≡ given_to grants session.now.number
        → ends_row total ≡ total_from (rows_for_sums plans.now grants) (old_session_read session.now)) }
    ensures kept { given.bytes < 2 ^ 63 → session.now.used < 2 ^ 63 → (grants : List _)
        → given ≡ given_to grants session.now.number
        → IsMomentIfSome (total_from (rows_for_sums plans.now grants) (old_session_read session.now)).ends
        → NotForeign result }
{
    let Some(plan) = first_plan_with(plans, &session.plan) else {
        return Ok(Total {
            number: session.number,
            ends: None,
            remaining: None,
        });
    };
    Ok(Total {
        number: session.number,
        ends: end_of_session(plan, session.opened, given.seconds)?,
        remaining: remainder_of(plan, session.used, given.bytes)?,
    })
}

/// Computes the end of each session and its remaining allowance, in the order of the sessions. Fails
/// with `ForeignRow` if a sum does not fit in a column; the only other error is out of memory.
pub fn sum_totals(
    alloc: Global,
    plans: &[Plan],
    sessions: &[OldSession],
    grants: &[GrantValue],
) -> Result<Vec<Total>, RowError>
    ensures sums { IfOk result
        (λ totals. map ends_row totals.items ≡ map
        (total_from (rows_for_sums plans.now (map grant_read grants.now)))
        (map old_session_read sessions.now)) }
    ensures kept { SumsFit plans.now (map old_session_read sessions.now) (map grant_read grants.now)
        → NotForeign result }
{
    let given = sum_given_by_session(alloc, grants)?;
    let mut totals = Vec::new(alloc);
    for session in sessions {
        let total = total_of_session(plans, session, given_to_session(&given, session.number))?;
        totals.push(total)?;
    }
    Ok(totals)
}
