//! The decision on issuing a batch of codes.
ghost use Rattle.std.specs.Prelude.{◌≡◌, ◌≢◌, bytes_eq, IfOk, IfErr, Some, None};
ghost use Rattle.std.specs.List.{list_any};
ghost use Rattle.portal_model.specs.Verdict.{issue_verdict, has_duplicate};
ghost use Rattle.portal_model.specs.Change.{issue_change};
ghost use Rattle.portal_core.specs.Decision.{IsDecisionOrNoMemory};

use portal_codes::Code;
use portal_model::change::{Changes, IssueChange};
use portal_model::lists::Codes;
use portal_model::moment::Moment;
use portal_model::name::Id;
use portal_model::plan::Plan;
use portal_model::record::Batch;
use portal_model::refusal::Refusal;
use std::alloc::Global;

/// The seconds of a day.
const SECONDS_PER_DAY: u64 = 86_400;

/// Decides whether the codes may be issued as the batch `id` of a plan at `t`. `plan` is the plan that was
/// looked up, `batch` the existing batch with that id, and `taken` whether one of the codes was issued
/// before.
///
/// Errors, the first that applies: `UnknownPlan` without a plan; `BatchExists`; `MomentRange` if the
/// vouchers would expire past the maximum time; `CodeTaken` if a code was issued before or is listed twice;
/// `NoMemory` when out of memory.
pub fn decide_issue(
    alloc: Global,
    plan: Option<Plan>,
    batch: Option<Batch>,
    taken: bool,
    id: Id,
    codes: &[Code],
    t: Moment,
) -> Result<Changes, Refusal>
    ensures { IsDecisionOrNoMemory result (issue_verdict plan batch taken codes.now t)
        (issue_change plan id codes.now t) }
{
    let batch = check_issue(plan, batch, taken, id, codes, t)?;
    let codes = Codes::from_slice(alloc, codes)?;
    Ok(Changes::IssueChange(IssueChange {
        at: t,
        batch,
        codes,
    }))
}

/// Checks whether the batch may be issued, and makes its record.
///
/// Errors: those of `decide_issue` but `NoMemory`.
fn check_issue(
    plan: Option<Plan>,
    batch: Option<Batch>,
    taken: bool,
    id: Id,
    codes: &[Code],
    t: Moment,
) -> Result<Batch, Refusal>
    ensures accepts { IfOk result (λ _. issue_verdict plan batch taken codes.now t ≡ None) }
    ensures refuses { IfErr result (λ r. issue_verdict plan batch taken codes.now t ≡ Some r) }
    ensures own { IfErr result (λ r. r ≢ Refusal.Stopped) }
    ensures change { IfOk result (λ b. issue_change plan id codes.now t
        ≡ Some (Changes.IssueChange (record { at = t; batch = b; codes = codes.now }))) }
{
    let Some(plan) = plan else {
        return Err(Refusal::UnknownPlan);
    };
    if batch.is_some() {
        return Err(Refusal::BatchExists);
    }
    let Some(expires) = Moment::new(t.get() + u64::from(plan.shelf_days) * SECONDS_PER_DAY) else {
        return Err(Refusal::MomentRange);
    };
    if taken || has_duplicate_code(codes) {
        return Err(Refusal::CodeTaken);
    }
    Ok(Batch {
        id,
        plan: plan.id,
        issued: t,
        expires,
        size: codes.len() as u64,
    })
}

/// Returns whether a list of codes has a code.
fn holds_code(codes: &[Code], code: &Code) -> bool
    ensures { result ≡ list_any (bytes_eq code.now) codes.now }
{
    codes.iter().any(|c| code.is(c))
}

/// Returns whether a code is in the list twice.
fn has_duplicate_code(codes: &[Code]) -> bool
    ensures { result ≡ has_duplicate codes.now }
{
    match codes {
        [] => false,
        [first, rest @ ..] => holds_code(rest, first) || has_duplicate_code(rest),
    }
}
