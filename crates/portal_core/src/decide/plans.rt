//! The decision on loading plans.
ghost use Rattle.std.specs.Prelude.{◌≡◌, IfOk, Some};
ghost use Rattle.std.specs.List.{list_any};
ghost use Rattle.portal_model.specs.Verdict.{load_verdict, same_terms, differs};
ghost use Rattle.portal_model.specs.Change.{plan_among, plans_to_add, load_change};
ghost use Rattle.portal_core.specs.Decision.{IsDecisionOrNoMemory};

use portal_model::change::{Changes, LoadChange};
use portal_model::lists::Plans;
use portal_model::moment::Moment;
use portal_model::name::Id;
use portal_model::plan::Plan;
use portal_model::refusal::Refusal;
use std::alloc::{AllocError, Global};

/// Decides whether a list of plans may be loaded at `t`. `held` has the plans with the listed ids that are
/// already loaded; the others are added.
///
/// Errors: `PlanDiffers` if a plan with a listed id is loaded with other terms; else `NoMemory` when out of
/// memory.
pub fn decide_plans(
    alloc: Global,
    held: &[Plan],
    plans: &[Plan],
    t: Moment,
) -> Result<Changes, Refusal>
    ensures { IsDecisionOrNoMemory result (load_verdict (plan_among held.now) plans.now)
        (Some (load_change (plan_among held.now) plans.now t)) }
{
    if any_differs(held, plans) {
        return Err(Refusal::PlanDiffers);
    }
    let added = new_plans(alloc, held, plans)?;
    Ok(Changes::LoadChange(LoadChange {
        at: t,
        listed: plans.len() as u64,
        added,
    }))
}

/// Returns the first of the plans with that id.
fn listed_plan(plans: &[Plan], id: Id) -> Option<Plan>
    ensures { result ≡ plan_among plans.now id }
{
    for plan in plans {
        if plan.id.is(&id) {
            return Some(*plan);
        }
    }
    None
}

/// Returns whether two plans are equal but for their ids.
fn same_terms(plan: &Plan, other: &Plan) -> bool
    ensures { result ≡ same_terms plan.now other.now }
{
    plan.price == other.price
        && plan.uses == other.uses
        && plan.seconds == other.seconds
        && plan.bytes == other.bytes
        && plan.shelf_days == other.shelf_days
        && plan.extend == other.extend
}

/// Returns whether a plan is already loaded with other terms. `held` is the loaded plan with its id.
fn differs(held: Option<Plan>, plan: &Plan) -> bool
    ensures { result ≡ differs held plan.now }
{
    held.is_some_and(|held| !same_terms(&held, plan))
}

/// Returns whether one of the listed plans is already loaded with other terms.
fn any_differs(held: &[Plan], plans: &[Plan]) -> bool
    ensures { result ≡ list_any (λ p. differs (plan_among held.now p.id) p) plans.now }
{
    plans
        .iter()
        .any(|plan| differs(listed_plan(held, plan.id), plan))
}

/// Collects the listed plans that are not loaded yet.
///
/// Error: `AllocError` when out of memory.
fn new_plans(alloc: Global, held: &[Plan], plans: &[Plan]) -> Result<Plans, AllocError>
    ensures { IfOk result (λ new. new ≡ plans_to_add (plan_among held.now) plans.now) }
{
    let mut new = Plans::new(alloc);
    for plan in plans {
        if listed_plan(held, plan.id).is_none() {
            new.push(*plan)?;
        }
    }
    Ok(new)
}
