//! Reads a plans file.

ghost use Rattle.std.specs.Prelude.{◌≡◌, List, IfSome, IfOk, IfErr, None, bytes_eq, codes};
ghost use Rattle.std.specs.List.{list_any};
ghost use Rattle.toml.specs.Data.{array, Items, member, no_members};
ghost use Rattle.toml.specs.View.{view, table_view, array_view, items_view};
ghost use Rattle.portal_model.specs.declared.plan.Plan.{Plan};
ghost use Rattle.portal_model.specs.Verdict.{has_duplicate_id};
ghost use Rattle.portal_files.specs.PlansFile.{IsPlanTable, IsPlanData, ArePlanTables, IsPlansFile};

use crate::document::read_document;
use crate::fault::FileFault;
use crate::fields::{bool_at, number_at, string_at};
use portal_model::lists::Plans;
use portal_model::name::Id;
use portal_model::plan::Plan;
use std::alloc::Global;
use toml::value::Array;
use toml::{Table, Value};

/// Reads a plan from its table.
///
/// None unless the table has exactly the seven keys, with values within the limits of a plan.
fn read_plan(table: &Table) -> Option<Plan>
    ensures some { IfSome result (IsPlanTable (table_view table.now)) }
    ensures none { result ≡ None → (p : Plan) → IsPlanTable (table_view table.now) p → ⊥ }
{
    if table.len() != 7 {
        return None;
    }
    let id = Id::read(string_at(table, "id")?)?;
    let price = number_at(table, "price")?;
    let uses = number_at(table, "uses")?;
    let seconds = number_at(table, "seconds")?;
    let bytes = number_at(table, "bytes")?;
    let shelf_days = number_at(table, "shelf_days")?;
    let extend = bool_at(table, "extend")?;
    Plan::new(id, price, uses, seconds, bytes, shelf_days, extend).ok()
}

/// Reads a plan from a TOML value; none unless the value is a plan's table.
fn read_plan_value(value: &Value) -> Option<Plan>
    ensures some { IfSome result (IsPlanData (view value.now)) }
    ensures none { result ≡ None → (p : Plan) → IsPlanData (view value.now) p → ⊥ }
{
    read_plan(value.as_table()?)
}

/// Returns the array under the key `plan`; none if the table has another key too.
fn plan_array(table: &Table) -> Option<&Array>
    ensures some { IfSome result
        (λ a. table_view table.now ≡ member (codes "plan") (array (array_view a.now)) no_members) }
    ensures none { result ≡ None → (items : Items)
        → table_view table.now ≡ member (codes "plan") (array items) no_members → ⊥ }
{
    if table.len() != 1 {
        return None;
    }
    table.get("plan")?.as_array()
}

/// Whether one of the plans has that id.
fn has_id(plans: &[Plan], id: Id) -> bool
    ensures { result ≡ list_any (λ p. bytes_eq id p.id) plans.now }
{
    plans.iter().any(move |plan| id.is(&plan.id))
}

/// Whether two of the plans have the same id.
fn has_repeated_id(plans: &[Plan]) -> bool
    ensures { result ≡ has_duplicate_id plans.now }
{
    for i in 0..plans.len() {
        let plan = plans[i];
        let (_, later) = plans.split_at(i + 1);
        if has_id(later, plan.id) {
            return true;
        }
    }
    false
}

/// Reads the plans from TOML values, in order.
///
/// Faults: `Bad` if a value is not a plan's table; `Memory`.
fn read_plan_values(alloc: Global, values: &[Value]) -> Result<Plans, FileFault>
    ensures ok { IfOk result (λ plans. ArePlanTables (items_view values.now) plans) }
    ensures bad { IfErr result (λ e. e ≡ FileFault.Bad
        → (plans : List Plan) → ArePlanTables (items_view values.now) plans → ⊥) }
{
    let mut plans = Plans::new(alloc);
    for value in values {
        let Some(plan) = read_plan_value(value) else {
            return Err(FileFault::Bad);
        };
        plans.push(plan)?;
    }
    Ok(plans)
}

/// Reads a plans file: TOML with 1 to 500 tables `plan`.
///
/// Each table has exactly the keys `id`, `price`, `uses`, `seconds`, `bytes`, `shelf_days` and `extend`,
/// with values within the limits of a plan, and no id is there twice. Faults: `Bad` for any other bytes;
/// `Memory`.
pub fn read_plans(alloc: Global, bytes: &[u8]) -> Result<Plans, FileFault>
    ensures ok { IfOk result (IsPlansFile bytes.now) }
    ensures bad { IfErr result (λ e. e ≡ FileFault.Bad
        → (plans : List Plan) → IsPlansFile bytes.now plans → ⊥) }
{
    let table = read_document(alloc, bytes)?;
    let Some(array) = plan_array(&table) else {
        return Err(FileFault::Bad);
    };
    let values = array.as_slice();
    if values.is_empty() {
        return Err(FileFault::Bad);
    }
    if values.len() > 500 {
        return Err(FileFault::Bad);
    }
    let plans = read_plan_values(alloc, values)?;
    if has_repeated_id(plans.as_slice()) {
        return Err(FileFault::Bad);
    }
    Ok(plans)
}
