//! Writes the state of a voucher as JSON.
ghost use Rattle.std.specs.Prelude.{◌≡◌, IfOk, IfErr, string_bytes};
ghost use Rattle.serde_json.specs.View.{view};
ghost use Rattle.portal_json.specs.Bodies.{voucher_data, voucher_body};

use crate::objects::{as_text, integer_or_null, seconds_of_moment, text_of_value};
use portal_model::record::Voucher;
use portal_model::refusal::Refusal;
use serde_json::{Value, json};
use std::alloc::{AllocError, Global};

/// Returns the JSON object of a voucher's state. The only error is out of memory.
fn voucher_value(alloc: Global, voucher: &Voucher) -> Result<Value, AllocError>
    ensures { IfOk result (λ v. view v ≡ voucher_data voucher.now) }
{
    let code = voucher.code.text();
    json!(in alloc; {
        "batch": voucher.batch.text(),
        "code": as_text(code.as_bytes()),
        "expires": voucher.expires.get(),
        "plan": voucher.plan.id.text(),
        "redeemed": voucher.redeemed,
        "refund": integer_or_null(voucher.refund),
        "sold": integer_or_null(seconds_of_moment(voucher.sold)),
        "uses": voucher.plan.uses
    })
}

/// Writes the body with the state of a voucher.
///
/// It has: its batch, its code, the time at which it expires, its plan, how often it was redeemed, the
/// amount refunded in hundredths or null, the time of its sale or null, and the uses of its plan. Times are
/// UTC seconds since 1970. Refusal: `NoMemory`, if there is no memory for the text.
#[tactic(auto, unfolding(crate::specs::Bodies::voucher_body))]
pub fn voucher_text(alloc: Global, voucher: &Voucher) -> Result<String, Refusal>
    ensures ok { IfOk result (λ text. string_bytes text ≡ voucher_body voucher.now) }
    ensures err { IfErr result (λ refusal. refusal ≡ Refusal.NoMemory) }
{
    let value = voucher_value(alloc, voucher)?;
    text_of_value(alloc, &value)
}
