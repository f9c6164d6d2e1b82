//! Reads the bodies of requests.
//!
//! A body is one JSON text in UTF-8 (RFC 8259), whatever its `Content-Type` says. It is refused as
//! `BadRequest` if it is not, or if a required member is missing or has another type. Members under other
//! keys are ignored, and of two members with one key the last one counts. An integer has no fraction and no
//! exponent: `1.0`, `1e3` and `-0` are refused.
ghost use Rattle.std.specs.Prelude.{◌≡◌, ℕ, ◌⊎◌, List, codes, IfOk, IfErr, IfSome, IfNone, Some, option_map};
ghost use Rattle.serde_json.specs.Data.{Data};
ghost use Rattle.serde_json.specs.View.{view};
ghost use Rattle.portal_model.specs.IdText.{IsIdText};
ghost use Rattle.portal_json.specs.Orders.{
  ReadsJson,
  text_at,
  number_at,
  Exactly,
  CodeOrder,
  IsBatchOrder,
  IsReportOrder,
  IsCloseOrder,
  FromBody,
};

use portal_codes::Code;
use portal_model::name::Id;
use portal_model::refusal::Refusal;
use serde_json::Value;
use std::alloc::Global;

/// A request for a new batch.
#[derive(Clone, Copy, Debug, PartialEq, Eq)]
pub struct BatchOrder {
    /// The id of the new batch.
    pub batch: Id,
    /// The id of its plan.
    pub plan: Id,
    /// The number of its codes, 1 to 500.
    pub count: u64,
}

/// A report of the gateway.
#[derive(Clone, Copy, Debug, PartialEq, Eq)]
pub struct ReportOrder {
    /// The number of the session.
    pub session: u64,
    /// The bytes that the gateway has counted for the session, at most 9,223,372,036,854,775,807.
    pub bytes: u64,
}

/// The greatest integer in a body.
const GREATEST: u64 = 9_223_372_036_854_775_807;

/// Parses a body as JSON.
///
/// Refusals: `BadRequest` if it is not JSON in UTF-8; `NoMemory`.
fn read_value(alloc: Global, body: &[u8]) -> Result<Value, Refusal>
    ensures ok { IfOk result (λ v. ReadsJson body.now (view v)) }
    ensures err { IfErr result (λ r. ((r ≡ Refusal.BadRequest)
        × ((value : Data) → ¬ (ReadsJson body.now value)))
        ⊎ (r ≡ Refusal.NoMemory)) }
{
    Value::from_slice(alloc, body).map_err(|error| if error.is_memory() {
        Refusal::NoMemory
    } else {
        Refusal::BadRequest
    })
}

/// Returns the text of the member with that key, if the value has one.
fn text_member<'v>(value: &'v Value, key: &str) -> Option<&'v str>
    ensures { option_map (λ text. text.now) result ≡ text_at key.now (view value.now) }
{
    value.get(key).and_then(Value::as_str)
}

/// Returns the integer of the member with that key, if the value has one of at most `GREATEST`.
fn integer_member(value: &Value, key: &str) -> Option<u64>
    ensures { result ≡ number_at key.now (view value.now) }
{
    let number = value.get(key).and_then(Value::as_u64)?;
    if number <= GREATEST {
        Some(number)
    } else {
        None
    }
}

/// Returns the id of the member with that key, if the value has one.
fn id_member(value: &Value, key: &str) -> Option<Id>
    ensures some { IfSome result (λ id. (text_at key.now (view value.now) ≡ Some id) × IsIdText id) }
    ensures none { IfNone result
        ((id : List ℕ) → text_at key.now (view value.now) ≡ Some id → ¬ (IsIdText id)) }
{
    Id::read(text_member(value, key)?)
}

/// Returns the code, from the member `code`.
///
/// Refusals: `BadRequest` if there is no text; `BadCode` if the text is not a code.
fn code_member(value: &Value) -> Result<Code, Refusal>
    ensures { CodeOrder (view value.now) result }
{
    let text = text_member(value, "code").ok_or(Refusal::BadRequest)?;
    Code::read(text).map_err(|_| Refusal::BadCode)
}

/// Reads the request for a batch from a JSON value. Refusal: `BadRequest`.
fn batch_order_of(value: &Value) -> Result<BatchOrder, Refusal>
    ensures { Exactly (IsBatchOrder (view value.now)) result }
{
    let batch = id_member(value, "batch").ok_or(Refusal::BadRequest)?;
    let plan = id_member(value, "plan").ok_or(Refusal::BadRequest)?;
    match integer_member(value, "count") {
        Some(count @ 1..=500) => Ok(BatchOrder { batch, plan, count }),
        _ => Err(Refusal::BadRequest),
    }
}

/// Reads the report of the gateway from a JSON value. Refusal: `BadRequest`.
fn report_order_of(value: &Value) -> Result<ReportOrder, Refusal>
    ensures { Exactly (IsReportOrder (view value.now)) result }
{
    let session = integer_member(value, "session").ok_or(Refusal::BadRequest)?;
    let bytes = integer_member(value, "bytes").ok_or(Refusal::BadRequest)?;
    Ok(ReportOrder { session, bytes })
}

/// Returns the number of a session, from the member `session`. Refusal: `BadRequest`.
fn session_member(value: &Value) -> Result<u64, Refusal>
    ensures { Exactly (IsCloseOrder (view value.now)) result }
{
    integer_member(value, "session").ok_or(Refusal::BadRequest)
}

/// Reads the code of a body `{"code": ..}`. Refusals: as for `read_redeem`.
fn read_code(alloc: Global, body: &[u8]) -> Result<Code, Refusal>
    ensures { FromBody CodeOrder body.now result }
{
    code_member(&read_value(alloc, body)?)
}

/// Reads the code that a guest redeems, from `{"code": ..}`.
///
/// Refusals: `BadRequest` if the body has no such text; `BadCode` if the text is not a code; `NoMemory`.
pub fn read_redeem(alloc: Global, body: &[u8]) -> Result<Code, Refusal>
    ensures { FromBody CodeOrder body.now result }
{
    read_code(alloc, body)
}

/// Reads the code that is sold, from `{"code": ..}`. Refusals: as for `read_redeem`.
pub fn read_sale(alloc: Global, body: &[u8]) -> Result<Code, Refusal>
    ensures { FromBody CodeOrder body.now result }
{
    read_code(alloc, body)
}

/// Reads the code that is refunded, from `{"code": ..}`. Refusals: as for `read_redeem`.
pub fn read_refund(alloc: Global, body: &[u8]) -> Result<Code, Refusal>
    ensures { FromBody CodeOrder body.now result }
{
    read_code(alloc, body)
}

/// Reads the request for a batch: `{"batch": .., "plan": .., "count": ..}`, two ids and 1 to 500 codes.
///
/// Refusals: `BadRequest`; `NoMemory`.
pub fn read_batch(alloc: Global, body: &[u8]) -> Result<BatchOrder, Refusal>
    ensures { FromBody (λ value. Exactly (IsBatchOrder value)) body.now result }
{
    batch_order_of(&read_value(alloc, body)?)
}

/// Reads the report of the gateway, from `{"session": .., "bytes": ..}`. Refusals: `BadRequest`;
/// `NoMemory`.
pub fn read_report(alloc: Global, body: &[u8]) -> Result<ReportOrder, Refusal>
    ensures { FromBody (λ value. Exactly (IsReportOrder value)) body.now result }
{
    report_order_of(&read_value(alloc, body)?)
}

/// Reads the number of the session that is closed, from `{"session": ..}`. Refusals: `BadRequest`;
/// `NoMemory`.
pub fn read_close(alloc: Global, body: &[u8]) -> Result<u64, Refusal>
    ensures { FromBody (λ value. Exactly (IsCloseOrder value)) body.now result }
{
    session_member(&read_value(alloc, body)?)
}
