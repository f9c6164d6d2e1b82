//! Writes the answers to commands, and errors, as JSON.
ghost use Rattle.std.specs.Prelude.{◌≡◌, IfOk, IfErr, string_bytes};
ghost use Rattle.serde_json.specs.View.{view};
ghost use Rattle.portal_json.specs.Bodies.{answer_data, error_data, answer_body, error_body};

use crate::objects::{as_text, text_of_value};
use portal_model::change::Answer;
use portal_model::refusal::Refusal;
use serde_json::{Value, json};
use std::alloc::{AllocError, Global};

/// Returns the JSON object of the answer to a command. The only error is out of memory.
fn answer_value(alloc: Global, answer: Answer) -> Result<Value, AllocError>
    ensures { IfOk result (λ v. view v ≡ answer_data answer) }
{
    match answer {
        Answer::LoadAnswer { plans } => json!(in alloc; {"plans": plans}),
        Answer::IssueAnswer {
            batch,
            count,
            expires,
        } => { json!(in alloc; {"batch": batch.text(), "count": count, "expires": expires.get()}) }
        Answer::SellAnswer { code, price } => {
            let code = code.text();
            json!(in alloc; {"code": as_text(code.as_bytes()), "price": price})
        }
        Answer::RedeemAnswer {
            extended,
            session,
            uses_left,
        } => { json!(in alloc; {"extended": extended, "session": session, "uses_left": uses_left}) }
        Answer::ReportAnswer {
            still_open,
            session,
            used,
        } => { json!(in alloc; {"open": still_open, "session": session, "used": used}) }
        Answer::RefundAnswer { amount, code } => {
            let code = code.text();
            json!(in alloc; {"amount": amount, "code": as_text(code.as_bytes())})
        }
        Answer::CloseAnswer { session } => json!(in alloc; {"session": session}),
    }
}

/// Writes the body of the response to an accepted command.
///
/// Refusal: `NoMemory`, if there is no memory for the text.
#[tactic(auto, unfolding(crate::specs::Bodies::answer_body))]
pub fn answer_text(alloc: Global, answer: Answer) -> Result<String, Refusal>
    ensures ok { IfOk result (λ text. string_bytes text ≡ answer_body answer) }
    ensures err { IfErr result (λ refusal. refusal ≡ Refusal.NoMemory) }
{
    let value = answer_value(alloc, answer)?;
    text_of_value(alloc, &value)
}

/// Returns the JSON object of an error: `error`, with the word of the refusal. The only error is out of
/// memory.
fn error_value(alloc: Global, refusal: Refusal) -> Result<Value, AllocError>
    ensures { IfOk result (λ v. view v ≡ error_data refusal) }
{
    json!(in alloc; {"error": refusal.word()})
}

/// Writes the body of an error response: `{"error": ..}` with the word of the refusal.
///
/// Refusal: `NoMemory`, if there is no memory for the text.
#[tactic(auto, unfolding(crate::specs::Bodies::error_body))]
pub fn error_text(alloc: Global, refusal: Refusal) -> Result<String, Refusal>
    ensures ok { IfOk result (λ text. string_bytes text ≡ error_body refusal) }
    ensures err { IfErr result (λ refusal. refusal ≡ Refusal.NoMemory) }
{
    let value = error_value(alloc, refusal)?;
    text_of_value(alloc, &value)
}
