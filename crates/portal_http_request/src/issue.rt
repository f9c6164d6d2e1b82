//! Reads the command that issues a batch.
ghost use Rattle.std.specs.Prelude.{◌≡◌, ◌≤◌, ◌⊎◌, Err, IfOk, IfErr};
ghost use Rattle.portal_model.specs.Verdict.{IsWellFormed};
ghost use Rattle.portal_http_request.specs.Issues.{ReadsIssue, issue_of};

use crate::codes::codes_from_seed;
use portal_json::{BatchOrder, read_batch};
use portal_model::command::Command;
use portal_model::refusal::Refusal;
use std::alloc::Global;

/// Makes the command that issues the batch of an order, with the codes of the seed. Refusal: `NoMemory`.
fn issue_of_order(alloc: Global, order: BatchOrder, seed: [u8; 32]) -> Result<Command, Refusal>
    requires least { 1 ≤ order.count }
    requires most { order.count ≤ 500 }
    ensures ok { IfOk result (λ command. command ≡ issue_of seed order) }
    ensures well_formed { IfOk result IsWellFormed }
    ensures err { IfErr result (λ r. r ≡ Refusal.NoMemory) }
{
    let codes = codes_from_seed(alloc, seed, order.count as usize)?;
    Ok(Command::Issue {
        batch: order.batch,
        plan: order.plan,
        codes,
    })
}

/// Reads the order of a batch in a body, and makes the command that issues it, with the codes of the seed.
///
/// Refusals: `BadRequest` if the body has no such order; `NoMemory`.
pub fn issue_command(alloc: Global, body: &[u8], seed: [u8; 32]) -> Result<Command, Refusal>
    ensures reads { (result ≡ Err Refusal.NoMemory) ⊎ ReadsIssue seed body.now result }
    ensures well_formed { IfOk result IsWellFormed }
{
    let order = read_batch(alloc, body)?;
    issue_of_order(alloc, order, seed)
}
