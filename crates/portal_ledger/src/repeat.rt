//! Repeated requests: the answer if the idempotency key was used before.
ghost use Rattle.std.specs.Prelude.{◌≡◌, option_map};
ghost use Rattle.portal_ledger.specs.Ledger.{repeat_of};

use crate::request::{KeptRequest, RequestMark};
use portal_model::change::Answer;
use portal_model::refusal::Refusal;

/// Decides whether a request is a repetition, from the kept request with its idempotency key.
///
/// Returns the kept answer if method, path and body are the same, and `None` if no request is kept.
///
/// Error: `IdReused` if method, path or body differ.
pub fn decide_repeat(
    kept: Option<&KeptRequest>,
    mark: &RequestMark,
) -> Result<Option<Answer>, Refusal>
    ensures { result ≡ repeat_of (option_map (λ k. k.now) kept.entry) mark.now }
{
    let Some(kept) = kept else {
        return Ok(None);
    };
    if kept.mark.is_same_request(mark) {
        Ok(Some(kept.answer))
    } else {
        Err(Refusal::IdReused)
    }
}
