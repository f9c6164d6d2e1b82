//! Laws of executions. The functions do nothing: each contract is a law, which `specs/` states.
ghost use Rattle.portal_http.specs.Headline.{AcknowledgedIsUnique, ResponseIsUnique};
ghost use Rattle.portal_http.specs.Executions.{RetryIsSafe, SessionsAreKept, SessionsFollow};

use portal_codes::{printed_text_spells, spelling_is_unique};
use portal_files::{sheet_fixes_print_file, takings_fix_report};
use portal_http_message::response_is_fixed;
use portal_http_request::checks_are_exact;
use portal_ledger::laws::sound_is_legal;
use portal_model::proof::witness;
use portal_model_laws::{keys_are_unique, rows_are_typed};

/// Law: whatever sessions there were, in the ledger that is found after them no code has more redemptions
/// than its plan has uses, no idempotency key of a caller was accepted twice, and each 200 to an idempotent
/// request has the answer that is held under its key.
#[tactic(auto, using(crate::proofs::ExecutionLemmas::sessions_kept))]
pub fn sessions_are_kept()
    ensures { SessionsAreKept }
{}

/// Law: sessions, and others over what they left, are sessions.
#[tactic(auto, using(crate::proofs::ExecutionLemmas::sessions_follow))]
pub fn sessions_follow()
    ensures { SessionsFollow }
{}

/// Law: once a request with an idempotency key was accepted, whether or not its response was read, each later
/// one with the same caller, key, method, path and body that passes the checks gets the same 200 but for the
/// `Date`, or `no_memory` or `stopped`, and adds no command: in the same session or in a later one.
#[tactic(auto, using(crate::proofs::ExecutionLemmas::retry_is_safe))]
pub fn retry_is_safe()
    ensures { RetryIsSafe }
{}

/// Law: requests and responses determine which commands were acknowledged, and which one is in doubt.
pub fn acknowledged_is_unique()
    ensures { AcknowledgedIsUnique }
{
    witness(checks_are_exact());
}

/// Law: the ledger, the settings, and a request with its time and its seed determine every byte of the
/// response, and the ledger after it, but for `no_memory` and `stopped`. No definition leaves a choice: two
/// batches of one time are ordered by their ids, vouchers by their codes.
pub fn response_is_unique()
    ensures { ResponseIsUnique }
{
    witness(checks_are_exact());
    witness(response_is_fixed());
    witness(sheet_fixes_print_file());
    witness(takings_fix_report());
    witness(sound_is_legal());
    witness(keys_are_unique());
    witness(rows_are_typed());
    witness(printed_text_spells());
    witness(spelling_is_unique());
}
