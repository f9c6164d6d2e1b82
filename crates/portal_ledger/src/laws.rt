//! Laws of ledgers. The functions do nothing; each contract is a law, stated in `specs/Laws.antt`.
ghost use Rattle.portal_ledger.specs.TestVectors.{
  RedemptionWithKey,
  KeyPerCaller,
  RefusedKeyIsFree,
  BatchWithKey,
};
ghost use Rattle.portal_ledger.specs.Laws.{
  SoundIsLegal,
  ChangesGiveAllRows,
  HeldRequestIsRow,
  KeyIsHeldOnce,
  KeptAnswerIsGiven,
  HeldRequestStays,
  CallerIsKnownByText,
  KeptRequestsAreTyped,
  RequestIsKnownByRow,
  RequestKeysAreUnique,
};

/// The history of a sound ledger is legal.
#[tactic(auto, using(crate::proofs::Ledgers::the_sound_is_legal))]
pub fn sound_is_legal()
    ensures { SoundIsLegal }
{}

/// The rows of all nine tables after an accepted command are those before it with its changes.
#[tactic(auto, using(crate::proofs::Ledgers::the_all_rows_lead))]
pub fn changes_give_all_rows()
    ensures { ChangesGiveAllRows }
{}

/// The kept request with an idempotency key is its row in `portal_requests`.
#[tactic(auto, using(crate::proofs::Ledgers::the_held_is_row))]
pub fn held_request_is_row()
    ensures { HeldRequestIsRow }
{}

/// At most one command was accepted with each idempotency key.
#[tactic(auto, using(crate::proofs::Ledgers::the_key_is_held_once))]
pub fn key_is_held_once()
    ensures { KeyIsHeldOnce }
{}

/// No two kept requests have the same caller and idempotency key.
#[tactic(auto, using(crate::proofs::UniqueKeys::the_keys_are_unique))]
pub fn request_keys_are_unique()
    ensures { RequestKeysAreUnique }
{}

/// The answer of a kept request is the answer that the caller of its command got.
#[tactic(auto, using(crate::proofs::Ledgers::the_kept_answer_is_given))]
pub fn kept_answer_is_given()
    ensures { KeptAnswerIsGiven }
{}

/// A kept request stays kept when a command is accepted.
#[tactic(auto, using(crate::proofs::Ledgers::the_held_stays))]
pub fn held_request_stays()
    ensures { HeldRequestStays }
{}

/// Test vectors: four ledgers, with repeated requests.
pub fn ledger_vectors_hold()
    ensures redemption_with_key { RedemptionWithKey }
    ensures key_per_caller { KeyPerCaller }
    ensures refused_key_is_free { RefusedKeyIsFree }
    ensures batch_with_key { BatchWithKey }
{}

/// Callers with the same text are equal.
#[tactic(auto, using(crate::proofs::KnownByRow::the_caller_is_known_by_text))]
pub fn caller_is_known_by_text()
    ensures { CallerIsKnownByText }
{}

/// The fingerprints and answers of the kept requests of a sound ledger are typed.
pub fn kept_requests_are_typed()
    ensures { KeptRequestsAreTyped }
{}

/// Kept requests with the same row are equal.
#[tactic(auto, using(crate::proofs::KnownByRow::the_request_is_known_by_row))]
pub fn request_is_known_by_row()
    ensures { RequestIsKnownByRow }
{}
