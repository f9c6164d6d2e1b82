//! Laws of histories: what holds of every history that the desk can have accepted. The functions do
//! nothing; each contract is a law, stated in `specs/Laws.antt`.
#![tactic(auto)]

ghost use Rattle.portal_model_laws.specs.Everyday.{EveryCommandIsLegal};
ghost use Rattle.portal_model_laws.specs.References.{PlacesAreUnique, RowsReferToRows};
ghost use Rattle.portal_model_laws.specs.Laws.{
  AnswersFollow,
  BatchIsRow,
  SessionIsClosedOnce,
  CodesAreRows,
  CountsAreSums,
  GatewaySeesRemainder,
  GrantsAreBounded,
  GuestsSeeRemainder,
  HeldPlansDecideLoad,
  HeldPlansSuffice,
  KeysAreUnique,
  LastSessionIsRow,
  OneSessionIsOpen,
  OpenIsLast,
  PlanIsRow,
  ChangesGiveRecords,
  RedeemGivesRecords,
  VoucherIsRefundedOnce,
  RefundsAreBounded,
  RefundsAreRows,
  RemainsIsBounded,
  RowsAreNumbered,
  RowsAreTyped,
  RowsAreWithinLimits,
  RowsJudgeAlike,
  ChangesGiveRows,
  SalesAreRows,
  SessionIsRow,
  SessionsAreFewer,
  SessionsAreRows,
  VoucherIsSoldOnce,
  IssuedCodesAreRows,
  TotalsAreSums,
  UsesAreBounded,
  UsesAreRows,
  VoucherIsRow,
};

/// A history in which each of the seven commands occurs is legal. In it one redemption opens a session and
/// another extends it.
#[tactic(auto, using(crate::proofs::Everyday::every_command_legal))]
pub fn every_command_is_legal()
    ensures { EveryCommandIsLegal }
{}

// Accepted commands

/// The rows after an accepted command are those before it with its changes: rows appended at the end and
/// rows replaced by key, in all eight tables.
#[tactic(auto, using(crate::proofs::Leading::changes_give_rows))]
pub fn changes_give_rows()
    ensures { ChangesGiveRows }
{}

/// The plans, batches, vouchers and sessions after an accepted command are those before it with its
/// changes.
#[tactic(auto, using(crate::proofs::Changing::changes_give_records))]
pub fn changes_give_records()
    ensures { ChangesGiveRecords }
{}

/// The answer to an accepted command agrees with the history that contains the command.
pub fn answers_follow()
    ensures { AnswersFollow }
{}

/// The verdict on a command, and its changes, are the same from the rows as from the history.
pub fn rows_judge_alike()
    ensures { RowsJudgeAlike }
{}

/// A redemption increases the redemptions of its voucher by one, and extends or opens its session.
pub fn redeem_gives_records()
    ensures { RedeemGivesRecords }
{}

// Records by key

/// The plan of an id is its row.
#[tactic(auto, using(crate::proofs::Plans::plan_is_row))]
pub fn plan_is_row()
    ensures { PlanIsRow }
{}

/// The batch of an id is its row.
#[tactic(auto, using(crate::proofs::Keys::batch_is_row))]
pub fn batch_is_row()
    ensures { BatchIsRow }
{}

/// The voucher of a code is its row, joined with its count, its batch and the plan of the batch.
#[tactic(auto, using(crate::proofs::Vouchers::voucher_is_row))]
pub fn voucher_is_row()
    ensures { VoucherIsRow }
{}

/// The session of a number is its row, joined with its totals and its plan.
#[tactic(auto, using(crate::proofs::Sessions::session_is_row))]
pub fn session_is_row()
    ensures { SessionIsRow }
{}

/// The last session of a device is the last of its rows.
#[tactic(auto, using(crate::proofs::Sessions::last_session_is_row))]
pub fn last_session_is_row()
    ensures { LastSessionIsRow }
{}

/// One of the codes was issued exactly if one of them is in the rows of the vouchers.
#[tactic(auto, using(crate::proofs::Vouchers::issued_codes_are_rows))]
pub fn issued_codes_are_rows()
    ensures { IssuedCodesAreRows }
{}

// The loaded plans that a load reads

/// To look up the listed ids, the rows with these ids give the same plans as all rows.
#[tactic(auto, using(crate::proofs::Held::held_plans_suffice))]
pub fn held_plans_suffice()
    ensures { HeldPlansSuffice }
{}

/// Plans that agree with the rows on the listed ids give a load the verdict and the changes of the history.
pub fn held_plans_decide_load()
    ensures { HeldPlansDecideLoad }
{}

// Lists

/// The sessions of a history are those of its rows, in their order.
#[tactic(auto, using(crate::proofs::Listings::sessions_are_rows))]
pub fn sessions_are_rows()
    ensures { SessionsAreRows }
{}

/// The codes of a batch are those of its rows, at places from 0, and the batch has their number.
#[tactic(auto, using(crate::proofs::Listings::codes_are_rows))]
pub fn codes_are_rows()
    ensures { CodesAreRows }
{}

/// The sales of a history are those of the rows of its vouchers, in another order.
#[tactic(auto, using(crate::proofs::Paid::sales_are_rows))]
pub fn sales_are_rows()
    ensures { SalesAreRows }
{}

/// The refunds of a history are those of the rows of its vouchers, in another order.
#[tactic(auto, using(crate::proofs::Paid::refunds_are_rows))]
pub fn refunds_are_rows()
    ensures { RefundsAreRows }
{}

// Counters

/// The redemptions of a code are its rows in `portal_grants`.
#[tactic(auto, using(crate::proofs::Counts::uses_are_rows))]
pub fn uses_are_rows()
    ensures { UsesAreRows }
{}

/// The count of each voucher is the number of its rows in `portal_grants`.
#[tactic(auto, using(crate::proofs::Sessions::counts_are_sums))]
pub fn counts_are_sums()
    ensures { CountsAreSums }
{}

/// The end of each session and what remains of it follow from the sums over its rows in `portal_grants`,
/// less its used bytes.
#[tactic(auto, using(crate::proofs::Sessions::totals_are_sums))]
pub fn totals_are_sums()
    ensures { TotalsAreSums }
{}

// Keys

/// No table has two rows with the same key.
#[tactic(auto, using(crate::proofs::Numbers::keys_apart))]
pub fn keys_are_unique()
    ensures { KeysAreUnique }
{}

/// No two vouchers have the same place in a batch.
#[tactic(auto, using(crate::proofs::References::places_apart))]
pub fn places_are_unique()
    ensures { PlacesAreUnique }
{}

/// Each row that another refers to is there: the plan of a batch and of a session, the batch of a voucher,
/// the voucher and the session of a redemption, and the voucher of a count.
#[tactic(auto, using(crate::proofs::References::rows_refer))]
pub fn rows_refer_to_rows()
    ensures { RowsReferToRows }
{}

/// Sessions and redemptions are numbered from 1 without a gap, and the head row has the numbers of their
/// rows.
#[tactic(auto, using(crate::proofs::Numbers::rows_are_numbered))]
pub fn rows_are_numbered()
    ensures { RowsAreNumbered }
{}

// Vouchers

/// No voucher is redeemed more often than its plan allows.
#[tactic(auto, using(crate::proofs::Uses::uses_bounded))]
pub fn uses_are_bounded()
    ensures { UsesAreBounded }
{}

/// In the rows, no voucher has more redemptions than its plan allows, and a code without a voucher has
/// none.
#[tactic(auto, using(crate::proofs::Granted::grants_bounded))]
pub fn grants_are_bounded()
    ensures { GrantsAreBounded }
{}

/// A refund is at most the price.
#[tactic(auto, using(crate::proofs::Bounds::refunds_bounded))]
pub fn refunds_are_bounded()
    ensures { RefundsAreBounded }
{}

/// A voucher is sold at most once.
#[tactic(auto, using(crate::proofs::Once::voucher_is_sold_once))]
pub fn voucher_is_sold_once()
    ensures { VoucherIsSoldOnce }
{}

/// A voucher is refunded at most once.
#[tactic(auto, using(crate::proofs::Once::voucher_is_refunded_once))]
pub fn voucher_is_refunded_once()
    ensures { VoucherIsRefundedOnce }
{}

// Sessions

/// There are at most as many sessions as redemptions.
#[tactic(auto, using(crate::proofs::Bounds::sessions_fewer))]
pub fn sessions_are_fewer()
    ensures { SessionsAreFewer }
{}

/// What remains of an open session is at least 1, and at most what was granted.
#[tactic(auto, using(crate::proofs::Bounds::remains_bounded))]
pub fn remains_is_bounded()
    ensures { RemainsIsBounded }
{}

/// The remaining seconds and bytes that a device or the gateway gets are at least 1.
pub fn remainder_is_positive()
    ensures guest { GuestsSeeRemainder }
    ensures gateway { GatewaySeesRemainder }
{}

/// A session that is open at the effective time is the last one of its device.
#[tactic(auto, using(crate::proofs::Opens::open_is_last))]
pub fn open_is_last()
    ensures { OpenIsLast }
{}

/// At the effective time at most one session of a device is open.
#[tactic(auto, using(crate::proofs::Opens::one_session_is_open))]
pub fn one_session_is_open()
    ensures { OneSessionIsOpen }
{}

/// A session is closed at most once.
#[tactic(auto, using(crate::proofs::Once::session_is_closed_once))]
pub fn session_is_closed_once()
    ensures { SessionIsClosedOnce }
{}

// Values in the rows

/// In every row, ids are id texts, codes are codes and devices are devices.
#[tactic(auto, using(crate::proofs::Typed::rows_are_typed))]
pub fn rows_are_typed()
    ensures { RowsAreTyped }
{}

/// In every row, times and numbers are within their limits.
#[tactic(auto, using(crate::proofs::Within::rows_are_within_limits))]
pub fn rows_are_within_limits()
    ensures { RowsAreWithinLimits }
{}
