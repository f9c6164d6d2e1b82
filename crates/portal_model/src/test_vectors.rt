//! Test vectors of the model: histories with the answers to commands, the captive state of devices, the
//! details of sessions, the states of batches, and redemptions. The functions do nothing; their contracts
//! state the vectors.
ghost use Rattle.portal_model.specs.TestVectors.{
  IssueSellRedeem,
  ClockSetBack,
  UsedUpOnce,
  ExtendedBeforeEnd,
  NewSessionAtEnd,
  BytesCounted,
  ShapeAndExtendRefused,
  RefundOfUnusedUses,
  NotSoldThenExpired,
  CloseSession,
  AllowanceIsFull,
};
ghost use Rattle.portal_model.specs.DetailsVectors.{
  DetailsOfHour,
  DetailsOfBytes,
  DetailsOfBoth,
  DetailsOfLast,
};
ghost use Rattle.portal_model.specs.BatchVectors.{
  StatesOfBatches,
  BeginningsOfCodes,
  OrderOfBatches,
  RedemptionsOfCodes,
};
ghost use Rattle.portal_model.specs.VerdictVectors.{
  LoadVerdicts,
  IssueVerdicts,
  SellVerdicts,
  VoucherVerdicts,
  OpeningVerdicts,
  ExtensionVerdicts,
  NumbersAreFull,
  RefundVerdicts,
  SessionVerdicts,
  DeskRefusals,
  LimitedInBoth,
  FirstPlanExtends,
};

/// Test vectors: eleven histories, and for each command its verdict at each limit and where two errors
/// apply at once.
pub fn history_vectors_hold()
    ensures issue_sell_redeem { IssueSellRedeem }
    ensures clock_set_back { ClockSetBack }
    ensures used_up { UsedUpOnce }
    ensures extended_before_end { ExtendedBeforeEnd }
    ensures new_session_at_end { NewSessionAtEnd }
    ensures bytes_counted { BytesCounted }
    ensures shape_and_extend_refused { ShapeAndExtendRefused }
    ensures refund_of_unused_uses { RefundOfUnusedUses }
    ensures not_sold_then_expired { NotSoldThenExpired }
    ensures close_session { CloseSession }
    ensures allowance_full { AllowanceIsFull }
    ensures desk_refusals { DeskRefusals }
    ensures limited_in_both { LimitedInBoth }
    ensures first_plan_extends { FirstPlanExtends }
    ensures loads { LoadVerdicts }
    ensures issues { IssueVerdicts }
    ensures sales { SellVerdicts }
    ensures vouchers { VoucherVerdicts }
    ensures openings { OpeningVerdicts }
    ensures extensions { ExtensionVerdicts }
    ensures numbers_full { NumbersAreFull }
    ensures refunds { RefundVerdicts }
    ensures sessions { SessionVerdicts }
{}

/// Test vectors of the details of sessions: limited in time, in bytes and in both, closed, and extended.
pub fn details_vectors_hold()
    ensures hour { DetailsOfHour }
    ensures bytes { DetailsOfBytes }
    ensures both { DetailsOfBoth }
    ensures last { DetailsOfLast }
{}

/// Test vectors of the states of batches, of codes that are found by their first characters, of the order of
/// batches, and of redemptions.
pub fn batch_vectors_hold()
    ensures states { StatesOfBatches }
    ensures beginnings { BeginningsOfCodes }
    ensures order { OrderOfBatches }
    ensures redemptions { RedemptionsOfCodes }
{}
