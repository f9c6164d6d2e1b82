//! What is told of batches.

ghost use Rattle.std.specs.Prelude.{◌≡◌};
ghost use Rattle.portal_model.specs.Batches.{batch_state};

use crate::record::{Batch, Voucher};

/// A batch, and how many of its vouchers were ever sold, refunded and used up.
#[derive(Clone, Copy, Debug, PartialEq, Eq)]
pub struct BatchState {
    pub batch: Batch,
    /// How many were sold, those that were refunded later among them.
    pub sold: u64,
    /// How many were refunded.
    pub refunded: u64,
    /// How many were redeemed as often as their plan allows.
    pub used_up: u64,
}

/// Counts the vouchers of a batch that were sold, refunded and used up.
pub fn batch_state(batch: &Batch, vouchers: &[Voucher]) -> BatchState
    ensures { result ≡ batch_state batch.now vouchers.now }
{
    let mut state = BatchState {
        batch: *batch,
        sold: 0,
        refunded: 0,
        used_up: 0,
    };
    for voucher in vouchers {
        if voucher.sold.is_some() {
            state.sold += 1;
        }
        if voucher.refund.is_some() {
            state.refunded += 1;
        }
        if voucher.redeemed >= u64::from(voucher.plan.uses) {
            state.used_up += 1;
        }
    }
    state
}
