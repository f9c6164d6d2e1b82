//! The data for the print file of a batch.

use portal_model::lists::Codes;
use portal_model::plan::Plan;
use portal_model::record::Batch;

/// The data for the print file of a batch: the batch, its plan, and its codes in order of issue.
#[derive(Drop)]
pub struct BatchSheet {
    /// The batch.
    pub batch: Batch,
    /// The plan of its vouchers.
    pub plan: Plan,
    /// Its codes, in order of issue.
    pub codes: Codes,
}
