//! The JSON bodies of requests and responses (RFC 8259).
#![tactic(auto)]

mod answers;
mod batches;
mod captives;
mod details;
mod listed;
mod objects;
mod orders;
mod redemptions;
mod sessions;
mod vouchers;

pub use answers::{answer_text, error_text};
pub use batches::{batch_text, batches_text, vouchers_text};
pub use captives::captive_text;
pub use details::{details_text, open_details_text, own_details_text};
pub use orders::{
    BatchOrder, ReportOrder, read_batch, read_close, read_redeem, read_refund, read_report,
    read_sale,
};
pub use redemptions::redemptions_text;
pub use sessions::sessions_text;
pub use vouchers::voucher_text;
