//! The indexes of this schema version: the name of each, its table and columns, and the statement that creates
//! it. No clause of a table finds a row: these do.

ghost use Rattle.std.specs.Prelude.{◌≡◌};
ghost use Rattle.portal_tables_sql.specs.Indexes.{described_index};

use crate::our_tables::OurTable;
use crate::statements::{
    INDEX_BATCHES_BY_ID, INDEX_BATCHES_BY_ISSUE, INDEX_GRANTS_BY_CODE, INDEX_PLANS_BY_ID,
    INDEX_REQUESTS_BY_KEY, INDEX_SESSIONS_BY_DEVICE, INDEX_VOUCHERS_BY_BATCH,
    INDEX_VOUCHERS_BY_CODE,
};

/// An index of the product.
#[derive(Clone, Copy, Debug, PartialEq, Eq)]
pub enum OurIndex {
    PlansById,
    BatchesById,
    BatchesByIssue,
    VouchersByCode,
    VouchersByBatch,
    SessionsByDevice,
    GrantsByCode,
    RequestsByKey,
}

/// The product's indexes.
pub const OUR_INDEXES: [OurIndex; 8] = [
    OurIndex::PlansById,
    OurIndex::BatchesById,
    OurIndex::BatchesByIssue,
    OurIndex::VouchersByCode,
    OurIndex::VouchersByBatch,
    OurIndex::SessionsByDevice,
    OurIndex::GrantsByCode,
    OurIndex::RequestsByKey,
];

/// The name of the index of `portal_counts`, which schema version 5 has.
pub const OLD_INDEX_NAME: &[u8] = b"portal_counts_by_code";

impl OurIndex {
    /// The name of the index.
    pub fn name(self) -> &'static [u8]
        ensures { result.now ≡ (described_index self).name }
    {
        match self {
            OurIndex::PlansById => b"portal_plans_by_id",
            OurIndex::BatchesById => b"portal_batches_by_id",
            OurIndex::BatchesByIssue => b"portal_batches_by_issue",
            OurIndex::VouchersByCode => b"portal_vouchers_by_code",
            OurIndex::VouchersByBatch => b"portal_vouchers_by_batch",
            OurIndex::SessionsByDevice => b"portal_sessions_by_device",
            OurIndex::GrantsByCode => b"portal_grants_by_code",
            OurIndex::RequestsByKey => b"portal_requests_by_key",
        }
    }

    /// The table of which it is an index.
    pub fn table(self) -> OurTable
        ensures { result ≡ (described_index self).table }
    {
        match self {
            OurIndex::PlansById => OurTable::Plans,
            OurIndex::BatchesById => OurTable::Batches,
            OurIndex::BatchesByIssue => OurTable::Batches,
            OurIndex::VouchersByCode => OurTable::Vouchers,
            OurIndex::VouchersByBatch => OurTable::Vouchers,
            OurIndex::SessionsByDevice => OurTable::Sessions,
            OurIndex::GrantsByCode => OurTable::Grants,
            OurIndex::RequestsByKey => OurTable::Requests,
        }
    }

    /// The places of its columns in a stored row, in which 0 is the rowid.
    pub fn columns(self) -> &'static [usize]
        ensures { result.now ≡ (described_index self).columns }
    {
        match self {
            OurIndex::PlansById => &[1],
            OurIndex::BatchesById => &[1],
            OurIndex::BatchesByIssue => &[3, 1],
            OurIndex::VouchersByCode => &[1],
            OurIndex::VouchersByBatch => &[2, 3],
            OurIndex::SessionsByDevice => &[2, 0],
            OurIndex::GrantsByCode => &[2],
            OurIndex::RequestsByKey => &[1, 2],
        }
    }

    /// The statement that creates the index.
    pub fn create_statement(self) -> &'static str
        ensures { result.now ≡ (described_index self).create }
    {
        match self {
            OurIndex::PlansById => INDEX_PLANS_BY_ID,
            OurIndex::BatchesById => INDEX_BATCHES_BY_ID,
            OurIndex::BatchesByIssue => INDEX_BATCHES_BY_ISSUE,
            OurIndex::VouchersByCode => INDEX_VOUCHERS_BY_CODE,
            OurIndex::VouchersByBatch => INDEX_VOUCHERS_BY_BATCH,
            OurIndex::SessionsByDevice => INDEX_SESSIONS_BY_DEVICE,
            OurIndex::GrantsByCode => INDEX_GRANTS_BY_CODE,
            OurIndex::RequestsByKey => INDEX_REQUESTS_BY_KEY,
        }
    }
}
