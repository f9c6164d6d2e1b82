//! The product's tables, of all schema versions: the name of each, and the statements that create and drop
//! it.

ghost use Rattle.std.specs.Prelude.{◌≡◌};
ghost use Rattle.portal_tables_sql.specs.Tables.{create_of, drop_of, name_of};

use crate::statements::{
    CREATE_BATCHES, CREATE_COUNTS, CREATE_GRANTS, CREATE_HEAD, CREATE_PLANS, CREATE_REQUESTS,
    CREATE_SESSIONS, CREATE_TOTALS, CREATE_VOUCHERS, DROP_BATCHES, DROP_COUNTS, DROP_GRANTS,
    DROP_HEAD, DROP_PLANS, DROP_REQUESTS, DROP_SESSIONS, DROP_TOTALS, DROP_VOUCHERS,
};

/// A table of the product. `Counts` and `Totals` are of the schema versions 2 to 5.
#[derive(Clone, Copy, Debug, PartialEq, Eq)]
pub enum OurTable {
    Head,
    Plans,
    Batches,
    Vouchers,
    Sessions,
    Grants,
    Counts,
    Totals,
    Requests,
}

/// The product's tables, of all schema versions.
pub const OUR_TABLES: [OurTable; 9] = [
    OurTable::Head,
    OurTable::Plans,
    OurTable::Batches,
    OurTable::Vouchers,
    OurTable::Sessions,
    OurTable::Grants,
    OurTable::Counts,
    OurTable::Totals,
    OurTable::Requests,
];

/// The tables of this schema version.
pub const CURRENT_TABLES: [OurTable; 7] = [
    OurTable::Head,
    OurTable::Plans,
    OurTable::Batches,
    OurTable::Vouchers,
    OurTable::Sessions,
    OurTable::Grants,
    OurTable::Requests,
];

impl OurTable {
    /// The name of the table.
    pub fn name(self) -> &'static [u8]
        ensures { result.now ≡ name_of self }
    {
        match self {
            OurTable::Head => b"portal_head",
            OurTable::Plans => b"portal_plans",
            OurTable::Batches => b"portal_batches",
            OurTable::Vouchers => b"portal_vouchers",
            OurTable::Sessions => b"portal_sessions",
            OurTable::Grants => b"portal_grants",
            OurTable::Counts => b"portal_counts",
            OurTable::Totals => b"portal_totals",
            OurTable::Requests => b"portal_requests",
        }
    }

    /// The statement that creates the table.
    pub fn create_statement(self) -> &'static str
        ensures { result.now ≡ create_of self }
    {
        match self {
            OurTable::Head => CREATE_HEAD,
            OurTable::Plans => CREATE_PLANS,
            OurTable::Batches => CREATE_BATCHES,
            OurTable::Vouchers => CREATE_VOUCHERS,
            OurTable::Sessions => CREATE_SESSIONS,
            OurTable::Grants => CREATE_GRANTS,
            OurTable::Counts => CREATE_COUNTS,
            OurTable::Totals => CREATE_TOTALS,
            OurTable::Requests => CREATE_REQUESTS,
        }
    }

    /// The statement that drops the table, with its indexes.
    pub fn drop_statement(self) -> &'static str
        ensures { result.now ≡ drop_of self }
    {
        match self {
            OurTable::Head => DROP_HEAD,
            OurTable::Plans => DROP_PLANS,
            OurTable::Batches => DROP_BATCHES,
            OurTable::Vouchers => DROP_VOUCHERS,
            OurTable::Sessions => DROP_SESSIONS,
            OurTable::Grants => DROP_GRANTS,
            OurTable::Counts => DROP_COUNTS,
            OurTable::Totals => DROP_TOTALS,
            OurTable::Requests => DROP_REQUESTS,
        }
    }
}
