//! The tables of which a migration copies the rows as they are: the statements that read
//! it whole and fill it row by row.

ghost use Rattle.std.specs.Prelude.{◌≡◌};
ghost use Rattle.portal_tables_sql.specs.Copies.{insert_of, select_of};

use crate::statements::{
    INSERT_BATCH, INSERT_GRANT, INSERT_PLAN, INSERT_REQUEST, INSERT_WHOLE_HEAD, SELECT_ALL_BATCHES,
    SELECT_ALL_GRANTS, SELECT_ALL_HEADS, SELECT_ALL_PLANS, SELECT_ALL_REQUESTS,
};

/// A table whose columns are the same in each schema version that has it.
#[derive(Clone, Copy, Debug, PartialEq, Eq)]
pub enum CopiedTable {
    Head,
    Plans,
    Batches,
    Grants,
    Requests,
}

impl CopiedTable {
    /// The SELECT of all columns of all its rows, in the order of the rowids.
    pub fn select_statement(self) -> &'static str
        ensures { result.now ≡ select_of self }
    {
        match self {
            CopiedTable::Head => SELECT_ALL_HEADS,
            CopiedTable::Plans => SELECT_ALL_PLANS,
            CopiedTable::Batches => SELECT_ALL_BATCHES,
            CopiedTable::Grants => SELECT_ALL_GRANTS,
            CopiedTable::Requests => SELECT_ALL_REQUESTS,
        }
    }

    /// The INSERT of a row with all its columns.
    pub fn insert_statement(self) -> &'static str
        ensures { result.now ≡ insert_of self }
    {
        match self {
            CopiedTable::Head => INSERT_WHOLE_HEAD,
            CopiedTable::Plans => INSERT_PLAN,
            CopiedTable::Batches => INSERT_BATCH,
            CopiedTable::Grants => INSERT_GRANT,
            CopiedTable::Requests => INSERT_REQUEST,
        }
    }
}
