//! The rows of `portal_grants`, read as values.

ghost use Rattle.portal_tables_rows.specs.Contents.{grant_cells};
ghost use Rattle.portal_tables_rows.specs.Foreign.{IsOfOwn, IsOwnGrant};
ghost use Rattle.portal_tables_rows.specs.Sums.{grant_read};

use crate::from_row::FromRow;
use crate::rows::{RowError, code_in, moment_in, number_in};
use portal_codes::Code;
use portal_model::moment::Moment;
use sqlite::Row;

/// A row of `portal_grants`: a redemption, with the seconds and bytes that it gave its session.
#[derive(Clone, Copy, Debug, PartialEq, Eq)]
pub struct GrantValue {
    pub number: u64,
    pub code: Code,
    pub session: u64,
    pub moment: Moment,
    pub seconds: u64,
    pub bytes: u64,
}

impl FromRow for GrantValue {
    ghost cells = { λ grant. grant_cells (grant_read grant) };

    ghost width = { 6 };

    ghost proper = { λ _. Unit {0} };

    ghost own = { IsOfOwn grant_cells IsOwnGrant };

    /// Reads a row of `portal_grants`.
    fn from_row(row: &Row) -> Result<GrantValue, RowError> {
        Ok(GrantValue {
            number: number_in(row, 0)?,
            code: code_in(row, 1)?,
            session: number_in(row, 2)?,
            moment: moment_in(row, 3)?,
            seconds: number_in(row, 4)?,
            bytes: number_in(row, 5)?,
        })
    }
}
