//! Values that are bound to columns of text and of integers.

ghost use Rattle.std.specs.Prelude.{◌≡◌, ◌↔◌, ◌<◌, ◌+◌, ◌^◌, pos, option_map, IfOk, IsOk};
ghost use Rattle.sqlite_value.specs.declared.value.Value.TheVariants.{Text};

use portal_model::moment::Moment;
use sqlite::Error;
use sqlite::types::{ToSql, ValueRef};

/// Text for a TEXT column: a printed code, a device or a caller.
#[derive(Clone, Copy)]
pub struct PrintedText<'a> {
    pub bytes: &'a [u8],
}

impl<'a> ToSql<'a> for PrintedText<'a> {
    ghost to_sql = { λ characters. Text characters.bytes.now };

    /// Returns the cell: the text.
    fn to_sql(self) -> ValueRef<'a> {
        ValueRef::Text(self.bytes)
    }
}

/// The end of a session and its remaining allowance in bytes, which is below 0 if more was used. A row of
/// `portal_totals`, which the schema versions 2 to 5 have.
#[derive(Clone, Copy, Debug, PartialEq, Eq)]
pub struct Total {
    pub number: u64,
    pub ends: Option<Moment>,
    pub remaining: Option<i64>,
}

/// Converts a number to the integer in a column. Fails with `IntegralValueOutOfRange` from 2^63 on, which
/// an INTEGER column does not hold.
pub(crate) fn integer(number: u64) -> Result<i64, Error>
    ensures value { IfOk result (λ n. n ≡ pos number) }
    ensures fits { IsOk result ↔ number < 2 ^ 63 }
{
    i64::try_from(number).map_err(|_| Error::IntegralValueOutOfRange(0))
}

/// Converts an optional number to the integer in a column. `None` is NULL. Fails as `integer`.
pub(crate) fn integer_or_null(number: Option<u64>) -> Result<Option<i64>, Error>
    ensures { IfOk result (λ n. n ≡ option_map pos number) }
{
    match number {
        Some(number) => Ok(Some(integer(number)?)),
        None => Ok(None),
    }
}

/// Returns the number after this one. Fails with `IntegralValueOutOfRange` if an INTEGER column does not
/// hold that.
pub(crate) fn next(number: u64) -> Result<u64, Error>
    ensures value { IfOk result (λ n. n ≡ number + 1) }
    ensures fits { IsOk result ↔ number + 1 < 2 ^ 63 }
{
    if number < (1 << 63) - 1 {
        Ok(number + 1)
    } else {
        Err(Error::IntegralValueOutOfRange(0))
    }
}

/// Converts an optional time to the integer in a column, in seconds. `None` is NULL.
pub(crate) fn seconds_or_null(moment: Option<Moment>) -> Option<i64>
    ensures { result ≡ option_map pos moment }
{
    match moment {
        Some(moment) => Some(moment.get() as i64),
        None => None,
    }
}
