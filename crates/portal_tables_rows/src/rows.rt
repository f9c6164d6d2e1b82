//! The values that are read from rows, the readers of single columns, and the errors of reading.

ghost use Rattle.std.specs.Prelude.{◌≡◌, ◌<◌, ◌^◌, length, string_bytes, option_map, IfOk, IfSome};
ghost use Rattle.std.specs.Str.{IsUtf8};
ghost use Rattle.portal_codes.specs.Code.{IsCode};
ghost use Rattle.portal_ledger.specs.RequestRow.{boolean};
ghost use Rattle.sqlite.specs.Order.{column};
ghost use Rattle.sqlite.specs.declared.types.Value.TheVariants.{Blob, Text};
ghost use Rattle.portal_codes.specs.Code.{text_of};
ghost use Rattle.portal_model.specs.Device.{IsDevice, text_of_device};
ghost use Rattle.portal_tables_sql.specs.Stored.{number, or_null};
ghost use Rattle.portal_tables_rows.specs.Contents.{flag, signed_or_null, text_or_null};
ghost use Rattle.sqlite.specs.declared.error.Error.TheVariants.{SqliteFailure};
ghost use Rattle.sqlite.specs.declared.error.ErrorCode.TheVariants.{OutOfMemory};
ghost use Rattle.portal_model.specs.IdText.{IsIdText};
ghost use Rattle.portal_tables_rows.specs.declared.rows.RowError.TheVariants.{Sql};
ghost use Rattle.portal_tables_rows.specs.Foreign.{
  IsMomentCell,
  IsMomentIfSome,
  IsPrintedCode,
  IsPrintedDevice,
  OnlyMemory,
  SparesOwn,
};

use portal_codes::Code;
use portal_model::moment::Moment;
use portal_model::name::{Device, Id};
use sqlite::{Error, Row};
use std::alloc::{AllocError, AllocFailed};

/// Why a row was not read or written.
#[derive(Debug, Drop)]
pub enum RowError {
    /// SQLite gave an error.
    Sql(Error),
    /// A row is not one that this product writes.
    ForeignRow,
}

impl From<Error> for RowError {
    ghost from_gives = { λ e f. f ≡ Sql e };

    /// Wraps an error of SQLite.
    fn from(error: Error) -> RowError {
        RowError::Sql(error)
    }
}

impl<T: Drop> From<AllocFailed<T>> for RowError {
    ghost from_gives = { λ _ f. f ≡ Sql (SqliteFailure OutOfMemory) };

    /// Makes the error out of memory from a failed allocation.
    fn from(failed: AllocFailed<T>) -> RowError {
        RowError::Sql(Error::from(failed))
    }
}

impl From<AllocError> for RowError {
    ghost from_gives = { λ _ f. f ≡ Sql (SqliteFailure OutOfMemory) };

    /// Makes the error out of memory from a failed allocation.
    fn from(error: AllocError) -> RowError {
        RowError::Sql(Error::from(error))
    }
}

/// The row of `portal_head`. `last` is the time of the last command.
#[derive(Clone, Copy, Debug, PartialEq, Eq)]
pub struct HeadValue {
    pub schema_version: u64,
    pub last: Moment,
    pub grants: u64,
    pub sessions: u64,
}

/// A row of `portal_vouchers`. `amount` is the refund in hundredths, and `redeemed` how often it was redeemed.
#[derive(Clone, Copy, Debug, PartialEq, Eq)]
pub struct VoucherValue {
    pub code: Code,
    pub batch: Id,
    pub place: u64,
    pub sold: Option<Moment>,
    pub refunded: Option<Moment>,
    pub amount: Option<u64>,
    pub redeemed: u64,
}

/// A row of `portal_vouchers` of a schema version up to 5. `amount` is the refund in hundredths.
#[derive(Clone, Copy, Debug, PartialEq, Eq)]
pub struct OldVoucher {
    pub code: Code,
    pub batch: Id,
    pub place: u64,
    pub sold: Option<Moment>,
    pub refunded: Option<Moment>,
    pub amount: Option<u64>,
}

/// A row of `portal_sessions`. `used` is in bytes, and `remaining` the allowance that remains, which is below 0
/// if more was used.
#[derive(Clone, Copy, Debug, PartialEq, Eq)]
pub struct SessionValue {
    pub number: u64,
    pub device: Device,
    pub plan: Id,
    pub opened: Moment,
    pub used: u64,
    pub closed: Option<Moment>,
    pub ends: Option<Moment>,
    pub remaining: Option<i64>,
}

/// A row of `portal_sessions` of a schema version up to 5. `used` is in bytes.
#[derive(Clone, Copy, Debug, PartialEq, Eq)]
pub struct OldSession {
    pub number: u64,
    pub device: Device,
    pub plan: Id,
    pub opened: Moment,
    pub used: u64,
    pub closed: Option<Moment>,
}

/// How often a voucher was redeemed: a row of `portal_counts`, which the schema versions 2 to 5 have.
#[derive(Clone, Copy, Debug, PartialEq, Eq)]
pub struct CountValue {
    pub code: Code,
    pub redeemed: u64,
}

/// Parses a code in its printed form. Fails with `ForeignRow` for any other text.
pub(crate) fn parse_printed_code(text: &str) -> Result<Code, RowError>
    ensures text { IfOk result (λ code. text_of code ≡ text.now) }
    ensures code { IfOk result IsCode }
    ensures own { IsPrintedCode text.now → OnlyMemory result }
{
    let Ok(code) = Code::read(text) else {
        return Err(RowError::ForeignRow);
    };
    let printed = code.text();
    if printed.as_bytes() == text.as_bytes() {
        Ok(code)
    } else {
        Err(RowError::ForeignRow)
    }
}

/// Parses a device in its printed form. Fails with `ForeignRow` for any other text.
pub(crate) fn parse_printed_device(text: &str) -> Result<Device, RowError>
    ensures text { IfOk result (λ device. text_of_device device ≡ text.now) }
    ensures device { IfOk result IsDevice }
    ensures own { IsPrintedDevice text.now → OnlyMemory result }
{
    let Ok(device) = Device::read(text) else {
        return Err(RowError::ForeignRow);
    };
    let printed = device.text();
    if printed.as_slice() == text.as_bytes() {
        Ok(device)
    } else {
        Err(RowError::ForeignRow)
    }
}

/// Parses a boolean: 0 or 1. Fails with `ForeignRow` for any other number.
pub(crate) fn parse_boolean(number: u64) -> Result<bool, RowError>
    ensures boolean { IfOk result (λ b. boolean b ≡ number) }
    ensures own { SparesOwn boolean (λ _. Unit {0}) number result }
{
    match number {
        0 => Ok(false),
        1 => Ok(true),
        _ => Err(RowError::ForeignRow),
    }
}

/// Reads the text in column `at`.
pub(crate) fn text_in(row: &Row, at: usize) -> Result<String, RowError>
    ensures column { IfOk result (λ text. column row.now at ≡ Text (string_bytes text)) }
    ensures own { SparesOwn Text IsUtf8 (column row.now at) result }
{
    Ok(row.get(at)?)
}

/// Reads the text in column `at`, or `None` if it is NULL.
pub(crate) fn text_or_null_in(row: &Row, at: usize) -> Result<Option<String>, RowError>
    ensures column { IfOk result (λ text. column row.now at ≡ text_or_null (option_map string_bytes text)) }
    ensures own { at < length row.now
        → SparesOwn text_or_null (λ text. IfSome text IsUtf8) (column row.now at) result }
{
    Ok(row.get(at)?)
}

/// Reads the bytes in column `at`.
pub(crate) fn bytes_in(row: &Row, at: usize) -> Result<Vec<u8>, RowError>
    ensures column { IfOk result (λ bytes. column row.now at ≡ Blob bytes.items) }
    ensures own { SparesOwn Blob (λ _. Unit {0}) (column row.now at) result }
{
    Ok(row.get(at)?)
}

/// Reads the number below 2^32 in column `at`.
pub(crate) fn small_number_in(row: &Row, at: usize) -> Result<u32, RowError>
    ensures column { IfOk result (λ n. column row.now at ≡ number n) }
    ensures own { SparesOwn number (λ n. n < 2 ^ 32) (column row.now at) result }
{
    Ok(row.get(at)?)
}

/// Reads the number in column `at`.
pub(crate) fn number_in(row: &Row, at: usize) -> Result<u64, RowError>
    ensures column { IfOk result (λ n. column row.now at ≡ number n) }
    ensures own { SparesOwn number (λ _. Unit {0}) (column row.now at) result }
{
    Ok(row.get(at)?)
}

/// Reads the number in column `at`, or `None` if it is NULL.
pub(crate) fn number_or_null_in(row: &Row, at: usize) -> Result<Option<u64>, RowError>
    ensures column { IfOk result (λ n. column row.now at ≡ or_null n) }
    ensures own { at < length row.now
        → SparesOwn or_null (λ _. Unit {0}) (column row.now at) result }
{
    Ok(row.get(at)?)
}

/// Reads the number with a sign in column `at`, or `None` if it is NULL.
pub(crate) fn signed_or_null_in(row: &Row, at: usize) -> Result<Option<i64>, RowError>
    ensures column { IfOk result (λ n. column row.now at ≡ signed_or_null n) }
    ensures own { at < length row.now
        → SparesOwn signed_or_null (λ _. Unit {0}) (column row.now at) result }
{
    Ok(row.get(at)?)
}

/// Reads the id in column `at`. Fails with `ForeignRow` if the text is not an id.
pub fn id_in(row: &Row, at: usize) -> Result<Id, RowError>
    ensures column { IfOk result (λ id. column row.now at ≡ Text id) }
    ensures own { SparesOwn Text IsIdText (column row.now at) result }
{
    let text = text_in(row, at)?;
    Id::read(&text).ok_or(RowError::ForeignRow)
}

/// Reads the code in column `at`. Fails with `ForeignRow` if the text is not a code in its printed form.
pub fn code_in(row: &Row, at: usize) -> Result<Code, RowError>
    ensures column { IfOk result (λ code. column row.now at ≡ Text (text_of code)) }
    ensures own { SparesOwn Text IsPrintedCode (column row.now at) result }
{
    let text = text_in(row, at)?;
    parse_printed_code(&text)
}

/// Reads the device in column `at`. Fails with `ForeignRow` if the text is not a device in its printed
/// form.
pub(crate) fn device_in(row: &Row, at: usize) -> Result<Device, RowError>
    ensures column { IfOk result (λ device. column row.now at ≡ Text (text_of_device device)) }
    ensures device { IfOk result IsDevice }
    ensures own { SparesOwn Text IsPrintedDevice (column row.now at) result }
{
    let text = text_in(row, at)?;
    parse_printed_device(&text)
}

/// Reads the time in column `at`. Fails with `ForeignRow` if the number is past the greatest time.
pub fn moment_in(row: &Row, at: usize) -> Result<Moment, RowError>
    ensures column { IfOk result (λ moment. column row.now at ≡ number moment) }
    ensures own { SparesOwn number IsMomentCell (column row.now at) result }
{
    let seconds = number_in(row, at)?;
    Moment::new(seconds).ok_or(RowError::ForeignRow)
}

/// Reads the time in column `at`, or `None` if it is NULL. Fails with `ForeignRow` if the number is past
/// the greatest time.
pub(crate) fn moment_or_null_in(row: &Row, at: usize) -> Result<Option<Moment>, RowError>
    ensures column { IfOk result (λ moment. column row.now at ≡ or_null moment) }
    ensures own { at < length row.now → SparesOwn or_null IsMomentIfSome (column row.now at) result }
{
    let seconds = number_or_null_in(row, at)?;
    match seconds {
        Some(seconds) => Ok(Some(Moment::new(seconds).ok_or(RowError::ForeignRow)?)),
        None => Ok(None),
    }
}

/// Reads the boolean in column `at`. Fails with `ForeignRow` if the number is not 0 or 1.
pub(crate) fn flag_in(row: &Row, at: usize) -> Result<bool, RowError>
    ensures column { IfOk result (λ b. column row.now at ≡ flag b) }
    ensures own { SparesOwn flag (λ _. Unit {0}) (column row.now at) result }
{
    parse_boolean(number_in(row, at)?)
}
