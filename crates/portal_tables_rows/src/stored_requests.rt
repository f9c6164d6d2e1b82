//! Reads the rows of `portal_requests`, and parses each as a request with its answer.

ghost use Rattle.std.specs.Prelude.{◌≡◌, Some, None, IfOk};
ghost use Rattle.portal_ledger.specs.Fingerprint.{IsCaller};
ghost use Rattle.portal_ledger.specs.RequestRow.{IsAnswerTyped, IsKeptTyped, cells, cells_of, row_of_request};
ghost use Rattle.portal_ledger.specs.RequestRow.{text_of_caller};
ghost use Rattle.portal_tables_rows.specs.Contents.{request_cells};
ghost use Rattle.portal_model.specs.IdText.{IsIdText};
ghost use Rattle.portal_tables_rows.specs.Foreign.{
  IsMomentCell,
  IsOwnAnswer,
  IsOwnRequest,
  OnlyMemory,
};
ghost use Rattle.portal_tables_rows.specs.Foreign.{IsOfOwn, SparesOwn};
ghost use Rattle.portal_tables_rows.specs.Requests.{AreTexts, IsReadable, key_cells, key_read, request_read};

use crate::from_row::FromRow;
use crate::rows::{
    RowError, bytes_in, number_in, number_or_null_in, parse_boolean, parse_printed_code,
    parse_printed_device, small_number_in, text_in, text_or_null_in,
};
use portal_ledger::caller::Caller;
use portal_ledger::request::{KeptRequest, RequestMark, RequestNumber};
use portal_model::change::Answer;
use portal_model::moment::Moment;
use portal_model::name::Id;
use sqlite::Row;
use std::alloc::Global;

/// The key of a row of `portal_requests`: the caller and the idempotency key.
#[derive(Debug, PartialEq, Eq, Hash, Drop)]
pub struct RequestKey {
    pub caller: String,
    pub number: String,
}

impl FromRow for RequestKey {
    ghost cells = { λ key. key_cells (key_read key) };

    ghost width = { 2 };

    ghost proper = { λ _. Unit {0} };

    ghost own = { IsOfOwn key_cells AreTexts };

    /// Reads the two columns of a key. It does not fail with `ForeignRow`.
    fn from_row(row: &Row) -> Result<RequestKey, RowError> {
        Ok(RequestKey {
            caller: text_in(row, 0)?,
            number: text_in(row, 1)?,
        })
    }
}

/// A row of `portal_requests`, not parsed yet.
#[derive(Drop)]
pub struct StoredRequest {
    pub caller: String,
    pub number: String,
    pub method: String,
    pub path: String,
    pub body: Vec<u8>,
    pub kind: u32,
    pub word: Option<String>,
    pub n1: u64,
    pub n2: Option<u64>,
    pub n3: Option<u64>,
}

impl FromRow for StoredRequest {
    ghost cells = { λ request. request_cells (request_read request) };

    ghost width = { 10 };

    ghost proper = { λ _. Unit {0} };

    // Each such row is read: `parse_kept_request` says which are of this product.
    ghost own = { IsOfOwn request_cells IsReadable };

    /// Reads a row of `portal_requests`. It does not fail with `ForeignRow`.
    fn from_row(row: &Row) -> Result<StoredRequest, RowError> {
        Ok(StoredRequest {
            caller: text_in(row, 0)?,
            number: text_in(row, 1)?,
            method: text_in(row, 2)?,
            path: text_in(row, 3)?,
            body: bytes_in(row, 4)?,
            kind: small_number_in(row, 5)?,
            word: text_or_null_in(row, 6)?,
            n1: number_in(row, 7)?,
            n2: number_or_null_in(row, 8)?,
            n3: number_or_null_in(row, 9)?,
        })
    }
}

/// Parses a caller: `desk`, `gateway`, or a device in its printed form. Fails with `ForeignRow` for any
/// other text.
fn parse_caller(text: &str) -> Result<Caller, RowError>
    ensures text { IfOk result (λ caller. text_of_caller caller ≡ text.now) }
    ensures caller { IfOk result IsCaller }
    ensures own { SparesOwn text_of_caller IsCaller text.now result }
{
    if text.as_bytes() == b"desk".as_slice() {
        return Ok(Caller::Desk);
    }
    if text.as_bytes() == b"gateway".as_slice() {
        return Ok(Caller::Gateway);
    }
    Ok(Caller::Guest(parse_printed_device(text)?))
}

/// Parses the columns of the answer to an issue: the batch, the number of codes and the expiry. Fails
/// with `ForeignRow` for an invalid id or time.
fn parse_issue_answer(word: &str, count: u64, expires: u64) -> Result<Answer, RowError>
    ensures cells { IfOk result (λ answer.
        cells_of answer ≡ cells 2 (Some word.now) count (Some expires) None) }
    ensures typed { IfOk result IsAnswerTyped }
    ensures own { IsIdText word.now → IsMomentCell expires → OnlyMemory result }
{
    let Some(batch) = Id::read(word) else {
        return Err(RowError::ForeignRow);
    };
    let Some(expires) = Moment::new(expires) else {
        return Err(RowError::ForeignRow);
    };
    Ok(Answer::IssueAnswer {
        batch,
        count,
        expires,
    })
}

/// Parses the answer in a row, by the row's kind. Fails with `ForeignRow` if the columns do not fit the
/// kind.
fn parse_answer(row: &StoredRequest) -> Result<Answer, RowError>
    ensures cells { IfOk result (λ answer. cells_of answer ≡ (request_read row.now).answer) }
    ensures typed { IfOk result IsAnswerTyped }
    ensures own { SparesOwn cells_of IsOwnAnswer (request_read row.now).answer result }
{
    match (row.kind, &row.word, row.n2, row.n3) {
        (1, None, None, None) => Ok(Answer::LoadAnswer { plans: row.n1 }),
        (2, Some(word), Some(expires), None) => parse_issue_answer(word.as_str(), row.n1, expires),
        (3, Some(word), None, None) => Ok(Answer::SellAnswer {
            code: parse_printed_code(word.as_str())?,
            price: row.n1,
        }),
        (4, None, Some(uses_left), Some(flag)) => Ok(Answer::RedeemAnswer {
            extended: parse_boolean(flag)?,
            session: row.n1,
            uses_left,
        }),
        (5, None, Some(used), Some(flag)) => Ok(Answer::ReportAnswer {
            still_open: parse_boolean(flag)?,
            session: row.n1,
            used,
        }),
        (6, Some(word), None, None) => Ok(Answer::RefundAnswer {
            amount: row.n1,
            code: parse_printed_code(word.as_str())?,
        }),
        (7, None, None, None) => Ok(Answer::CloseAnswer { session: row.n1 }),
        _ => Err(RowError::ForeignRow),
    }
}

/// Parses a row of `portal_requests` as a request with its answer. Fails with `ForeignRow` if the row is
/// not one that this product writes.
pub fn parse_kept_request(alloc: Global, row: &StoredRequest) -> Result<KeptRequest, RowError>
    ensures row { IfOk result (λ kept. row_of_request kept ≡ request_read row.now) }
    ensures typed { IfOk result IsKeptTyped }
    ensures own { IsOwnRequest (request_read row.now) → OnlyMemory result }
{
    let caller = parse_caller(row.caller.as_str())?;
    let Some(number) = RequestNumber::read(row.number.as_str()) else {
        return Err(RowError::ForeignRow);
    };
    let answer = parse_answer(row)?;
    let mark = RequestMark::new(
        alloc,
        caller,
        number,
        row.method.as_str(),
        row.path.as_str(),
        row.body.as_slice(),
    )?;
    Ok(KeptRequest { mark, answer })
}
