//! Inserts and reads the idempotent requests in `portal_requests`, by caller and idempotency key.

ghost use Rattle.std.specs.Prelude.{IfOk, IfSome, option_map};
ghost use Rattle.portal_ledger.specs.Ledger.{kept_with};
ghost use Rattle.portal_ledger.specs.Fingerprint.{IsCaller};
ghost use Rattle.portal_ledger.specs.RequestRow.{IsKeptTyped, row_of_request, text_of_caller};
ghost use Rattle.portal_tables_sql.specs.Finds.{Finds};
ghost use Rattle.portal_tables_rows.specs.Foreign.{AreOwn, IsOwnRequest};
ghost use Rattle.portal_tables_rows.specs.Requests.{key_of};
ghost use Rattle.portal_tables_rows.specs.Steps.{Writes, with_request};
ghost use Rattle.portal_tables_rows.specs.Selects.{ReadsRow};

use crate::answers::{CallerText, answer_row};
use crate::column_values::{PrintedText, integer, integer_or_null};
use crate::queries::read_one;
use crate::rows::RowError;
use crate::stored_requests::{StoredRequest, parse_kept_request};
use portal_ledger::caller::Caller;
use portal_ledger::request::{KeptRequest, RequestMark, RequestNumber};
use portal_model::change::Answer;
use portal_tables_sql::query::write;
use portal_tables_sql::statements::{INSERT_REQUEST, SELECT_REQUEST};
use sqlite::{Alter, Connection, Error, Transaction, params};
use std::alloc::Global;

/// Inserts a request, by its fingerprint, with the answer to it. Fails with `IntegralValueOutOfRange`, and
/// writes nothing, if a number of the answer does not fit in an INTEGER column.
pub fn insert_request<S: Alter>(
    tx: &mut Transaction<'_, S>,
    mark: &RequestMark,
    answer: &Answer,
) -> Result<(), Error>
    ensures { Writes S.Store (with_request (row_of_request (kept_with mark.now answer.now)))
        tx.old tx.new result }
{
    let text = CallerText::of(&mark.caller);
    let row = answer_row(answer);
    let n1 = integer(row.n1)?;
    let n2 = integer_or_null(row.n2)?;
    let n3 = integer_or_null(row.n3)?;
    write(
        tx,
        INSERT_REQUEST,
        params![
            PrintedText {
                bytes: text.as_bytes()
            },
            mark.number.text(),
            mark.method.as_str(),
            mark.path.as_str(),
            mark.body.as_slice(),
            row.kind,
            &row.word,
            n1,
            n2,
            n3
        ],
    )
}

/// Reads the request with this caller and idempotency key, with the answer that was given, or `None`.
/// Fails with `ForeignRow` if the row is not one that this product writes.
pub fn read_request_row<S: Alter>(
    alloc: Global,
    conn: &mut Connection<S>,
    caller: &Caller,
    number: &RequestNumber,
) -> Result<Option<KeptRequest>, RowError>
    ensures caller { IsCaller caller.now }
    ensures typed { IfOk result (λ found. IfSome found IsKeptTyped) }
    ensures reads { ReadsRow S.Store conn.old conn.new result
        (λ t found. Finds key_of (text_of_caller caller.now, number.now) t.requests
        (option_map row_of_request found))
        (λ t. AreOwn IsOwnRequest t.requests) }
{
    let text = CallerText::of(caller);
    let found: Option<StoredRequest> = read_one(
        conn,
        SELECT_REQUEST,
        params![
            PrintedText {
                bytes: text.as_bytes()
            },
            number.text()
        ],
    )?;
    match found {
        Some(row) => Ok(Some(parse_kept_request(alloc, &row)?)),
        None => Ok(None),
    }
}
