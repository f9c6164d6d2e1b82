//! Converts callers and answers to the columns of `portal_requests`.

ghost use Rattle.std.specs.Prelude.{◌≡◌};
ghost use Rattle.portal_ledger.specs.Fingerprint.{IsCaller};
ghost use Rattle.portal_ledger.specs.RequestRow.{cells_of, text_of_caller, boolean};
ghost use Rattle.portal_tables_rows.specs.Words.{row_cells, characters_of, word_cell};

use portal_codes::CodeText;
use portal_ledger::caller::Caller;
use portal_model::change::Answer;
use portal_model::name::Id;
use sqlite::types::{ToSql, ValueRef};

/// The text of a caller in the column `caller`: `desk`, `gateway`, or the MAC address of a guest's
/// device.
#[derive(Clone, Copy)]
pub enum CallerText {
    Desk,
    Gateway,
    Guest([u8; 17]),
}

impl CallerText {
    /// Returns the text of a caller.
    pub fn of(caller: &Caller) -> CallerText
        ensures text { characters_of result ≡ text_of_caller caller.now }
        ensures caller { IsCaller caller.now }
    {
        match caller {
            Caller::Desk => CallerText::Desk,
            Caller::Gateway => CallerText::Gateway,
            Caller::Guest(device) => CallerText::Guest(device.text()),
        }
    }

    /// Returns the bytes of the text.
    pub fn as_bytes(&self) -> &[u8]
        ensures { result.now ≡ characters_of self.now }
    {
        match self {
            CallerText::Desk => b"desk".as_slice(),
            CallerText::Gateway => b"gateway".as_slice(),
            CallerText::Guest(text) => text.as_slice(),
        }
    }
}

/// The column `word` of an answer: NULL, the id of a batch, or a printed code.
#[derive(Clone, Copy)]
pub enum Word {
    Nothing,
    Batch(Id),
    Code(CodeText),
}

impl<'a> ToSql<'a> for &'a Word {
    ghost to_sql = { λ word. word_cell word.now };

    /// Returns the cell: NULL, or the text.
    fn to_sql(self) -> ValueRef<'a> {
        match self {
            Word::Nothing => ValueRef::Null,
            Word::Batch(id) => ValueRef::Text(id.text().as_bytes()),
            Word::Code(text) => ValueRef::Text(text.as_bytes()),
        }
    }
}

/// The columns of an answer in `portal_requests`, by its kind: 1 load (`n1` plans), 2 issue (`word`
/// batch, `n1` codes, `n2` expiry), 3 sell (`word` code, `n1` price), 4 redeem (`n1` session, `n2` uses
/// left, `n3` extended), 5 report (`n1` session, `n2` bytes used, `n3` still open), 6 refund (`word`
/// code, `n1` amount), 7 close (`n1` session).
#[derive(Clone, Copy)]
pub struct AnswerRow {
    pub kind: u32,
    pub word: Word,
    pub n1: u64,
    pub n2: Option<u64>,
    pub n3: Option<u64>,
}

/// Converts a boolean to the integer in a column: 1 for true, 0 for false.
fn number_of_boolean(b: bool) -> u64
    ensures { result ≡ boolean b }
{
    if b { 1 } else { 0 }
}

/// Converts an answer to its columns.
pub fn answer_row(answer: &Answer) -> AnswerRow
    ensures { row_cells result ≡ cells_of answer.now }
{
    match answer {
        Answer::LoadAnswer { plans } => AnswerRow {
            kind: 1,
            word: Word::Nothing,
            n1: *plans,
            n2: None,
            n3: None,
        },
        Answer::IssueAnswer {
            batch,
            count,
            expires,
        } => AnswerRow {
            kind: 2,
            word: Word::Batch(*batch),
            n1: *count,
            n2: Some(expires.get()),
            n3: None,
        },
        Answer::SellAnswer { code, price } => AnswerRow {
            kind: 3,
            word: Word::Code(code.text()),
            n1: *price,
            n2: None,
            n3: None,
        },
        Answer::RedeemAnswer {
            extended,
            session,
            uses_left,
        } => AnswerRow {
            kind: 4,
            word: Word::Nothing,
            n1: *session,
            n2: Some(*uses_left),
            n3: Some(number_of_boolean(*extended)),
        },
        Answer::ReportAnswer {
            still_open,
            session,
            used,
        } => AnswerRow {
            kind: 5,
            word: Word::Nothing,
            n1: *session,
            n2: Some(*used),
            n3: Some(number_of_boolean(*still_open)),
        },
        Answer::RefundAnswer { amount, code } => AnswerRow {
            kind: 6,
            word: Word::Code(code.text()),
            n1: *amount,
            n2: None,
            n3: None,
        },
        Answer::CloseAnswer { session } => AnswerRow {
            kind: 7,
            word: Word::Nothing,
            n1: *session,
            n2: None,
            n3: None,
        },
    }
}
