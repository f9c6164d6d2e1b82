//! What the tables are asked: a type for each question, with what its answer is.

ghost use Rattle.std.specs.Prelude.{◌≡◌, IfOk, filter, is_some, option_map};
ghost use Rattle.sqlite.specs.Held.{state};
ghost use Rattle.portal_ledger.specs.Ledger.{Ledger, history_of};
ghost use Rattle.portal_model.specs.Batches.{AreVouchersLike, vouchers_in};
ghost use Rattle.portal_model.specs.Captive.{all_sessions};
ghost use Rattle.portal_model.specs.History.{head_of, plan_of, batch_of, issued_of, voucher_of, session_of};
ghost use Rattle.portal_model.specs.History.{last_session_of, codes_of, grants_of, is_open_at};
ghost use Rattle.portal_model.specs.Redemptions.{first_redemptions, redemptions_among};
ghost use Rattle.portal_tables_sql.specs.Looks.{Looks};
ghost use Rattle.portal_tables_rows.specs.Holds.{HasTables};
ghost use Rattle.portal_tables.specs.BatchLists.{AreFirstAfter};
ghost use Rattle.portal_tables.specs.HoldsLedger.{IsHeldUnder, OfLedger};
ghost use Rattle.portal_tables.specs.PaymentLists.{AreOrderedSales, AreRefunds, AreSales};

use crate::batches::{read_batches_after, read_vouchers_in, read_vouchers_like};
use crate::lists::{read_open_sessions, read_sales_as_issued, read_sales_by_moment};
use crate::records::{read_is_held, read_last_session, read_session, read_voucher};
use crate::redemptions::read_last_redemptions;
use portal_codes::Code;
use portal_ledger::caller::Caller;
use portal_ledger::request::{KeptRequest, RequestNumber};
use portal_model::code_start::CodeStart;
use portal_model::moment::Moment;
use portal_model::name::{Device, Id};
use portal_model::plan::Plan;
use portal_model::record::{Batch, Head, Session, Voucher};
use portal_model::redemptions::Redemption;
use portal_tables_rows::finds::{read_batch_row, read_head_row, read_plan_row};
use portal_tables_rows::lists::{list_batch_codes, list_refunds};
use portal_tables_rows::requests::read_request_row;
use portal_tables_rows::rows::RowError;
use sqlite::{Alter, Connection};
use std::alloc::Global;

/// A question to the tables. Asking changes nothing.
pub trait Question: Copy {
    type Answer;

    // What the answer is, by the ledger.
    ghost is: { Self → Ledger → Self.Answer → Type 0 };

    /// Reads the answer. Fails with `ForeignRow` if the tables hold a row that this product does not
    /// write.
    fn ask<S: Alter>(self, conn: &mut Connection<S>) -> Result<Self::Answer, RowError>
        ensures found { OfLedger (state S.Store conn.old) (state S.Store conn.new)
            (λ L. IfOk result (is self L)) }
        ensures looks { Looks HasTables result (state S.Store conn.old) (state S.Store conn.new) };
}

/// The time of the last command and the numbers of redemptions and sessions.
#[derive(Clone, Copy)]
pub struct TheHead;

impl Question for TheHead {
    type Answer = Head;

    ghost is = { λ _ L head. head ≡ head_of (history_of L) };

    /// Fails with `ForeignRow` if there is no head row.
    fn ask<S: Alter>(self, conn: &mut Connection<S>) -> Result<Head, RowError> {
        match read_head_row(conn)? {
            Some(kept) => Ok(Head {
                last: kept.last,
                grants: kept.grants,
                sessions: kept.sessions,
            }),
            None => Err(RowError::ForeignRow),
        }
    }
}

/// The plan with this id, or `None`.
#[derive(Clone, Copy)]
pub struct PlanOf<'a> {
    pub id: &'a Id,
}

impl Question for PlanOf<'_> {
    type Answer = Option<Plan>;

    ghost is = { λ asked L found. found ≡ plan_of (history_of L) asked.id.now };

    fn ask<S: Alter>(self, conn: &mut Connection<S>) -> Result<Option<Plan>, RowError> {
        read_plan_row(conn, self.id)
    }
}

/// The batch with this id, or `None`.
#[derive(Clone, Copy)]
pub struct BatchOf<'a> {
    pub id: &'a Id,
}

impl Question for BatchOf<'_> {
    type Answer = Option<Batch>;

    ghost is = { λ asked L found. found ≡ batch_of (history_of L) asked.id.now };

    fn ask<S: Alter>(self, conn: &mut Connection<S>) -> Result<Option<Batch>, RowError> {
        read_batch_row(conn, self.id)
    }
}

/// The voucher with this code, or `None`.
#[derive(Clone, Copy)]
pub struct VoucherOf<'a> {
    pub code: &'a Code,
}

impl Question for VoucherOf<'_> {
    type Answer = Option<Voucher>;

    ghost is = { λ asked L found. found ≡ voucher_of (history_of L) asked.code.now };

    fn ask<S: Alter>(self, conn: &mut Connection<S>) -> Result<Option<Voucher>, RowError> {
        read_voucher(conn, self.code)
    }
}

/// Whether a voucher with this code was issued. It takes one query; `VoucherOf` takes up to four.
#[derive(Clone, Copy)]
pub struct IsHeld<'a> {
    pub code: &'a Code,
}

impl Question for IsHeld<'_> {
    type Answer = bool;

    ghost is = { λ asked L found. found ≡ is_some (issued_of (history_of L) asked.code.now) };

    fn ask<S: Alter>(self, conn: &mut Connection<S>) -> Result<bool, RowError> {
        read_is_held(conn, self.code)
    }
}

/// The session with this number, or `None`.
#[derive(Clone, Copy)]
pub struct SessionOf {
    pub number: u64,
}

impl Question for SessionOf {
    type Answer = Option<Session>;

    ghost is = { λ asked L found. found ≡ session_of (history_of L) asked.number };

    fn ask<S: Alter>(self, conn: &mut Connection<S>) -> Result<Option<Session>, RowError> {
        read_session(conn, self.number)
    }
}

/// The device's session with the greatest number, or `None`.
#[derive(Clone, Copy)]
pub struct LastSessionOf<'a> {
    pub device: &'a Device,
}

impl Question for LastSessionOf<'_> {
    type Answer = Option<Session>;

    ghost is = { λ asked L found. found ≡ last_session_of (history_of L) asked.device.now };

    fn ask<S: Alter>(self, conn: &mut Connection<S>) -> Result<Option<Session>, RowError> {
        read_last_session(conn, self.device)
    }
}

/// The request with this caller and idempotency key, and the answer that was given, or `None`.
#[derive(Clone, Copy)]
pub struct RequestOf<'a> {
    pub alloc: Global,
    pub caller: &'a Caller,
    pub number: &'a RequestNumber,
}

impl Question for RequestOf<'_> {
    type Answer = Option<KeptRequest>;

    ghost is = { λ asked L found. IsHeldUnder L asked.caller.now asked.number.now found };

    fn ask<S: Alter>(self, conn: &mut Connection<S>) -> Result<Option<KeptRequest>, RowError> {
        read_request_row(self.alloc, conn, self.caller, self.number)
    }
}

/// The codes of a batch, ordered by place. The list is empty if there is no such batch.
#[derive(Clone, Copy)]
pub struct CodesOf<'a> {
    pub alloc: Global,
    pub batch: &'a Id,
}

impl Question for CodesOf<'_> {
    type Answer = Vec<Code>;

    ghost is = { λ asked L found. found.items ≡ codes_of (history_of L) asked.batch.now };

    fn ask<S: Alter>(self, conn: &mut Connection<S>) -> Result<Vec<Code>, RowError> {
        list_batch_codes(self.alloc, conn, self.batch)
    }
}

/// The vouchers of a batch, in order of issue. The list is empty if there is no such batch.
#[derive(Clone, Copy)]
pub struct VouchersIn<'a> {
    pub alloc: Global,
    pub batch: &'a Id,
}

impl Question for VouchersIn<'_> {
    type Answer = Vec<Voucher>;

    ghost is = { λ asked L found. found.items ≡ vouchers_in (history_of L) asked.batch.now };

    fn ask<S: Alter>(self, conn: &mut Connection<S>) -> Result<Vec<Voucher>, RowError> {
        read_vouchers_in(self.alloc, conn, self.batch)
    }
}

/// The first vouchers, by their printed codes, of those that begin so, and whether there are more.
#[derive(Clone, Copy)]
pub struct VouchersLike<'a> {
    pub alloc: Global,
    pub start: &'a CodeStart,
}

impl Question for VouchersLike<'_> {
    type Answer = (Vec<Voucher>, bool);

    ghost is = { λ asked L found. AreVouchersLike (history_of L) asked.start.now found.0.items found.1 };

    fn ask<S: Alter>(self, conn: &mut Connection<S>) -> Result<(Vec<Voucher>, bool), RowError> {
        read_vouchers_like(self.alloc, conn, self.start.printed())
    }
}

/// The last redemptions with this code, the newest first, as they are at a time, and whether there are more.
/// The list is empty if there is no such voucher.
#[derive(Clone, Copy)]
pub struct LastRedemptions<'a> {
    pub alloc: Global,
    pub code: &'a Code,
    pub at: &'a Moment,
}

impl Question for LastRedemptions<'_> {
    type Answer = (Vec<Redemption>, bool);

    ghost is = { λ asked L found. (found.0.items, found.1) ≡ first_redemptions
        (redemptions_among (history_of L) asked.at.now asked.code.now (grants_of (history_of L))) };

    fn ask<S: Alter>(self, conn: &mut Connection<S>) -> Result<(Vec<Redemption>, bool), RowError> {
        read_last_redemptions(self.alloc, conn, *self.at, self.code)
    }
}

/// The first 21 batches of their list, newest first, or of what comes after a batch in it.
#[derive(Clone, Copy)]
pub struct BatchesAfter<'a> {
    pub alloc: Global,
    pub before: Option<&'a Batch>,
}

impl Question for BatchesAfter<'_> {
    type Answer = Vec<Batch>;

    ghost is = { λ asked L found. AreFirstAfter (history_of L)
        (option_map (λ batch. batch.now) asked.before) found.items };

    fn ask<S: Alter>(self, conn: &mut Connection<S>) -> Result<Vec<Batch>, RowError> {
        read_batches_after(self.alloc, conn, self.before)
    }
}

/// The sessions that are open at a time, ordered by number.
#[derive(Clone, Copy)]
pub struct SessionsOpenAt {
    pub alloc: Global,
    pub at: Moment,
}

impl Question for SessionsOpenAt {
    type Answer = Vec<Session>;

    ghost is = { λ asked L found. found.items ≡ filter (is_open_at asked.at) (all_sessions (history_of L)) };

    fn ask<S: Alter>(self, conn: &mut Connection<S>) -> Result<Vec<Session>, RowError> {
        read_open_sessions(self.alloc, conn, self.at)
    }
}

/// The sales between two times, both included, each as its time and its price in hundredths. They are
/// ordered by time and then by the voucher's printed code.
#[derive(Clone, Copy)]
pub struct SalesByMoment {
    pub alloc: Global,
    pub from: Moment,
    pub to: Moment,
}

impl Question for SalesByMoment {
    type Answer = Vec<(Moment, u64)>;

    ghost is = { λ asked L found. AreOrderedSales (history_of L) asked.from asked.to found.items };

    fn ask<S: Alter>(self, conn: &mut Connection<S>) -> Result<Vec<(Moment, u64)>, RowError> {
        read_sales_by_moment(self.alloc, conn, self.from, self.to)
    }
}

/// The same sales in the order in which their vouchers were issued, which needs no sorting.
#[derive(Clone, Copy)]
pub struct SalesAsIssued {
    pub alloc: Global,
    pub from: Moment,
    pub to: Moment,
}

impl Question for SalesAsIssued {
    type Answer = Vec<(Moment, u64)>;

    ghost is = { λ asked L found. AreSales (history_of L) asked.from asked.to found.items };

    fn ask<S: Alter>(self, conn: &mut Connection<S>) -> Result<Vec<(Moment, u64)>, RowError> {
        read_sales_as_issued(self.alloc, conn, self.from, self.to)
    }
}

/// The refunds between two times, both included, each as its time and its amount in hundredths. They are
/// ordered by time and then by the voucher's printed code.
#[derive(Clone, Copy)]
pub struct Refunds {
    pub alloc: Global,
    pub from: Moment,
    pub to: Moment,
}

impl Question for Refunds {
    type Answer = Vec<(Moment, u64)>;

    ghost is = { λ asked L found. AreRefunds (history_of L) asked.from asked.to found.items };

    fn ask<S: Alter>(self, conn: &mut Connection<S>) -> Result<Vec<(Moment, u64)>, RowError> {
        list_refunds(self.alloc, conn, self.from, self.to)
    }
}
