//! The operations that a request can ask of the desk.

use portal_codes::Code;
use portal_ledger::request::RequestMark;
use portal_model::calendar::DayRange;
use portal_model::code_start::CodeStart;
use portal_model::command::Command;
use portal_model::name::{Device, Id};

/// What a request that passes the checks asks of the desk.
#[derive(Drop)]
pub enum Operation {
    /// Read the captive state of a device (RFC 8908, section 5).
    State(Device),
    /// Read the data for the print file of a batch.
    Sheet(Id),
    /// Read the voucher of a code.
    Voucher(Code),
    /// Add up the takings of a range of days.
    Takings(DayRange),
    /// List the open sessions.
    OpenSessions,
    /// Read the details of the session with a number.
    Session(u64),
    /// Read the details of the last session of a device, which the desk names.
    LastSession(Device),
    /// Read the details of the last session of the caller's own device.
    OwnSession(Device),
    /// List the open sessions with their details.
    OpenDetails,
    /// List the batches, newest first, after the batch with this id if there is one: at most so many.
    Batches(Option<Id>, usize),
    /// Read a batch with its vouchers.
    Batch(Id),
    /// Find the vouchers whose codes begin so.
    Vouchers(CodeStart),
    /// List the last redemptions of the voucher of a code.
    Redemptions(Code),
    /// Execute a command, idempotently if the request has a fingerprint.
    Act(Command, Option<RequestMark>),
}
