//! Serves one request, from its bytes to its response.
ghost use Rattle.std.specs.Prelude.{◌≡◌, ◌≤◌, Some, None, IfErr, MatchResult};
ghost use Rattle.portal_model.specs.Batches.{most_batches};
ghost use Rattle.portal_model.specs.Verdict.{IsWellFormed};
ghost use Rattle.portal_http_request.specs.declared.operation.Operation.TheVariants as operation;
ghost use Rattle.portal_http_request.specs.Checks.{IsInOrder};
ghost use Rattle.portal_http.specs.Runs.{Step};
ghost use Rattle.portal_http.specs.Serving.{GivesRefusal, HoldsOfResponse};
ghost use Rattle.portal_http.specs.Calls.{FinishesAt, MovesState, ServesAt};

use crate::arrivals::Arrival;
use crate::reply::Response;
use crate::responses::{
    answer_response, batch_response, batches_response, captive_response, details_response,
    open_details_response, own_details_response, redemptions_response, refusal_response,
    rejection_response, sessions_response, sheet_response, takings_response, voucher_response,
    vouchers_response,
};
use crate::spares::Spare;
use portal_codes::Code;
use portal_desk::Desk;
use portal_desk::prepared::{Marked, Prepared};
use portal_http_request::{Operation, check_request};
use portal_http_routes::Routes;
use portal_ledger::request::RequestMark;
use portal_model::calendar::DayRange;
use portal_model::code_start::CodeStart;
use portal_model::command::Command;
use portal_model::details::SessionKey;
use portal_model::moment::Moment;
use portal_model::name::{Device, Id};
use portal_model::refusal::Refusal;
use std::alloc::Global;

/// Answers with the captive state of a device. Refusal: that of the desk, or `NoMemory`.
fn answer_state<D: Desk>(
    alloc: Global,
    desk: &mut D,
    moment: Moment,
    device: Device,
) -> Result<Response, Refusal>
    ensures { ServesAt D.Desk (operation.State device) moment result desk.old desk.new }
{
    let captive = desk.state(moment, device)?;
    captive_response(alloc, desk.settings(), moment, &captive)
}

/// Answers with the print file of a batch. Refusal: that of the desk, or `NoMemory`.
fn answer_sheet<D: Desk>(
    alloc: Global,
    desk: &mut D,
    moment: Moment,
    id: Id,
) -> Result<Response, Refusal>
    ensures { ServesAt D.Desk (operation.Sheet id) moment result desk.old desk.new }
{
    let sheet = desk.batch(alloc, &id)?;
    sheet_response(alloc, desk.settings(), moment, &sheet)
}

/// Answers with the state of a voucher. Refusal: that of the desk, or `NoMemory`.
fn answer_voucher<D: Desk>(
    alloc: Global,
    desk: &mut D,
    moment: Moment,
    code: Code,
) -> Result<Response, Refusal>
    ensures { ServesAt D.Desk (operation.Voucher code) moment result desk.old desk.new }
{
    let voucher = desk.voucher(&code)?;
    voucher_response(alloc, moment, &voucher)
}

/// Answers with the takings of a range of days. Refusal: that of the desk, or `NoMemory`.
fn answer_takings<D: Desk>(
    alloc: Global,
    desk: &mut D,
    moment: Moment,
    range: DayRange,
) -> Result<Response, Refusal>
    ensures { ServesAt D.Desk (operation.Takings range) moment result desk.old desk.new }
{
    let days = desk.takings(alloc, range)?;
    takings_response(alloc, moment, days.as_slice())
}

/// Answers with the open sessions. Refusal: that of the desk, or `NoMemory`.
fn answer_sessions<D: Desk>(
    alloc: Global,
    desk: &mut D,
    moment: Moment,
) -> Result<Response, Refusal>
    ensures { ServesAt D.Desk operation.OpenSessions moment result desk.old desk.new }
{
    let sessions = desk.open_now(alloc, moment)?;
    sessions_response(alloc, moment, sessions.as_slice())
}

/// Answers with the details of the open sessions. Refusal: that of the desk, or `NoMemory`.
fn answer_open_details<D: Desk>(
    alloc: Global,
    desk: &mut D,
    moment: Moment,
) -> Result<Response, Refusal>
    ensures { ServesAt D.Desk operation.OpenDetails moment result desk.old desk.new }
{
    let sessions = desk.open_details(alloc, moment)?;
    open_details_response(alloc, moment, sessions.as_slice())
}

/// Answers with the details of a session. Refusal: that of the desk, or `NoMemory`.
fn answer_session<D: Desk>(
    alloc: Global,
    desk: &mut D,
    moment: Moment,
    number: u64,
) -> Result<Response, Refusal>
    ensures { ServesAt D.Desk (operation.Session number) moment result desk.old desk.new }
{
    let details = desk.session(moment, SessionKey::Number(number))?;
    details_response(alloc, moment, &details)
}

/// Answers with the details of the last session of a device. Refusal: that of the desk, or `NoMemory`.
fn answer_last_session<D: Desk>(
    alloc: Global,
    desk: &mut D,
    moment: Moment,
    device: Device,
) -> Result<Response, Refusal>
    ensures { ServesAt D.Desk (operation.LastSession device) moment result desk.old desk.new }
{
    let details = desk.session(moment, SessionKey::Last(device))?;
    details_response(alloc, moment, &details)
}

/// Answers a device with the details of its own last session. Refusal: that of the desk, or `NoMemory`.
fn answer_own_session<D: Desk>(
    alloc: Global,
    desk: &mut D,
    moment: Moment,
    device: Device,
) -> Result<Response, Refusal>
    ensures { ServesAt D.Desk (operation.OwnSession device) moment result desk.old desk.new }
{
    let details = desk.session(moment, SessionKey::Last(device))?;
    own_details_response(alloc, moment, &details)
}

/// Answers with a list of batches. Refusal: that of the desk, or `NoMemory`.
fn answer_batches<D: Desk>(
    alloc: Global,
    desk: &mut D,
    moment: Moment,
    before: Option<Id>,
    limit: usize,
) -> Result<Response, Refusal>
    requires { limit ≤ most_batches }
    ensures { ServesAt D.Desk (operation.Batches before limit) moment result desk.old desk.new }
{
    let (states, more) = desk.batches(alloc, before.as_ref(), limit)?;
    batches_response(alloc, moment, states.as_slice(), more)
}

/// Answers with a batch and its vouchers. Refusal: that of the desk, or `NoMemory`.
fn answer_batch<D: Desk>(
    alloc: Global,
    desk: &mut D,
    moment: Moment,
    id: Id,
) -> Result<Response, Refusal>
    ensures { ServesAt D.Desk (operation.Batch id) moment result desk.old desk.new }
{
    let (batch, vouchers) = desk.batch_vouchers(alloc, &id)?;
    batch_response(alloc, moment, &batch, vouchers.as_slice())
}

/// Answers with the vouchers whose codes begin so. Refusal: that of the desk, or `NoMemory`.
fn answer_vouchers<D: Desk>(
    alloc: Global,
    desk: &mut D,
    moment: Moment,
    start: &CodeStart,
) -> Result<Response, Refusal>
    ensures { ServesAt D.Desk (operation.Vouchers start.now) moment result desk.old desk.new }
{
    let (vouchers, more) = desk.vouchers_like(alloc, start)?;
    vouchers_response(alloc, moment, vouchers.as_slice(), more)
}

/// Answers with the last redemptions of a voucher. Refusal: that of the desk, or `NoMemory`.
fn answer_redemptions<D: Desk>(
    alloc: Global,
    desk: &mut D,
    moment: Moment,
    code: Code,
) -> Result<Response, Refusal>
    ensures { ServesAt D.Desk (operation.Redemptions code) moment result desk.old desk.new }
{
    let (redemptions, more) = desk.redemptions(alloc, moment, &code)?;
    redemptions_response(alloc, moment, redemptions.as_slice(), more)
}

/// Commits a command that the desk has prepared. Its response of status 200 is made before.
///
/// Refusal: `NoMemory`, and nothing has changed; or `Stopped`, and the command is in doubt.
fn commit_prepared<D: Desk>(
    alloc: Global,
    desk: &mut D,
    moment: Moment,
    prepared: Prepared,
) -> Result<Response, Refusal>
    ensures { FinishesAt D.Desk prepared moment result desk.old desk.new }
{
    let response = answer_response(alloc, moment, prepared.answer())?;
    match desk.finish(prepared) {
        Ok(()) => Ok(response),
        Err(refusal) => Err(refusal),
    }
}

/// Executes a command of a request without an idempotency key. Refusal: that of the desk, or `NoMemory`.
fn serve_plain<D: Desk>(
    alloc: Global,
    desk: &mut D,
    moment: Moment,
    command: Command,
) -> Result<Response, Refusal>
    requires { IsWellFormed command }
    ensures { ServesAt D.Desk (operation.Act command None) moment result desk.old desk.new }
{
    let prepared = desk.prepare(alloc, moment, command)?;
    commit_prepared(alloc, desk, moment, prepared)
}

/// Executes the command of a request with an idempotency key, and makes the response. A repetition of the
/// request changes nothing and gets the answer of the first one. Refusal: that of the desk, or `NoMemory`.
fn serve_idempotent<D: Desk>(
    alloc: Global,
    desk: &mut D,
    moment: Moment,
    command: Command,
    mark: &RequestMark,
) -> Result<Response, Refusal>
    requires { IsWellFormed command }
    ensures { ServesAt D.Desk (operation.Act command (Some mark.now)) moment result desk.old desk.new }
{
    let marked = desk.prepare_marked(alloc, moment, command, mark)?;
    match marked {
        Marked::Kept(answer) => answer_response(alloc, moment, answer),
        Marked::Fresh(prepared) => commit_prepared(alloc, desk, moment, prepared),
    }
}

/// Executes an operation on the desk and makes the response. Refusal: that of the desk, or `NoMemory`.
fn serve_operation<D: Desk>(
    alloc: Global,
    desk: &mut D,
    moment: Moment,
    operation: Operation,
) -> Result<Response, Refusal>
    requires { IsInOrder operation }
    ensures { ServesAt D.Desk operation moment result desk.old desk.new }
{
    match operation {
        Operation::State(device) => answer_state(alloc, desk, moment, device),
        Operation::Sheet(id) => answer_sheet(alloc, desk, moment, id),
        Operation::Voucher(code) => answer_voucher(alloc, desk, moment, code),
        Operation::Takings(range) => answer_takings(alloc, desk, moment, range),
        Operation::OpenSessions => answer_sessions(alloc, desk, moment),
        Operation::OpenDetails => answer_open_details(alloc, desk, moment),
        Operation::Session(number) => answer_session(alloc, desk, moment, number),
        Operation::LastSession(device) => answer_last_session(alloc, desk, moment, device),
        Operation::OwnSession(device) => answer_own_session(alloc, desk, moment, device),
        Operation::Batches(before, limit) => answer_batches(alloc, desk, moment, before, limit),
        Operation::Batch(id) => answer_batch(alloc, desk, moment, id),
        Operation::Vouchers(start) => answer_vouchers(alloc, desk, moment, &start),
        Operation::Redemptions(code) => answer_redemptions(alloc, desk, moment, code),
        Operation::Act(command, mark) => match mark {
            None => serve_plain(alloc, desk, moment, command),
            Some(mark) => serve_idempotent(alloc, desk, moment, command, &mark),
        },
    }
}

/// Checks one request, and executes its operation or answers with the rejection. Refusal: that of the desk,
/// or `NoMemory`.
fn check_and_serve<D: Desk>(
    alloc: Global,
    desk: &mut D,
    routes: &Routes,
    arrival: &Arrival,
) -> Result<Response, Refusal>
    ensures { MovesState D.Desk (λ old new. HoldsOfResponse result arrival.now.moment
        (λ bytes. Step (D.settings desk.old) old arrival.now bytes new)) desk.old desk.new }
{
    let moment = arrival.moment();
    match check_request(
        alloc,
        desk.settings(),
        routes,
        arrival.seed(),
        arrival.received(),
    ) {
        Err(rejected) => rejection_response(alloc, moment, rejected),
        Ok(operation) => serve_operation(alloc, desk, moment, operation),
    }
}

/// Makes the response to a refusal. Refusals: `Stopped`, if it is that one, since its spare response is sent;
/// `NoMemory`.
fn respond_to_refusal(alloc: Global, moment: Moment, refusal: Refusal) -> Result<Response, Refusal>
    ensures { HoldsOfResponse result moment (λ bytes. GivesRefusal refusal moment bytes) }
{
    match refusal {
        Refusal::Stopped | Refusal::NoMemory => Err(refusal),
        _ => refusal_response(alloc, moment, refusal),
    }
}

/// Checks and executes one request, and makes its response. Refusals: `Stopped`, `NoMemory`.
fn check_and_respond<D: Desk>(
    alloc: Global,
    desk: &mut D,
    routes: &Routes,
    arrival: &Arrival,
) -> Result<Response, Refusal>
    ensures { MovesState D.Desk (λ old new. HoldsOfResponse result arrival.now.moment
        (λ bytes. Step (D.settings desk.old) old arrival.now bytes new)) desk.old desk.new }
{
    match check_and_serve(alloc, desk, routes, arrival) {
        Ok(response) => Ok(response),
        Err(refusal) => respond_to_refusal(alloc, arrival.moment(), refusal),
    }
}

/// Serves one request: checks it, executes it and makes the response.
///
/// The spare responses are made before, unless those that were kept are of the same moment. They are kept
/// for the next request if neither is sent. Refusal: `NoMemory`, if no response can be made; nothing has
/// changed then.
pub fn serve_request<D: Desk>(
    alloc: Global,
    desk: &mut D,
    routes: &Routes,
    kept: &mut Option<Spare>,
    arrival: &Arrival,
) -> Result<Response, Refusal>
    ensures err { IfErr result (λ r. r ≡ Refusal.NoMemory) }
    ensures desk { MovesState D.Desk (λ old new. MatchResult result
        (λ response. Step (D.settings desk.old) old arrival.now response.bytes.items new) (λ _. new ≡ old))
        desk.old desk.new }
{
    let spare = match Spare::take_or_new(alloc, arrival.moment(), kept)? {
        Ok(spare) => spare,
        Err(no_memory) => return Ok(no_memory),
    };
    match check_and_respond(alloc, desk, routes, arrival) {
        Ok(response) => {
            *kept = Some(spare);
            Ok(response)
        }
        Err(refusal) => Ok(spare.into_response(refusal)),
    }
}
