//! Checks what each route requires of a request: the caller, the idempotency key, and the body or the
//! parameter.
ghost use Rattle.std.specs.Prelude.{◌≡◌, ℕ, List, IfOk, MatchResult, option_map, true, false};
ghost use Rattle.portal_files.specs.SettingsFile.{SettingsValue};
ghost use Rattle.portal_model.specs.Verdict.{IsWellFormed};
ghost use Rattle.portal_http_routes.specs.declared.Route.TheVariants as route;
ghost use Rattle.portal_http_request.specs.declared.rejection.Rejection.TheVariants.{Refused};
ghost use Rattle.portal_http_request.specs.Callers.{holds_token};
ghost use Rattle.portal_http_request.specs.Checks.{AsksForBatches, AsksForCommand, AsksForVouchers};
ghost use Rattle.portal_http_request.specs.Checks.{AtRoute, IsInOrder, OrMemory};

use crate::bodies::{
    close_command, load_command, redeem_command, refund_command, report_command, sell_command,
};
use crate::callers::{fingerprint_of, guest_device, holds_token};
use crate::issue::issue_command;
use crate::operation::Operation;
use crate::queries::{
    batch_id_of_text, code_of_text, days_of_query, device_of_query, limit_of_query, number_of_text,
    value_if_any,
};
use crate::rejection::Rejection;
use crate::routed::RoutedRequest;
use portal_files::Settings;
use portal_http_routes::{Route, only_value, path_parameter};
use portal_ledger::caller::Caller;
use portal_model::code_start::CodeStart;
use portal_model::command::Command;
use portal_model::refusal::Refusal;
use std::alloc::Global;

/// Makes the operation that executes a command, with the fingerprint of the request.
///
/// The idempotency key is checked before the command that was read from the body. Rejections: `BadRequest`
/// for the key; then the refusal in `ordered`; `NoMemory`.
fn command_operation(
    alloc: Global,
    asked: &RoutedRequest<'_>,
    caller: Caller,
    ordered: Result<Command, Refusal>,
) -> Result<Operation, Rejection>
    requires { IfOk ordered IsWellFormed }
    ensures checks { OrMemory (AsksForCommand asked.now caller (λ o. o ≡ ordered)) result }
    ensures in_order { IfOk result IsInOrder }
{
    let number = asked.idempotency_key()?;
    let command = ordered?;
    let mark = fingerprint_of(alloc, asked, caller, number)?;
    Ok(Operation::Act(command, mark))
}

/// Requires the token in the one field for it. Rejection: `Forbidden`.
fn require_token(token: &str, asked: &RoutedRequest<'_>) -> Result<(), Rejection>
    ensures { MatchResult result (λ _. holds_token token.now asked.now.token ≡ true)
        (λ rejection. (holds_token token.now asked.now.token ≡ false)
        × (rejection ≡ Refused Refusal.Forbidden)) }
{
    if holds_token(token, asked.token()) {
        Ok(())
    } else {
        Err(Rejection::Refused(Refusal::Forbidden))
    }
}

/// Checks `GET /captive`. Rejection: `BadDevice`.
fn check_captive(asked: &RoutedRequest<'_>) -> Result<Operation, Rejection>
    ensures checks { (settings : SettingsValue) (seed : List ℕ)
        → AtRoute settings seed asked.now route.Captive result }
    ensures in_order { IfOk result IsInOrder }
{
    let device = guest_device(asked.device()).ok_or(Refusal::BadDevice)?;
    Ok(Operation::State(device))
}

/// Checks `POST /portal/redeem`.
///
/// Rejections: `BadDevice`; then as for `command_operation` and `redeem_command`.
fn check_redeem(alloc: Global, asked: &RoutedRequest<'_>) -> Result<Operation, Rejection>
    ensures checks { (settings : SettingsValue) (seed : List ℕ)
        → OrMemory (AtRoute settings seed asked.now route.Redeem) result }
    ensures in_order { IfOk result IsInOrder }
{
    let device = guest_device(asked.device()).ok_or(Refusal::BadDevice)?;
    let ordered = redeem_command(alloc, device, asked.body());
    command_operation(alloc, asked, Caller::Guest(device), ordered)
}

/// Checks `POST /desk/plans`.
///
/// Rejections: `Forbidden`; then as for `command_operation` and `load_command`.
fn check_plans(
    alloc: Global,
    settings: &Settings,
    asked: &RoutedRequest<'_>,
) -> Result<Operation, Rejection>
    ensures checks { (seed : List ℕ) → OrMemory (AtRoute settings.now seed asked.now route.Plans) result }
    ensures in_order { IfOk result IsInOrder }
{
    require_token(settings.desk_token(), asked)?;
    command_operation(
        alloc,
        asked,
        Caller::Desk,
        load_command(alloc, asked.body()),
    )
}

/// Checks `POST /desk/batches`; the seed gives the codes.
///
/// Rejections: `Forbidden`; then as for `command_operation` and `issue_command`.
fn check_batches(
    alloc: Global,
    settings: &Settings,
    seed: [u8; 32],
    asked: &RoutedRequest<'_>,
) -> Result<Operation, Rejection>
    ensures checks { OrMemory (AtRoute settings.now seed asked.now route.Batches) result }
    ensures in_order { IfOk result IsInOrder }
{
    require_token(settings.desk_token(), asked)?;
    command_operation(
        alloc,
        asked,
        Caller::Desk,
        issue_command(alloc, asked.body(), seed),
    )
}

/// Checks `GET /desk/batches/{id}/print`. Rejections: `Forbidden`; `UnknownBatch`.
fn check_print(settings: &Settings, asked: &RoutedRequest<'_>) -> Result<Operation, Rejection>
    ensures checks { (seed : List ℕ) → AtRoute settings.now seed asked.now route.Print result }
    ensures in_order { IfOk result IsInOrder }
{
    require_token(settings.desk_token(), asked)?;
    let batch = batch_id_of_text(path_parameter(asked.path().as_bytes())).ok_or(
        Refusal::UnknownBatch,
    )?;
    Ok(Operation::Sheet(batch))
}

/// Checks `POST /desk/sales`.
///
/// Rejections: `Forbidden`; then as for `command_operation` and `sell_command`.
fn check_sales(
    alloc: Global,
    settings: &Settings,
    asked: &RoutedRequest<'_>,
) -> Result<Operation, Rejection>
    ensures checks { (seed : List ℕ) → OrMemory (AtRoute settings.now seed asked.now route.Sales) result }
    ensures in_order { IfOk result IsInOrder }
{
    require_token(settings.desk_token(), asked)?;
    command_operation(
        alloc,
        asked,
        Caller::Desk,
        sell_command(alloc, asked.body()),
    )
}

/// Checks `POST /desk/refunds`.
///
/// Rejections: `Forbidden`; then as for `command_operation` and `refund_command`.
fn check_refunds(
    alloc: Global,
    settings: &Settings,
    asked: &RoutedRequest<'_>,
) -> Result<Operation, Rejection>
    ensures checks { (seed : List ℕ) → OrMemory (AtRoute settings.now seed asked.now route.Refunds) result }
    ensures in_order { IfOk result IsInOrder }
{
    require_token(settings.desk_token(), asked)?;
    command_operation(
        alloc,
        asked,
        Caller::Desk,
        refund_command(alloc, asked.body()),
    )
}

/// Checks `POST /desk/closes`.
///
/// Rejections: `Forbidden`; then as for `command_operation` and `close_command`.
fn check_closes(
    alloc: Global,
    settings: &Settings,
    asked: &RoutedRequest<'_>,
) -> Result<Operation, Rejection>
    ensures checks { (seed : List ℕ) → OrMemory (AtRoute settings.now seed asked.now route.Closes) result }
    ensures in_order { IfOk result IsInOrder }
{
    require_token(settings.desk_token(), asked)?;
    command_operation(
        alloc,
        asked,
        Caller::Desk,
        close_command(alloc, asked.body()),
    )
}

/// Checks `GET /desk/vouchers/{code}`. Rejections: `Forbidden`; `BadCode`.
fn check_voucher(settings: &Settings, asked: &RoutedRequest<'_>) -> Result<Operation, Rejection>
    ensures checks { (seed : List ℕ) → AtRoute settings.now seed asked.now route.Voucher result }
    ensures in_order { IfOk result IsInOrder }
{
    require_token(settings.desk_token(), asked)?;
    let code = code_of_text(path_parameter(asked.path().as_bytes())).ok_or(Refusal::BadCode)?;
    Ok(Operation::Voucher(code))
}

/// Checks `GET /desk/vouchers/{code}/redemptions`. Rejections: `Forbidden`; `BadCode`.
fn check_redemptions(settings: &Settings, asked: &RoutedRequest<'_>) -> Result<Operation, Rejection>
    ensures checks { (seed : List ℕ) → AtRoute settings.now seed asked.now route.Redemptions result }
    ensures in_order { IfOk result IsInOrder }
{
    require_token(settings.desk_token(), asked)?;
    let text = path_parameter(asked.path().as_bytes());
    let code = code_of_text(text).ok_or(Refusal::BadCode)?;
    Ok(Operation::Redemptions(code))
}

/// Checks `GET /desk/takings`. Rejections: `Forbidden`; `BadRequest`.
fn check_takings(settings: &Settings, asked: &RoutedRequest<'_>) -> Result<Operation, Rejection>
    ensures checks { (seed : List ℕ) → AtRoute settings.now seed asked.now route.Takings result }
    ensures in_order { IfOk result IsInOrder }
{
    require_token(settings.desk_token(), asked)?;
    let days = days_of_query(asked.query()).ok_or(Refusal::BadRequest)?;
    Ok(Operation::Takings(days))
}

/// Checks `POST /gateway/reports`.
///
/// Rejections: `Forbidden`; then as for `command_operation` and `report_command`.
fn check_reports(
    alloc: Global,
    settings: &Settings,
    asked: &RoutedRequest<'_>,
) -> Result<Operation, Rejection>
    ensures checks { (seed : List ℕ) → OrMemory (AtRoute settings.now seed asked.now route.Reports) result }
    ensures in_order { IfOk result IsInOrder }
{
    require_token(settings.gateway_token(), asked)?;
    command_operation(
        alloc,
        asked,
        Caller::Gateway,
        report_command(alloc, asked.body()),
    )
}

/// Checks `GET /gateway/sessions`. Rejection: `Forbidden`.
fn check_sessions(settings: &Settings, asked: &RoutedRequest<'_>) -> Result<Operation, Rejection>
    ensures checks { (seed : List ℕ) → AtRoute settings.now seed asked.now route.Sessions result }
    ensures in_order { IfOk result IsInOrder }
{
    require_token(settings.gateway_token(), asked)?;
    Ok(Operation::OpenSessions)
}

/// Checks `GET /desk/sessions/{number}`. Rejections: `Forbidden`; `BadRequest`.
fn check_session(settings: &Settings, asked: &RoutedRequest<'_>) -> Result<Operation, Rejection>
    ensures checks { (seed : List ℕ) → AtRoute settings.now seed asked.now route.Session result }
    ensures in_order { IfOk result IsInOrder }
{
    require_token(settings.desk_token(), asked)?;
    let number = number_of_text(path_parameter(asked.path().as_bytes())).ok_or(
        Refusal::BadRequest,
    )?;
    Ok(Operation::Session(number))
}

/// Checks `GET /desk/sessions`. Rejections: `Forbidden`; `BadDevice`.
fn check_last_session(
    settings: &Settings,
    asked: &RoutedRequest<'_>,
) -> Result<Operation, Rejection>
    ensures checks { (seed : List ℕ) → AtRoute settings.now seed asked.now route.LastSession result }
    ensures in_order { IfOk result IsInOrder }
{
    require_token(settings.desk_token(), asked)?;
    let device = device_of_query(asked.query()).ok_or(Refusal::BadDevice)?;
    Ok(Operation::LastSession(device))
}

/// Checks `GET /portal/session`. Rejection: `BadDevice`.
fn check_own_session(asked: &RoutedRequest<'_>) -> Result<Operation, Rejection>
    ensures checks { (settings : SettingsValue) (seed : List ℕ)
        → AtRoute settings seed asked.now route.OwnSession result }
    ensures in_order { IfOk result IsInOrder }
{
    let own_device = guest_device(asked.device()).ok_or(Refusal::BadDevice)?;
    Ok(Operation::OwnSession(own_device))
}

/// Checks `GET /gateway/sessions/details`. Rejection: `Forbidden`.
fn check_session_details(
    settings: &Settings,
    asked: &RoutedRequest<'_>,
) -> Result<Operation, Rejection>
    ensures checks { (seed : List ℕ) → AtRoute settings.now seed asked.now route.SessionDetails result }
    ensures in_order { IfOk result IsInOrder }
{
    require_token(settings.gateway_token(), asked)?;
    Ok(Operation::OpenDetails)
}

/// Makes the operation that lists batches, from a query. Rejections: `BadRequest`; `UnknownBatch`.
fn batches_operation(query: Option<&[u8]>) -> Result<Operation, Rejection>
    ensures checks { AsksForBatches (option_map (λ q. q.now) query.entry) result }
    ensures in_order { IfOk result IsInOrder }
{
    let limit = limit_of_query(query).ok_or(Refusal::BadRequest)?;
    let Some(text) = value_if_any(query, b"before")? else {
        return Ok(Operation::Batches(None, limit));
    };
    let before = batch_id_of_text(text).ok_or(Refusal::UnknownBatch)?;
    Ok(Operation::Batches(Some(before), limit))
}

/// Checks `GET /desk/batches`. Rejections: `Forbidden`; `BadRequest`; `UnknownBatch`.
fn check_batch_list(settings: &Settings, asked: &RoutedRequest<'_>) -> Result<Operation, Rejection>
    ensures checks { (seed : List ℕ) → AtRoute settings.now seed asked.now route.BatchList result }
    ensures in_order { IfOk result IsInOrder }
{
    require_token(settings.desk_token(), asked)?;
    batches_operation(asked.query())
}

/// Checks `GET /desk/batches/{id}`. Rejections: `Forbidden`; `UnknownBatch`.
fn check_batch(settings: &Settings, asked: &RoutedRequest<'_>) -> Result<Operation, Rejection>
    ensures checks { (seed : List ℕ) → AtRoute settings.now seed asked.now route.Batch result }
    ensures in_order { IfOk result IsInOrder }
{
    require_token(settings.desk_token(), asked)?;
    let text = path_parameter(asked.path().as_bytes());
    let batch = batch_id_of_text(text).ok_or(Refusal::UnknownBatch)?;
    Ok(Operation::Batch(batch))
}

/// Makes the operation that finds vouchers, from a query. Rejections: `BadCode`; `NoMemory`.
fn vouchers_operation(alloc: Global, query: Option<&[u8]>) -> Result<Operation, Rejection>
    ensures checks { OrMemory (AsksForVouchers (option_map (λ q. q.now) query.entry)) result }
    ensures in_order { IfOk result IsInOrder }
{
    let Some(query) = query else {
        return Err(Rejection::Refused(Refusal::BadCode));
    };
    let Some(text) = only_value(query, b"prefix") else {
        return Err(Rejection::Refused(Refusal::BadCode));
    };
    let Ok(start) = CodeStart::read(alloc, text) else {
        return Err(Rejection::Refused(Refusal::NoMemory));
    };
    match start {
        Some(start) => Ok(Operation::Vouchers(start)),
        None => Err(Rejection::Refused(Refusal::BadCode)),
    }
}

/// Checks `GET /desk/vouchers`. Rejections: `Forbidden`; `BadCode`; `NoMemory`.
fn check_vouchers(
    alloc: Global,
    settings: &Settings,
    asked: &RoutedRequest<'_>,
) -> Result<Operation, Rejection>
    ensures checks { (seed : List ℕ) → OrMemory (AtRoute settings.now seed asked.now route.Vouchers) result }
    ensures in_order { IfOk result IsInOrder }
{
    require_token(settings.desk_token(), asked)?;
    vouchers_operation(alloc, asked.query())
}

/// Checks what a route requires of its request, and returns the operation.
///
/// The caller is checked first, then the idempotency key if the route has a command, then the body or the
/// parameter. Rejections: those of the checks of the routes, above.
pub fn check_route(
    alloc: Global,
    settings: &Settings,
    seed: [u8; 32],
    route: Route,
    asked: &RoutedRequest<'_>,
) -> Result<Operation, Rejection>
    ensures checks { OrMemory (AtRoute settings.now seed asked.now route) result }
    ensures in_order { IfOk result IsInOrder }
{
    match route {
        Route::Captive => check_captive(asked),
        Route::Redeem => check_redeem(alloc, asked),
        Route::Plans => check_plans(alloc, settings, asked),
        Route::Batches => check_batches(alloc, settings, seed, asked),
        Route::Print => check_print(settings, asked),
        Route::Sales => check_sales(alloc, settings, asked),
        Route::Refunds => check_refunds(alloc, settings, asked),
        Route::Closes => check_closes(alloc, settings, asked),
        Route::Voucher => check_voucher(settings, asked),
        Route::Takings => check_takings(settings, asked),
        Route::Reports => check_reports(alloc, settings, asked),
        Route::Sessions => check_sessions(settings, asked),
        Route::Session => check_session(settings, asked),
        Route::LastSession => check_last_session(settings, asked),
        Route::OwnSession => check_own_session(asked),
        Route::SessionDetails => check_session_details(settings, asked),
        Route::BatchList => check_batch_list(settings, asked),
        Route::Batch => check_batch(settings, asked),
        Route::Vouchers => check_vouchers(alloc, settings, asked),
        Route::Redemptions => check_redemptions(settings, asked),
    }
}
