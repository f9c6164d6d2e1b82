//! Checks a request before the desk is called, in this order: syntax, path, method, and what the route
//! requires.
ghost use Rattle.std.specs.Prelude.{◌≡◌, IfOk, IfErr, Ok};
ghost use Rattle.portal_http_message.specs.Message.{message_of_request};
ghost use Rattle.portal_http_request.specs.Checks.{
  AtMessage,
  syntax_error,
  IsChecked,
  IsInOrder,
  IsOfRequest,
  OrMemory,
};

use crate::operation::Operation;
use crate::rejection::Rejection;
use crate::routed::RoutedRequest;
use crate::routes::check_route;
use portal_files::Settings;
use portal_http_message::{HeadError, ParsedRequest, Received};
use portal_http_routes::{Routes, split_target};
use portal_model::refusal::Refusal;
use std::alloc::Global;
use std::str;

/// Checks the path and the method of a request, and then what its route requires.
///
/// Rejections: `NoRoute`; `Method`; those of `check_route`.
#[tactic(auto, using(crate::proofs::RouteLemmas::at_path))]
fn check_path(
    alloc: Global,
    settings: &Settings,
    routes: &Routes,
    seed: [u8; 32],
    request: ParsedRequest<'_>,
) -> Result<Operation, Rejection>
    ensures checks { OrMemory (AtMessage settings.now seed (Ok (message_of_request request.entry))) result }
    ensures in_order { IfOk result IsInOrder }
{
    let (path, _) = split_target(request.target);
    let Ok(path) = str::from_utf8(path) else {
        return Err(Rejection::Refused(Refusal::NoRoute));
    };
    let Some(found) = routes.find(path) else {
        return Err(Rejection::Refused(Refusal::NoRoute));
    };
    let Some(route) = found.with_method(request.method) else {
        return Err(Rejection::Method(found));
    };
    let asked = RoutedRequest::new(request, route.method_text(), path);
    check_route(alloc, settings, seed, route, &asked)
}

/// Returns the refusal for an error in the syntax of a request.
fn syntax_error(error: HeadError) -> Refusal
    ensures { result ≡ syntax_error error }
{
    match error {
        HeadError::BadRequest => Refusal::BadRequest,
        HeadError::TooLarge => Refusal::TooLarge,
        HeadError::NotSupported => Refusal::NotSupported,
    }
}

/// Checks the bytes of a request, and returns the operation that it asks of the desk.
///
/// `seed` gives the codes of a new batch. Rejections, the first that applies:
/// - `BadRequest` for its syntax (RFC 9112, sections 2, 3.2 and 6), `TooLarge` for a body of more than
///   65,536 bytes, `NotSupported` for a body with a transfer coding;
/// - `NoRoute` for its path; `Method` for its method;
/// - `BadDevice` for a guest without one valid field Portal-Device; `Forbidden` for the desk or the gateway
///   without one field Portal-Token with their token;
/// - `BadRequest`, on routes with a command, for more than one field Portal-Request, or a value that is not
///   1 to 36 letters, digits and hyphens;
/// - `BadPlans`, `BadCode` or `BadRequest` for its body; `UnknownBatch`, `BadCode` or `BadRequest` for its
///   parameter; `BadRequest` for a query without valid days; `BadDevice` for a query without one valid
///   device; `BadRequest` and `UnknownBatch` for the query of a list of batches; `BadCode` for a query
///   without the first characters of a code.
///
/// `NoMemory` can come in place of any of these. No check returns `Stopped`.
pub fn check_request(
    alloc: Global,
    settings: &Settings,
    routes: &Routes,
    seed: [u8; 32],
    received: &Received,
) -> Result<Operation, Rejection>
    ensures checked { OrMemory (IsChecked settings.now seed received.now.bytes) result }
    ensures in_order { IfOk result IsInOrder }
    ensures own { IfErr result IsOfRequest }
{
    match received.request() {
        Err(error) => Err(Rejection::Refused(syntax_error(error))),
        Ok(request) => check_path(alloc, settings, routes, seed, request),
    }
}
