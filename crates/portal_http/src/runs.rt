//! Serves a sequence of requests.
ghost use Rattle.std.specs.Prelude.{◌≡◌, IfErr};
ghost use Rattle.portal_http.specs.Calls.{AddsResponses, MovesState, RunsOn};

use crate::arrivals::Arrival;
use crate::serving::serve_request;
use portal_desk::Desk;
use portal_http_routes::Routes;
use portal_model::refusal::Refusal;
use std::alloc::Global;

/// Serves the requests in order and appends one response for each to `out`.
///
/// As long as the disk is fault-free, each response is one of these: the reply that the commands accepted
/// so far give at the time of arrival; that of `no_memory`, and the request has changed nothing; or that of
/// `stopped`, and then each later request that reaches the desk is answered `stopped` or `no_memory`.
/// Memory for the response and for its place in `out` is taken before a command is committed, so an
/// accepted command is never answered `no_memory`.
///
/// Then also, after a crash at any point of the run, the ledger is the one from before, then the commands
/// that were answered 200, in order, and at most one command more: the one that was first answered
/// `stopped`.
///
/// A desk that has stopped stays so, whatever the disk did.
///
/// Refusal: `NoMemory`, if no response can be made. That request changed nothing, and the run ends there.
pub fn run<D: Desk>(
    alloc: Global,
    desk: &mut D,
    routes: &Routes,
    arrivals: &[Arrival],
    out: &mut Vec<Vec<u8>>,
) -> Result<(), Refusal>
    ensures { RunsOn D.Desk arrivals.now desk.old desk.new out.old.items out.new.items result }
{
    serve_each(alloc, desk, routes, arrivals, out)
}

/// Serves the requests one after another, as `run` says.
///
/// The contract of `run` adds the crash states.
fn serve_each<D: Desk>(
    alloc: Global,
    desk: &mut D,
    routes: &Routes,
    arrivals: &[Arrival],
    out: &mut Vec<Vec<u8>>,
) -> Result<(), Refusal>
    ensures err { IfErr result (λ r. r ≡ Refusal.NoMemory) }
    ensures desk { MovesState D.Desk (λ old new. AddsResponses (D.settings desk.old) old arrivals.now
        out.old.items out.new.items result new) desk.old desk.new }
{
    let mut kept = None;
    for arrival in arrivals {
        out.reserve(1)?;
        let response = serve_request(alloc, desk, routes, &mut kept, arrival)?;
        let Ok(()) = out.push(response.bytes) else {
            unreachable!()
        };
    }
    Ok(())
}
