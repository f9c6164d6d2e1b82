//! The loop over connections.
ghost use Rattle.std.specs.Prelude.{◌≡◌, ◌≤◌, ℕ, List, Option, length, IfErr, MatchResult};
ghost use Rattle.std.specs.Io.KnownBytes.{Keeps};
ghost use Rattle.portal_server.specs.declared.error.ProgramError.{ProgramError as Failure};
ghost use Rattle.portal_server.specs.Asks.{KeepsSettings, LeadsDesk, ServesRun, ServesSafely};
ghost use Rattle.portal_server.specs.Serving.{PrintsOfConnection, PrintsOfConnections, EndsLoop, IsHostError};
ghost use Rattle.portal_server.specs.Turns.{host_of, ServesPeer, IsTurn, Pauses, FailsAt, TakesTurns};

use crate::error::ProgramError;
use crate::host::Host;
use crate::peers::serve_peer;
use portal_desk::Desk;
use portal_http::Spare;
use portal_http_routes::Routes;
use portal_model::refusal::Refusal;
use std::alloc::Global;
use std::io::Write;

/// Serves one connection with the time of the clock and a fresh seed, and closes it.
///
/// Errors: `File` or `NoMemory` of the host, before anything is read.
fn serve_connection<D: Desk, H: Host, E: Write>(
    alloc: Global,
    desk: &mut D,
    routes: &Routes,
    kept: &mut Option<Spare>,
    host: &mut H,
    mut reader: H::Reader,
    mut writer: H::Writer,
    errors: &mut E,
) -> Result<(), ProgramError>
    ensures settings { KeepsSettings D.Desk desk.old desk.new }
    ensures err { IfErr result IsHostError }
    ensures says { (said : Option Failure)
        × PrintsOfConnection said (E.contents errors.old) (E.contents errors.new) }
    ensures serves { LeadsDesk D.Desk desk.old desk.new (ServesRun (D.settings desk.old) 1) }
    ensures meets { LeadsDesk D.Desk desk.old desk.new (λ old new. MatchResult result
        (λ _. (said : Option Failure)
        × PrintsOfConnection said (E.contents errors.old) (E.contents errors.new)
        × ServesPeer (host_of H.Host H.Reader.Read H.Writer.Write)
        (D.settings desk.old) host.old reader writer old said host.new new)
        (λ error. (new ≡ old) × Keeps (E.contents errors.old) (E.contents errors.new)
        × H.stamps host.old (Err error) host.new)) }
{
    let (moment, seed) = host.moment_and_seed()?;
    serve_peer(
        alloc,
        desk,
        routes,
        kept,
        moment,
        seed,
        &mut reader,
        &mut writer,
        errors,
    );
    host.close(reader, writer);
    Ok(())
}

/// Waits a second if accepting failed in the turn before this one too.
fn pause_if_failed<H: Host>(host: &mut H, has_failed: bool)
    ensures { Pauses (host_of H.Host H.Reader.Read H.Writer.Write) has_failed host.old host.new }
{
    if has_failed {
        host.pause();
    }
}

/// Takes one turn: waits for a connection and serves it. Returns whether accepting failed.
///
/// In that case it prints `portal: network`, and waits a second if accepting failed in the turn before too,
/// as `has_failed` says. Errors: `File` or `NoMemory` of the host.
fn accept_and_serve<D: Desk, H: Host, E: Write>(
    alloc: Global,
    desk: &mut D,
    routes: &Routes,
    kept: &mut Option<Spare>,
    host: &mut H,
    has_failed: bool,
    errors: &mut E,
) -> Result<bool, ProgramError>
    ensures settings { KeepsSettings D.Desk desk.old desk.new }
    ensures err { IfErr result IsHostError }
    ensures says { (said : Option Failure)
        × PrintsOfConnection said (E.contents errors.old) (E.contents errors.new) }
    ensures serves { LeadsDesk D.Desk desk.old desk.new (ServesRun (D.settings desk.old) 1) }
    ensures turn { LeadsDesk D.Desk desk.old desk.new (λ old new. MatchResult result
        (λ fails. (said : Option Failure)
        × PrintsOfConnection said (E.contents errors.old) (E.contents errors.new)
        × IsTurn (host_of H.Host H.Reader.Read H.Writer.Write)
        (D.settings desk.old) has_failed host.old old said host.new new fails)
        (λ error. (new ≡ old) × Keeps (E.contents errors.old) (E.contents errors.new)
        × FailsAt (host_of H.Host H.Reader.Read H.Writer.Write) host.old error host.new)) }
{
    match host.accept() {
        Some(peer) => {
            let (reader, writer) = peer;
            serve_connection(alloc, desk, routes, kept, host, reader, writer, errors)?;
            Ok(false)
        }
        None => {
            ProgramError::Network.report(errors);
            pause_if_failed(host, has_failed);
            Ok(true)
        }
    }
}

/// Takes `count` turns, one after another. In each turn one connection of the host is accepted and served,
/// or accepting fails.
///
/// Each connection gets the time of the clock and a fresh seed. It prints `portal: cut` for a connection
/// that breaks off and `portal: network` for a turn in which accepting fails, and goes on; after the second
/// such turn in a row, and each further one, it waits a second.
///
/// The desk then represents the state after a run of at most one request for each turn.
///
/// Errors: `Refused(Stopped)` if the desk has stopped, at once, before it waits for another connection;
/// `File` or `NoMemory` if the clock or the source of seeds fails.
pub fn serve_connections<D: Desk, H: Host, E: Write>(
    alloc: Global,
    desk: &mut D,
    routes: &Routes,
    host: &mut H,
    count: u64,
    errors: &mut E,
) -> Result<(), ProgramError>
    ensures settings { KeepsSettings D.Desk desk.old desk.new }
    ensures says { (said : List (Option Failure))
        × PrintsOfConnections said (E.contents errors.old) (E.contents errors.new)
        × MatchResult result (λ _. length said ≡ count) (λ _. length said ≤ count) }
    ensures serves { LeadsDesk D.Desk desk.old desk.new (λ old new.
        ServesRun (D.settings desk.old) count old new × EndsLoop new result) }
    ensures survives { ServesSafely D.Desk desk.old desk.new count }
    ensures turns { LeadsDesk D.Desk desk.old desk.new (λ old new. (said : List (Option Failure))
        × PrintsOfConnections said (E.contents errors.old) (E.contents errors.new)
        × TakesTurns (host_of H.Host H.Reader.Read H.Writer.Write)
        (D.settings desk.old) count host.old old said result host.new new) }
{
    let mut kept = None;
    accept_loop(alloc, desk, routes, &mut kept, host, count, errors)
}

/// Takes the turns one after another, as `serve_connections` says.
///
/// The contract of `serve_connections` adds the crash states.
fn accept_loop<D: Desk, H: Host, E: Write>(
    alloc: Global,
    desk: &mut D,
    routes: &Routes,
    kept: &mut Option<Spare>,
    host: &mut H,
    count: u64,
    errors: &mut E,
) -> Result<(), ProgramError>
    ensures settings { KeepsSettings D.Desk desk.old desk.new }
    ensures says { (said : List (Option Failure))
        × PrintsOfConnections said (E.contents errors.old) (E.contents errors.new)
        × MatchResult result (λ _. length said ≡ count) (λ _. length said ≤ count) }
    ensures serves { LeadsDesk D.Desk desk.old desk.new (λ old new.
        ServesRun (D.settings desk.old) count old new × EndsLoop new result) }
    ensures turns { LeadsDesk D.Desk desk.old desk.new (λ old new. (said : List (Option Failure))
        × PrintsOfConnections said (E.contents errors.old) (E.contents errors.new)
        × TakesTurns (host_of H.Host H.Reader.Read H.Writer.Write)
        (D.settings desk.old) count host.old old said result host.new new) }
{
    let mut has_failed = false;
    for _turn in 0..count {
        if desk.is_stopped() {
            return Err(ProgramError::Refused(Refusal::Stopped));
        }
        has_failed = accept_and_serve(alloc, desk, routes, kept, host, has_failed, errors)?;
    }
    if desk.is_stopped() {
        Err(ProgramError::Refused(Refusal::Stopped))
    } else {
        Ok(())
    }
}
