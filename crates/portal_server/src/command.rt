//! The command `serve`, over a host with a bound port.
ghost use Rattle.std.specs.Prelude.{◌≡◌, Result, MatchResult, IfOk, string_bytes};
ghost use Rattle.std.specs.Io.KnownBytes.{Appends};
ghost use Rattle.portal_server.specs.declared.error.ProgramError.{ProgramError as Failure};
ghost use Rattle.portal_server.specs.Streams.{outlets};
ghost use Rattle.portal_server.specs.Asks.{KeepsSettings, LeadsDesk, ServesRun, ServesSafely};
ghost use Rattle.portal_server.specs.Turns.{host_of};
ghost use Rattle.portal_server.specs.Command.{
  listening_line,
  exit_code_at,
  IsLineLost,
  PrintsBefore,
  PrintsAll,
  PrintsTurns,
  EndsTurns,
  EndsAt,
};

use crate::error::ProgramError;
use crate::host::Host;
use crate::printing::print_text;
use crate::serving::serve_connections;
use portal_desk::Desk;
use portal_http_routes::Routes;
use std::alloc::{AllocError, Global};
use std::io::Write;

/// Returns the line that names the port on which the program listens. The only error is out of memory.
fn listening_line(alloc: Global, port: u16) -> Result<String, AllocError>
    ensures { IfOk result (λ line. string_bytes line ≡ listening_line port) }
{
    format!(in alloc; "listening 127.0.0.1:{port}\n")
}

/// Prints the address on which the program listens.
///
/// Errors: `NoMemory`; `Cut` if the line was not written whole.
fn announce_port<W: Write>(alloc: Global, port: u16, output: &mut W) -> Result<(), ProgramError>
    ensures { MatchResult result
        (λ _. Appends (W.contents output.old) (W.contents output.new) (listening_line port))
        (λ error. IsLineLost error (W.contents output.old) (W.contents output.new) (listening_line port)) }
{
    let line = listening_line(alloc, port)?;
    print_text(line.as_bytes(), output)
}

/// Prints the address on which the program listens, and then serves.
///
/// Errors: those of `announce_port` and of `serve_connections`.
fn announce_and_serve<D: Desk, H: Host, W: Write, E: Write>(
    alloc: Global,
    desk: &mut D,
    routes: &Routes,
    host: &mut H,
    port: u16,
    count: u64,
    output: &mut W,
    errors: &mut E,
) -> Result<(), ProgramError>
    ensures settings { KeepsSettings D.Desk desk.old desk.new }
    ensures prints { PrintsBefore port count
        (outlets W.Write E.Write output.old output.new errors.old errors.new) result }
    ensures serves { LeadsDesk D.Desk desk.old desk.new (λ old new.
        ServesRun (D.settings desk.old) count old new × EndsAt new (exit_code_at result)) }
    ensures turns { LeadsDesk D.Desk desk.old desk.new (λ old new.
        PrintsTurns (host_of H.Host H.Reader.Read H.Writer.Write) (D.settings desk.old) port count
        (outlets W.Write E.Write output.old output.new errors.old errors.new)
        host.old old result host.new new) }
{
    announce_port(alloc, port, output)?;
    serve_connections(alloc, desk, routes, host, count, errors)
}

/// Takes `count` turns of a host on which `port` is bound, and returns the exit code of the program.
///
/// First it prints `listening 127.0.0.1:` and the port on `output`. Then in each turn it accepts one
/// connection and serves it, or accepting fails. Each request is executed at the time of the clock and with
/// a fresh seed, as `exchange` says. On `errors` it prints `portal: cut` for a connection that breaks off,
/// and `portal: network` for a turn in which accepting fails. From the second such turn in a row on, it
/// waits a second after each.
///
/// Exit code 0: `count` turns were taken, and the desk has not stopped. Exit code 3, with the line of the
/// error on `errors`: the desk has stopped (`portal: stopped`), at once; the clock or the source of
/// seeds failed (`portal: file`, `portal: no_memory`); or the first line was not written (`portal: cut`,
/// `portal: no_memory`).
pub fn serve<D: Desk, H: Host, W: Write, E: Write>(
    alloc: Global,
    desk: &mut D,
    routes: &Routes,
    host: &mut H,
    port: u16,
    count: u64,
    output: &mut W,
    errors: &mut E,
) -> u8
    ensures settings { KeepsSettings D.Desk desk.old desk.new }
    ensures prints { (ended : Result (Unit {0}) Failure) × (result ≡ exit_code_at ended)
        × PrintsAll port count (outlets W.Write E.Write output.old output.new errors.old errors.new) ended }
    ensures serves { LeadsDesk D.Desk desk.old desk.new (λ old new.
        ServesRun (D.settings desk.old) count old new × EndsAt new result) }
    ensures survives { ServesSafely D.Desk desk.old desk.new count }
    ensures turns { LeadsDesk D.Desk desk.old desk.new (λ old new.
        (ended : Result (Unit {0}) Failure) × (result ≡ exit_code_at ended)
        × EndsTurns (host_of H.Host H.Reader.Read H.Writer.Write) (D.settings desk.old) port count
        (outlets W.Write E.Write output.old output.new errors.old errors.new)
        host.old old ended host.new new) }
{
    match announce_and_serve(alloc, desk, routes, host, port, count, output, errors) {
        Ok(()) => 0,
        Err(error) => error.report(errors),
    }
}
