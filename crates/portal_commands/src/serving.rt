//! The subcommand `serve`.
ghost use Rattle.portal_server.specs.Streams.{outlets};
ghost use Rattle.portal_server.specs.Asks.{KeepsSettings, LeadsDesk, ServesRun};
ghost use Rattle.portal_commands.specs.Serving.{IsServed, ServesAt, ServesOver};
ghost use Rattle.portal_commands.specs.Bounds.{network_of, place_value};

pub use crate::network::Network;
use crate::place::{Files, Place, Purpose, close_opened_desk, open_desk};
use crate::trouble::Trouble;
use portal_desk::Desk;
use portal_http_routes::Routes;
use portal_server::{ProgramError, serve as serve_bound};
use std::alloc::Global;
use std::io::Write;

/// The options of `serve`.
#[derive(Clone, Copy, Debug, PartialEq, Eq)]
pub struct ServeOptions {
    /// The port, from 1 on.
    pub port: u16,
    /// The number of connections.
    pub count: u64,
}

/// Binds the port, serves so many connections by a desk, as `portal_server::serve` does, and returns the exit
/// code.
///
/// An error before the first connection is printed on `errors`, with exit code 3: `no_memory`, or `network`
/// if the port cannot be bound, with the cause.
pub fn serve_at<D: Desk, N: Network, W: Write, E: Write>(
    alloc: Global,
    desk: &mut D,
    network: N,
    at: ServeOptions,
    output: &mut W,
    errors: &mut E,
) -> u8
    ensures settings { KeepsSettings D.Desk desk.old desk.new }
    ensures prints { IsServed at
        (outlets W.Write E.Write output.old output.new errors.old errors.new) result }
    ensures serves { LeadsDesk D.Desk desk.old desk.new (ServesRun (D.settings desk.old) at.count) }
    ensures turns { LeadsDesk D.Desk desk.old desk.new (λ old new.
        ServesAt (network_of N.Network N.Bound.Host N.Bound.Reader.Read N.Bound.Writer.Write network)
        at (D.settings desk.old)
        (outlets W.Write E.Write output.old output.new errors.old errors.new) result old new) }
{
    let Ok(routes) = Routes::new(alloc) else {
        return Trouble::plain(ProgramError::NoMemory).report(errors);
    };
    match network.listen(alloc, at.port) {
        Err(trouble) => trouble.report(errors),
        Ok(mut host) => serve_bound(
            alloc, desk, &routes, &mut host, at.port, at.count, output, errors,
        ),
    }
}

/// Runs `serve`: opens the database file, serves connections by the desk over it, closes the file, and
/// returns the exit code. The log of the file is copied into it at the start and at the end. An error of the
/// close is printed last and does not change the exit code.
///
/// The first of these errors that applies is printed: those of the settings file (`file`, `no_memory`,
/// `settings`); those of the database file (`file`, `no_memory`, `not_ours`, `newer`), each with exit code 3;
/// those of `serve_at`.
pub fn serve<P: Place, N: Network, W: Write, E: Write>(
    alloc: Global,
    place: P,
    network: N,
    files: Files<'_>,
    at: ServeOptions,
    output: &mut W,
    errors: &mut E,
) -> u8
    ensures { ServesOver (place_value P.Place P.Stored.Desk place) files.entry
        (network_of N.Network N.Bound.Host N.Bound.Reader.Read N.Bound.Writer.Write network) at
        (outlets W.Write E.Write output.old output.new errors.old errors.new) result }
{
    match open_desk(alloc, place, files, Purpose::Serve) {
        Err(trouble) => trouble.report(errors),
        Ok(mut desk) => {
            let status = serve_at(alloc, &mut desk, network, at, output, errors);
            close_opened_desk::<P, E>(alloc, files.db, desk, errors);
            status
        }
    }
}
