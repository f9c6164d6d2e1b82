//! Serves one connection.
ghost use Rattle.std.specs.Prelude.{Option, Result};
ghost use Rattle.portal_http.specs.declared.exchanges.Done.{Done as Ended};
ghost use Rattle.portal_http.specs.declared.exchanges.Cut.{Cut as Broken};
ghost use Rattle.portal_http.specs.Exchanges.{EndsExchange};
ghost use Rattle.portal_server.specs.declared.error.ProgramError.{ProgramError as Failure};
ghost use Rattle.portal_http.specs.Runs.{Run, ServesInOrder};
ghost use Rattle.portal_server.specs.Asks.{KeepsSettings, LeadsDesk};
ghost use Rattle.portal_server.specs.Serving.{ServesAtMost, ComeWith, PrintsOfConnection, said_of};
ghost use Rattle.portal_server.specs.Turns.{wire_of};

use crate::error::ProgramError;
use portal_desk::Desk;
use portal_http::Spare;
use portal_http::exchanges::exchange;
use portal_http_routes::Routes;
use portal_model::moment::Moment;
use std::alloc::Global;
use std::io::{Read, Write};

/// Serves one connection: at most one request is executed, at this time and with this seed.
///
/// `exchange` says how, and what `kept` is. If the connection breaks off, it prints `portal: cut`.
pub fn serve_peer<D: Desk, R: Read, W: Write, E: Write>(
    alloc: Global,
    desk: &mut D,
    routes: &Routes,
    kept: &mut Option<Spare>,
    moment: Moment,
    seed: [u8; 32],
    reader: &mut R,
    writer: &mut W,
    errors: &mut E,
)
    ensures settings { KeepsSettings D.Desk desk.old desk.new }
    ensures says { (said : Option Failure)
        × PrintsOfConnection said (E.contents errors.old) (E.contents errors.new) }
    ensures serves { LeadsDesk D.Desk desk.old desk.new (λ old new. ServesAtMost 1 (λ arrivals responses.
        ComeWith moment seed arrivals × Run (D.settings desk.old) old arrivals responses new)) }
    ensures exchanges { LeadsDesk D.Desk desk.old desk.new (λ old new. (ended : Result Ended Broken)
        × EndsExchange (wire_of R.Read W.Write reader.old reader.new writer.old writer.new) moment seed
        (λ arrivals responses. ServesInOrder (D.settings desk.old) old arrivals responses new) ended
        × PrintsOfConnection (said_of ended) (E.contents errors.old) (E.contents errors.new)) }
{
    match exchange(alloc, desk, routes, kept, moment, seed, reader, writer) {
        Ok(_) => {}
        Err(_) => {
            ProgramError::Cut.report(errors);
        }
    }
}
