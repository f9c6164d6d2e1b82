//! Serves one request over a connection: reads it, executes it, and writes the response.
ghost use Rattle.std.specs.Prelude.{◌≡◌, ◌≤◌, ⊤};
ghost use Rattle.portal_http.specs.Runs.{ServesInOrder};
ghost use Rattle.portal_http.specs.Exchanges.{between, EndsExchange, StatusIsInResponse};
ghost use Rattle.portal_http.specs.Status.{digit_at, status_in};
ghost use Rattle.portal_http.specs.Calls.{ExchangesOn, MovesState};

use crate::arrivals::Arrival;
use crate::serving::serve_request;
use crate::spares::Spare;
use portal_desk::Desk;
use portal_http_message::{ReadError, read_request, write_response};
use portal_http_routes::Routes;
use portal_model::moment::Moment;
use std::alloc::Global;
use std::io::{Read, Write};

/// A response that was written whole.
#[derive(Clone, Copy, Debug, PartialEq, Eq)]
pub struct Done {
    /// The HTTP status of the response.
    pub status: u16,
    /// The length of the response in bytes.
    pub written: usize,
}

/// Why an exchange broke off.
#[derive(Clone, Copy, Debug, PartialEq, Eq)]
pub enum Cause {
    /// A read failed.
    Read,
    /// Out of memory for the request, or for any response.
    NoRoom,
    /// A write failed, or took no bytes.
    Write,
}

/// An exchange that broke off. With the cause `Write`, the request was executed; with `Read` and `NoRoom`,
/// nothing was executed and both counts are 0.
#[derive(Clone, Copy, Debug, PartialEq, Eq)]
pub struct Cut {
    /// Why it broke off.
    pub cause: Cause,
    /// The number of bytes of the response that were written.
    pub written: usize,
    /// The length of the response in bytes.
    pub whole: usize,
}

/// Makes a `Cut` with that cause before any response: both counts are 0.
fn cut_without_response(cause: Cause) -> Cut
    ensures { result ≡ record { cause = cause; written = 0; whole = 0 } }
{
    Cut {
        cause,
        written: 0,
        whole: 0,
    }
}

/// Returns the digit at a place of a response, counted from 0; 0 past its end.
fn digit_at(response: &[u8], place: usize) -> u16
    ensures digit { result ≡ digit_at response.now place }
    ensures small { result ≤ 255 }
{
    match response.get(place) {
        Some(character) => u16::from(character.saturating_sub(48)),
        None => 0,
    }
}

/// Reads the status from the status line of a response (RFC 9112, section 4).
pub fn status_in(response: &[u8]) -> u16
    ensures { result ≡ status_in response.now }
{
    100 * digit_at(response, 9) + 10 * digit_at(response, 10) + digit_at(response, 11)
}

/// Law: `status_in` gives the status with which a response was encoded.
pub fn status_is_in_response()
    ensures { StatusIsInResponse }
{}

/// Reads one request, serves it and writes the response, as `exchange` says.
///
/// This contract covers the desk while it runs; that of `exchange` adds the crash states.
fn read_serve_and_write<D: Desk, R: Read, W: Write>(
    alloc: Global,
    desk: &mut D,
    routes: &Routes,
    kept: &mut Option<Spare>,
    moment: Moment,
    seed: [u8; 32],
    reader: &mut R,
    writer: &mut W,
) -> Result<Done, Cut>
    ensures desk { MovesState D.Desk (λ old new. EndsExchange
        (between (R.remaining reader.old) (R.remaining reader.new)
        (W.contents writer.old) (W.contents writer.new)) moment seed
        (λ arrivals responses. ServesInOrder (D.settings desk.old) old arrivals responses new) result)
        desk.old desk.new }
    ensures wire { EndsExchange (between (R.remaining reader.old) (R.remaining reader.new)
        (W.contents writer.old) (W.contents writer.new)) moment seed (λ arrivals responses. ⊤) result }
{
    let received = match read_request(alloc, reader) {
        Ok(received) => received,
        Err(ReadError::Read) => return Err(cut_without_response(Cause::Read)),
        Err(ReadError::NoMemory) => return Err(cut_without_response(Cause::NoRoom)),
    };
    let arrival = Arrival::at(moment, seed, received);
    let Ok(response) = serve_request(alloc, desk, routes, kept, &arrival) else {
        return Err(cut_without_response(Cause::NoRoom));
    };
    let whole = response.bytes.len();
    match write_response(writer, response.bytes.as_slice()) {
        Ok(()) => Ok(Done {
            status: response.status,
            written: whole,
        }),
        Err(error) => Err(Cut {
            cause: Cause::Write,
            written: error.written,
            whole,
        }),
    }
}

/// Reads one request from a connection, executes it at `moment`, and writes the response.
///
/// `kept` has the spare responses of an earlier exchange, and then those of this one, unless one was sent.
/// `seed` gives the codes of a new batch. Reading ends once the response is decided or the input ends. Each
/// read asks for at most 4,096 bytes, and at most 77,824 bytes are read. Each write is offered all the rest
/// of the response. An interrupted read or write is one that failed.
///
/// With `Done`, the response was written whole. With `Cut` and the cause `Read` or `NoRoom`, nothing was
/// executed or written. With the cause `Write`, the request was executed as the one request of a `run`, and
/// the first `written` bytes of the response were written.
///
/// After a crash at any point, as long as the disk is fault-free, the ledger is the one from before, with
/// the command of the request if its response is a 200, even if no byte of it was written; and at most one
/// command more, if the response is that of `stopped`. A desk that has stopped stays so, whatever the disk
/// did.
pub fn exchange<D: Desk, R: Read, W: Write>(
    alloc: Global,
    desk: &mut D,
    routes: &Routes,
    kept: &mut Option<Spare>,
    moment: Moment,
    seed: [u8; 32],
    reader: &mut R,
    writer: &mut W,
) -> Result<Done, Cut>
    ensures { ExchangesOn D.Desk (between (R.remaining reader.old) (R.remaining reader.new)
        (W.contents writer.old) (W.contents writer.new)) moment seed desk.old desk.new result }
{
    read_serve_and_write(alloc, desk, routes, kept, moment, seed, reader, writer)
}
