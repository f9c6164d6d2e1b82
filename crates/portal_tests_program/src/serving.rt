//! Serving: the bytes that clients are sent, what is printed, and the exit code, over a host that stands in
//! for the machine; and a port that is taken.
ghost use Rattle.std.specs.Prelude.{⊤};

use portal_commands::place::Place;
use portal_desk::Desk;
use portal_http_routes::Routes;
use portal_model::moment::Moment;
use portal_server::{Host, ProgramError, bind_loopback, fresh_seed, moment_now, serve};
use portal_tests_desks::desks::{InMemory, new_desk};
use portal_tests_desks::exchanges::{Sender, Taker, new_sender, new_taker};
use portal_tests_desks::requests::{BAD_REQUEST, CAPTIVE, MOMENT, REQUEST};
use std::alloc::Global;
use std::io::{self, ErrorKind, Write};
use std::random::RandomSource;
use std::rt::Clock;
use std::time::Duration;

/// What a client does.
#[derive(Clone, Copy)]
enum Peer {
    /// It asks for its captive state, and takes the response.
    Asks,
    /// It sends a part of its request, and no more.
    Ends,
    /// Its connection breaks while it sends.
    BreaksSending,
    /// Its connection breaks after it took 100 bytes of the response.
    BreaksTaking,
    /// It is gone before it is accepted.
    Gone,
}

/// A host of these clients, whose clock may fail. It counts how often a connection and how often a pause is
/// asked for, and keeps the bytes that clients are sent.
#[derive(Drop)]
struct Script<'p> {
    alloc: Global,
    peers: &'p [Peer],
    clock: Result<(), ProgramError>,
    accepts: usize,
    pauses: usize,
    sent: Vec<u8>,
}

impl<'p> Host for Script<'p> {
    type Reader = Sender<'static>;

    type Writer = Taker;

    ghost accepts = { λ _ _ _. ⊤ };

    ghost stamps = { λ _ _ _. ⊤ };

    ghost closes = { λ _ _ _ _. ⊤ };

    ghost pauses = { λ _ _. ⊤ };

    fn accept(&mut self) -> Option<(Sender<'static>, Taker)> {
        self.accepts = self.accepts.saturating_add(1);
        let Some((peer, rest)) = self.peers.split_first() else {
            return None;
        };
        self.peers = rest;
        let mut reader = new_sender(REQUEST, 7);
        let mut writer = new_taker(self.alloc, 90);
        match peer {
            Peer::Asks => {}
            Peer::Ends => reader.bytes = &REQUEST[..40],
            Peer::BreaksSending => reader.fails_at = 3,
            Peer::BreaksTaking => writer.room = 100,
            Peer::Gone => return None,
        }
        Some((reader, writer))
    }

    fn moment_and_seed(&mut self) -> Result<(Moment, [u8; 32]), ProgramError> {
        match (self.clock, Moment::new(MOMENT)) {
            (Ok(()), Some(moment)) => Ok((moment, [0; 32])),
            (Err(ProgramError::NoMemory), _) => Err(ProgramError::NoMemory),
            _ => Err(ProgramError::File),
        }
    }

    fn close(&mut self, reader: Sender<'static>, writer: Taker) {
        let _kept = self.sent.extend_from_slice(writer.taken.as_slice());
        let _closed = reader;
    }

    fn pause(&mut self) {
        self.pauses = self.pauses.saturating_add(1);
    }
}

/// Makes a host of these clients.
fn new_script(alloc: Global, peers: &[Peer], clock: Result<(), ProgramError>) -> Script<'_> {
    Script {
        alloc,
        peers,
        clock,
        accepts: 0,
        pauses: 0,
        sent: Vec::new(alloc),
    }
}

/// Serves connections at port 8080. Returns the exit code and the errors that were printed.
fn serve_with_errors<D: Desk, H: Host, W: Write>(
    alloc: Global,
    desk: &mut D,
    host: &mut H,
    count: u64,
    output: &mut W,
) -> Option<(u8, Vec<u8>)> {
    let routes = Routes::new(alloc).ok()?;
    let mut errors = Vec::new(alloc);
    let status = serve(alloc, desk, &routes, host, 8080, count, output, &mut errors);
    Some((status, errors))
}

/// Serves connections of a host by a new desk. Returns the exit code and the errors that were printed.
fn serve_new_desk<P: Place, H: Host, W: Write>(
    alloc: Global,
    host: &mut H,
    count: u64,
    output: &mut W,
) -> Option<(u8, Vec<u8>)> {
    let mut desk = new_desk::<P>(alloc)?;
    let ended = serve_with_errors(alloc, &mut desk, host, count, output);
    P::close_desk_in_memory(desk);
    ended
}

/// Serves connections of a host by a new desk. Returns the exit code and the errors that were printed.
fn serve_in_memory<H: Host, W: Write>(
    alloc: Global,
    host: &mut H,
    count: u64,
    output: &mut W,
) -> Option<(u8, Vec<u8>)> {
    serve_new_desk::<InMemory, H, W>(alloc, host, count, output)
}

/// The end of serving: the exit code, how often a connection was asked for, the bytes that clients were sent,
/// and what was printed.
#[derive(Drop)]
struct ExitResult {
    status: u8,
    accepts: usize,
    sent: Vec<u8>,
    output: Vec<u8>,
    errors: Vec<u8>,
}

impl ExitResult {
    /// Compares it with this exit code, this count of connections, and these texts.
    fn is(&self, status: u8, accepts: usize, output: &[u8], errors: &str) -> bool {
        self.status == status
            && self.accepts == accepts
            && self.output.as_slice() == output
            && self.errors.as_slice() == errors.as_bytes()
    }
}

/// Serves so many connections of the clients by a new desk, with so many bytes of room for the output.
fn run_and_collect(
    alloc: Global,
    peers: &[Peer],
    clock: Result<(), ProgramError>,
    count: u64,
    room: usize,
) -> Option<ExitResult> {
    let mut host = new_script(alloc, peers, clock);
    let mut output = new_taker(alloc, 10);
    output.room = room;
    let (status, errors) = serve_in_memory(alloc, &mut host, count, &mut output)?;
    Some(ExitResult {
        status,
        accepts: host.accepts,
        sent: host.sent,
        output: output.taken,
        errors,
    })
}

/// Clients of which some are gone before they are accepted, and the pauses that are made: after the second in
/// a row, and after each further one.
const GONE: &[(&[Peer], usize)] = &[
    (&[Peer::Gone, Peer::Asks, Peer::Gone], 0),
    (&[Peer::Gone, Peer::Gone], 1),
    (
        &[Peer::Gone, Peer::Gone, Peer::Gone, Peer::Asks, Peer::Gone],
        2,
    ),
];

/// Returns how often a server pauses that serves these clients.
fn pauses(alloc: Global, peers: &[Peer]) -> Option<usize> {
    let mut host = new_script(alloc, peers, Ok(()));
    let mut output = new_taker(alloc, 10);
    let (status, _errors) = serve_in_memory(alloc, &mut host, peers.len() as u64, &mut output)?;
    if status == 0 { Some(host.pauses) } else { None }
}

/// The server pauses after the second failed accept in a row, and after each further one.
#[test]
fn pauses_after_failing_accepts(rt: HostRuntime) {
    for (peers, wanted) in GONE {
        assert_eq!(rt; pauses(rt.alloc(), peers), Some(*wanted));
    }
}

/// The line with the port.
const LISTENING: &[u8] = b"listening 127.0.0.1:8080\n";

const PEERS: &[Peer] = &[
    Peer::Asks,
    Peer::BreaksSending,
    Peer::Gone,
    Peer::Ends,
    Peer::BreaksTaking,
    Peer::Asks,
];

/// Checks that each of these clients is sent its response, and that an error is printed for each that broke
/// off.
fn are_served(alloc: Global) -> Option<bool> {
    let ended = run_and_collect(alloc, PEERS, Ok(()), 6, 1_000)?;
    let begun = &CAPTIVE[..100];
    let sent = format!(in alloc; "{CAPTIVE}{BAD_REQUEST}{begun}{CAPTIVE}").ok()?;
    let errors = "portal: cut\nportal: network\nportal: cut\n";
    Some(ended.is(0, 6, LISTENING, errors) && ended.sent.as_slice() == sent.as_bytes())
}

/// Clients are served in turn, whatever the clients before them did.
#[test]
fn peers_one_after_another(rt: HostRuntime) {
    assert!(rt; are_served(rt.alloc()) == Some(true));
}

/// The clock, the number of connections, and the end with two clients: exit code, errors, connections.
const ENDS: &[(Result<(), ProgramError>, u64, u8, &str, usize)] = &[
    (Ok(()), 0, 0, "", 0),
    (Ok(()), 2, 0, "", 2),
    (Err(ProgramError::File), 2, 3, "portal: file\n", 1),
    (Err(ProgramError::NoMemory), 2, 3, "portal: no_memory\n", 1),
];

/// Checks that serving two clients ends like this.
fn is_ended(
    alloc: Global,
    clock: Result<(), ProgramError>,
    count: u64,
    status: u8,
    said: &str,
    accepts: usize,
) -> Option<bool> {
    let ended = run_and_collect(alloc, &[Peer::Asks, Peer::Asks], clock, count, 1_000)?;
    Some(ended.is(status, accepts, LISTENING, said))
}

/// Serving ends after the count of connections, or with the error of the clock.
#[test]
fn ends_of_serving(rt: HostRuntime) {
    for (n, (clock, count, status, said, accepts)) in ENDS.iter().enumerate() {
        let is_ended = is_ended(rt.alloc(), *clock, *count, *status, said, *accepts);
        assert!(rt; is_ended == Some(true), "end {n}");
    }
}

/// Checks that `serve`, with a desk that has stopped, returns before it waits for another connection.
pub fn stopped_desk_ends_serve<D: Desk>(alloc: Global, desk: &mut D) -> Option<bool> {
    let mut host = new_script(alloc, &[Peer::Asks], Ok(()));
    let mut output = Vec::new(alloc);
    let (status, errors) = serve_with_errors(alloc, desk, &mut host, 1, &mut output)?;
    let is_printed = output.as_slice() == LISTENING
        && errors.as_slice() == b"portal: stopped\n".as_slice();
    Some(is_printed && status == 3 && host.accepts == 0)
}

/// Checks that nobody is served if only so many bytes of the line with the port can be written.
fn is_cut(alloc: Global, room: usize) -> Option<bool> {
    let ended = run_and_collect(alloc, &[Peer::Asks], Ok(()), 1, room)?;
    Some(ended.is(3, 0, LISTENING.get(..room)?, "portal: cut\n"))
}

/// Nobody is served if the line with the port cannot be written.
#[test]
fn line_cut_off(rt: HostRuntime) {
    for room in 0..25 {
        assert!(rt; is_cut(rt.alloc(), room) == Some(true), "{room}");
    }
}

/// Checks that a port that is bound cannot be bound again.
fn is_port_taken(rt: &HostRuntime) -> Option<bool> {
    let listener = bind_loopback(rt, 0).ok()?;
    let port = listener.local_addr().ok()?.port();
    Some(bind_loopback(rt, port).is_err())
}

/// A port cannot be bound twice.
#[test]
fn port_taken_twice(rt: HostRuntime) {
    assert!(rt; is_port_taken(&rt) == Some(true));
}

/// A clock that gives this time, or fails.
#[derive(Drop)]
struct Fixed {
    answer: Result<Duration, ErrorKind>,
}

impl Clock for Fixed {
    fn monotonic(&self) -> io::Result<Duration> {
        self.since_1970()
    }

    fn since_1970(&self) -> io::Result<Duration> {
        match self.answer {
            Ok(since) => Ok(since),
            Err(kind) => Err(io::Error::from(kind)),
        }
    }
}

/// What the clock gives, in milliseconds, and the time of the request.
const MOMENTS: &[(Result<u64, ErrorKind>, Result<u64, ProgramError>)] = &[
    (Ok(1_999), Ok(1)),
    (Ok(253_370_764_799_000), Ok(253_370_764_799)),
    (Ok(253_370_764_800_000), Ok(253_370_764_799)),
    (Ok(u64::MAX), Ok(253_370_764_799)),
    (Err(ErrorKind::InvalidData), Ok(0)),
    (Err(ErrorKind::PermissionDenied), Err(ProgramError::File)),
    (Err(ErrorKind::OutOfMemory), Err(ProgramError::NoMemory)),
];

/// Returns the time of a request for this answer of the clock.
fn moment_of(answer: Result<Duration, ErrorKind>) -> Result<u64, ProgramError> {
    match moment_now(&Fixed { answer }) {
        Ok(moment) => Ok(moment.get()),
        Err(fault) => Err(fault),
    }
}

/// The time of a request is that of the clock in whole seconds, at most the greatest time.
#[test]
fn moments_of_clocks(rt: HostRuntime) {
    for (n, (answer, wanted)) in MOMENTS.iter().enumerate() {
        let answer = match *answer {
            Ok(milliseconds) => Ok(Duration::from_millis(milliseconds)),
            Err(kind) => Err(kind),
        };
        assert!(rt; moment_of(answer) == *wanted, "moment {n}");
    }
    assert!(rt; moment_of(Ok(Duration::MAX)) == Ok(253_370_764_799));
}

/// Two seeds are not the same.
#[test]
fn seeds_differ(rt: HostRuntime) {
    let (one, other) = (fresh_seed(&rt), fresh_seed(&rt));
    assert!(rt; one.is_ok() && one != other);
}

/// A source whose bytes are 1, 2, 3 and so on, in each call.
#[derive(Drop)]
struct Counting;

impl RandomSource for Counting {
    fn fill_bytes(&self, bytes: &mut [u8]) -> io::Result<()> {
        let mut last = 0u8;
        for byte in bytes.iter_mut() {
            last = last.wrapping_add(1);
            *byte = last;
        }
        Ok(())
    }
}

/// The bytes from 1 to 32.
const FIRST_BYTES: [u8; 32] = [
    1, 2, 3, 4, 5, 6, 7, 8, 9, 10, 11, 12, 13, 14, 15, 16, 17, 18, 19, 20, 21, 22, 23, 24, 25, 26,
    27, 28, 29, 30, 31, 32,
];

/// All 32 bytes of a seed are those of the source.
#[test]
fn seed_is_drawn_whole(rt: HostRuntime) {
    assert!(rt; fresh_seed(&Counting) == Ok(FIRST_BYTES));
}
