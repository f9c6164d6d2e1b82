//! Exchanges with clients that send and take in pieces, and that break off.
use portal_desk::Desk;
use portal_http::Spare;
use portal_http::exchanges::{Cause, Cut, Done, exchange};
use portal_http_routes::Routes;
use portal_model::moment::Moment;
use std::alloc::Global;
use std::io::{self, Read, Write};

/// A reader that gives at most `size` bytes a read, counts the reads, and fails at one of them.
#[derive(Drop)]
pub struct Sender<'b> {
    pub bytes: &'b [u8],
    pub size: usize,
    pub reads: usize,
    pub fails_at: usize,
}

/// Makes a reader that gives all of these bytes.
pub fn new_sender(bytes: &[u8], size: usize) -> Sender<'_> {
    Sender {
        bytes,
        size,
        reads: 0,
        fails_at: 0,
    }
}

impl<'b> Read for Sender<'b> {
    fn read(&mut self, buf: &mut [u8]) -> io::Result<usize> {
        self.reads = self.reads.saturating_add(1);
        if self.reads == self.fails_at {
            return Err(io::Error::from(io::ErrorKind::Interrupted));
        }
        let count = self.size.min(buf.len()).min(self.bytes.len());
        let (piece, rest) = self.bytes.split_at(count);
        buf[..count].copy_from_slice(piece);
        self.bytes = rest;
        Ok(count)
    }
}

/// A writer that keeps what it takes, at most `size` bytes a write, counts the writes, and after `room` bytes
/// fails or takes nothing.
#[derive(Drop)]
pub struct Taker {
    pub taken: Vec<u8>,
    pub size: usize,
    pub room: usize,
    pub fails: bool,
    pub writes: usize,
}

/// Makes a writer that takes everything.
pub fn new_taker(alloc: Global, size: usize) -> Taker {
    Taker {
        taken: Vec::new(alloc),
        size,
        room: 1_000_000,
        fails: true,
        writes: 0,
    }
}

impl Write for Taker {
    fn write(&mut self, buf: &[u8]) -> io::Result<usize> {
        self.writes = self.writes.saturating_add(1);
        if self.room == 0 && self.fails {
            return Err(io::Error::from(io::ErrorKind::BrokenPipe));
        }
        let count = self.size.min(self.room).min(buf.len());
        self.taken.extend_from_slice(&buf[..count])?;
        self.room -= count;
        Ok(count)
    }

    fn flush(&mut self) -> io::Result<()> {
        Ok(())
    }
}

/// A client that sends these bytes at a time, so many at once, and takes so many at once. One of its reads
/// may fail (0: none), and after `room` bytes its writes fail or take nothing.
#[derive(Clone, Copy)]
pub struct Peer<'b> {
    pub at: u64,
    pub bytes: &'b [u8],
    pub size: usize,
    pub takes: usize,
    pub fails_at: usize,
    pub room: usize,
    pub fails: bool,
}

/// Makes a client that sends all of the bytes and takes the whole response, so many bytes at once.
pub fn whole_peer(at: u64, bytes: &[u8], size: usize) -> Peer<'_> {
    Peer {
        at,
        bytes,
        size,
        takes: size,
        fails_at: 0,
        room: 1_000_000,
        fails: true,
    }
}

/// The result of an exchange, the number of its reads and writes, and the bytes that were taken.
#[derive(Drop)]
pub struct ExchangeResult {
    pub ended: Result<Done, Cut>,
    pub reads: usize,
    pub writes: usize,
    pub taken: Vec<u8>,
}

/// Makes one exchange of the desk with the client, with the spare responses of an earlier one.
fn exchange_with_kept<D: Desk>(
    alloc: Global,
    desk: &mut D,
    routes: &Routes,
    kept: &mut Option<Spare>,
    peer: &Peer<'_>,
) -> Option<ExchangeResult> {
    let moment = Moment::new(peer.at)?;
    let mut reader = new_sender(peer.bytes, peer.size);
    reader.fails_at = peer.fails_at;
    let mut writer = new_taker(alloc, peer.takes);
    writer.room = peer.room;
    writer.fails = peer.fails;
    let ended = exchange(
        alloc,
        desk,
        routes,
        kept,
        moment,
        [0; 32],
        &mut reader,
        &mut writer,
    );
    Some(ExchangeResult {
        ended,
        reads: reader.reads,
        writes: writer.writes,
        taken: writer.taken,
    })
}

/// Makes one exchange of the desk with the client.
pub fn exchange_with_peer<D: Desk>(
    alloc: Global,
    desk: &mut D,
    routes: &Routes,
    peer: &Peer<'_>,
) -> Option<ExchangeResult> {
    let mut kept = None;
    exchange_with_kept(alloc, desk, routes, &mut kept, peer)
}

/// Makes one exchange of the desk with each client, in their order. The spare responses are kept between
/// them.
pub fn exchange_with_peers<D: Desk>(
    alloc: Global,
    desk: &mut D,
    peers: &[Peer<'_>],
) -> Option<Vec<ExchangeResult>> {
    let routes = Routes::new(alloc).ok()?;
    let mut met = Vec::new(alloc);
    let mut kept = None;
    for peer in peers {
        met.push(exchange_with_kept(alloc, desk, &routes, &mut kept, peer)?)
            .ok()?;
    }
    Some(met)
}

/// Checks that all of that response was sent, and no more.
pub fn is_done(met: &ExchangeResult, status: u16, response: &[u8]) -> bool {
    let done = Done {
        status,
        written: response.len(),
    };
    met.ended == Ok(done) && met.taken.as_slice() == response
}

/// Checks that the exchange failed at a read, before anything was written.
pub fn is_unread(met: &ExchangeResult) -> bool {
    let cut = Cut {
        cause: Cause::Read,
        written: 0,
        whole: 0,
    };
    met.ended == Err(cut) && met.writes == 0
}

/// Checks that the exchange failed at a write, after so many bytes of a response of that length.
pub fn is_unsent(met: &ExchangeResult, written: usize, whole: usize) -> bool {
    let cut = Cut {
        cause: Cause::Write,
        written,
        whole,
    };
    met.ended == Err(cut) && met.taken.len() == written
}
