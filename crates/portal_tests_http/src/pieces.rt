//! Requests that come in pieces, and whose reads or writes fail. They are answered as whole ones are; before
//! the last read nothing is carried out; and if a write fails, the command is committed all the same.
use portal_http::exchanges::status_in;
use portal_tests_desks::day::{COMMANDS, SentRequest, build_day, build_requests};
use portal_tests_desks::desks::{answer, exchange_in_memory};
use portal_tests_desks::exchanges::{
    ExchangeResult, Peer, is_done, is_unread, is_unsent, whole_peer,
};
use portal_tests_desks::requests::MOMENT;
use std::alloc::Global;

/// Checks that the exchange ended with a whole response that ends with this text.
fn is_answered(met: &ExchangeResult, end: &str) -> bool {
    let is_whole = match met.ended {
        Ok(done) => {
            done.status == status_in(met.taken.as_slice()) && done.written == met.taken.len()
        }
        Err(_) => false,
    };
    is_whole && met.taken.as_slice().ends_with(end.as_bytes())
}

/// Checks that each exchange fails if a read of its client fails, that each other one is answered as the next
/// request says, and that no request is left.
fn are_answered(met: &[ExchangeResult], peers: &[Peer<'_>], day: &[SentRequest]) -> bool {
    let mut left = day.iter();
    for (met, peer) in met.iter().zip(peers) {
        let is_due = if peer.fails_at > 0 {
            is_unread(met)
        } else {
            match left.next() {
                Some(sent) => is_answered(met, sent.answer.as_str()),
                None => false,
            }
        };
        if !is_due {
            return false;
        }
    }
    met.len() == peers.len() && left.next().is_none()
}

/// Checks that the day is answered if each request comes in pieces of that size.
fn is_day_answered(alloc: Global, size: usize, has_keys: bool) -> Option<bool> {
    let day = build_day(alloc, has_keys)?;
    let mut peers: Vec<Peer<'_>> = Vec::new(alloc);
    for sent in &day {
        peers
            .push(whole_peer(sent.at, sent.bytes.as_slice(), size))
            .ok()?;
    }
    let met = exchange_in_memory(alloc, peers.as_slice())?;
    Some(are_answered(met.as_slice(), peers.as_slice(), day.as_slice()))
}

/// The day is answered if its requests come in pieces.
#[test]
fn day_in_pieces(rt: HostRuntime) {
    for size in [1usize, 2, 7, 80_000] {
        assert!(rt;
            is_day_answered(rt.alloc(), size, false) == Some(true),
            "{size}"
        );
    }
}

/// The day with idempotency keys is answered if its requests come in pieces.
#[test]
fn idempotent_day_in_pieces(rt: HostRuntime) {
    for size in [2usize, 80_000] {
        assert!(rt;
            is_day_answered(rt.alloc(), size, true) == Some(true),
            "{size}"
        );
    }
}

/// Checks that the day is answered if before each request the same request comes with each of its reads
/// failing in turn: a request that was not read to its end commits nothing.
fn commits_nothing(alloc: Global, has_keys: bool) -> Option<bool> {
    let day = build_day(alloc, has_keys)?;
    let mut peers: Vec<Peer<'_>> = Vec::new(alloc);
    for sent in &day {
        let whole = whole_peer(sent.at, sent.bytes.as_slice(), 1);
        for fails_at in 1..=sent.bytes.len() {
            peers.push(Peer { fails_at, ..whole }).ok()?;
        }
        peers.push(whole).ok()?;
    }
    let met = exchange_in_memory(alloc, peers.as_slice())?;
    Some(are_answered(met.as_slice(), peers.as_slice(), day.as_slice()))
}

/// A command is not carried out if a read of its request fails.
#[test]
fn commands_cut_at_reads(rt: HostRuntime) {
    assert!(rt; commits_nothing(rt.alloc(), false) == Some(true));
}

/// A command with an idempotency key is not carried out if a read of its request fails.
#[test]
fn idempotent_commands_cut_at_reads(rt: HostRuntime) {
    assert!(rt; commits_nothing(rt.alloc(), true) == Some(true));
}

/// Returns the lengths of the responses to the commands.
fn response_lengths(alloc: Global, day: &[SentRequest]) -> Option<Vec<usize>> {
    let mut peers: Vec<Peer<'_>> = Vec::new(alloc);
    for sent in day {
        peers
            .push(whole_peer(sent.at, sent.bytes.as_slice(), 4_096))
            .ok()?;
    }
    let mut lengths = Vec::new(alloc);
    for met in &exchange_in_memory(alloc, peers.as_slice())? {
        lengths.push(met.taken.len()).ok()?;
    }
    Some(lengths)
}

/// Returns how many bytes of a response are taken before its write fails: so many sixteenths, short of the
/// last byte.
fn bytes_before_cut(length: usize, part: usize) -> usize {
    let parts = (length / 16).saturating_mul(part);
    parts.min(length.saturating_sub(1))
}

/// Checks for each two exchanges that the first was cut off in its response, and that the second was answered
/// as a request that is sent again: with an idempotency key as the first time.
fn stay_committed(
    met: &[ExchangeResult],
    lengths: &[usize],
    day: &[SentRequest],
    part: usize,
    has_keys: bool,
) -> bool {
    for ((two, length), sent) in met.chunks(2).zip(lengths).zip(day) {
        let [cut, whole] = two else {
            return false;
        };
        let end = if has_keys { &sent.answer } else { &sent.again };
        if !is_unsent(cut, bytes_before_cut(*length, part), *length) || !is_answered(whole, end) {
            return false;
        }
    }
    lengths.len() == day.len() && met.len() / 2 == day.len()
}

/// Checks that each command is committed although its response was cut off after so many sixteenths: a write
/// failed, or took nothing.
fn stays_committed(alloc: Global, part: usize, has_keys: bool) -> Option<bool> {
    let day = build_requests(alloc, COMMANDS, has_keys)?;
    let lengths = response_lengths(alloc, day.as_slice())?;
    let mut peers: Vec<Peer<'_>> = Vec::new(alloc);
    for (sent, length) in day.iter().zip(&lengths) {
        let whole = whole_peer(sent.at, sent.bytes.as_slice(), 4_096);
        let mut cut = whole;
        cut.room = bytes_before_cut(*length, part);
        cut.fails = part % 2 == 0;
        peers.push(cut).ok()?;
        peers.push(whole).ok()?;
    }
    let met = exchange_in_memory(alloc, peers.as_slice())?;
    Some(stay_committed(
        met.as_slice(),
        lengths.as_slice(),
        day.as_slice(),
        part,
        has_keys,
    ))
}

/// A command is committed even if a write of its response fails.
#[test]
fn commands_cut_at_writes(rt: HostRuntime) {
    for part in 0..=16 {
        assert!(rt;
            stays_committed(rt.alloc(), part, false) == Some(true),
            "{part}"
        );
    }
}

/// A command with an idempotency key is committed even if a write of its response fails.
#[test]
fn idempotent_commands_cut_at_writes(rt: HostRuntime) {
    for part in [0usize, 7, 16] {
        assert!(rt;
            stays_committed(rt.alloc(), part, true) == Some(true),
            "{part}"
        );
    }
}

/// A request: a front, a piece so many times, and an end. `reads` is the number of reads, of one byte each,
/// up to the one that determines the response.
#[derive(Clone, Copy)]
struct Hostile {
    front: &'static [u8],
    times: usize,
    piece: &'static [u8],
    end: &'static [u8],
    reads: usize,
}

/// Requests that no correct client sends, and their reads. A request of HTTP/1.2 is read up to its version.
const REQUESTS: &[(&[u8], usize)] = &[
    (b"", 1),
    (b"GET /captive HTTP/1.1\r\nHost: api\r\nPortal", 41),
    (
        b"GET /captive HTTP/1.1\r\nHost: api\r\nPortal-Device: 02:00:00:00:00:01\r\n\r\n",
        70,
    ),
    (
        b"GET /captive HTTP/1.0\r\nPortal-Device: 02:00:00:00:00:01\r\n\r\n",
        59,
    ),
    (
        b"GET /captive HTTP/1.1\r\nPortal-Device: 02:00:00:00:00:01\r\n\r\n",
        59,
    ),
    (b"GET /captive HTTP/1.0\r\n\r\n", 25),
    (b"GET /captive HTTP/1.2\r\nHost: api\r\n\r\n", 21),
    (
        b"GET /captive HTTP/1.1\r\nHost: api\r\nPortal-Device: 02:00:00:00:00:01\r\nContent-Length: 0000\r\n\r\n",
        92,
    ),
    (
        b"POST /desk/sales HTTP/1.1\r\nHost: api\r\nContent-Length: 65537\r\n\r\n",
        63,
    ),
    (
        b"GET /captive HTTP/1.1\r\nHost: api\r\nPortal-Device: 02:00:00:00:00:01\r\n\r",
        70,
    ),
    (b"GET / HTTP/1.0\r\nHost: a\r\nHost: a\r\n\r\n", 36),
    (b"GET / HTTP/1.1\r\nTransfer-Encoding: x\r\n\r\n", 40),
    (
        b"GET / HTTP/1.1\r\nHost: a\r\nTransfer-Encoding: x\r\nContent-Length: 1\r\nContent-Length: 2\r\n\r\n",
        87,
    ),
    (
        b"GET / HTTP/1.1\r\nHost: a\r\nContent-Length: 5\r\nContent-Length: 5\r\n\r\nhello",
        65,
    ),
    (
        b"GET / HTTP/1.1\r\nHost: a\r\nContent-Length: +5\r\n\r\nhello",
        47,
    ),
    (
        b"GET / HTTP/1.1\r\nHost: a\r\nContent-Length: \r\n\r\nhello",
        45,
    ),
    (
        b"GET / HTTP/1.1\r\nHost: a\r\nContent-Length: 999999999999999999999999999999\r\n\r\n",
        75,
    ),
    (
        b"POST /desk/sales HTTP/1.1\r\nHost: api\r\nPortal-Token: desk-token\r\nContent-Length: 0000000025\r\n\r\n\
        {\"code\":\"2222-2222-2222\"}",
        119,
    ),
    (
        b"POST /desk/sales HTTP/1.1\r\nHost: api\r\nContent-Length: 25\r\n\r\n{\"code\":\"2222-2222-2222\"",
        85,
    ),
    (b"GET * HTTP/1.1\r\nHost: api\r\n\r\n", 29),
    (
        b"GET /captive HTTP/1.1\r\nHost: api\r\nPortal-Device: 02:00:00:00:00:01\r\n\
        Portal-Device: 02:00:00:00:00:01\r\n\r\n",
        104,
    ),
    (b"\r\nGET / HTTP/1.1\r\nHost: a\r\n\r\n", 29),
    (
        b"GET / HTTP/1.1\r\nHost: a\r\nContent-Length: 5\r\n\r\nhello and more",
        51,
    ),
    (b"DELETE /captive HTTP/1.1\r\nHost: api\r\n\r\n", 39),
    (
        b"POST /desk/sales HTTP/1.1\r\nHost: a\r\nContent-Length: 1\r\n\r\n\xff",
        58,
    ),
];

const LONG_FIELD: Hostile = Hostile {
    front: b"GET /captive HTTP/1.1\r\nHost: api\r\nPortal-Device: 02:00:00:00:00:01\r\nX: ",
    times: 8_117,
    piece: b"a",
    end: b"\r\n\r\n",
    reads: 8_192,
};

const MANY_FIELDS: Hostile = Hostile {
    front: b"GET /captive HTTP/1.1\r\nHost: api\r\nPortal-Device: 02:00:00:00:00:01\r\n",
    times: 30,
    piece: b"X: a\r\n",
    end: b"\r\n",
    reads: 250,
};

/// Requests at the limits of a head and of a body, and one past each.
const LIMITS: &[Hostile] = &[
    LONG_FIELD,
    Hostile {
        times: 8_118,
        ..LONG_FIELD
    },
    MANY_FIELDS,
    Hostile {
        times: 31,
        reads: 254,
        ..MANY_FIELDS
    },
    Hostile {
        front: b"POST /desk/sales HTTP/1.1\r\nHost: api\r\nPortal-Token: desk-token\r\nContent-Length: 65536\r\n\r\n\
            {\"code\":\"2222-2222-2222\"}",
        times: 65_511,
        piece: b" ",
        end: b"",
        reads: 65_625,
    },
];

/// Makes a hostile request from a row of the table: its bytes, and the number of reads that it takes.
fn hostile_request(row: &(&'static [u8], usize)) -> Hostile {
    let (front, reads) = *row;
    Hostile {
        front,
        times: 0,
        piece: b"",
        end: b"",
        reads,
    }
}

/// Returns the bytes of a request.
fn bytes_of(alloc: Global, row: &Hostile) -> Option<Vec<u8>> {
    let mut bytes = row.front.to_vec(alloc).ok()?;
    for _ in 0..row.times {
        bytes.extend_from_slice(row.piece).ok()?;
    }
    bytes.extend_from_slice(row.end).ok()?;
    Some(bytes)
}

/// Returns the sizes of the pieces in which a request is sent, the smallest first.
fn piece_sizes(length: usize) -> &'static [usize] {
    if length < 1_000 {
        &[1, 2, 7, 4_096, 80_000]
    } else {
        &[512, 4_096, 80_000]
    }
}

/// Returns the size of the pieces of which each fails in turn, and how many of them determine the response.
fn piece_size_and_reads(length: usize, reads: usize) -> (usize, usize) {
    if length < 1_000 {
        (1, reads)
    } else {
        (512, reads.div_ceil(512))
    }
}

/// Checks that each exchange sent that whole response.
fn are_done(met: &[ExchangeResult], response: &[u8]) -> bool {
    for met in met {
        if !is_done(met, status_in(response), response) {
            return false;
        }
    }
    true
}

/// Checks that each exchange failed at a read, before anything was written.
fn are_unread(met: &[ExchangeResult]) -> bool {
    for met in met {
        if !is_unread(met) {
            return false;
        }
    }
    true
}

/// Checks that the request is answered in pieces of each size as it is by a run. In pieces of the smallest
/// size no more is read than determines the response.
fn is_same_in_pieces(alloc: Global, row: &Hostile) -> Option<bool> {
    let bytes = bytes_of(alloc, row)?;
    let response = answer(alloc, bytes.as_slice())?;
    let mut peers = Vec::new(alloc);
    for size in piece_sizes(bytes.len()) {
        peers
            .push(whole_peer(MOMENT, bytes.as_slice(), *size))
            .ok()?;
    }
    let met = exchange_in_memory(alloc, peers.as_slice())?;
    let (_size, reads) = piece_size_and_reads(bytes.len(), row.reads);
    let is_read = met.first()?.reads == reads;
    let is_same = met.len() == peers.len() && are_done(met.as_slice(), response.as_slice());
    Some(is_read && is_same)
}

/// Requests that no correct client sends are answered in pieces as they are whole.
#[test]
fn hostile_requests_in_pieces(rt: HostRuntime) {
    for (place, row) in REQUESTS.iter().enumerate() {
        assert!(rt;
            is_same_in_pieces(rt.alloc(), &hostile_request(row)) == Some(true),
            "{place}"
        );
    }
}

/// Requests at the limits are answered in pieces as they are whole.
#[test]
fn limits_in_pieces(rt: HostRuntime) {
    for (place, row) in LIMITS.iter().enumerate() {
        assert!(rt; is_same_in_pieces(rt.alloc(), row) == Some(true), "{place}");
    }
}

/// Checks that nothing is written if a read of the request fails, each in turn. No further read is made.
fn is_cut_at_reads(alloc: Global, row: &Hostile) -> Option<bool> {
    let bytes = bytes_of(alloc, row)?;
    let (size, reads) = piece_size_and_reads(bytes.len(), row.reads);
    let whole = whole_peer(MOMENT, bytes.as_slice(), size);
    let mut peers: Vec<Peer<'_>> = Vec::new(alloc);
    for fails_at in 1..=reads.saturating_add(1) {
        peers.push(Peer { fails_at, ..whole }).ok()?;
    }
    let met = exchange_in_memory(alloc, peers.as_slice())?;
    let (unread, done) = (met.get(..reads)?, met.get(reads..)?);
    Some(done.len() == 1 && are_unread(unread) && done.first()?.ended.is_ok())
}

/// A request that no correct client sends gets no response if one of its reads fails.
#[test]
fn hostile_requests_cut_at_reads(rt: HostRuntime) {
    for (place, row) in REQUESTS.iter().enumerate() {
        assert!(rt;
            is_cut_at_reads(rt.alloc(), &hostile_request(row)) == Some(true),
            "{place}"
        );
    }
}

/// A request at the limits gets no response if one of its reads fails.
#[test]
fn limits_cut_at_reads(rt: HostRuntime) {
    for (place, row) in LIMITS.iter().enumerate() {
        assert!(rt; is_cut_at_reads(rt.alloc(), row) == Some(true), "{place}");
    }
}

/// Checks that the response is cut off if a write fails, or takes nothing, after each number of bytes.
fn is_cut_at_writes(alloc: Global, row: &Hostile) -> Option<bool> {
    let bytes = bytes_of(alloc, row)?;
    let response = answer(alloc, bytes.as_slice())?;
    let mut peers: Vec<Peer<'_>> = Vec::new(alloc);
    for room in 0..response.len() {
        for fails in [true, false] {
            let mut peer = whole_peer(MOMENT, bytes.as_slice(), 80_000);
            peer.takes = 100;
            peer.room = room;
            peer.fails = fails;
            peers.push(peer).ok()?;
        }
    }
    let met = exchange_in_memory(alloc, peers.as_slice())?;
    for (met, peer) in met.iter().zip(&peers) {
        let is_begun = response.as_slice().starts_with(met.taken.as_slice());
        if !is_begun || !is_unsent(met, peer.room, response.len()) {
            return Some(false);
        }
    }
    Some(met.len() == peers.len())
}

/// Hostile requests, where each write of the response fails once: the client has got what was written before
/// that, and nothing more.
#[test]
fn hostile_requests_cut_at_writes(rt: HostRuntime) {
    for (place, row) in REQUESTS.iter().enumerate() {
        assert!(rt;
            is_cut_at_writes(rt.alloc(), &hostile_request(row)) == Some(true),
            "{place}"
        );
    }
}
