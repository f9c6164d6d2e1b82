//! The program over its arguments, a reader and two writers: its output, and its exit code.
use crate::places::{TestNetwork, good_shelf};
use portal_commands::answering::{AnswerOptions, answer};
use portal_commands::place::Place;
use portal_commands::program::run_program;
use portal_commands::trouble::Trouble;
use portal_commands::words::words_of;
use portal_server::ProgramError;
use portal_tests_desks::desks::InMemory;
use portal_tests_desks::requests::{CAPTIVE, MOMENT, REQUEST};
use std::alloc::Global;
use std::env::{Env, FillError};
use std::io::{self, Error, ErrorKind, Read, Write};

const SEED: &str = "0000000000000000000000000000000000000000000000000000000000000000";

/// A reader that gives one byte a read, and fails after so many reads.
#[derive(Drop)]
struct FailingReader<'b> {
    bytes: &'b [u8],
    reads_left: usize,
}

impl<'b> Read for FailingReader<'b> {
    fn read(&mut self, buf: &mut [u8]) -> io::Result<usize> {
        if self.reads_left == 0 {
            return Err(Error::from(ErrorKind::Interrupted));
        }
        self.reads_left -= 1;
        if buf.is_empty() || self.bytes.is_empty() {
            return Ok(0);
        }
        buf[0] = self.bytes[0];
        self.bytes = &self.bytes[1..];
        Ok(1)
    }
}

/// A writer that keeps what it takes: at most 100 bytes a write, and `room` bytes in all. Then it fails, or
/// takes nothing.
#[derive(Drop)]
struct FailingWriter {
    taken: Vec<u8>,
    room: usize,
    fails: bool,
}

impl Write for FailingWriter {
    fn write(&mut self, buf: &[u8]) -> io::Result<usize> {
        if self.room == 0 && self.fails {
            return Err(Error::from(ErrorKind::Interrupted));
        }
        let count = self.room.min(100).min(buf.len());
        self.taken.extend_from_slice(&buf[..count])?;
        self.room -= count;
        Ok(count)
    }

    fn flush(&mut self) -> io::Result<()> {
        Ok(())
    }
}

/// An environment with these arguments.
#[derive(Drop)]
struct GivenWords<'w> {
    words: &'w [&'w [u8]],
}

impl<'w> Env for GivenWords<'w> {
    fn arg(&self, i: usize, buf: &mut [u8]) -> Result<usize, FillError> {
        if i >= self.words.len() {
            return Err(FillError::NotPresent);
        }
        let word = self.words[i];
        if word.len() > buf.len() {
            return Err(FillError::TooLong);
        }
        buf[..word.len()].copy_from_slice(word);
        Ok(word.len())
    }

    fn var(&self, _name: &str, _buf: &mut [u8]) -> Result<usize, FillError> {
        Err(FillError::NotPresent)
    }

    fn var_at(&self, _i: usize, _buf: &mut [u8]) -> Result<usize, FillError> {
        Err(FillError::NotPresent)
    }
}

/// Runs `answer` at a place, and checks its exit code and the errors that it prints.
fn answer_exits_at<P: Place, R: Read, W: Write>(
    alloc: Global,
    now: u64,
    seed: &str,
    input: &mut R,
    output: &mut W,
    status: u8,
    said: &str,
) -> bool {
    let mut errors = Vec::new(alloc);
    let request = AnswerOptions {
        db: None,
        settings: None,
        now,
        seed,
    };
    let ended = answer(
        alloc,
        good_shelf(alloc).place::<P>(),
        &request,
        input,
        output,
        &mut errors,
    );
    ended == status && errors.as_slice() == said.as_bytes()
}

/// Runs `answer` with a desk in memory, and checks its exit code and the errors that it prints.
fn answer_exits_with<R: Read, W: Write>(
    alloc: Global,
    now: u64,
    seed: &str,
    input: &mut R,
    output: &mut W,
    status: u8,
    said: &str,
) -> bool {
    answer_exits_at::<InMemory, R, W>(alloc, now, seed, input, output, status, said)
}

/// Runs the program with these arguments and a guest's request, and returns its exit code.
fn run_for_exit_code<P: Place>(
    alloc: Global,
    words: &[&str],
    output: &mut FailingWriter,
    errors: &mut Vec<u8>,
) -> u8 {
    let mut input = REQUEST;
    run_program(
        alloc,
        good_shelf(alloc).place::<P>(),
        TestNetwork { is_free: true },
        words,
        &mut input,
        output,
        errors,
    )
}

/// Checks that the bytes begin and end with these texts; an empty front means no bytes.
fn is_framed(bytes: &[u8], front: &str, end: &str) -> bool {
    bytes.is_empty() == front.is_empty()
        && bytes.starts_with(front.as_bytes())
        && bytes.ends_with(end.as_bytes())
}

/// Checks the end of `answer` if so many bytes of the request can be read, and that so many bytes are
/// written.
fn ends_after_reads(
    alloc: Global,
    reads_left: usize,
    status: u8,
    said: &str,
    written: usize,
) -> bool {
    let mut input = FailingReader {
        bytes: REQUEST,
        reads_left,
    };
    let mut output = Vec::new(alloc);
    let is_ended = answer_exits_with(alloc, MOMENT, SEED, &mut input, &mut output, status, said);
    is_ended && output.len() == written
}

/// `answer` ends with `cut` if a read of the request fails.
#[test]
fn requests_cut_off(rt: HostRuntime) {
    for reads_left in 0..70 {
        let is_cut = ends_after_reads(rt.alloc(), reads_left, 3, "portal: cut\n", 0);
        assert!(rt; is_cut, "after {reads_left} reads");
    }
    assert!(rt; ends_after_reads(rt.alloc(), 70, 0, "", 224));
}

/// Checks the end of `answer` if so many bytes of the response can be written, and that those are its first
/// ones. Then a write fails, or takes nothing.
fn ends_at_room(alloc: Global, room: usize, fails: bool, status: u8, said: &str) -> bool {
    let mut input = REQUEST;
    let mut output = FailingWriter {
        taken: Vec::new(alloc),
        room,
        fails,
    };
    let is_ended = answer_exits_with(alloc, MOMENT, SEED, &mut input, &mut output, status, said);
    is_ended
        && output.taken.len() == room
        && CAPTIVE.as_bytes().starts_with(output.taken.as_slice())
}

/// `answer` ends with `cut` if a write of the response fails.
#[test]
fn responses_cut_off(rt: HostRuntime) {
    for room in 0..224 {
        assert!(rt;
            ends_at_room(rt.alloc(), room, true, 3, "portal: cut\n"),
            "at {room}"
        );
    }
    assert!(rt; ends_at_room(rt.alloc(), 224, true, 0, ""));
}

/// `answer` ends with `cut` if a write of the response takes nothing.
#[test]
fn responses_not_taken(rt: HostRuntime) {
    for room in 0..224 {
        assert!(rt;
            ends_at_room(rt.alloc(), room, false, 3, "portal: cut\n"),
            "at {room}"
        );
    }
    assert!(rt; ends_at_room(rt.alloc(), 224, false, 0, ""));
}

/// Arguments, the room for the output, the exit code, and how the output and the errors begin.
type Call = (
    &'static [&'static str],
    usize,
    u8,
    &'static str,
    &'static str,
);

const CALLS: &[Call] = &[
    (&["portal", "--help"], 10, 3, "The vouche", "portal: cut\n"),
    (
        &[
            "portal",
            "check",
            "--db",
            "portal.db",
            "--settings",
            "portal.toml",
        ],
        2,
        3,
        "ok",
        "portal: cut\n",
    ),
    (
        &[
            "portal",
            "check",
            "--db",
            "other.db",
            "--settings",
            "portal.toml",
        ],
        1000,
        3,
        "",
        "portal: file\n",
    ),
    (
        &[
            "portal",
            "check",
            "--db",
            "portal.db",
            "--settings",
            "other.toml",
        ],
        1000,
        3,
        "",
        "portal: file\n",
    ),
    (
        &[
            "portal",
            "serve",
            "--db",
            "portal.db",
            "--settings",
            "portal.toml",
            "--count",
            "2",
        ],
        1000,
        0,
        "listening 127.0.0.1:8080\n",
        "portal: network\nportal: network\n",
    ),
    (
        &[
            "portal",
            "serve",
            "--db",
            "portal.db",
            "--settings",
            "portal.toml",
            "--port",
            "1",
        ],
        10,
        3,
        "listening ",
        "portal: cut\n",
    ),
];

/// Checks that the program ends as the call says.
fn is_ended(alloc: Global, call: &Call) -> bool {
    let (words, room, status, wrote, said) = call;
    let mut output = FailingWriter {
        taken: Vec::new(alloc),
        room: *room,
        fails: true,
    };
    let mut errors = Vec::new(alloc);
    let ended = run_for_exit_code::<InMemory>(alloc, words, &mut output, &mut errors);
    ended == *status
        && is_framed(output.taken.as_slice(), wrote, "")
        && is_framed(errors.as_slice(), said, "")
}

/// The program ends with the right exit code and texts for each command line.
#[test]
fn words_to_status(rt: HostRuntime) {
    for (n, call) in CALLS.iter().enumerate() {
        assert!(rt; is_ended(rt.alloc(), call), "call {n}");
    }
}

/// Returns how many arguments there are, and whether the second is an umlaut.
fn read_arguments(alloc: Global, words: &[&[u8]]) -> Result<(usize, bool), Trouble> {
    let words = words_of(&(GivenWords { words }, alloc))?;
    let is_umlaut = match words.get(1) {
        Some(word) => word.as_str() == "ä",
        None => false,
    };
    Ok((words.len(), is_umlaut))
}

/// Checks that the arguments cannot be copied, and that this is what is printed.
fn are_refused(alloc: Global, words: &[&[u8]], said: &str) -> bool {
    let mut errors = Vec::new(alloc);
    match read_arguments(alloc, words) {
        Ok(_) => false,
        Err(trouble) => { trouble.report(&mut errors) == 2 && errors.as_slice() == said.as_bytes() }
    }
}

/// Arguments are read as UTF-8; one that is not gives `usage`.
#[test]
fn words_in_utf8(rt: HostRuntime) {
    let umlaut: &[&[u8]] = &[b"portal", b"\xc3\xa4", b""];
    assert!(rt; matches!(read_arguments(rt.alloc(), umlaut), Ok((3, true))));
    let said = "portal: usage\n  arguments: text in UTF-8\n";
    assert!(rt; are_refused(rt.alloc(), &[b"portal", b"\xe4"], said));
    assert!(rt; are_refused(rt.alloc(), &[b"\xff", b"answer"], said));
}
