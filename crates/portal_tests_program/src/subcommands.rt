//! The subcommands over a place: which error comes first, what is printed, and the exit code.
use crate::places::{FILES, NEW, SETTINGS, STUCK, Shelf, TestNetwork, good_shelf};
use portal_commands::answering::{AnswerOptions, answer, answer_at};
use portal_commands::checking::{check, check_at};
use portal_commands::place::{Files, Place};
use portal_commands::printing::{print, print_at};
use portal_commands::serving::{ServeOptions, serve};
use portal_commands::takings::{read_range, takings, takings_at};
use portal_desk::Desk;
use portal_http_routes::Routes;
use portal_model::moment::Moment;
use portal_server::ProgramError;
use portal_tests_desks::desks::InMemory;
use portal_tests_desks::requests::{CAPTIVE, MOMENT};
use std::alloc::Global;

const REQUEST: &str =
    "GET /captive HTTP/1.1\r\nHost: api\r\nPortal-Device: 02:00:00:00:00:01\r\n\r\n";

const SEED: &str = "0000000000000000000000000000000000000000000000000000000000000000";

/// The report over one day without sales.
const REPORT: &str = "day            sold             sales refunded           refunds\n\
    1970-01-02        0              0.00        0              0.00\n\
    total             0              0.00        0              0.00\n\
    net 0.00\n";

/// What a subcommand printed, and its exit code.
#[derive(Drop)]
struct ExitResult {
    status: u8,
    output: Vec<u8>,
    errors: Vec<u8>,
}

impl ExitResult {
    /// Compares it with an exit code and these texts.
    fn is(&self, status: u8, output: &str, errors: &str) -> bool {
        self.status == status
            && self.output.as_slice() == output.as_bytes()
            && self.errors.as_slice() == errors.as_bytes()
    }
}

/// A subcommand and its arguments.
#[derive(Clone, Copy)]
enum Subcommand<'w> {
    /// `answer`, its time, its seed, and whether it is over files.
    Answer(u64, &'w str, bool),
    /// `print` and its batch.
    Print(&'w str),
    /// `takings`, its first and its last day.
    Takings(&'w str, &'w str),
    Check,
    /// `serve`, and whether the port is free.
    Serve(bool),
}

/// Runs `answer` with the request of a guest, and returns its exit code.
fn answer_guest<P: Place>(
    alloc: Global,
    place: P,
    request: &AnswerOptions<'_>,
    output: &mut Vec<u8>,
    errors: &mut Vec<u8>,
) -> u8 {
    let mut input = REQUEST.as_bytes();
    answer(alloc, place, request, &mut input, output, errors)
}

/// Makes the options of `answer`, over files or without.
fn answer_options<'a>(
    now: u64,
    seed: &'a str,
    has_files: bool,
    files: Files<'a>,
) -> AnswerOptions<'a> {
    AnswerOptions {
        db: if has_files { Some(files.db) } else { None },
        settings: if has_files {
            Some(files.settings)
        } else {
            None
        },
        now,
        seed,
    }
}

/// Runs the subcommand over these files of the place, and returns its exit code.
fn run_for_exit_code<P: Place>(
    alloc: Global,
    place: P,
    asked: &Subcommand<'_>,
    files: Files<'_>,
    output: &mut Vec<u8>,
    errors: &mut Vec<u8>,
) -> u8 {
    match asked {
        Subcommand::Answer(now, seed, has_files) => {
            let request = answer_options(*now, seed, *has_files, files);
            answer_guest(alloc, place, &request, output, errors)
        }
        Subcommand::Print(batch) => print(alloc, place, files, batch, output, errors),
        Subcommand::Takings(from, to) => takings(alloc, place, files, from, to, output, errors),
        Subcommand::Check => check(alloc, place, files, output, errors),
        Subcommand::Serve(is_free) => {
            let at = ServeOptions { port: 80, count: 1 };
            let network = TestNetwork { is_free: *is_free };
            serve(alloc, place, network, files, at, output, errors)
        }
    }
}

/// Runs the subcommand over these files, and returns what it printed and its exit code.
fn run_and_collect<P: Place>(
    shelf: &Shelf,
    asked: &Subcommand<'_>,
    files: Files<'_>,
) -> ExitResult {
    let mut output = Vec::new(shelf.alloc);
    let mut errors = Vec::new(shelf.alloc);
    let status = run_for_exit_code(
        shelf.alloc,
        shelf.place::<P>(),
        asked,
        files,
        &mut output,
        &mut errors,
    );
    ExitResult {
        status,
        output,
        errors,
    }
}

/// Runs the subcommand over the files, with desks in memory, and checks its exit code and its texts.
fn exits_with(
    shelf: &Shelf,
    asked: &Subcommand<'_>,
    status: u8,
    output: &str,
    errors: &str,
) -> bool {
    run_and_collect::<InMemory>(shelf, asked, FILES).is(status, output, errors)
}

/// A settings file, the errors of reading it and of opening the database, and the one that is printed.
const ERRORS: &[(&str, Option<ProgramError>, Option<ProgramError>, &str)] = &[
    (
        "",
        Some(ProgramError::File),
        Some(ProgramError::Newer),
        "portal: file\n",
    ),
    (
        "",
        Some(ProgramError::NoMemory),
        Some(ProgramError::Newer),
        "portal: no_memory\n",
    ),
    (
        "",
        None,
        Some(ProgramError::Newer),
        "portal: settings\n  portal.toml: zone is missing\n",
    ),
    (
        "zone = \"UTC0\"\n",
        None,
        Some(ProgramError::Newer),
        "portal: settings\n  portal.toml: portal_url is missing\n",
    ),
    (
        SETTINGS,
        None,
        Some(ProgramError::NotOurs),
        "portal: not_ours\n",
    ),
    (SETTINGS, None, Some(ProgramError::Newer), "portal: newer\n"),
    (SETTINGS, None, Some(ProgramError::File), "portal: file\n"),
    (
        SETTINGS,
        None,
        Some(ProgramError::NoMemory),
        "portal: no_memory\n",
    ),
];

/// Subcommands over files.
const OVER_FILES: &[Subcommand<'static>] = &[
    Subcommand::Answer(MOMENT, SEED, true),
    Subcommand::Print("b1"),
    Subcommand::Print("no id"),
    Subcommand::Takings("1970-01-02", "1970-01-02"),
    Subcommand::Check,
    Subcommand::Serve(false),
];

/// Subcommands with invalid arguments, and what is printed: that error comes before any of a file.
const BAD_WORDS: &[(Subcommand<'static>, &str)] = &[
    (
        Subcommand::Answer(253_370_764_800, SEED, true),
        "portal: usage\n  --now: 0 to 253370764799\n",
    ),
    (
        Subcommand::Answer(MOMENT, "00", true),
        "portal: usage\n  --seed: 64 hexadecimal digits\n",
    ),
    (
        Subcommand::Takings("1970-01-02", "1970-01-01"),
        "portal: usage\n  FROM and TO: the first and the last of 1 to 366 days\n",
    ),
];

/// Checks that each of the subcommands ends with this exit code and this error.
fn all_exit_with(shelf: &Shelf, all: &[Subcommand<'_>], status: u8, errors: &str) -> bool {
    for asked in all {
        if !exits_with(shelf, asked, status, "", errors) {
            return false;
        }
    }
    true
}

/// The first error is printed. Without files none is asked for.
#[test]
fn first_error(rt: HostRuntime) {
    for (n, (text, reading, opening, said)) in ERRORS.iter().enumerate() {
        let shelf = Shelf {
            alloc: rt.alloc(),
            text,
            reading: *reading,
            opening: *opening,
        };
        assert!(rt; all_exit_with(&shelf, OVER_FILES, 3, said), "fault {n}");
        for (asked, said) in BAD_WORDS {
            assert!(rt; exits_with(&shelf, asked, 2, "", said), "fault {n}");
        }
        let without = Subcommand::Answer(MOMENT, SEED, false);
        assert!(rt; exits_with(&shelf, &without, 0, CAPTIVE, ""), "fault {n}");
    }
}

/// Subcommands over files without an error: the exit code, the output and the errors.
const ENDS: &[(Subcommand<'static>, u8, &str, &str)] = &[
    (Subcommand::Answer(MOMENT, SEED, true), 0, CAPTIVE, ""),
    (Subcommand::Print("b1"), 1, "", "portal: unknown_batch\n"),
    (Subcommand::Print(""), 1, "", "portal: unknown_batch\n"),
    (Subcommand::Print("B1"), 1, "", "portal: unknown_batch\n"),
    (Subcommand::Print("no id"), 1, "", "portal: unknown_batch\n"),
    (
        Subcommand::Print("012345678901234567890123456789012"),
        1,
        "",
        "portal: unknown_batch\n",
    ),
    (
        Subcommand::Takings("1970-01-02", "1970-01-02"),
        0,
        REPORT,
        "",
    ),
    (Subcommand::Check, 0, "ok\n", ""),
    (
        Subcommand::Serve(false),
        3,
        "",
        "portal: network\n  port 80: no room\n",
    ),
    (
        Subcommand::Serve(true),
        0,
        "listening 127.0.0.1:80\n",
        "portal: network\n",
    ),
];

/// Each subcommand over files without an error ends as it has to.
#[test]
fn no_error(rt: HostRuntime) {
    let shelf = good_shelf(rt.alloc());
    for (n, (asked, status, output, errors)) in ENDS.iter().enumerate() {
        assert!(rt;
            exits_with(&shelf, asked, *status, output, errors),
            "end {n}"
        );
    }
}

/// Checks that `check` prints `ok` for these files, with this text on its errors.
fn check_succeeds<P: Place>(alloc: Global, files: Files<'_>, said: &str) -> bool {
    let mut output = Vec::new(alloc);
    let mut errors = Vec::new(alloc);
    let place = good_shelf(alloc).place::<P>();
    let status = check(alloc, place, files, &mut output, &mut errors);
    let ended = ExitResult {
        status,
        output,
        errors,
    };
    ended.is(0, "ok\n", said)
}

/// A database that cannot be closed: the output and the exit code stay the same.
#[test]
fn not_closed(rt: HostRuntime) {
    let alloc = rt.alloc();
    assert!(rt; check_succeeds::<InMemory>(alloc, FILES, ""));
    assert!(rt; check_succeeds::<InMemory>(alloc, STUCK, "portal: file\n  stuck.db: no room\n"));
}

/// Subcommands that ask one question, and those that make a database if there is none.
const ASKING: &[Subcommand<'static>] = &[
    Subcommand::Print("b1"),
    Subcommand::Takings("1970-01-02", "1970-01-02"),
    Subcommand::Check,
];

const MAKING: &[(Subcommand<'static>, u8, &str)] = &[
    (Subcommand::Answer(MOMENT, SEED, true), 0, ""),
    (Subcommand::Serve(true), 0, "portal: network\n"),
];

/// A database that has yet to be made is not opened to ask. It is opened to serve and to answer.
#[test]
fn made_to_serve_and_to_answer(rt: HostRuntime) {
    let alloc = rt.alloc();
    for asked in ASKING {
        let ended = run_and_collect::<InMemory>(&good_shelf(alloc), asked, NEW);
        assert!(rt; ended.is(3, "", "portal: file\n  new.db: no database\n"));
    }
    for (asked, status, errors) in MAKING {
        let ended = run_and_collect::<InMemory>(&good_shelf(alloc), asked, NEW);
        assert!(rt; ended.status == *status && ended.errors.as_slice() == errors.as_bytes());
    }
}

/// Checks that only the line of a stopped desk was printed, with exit code 3.
fn is_stopped_output(status: u8, output: &[u8], errors: &[u8]) -> bool {
    status == 3 && output.is_empty() && errors == b"portal: stopped\n".as_slice()
}

/// Checks that `print` reports a desk that has stopped.
fn is_print_stopped<D: Desk>(alloc: Global, desk: &mut D) -> bool {
    let mut output = Vec::new(alloc);
    let mut errors = Vec::new(alloc);
    let status = print_at(alloc, desk, "b1", &mut output, &mut errors);
    is_stopped_output(status, output.as_slice(), errors.as_slice())
}

/// Checks that `check` reports a desk that has stopped.
fn is_check_stopped<D: Desk>(alloc: Global, desk: &mut D) -> bool {
    let mut output = Vec::new(alloc);
    let mut errors = Vec::new(alloc);
    let status = check_at(alloc, desk, &mut output, &mut errors);
    is_stopped_output(status, output.as_slice(), errors.as_slice())
}

/// Checks that `takings` reports a desk that has stopped.
fn are_takings_stopped<D: Desk>(alloc: Global, desk: &mut D) -> Option<bool> {
    let range = read_range("1970-01-02", "1970-01-02").ok()?;
    let mut output = Vec::new(alloc);
    let mut errors = Vec::new(alloc);
    let status = takings_at(alloc, desk, range, &mut output, &mut errors);
    Some(is_stopped_output(status, output.as_slice(), errors.as_slice()))
}

/// Returns the exit code of `answer` at the desk. None if not all of the response is written.
fn answer_status<D: Desk>(alloc: Global, desk: &mut D, request: &str) -> Option<u8> {
    let routes = Routes::new(alloc).ok()?;
    let moment = Moment::new(MOMENT)?;
    let mut input = request.as_bytes();
    let mut output = Vec::new(alloc);
    answer_at(
        alloc,
        desk,
        &routes,
        moment,
        [0; 32],
        &mut input,
        &mut output,
    )
    .ok()
}

/// Checks that each subcommand reports a desk that has stopped. A request that does not reach the desk is
/// answered as before.
pub fn subcommands_print_stopped<D: Desk>(alloc: Global, desk: &mut D) -> Option<bool> {
    let are_said = is_print_stopped(alloc, desk)
        && is_check_stopped(alloc, desk)
        && are_takings_stopped(alloc, desk)?;
    let reached = answer_status(alloc, desk, REQUEST)?;
    let unreached = answer_status(alloc, desk, "")?;
    Some(are_said && reached == 3 && unreached == 1)
}
