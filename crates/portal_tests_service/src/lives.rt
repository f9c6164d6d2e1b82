//! Lives of two files: what the first round was answered, the second one finds, wherever the disk is cut off.
use crate::files::{CrashPoint, Image, Part};
use portal_http::Arrival;
use portal_http_routes::Routes;
use portal_os::{Round, live};
use portal_tests_desks::day::{COMMANDS, SentRequest, build_requests};
use sqlite::Options;
use std::alloc::Global;
use std::process::Abort;
use std::test::Fail;

/// A settings file with the tokens of the day's requests.
const SETTINGS: &str = "zone = \"UTC0\"\nportal_url = \"https://wifi.example/portal\"\n\
    desk_token = \"desk-token\"\ngateway_token = \"gate-token\"\n";

/// How many calls apart the crashes are.
const STEP: usize = 5;

/// More calls than a round makes.
const MANY: u64 = 10_000;

/// Builds a round in which these requests arrive.
fn build_round(alloc: Global, requests: &[SentRequest]) -> Result<Round, Fail> {
    let mut arrivals = Vec::new(alloc);
    for sent in requests {
        let bytes = sent.bytes.clone()?;
        arrivals.push(Arrival::new(sent.at, [0; 32], bytes).ok_or("past the last time")?)?;
    }
    Ok(Round {
        settings: Vec::from_slice(alloc, SETTINGS.as_bytes())?,
        arrivals,
    })
}

/// Returns how many of the requests were answered as they say, one after another from the first.
fn count_answered(requests: &[SentRequest], responses: &[Vec<u8>]) -> usize {
    let mut count: usize = 0;
    for (sent, response) in requests.iter().zip(responses) {
        if !response.as_slice().ends_with(sent.answer.as_bytes()) {
            return count;
        }
        count = count.saturating_add(1);
    }
    count
}

/// Lives two rounds over new files. In the first the whole day is sent, each request with its key, and the disk
/// is cut off at this point. In the second the day is sent from this request on. Returns how many requests were
/// answered in each round; none in one that opened no desk or was not lived.
fn live_day(
    alloc: Global,
    day: &[SentRequest],
    limit: CrashPoint,
    from: usize,
) -> Result<(usize, usize), Fail> {
    let routes = Routes::new(alloc)?;
    let rest = day.get(from..).ok_or("past the day")?;
    let mut rounds = Vec::new(alloc);
    rounds.push(build_round(alloc, day)?)?;
    rounds.push(build_round(alloc, rest)?)?;
    let files = Image::new(alloc).crashing_files(alloc, limit)?;
    if !files.may_be_used() {
        return Err("the files may not be used".into());
    }
    let (lived, _) = live(alloc, files, Options::new(1), &routes, rounds.as_slice());
    let answered = |place: usize, requests: &[SentRequest]| match lived.get(place) {
        Some(Some(responses)) => count_answered(requests, responses.as_slice()),
        _ => 0,
    };
    Ok((answered(0, day), answered(1, rest)))
}

/// Lives the day with a crash at every so many calls of the file, of which at least so many fall among the
/// requests. What was not answered before the crash is answered then, as on a day without one: what was
/// answered is there.
fn crash_lives(alloc: Global, rt: &impl Abort, part: Part, among: usize) -> Result<(), Fail> {
    let day = build_requests(alloc, COMMANDS, true).ok_or("no day")?;
    let mut cut: usize = 0;
    let mut cut_among: usize = 0;
    for calls in (0..MANY).step_by(STEP) {
        let limit = CrashPoint { part, calls };
        let (first, _) = live_day(alloc, day.as_slice(), limit, day.len())?;
        let (again, then) = live_day(alloc, day.as_slice(), limit, first)?;
        assert!(rt;
            again == first && (first == 0 || then == day.len().saturating_sub(first)),
            "{limit:?} {first} {again} {then}"
        );
        if first == day.len() {
            assert!(rt;
                cut > 2 && cut_among >= among,
                "{limit:?} {cut} {cut_among}"
            );
            return Ok(());
        }
        cut = cut.saturating_add(1);
        if first > 0 {
            cut_among = cut_among.saturating_add(1);
        }
    }
    Err("no round was whole".into())
}

#[test]
fn lives_with_log_crashes(rt: HostRuntime) -> Result<(), Fail> {
    crash_lives(rt.alloc(), &rt, Part::Log, 5)
}

#[test]
fn lives_with_database_crashes(rt: HostRuntime) -> Result<(), Fail> {
    crash_lives(rt.alloc(), &rt, Part::Database, 0)
}
