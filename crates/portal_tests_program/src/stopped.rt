//! A desk that has stopped: each request, each subcommand and serving by it give `stopped`.
use crate::{serving, subcommands};
use portal_codes::Code;
use portal_commands::place::Place;
use portal_desk::Desk;
use portal_desk::prepared::Prepared;
use portal_http_routes::Routes;
use portal_model::command::Command;
use portal_model::moment::Moment;
use portal_model::name::Device;
use portal_model::refusal::Refusal;
use portal_tests_desks::day::{PLANS, build_questions};
use portal_tests_desks::desks::{
    InMemory, answers_of, build_arrivals, is_refused_by_stopped, new_desk,
};
use portal_tests_desks::exchanges::whole_peer;
use portal_tests_desks::requests::{DESK, request};
use std::alloc::Global;

/// One voucher of the plan `hour`.
const BATCH: &[u8] = b"{\"batch\":\"b1\",\"plan\":\"hour\",\"count\":1}";

/// Its code, by the seed of each request of `build_arrivals`.
const CODE: &str = "3N55-WA4S-KH5V-JR49";

const SALE: &[u8] = b"{\"code\":\"3N55-WA4S-KH5V-JR49\"}";

/// Loads the plans, issues the voucher, and sells it. Returns how many responses came.
fn sell_voucher<D: Desk>(alloc: Global, desk: &mut D) -> Option<usize> {
    let plans = request(alloc, "POST /desk/plans", DESK, PLANS.as_bytes())?;
    let batch = request(alloc, "POST /desk/batches", DESK, BATCH)?;
    let sale = request(alloc, "POST /desk/sales", DESK, SALE)?;
    let requests: [(u64, &[u8]); 3] = [
        (0, plans.as_slice()),
        (1000, batch.as_slice()),
        (1000, sale.as_slice()),
    ];
    let arrivals = build_arrivals(alloc, requests.as_slice())?;
    Some(answers_of(alloc, desk, arrivals.as_slice())?.len())
}

/// Prepares the redemption of the voucher, without the commit.
fn prepare_redemption<D: Desk>(alloc: Global, desk: &mut D) -> Option<Prepared> {
    let moment = Moment::new(1000)?;
    let device = Device::read("02:00:00:00:00:01").ok()?;
    let code = Code::read(CODE).ok()?;
    desk.prepare(alloc, moment, Command::Redeem { device, code })
        .ok()
}

/// Checks that the desk stops if the same redemption is prepared twice and committed twice: the database
/// already has a session of that number.
fn stops_after_duplicate<D: Desk>(alloc: Global, desk: &mut D) -> Option<bool> {
    let count = sell_voucher(alloc, desk)?;
    let first = prepare_redemption(alloc, desk)?;
    let second = prepare_redemption(alloc, desk)?;
    let is_kept = desk.finish(first).is_ok();
    let is_refused = desk.finish(second).err() == Some(Refusal::Stopped);
    Some(count == 3 && is_kept && is_refused && desk.is_stopped())
}

/// Checks that a desk that has stopped answers each question with `stopped`.
fn are_refused_by_stopped<D: Desk>(alloc: Global, desk: &mut D) -> Option<bool> {
    let routes = Routes::new(alloc).ok()?;
    for sent in &build_questions(alloc)? {
        let peer = whole_peer(sent.at, sent.bytes.as_slice(), 80_000);
        if !is_refused_by_stopped(alloc, desk, &routes, &peer)? {
            return Some(false);
        }
    }
    Some(true)
}

/// Stops the desk, and checks that serving by it ends, and that each question and each subcommand gives
/// `stopped`.
fn stopped_desk_answers_stopped<D: Desk>(alloc: Global, desk: &mut D) -> Option<bool> {
    let is_stopped = stops_after_duplicate(alloc, desk)?;
    let is_answered = are_refused_by_stopped(alloc, desk)?;
    let is_served = serving::stopped_desk_ends_serve(alloc, desk)?;
    let is_said = subcommands::subcommands_print_stopped(alloc, desk)?;
    Some(is_stopped && is_answered && is_served && is_said)
}

/// Checks the same for a new desk of a place.
fn is_stop_reported_at<P: Place>(alloc: Global) -> Option<bool> {
    let mut desk = new_desk::<P>(alloc)?;
    let is_told = stopped_desk_answers_stopped(alloc, &mut desk);
    P::close_desk_in_memory(desk);
    is_told
}

/// Serving ends if the desk has stopped, and each request and each subcommand gives `stopped`.
#[test]
fn stopped_desk(rt: HostRuntime) {
    assert!(rt; is_stop_reported_at::<InMemory>(rt.alloc()) == Some(true));
}
