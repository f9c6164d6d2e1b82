//! One run of 202 requests: a batch of a hundred codes, each sold and redeemed by one device.
use portal_http::exchanges::status_in;
use portal_tests_desks::day::PLANS;
use portal_tests_desks::desks::answers_in_memory;
use portal_tests_desks::requests::{DESK, GUEST, REQUEST, request};
use std::alloc::Global;
use std::str;

const BATCH: &[u8] = b"{\"batch\":\"b1\",\"plan\":\"hour\",\"count\":100}";

/// Returns the codes of a print file at the end of a response: the text before the first comma of each line
/// but the first.
fn codes_in(alloc: Global, response: &[u8]) -> Option<Vec<String>> {
    let text = str::from_utf8(response).ok()?;
    let mut codes = Vec::new(alloc);
    for line in text.lines() {
        if let Some((code, rest)) = line.split_once(',') {
            if rest.starts_with("hour,") {
                codes.push(String::from_str(alloc, code).ok()?).ok()?;
            }
        }
    }
    Some(codes)
}

/// Returns the codes of the batch, as another desk prints them.
fn batch_codes(alloc: Global, plans: &[u8], batch: &[u8]) -> Option<Vec<String>> {
    let sheet = request(alloc, "GET /desk/batches/b1/print", DESK, b"")?;
    let requests: [(u64, &[u8]); 3] = [(1000, plans), (1000, batch), (1000, sheet.as_slice())];
    let response = answers_in_memory(alloc, &[], requests.as_slice())?.pop()?;
    codes_in(alloc, response.as_slice())
}

/// Builds the sale and the redemption of each code.
fn sell_and_redeem_requests(alloc: Global, codes: &[String]) -> Option<Vec<Vec<u8>>> {
    let mut requests = Vec::new(alloc);
    for code in codes {
        let body = format!(in alloc; "{{\"code\":\"{code}\"}}").ok()?;
        for (line, caller) in [("POST /desk/sales", DESK), ("POST /portal/redeem", GUEST)] {
            requests
                .push(request(alloc, line, caller, body.as_bytes())?)
                .ok()?;
        }
    }
    Some(requests)
}

/// Runs all requests. Returns how many responses have the status 200, and the last response.
fn run_all_requests(alloc: Global) -> Option<(usize, Vec<u8>)> {
    let plans = request(alloc, "POST /desk/plans", DESK, PLANS.as_bytes())?;
    let batch = request(alloc, "POST /desk/batches", DESK, BATCH)?;
    let codes = batch_codes(alloc, plans.as_slice(), batch.as_slice())?;
    let sent = sell_and_redeem_requests(alloc, codes.as_slice())?;
    let mut requests: Vec<(u64, &[u8])> = Vec::new(alloc);
    requests.push((1000, batch.as_slice())).ok()?;
    for bytes in &sent {
        requests.push((1000, bytes.as_slice())).ok()?;
    }
    requests.push((1000, REQUEST)).ok()?;
    let mut responses = answers_in_memory(alloc, &[(0, plans.as_slice())], requests.as_slice())?;
    let mut accepted = 0usize;
    for response in &responses {
        if status_in(response.as_slice()) == 200 {
            accepted = accepted.saturating_add(1);
        }
    }
    Some((accepted, responses.pop()?))
}

/// A hundred hours.
const LAST: &str =
    "\r\n\r\n{\"can-extend-session\":true,\"captive\":false,\"seconds-remaining\":360000,\
    \"user-portal-url\":\"https://wifi.example/portal\"}";

/// All 202 requests are accepted, and the device has a hundred hours.
#[test]
fn run_of_202_requests(rt: HostRuntime) {
    let (accepted, last) = run_all_requests(rt.alloc()).expect(&rt, "a run");
    assert_eq!(rt; accepted, 202);
    assert!(rt; last.as_slice().ends_with(LAST.as_bytes()));
}
