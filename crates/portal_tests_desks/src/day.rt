//! A day at the counter: at least one request of each kind, and its answer.
use crate::requests::{DESK, GATE, GUEST, request};
use std::alloc::Global;

/// A request at its time: its request line, the field of its caller, its body, the end of its response, and
/// the end of the response if it is sent again.
#[derive(Clone, Copy)]
pub struct Ask {
    at: u64,
    line: &'static str,
    caller: &'static str,
    body: &'static str,
    answer: &'static str,
    again: &'static str,
}

/// A plans file with an hour for 3.00 and three times a gigabyte for 5.00.
pub const PLANS: &str =
    "[[plan]]\nid = \"hour\"\nprice = 300\nuses = 1\nseconds = 3600\nbytes = 0\nshelf_days = 30\n\
    extend = true\n\n[[plan]]\nid = \"gig\"\nprice = 500\nuses = 3\nseconds = 0\n\
    bytes = 1073741824\nshelf_days = 30\nextend = false\n";

/// The bodies that name the first three codes of a seed of zeros.
const FIRST: &str = "{\"code\":\"3N55-WA4S-KH5V-JR49\"}";

const SECOND: &str = "{\"code\":\"VX9P-KPN3-9M27-5E2M\"}";

const THIRD: &str = "{\"code\":\"AXU5-SDWY-DBCH-DQCK\"}";

const SOLD_ALREADY: &str = "{\"error\":\"sold_already\"}";

/// Commands of each kind: a redemption that opens a session and one that extends it, and a refund.
pub const COMMANDS: &[Ask] = &[
    Ask {
        at: 0,
        line: "POST /desk/plans",
        caller: DESK,
        body: PLANS,
        answer: "{\"plans\":2}",
        again: "{\"plans\":2}",
    },
    Ask {
        at: 1000,
        line: "POST /desk/batches",
        caller: DESK,
        body: "{\"batch\":\"b1\",\"plan\":\"hour\",\"count\":3}",
        answer: "{\"batch\":\"b1\",\"count\":3,\"expires\":2593000}",
        again: "{\"error\":\"batch_exists\"}",
    },
    Ask {
        at: 1000,
        line: "POST /desk/sales",
        caller: DESK,
        body: FIRST,
        answer: "{\"code\":\"3N55-WA4S-KH5V-JR49\",\"price\":300}",
        again: SOLD_ALREADY,
    },
    Ask {
        at: 1000,
        line: "POST /portal/redeem",
        caller: GUEST,
        body: FIRST,
        answer: "{\"extended\":false,\"session\":1,\"uses_left\":0}",
        again: "{\"error\":\"used_up\"}",
    },
    Ask {
        at: 2000,
        line: "POST /gateway/reports",
        caller: GATE,
        body: "{\"session\":1,\"bytes\":7}",
        answer: "{\"open\":true,\"session\":1,\"used\":7}",
        again: "{\"open\":true,\"session\":1,\"used\":7}",
    },
    Ask {
        at: 2000,
        line: "POST /desk/sales",
        caller: DESK,
        body: SECOND,
        answer: "{\"code\":\"VX9P-KPN3-9M27-5E2M\",\"price\":300}",
        again: SOLD_ALREADY,
    },
    Ask {
        at: 2000,
        line: "POST /portal/redeem",
        caller: GUEST,
        body: SECOND,
        answer: "{\"extended\":true,\"session\":1,\"uses_left\":0}",
        again: "{\"error\":\"used_up\"}",
    },
    Ask {
        at: 3000,
        line: "POST /desk/sales",
        caller: DESK,
        body: THIRD,
        answer: "{\"code\":\"AXU5-SDWY-DBCH-DQCK\",\"price\":300}",
        again: SOLD_ALREADY,
    },
    Ask {
        at: 3500,
        line: "POST /desk/refunds",
        caller: DESK,
        body: THIRD,
        answer: "{\"amount\":300,\"code\":\"AXU5-SDWY-DBCH-DQCK\"}",
        again: "{\"error\":\"refunded\"}",
    },
    Ask {
        at: 4000,
        line: "POST /desk/closes",
        caller: DESK,
        body: "{\"session\":1}",
        answer: "{\"session\":1}",
        again: "{\"error\":\"closed_already\"}",
    },
];

/// A question: its request line, the field of its caller, and the end of its response.
pub type Question = (&'static str, &'static str, &'static str);

/// What is answered after these commands, also about a code and a session that the desk does not have.
pub const QUESTIONS: &[Question] = &[
    (
        "GET /captive",
        GUEST,
        "{\"captive\":true,\"user-portal-url\":\"https://wifi.example/portal\"}",
    ),
    ("GET /gateway/sessions", GATE, "{\"sessions\":[]}"),
    ("GET /gateway/sessions/details", GATE, "{\"sessions\":[]}"),
    (
        "GET /desk/sessions/1",
        DESK,
        "{\"at\":4000,\"device\":\"02:00:00:00:00:01\",\"ended\":\"closed\",\"opened\":1000,\
        \"plan\":\"hour\",\"seconds-remaining\":4200,\"session\":1,\"used\":7}",
    ),
    (
        "GET /desk/sessions?device=02-00-00-00-00-01",
        DESK,
        "{\"at\":4000,\"device\":\"02:00:00:00:00:01\",\"ended\":\"closed\",\"opened\":1000,\
        \"plan\":\"hour\",\"seconds-remaining\":4200,\"session\":1,\"used\":7}",
    ),
    (
        "GET /portal/session",
        GUEST,
        "{\"at\":4000,\"ended\":\"closed\",\"opened\":1000,\"plan\":\"hour\",\
        \"seconds-remaining\":4200,\"session\":1,\"used\":7}",
    ),
    (
        "GET /desk/sessions/2",
        DESK,
        "{\"error\":\"unknown_session\"}",
    ),
    (
        "GET /desk/vouchers/3N55-WA4S-KH5V-JR49",
        DESK,
        "{\"batch\":\"b1\",\"code\":\"3N55-WA4S-KH5V-JR49\",\"expires\":2593000,\"plan\":\"hour\",\
        \"redeemed\":1,\"refund\":null,\"sold\":1000,\"uses\":1}",
    ),
    (
        "GET /desk/vouchers/AXU5-SDWY-DBCH-DQCK",
        DESK,
        "{\"batch\":\"b1\",\"code\":\"AXU5-SDWY-DBCH-DQCK\",\"expires\":2593000,\"plan\":\"hour\",\
        \"redeemed\":0,\"refund\":300,\"sold\":3000,\"uses\":1}",
    ),
    (
        "GET /desk/vouchers/2222-2222-2222",
        DESK,
        "{\"error\":\"unknown_code\"}",
    ),
    (
        "GET /desk/vouchers/3N55-WA4S-KH5V-JR49/redemptions",
        DESK,
        "{\"more\":false,\"redemptions\":[{\"at\":1000,\"device\":\"02:00:00:00:00:01\",\
        \"extended\":false,\"open\":false,\"session\":1}]}",
    ),
    (
        "GET /desk/vouchers/VX9P-KPN3-9M27-5E2M/redemptions",
        DESK,
        "{\"more\":false,\"redemptions\":[{\"at\":2000,\"device\":\"02:00:00:00:00:01\",\
        \"extended\":true,\"open\":false,\"session\":1}]}",
    ),
    (
        "GET /desk/vouchers/AXU5-SDWY-DBCH-DQCK/redemptions",
        DESK,
        "{\"more\":false,\"redemptions\":[]}",
    ),
    (
        "GET /desk/vouchers/2222-2222-2222/redemptions",
        DESK,
        "{\"error\":\"unknown_code\"}",
    ),
    (
        "GET /desk/batches/b1/print",
        DESK,
        "code,plan,seconds,bytes,price,expires\n\
        3N55-WA4S-KH5V-JR49,hour,3600,,3.00,1970-01-31 00:16\n\
        VX9P-KPN3-9M27-5E2M,hour,3600,,3.00,1970-01-31 00:16\n\
        AXU5-SDWY-DBCH-DQCK,hour,3600,,3.00,1970-01-31 00:16\n",
    ),
    (
        "GET /desk/batches",
        DESK,
        "{\"batches\":[{\"batch\":\"b1\",\"count\":3,\"expires\":2593000,\"issued\":1000,\
        \"plan\":\"hour\",\"refunded\":1,\"sold\":3,\"used-up\":2}],\"more\":false}",
    ),
    (
        "GET /desk/batches?before=b1&limit=1",
        DESK,
        "{\"batches\":[],\"more\":false}",
    ),
    (
        "GET /desk/batches?before=b2",
        DESK,
        "{\"error\":\"unknown_batch\"}",
    ),
    (
        "GET /desk/batches/b1",
        DESK,
        "{\"batch\":\"b1\",\"count\":3,\"expires\":2593000,\"issued\":1000,\"plan\":\"hour\",\
        \"refunded\":1,\"sold\":3,\"used-up\":2,\"vouchers\":[\
        {\"code\":\"3N55-WA4S-KH5V-JR49\",\"redeemed\":1,\"refund\":null,\"sold\":1000},\
        {\"code\":\"VX9P-KPN3-9M27-5E2M\",\"redeemed\":1,\"refund\":null,\"sold\":2000},\
        {\"code\":\"AXU5-SDWY-DBCH-DQCK\",\"redeemed\":0,\"refund\":300,\"sold\":3000}]}",
    ),
    (
        "GET /desk/vouchers?prefix=vx9p-k",
        DESK,
        "{\"more\":false,\"vouchers\":[{\"batch\":\"b1\",\"code\":\"VX9P-KPN3-9M27-5E2M\",\
        \"expires\":2593000,\"plan\":\"hour\",\"redeemed\":1,\"refund\":null,\"sold\":2000,\
        \"uses\":1}]}",
    ),
    (
        "GET /desk/takings?from=1970-01-01&to=1970-01-01",
        DESK,
        "day            sold             sales refunded           refunds\n\
        1970-01-01        3              9.00        1              3.00\n\
        total             3              9.00        1              3.00\n\
        net 6.00\n",
    ),
];

/// The bytes of a request, its time and its two answers.
#[derive(Drop)]
pub struct SentRequest {
    pub at: u64,
    pub bytes: Vec<u8>,
    pub answer: String,
    pub again: String,
}

/// Builds a request, with its index as its idempotency key or without a key.
fn build_request(alloc: Global, ask: &Ask, place: usize, has_keys: bool) -> Option<SentRequest> {
    let caller = ask.caller;
    let fields = if has_keys {
        format!(in alloc; "{caller}Portal-Request: n{place}\r\n").ok()?
    } else {
        String::from_str(alloc, caller).ok()?
    };
    Some(SentRequest {
        at: ask.at,
        bytes: request(alloc, ask.line, fields.as_str(), ask.body.as_bytes())?,
        answer: String::from_str(alloc, ask.answer).ok()?,
        again: String::from_str(alloc, ask.again).ok()?,
    })
}

/// Builds the requests, each with its index as its idempotency key, or all without keys.
pub fn build_requests(alloc: Global, asks: &[Ask], has_keys: bool) -> Option<Vec<SentRequest>> {
    let mut all = Vec::new(alloc);
    for (place, ask) in asks.iter().enumerate() {
        all.push(build_request(alloc, ask, place, has_keys)?).ok()?;
    }
    Some(all)
}

/// Builds the questions.
pub fn build_questions(alloc: Global) -> Option<Vec<SentRequest>> {
    let mut all = Vec::new(alloc);
    for (line, caller, answer) in QUESTIONS {
        let ask = Ask {
            at: 4000,
            line: *line,
            caller: *caller,
            body: "",
            answer: *answer,
            again: *answer,
        };
        all.push(build_request(alloc, &ask, 0, false)?).ok()?;
    }
    Some(all)
}

/// Builds the day: the commands, and then the questions.
pub fn build_day(alloc: Global, has_keys: bool) -> Option<Vec<SentRequest>> {
    let mut day = build_requests(alloc, COMMANDS, has_keys)?;
    for question in build_questions(alloc)? {
        day.push(question).ok()?;
    }
    Some(day)
}
