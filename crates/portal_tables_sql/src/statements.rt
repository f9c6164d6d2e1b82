//! The text of each SQL statement on the product's tables, table by table. What a text means, under any
//! schema that has its table, is proved in proofs/CreateTexts, InsertTexts, UpdateTexts, SelectTexts,
//! WholeTexts, ListTexts, PageTexts and RequestTexts. specs/Tables.antt describes the tables.

// ---- portal_head

pub const CREATE_HEAD: &str =
    "CREATE TABLE portal_head (id INTEGER PRIMARY KEY, layout INTEGER NOT NULL, \
     last_moment INTEGER NOT NULL, grants INTEGER NOT NULL, sessions INTEGER NOT NULL) STRICT";

pub const DROP_HEAD: &str = "DROP TABLE portal_head";

pub const INSERT_HEAD: &str =
    "INSERT INTO portal_head (id, layout, last_moment, grants, sessions) VALUES (1, ?1, 0, 0, 0)";

/// A head row with these columns.
pub const INSERT_WHOLE_HEAD: &str =
    "INSERT INTO portal_head (id, layout, last_moment, grants, sessions) \
     VALUES (?1, ?2, ?3, ?4, ?5)";

/// The head row.
pub const SELECT_HEAD: &str =
    "SELECT id, layout, last_moment, grants, sessions FROM portal_head WHERE id = 1";

/// All head rows. There is one.
pub const SELECT_ALL_HEADS: &str =
    "SELECT id, layout, last_moment, grants, sessions FROM portal_head ORDER BY id";

pub const SELECT_SCHEMA_VERSION: &str = "SELECT layout FROM portal_head";

pub const SET_LAST_MOMENT: &str = "UPDATE portal_head SET last_moment = ?1 WHERE id = 1";

pub const SET_HEAD_NUMBERS: &str =
    "UPDATE portal_head SET last_moment = ?1, grants = ?2, sessions = ?3 WHERE id = 1";

pub const SET_SCHEMA_VERSION: &str = "UPDATE portal_head SET layout = ?1 WHERE id = 1";

// ---- portal_plans

pub const CREATE_PLANS: &str =
    "CREATE TABLE portal_plans (id TEXT NOT NULL, price INTEGER NOT NULL, \
     uses INTEGER NOT NULL, seconds INTEGER NOT NULL, bytes INTEGER NOT NULL, \
     shelf_days INTEGER NOT NULL, extend INTEGER NOT NULL) STRICT";

pub const DROP_PLANS: &str = "DROP TABLE portal_plans";

/// The index by which a plan is found by its id.
pub const INDEX_PLANS_BY_ID: &str = "CREATE INDEX portal_plans_by_id ON portal_plans (id)";

pub const INSERT_PLAN: &str =
    "INSERT INTO portal_plans (id, price, uses, seconds, bytes, shelf_days, extend) \
     VALUES (?1, ?2, ?3, ?4, ?5, ?6, ?7)";

/// The plan with an id.
pub const SELECT_PLAN: &str =
    "SELECT id, price, uses, seconds, bytes, shelf_days, extend FROM portal_plans WHERE id = ?1";

/// All plans.
pub const SELECT_ALL_PLANS: &str =
    "SELECT id, price, uses, seconds, bytes, shelf_days, extend FROM portal_plans ORDER BY rowid";

// ---- portal_batches

pub const CREATE_BATCHES: &str =
    "CREATE TABLE portal_batches (id TEXT NOT NULL, plan_id TEXT NOT NULL, \
     issued INTEGER NOT NULL, expires INTEGER NOT NULL, size INTEGER NOT NULL) STRICT";

pub const DROP_BATCHES: &str = "DROP TABLE portal_batches";

/// The index by which a batch is found by its id.
pub const INDEX_BATCHES_BY_ID: &str = "CREATE INDEX portal_batches_by_id ON portal_batches (id)";

/// The index by which batches are found by the time of their issue.
pub const INDEX_BATCHES_BY_ISSUE: &str =
    "CREATE INDEX portal_batches_by_issue ON portal_batches (issued, id)";

pub const INSERT_BATCH: &str =
    "INSERT INTO portal_batches (id, plan_id, issued, expires, size) VALUES (?1, ?2, ?3, ?4, ?5)";

/// The batch with an id.
pub const SELECT_BATCH: &str =
    "SELECT id, plan_id, issued, expires, size FROM portal_batches WHERE id = ?1";

/// The first 21 batches behind a place in their list, which has the later issue first, and of two at one
/// time the greater id: those that were issued before a time, or then with an id below that one.
pub const SELECT_BATCHES_BEHIND: &str =
    "SELECT id, plan_id, issued, expires, size FROM portal_batches \
     WHERE issued <= ?1 AND (issued < ?1 OR id < ?2) ORDER BY issued DESC, id DESC LIMIT 21";

/// All batches.
pub const SELECT_ALL_BATCHES: &str =
    "SELECT id, plan_id, issued, expires, size FROM portal_batches ORDER BY rowid";

// ---- portal_vouchers

pub const CREATE_VOUCHERS: &str =
    "CREATE TABLE portal_vouchers (code TEXT NOT NULL, batch_id TEXT NOT NULL, \
     place INTEGER NOT NULL, sold INTEGER, refunded INTEGER, amount INTEGER, \
     redeemed INTEGER NOT NULL) STRICT";

pub const DROP_VOUCHERS: &str = "DROP TABLE portal_vouchers";

/// The index by which a voucher is found by its code.
pub const INDEX_VOUCHERS_BY_CODE: &str =
    "CREATE INDEX portal_vouchers_by_code ON portal_vouchers (code)";

/// The index by which the vouchers of a batch are found, by their places.
pub const INDEX_VOUCHERS_BY_BATCH: &str =
    "CREATE INDEX portal_vouchers_by_batch ON portal_vouchers (batch_id, place)";

/// A voucher that was not redeemed.
pub const INSERT_VOUCHER: &str =
    "INSERT INTO portal_vouchers (code, batch_id, place, redeemed) VALUES (?1, ?2, ?3, 0)";

/// A voucher with its sale, its refund and its count.
pub const INSERT_WHOLE_VOUCHER: &str =
    "INSERT INTO portal_vouchers (code, batch_id, place, sold, refunded, amount, redeemed) \
     VALUES (?1, ?2, ?3, ?4, ?5, ?6, ?7)";

/// The voucher with a code.
pub const SELECT_VOUCHER: &str =
    "SELECT code, batch_id, place, sold, refunded, amount, redeemed FROM portal_vouchers \
     WHERE code = ?1";

/// The vouchers of a batch, ordered by place.
pub const SELECT_BATCH_VOUCHERS: &str =
    "SELECT code, batch_id, place, sold, refunded, amount, redeemed FROM portal_vouchers \
     WHERE batch_id = ?1 ORDER BY place";

/// The first 51 vouchers, by their codes, from one text on and below another one.
pub const SELECT_VOUCHERS_BETWEEN: &str =
    "SELECT code, batch_id, place, sold, refunded, amount, redeemed FROM portal_vouchers \
     WHERE code >= ?1 AND code < ?2 ORDER BY code LIMIT 51";

/// The batch and the time of the sales between two times, in the order of issue.
pub const SELECT_SALES_AS_ISSUED: &str =
    "SELECT batch_id, sold FROM portal_vouchers WHERE sold >= ?1 AND sold <= ?2 ORDER BY rowid";

/// The vouchers that were sold between two times, by the time of sale.
pub const SELECT_SOLD_VOUCHERS: &str =
    "SELECT code, batch_id, place, sold, refunded, amount, redeemed FROM portal_vouchers \
     WHERE sold >= ?1 AND sold <= ?2 ORDER BY sold, code";

/// The vouchers that were refunded between two times, by the time of refund.
pub const SELECT_REFUNDED_VOUCHERS: &str =
    "SELECT code, batch_id, place, sold, refunded, amount, redeemed FROM portal_vouchers \
     WHERE refunded >= ?1 AND refunded <= ?2 ORDER BY refunded, code";

/// All vouchers.
pub const SELECT_ALL_VOUCHERS: &str =
    "SELECT code, batch_id, place, sold, refunded, amount, redeemed FROM portal_vouchers \
     ORDER BY rowid";

/// All vouchers, in the columns that the schema versions up to 5 have.
pub const SELECT_OLD_VOUCHERS: &str =
    "SELECT code, batch_id, place, sold, refunded, amount FROM portal_vouchers ORDER BY rowid";

pub const SET_SOLD: &str = "UPDATE portal_vouchers SET sold = ?2 WHERE code = ?1";

pub const SET_REFUNDED: &str =
    "UPDATE portal_vouchers SET refunded = ?2, amount = ?3 WHERE code = ?1";

pub const SET_REDEEMED: &str = "UPDATE portal_vouchers SET redeemed = ?2 WHERE code = ?1";

// ---- portal_sessions

pub const CREATE_SESSIONS: &str =
    "CREATE TABLE portal_sessions (number INTEGER PRIMARY KEY, device TEXT NOT NULL, \
     plan_id TEXT NOT NULL, opened INTEGER NOT NULL, used INTEGER NOT NULL, \
     closed INTEGER, ends INTEGER, remaining INTEGER) STRICT";

pub const DROP_SESSIONS: &str = "DROP TABLE portal_sessions";

/// The index by which the last session of a device is found.
pub const INDEX_SESSIONS_BY_DEVICE: &str =
    "CREATE INDEX portal_sessions_by_device ON portal_sessions (device, number)";

pub const INSERT_SESSION: &str =
    "INSERT INTO portal_sessions (number, device, plan_id, opened, used, ends, remaining) \
     VALUES (?1, ?2, ?3, ?4, 0, ?5, ?6)";

/// A session with its use, its close, its end and its remaining allowance.
pub const INSERT_WHOLE_SESSION: &str =
    "INSERT INTO portal_sessions (number, device, plan_id, opened, used, closed, ends, remaining) \
     VALUES (?1, ?2, ?3, ?4, ?5, ?6, ?7, ?8)";

/// The session with a number.
pub const SELECT_SESSION: &str =
    "SELECT number, device, plan_id, opened, used, closed, ends, remaining FROM portal_sessions \
     WHERE number = ?1";

/// The device's session with the greatest number.
pub const SELECT_LAST_SESSION: &str =
    "SELECT number, device, plan_id, opened, used, closed, ends, remaining FROM portal_sessions \
     WHERE device = ?1 ORDER BY number DESC LIMIT 1";

/// All sessions.
pub const SELECT_ALL_SESSIONS: &str =
    "SELECT number, device, plan_id, opened, used, closed, ends, remaining FROM portal_sessions \
     ORDER BY number";

/// All sessions, in the columns that the schema versions up to 5 have.
pub const SELECT_OLD_SESSIONS: &str =
    "SELECT number, device, plan_id, opened, used, closed FROM portal_sessions ORDER BY number";

/// The sessions that are open at a time: those that are not closed, end later or never, and have
/// something left of their allowance or no limit.
pub const SELECT_OPEN_SESSIONS: &str =
    "SELECT number, device, plan_id, opened, used, closed, ends, remaining FROM portal_sessions \
     WHERE closed IS NULL AND (ends IS NULL OR ends > ?1) AND (remaining IS NULL OR remaining > 0) \
     ORDER BY number";

pub const SET_USED: &str = "UPDATE portal_sessions SET used = ?2 WHERE number = ?1";

pub const SET_CLOSED: &str = "UPDATE portal_sessions SET closed = ?2 WHERE number = ?1";

pub const SET_SESSION_TOTAL: &str =
    "UPDATE portal_sessions SET ends = ?2, remaining = ?3 WHERE number = ?1";

// ---- portal_grants

pub const CREATE_GRANTS: &str =
    "CREATE TABLE portal_grants (number INTEGER PRIMARY KEY, code TEXT NOT NULL, \
     session INTEGER NOT NULL, moment INTEGER NOT NULL, seconds INTEGER NOT NULL, \
     bytes INTEGER NOT NULL) STRICT";

pub const DROP_GRANTS: &str = "DROP TABLE portal_grants";

/// The index by which the redemptions of a voucher are found.
pub const INDEX_GRANTS_BY_CODE: &str = "CREATE INDEX portal_grants_by_code ON portal_grants (code)";

pub const INSERT_GRANT: &str =
    "INSERT INTO portal_grants (number, code, session, moment, seconds, bytes) VALUES (?1, \
     ?2, ?3, ?4, ?5, ?6)";

/// The redemption with a number.
pub const SELECT_GRANT: &str =
    "SELECT number, code, session, moment, seconds, bytes FROM portal_grants WHERE number = ?1";

/// The last 101 redemptions of the voucher with a code, the newest first.
pub const SELECT_LAST_GRANTS: &str =
    "SELECT number, code, session, moment, seconds, bytes FROM portal_grants WHERE code = ?1 \
     ORDER BY number DESC LIMIT 101";

/// All redemptions.
pub const SELECT_ALL_GRANTS: &str =
    "SELECT number, code, session, moment, seconds, bytes FROM portal_grants ORDER BY number";

// ---- portal_counts, which the schema versions 2 to 5 have

pub const CREATE_COUNTS: &str =
    "CREATE TABLE portal_counts (code TEXT NOT NULL, redeemed INTEGER NOT NULL) STRICT";

pub const DROP_COUNTS: &str = "DROP TABLE portal_counts";

/// The counts of all vouchers.
pub const SELECT_OLD_COUNTS: &str = "SELECT code, redeemed FROM portal_counts ORDER BY rowid";

// ---- portal_totals, which the schema versions 2 to 5 have

pub const CREATE_TOTALS: &str =
    "CREATE TABLE portal_totals (number INTEGER PRIMARY KEY, ends INTEGER, remaining INTEGER) STRICT";

pub const DROP_TOTALS: &str = "DROP TABLE portal_totals";

/// The ends and the remaining allowances of all sessions.
pub const SELECT_OLD_TOTALS: &str =
    "SELECT number, ends, remaining FROM portal_totals ORDER BY number";

// ---- portal_requests

pub const CREATE_REQUESTS: &str =
    "CREATE TABLE portal_requests (caller TEXT NOT NULL, number TEXT NOT NULL, \
     method TEXT NOT NULL, path TEXT NOT NULL, body BLOB NOT NULL, kind INTEGER NOT NULL, \
     word TEXT, n1 INTEGER NOT NULL, n2 INTEGER, n3 INTEGER) STRICT";

pub const DROP_REQUESTS: &str = "DROP TABLE portal_requests";

/// The index by which a request is found by its caller and idempotency key.
pub const INDEX_REQUESTS_BY_KEY: &str =
    "CREATE INDEX portal_requests_by_key ON portal_requests (caller, number)";

pub const INSERT_REQUEST: &str =
    "INSERT INTO portal_requests (caller, number, method, path, body, kind, word, n1, n2, n3) \
     VALUES (?1, ?2, ?3, ?4, ?5, ?6, ?7, ?8, ?9, ?10)";

/// The request with a caller and an idempotency key.
pub const SELECT_REQUEST: &str =
    "SELECT caller, number, method, path, body, kind, word, n1, n2, n3 FROM portal_requests \
     WHERE caller = ?1 AND number = ?2";

/// All requests.
pub const SELECT_ALL_REQUESTS: &str =
    "SELECT caller, number, method, path, body, kind, word, n1, n2, n3 FROM portal_requests \
     ORDER BY rowid";
/// The caller and the idempotency key of each request.
pub const SELECT_ALL_REQUEST_KEYS: &str =
    "SELECT caller, number FROM portal_requests ORDER BY rowid";
