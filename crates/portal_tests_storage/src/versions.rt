//! SQL that makes a database of schema version 1, and what each later version adds: the first has no
//! counters, and the first two keep no requests. The fifth makes all tables itself, without clauses.

/// The tables of schema version 1.
pub const FIRST: &str = "CREATE TABLE portal_head (id INTEGER PRIMARY KEY, layout INTEGER NOT NULL,
    last_moment INTEGER NOT NULL, grants INTEGER NOT NULL, sessions INTEGER NOT NULL) STRICT;
    CREATE TABLE portal_plans (id TEXT NOT NULL PRIMARY KEY, price INTEGER NOT NULL, uses INTEGER NOT NULL,
    seconds INTEGER NOT NULL, bytes INTEGER NOT NULL, shelf_days INTEGER NOT NULL,
    extend INTEGER NOT NULL) STRICT;
    CREATE TABLE portal_batches (id TEXT NOT NULL PRIMARY KEY,
    plan_id TEXT NOT NULL REFERENCES portal_plans (id), issued INTEGER NOT NULL, expires INTEGER NOT NULL, size INTEGER NOT NULL) STRICT;
    CREATE TABLE portal_vouchers (code TEXT NOT NULL PRIMARY KEY,
    batch_id TEXT NOT NULL REFERENCES portal_batches (id), place INTEGER NOT NULL, sold INTEGER,
    refunded INTEGER, amount INTEGER, UNIQUE (batch_id, place)) STRICT;
    CREATE TABLE portal_sessions (number INTEGER PRIMARY KEY, device TEXT NOT NULL,
    plan_id TEXT NOT NULL REFERENCES portal_plans (id), opened INTEGER NOT NULL, used INTEGER NOT NULL,
    closed INTEGER) STRICT;
    CREATE TABLE portal_grants (number INTEGER PRIMARY KEY,
    code TEXT NOT NULL REFERENCES portal_vouchers (code),
    session INTEGER NOT NULL REFERENCES portal_sessions (number), moment INTEGER NOT NULL,
    seconds INTEGER NOT NULL, bytes INTEGER NOT NULL) STRICT;
    INSERT INTO portal_head VALUES (1, 1, 1000, 2, 2)";

/// A gigabyte redeemed and used up, and an hour redeemed, both from 1000 on. A voucher was sold and not
/// redeemed, and one was not sold.
pub const ROWS: &str =
    "INSERT INTO portal_plans VALUES ('hour', 300, 1, 3600, 0, 30, 1), ('gig', 500, 3, 0, 1073741824, 30, 0);
    INSERT INTO portal_batches VALUES ('b1', 'gig', 1000, 2593000, 3), ('b2', 'hour', 1000, 2593000, 1);
    INSERT INTO portal_vouchers VALUES ('2222-2222-223N', 'b1', 0, 1000, NULL, NULL),
    ('2222-2222-2222', 'b1', 1, 1000, NULL, NULL), ('2222-2222-2249', 'b1', 2, NULL, NULL, NULL),
    ('3N55-WA4S-KH53', 'b2', 0, 1000, NULL, NULL);
    INSERT INTO portal_sessions VALUES (1, '02:00:00:00:00:02', 'gig', 1000, 1073741824, NULL),
    (2, '02:00:00:00:00:01', 'hour', 1000, 0, NULL);
    INSERT INTO portal_grants VALUES (1, '2222-2222-223N', 1, 1000, 0, 1073741824),
    (2, '3N55-WA4S-KH53', 2, 1000, 3600, 0)";

/// The tables of the counters.
pub const SECOND: &str =
    "CREATE TABLE portal_counts (code TEXT NOT NULL PRIMARY KEY REFERENCES portal_vouchers (code),
    redeemed INTEGER NOT NULL) STRICT;
    CREATE TABLE portal_totals (number INTEGER PRIMARY KEY REFERENCES portal_sessions (number),
    ends INTEGER, remaining INTEGER) STRICT;
    UPDATE portal_head SET layout = 2";

/// The counters.
pub const COUNTERS: &str =
    "INSERT INTO portal_counts VALUES ('2222-2222-223N', 1), ('2222-2222-2222', 0), ('2222-2222-2249', 0),
    ('3N55-WA4S-KH53', 1);
    INSERT INTO portal_totals VALUES (1, NULL, 0), (2, 4600, NULL)";

/// The table of the requests.
pub const THIRD: &str =
    "CREATE TABLE portal_requests (caller TEXT NOT NULL, number TEXT NOT NULL, method TEXT NOT NULL,
    path TEXT NOT NULL,
    body BLOB NOT NULL, kind INTEGER NOT NULL, word TEXT, n1 INTEGER NOT NULL, n2 INTEGER, n3 INTEGER,
    PRIMARY KEY (caller, number)) STRICT;
    UPDATE portal_head SET layout = 3";

/// A request that is kept.
pub const REQUEST: &str =
    "INSERT INTO portal_requests VALUES ('02:00:00:00:00:01', 'r-1', 'POST', '/portal/redeem', x'7b7d', 4,
    NULL, 2, 0, 0)";

/// The index of the sessions.
pub const FOURTH: &str =
    "CREATE INDEX portal_sessions_by_device ON portal_sessions (device, number);
    UPDATE portal_head SET layout = 4";

/// The tables of schema version 5, without clauses, and two of its indexes.
pub const FIFTH: &str = "CREATE TABLE portal_head (id INTEGER PRIMARY KEY, layout INTEGER NOT NULL,
    last_moment INTEGER NOT NULL, grants INTEGER NOT NULL, sessions INTEGER NOT NULL) STRICT;
    CREATE TABLE portal_plans (id TEXT NOT NULL, price INTEGER NOT NULL, uses INTEGER NOT NULL,
    seconds INTEGER NOT NULL, bytes INTEGER NOT NULL, shelf_days INTEGER NOT NULL,
    extend INTEGER NOT NULL) STRICT;
    CREATE TABLE portal_batches (id TEXT NOT NULL, plan_id TEXT NOT NULL, issued INTEGER NOT NULL,
    expires INTEGER NOT NULL, size INTEGER NOT NULL) STRICT;
    CREATE TABLE portal_vouchers (code TEXT NOT NULL, batch_id TEXT NOT NULL, place INTEGER NOT NULL,
    sold INTEGER, refunded INTEGER, amount INTEGER) STRICT;
    CREATE TABLE portal_sessions (number INTEGER PRIMARY KEY, device TEXT NOT NULL, plan_id TEXT NOT NULL,
    opened INTEGER NOT NULL, used INTEGER NOT NULL, closed INTEGER) STRICT;
    CREATE TABLE portal_grants (number INTEGER PRIMARY KEY, code TEXT NOT NULL, session INTEGER NOT NULL,
    moment INTEGER NOT NULL, seconds INTEGER NOT NULL, bytes INTEGER NOT NULL) STRICT;
    CREATE TABLE portal_counts (code TEXT NOT NULL, redeemed INTEGER NOT NULL) STRICT;
    CREATE TABLE portal_totals (number INTEGER PRIMARY KEY, ends INTEGER, remaining INTEGER) STRICT;
    CREATE TABLE portal_requests (caller TEXT NOT NULL, number TEXT NOT NULL, method TEXT NOT NULL,
    path TEXT NOT NULL, body BLOB NOT NULL, kind INTEGER NOT NULL, word TEXT, n1 INTEGER NOT NULL, n2 INTEGER,
    n3 INTEGER) STRICT;
    CREATE INDEX portal_sessions_by_device ON portal_sessions (device, number);
    CREATE INDEX portal_counts_by_code ON portal_counts (code);
    INSERT INTO portal_head VALUES (1, 5, 1000, 2, 2)";
