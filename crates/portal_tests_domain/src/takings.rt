//! Takings past 64 bits, and their report.
use portal_core::{Day, DayRange, DayTakings, add_takings};
use portal_files::takings_text;
use std::alloc::Global;

/// Adds up the takings of the leap year 2020, of which two days have some: on the second day two sales that
/// are past 64 bits together, on the last day a refund. Sales before and after the year are not counted.
fn takings_of_year(alloc: Global) -> Option<Vec<DayTakings>> {
    let range = DayRange::new(Day::new(18_262)?, Day::new(18_627)?)?;
    let most = (Day::new(18_263)?, u64::MAX);
    let after = (Day::new(18_628)?, 300);
    let before = (Day::new(18_261)?, 300);
    let refund = (Day::new(18_627)?, 333);
    add_takings(alloc, range, &[most, after, most, before], &[refund]).ok()
}

/// Returns the takings that a day of that year has to have.
fn expected_takings(day: Day) -> DayTakings {
    let (sold, sales, refunded, refunds) = match day.get() {
        18_263 => (2, 36_893_488_147_419_103_230, 0, 0),
        18_627 => (0, 0, 1, 333),
        _ => (0, 0, 0, 0),
    };
    DayTakings {
        day,
        sold,
        sales,
        refunded,
        refunds,
    }
}

/// The takings of a year are right, also where two sales are past 64 bits together.
#[test]
fn takings_past_64_bits(rt: HostRuntime) {
    let days = takings_of_year(rt.alloc()).expect(&rt, "takings");
    assert_eq!(rt; days.len(), 366);
    for takings in &days {
        assert_eq!(rt; *takings, expected_takings(takings.day));
    }
}

/// Returns takings whose amounts are wider than their columns.
fn wide_takings(day: Day) -> DayTakings {
    DayTakings {
        day,
        sold: 123_456_789,
        sales: 1_234_567_890_123_456_705,
        refunded: 99,
        refunds: 100,
    }
}

/// Their report.
const WIDE: &str = "day            sold             sales refunded           refunds\n\
    1970-01-01 123456789 12345678901234567.05       99              1.00\n\
    total      123456789 12345678901234567.05       99              1.00\n\
    net 12345678901234566.05\n";

/// Returns takings with the greatest amounts, and with one below a whole unit of money.
fn widest_takings(day: Day) -> DayTakings {
    DayTakings {
        day,
        sold: u64::MAX,
        sales: u128::MAX,
        refunded: 2,
        refunds: 99,
    }
}

/// Their report.
const WIDEST: &str = "day            sold             sales refunded           refunds\n\
    9999-12-31 18446744073709551615 3402823669209384634633746074317682114.55        2              0.99\n\
    total      18446744073709551615 3402823669209384634633746074317682114.55        2              0.99\n\
    net 3402823669209384634633746074317682113.56\n";

/// The report of no day.
const NONE: &str = "day            sold             sales refunded           refunds\n\
    total             0              0.00        0              0.00\n\
    net 0.00\n";

/// Returns the report of one day.
fn report_of(alloc: Global, takings: DayTakings) -> Option<String> {
    takings_text(alloc, &[takings]).ok()
}

/// Checks that a report was made and is this text.
fn is_report(report: Option<String>, wanted: &str) -> bool {
    match report {
        Some(text) => text.as_bytes() == wanted.as_bytes(),
        None => false,
    }
}

/// Reports with the widest amounts, and the report of no day, are right.
#[test]
fn wide_sums(rt: HostRuntime) {
    let first = Day::new(0).expect(&rt, "a day");
    assert!(rt;
        is_report(report_of(rt.alloc(), wide_takings(first)), WIDE),
        "wide"
    );
    let last = Day::new(2_932_896).expect(&rt, "a day");
    assert!(rt;
        is_report(report_of(rt.alloc(), widest_takings(last)), WIDEST),
        "widest"
    );
    assert!(rt; is_report(takings_text(rt.alloc(), &[]).ok(), NONE), "none");
}
