//! The order of voucher codes.
use portal_codes::{BadCode, Code};

/// Codes of either length, each less than the next. A code of twelve characters comes before the longer ones
/// that begin with it.
const ORDERED: &[&str] = &[
    "2222-2222-2222",
    "2222-2222-2222-2222",
    "2222-2222-2222-223H",
    "2222-2222-223N",
    "3N55-WA4S-KH53",
    "3N55-WA4S-KH5V-JR49",
];

/// Checks that the first code is less than the second.
fn are_ordered(less: &str, greater: &str) -> Result<bool, BadCode> {
    Ok(Code::read(less)? < Code::read(greater)?)
}

/// Each code is less than the next.
#[test]
fn code_order(rt: HostRuntime) {
    for (less, greater) in ORDERED.iter().zip(&ORDERED[1..]) {
        assert_eq!(rt; are_ordered(less, greater), Ok(true), "{less} {greater}");
    }
}
