//! How many reads and writes an exchange makes.
use portal_tests_desks::desks::exchange_in_memory;
use portal_tests_desks::exchanges::{is_done, whole_peer};
use portal_tests_desks::requests::{CAPTIVE, MOMENT, REQUEST};
use std::alloc::Global;

/// The bytes that a client sends and takes at once, and the reads and the writes of the exchange.
const COUNTS: &[(usize, usize, usize, usize)] = &[
    (1, 1, 70, 224),
    (7, 7, 10, 32),
    (69, 69, 2, 4),
    (70, 70, 1, 4),
    (4_096, 4_096, 1, 1),
    (80_000, 80_000, 1, 1),
    (1, 1_000, 70, 1),
];

/// Returns the numbers of reads and writes of an exchange in which the guest is given the captive state.
fn count_calls(alloc: Global, size: usize, takes: usize) -> Option<(usize, usize)> {
    let mut peer = whole_peer(MOMENT, REQUEST, size);
    peer.takes = takes;
    let met = exchange_in_memory(alloc, &[peer])?.pop()?;
    if is_done(&met, 200, CAPTIVE.as_bytes()) {
        Some((met.reads, met.writes))
    } else {
        None
    }
}

/// An exchange makes as few reads and writes as the sizes allow.
#[test]
fn reads_and_writes_counted(rt: HostRuntime) {
    for (size, takes, reads, writes) in COUNTS {
        let counted = count_calls(rt.alloc(), *size, *takes);
        assert!(rt; counted == Some((*reads, *writes)), "{size}");
    }
}
