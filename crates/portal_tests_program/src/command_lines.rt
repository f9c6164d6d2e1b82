//! The port and the number of connections that the command line of `serve` gives.
use portal_commands::command_line::parse_command_line;
use portal_commands::order::Order;
use std::alloc::Global;

/// Arguments, with the port and the number of connections that they give.
const SERVED: &[(&[&str], u64, u64)] = &[
    (
        &["portal", "serve", "--db", "x", "--settings", "y"],
        8080,
        1_000_000_000,
    ),
    (
        &[
            "portal",
            "serve",
            "--port=65535",
            "--count=1",
            "--settings=y",
            "--db=x",
        ],
        65_535,
        1,
    ),
];

/// Returns the port and the number of connections that the arguments give, if they are an order to serve the
/// database `x` with the settings `y`.
fn serve_options(alloc: Global, words: &[&str]) -> Option<(u64, u64)> {
    match parse_command_line(alloc, words) {
        Ok(
            Order::Serve {
                db: "x",
                settings: "y",
                port,
                count,
            },
        ) => Some((port, count)),
        _ => None,
    }
}

/// `serve` has the default port 8080 and the default count 1,000,000,000, and takes other values.
#[test]
fn serve_defaults(rt: HostRuntime) {
    for (words, port, count) in SERVED {
        assert_eq!(rt; serve_options(rt.alloc(), words), Some((*port, *count)));
    }
}
