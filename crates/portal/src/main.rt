//! The program `portal`: the voucher and session desk behind a captive portal (RFC 8908).
#![tactic(auto)]

use portal_os::run_main;
use sqlite::Unknown;
use std::process::ExitCode;

/// Runs the program over the arguments, the files and the streams of the process, and ends it with the exit
/// code.
fn main(rt: HostRuntime) -> ExitCode {
    // of the disk it is supposed that a torn write leaves each byte old or new
    let status = run_main(
        &rt,
        Unknown,
        &mut rt.stdin(),
        &mut rt.stdout(),
        &mut rt.stderr(),
    );
    ExitCode::from(status)
}
