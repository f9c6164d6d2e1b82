//! The server: one connection after another, each with the time of the clock and a fresh seed. Also what the
//! program prints, and its exit code.
#![tactic(auto)]

mod clock;
mod command;
mod ending;
mod error;
mod host;
mod loopback;
mod peers;
mod printing;
mod seeds;
mod serving;

pub use clock::{WallClock, moment_now};
pub use command::serve;
pub use ending::{Output, print_for_exit_code, print_result};
pub use error::ProgramError;
pub use host::Host;
pub use loopback::{Loopback, Socket, bind_loopback, loopback_address};
pub use peers::serve_peer;
pub use printing::{print_best_effort, print_text};
pub use seeds::{SeedSource, fresh_seed};
pub use serving::serve_connections;
