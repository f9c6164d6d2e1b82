//! Reads the time from a clock.
ghost use Rattle.std.specs.Prelude.{◌≡◌, ℕ, min, Result, IfOk, IfErr, ⊤};
ghost use Rattle.std.specs.declared.io.Error.{Error as Why};
ghost use Rattle.std.specs.declared.time.Duration.{Duration as Since};
ghost use Rattle.portal_server.specs.Serving.{error_of_host, IsHostError};
ghost use Rattle.portal_server.specs.Turns.{IsMomentOf};

use crate::error::ProgramError;
use portal_model::moment::Moment;
use std::io::{self, ErrorKind};
use std::rt::Clock;
use std::thread;
use std::time::Duration;

/// A clock that can be read, and can wait. The ghosts name what it returned; no contract says more about a
/// clock.
pub trait WallClock {
    /// A result of reading the clock.
    ghost says: { Self → Result Since Why → Type 0 };

    /// A wait of so many seconds.
    ghost waits: { Self → ℕ → Type 0 };

    /// Reads the time since 1970.
    fn time_since_1970(&self) -> io::Result<Duration>
        ensures { says self.now result };

    /// Waits so many seconds.
    fn wait(&self, seconds: u64)
        ensures { waits self.now seconds };
}

impl<C: Clock> WallClock for C {
    ghost says = { λ _ _. ⊤ };

    ghost waits = { λ _ _. ⊤ };

    fn time_since_1970(&self) -> io::Result<Duration> {
        self.since_1970()
    }

    fn wait(&self, seconds: u64) {
        thread::sleep(self, Duration::from_secs(seconds));
    }
}

/// Returns the error for a clock or a source of seeds that failed: `NoMemory`, or `File`.
pub fn error_of_host(kind: ErrorKind) -> ProgramError
    ensures kind { result ≡ error_of_host kind }
    ensures host { IsHostError result }
{
    match kind {
        ErrorKind::OutOfMemory => ProgramError::NoMemory,
        _ => ProgramError::File,
    }
}

/// Returns the time at so many seconds since 1970, but at most the greatest time.
fn moment_at(seconds: u64) -> Moment
    ensures { result ≡ min seconds 253370764799 }
{
    match Moment::new(seconds.min(Moment::GREATEST)) {
        Some(moment) => moment,
        None => unreachable!(),
    }
}

/// Reads the time in whole UTC seconds since 1970: 0 before 1970, and at most the greatest time.
///
/// Errors: `File` if the clock fails, `NoMemory`. A clock that is set before 1970 returns `InvalidData`,
/// which is no error here.
pub fn moment_now<C: WallClock>(clock: &C) -> Result<Moment, ProgramError>
    ensures why { IfErr result IsHostError }
    ensures moment { IfOk result (λ moment.
        (said : Result Since Why) × C.says clock.now said × IsMomentOf said moment) }
{
    match clock.time_since_1970() {
        Ok(since) => Ok(moment_at(since.as_secs())),
        Err(io_error) => match io_error.kind() {
            ErrorKind::InvalidData => Ok(moment_at(0)),
            kind => Err(error_of_host(kind)),
        },
    }
}
