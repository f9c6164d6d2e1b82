//! Writes local times to the minute.

ghost use Rattle.std.specs.Prelude.{◌≡◌, IfOk, string_bytes};
ghost use Rattle.portal_files.specs.Minute.{minute_text, IsMinuteText};

use crate::days::local_time;
use crate::settings::Settings;
use jiff::civil::DateTime;
use portal_model::moment::Moment;
use std::alloc::{AllocError, Global};

/// Writes a date and time as `YYYY-MM-DD HH:MM`; the seconds are cut off. The only error is out of memory.
fn minute_text(alloc: Global, at: DateTime) -> Result<String, AllocError>
    ensures { IfOk result (λ text. string_bytes text ≡ minute_text at) }
{
    let date = at.date();
    let time = at.time().to_plain();
    let hour = time.hour;
    let minute = time.minute;
    format!(in alloc; "{date} {hour:02}:{minute:02}")
}

/// Writes the local time of a moment in the zone of the settings as `YYYY-MM-DD HH:MM`. The only error is
/// out of memory.
pub(crate) fn local_minute_text(
    alloc: Global,
    settings: &Settings,
    t: Moment,
) -> Result<String, AllocError>
    ensures { IfOk result (λ text. IsMinuteText settings.now.zone t (string_bytes text)) }
{
    minute_text(alloc, local_time(settings, t))
}
