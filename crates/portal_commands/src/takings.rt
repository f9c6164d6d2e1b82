//! The subcommand `takings`.
ghost use Rattle.std.specs.Prelude.{MatchResult};
ghost use Rattle.portal_ledger.specs.Calls.{ReadsThat};
ghost use Rattle.portal_desk.specs.Calls.{CannotAnswer};
ghost use Rattle.portal_server.specs.Streams.{outlets};
ghost use Rattle.portal_server.specs.Asks.{KeepsSettings, LeadsDesk};
ghost use Rattle.portal_commands.specs.Asking.{
  IsDeskResult,
  IsReportOver,
  IsRangeFault,
  IsRangeText,
  PrintsOutput,
  PrintsTakingsOver,
  PrintsTakingsFrom,
};
ghost use Rattle.portal_commands.specs.Bounds.{place_value};

use crate::asking::{DeskQuestion, ask_database};
use crate::causes::UsageFault;
use crate::place::{Files, Place};
use crate::trouble::Trouble;
use portal_desk::Desk;
use portal_files::{read_day, takings_text};
use portal_model::calendar::DayRange;
use portal_model::refusal::Refusal;
use portal_server::{Output, ProgramError, print_result};
use std::alloc::Global;
use std::io::Write;

/// Reads a range of days from the texts of its first and its last day. Faults: `From` or `To`, if that text
/// is no date `YYYY-MM-DD` of the years 1969 to 9999; `Days`, if they are no range of at most 366 days.
pub fn read_range(from: &str, to: &str) -> Result<DayRange, UsageFault>
    ensures { MatchResult result (IsRangeText from.now to.now) (IsRangeFault from.now to.now) }
{
    let first = read_day(from).ok_or(UsageFault::From)?;
    let last = read_day(to).ok_or(UsageFault::To)?;
    DayRange::new(first, last).ok_or(UsageFault::Days)
}

/// Returns the takings report over the days. Refusals: `NoMemory`, `Stopped`.
fn takings_report<D: Desk>(alloc: Global, desk: &mut D, range: DayRange) -> Result<Vec<u8>, Refusal>
    ensures settings { KeepsSettings D.Desk desk.old desk.new }
    ensures report { LeadsDesk D.Desk desk.old desk.new (λ old new. MatchResult result
        (λ text. ReadsThat old (λ H. IsReportOver (D.settings desk.old).zone range H text.items) new)
        (λ r. CannotAnswer old r new)) }
{
    let days = desk.takings(alloc, range)?;
    match takings_text(alloc, days.as_slice()) {
        Ok(text) => Ok(text.into_bytes()),
        Err(_) => Err(Refusal::NoMemory),
    }
}

/// Returns the output of `takings`: the report over the days. Errors: the refusals of the desk.
fn output_of_takings<D: Desk>(
    alloc: Global,
    desk: &mut D,
    range: DayRange,
) -> Result<Output, ProgramError>
    ensures desk { IsDeskResult result }
    ensures settings { KeepsSettings D.Desk desk.old desk.new }
    ensures takings { LeadsDesk D.Desk desk.old desk.new (λ old new.
        PrintsTakingsOver (D.settings desk.old).zone range old result new) }
{
    match takings_report(alloc, desk, range) {
        Ok(text) => Ok(Output::Text(text)),
        Err(r) => Err(ProgramError::Refused(r)),
    }
}

/// Prints the takings report of the desk over the days on `output`, and returns the exit code: 0; or 1 if out
/// of memory; or 3 if the desk has stopped or not all of the report is written. The line of an error is
/// printed on `errors`.
pub fn takings_at<D: Desk, W: Write, E: Write>(
    alloc: Global,
    desk: &mut D,
    range: DayRange,
    output: &mut W,
    errors: &mut E,
) -> u8
    ensures settings { KeepsSettings D.Desk desk.old desk.new }
    ensures ends { PrintsOutput IsDeskResult
        (outlets W.Write E.Write output.old output.new errors.old errors.new) result }
    ensures takings { LeadsDesk D.Desk desk.old desk.new (λ old new.
        PrintsOutput (λ printout. PrintsTakingsOver (D.settings desk.old).zone range old printout new)
        (outlets W.Write E.Write output.old output.new errors.old errors.new) result) }
{
    let printout = output_of_takings(alloc, desk, range);
    print_result(&printout, output, errors)
}

/// Runs `takings`: prints the takings report of the database file over the days from `from` to `to` on
/// `output`, and returns the exit code.
///
/// The first of these errors that applies is printed: `usage`, exit code 2, with the fault that `read_range`
/// gives; those of `ask_database`.
pub fn takings<P: Place, W: Write, E: Write>(
    alloc: Global,
    place: P,
    files: Files<'_>,
    from: &str,
    to: &str,
    output: &mut W,
    errors: &mut E,
) -> u8
    ensures { PrintsTakingsFrom (place_value P.Place P.Stored.Desk place) files.entry from.now to.now
        (outlets W.Write E.Write output.old output.new errors.old errors.new) result }
{
    match read_range(from, to) {
        Err(fault) => Trouble::of_usage(alloc, fault).report(errors),
        Ok(range) => ask_database(
            alloc,
            place,
            files,
            &DeskQuestion::Takings(range),
            output,
            errors,
        ),
    }
}
