//! The subcommand `check`.
ghost use Rattle.portal_server.specs.Streams.{outlets};
ghost use Rattle.portal_server.specs.Asks.{KeepsSettings, LeadsDesk};
ghost use Rattle.portal_commands.specs.Asking.{
  AsksOver,
  AsksRightly,
  IsDeskResult,
  ChecksCounters,
  PrintsOutput,
  AuditIsRight,
};
ghost use Rattle.portal_commands.specs.declared.asking.DeskQuestion.TheVariants.{Counters};
ghost use Rattle.portal_commands.specs.Bounds.{place_value};

use crate::asking::{DeskQuestion, ask_database};
use crate::place::{Files, Place};
use portal_desk::Desk;
use portal_server::{Output, ProgramError, print_result};
use std::alloc::Global;
use std::io::Write;

/// Compares the counters of the database with its rows, and returns the output of `check`. Errors: the
/// refusals of the desk.
fn output_of_check<D: Desk>(alloc: Global, desk: &mut D) -> Result<Output, ProgramError>
    ensures desk { IsDeskResult result }
    ensures settings { KeepsSettings D.Desk desk.old desk.new }
    ensures check { LeadsDesk D.Desk desk.old desk.new (λ old new. ChecksCounters old result new) }
    ensures exact { D.is_fault_free desk.new → AuditIsRight (D.audits desk.old) result }
{
    match desk.audit(alloc) {
        Ok(true) => Ok(Output::Agrees),
        Ok(false) => Ok(Output::Differs),
        Err(r) => Err(ProgramError::Refused(r)),
    }
}

/// Prints `ok` on `output` if the counters of the desk's database agree with its rows, else `differs`, and
/// returns the exit code: 0 for `ok`; 1 for `differs` and out of memory; 3 if the desk has stopped or not all
/// of the word is written. The line of an error is printed on `errors`.
pub fn check_at<D: Desk, W: Write, E: Write>(
    alloc: Global,
    desk: &mut D,
    output: &mut W,
    errors: &mut E,
) -> u8
    ensures settings { KeepsSettings D.Desk desk.old desk.new }
    ensures ends { PrintsOutput IsDeskResult
        (outlets W.Write E.Write output.old output.new errors.old errors.new) result }
    ensures check { LeadsDesk D.Desk desk.old desk.new (λ old new.
        PrintsOutput (λ printout. ChecksCounters old printout new)
        (outlets W.Write E.Write output.old output.new errors.old errors.new) result) }
    ensures exact { PrintsOutput
        (λ printout. D.is_fault_free desk.new → AuditIsRight (D.audits desk.old) printout)
        (outlets W.Write E.Write output.old output.new errors.old errors.new) result }
{
    let printout = output_of_check(alloc, desk);
    print_result(&printout, output, errors)
}

/// Runs `check`: prints on `output` whether the counters of the database file agree with its rows, `ok` or
/// `differs`, and returns the exit code.
///
/// The errors are those of `ask_database`, in its order.
pub fn check<P: Place, W: Write, E: Write>(
    alloc: Global,
    place: P,
    files: Files<'_>,
    output: &mut W,
    errors: &mut E,
) -> u8
    ensures over { AsksOver (place_value P.Place P.Stored.Desk place) files.entry (λ settings. ChecksCounters)
        (outlets W.Write E.Write output.old output.new errors.old errors.new) result }
    ensures exact { AsksRightly (place_value P.Place P.Stored.Desk place) files.entry Counters
        (outlets W.Write E.Write output.old output.new errors.old errors.new) result }
{
    ask_database(alloc, place, files, &DeskQuestion::Counters, output, errors)
}
