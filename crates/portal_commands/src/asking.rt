//! What the subcommands `print`, `takings` and `check` share: each asks the desk one question.
ghost use Rattle.portal_server.specs.Streams.{outlets};
ghost use Rattle.portal_server.specs.Asks.{KeepsSettings, LeadsDesk};
ghost use Rattle.portal_commands.specs.Asking.{
  AsksOver,
  AsksRightly,
  IsDeskResult,
  IsRight,
  PrintsOutput,
  ResultOf,
};
ghost use Rattle.portal_commands.specs.Bounds.{place_value};

use crate::checking::check_at;
use crate::place::{Files, Place, Purpose, close_opened_desk, open_desk};
use crate::printing::print_at;
use crate::takings::takings_at;
use portal_desk::Desk;
use portal_model::calendar::DayRange;
use std::alloc::Global;
use std::io::Write;

/// A question to the desk.
#[derive(Clone, Copy, Debug)]
pub enum DeskQuestion<'a> {
    /// The print file of the batch with this id.
    Batch(&'a str),
    /// The takings report over these days.
    Takings(DayRange),
    /// Whether the counters of the database agree with its rows.
    Counters,
}

/// Asks the desk a question, prints the result, and returns the exit code, as `print_at`, `takings_at` and
/// `check_at` do.
pub fn ask_desk<D: Desk, W: Write, E: Write>(
    alloc: Global,
    desk: &mut D,
    question: &DeskQuestion<'_>,
    output: &mut W,
    errors: &mut E,
) -> u8
    ensures settings { KeepsSettings D.Desk desk.old desk.new }
    ensures ends { PrintsOutput IsDeskResult
        (outlets W.Write E.Write output.old output.new errors.old errors.new) result }
    ensures asks { LeadsDesk D.Desk desk.old desk.new (λ old new.
        PrintsOutput (λ printout. ResultOf question.entry.now (D.settings desk.old) old printout new)
        (outlets W.Write E.Write output.old output.new errors.old errors.new) result) }
    ensures exact { PrintsOutput
        (λ printout. D.is_fault_free desk.new → IsRight question.entry.now (D.audits desk.old) printout)
        (outlets W.Write E.Write output.old output.new errors.old errors.new) result }
{
    match *question {
        DeskQuestion::Batch(batch) => print_at(alloc, desk, batch, output, errors),
        DeskQuestion::Takings(range) => takings_at(alloc, desk, range, output, errors),
        DeskQuestion::Counters => check_at(alloc, desk, output, errors),
    }
}

/// Opens a database file that was made before, asks the desk over it a question, prints the result, closes
/// the file, and returns the exit code. Nothing is made at a path where there is no database.
///
/// The first of these errors that applies is printed: those of the settings file (`file`, `no_memory`,
/// `settings`); those of the database file (`file`, also if there is no database; `no_memory`, `not_ours`,
/// `newer`), each with exit code 3; those of `ask_desk`. An error of the close is printed last and does not
/// change the exit code.
pub fn ask_database<P: Place, W: Write, E: Write>(
    alloc: Global,
    place: P,
    files: Files<'_>,
    question: &DeskQuestion<'_>,
    output: &mut W,
    errors: &mut E,
) -> u8
    ensures over { AsksOver (place_value P.Place P.Stored.Desk place) files.entry
        (ResultOf question.entry.now)
        (outlets W.Write E.Write output.old output.new errors.old errors.new) result }
    ensures exact { AsksRightly (place_value P.Place P.Stored.Desk place) files.entry question.entry.now
        (outlets W.Write E.Write output.old output.new errors.old errors.new) result }
{
    match open_desk(alloc, place, files, Purpose::Ask) {
        Err(trouble) => trouble.report(errors),
        Ok(mut desk) => {
            let status = ask_desk(alloc, &mut desk, question, output, errors);
            close_opened_desk::<P, E>(alloc, files.db, desk, errors);
            status
        }
    }
}
