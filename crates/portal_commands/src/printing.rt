//! The subcommand `print`.
ghost use Rattle.std.specs.Prelude.{MatchResult};
ghost use Rattle.portal_ledger.specs.Calls.{ReadsThat};
ghost use Rattle.portal_desk.specs.Calls.{RefusesUnknown};
ghost use Rattle.portal_desk.specs.Sheets.{sheet_of};
ghost use Rattle.portal_server.specs.Streams.{outlets};
ghost use Rattle.portal_server.specs.Asks.{KeepsSettings, LeadsDesk};
ghost use Rattle.portal_commands.specs.Asking.{
  AsksOver,
  IsDeskResult,
  IsBatchFile,
  PrintsBatch,
  PrintsOutput,
};
ghost use Rattle.portal_commands.specs.Bounds.{place_value};

use crate::asking::{DeskQuestion, ask_database};
use crate::place::{Files, Place};
use portal_desk::Desk;
use portal_files::print_batch;
use portal_model::name::Id;
use portal_model::refusal::Refusal;
use portal_server::{Output, ProgramError, print_result};
use std::alloc::Global;
use std::io::Write;

/// Returns the print file of a batch. Refusals: `UnknownBatch`, `NoMemory`, `Stopped`.
fn batch_file<D: Desk>(alloc: Global, desk: &mut D, id: &Id) -> Result<Vec<u8>, Refusal>
    ensures settings { KeepsSettings D.Desk desk.old desk.new }
    ensures file { LeadsDesk D.Desk desk.old desk.new (λ old new. MatchResult result
        (λ text. ReadsThat old (λ H. IsBatchFile (D.settings desk.old).zone id.now H text.items) new)
        (λ r. RefusesUnknown Refusal.UnknownBatch (λ H. sheet_of H id.now) old r new)) }
{
    let sheet = desk.batch(alloc, id)?;
    match print_batch(alloc, desk.settings(), &sheet) {
        Ok(text) => Ok(text),
        Err(_) => Err(Refusal::NoMemory),
    }
}

/// Returns the output of `print`: the print file of the batch with this id. Errors: the refusals of the desk;
/// `unknown_batch` also if the text is no valid id.
fn output_of_print<D: Desk>(
    alloc: Global,
    desk: &mut D,
    batch: &str,
) -> Result<Output, ProgramError>
    ensures desk { IsDeskResult result }
    ensures settings { KeepsSettings D.Desk desk.old desk.new }
    ensures print { LeadsDesk D.Desk desk.old desk.new (λ old new.
        PrintsBatch (D.settings desk.old).zone batch.now old result new) }
{
    let Some(id) = Id::read(batch) else {
        return Err(ProgramError::Refused(Refusal::UnknownBatch));
    };
    match batch_file(alloc, desk, &id) {
        Ok(text) => Ok(Output::Text(text)),
        Err(r) => Err(ProgramError::Refused(r)),
    }
}

/// Prints the print file of a batch of the desk on `output`, and returns the exit code: 0; or 1 if there is
/// no such batch, also if `batch` is no valid id, and if out of memory; or 3 if the desk has stopped or not
/// all of the file is written. The line of an error is printed on `errors`.
pub fn print_at<D: Desk, W: Write, E: Write>(
    alloc: Global,
    desk: &mut D,
    batch: &str,
    output: &mut W,
    errors: &mut E,
) -> u8
    ensures settings { KeepsSettings D.Desk desk.old desk.new }
    ensures ends { PrintsOutput IsDeskResult
        (outlets W.Write E.Write output.old output.new errors.old errors.new) result }
    ensures print { LeadsDesk D.Desk desk.old desk.new (λ old new.
        PrintsOutput (λ printout. PrintsBatch (D.settings desk.old).zone batch.now old printout new)
        (outlets W.Write E.Write output.old output.new errors.old errors.new) result) }
{
    let printout = output_of_print(alloc, desk, batch);
    print_result(&printout, output, errors)
}

/// Runs `print`: prints the print file of a batch in the database file on `output`, and returns the exit
/// code.
///
/// The errors are those of `ask_database`, in its order.
pub fn print<P: Place, W: Write, E: Write>(
    alloc: Global,
    place: P,
    files: Files<'_>,
    batch: &str,
    output: &mut W,
    errors: &mut E,
) -> u8
    ensures { AsksOver (place_value P.Place P.Stored.Desk place) files.entry
        (λ settings. PrintsBatch settings.zone batch.now)
        (outlets W.Write E.Write output.old output.new errors.old errors.new) result }
{
    ask_database(
        alloc,
        place,
        files,
        &DeskQuestion::Batch(batch),
        output,
        errors,
    )
}
