//! The subcommand `answer`.
ghost use Rattle.std.specs.Prelude.{
  ◌≡◌,
  ⊤,
  ℕ,
  List,
  Bool,
  IfErr,
  IfOk,
  MatchResult,
  Option,
  Result,
  Ok,
  None,
  Some,
};
ghost use Rattle.std.specs.Borrow.{Bor};
ghost use Rattle.hex.specs.Hex.{decode_of};
ghost use Rattle.portal_ledger.specs.Ledger.{Ledger};
ghost use Rattle.portal_ledger.specs.States.{running};
ghost use Rattle.portal_desk.specs.Calls.{is_stopped_state};
ghost use Rattle.portal_files.specs.Sample.{IsSample};
ghost use Rattle.portal_http.specs.Headline.{Survives};
ghost use Rattle.portal_http.specs.Runs.{ServesInOrder};
ghost use Rattle.portal_server.specs.Asks.{KeepsSettings, LeadsDesk};
ghost use Rattle.portal_server.specs.Turns.{wire_of};
ghost use Rattle.portal_commands.specs.Places.{AreReadSettings};
ghost use Rattle.portal_commands.specs.Bounds.{place_value};
ghost use Rattle.portal_commands.specs.Answering.{
  exit_code_for,
  EndsAnswering,
  EndsStatus,
  IsFaultOf,
  IsInRange,
  IsOfNamed,
  AnswersFresh,
  AnswersStored,
  IsAnswered,
  EndsAnswer,
};

use crate::causes::UsageFault;
use crate::place::{Place, Purpose, close_opened_desk, read_settings_at};
use crate::seed::read_seed;
use crate::trouble::Trouble;
use portal_desk::Desk;
use portal_files::{Settings, sample_settings};
use portal_http::exchanges::exchange;
use portal_http_routes::Routes;
use portal_model::moment::Moment;
use portal_server::ProgramError;
use std::alloc::Global;
use std::io::{Read, Write};

/// The options of `answer`.
#[derive(Clone, Copy, Debug)]
pub struct AnswerOptions<'a> {
    /// The path of the database file. None: an empty database in memory.
    pub db: Option<&'a str>,
    /// The path of the settings file. None: the sample settings.
    pub settings: Option<&'a str>,
    /// The time of the request, in whole seconds UTC since 1970.
    pub now: u64,
    /// The seed of a batch, as 64 hexadecimal digits.
    pub seed: &'a str,
}

/// Returns the exit code after a response: 0 after 200, 3 after the 503 of a desk that has stopped, 1 after
/// any other status.
fn exit_code_for(status: u16, is_stopped: bool) -> u8
    ensures { result ≡ exit_code_for status is_stopped }
{
    if status == 200 {
        0
    } else if status == 503 && is_stopped {
        3
    } else {
        1
    }
}

/// Answers the request on `input` with a response on `output` by a desk, as `exchange` does, and returns the
/// exit code: 0 after status 200, 3 after a 503 if the desk has then stopped, 1 after any other status.
/// Error: `Cut`, if a read or a write fails or there is no memory for the request or for any response.
pub fn answer_at<D: Desk, R: Read, W: Write>(
    alloc: Global,
    desk: &mut D,
    routes: &Routes,
    moment: Moment,
    seed: [u8; 32],
    input: &mut R,
    output: &mut W,
) -> Result<u8, ProgramError>
    ensures settings { KeepsSettings D.Desk desk.old desk.new }
    ensures wire { (is_stopped : Bool)
        × EndsAnswering (wire_of R.Read W.Write input.old input.new output.old output.new)
        moment seed (λ arrivals responses. ⊤) is_stopped result }
    ensures serves { LeadsDesk D.Desk desk.old desk.new (λ old new.
        EndsAnswering (wire_of R.Read W.Write input.old input.new output.old output.new) moment seed
        (λ arrivals responses. ServesInOrder (D.settings desk.old) old arrivals responses new)
        (is_stopped_state new) result) }
    ensures survives { D.is_fault_free desk.new → (L : Ledger) → D.represents desk.old (running L)
        → (is_stopped : Bool)
        × EndsAnswering (wire_of R.Read W.Write input.old input.new output.old output.new) moment seed
        (λ arrivals responses. Survives D.Files (D.is_crash_state desk.new) D.holds_ledger
        (D.settings desk.old) L arrivals responses)
        is_stopped result }
{
    let mut kept = None;
    match exchange(alloc, desk, routes, &mut kept, moment, seed, input, output) {
        Ok(done) => Ok(exit_code_for(done.status, desk.is_stopped())),
        Err(_) => Err(ProgramError::Cut),
    }
}

/// Validates the time and the seed of the command line. Faults: `Now`, if the time is past the greatest one;
/// `Seed`, if the seed is not 64 hexadecimal digits.
fn read_options(now: u64, seed: &str) -> Result<(Moment, [u8; 32]), UsageFault>
    ensures { MatchResult result
        (λ values. IsInRange now seed.now × (values.0 ≡ now) × (decode_of seed.now ≡ Ok values.1))
        (IsFaultOf now seed.now) }
{
    match Moment::new(now) {
        None => Err(UsageFault::Now),
        Some(moment) => match read_seed(seed) {
            None => Err(UsageFault::Seed),
            Some(seed) => Ok((moment, seed)),
        },
    }
}

/// Reads the settings file at a path, or makes the sample settings if there is no path. Errors: those of
/// `read_settings_at`; `NoMemory` for the sample settings.
fn settings_or_sample<P: Place>(
    alloc: Global,
    place: &P,
    path: Option<&str>,
) -> Result<Settings, Trouble>
    ensures sample { IfOk result (λ settings. path.entry ≡ None → IsSample settings) }
    ensures read { IfOk result (λ settings.
        (file : Bor (List ℕ)) → path.entry ≡ Some file
        → AreReadSettings (P.reads place.now file.now) settings) }
    ensures why { IfErr result (IsOfNamed (P.reads place.now) (P.fails_to_read place.now) path.entry) }
{
    match path {
        Some(path) => read_settings_at(alloc, place, path),
        None => sample_settings(alloc).map_err(|_| Trouble::plain(ProgramError::NoMemory)),
    }
}

/// Returns the exit code of an answer. If the answer failed, prints the line of the error first.
fn exit_code_of_answer<E: Write>(answered: Result<u8, ProgramError>, errors: &mut E) -> u8
    ensures { EndsStatus answered (E.contents errors.old) (E.contents errors.new) result }
{
    match answered {
        Ok(status) => status,
        Err(error) => error.report(errors),
    }
}

/// Answers one request by a desk over an empty database in memory, and returns the exit code. Errors: those
/// of the database, before anything is read, and `Cut`.
fn answer_in_memory<P: Place, R: Read, W: Write, E: Write>(
    alloc: Global,
    settings: Settings,
    routes: &Routes,
    moment: Moment,
    seed: [u8; 32],
    input: &mut R,
    output: &mut W,
    errors: &mut E,
) -> u8
    ensures { AnswersFresh P.fails_to_make
        (wire_of R.Read W.Write input.old input.new output.old output.new)
        (E.contents errors.old) (E.contents errors.new) moment seed settings result }
{
    match P::open_desk_in_memory(alloc, settings) {
        Err(error) => error.report(errors),
        Ok(mut desk) => {
            let answered = answer_at(alloc, &mut desk, routes, moment, seed, input, output);
            P::close_desk_in_memory(desk);
            exit_code_of_answer(answered, errors)
        }
    }
}

/// Answers one request by a desk over a database file, closes the file, and returns the exit code. Errors:
/// those of the file, before anything is read, and `Cut`. An error of the close is printed last and does not
/// change the exit code.
fn answer_from_file<P: Place, R: Read, W: Write, E: Write>(
    alloc: Global,
    place: P,
    path: &str,
    settings: Settings,
    routes: &Routes,
    moment: Moment,
    seed: [u8; 32],
    input: &mut R,
    output: &mut W,
    errors: &mut E,
) -> u8
    ensures { AnswersStored (place_value P.Place P.Stored.Desk place) path.entry.now
        (wire_of R.Read W.Write input.old input.new output.old output.new)
        (E.contents errors.old) (E.contents errors.new) moment seed settings result }
{
    match place.open(alloc, path, settings, Purpose::Answer) {
        Err((trouble, _left)) => trouble.report(errors),
        Ok(mut desk) => {
            let answered = answer_at(alloc, &mut desk, routes, moment, seed, input, output);
            let status = exit_code_of_answer(answered, errors);
            close_opened_desk::<P, E>(alloc, path, desk, errors);
            status
        }
    }
}

/// Answers one request, with the time, the seed and the settings that were read, and returns the exit code.
fn answer_with_settings<P: Place, R: Read, W: Write, E: Write>(
    alloc: Global,
    place: P,
    db: Option<&str>,
    settings: Settings,
    moment: Moment,
    seed: [u8; 32],
    input: &mut R,
    output: &mut W,
    errors: &mut E,
) -> u8
    ensures { IsAnswered (place_value P.Place P.Stored.Desk place)
        (wire_of R.Read W.Write input.old input.new output.old output.new)
        (E.contents errors.old) (E.contents errors.new) moment seed db.entry settings result }
{
    let Ok(routes) = Routes::new(alloc) else {
        return ProgramError::NoMemory.report(errors);
    };
    match db {
        None => answer_in_memory::<P, R, W, E>(
            alloc, settings, &routes, moment, seed, input, output, errors,
        ),
        Some(path) => answer_from_file(
            alloc, place, path, settings, &routes, moment, seed, input, output, errors,
        ),
    }
}

/// Runs `answer`: answers the request on `input` with a response on `output`, and returns the exit code: 0 if
/// the status of the response is 200, 3 if it is 503 and the desk has then stopped, 1 for any other status.
///
/// An error is printed on `errors`. The first of these that applies is the one, and all but the last are
/// found before anything is read: `usage`, exit code 2, if `now` is past the greatest time, 253,370,764,799,
/// or `seed` is not 64 hexadecimal digits; the errors of the settings file (`file`, `no_memory`, `settings`);
/// the errors of the database file (`file`, `no_memory`, `not_ours`, `newer`); `cut`, if a read or a write
/// fails or there is no memory for the request or for any response. All of these but `usage` have exit code
/// 3. The database file is then closed; an error of the close is printed last and does not change the exit
/// code.
pub fn answer<P: Place, R: Read, W: Write, E: Write>(
    alloc: Global,
    place: P,
    request: &AnswerOptions<'_>,
    input: &mut R,
    output: &mut W,
    errors: &mut E,
) -> u8
    ensures { EndsAnswer (place_value P.Place P.Stored.Desk place)
        (wire_of R.Read W.Write input.old input.new output.old output.new)
        (E.contents errors.old) (E.contents errors.new) request.entry.now result }
{
    let (moment, seed) = match read_options(request.now, request.seed) {
        Ok(values) => values,
        Err(fault) => return Trouble::of_usage(alloc, fault).report(errors),
    };
    match settings_or_sample(alloc, &place, request.settings) {
        Err(trouble) => trouble.report(errors),
        Ok(settings) => answer_with_settings(
            alloc, place, request.db, settings, moment, seed, input, output, errors,
        ),
    }
}
