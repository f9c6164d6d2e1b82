//! Makes the order of each subcommand from the arguments that clap found.
ghost use Rattle.std.specs.Prelude.{◌≡◌, ℕ, List, option_map, MatchOption};
ghost use Rattle.std.specs.Borrow.{Bor};
ghost use Rattle.clap.specs.Words.{first_of, found_of, rows_of};
ghost use Rattle.portal_commands.specs.Orders.{
  FindsOrder,
  GivesNumber,
  GivesFiles,
  IsServeOrder,
  IsAnswerOrder,
  IsPrintOrder,
  IsTakingsOrder,
  IsCheckOrder,
};

use crate::order::Order;
use clap::ArgMatches;

/// Returns the text that an option was given. None if it was left out.
fn option_text<'a>(found: &ArgMatches<'a>, name: &str) -> Option<&'a str>
    ensures { option_map (λ s. s.now) result ≡ first_of name.now (rows_of (found_of found.now)) }
{
    found.get_str(name)
}

/// Returns the number that an option was given. None if it was left out.
fn option_number<'a>(found: &ArgMatches<'a>, name: &str) -> Option<u64>
    ensures { MatchOption result
        ((n : ℕ) → ¬ (GivesNumber name.now (rows_of (found_of found.now)) n))
        (GivesNumber name.now (rows_of (found_of found.now))) }
{
    found.get_one::<u64>(name)
}

/// Returns the paths of the database file and of the settings file, if both were given.
fn file_paths<'a>(found: &ArgMatches<'a>) -> Option<(&'a str, &'a str)>
    ensures { MatchOption result
        ((db : Bor (List ℕ)) → (settings : Bor (List ℕ))
        → ¬ (GivesFiles (rows_of (found_of found.now)) db settings))
        (λ files. GivesFiles (rows_of (found_of found.now)) files.0 files.1) }
{
    let db = option_text(found, "db")?;
    let settings = option_text(found, "settings")?;
    Some((db, settings))
}

/// Returns the order of `serve`, with its files, port and count. None if one of them is missing.
pub(crate) fn serve_order<'a>(found: &ArgMatches<'a>) -> Option<Order<'a>>
    ensures { FindsOrder IsServeOrder (rows_of (found_of found.now)) result }
{
    let (db, settings) = file_paths(found)?;
    let port = option_number(found, "port")?;
    let count = option_number(found, "count")?;
    Some(Order::Serve {
        db,
        settings,
        port,
        count,
    })
}

/// Returns the order of `answer`, with its files, time and seed. None if the time or the seed is missing.
pub(crate) fn answer_order<'a>(found: &ArgMatches<'a>) -> Option<Order<'a>>
    ensures { FindsOrder IsAnswerOrder (rows_of (found_of found.now)) result }
{
    let now = option_number(found, "now")?;
    let seed = option_text(found, "seed")?;
    Some(Order::Answer {
        db: option_text(found, "db"),
        settings: option_text(found, "settings"),
        now,
        seed,
    })
}

/// Returns the order of `print`, with its files and batch. None if one of them is missing.
pub(crate) fn print_order<'a>(found: &ArgMatches<'a>) -> Option<Order<'a>>
    ensures { FindsOrder IsPrintOrder (rows_of (found_of found.now)) result }
{
    let (db, settings) = file_paths(found)?;
    let batch = option_text(found, "batch")?;
    Some(Order::Print {
        db,
        settings,
        batch,
    })
}

/// Returns the order of `takings`, with its files, first day and last day. None if one of them is missing.
pub(crate) fn takings_order<'a>(found: &ArgMatches<'a>) -> Option<Order<'a>>
    ensures { FindsOrder IsTakingsOrder (rows_of (found_of found.now)) result }
{
    let (db, settings) = file_paths(found)?;
    let from = option_text(found, "from")?;
    let to = option_text(found, "to")?;
    Some(Order::Takings {
        db,
        settings,
        from,
        to,
    })
}

/// Returns the order of `check`, with its files. None if a file is missing.
pub(crate) fn check_order<'a>(found: &ArgMatches<'a>) -> Option<Order<'a>>
    ensures { FindsOrder IsCheckOrder (rows_of (found_of found.now)) result }
{
    let (db, settings) = file_paths(found)?;
    Some(Order::Check { db, settings })
}
