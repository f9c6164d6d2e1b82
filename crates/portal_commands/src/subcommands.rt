//! The subcommands, as clap is given them.
ghost use Rattle.std.specs.Prelude.{◌≡◌, false, IfOk};
ghost use Rattle.clap.specs.Words.{app_of, rule_of, with_rule};
ghost use Rattle.clap.specs.declared.builder.command.Command.TheViews.{out-Command as fields_of};
ghost use Rattle.portal_commands.specs.CommandLine.{
  serve_subcommand,
  answer_subcommand,
  print_subcommand,
  takings_subcommand,
  check_subcommand,
  with_files,
  with_optional_files,
  bare_command_line,
  with_serving_subcommands,
  with_printing_subcommands,
  command_line,
};

use crate::help_texts::{
    answer_examples, check_examples, examples, print_examples, serve_examples, takings_examples,
};
use crate::options::{
    batch_argument, count_option, db_option, from_argument, now_option, optional_db_option,
    optional_settings_option, port_option, seed_option, settings_option, to_argument,
};
use crate::version::version_line;
use clap::{Arg, Command};
use std::alloc::{AllocError, Global};

/// The help of `--db` of a subcommand that makes a missing database, and of one that does not.
const MADE_DB: &str = "The database file, created if it is missing";

const ASKED_DB: &str = "The database file";

/// Adds two options to a subcommand. They are its own, and not global ones.
fn with_two_options<'a>(
    command: Command<'a>,
    first: Arg<'a>,
    second: Arg<'a>,
) -> Result<Command<'a>, AllocError>
    requires own { (fields_of command).has_globals ≡ false }
    requires own_first { first.global ≡ false }
    requires own_second { second.global ≡ false }
    ensures subcommand { IfOk result (λ c. app_of c ≡
        with_rule (with_rule (app_of command.entry) (rule_of first.entry)) (rule_of second.entry)) }
    ensures here { IfOk result (λ c. (fields_of c).has_globals ≡ false) }
{
    command.arg(first)?.arg(second)
}

/// Adds `--db PATH`, with this help, and `--settings PATH`, both required, to a subcommand.
fn with_files<'a>(
    alloc: Global,
    command: Command<'a>,
    db_help: &'a str,
) -> Result<Command<'a>, AllocError>
    requires { (fields_of command).has_globals ≡ false }
    ensures subcommand { IfOk result (λ c. app_of c ≡ with_files (app_of command.entry)) }
    ensures here { IfOk result (λ c. (fields_of c).has_globals ≡ false) }
{
    with_two_options(command, db_option(alloc, db_help), settings_option(alloc))
}

/// Adds `--db PATH` and `--settings PATH`, both optional, to a subcommand.
fn with_optional_files<'a>(alloc: Global, command: Command<'a>) -> Result<Command<'a>, AllocError>
    requires { (fields_of command).has_globals ≡ false }
    ensures subcommand { IfOk result (λ c. app_of c ≡ with_optional_files (app_of command.entry)) }
    ensures here { IfOk result (λ c. (fields_of c).has_globals ≡ false) }
{
    with_two_options(
        command,
        optional_db_option(alloc),
        optional_settings_option(alloc),
    )
}

/// Returns the subcommand `serve --db PATH --settings PATH --port N --count N`.
fn serve_subcommand<'a>(alloc: Global) -> Result<Command<'a>, AllocError>
    ensures subcommand { IfOk result (λ c. app_of c ≡ serve_subcommand) }
    ensures here { IfOk result (λ c. (fields_of c).has_globals ≡ false) }
{
    let command = Command::new(alloc, "serve")
        .about("Serves connections on 127.0.0.1, one after another")
        .after_help(serve_examples());
    let command = with_files(alloc, command, MADE_DB)?;
    with_two_options(command, port_option(alloc), count_option(alloc))
}

/// Returns the subcommand `answer --db PATH --settings PATH --now N --seed HEX`.
fn answer_subcommand<'a>(alloc: Global) -> Result<Command<'a>, AllocError>
    ensures subcommand { IfOk result (λ c. app_of c ≡ answer_subcommand) }
    ensures here { IfOk result (λ c. (fields_of c).has_globals ≡ false) }
{
    let command = Command::new(alloc, "answer")
        .about("Answers the request on standard input with a response on standard output")
        .after_help(answer_examples());
    let command = with_optional_files(alloc, command)?;
    with_two_options(command, now_option(alloc), seed_option(alloc))
}

/// Returns the subcommand `print BATCH --db PATH --settings PATH`.
fn print_subcommand<'a>(alloc: Global) -> Result<Command<'a>, AllocError>
    ensures subcommand { IfOk result (λ c. app_of c ≡ print_subcommand) }
    ensures here { IfOk result (λ c. (fields_of c).has_globals ≡ false) }
{
    let command = Command::new(alloc, "print")
        .about("Prints the print file of a batch, as CSV")
        .after_help(print_examples());
    with_files(alloc, command, ASKED_DB)?.arg(batch_argument(alloc))
}

/// Returns the subcommand `takings FROM TO --db PATH --settings PATH`.
fn takings_subcommand<'a>(alloc: Global) -> Result<Command<'a>, AllocError>
    ensures subcommand { IfOk result (λ c. app_of c ≡ takings_subcommand) }
    ensures here { IfOk result (λ c. (fields_of c).has_globals ≡ false) }
{
    let command = Command::new(alloc, "takings")
        .about("Prints the takings of the days from FROM to TO")
        .after_help(takings_examples());
    let command = with_files(alloc, command, ASKED_DB)?;
    with_two_options(command, from_argument(alloc), to_argument(alloc))
}

/// Returns the subcommand `check --db PATH --settings PATH`.
fn check_subcommand<'a>(alloc: Global) -> Result<Command<'a>, AllocError>
    ensures subcommand { IfOk result (λ c. app_of c ≡ check_subcommand) }
    ensures here { IfOk result (λ c. (fields_of c).has_globals ≡ false) }
{
    let command = Command::new(alloc, "check")
        .about("Checks the counters of the database file against its rows")
        .after_help(check_examples());
    with_files(alloc, command, ASKED_DB)
}

/// Returns the command line of the program without its subcommands. A subcommand is required.
fn bare_command_line<'a>(alloc: Global) -> Command<'a>
    ensures { app_of result ≡ bare_command_line }
{
    Command::new(alloc, "portal")
        .about("The voucher and session desk behind a captive portal")
        .version(version_line())
        .after_help(examples())
        .subcommand_required(true)
}

/// Returns the command line with `serve` and `answer`.
fn with_serving_subcommands<'a>(alloc: Global) -> Result<Command<'a>, AllocError>
    ensures { IfOk result (λ c. app_of c ≡ with_serving_subcommands) }
{
    bare_command_line(alloc)
        .subcommand(serve_subcommand(alloc)?)?
        .subcommand(answer_subcommand(alloc)?)
}

/// Returns the command line with `serve`, `answer`, `print` and `takings`.
fn with_printing_subcommands<'a>(alloc: Global) -> Result<Command<'a>, AllocError>
    ensures { IfOk result (λ c. app_of c ≡ with_printing_subcommands) }
{
    with_serving_subcommands(alloc)?
        .subcommand(print_subcommand(alloc)?)?
        .subcommand(takings_subcommand(alloc)?)
}

/// Returns the command line with all five subcommands.
pub fn command_line<'a>(alloc: Global) -> Result<Command<'a>, AllocError>
    ensures { IfOk result (λ c. app_of c ≡ command_line) }
{
    with_printing_subcommands(alloc)?.subcommand(check_subcommand(alloc)?)
}
