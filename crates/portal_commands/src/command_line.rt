//! Parses a command line into an order.
ghost use Rattle.std.specs.Prelude.{◌≡◌, Some, IfOk, IfErr, map};
ghost use Rattle.clap.specs.Words.{found_of, kind_of, rows_of, subcommand_rows_of};
ghost use Rattle.portal_commands.specs.Orders.{FindsNamed, GivesOrder, GivesNoOrder, GivesKind, IsNoHelp};

use crate::matches::{answer_order, check_order, print_order, serve_order, takings_order};
use crate::order::{NoOrder, Order};
use crate::subcommands::command_line;
use clap::error::ErrorKind;
use clap::{ArgMatches, Error};
use std::alloc::Global;
use std::convert::AsStr;

/// Returns the order of the subcommand with this name, from the arguments that clap found. None if the name
/// is no subcommand, or if an argument is missing.
#[tactic(auto, using(crate::proofs::OrderLemmas::named))]
fn order_by_name<'a>(name: &str, found: &ArgMatches<'a>) -> Option<Order<'a>>
    ensures { FindsNamed (Some (name.now, rows_of (found_of found.now))) result }
{
    if name == "serve" {
        serve_order(found)
    } else if name == "answer" {
        answer_order(found)
    } else if name == "print" {
        print_order(found)
    } else if name == "takings" {
        takings_order(found)
    } else if name == "check" {
        check_order(found)
    } else {
        None
    }
}

/// Returns the order of the subcommand that clap found. None if there is no subcommand, or if an argument is
/// missing.
#[tactic(auto, using(crate::proofs::OrderLemmas::found_so))]
fn order_of<'a>(matches: &ArgMatches<'a>) -> Option<Order<'a>>
    ensures { FindsNamed (subcommand_rows_of matches.now) result }
{
    let (name, found) = matches.subcommand()?;
    order_by_name(name, found)
}

/// Converts an error of clap into help, the version, a message or out of memory.
fn no_order_of(alloc: Global, error: &Error) -> NoOrder
    ensures { GivesKind (kind_of error.now) result }
{
    let Ok(text) = format!(in alloc; "{error}") else {
        return NoOrder::NoMemory;
    };
    match error.kind() {
        ErrorKind::OutOfMemory => NoOrder::NoMemory,
        ErrorKind::DisplayHelp => NoOrder::Help(text),
        ErrorKind::DisplayVersion => NoOrder::Version,
        _ => NoOrder::Invalid(text),
    }
}

/// Returns the error message for a command line without a subcommand.
fn missing_subcommand(alloc: Global) -> NoOrder
    ensures { IsNoHelp result }
{
    match String::from_str(alloc, "error: no subcommand given\n") {
        Ok(text) => NoOrder::Invalid(text),
        Err(_) => NoOrder::NoMemory,
    }
}

/// Parses the arguments of a command line, of which the first is the program's own name, into an order.
///
/// Err: help or the version if the arguments ask for it, the message about an invalid command line, or out of
/// memory.
pub fn parse_command_line<'a, S: AsStr>(alloc: Global, words: &'a [S]) -> Result<Order<'a>, NoOrder>
    ensures order { IfOk result (GivesOrder (map S.text words.entry.now)) }
    ensures no_order { IfErr result (GivesNoOrder (map S.text words.entry.now)) }
{
    let Ok(command) = command_line(alloc) else {
        return Err(NoOrder::NoMemory);
    };
    match command.try_get_matches_from(words) {
        Err(error) => Err(no_order_of(alloc, &error)),
        Ok(matches) => match order_of(&matches) {
            Some(order) => Ok(order),
            None => Err(missing_subcommand(alloc)),
        },
    }
}
