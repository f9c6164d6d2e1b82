//! The whole program, over its arguments, a place that holds its files, a network, a reader and two writers.
ghost use Rattle.std.specs.Prelude.{◌≡◌, map};
ghost use Rattle.portal_commands.specs.Bounds.{network_of, place_value};
ghost use Rattle.portal_server.specs.Turns.{wire_of};
ghost use Rattle.portal_commands.specs.Program.{EndsPrintingText, EndsOrder, EndsProgram, EndsServing};
ghost use Rattle.portal_server.specs.Streams.{outlets, Prints};

use crate::answering::{AnswerOptions, answer};
use crate::causes::UsageFault;
use crate::checking::check;
use crate::command_line::parse_command_line;
use crate::order::{NoOrder, Order};
use crate::place::{Files, Place};
use crate::printing::print;
use crate::serving::{Network, ServeOptions, serve};
use crate::takings::takings;
use crate::trouble::Trouble;
use crate::version::version_line;
use portal_server::{ProgramError, print_best_effort, print_for_exit_code};
use std::alloc::Global;
use std::convert::AsStr;
use std::io::{Read, Write};

/// Prints help, the version or a message if the command line gives no order, and returns the exit code: 0 for
/// help and the version, which go to `output`; 2 for an invalid command line, whose message goes to `errors`;
/// 3 if out of memory or if not all of the text for `output` is written.
fn print_no_order<W: Write, E: Write>(printout: &NoOrder, output: &mut W, errors: &mut E) -> u8
    ensures { EndsPrintingText printout.now
        (outlets W.Write E.Write output.old output.new errors.old errors.new) result }
{
    match printout {
        NoOrder::Help(text) => print_for_exit_code(text.as_bytes(), 0, output, errors),
        NoOrder::Version => print_for_exit_code(version_line().as_bytes(), 0, output, errors),
        NoOrder::Invalid(text) => report_usage(text.as_bytes(), errors),
        NoOrder::NoMemory => ProgramError::NoMemory.report(errors),
    }
}

/// Prints the message about an invalid command line, as far as it can be written, and returns 2.
fn report_usage<E: Write>(text: &[u8], errors: &mut E) -> u8
    ensures status { result ≡ 2 }
    ensures prints { Prints (E.contents errors.old) (E.contents errors.new) text.now }
{
    print_best_effort(text, errors);
    2
}

/// Runs `serve` at a port, and returns the exit code. Error: `usage`, if the port is past 65,535.
fn run_serve<P: Place, N: Network, W: Write, E: Write>(
    alloc: Global,
    place: P,
    network: N,
    files: Files<'_>,
    port: u64,
    count: u64,
    output: &mut W,
    errors: &mut E,
) -> u8
    ensures { EndsServing (place_value P.Place P.Stored.Desk place) files.entry
        (network_of N.Network N.Bound.Host N.Bound.Reader.Read N.Bound.Writer.Write network) port count
        (outlets W.Write E.Write output.old output.new errors.old errors.new) result }
{
    if port > 65_535 {
        return Trouble::of_usage(alloc, UsageFault::Port).report(errors);
    }
    let at = ServeOptions {
        port: port as u16,
        count,
    };
    serve(alloc, place, network, files, at, output, errors)
}

/// Runs the subcommand of an order, and returns the exit code.
fn run_order<P: Place, N: Network, R: Read, W: Write, E: Write>(
    alloc: Global,
    place: P,
    network: N,
    order: Order<'_>,
    input: &mut R,
    output: &mut W,
    errors: &mut E,
) -> u8
    ensures { EndsOrder (place_value P.Place P.Stored.Desk place)
        (network_of N.Network N.Bound.Host N.Bound.Reader.Read N.Bound.Writer.Write network)
        (wire_of R.Read W.Write input.old input.new output.old output.new)
        (E.contents errors.old) (E.contents errors.new) order.entry result }
{
    match order {
        Order::Serve {
            db,
            settings,
            port,
            count,
        } => run_serve(
            alloc,
            place,
            network,
            Files { db, settings },
            port,
            count,
            output,
            errors,
        ),
        Order::Answer {
            db,
            settings,
            now,
            seed,
        } => answer(
            alloc,
            place,
            &AnswerOptions {
                db,
                settings,
                now,
                seed,
            },
            input,
            output,
            errors,
        ),
        Order::Print {
            db,
            settings,
            batch,
        } => print(alloc, place, Files { db, settings }, batch, output, errors),
        Order::Takings {
            db,
            settings,
            from,
            to,
        } => takings(
            alloc,
            place,
            Files { db, settings },
            from,
            to,
            output,
            errors,
        ),
        Order::Check { db, settings } => check(
            alloc,
            place,
            Files { db, settings },
            output,
            errors,
        ),
    }
}

/// Runs the program: parses its arguments, of which the first is the program's own name, runs the subcommand,
/// and returns the exit code.
pub fn run_program<P: Place, N: Network, S: AsStr, R: Read, W: Write, E: Write>(
    alloc: Global,
    place: P,
    network: N,
    words: &[S],
    input: &mut R,
    output: &mut W,
    errors: &mut E,
) -> u8
    ensures { EndsProgram (place_value P.Place P.Stored.Desk place)
        (network_of N.Network N.Bound.Host N.Bound.Reader.Read N.Bound.Writer.Write network)
        (wire_of R.Read W.Write input.old input.new output.old output.new)
        (E.contents errors.old) (E.contents errors.new) (map S.text words.now) result }
{
    match parse_command_line(alloc, words) {
        Ok(order) => run_order(alloc, place, network, order, input, output, errors),
        Err(printout) => print_no_order(&printout, output, errors),
    }
}
