//! The options and arguments of the subcommands.
ghost use Rattle.std.specs.Prelude.{◌≡◌, false};
ghost use Rattle.clap.specs.Words.{rule_of};
ghost use Rattle.portal_commands.specs.CommandLine.{
  db_option,
  optional_db_option,
  settings_option,
  optional_settings_option,
  port_option,
  count_option,
  now_option,
  seed_option,
  batch_argument,
  from_argument,
  to_argument,
};

use clap::Arg;
use clap::builder::ValueParser;
use std::alloc::Global;

/// Returns the required option `--db PATH`: the database file, with this help.
pub(crate) fn db_option<'a>(alloc: Global, help: &'a str) -> Arg<'a>
    ensures option { rule_of result ≡ db_option }
    ensures here { result.global ≡ false }
{
    Arg::new(alloc, "db")
        .long("db")
        .value_name("PATH")
        .help(help)
        .required(true)
}

/// Returns the optional option `--db PATH`. Without it the database is empty and in memory.
pub(crate) fn optional_db_option<'a>(alloc: Global) -> Arg<'a>
    ensures option { rule_of result ≡ optional_db_option }
    ensures here { result.global ≡ false }
{
    Arg::new(alloc, "db").long("db").value_name("PATH").help(
        "The database file, created if it is missing; without it an empty database in memory",
    )
}

/// Returns the required option `--settings PATH`: the settings file.
pub(crate) fn settings_option<'a>(alloc: Global) -> Arg<'a>
    ensures option { rule_of result ≡ settings_option }
    ensures here { result.global ≡ false }
{
    Arg::new(alloc, "settings")
        .long("settings")
        .value_name("PATH")
        .help("The settings file")
        .required(true)
}

/// Returns the optional option `--settings PATH`. Without it the sample settings are used.
pub(crate) fn optional_settings_option<'a>(alloc: Global) -> Arg<'a>
    ensures option { rule_of result ≡ optional_settings_option }
    ensures here { result.global ≡ false }
{
    Arg::new(alloc, "settings")
        .long("settings")
        .value_name("PATH")
        .help("The settings file; without it the sample settings")
}

/// Returns the option `--port N`, from 1 to 65535, with the default 8080.
pub(crate) fn port_option<'a>(alloc: Global) -> Arg<'a>
    ensures option { rule_of result ≡ port_option }
    ensures here { result.global ≡ false }
{
    Arg::new(alloc, "port")
        .long("port")
        .value_name("N")
        .value_parser(ValueParser::unsigned(1, 65535))
        .default_value("8080")
        .help("The port, 1 to 65535")
}

/// Returns the option `--count N`: the number of connections to serve, from 1 to 1000000000, which is the
/// default.
pub(crate) fn count_option<'a>(alloc: Global) -> Arg<'a>
    ensures option { rule_of result ≡ count_option }
    ensures here { result.global ≡ false }
{
    Arg::new(alloc, "count")
        .long("count")
        .value_name("N")
        .value_parser(ValueParser::unsigned(1, 1000000000))
        .default_value("1000000000")
        .help("The number of connections to serve, 1 to 1000000000")
}

/// Returns the required option `--now N`: the time of the request in seconds since 1970 UTC, any `u64`.
pub(crate) fn now_option<'a>(alloc: Global) -> Arg<'a>
    ensures option { rule_of result ≡ now_option }
    ensures here { result.global ≡ false }
{
    Arg::new(alloc, "now")
        .long("now")
        .value_name("N")
        .value_parser(ValueParser::unsigned(0, u64::MAX))
        .help("The time of the request, in seconds since 1970 (UTC), 0 to 253370764799")
        .required(true)
}

/// Returns the required option `--seed HEX`: the seed of a batch.
pub(crate) fn seed_option<'a>(alloc: Global) -> Arg<'a>
    ensures option { rule_of result ≡ seed_option }
    ensures here { result.global ≡ false }
{
    Arg::new(alloc, "seed")
        .long("seed")
        .value_name("HEX")
        .help("The 32 bytes from which new codes are made, as 64 hexadecimal digits")
        .required(true)
}

/// Returns the required argument `BATCH`: the id of a batch.
pub(crate) fn batch_argument<'a>(alloc: Global) -> Arg<'a>
    ensures option { rule_of result ≡ batch_argument }
    ensures here { result.global ≡ false }
{
    Arg::new(alloc, "batch")
        .value_name("BATCH")
        .help("The id of the batch")
        .required(true)
}

/// Returns the required argument `FROM`: the first day.
pub(crate) fn from_argument<'a>(alloc: Global) -> Arg<'a>
    ensures option { rule_of result ≡ from_argument }
    ensures here { result.global ≡ false }
{
    Arg::new(alloc, "from")
        .value_name("FROM")
        .help("The first day, as YYYY-MM-DD")
        .required(true)
}

/// Returns the required argument `TO`: the last day.
pub(crate) fn to_argument<'a>(alloc: Global) -> Arg<'a>
    ensures option { rule_of result ≡ to_argument }
    ensures here { result.global ≡ false }
{
    Arg::new(alloc, "to")
        .value_name("TO")
        .help("The last day, as YYYY-MM-DD")
        .required(true)
}
