//! The causes that are told after the line of an error, in words.
ghost use Rattle.std.specs.Prelude.{◌≡◌, IfOk, string_bytes};
ghost use Rattle.portal_commands.specs.Causes.{
  rule_of,
  settings_text,
  port_text,
  option_of,
  range_of,
};

use portal_files::{SettingsFault, SettingsKey};
use std::alloc::{AllocError, Global};

/// A value on the command line that is out of its range.
#[derive(Clone, Copy, Debug, PartialEq, Eq)]
pub enum UsageFault {
    /// An argument is not UTF-8.
    Arguments,
    /// The port is past 65,535.
    Port,
    /// The time is past the greatest one.
    Now,
    /// The seed is not 64 hexadecimal digits.
    Seed,
    /// The first day is no date.
    From,
    /// The last day is no date.
    To,
    /// The two days are not in order, or are the ends of more than 366 days.
    Days,
}

impl UsageFault {
    /// Returns the option or the arguments whose value it is, as `--help` calls them.
    pub fn option(self) -> &'static str
        ensures { result.now ≡ option_of self }
    {
        match self {
            UsageFault::Arguments => "arguments",
            UsageFault::Port => "--port",
            UsageFault::Now => "--now",
            UsageFault::Seed => "--seed",
            UsageFault::From => "FROM",
            UsageFault::To => "TO",
            UsageFault::Days => "FROM and TO",
        }
    }

    /// Returns the range of the values that it may have, in words.
    pub fn range(self) -> &'static str
        ensures { result.now ≡ range_of self }
    {
        match self {
            UsageFault::Arguments => "text in UTF-8",
            UsageFault::Port => "1 to 65535",
            UsageFault::Now => "0 to 253370764799",
            UsageFault::Seed => "64 hexadecimal digits",
            UsageFault::From => "a date as YYYY-MM-DD, of the years 1969 to 9999",
            UsageFault::To => "a date as YYYY-MM-DD, of the years 1969 to 9999",
            UsageFault::Days => "the first and the last of 1 to 366 days",
        }
    }
}

/// Returns what the value of a key of a settings file has to be, in words.
fn rule_of(key: SettingsKey) -> &'static str
    ensures { result.now ≡ rule_of key }
{
    match key {
        SettingsKey::Zone => {
            "a POSIX TZ rule of 1 to 64 bytes, such as CET-1CEST,M3.5.0,M10.5.0/3, \
            which is the last line of /usr/share/zoneinfo/Europe/Berlin"
        }
        SettingsKey::PortalUrl => {
            "a URL that begins with https:// and has 9 to 2048 bytes of visible ASCII"
        }
        SettingsKey::VenueUrl => {
            "a URL that begins with https:// and has 9 to 2048 bytes of visible ASCII"
        }
        SettingsKey::DeskToken => "a text of 8 to 128 bytes of visible ASCII",
        SettingsKey::GatewayToken => "a text of 8 to 128 bytes of visible ASCII",
    }
}

/// Says what is wrong with a settings file. The only error is out of memory.
pub(crate) fn settings_text(alloc: Global, fault: SettingsFault) -> Result<String, AllocError>
    ensures { IfOk result (λ text. string_bytes text ≡ settings_text fault) }
{
    match fault {
        SettingsFault::NotToml(line) => format!(in alloc;
            "line {line} is not TOML in UTF-8: a line is KEY = \"VALUE\", and no key occurs twice"
        ),
        SettingsFault::Missing(key) => format!(in alloc; "{} is missing", key.name()),
        SettingsFault::Wrong(key) => format!(in alloc; "{} is not {}", key.name(), rule_of(key)),
        SettingsFault::FurtherKey => String::from_str(
            alloc,
            "there is a key other than zone, portal_url, venue_url, desk_token and gateway_token",
        ),
        SettingsFault::SameTokens => {
            String::from_str(alloc, "desk_token and gateway_token are the same")
        }
    }
}

/// Names a port. The only error is out of memory.
pub(crate) fn port_text(alloc: Global, port: u16) -> Result<String, AllocError>
    ensures { IfOk result (λ text. string_bytes text ≡ port_text port) }
{
    format!(in alloc; "port {port}")
}
